//! What is read: a payload or an area.
ghost use Rattle.std.specs.Prelude.{◌≡◌};
ghost use Rattle.change_set.specs.Forms.{may_have, may_count};

use crate::change::Change;

/// A payload says what changed. An area is what makes empty tables into others: no change in it
/// deletes anything, and it may have none at all.
#[derive(Clone, Copy, Debug)]
pub(crate) enum Form {
    Payload,
    Area,
}

impl Form {
    /// Whether such a change may stand there.
    pub(crate) fn may_have(self, change: &Change) -> bool
        ensures { result ≡ may_have self change.now }
    {
        match (self, change) {
            (Form::Area, Change::Delete(..)) => false,
            _ => true,
        }
    }

    /// Whether so many changes may stand there.
    pub(crate) fn may_count(self, count: u32) -> bool
        ensures { result ≡ may_count self count }
    {
        match self {
            Form::Payload => count != 0,
            Form::Area => true,
        }
    }
}

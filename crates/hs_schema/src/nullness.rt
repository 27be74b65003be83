//! What a column does where no value is given.
ghost use Rattle.std.specs.Prelude.{◌≡◌};
ghost use Rattle.hs_schema.specs.Reading.{nullness_of, allows_null, is_counted};

/// Whether NULL may stand in a column, or a number is drawn in its place.
#[derive(Clone, Copy, Debug, PartialEq, Eq)]
pub(crate) enum Nullness {
    Allowed,
    Forbidden,
    Counted,
}

impl Nullness {
    /// The nullness of this name.
    pub(crate) fn of(text: &[u8]) -> Option<Nullness>
        ensures { result ≡ nullness_of text.now }
    {
        if text == b"null".as_slice() {
            Some(Nullness::Allowed)
        } else if text == b"not".as_slice() {
            Some(Nullness::Forbidden)
        } else if text == b"auto".as_slice() {
            Some(Nullness::Counted)
        } else {
            None
        }
    }

    pub(crate) fn allows_null(self) -> bool
        ensures { result ≡ allows_null self }
    {
        match self {
            Nullness::Allowed => true,
            Nullness::Forbidden | Nullness::Counted => false,
        }
    }

    pub(crate) fn is_counted(self) -> bool
        ensures { result ≡ is_counted self }
    {
        match self {
            Nullness::Allowed | Nullness::Forbidden => false,
            Nullness::Counted => true,
        }
    }
}

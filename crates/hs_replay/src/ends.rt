//! Why a line of a script is bad, how a part of a script ended, and how a run did.
use hs_schema::SchemaRule;

/// Why a line of a script is bad.
#[derive(Clone, Copy, Debug, PartialEq, Eq)]
pub enum Flaw {
    /// It is no event, or none that may come in its place, or it is missing.
    NoEvent,
    /// It is a table line that breaks this rule first, at the token of this number, from 0.
    BadTable(SchemaRule, u32),
}

/// A bad line of a script.
#[derive(Clone, Copy, Debug, PartialEq, Eq)]
pub struct BadLine {
    /// From 1.
    pub number: u64,
    pub flaw: Flaw,
}

/// What came of an event.
#[derive(Clone, Copy, Debug, PartialEq, Eq)]
pub enum Outcome {
    Done,
    /// It may not come in its place.
    Refused(Flaw),
    /// A write failed, and the output's count of faults rose.
    Unwritten,
    Memory,
}

/// What came of a part of a script.
#[derive(Clone, Copy, Debug, PartialEq, Eq)]
pub enum Step {
    Done,
    Bad(BadLine),
    /// A write failed, and the output's count of faults rose.
    Unwritten,
    Memory,
}

/// How a run ended.
#[derive(Clone, Copy, Debug, PartialEq, Eq)]
pub enum Ending {
    Whole,
    Bad(BadLine),
    /// A read failed, and the script's count of faults rose.
    Unread,
    /// A write failed, and the output's count of faults rose.
    Unwritten,
    Memory,
}

//! Why a line is refused, or what it asks for.
ghost use Rattle.std.specs.Prelude.{◌≡◌};
ghost use Rattle.request_types.specs.Code.{number, text};

use crate::texts::text_of;

/// The refusals, in the order of their numbers. A request line meets those up to `Value`, `Ids` and
/// `AuthKey`; what it asks for meets `Value` and those up to `Big`. A statement meets `Syntax` and
/// those behind it.
#[derive(Clone, Copy, Debug, PartialEq, Eq)]
pub enum Code {
    /// The line begins with no `P`, no `A` and no open id's number.
    Cmd = 1,
    /// Tokens are missing, are left over, or aren't the numbers that their places ask for.
    Args = 2,
    /// The port has a secret, and the connection hasn't told it.
    Unauth = 3,
    /// No tokens are spelled so.
    Token = 4,
    /// The id isn't open.
    NoIndex = 5,
    /// No table has these names.
    Table = 6,
    /// The table has no index of this name.
    Index = 7,
    /// A list names a column that the table doesn't have, or one twice.
    Column = 8,
    /// A change or an insert, on the reading port.
    ReadOnly = 9,
    /// The second token is no operator.
    Op = 10,
    /// The number of values is none, or above that of the columns.
    Vlen = 11,
    /// A list of values that can't stand for a value of the key.
    In = 12,
    /// A filter with no operator, or on a column that wasn't opened for filters.
    Filter = 13,
    /// A change of more columns than were opened, or of a text by a number.
    Mod = 14,
    /// A value that is no integer, for an integer column, or a text that is too long for its
    /// column.
    Value = 15,
    /// Another row has the same key in an index that allows no two such rows.
    Dup = 16,
    /// NULL in a column that forbids it.
    Null = 17,
    /// A number outside 64 bits.
    Range = 18,
    /// The rows would grow beyond the limit on all rows.
    Full = 19,
    /// A reply that would be longer than a reply may be.
    Big = 20,
    /// As many ids are open as may be.
    Ids = 21,
    /// Another key than the port's secret.
    AuthKey = 22,
    /// The line is no statement.
    Syntax = 30,
    /// A statement names a table or a column that isn't there, or a column twice.
    Name = 31,
    /// A value of one kind where a statement needs one of another.
    WrongKind = 32,
}

impl Code {
    /// The number that the reply begins with.
    pub fn number(self) -> u32
        ensures { result ≡ number self }
    {
        self as u32
    }

    /// The text that stands beside the number.
    pub fn text(self) -> &'static str
        ensures { result.now ≡ text self }
    {
        text_of(self.number())
    }
}

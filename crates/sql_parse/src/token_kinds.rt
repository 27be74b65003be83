//! The kinds of token, and the words that are none but themselves.

ghost use Rattle.std.specs.Prelude.{◌≡◌, ◌≢◌, true, false};
ghost use Rattle.sql_parse.specs.Lex as spec;

/// What a token is. Of a name, a number and a string it is the spelling that says which.
#[derive(Clone, Copy, Debug, PartialEq, Eq)]
pub(crate) enum TokenKind {
    Select,
    From,
    Where,
    Order,
    By,
    Asc,
    Desc,
    Limit,
    /// It is a name too, wherever one may stand.
    Offset,
    Insert,
    Into,
    Values,
    Update,
    Set,
    Delete,
    And,
    Or,
    Not,
    In,
    Is,
    Null,
    Default,
    Name,
    /// A name between backquotes.
    Quoted,
    Number,
    /// A string between quotes.
    Text,
    /// A string of hexadecimal digits.
    Hex,
    Open,
    Close,
    Comma,
    Semicolon,
    Dot,
    Star,
    Plus,
    Minus,
    Equal,
    NotEqual,
    Less,
    LessEqual,
    Greater,
    GreaterEqual,
    /// The line is at its end.
    End,
    /// Nothing that is spelled so is a token.
    Bad,
}

/// The keywords, which are read without regard to ASCII case.
pub(crate) const KEYWORDS: [(&[u8], TokenKind); 22] = [
    (b"select", TokenKind::Select),
    (b"from", TokenKind::From),
    (b"where", TokenKind::Where),
    (b"order", TokenKind::Order),
    (b"by", TokenKind::By),
    (b"asc", TokenKind::Asc),
    (b"desc", TokenKind::Desc),
    (b"limit", TokenKind::Limit),
    (b"offset", TokenKind::Offset),
    (b"insert", TokenKind::Insert),
    (b"into", TokenKind::Into),
    (b"values", TokenKind::Values),
    (b"update", TokenKind::Update),
    (b"set", TokenKind::Set),
    (b"delete", TokenKind::Delete),
    (b"and", TokenKind::And),
    (b"or", TokenKind::Or),
    (b"not", TokenKind::Not),
    (b"in", TokenKind::In),
    (b"is", TokenKind::Is),
    (b"null", TokenKind::Null),
    (b"default", TokenKind::Default),
];

pub(crate) fn same_kind(a: TokenKind, b: TokenKind) -> bool
    ensures value { result ≡ spec.same_kind a b }
    ensures same { result ≡ true → a ≡ b }
    ensures other { result ≡ false → a ≢ b }
{
    a == b
}

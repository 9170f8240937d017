//! The tokens of an expression.

ghost use Rattle.std.specs.Prelude.{◌≡◌};
ghost use Rattle.alt_expr.specs.Tokens.{same_keyword, same_mark};

/// A token. Its words borrow the text, and a `#` or `:` word holds its sign.
#[derive(Clone, Copy, Debug)]
pub enum Token<'a> {
    Keyword(Keyword),
    Word(&'a str),
    HashWord(&'a str),
    ColonWord(&'a str),
    Index(u32),
    Mark(Mark),
}

/// A keyword, which may be written in any case. `Among` is IN.
#[derive(Clone, Copy, Debug, PartialEq, Eq)]
pub enum Keyword {
    And,
    Or,
    Not,
    Among,
    Between,
    Set,
    Remove,
    Add,
    Delete,
}

/// A mark of one or two bytes.
#[derive(Clone, Copy, Debug, PartialEq, Eq)]
pub enum Mark {
    Dot,
    LeftSquare,
    RightSquare,
    LeftRound,
    RightRound,
    Comma,
    Equal,
    NotEqual,
    Less,
    LessEqual,
    Greater,
    GreaterEqual,
    Plus,
    Minus,
}

/// Whether two keywords are one.
pub fn same_keyword(a: Keyword, b: Keyword) -> bool
    ensures { result ≡ same_keyword a b }
{
    a == b
}

/// Whether two marks are one.
pub fn same_mark(a: Mark, b: Mark) -> bool
    ensures { result ≡ same_mark a b }
{
    a == b
}

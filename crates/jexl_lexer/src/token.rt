// Tokens, and the bytes that they stand in.
ghost use Rattle.std.specs.Prelude.{◌≡◌};

use sequences::Text;

/// A sign of Jexl, in the order `&& || == != <= >= // < > + - * % ^ ! ? : . , ( ) [ ] { } |`.
#[derive(Clone, Copy, Debug, PartialEq, Eq)]
pub enum Sign {
    And,
    Or,
    Equal,
    NotEqual,
    AtMost,
    AtLeast,
    FloorDiv,
    Less,
    Greater,
    Plus,
    Minus,
    Star,
    Percent,
    Caret,
    Bang,
    Question,
    Colon,
    Dot,
    Comma,
    LeftRound,
    RightRound,
    LeftSquare,
    RightSquare,
    LeftBrace,
    RightBrace,
    Bar,
}

/// What a token is.
#[derive(Drop)]
pub enum TokenKind {
    /// A longest run of digits. `lex` gives none below 0.
    Number(i64),
    /// What stands between two quotes, without the backslashes before characters.
    Quoted(Text),
    /// A name, which begins with a letter, `_` or `$` and goes on with these and digits.
    Name(Text),
    Sign(Sign),
}

/// A token, and the bytes from `start` up to `end` that it stands in.
#[derive(Drop)]
pub struct Token {
    pub kind: TokenKind,
    pub start: usize,
    pub end: usize,
}

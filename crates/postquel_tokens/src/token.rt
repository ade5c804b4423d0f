//! Tokens.

use crate::Spot;
use lists::Sequence;
use rows::Text;

/// A mark. `Go` is the one that ends a statement, `\g`.
#[derive(Clone, Copy, Debug, PartialEq, Eq)]
pub enum Sign {
    Left,
    Right,
    Comma,
    Dot,
    Equal,
    NotEqual,
    Less,
    AtMost,
    More,
    AtLeast,
    Plus,
    Minus,
    Times,
    Go,
}

/// A name, a number, a text without its quotes and escapes, a mark, or the end of the text.
#[derive(Debug, Drop)]
pub enum TokenKind {
    Name(Text),
    Number(i64),
    Word(Text),
    Mark(Sign),
    End,
}

/// A token and the place of its first byte.
#[derive(Debug, Drop)]
pub struct Token {
    pub kind: TokenKind,
    pub spot: Spot,
}

/// The tokens of a text in order. The last one is its end.
pub type TokenList = Sequence<Token>;

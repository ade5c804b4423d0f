//! Faults of a text, and their places.

ghost use Rattle.std.specs.Prelude.{◌≡◌};
ghost use Rattle.postquel_tokens.specs.declared.fault.TextErr.TheVariants as text_err;

use std::alloc::{AllocError, AllocFailed};

/// A place in a text: its line, and its column in bytes, both from 1.
#[derive(Clone, Copy, Debug, PartialEq, Eq)]
pub struct Spot {
    pub line: u32,
    pub col: u32,
}

/// What is wrong with a text. `TooWide` holds the bound of the operator's value.
#[derive(Clone, Copy, Debug, PartialEq, Eq)]
pub enum What {
    NotUtf8,
    LongName,
    BigNumber,
    UnclosedText,
    BadEscape,
    LongText,
    BadChar,
    Unexpected,
    TooDeep,
    StatementTooLong,
    TooManyStatements,
    TooManyRanges,
    DoubleRange,
    NoRelation,
    NoRange,
    NoColumn,
    TypeMismatch,
    TooWide(u128),
    DoubleTarget,
    NoSortTarget,
    TooManyRelations,
    DoubleRelation,
    TooManyColumns,
    DoubleColumn,
    BadDegree,
    BadStep,
    FoldInto,
}

/// The first fault of a text with its place, or want of memory.
#[derive(Clone, Copy, Debug, PartialEq, Eq)]
pub enum TextErr {
    Fault { line: u32, col: u32, what: What },
    NoMemory,
}

impl TextErr {
    /// A fault at a place.
    pub fn at(spot: Spot, what: What) -> TextErr
        ensures { result ≡ text_err.Fault spot.line spot.col what }
    {
        TextErr::Fault {
            line: spot.line,
            col: spot.col,
            what,
        }
    }
}

impl From<AllocError> for TextErr {
    ghost from_gives = { λ _ made. made ≡ text_err.NoMemory };

    fn from(_error: AllocError) -> TextErr {
        TextErr::NoMemory
    }
}

impl<T: Drop> From<AllocFailed<T>> for TextErr {
    ghost from_gives = { λ _ made. made ≡ text_err.NoMemory };

    fn from(_refused: AllocFailed<T>) -> TextErr {
        TextErr::NoMemory
    }
}

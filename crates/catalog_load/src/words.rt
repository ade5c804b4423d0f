//! What one token of a catalogue may be.

ghost use Rattle.std.specs.Prelude.{◌≡◌};
ghost use Rattle.catalog_load.specs.Catalogs as spec;
ghost use Rattle.catalog_load.specs.Machine as machine;
ghost use Rattle.catalog_load.specs.Machine.{Finds};

use postquel_tokens::{Ident, Sign, Token, TokenKind, key_of};
use rows::{ColType, Text};
use std::alloc::{AllocError, AllocFailed, Global};

/// Why a token isn't taken.
#[derive(Clone, Copy, Debug, PartialEq, Eq)]
pub enum Halt {
    Unexpected,
    NoMemory,
}

impl From<AllocError> for Halt {
    ghost use Rattle.std.specs.Prelude.{◌≡◌};
    ghost use Rattle.catalog_load.specs.declared.words.Halt.TheVariants.{NoMemory};

    ghost from_gives = { λ _ made. made ≡ NoMemory };

    fn from(_error: AllocError) -> Halt {
        Halt::NoMemory
    }
}

impl<T: Drop> From<AllocFailed<T>> for Halt {
    ghost use Rattle.std.specs.Prelude.{◌≡◌};
    ghost use Rattle.catalog_load.specs.declared.words.Halt.TheVariants.{NoMemory};

    ghost from_gives = { λ _ made. made ≡ NoMemory };

    fn from(_refused: AllocFailed<T>) -> Halt {
        Halt::NoMemory
    }
}

#[tactic(auto, unfolding(crate::specs::Catalogs::is_key))]
fn is_key(name: &[u8]) -> bool
    ensures { result ≡ spec.is_key name.now }
{
    key_of(name).is_some()
}

// Whether a token is this name.
pub(crate) fn is_word(token: &Token, word: &[u8]) -> bool
    ensures { result ≡ machine.is_word word.now token.now }
{
    match &token.kind {
        TokenKind::Name(text) => text.items() == word,
        _ => false,
    }
}

// Whether a token is this mark.
pub(crate) fn is_mark(token: &Token, sign: Sign) -> bool
    ensures { result ≡ machine.is_mark sign token.now }
{
    match &token.kind {
        TokenKind::Mark(found) => *found == sign,
        _ => false,
    }
}

// A name that is no key, and its place.
pub(crate) fn name(alloc: Global, token: &Token) -> Result<Ident, Halt>
    ensures { Finds result (machine.name_of token.now) }
{
    match &token.kind {
        TokenKind::Name(text) if !is_key(text.items()) => Ok(Ident {
            text: Text::from_slice(alloc, text.items())?,
            spot: token.spot,
        }),
        _ => Err(Halt::Unexpected),
    }
}

// A text without its quotes and escapes.
pub(crate) fn quoted(alloc: Global, token: &Token) -> Result<Text, Halt>
    ensures { Finds result (machine.quoted_of token.now) }
{
    match &token.kind {
        TokenKind::Word(text) => Ok(Text::from_slice(alloc, text.items())?),
        _ => Err(Halt::Unexpected),
    }
}

// A type by its name.
pub(crate) fn column_type(token: &Token) -> Result<ColType, Halt>
    ensures { Finds result (machine.type_of token.now) }
{
    if is_word(token, b"int4") {
        Ok(ColType::Int4)
    } else if is_word(token, b"text") {
        Ok(ColType::Text)
    } else if is_word(token, b"bool") {
        Ok(ColType::Bool)
    } else {
        Err(Halt::Unexpected)
    }
}

//! The class by which the grammar tells tokens apart.

ghost use Rattle.std.specs.Prelude.{◌≡◌};
ghost use Rattle.postquel.specs.Class as spec;
ghost use Rattle.postquel_tokens.specs.Names.{key_of as key_at};

pub use postquel_tokens::Key;
use postquel_tokens::{Sign, TokenKind, is_fold, key_of};

/// What a name that is no key may stand for at certain places.
#[derive(Clone, Copy, Debug, PartialEq, Eq)]
pub enum Soft {
    After,
    Fold,
    Plain,
}

/// What the grammar sees of a token.
#[derive(Clone, Copy, Debug, PartialEq, Eq)]
pub enum Class {
    Name(Soft),
    Key(Key),
    Number,
    Word,
    Mark(Sign),
    End,
}

// The name that stands between a degree and a number of finishes.
const AFTER: &[u8] = b"after";

#[tactic(auto, unfolding(crate::specs::Class::soft_of))]
fn soft_of(text: &[u8]) -> Soft
    ensures { result ≡ spec.soft_of text.now }
{
    if text == AFTER {
        Soft::After
    } else if is_fold(text) {
        Soft::Fold
    } else {
        Soft::Plain
    }
}

fn name_class(text: &[u8]) -> Class
    ensures { result ≡ spec.named (key_at text.now) text.now }
{
    match key_of(text) {
        Some(key) => Class::Key(key),
        None => Class::Name(soft_of(text)),
    }
}

/// The class of a token.
pub fn class_of(kind: &TokenKind) -> Class
    ensures { result ≡ spec.class_of kind.now }
{
    match kind {
        TokenKind::Name(text) => name_class(text.items()),
        TokenKind::Number(_) => Class::Number,
        TokenKind::Word(_) => Class::Word,
        TokenKind::Mark(sign) => Class::Mark(*sign),
        TokenKind::End => Class::End,
    }
}

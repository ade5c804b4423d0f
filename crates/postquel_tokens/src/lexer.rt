//! Cuts a text into tokens.

ghost use Rattle.std.specs.Prelude.{◌≡◌, ◌+◌, ◌-◌, ◌<◌, ◌≤◌, ◌^◌, length, fold};
ghost use Rattle.postquel_tokens.specs.Lex as spec;
ghost use Rattle.postquel_tokens.specs.Lex.{Gives};

use crate::piece::{Flaw, is_blank, piece};
use crate::{Spot, TextErr, Token, TokenKind, TokenList, What};
use lists::Sequence;
use std::alloc::Global;

const START: Spot = Spot { line: 1, col: 1 };

fn after(spot: Spot, b: u8) -> Spot
    requires line { spot.line + 1 < 2 ^ 32 }
    requires col { spot.col + 1 < 2 ^ 32 }
    ensures { result ≡ spec.after spot b }
{
    if b == b'\n' {
        Spot {
            line: spot.line + 1,
            col: 1,
        }
    } else {
        Spot {
            line: spot.line,
            col: spot.col + 1,
        }
    }
}

/// The place behind some bytes.
fn past(spot: Spot, bytes: &[u8]) -> Spot
    requires line { spot.line + length bytes.now < 2 ^ 32 }
    requires col { spot.col + length bytes.now < 2 ^ 32 }
    requires positive { 1 ≤ spot.col }
    ensures value { result ≡ fold spec.after spot bytes.now }
    ensures line { result.line ≤ spot.line + length bytes.now }
    ensures positive { 1 ≤ result.col }
    ensures col { result.col ≤ spot.col + length bytes.now }
{
    let mut place = spot;
    for b in bytes {
        place = after(place, *b);
    }
    place
}

/// The tokens of a text that is UTF-8, with their end.
fn tokens(alloc: Global, text: &[u8]) -> Result<Vec<Token>, TextErr>
    requires { length text.now < 2 ^ 32 - 1 }
    ensures { Gives (λ v. v.items) result (spec.tokens_of text.now) }
{
    let mut found = Vec::new(alloc);
    let mut spot = START;
    let mut at = 0;
    while at < text.len() {
        let b = text[at];
        if is_blank(b) {
            spot = after(spot, b);
            at += 1;
        } else {
            let (kind, len) = match piece(alloc, b, &text[at..]) {
                Ok(found) => found,
                Err(Flaw::NoMemory) => return Err(TextErr::NoMemory),
                Err(Flaw::At(what, offset)) => {
                    let place = Spot {
                        line: spot.line,
                        col: spot.col + offset as u32,
                    };
                    return Err(TextErr::at(place, what));
                }
            };
            found.push(Token { kind, spot })?;
            spot = past(spot, &text[at..at + len]);
            at += len;
        }
    }
    found.push(Token {
        kind: TokenKind::End,
        spot,
    })?;
    Ok(found)
}

/// The tokens of a text, or its first fault with its place. A text that is no UTF-8 has the fault
/// `NotUtf8` at its first ill-formed byte, before every other one. The other faults are `LongName`,
/// `BigNumber`, `UnclosedText`, `LongText` and `BadChar` at a token's first byte, and `BadEscape` at
/// its backslash.
#[tactic(auto, using(crate::proofs::Whole::lex_good, crate::proofs::Whole::lex_bad))]
pub fn lex(alloc: Global, text: &[u8]) -> Result<TokenList, TextErr>
    requires { length text.now < 2 ^ 32 - 1 }
    ensures { Gives (λ list. list) result (spec.lex_of text.now) }
{
    match str::from_utf8(text) {
        Ok(_) => Ok(Sequence::from_vec(tokens(alloc, text)?)),
        Err(error) => {
            let place = past(START, &text[..error.valid_up_to()]);
            Err(TextErr::at(place, What::NotUtf8))
        }
    }
}

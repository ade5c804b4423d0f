//! The token in front of a text.

ghost use Rattle.std.specs.Prelude.{◌≡◌, ◌+◌, ◌<◌, ◌≤◌, ◌^◌, length, slice_index, true, nat_lt, if◌then◌else◌};
ghost use Rattle.std.specs.List.{All};
ghost use Rattle.postquel_tokens.specs.Lex as spec;
ghost use Rattle.postquel_tokens.specs.Lex.{Found};

use crate::{Sign, TokenKind, What};
use rows::Text;
use std::alloc::{AllocError, AllocFailed, Global};

/// What is wrong with a token, and how many bytes after its first.
#[derive(Debug, Drop)]
pub enum Flaw {
    At(What, usize),
    NoMemory,
}

impl From<AllocError> for Flaw {
    ghost use Rattle.std.specs.Prelude.{◌≡◌};
    ghost use Rattle.postquel_tokens.specs.declared.piece.Flaw.TheVariants.{NoMemory};

    ghost from_gives = { λ _ made. made ≡ NoMemory };

    fn from(_error: AllocError) -> Flaw {
        Flaw::NoMemory
    }
}

impl<T: Drop> From<AllocFailed<T>> for Flaw {
    ghost use Rattle.std.specs.Prelude.{◌≡◌};
    ghost use Rattle.postquel_tokens.specs.declared.piece.Flaw.TheVariants.{NoMemory};

    ghost from_gives = { λ _ made. made ≡ NoMemory };

    fn from(_refused: AllocFailed<T>) -> Flaw {
        Flaw::NoMemory
    }
}

/// The bytes that a name goes on with, and those of a number.
#[derive(Clone, Copy, Debug)]
pub enum Run {
    Word,
    Digit,
}

fn is_in(run: Run, b: u8) -> bool
    ensures { result ≡ spec.is_in run b }
{
    match run {
        Run::Word => b.is_ascii_alphanumeric() || b == b'_',
        Run::Digit => b.is_ascii_digit(),
    }
}

pub fn is_blank(b: u8) -> bool
    ensures { result ≡ spec.is_blank b }
{
    b == b' ' || b == b'\t' || b == b'\r' || b == b'\n'
}

/// How many bytes in front are of a run.
fn run_len(run: Run, z: &[u8]) -> usize
    ensures value { result ≡ spec.run_len run z.now }
    ensures within { result ≤ length z.now }
    ensures moves { spec.is_in run (slice_index z.now 0) ≡ true → 1 ≤ result }
{
    let mut end = 0;
    while end < z.len() && is_in(run, z[end]) {
        end += 1;
    }
    end
}

fn name(alloc: Global, z: &[u8]) -> Result<(TokenKind, usize), Flaw>
    requires { spec.is_in Run.Word (slice_index z.now 0) ≡ true }
    ensures value { Found result (spec.name z.now) }
    ensures within { spec.Within result (length z.now) }
{
    let len = run_len(Run::Word, z);
    if len > LONGEST_NAME {
        return Err(Flaw::At(What::LongName, 0));
    }
    Ok((TokenKind::Name(Text::from_slice(alloc, &z[..len])?), len))
}

const LONGEST_NAME: usize = 31;

const LONGEST_TEXT: usize = 2000;

const TOO_BIG: u64 = 0x8000_0000_0000_0000;

/// The value of digits, or 2 ^ 63 where it is no less.
fn capped(digits: &[u8]) -> u64
    requires { All (λ b. spec.is_in Run.Digit b ≡ true) digits.now }
    ensures { result ≡ spec.capped digits.now }
{
    let mut n: u64 = 0;
    for b in digits {
        n = (10 * (n as u128) + ((*b - b'0') as u128)).min(TOO_BIG as u128) as u64;
    }
    n
}

fn number(z: &[u8]) -> Result<(TokenKind, usize), Flaw>
    requires { spec.is_in Run.Digit (slice_index z.now 0) ≡ true }
    ensures value { Found result (spec.number z.now) }
    ensures within { spec.Within result (length z.now) }
{
    let len = run_len(Run::Digit, z);
    let n = capped(&z[..len]);
    if n >= TOO_BIG {
        return Err(Flaw::At(What::BigNumber, 0));
    }
    Ok((TokenKind::Number(n as i64), len))
}

/// The byte that a text has in front, which is no quote, and how many bytes it takes.
#[tactic(auto, unfolding(crate::specs::Lex::unit))]
fn unescaped(z: &[u8], at: usize) -> Result<(u8, usize), Flaw>
    ensures value { spec.Units result (spec.unit at z.now) }
    ensures within { spec.WithinUnit result (length z.now) at }
{
    match z {
        [] | [b'\n', ..] => Err(Flaw::At(What::UnclosedText, 0)),
        [b'\\', b'"', ..] => Ok((b'"', 2)),
        [b'\\', b'\\', ..] => Ok((b'\\', 2)),
        [b'\\', ..] => Err(Flaw::At(What::BadEscape, at)),
        [b, ..] => Ok((*b, 1)),
    }
}

/// A text behind its opening quote, without its escapes, and its length with both quotes.
fn body(alloc: Global, z: &[u8]) -> Result<(Text, usize), Flaw>
    requires { length z.now < 2 ^ 32 }
    ensures value { spec.Bodies result (spec.body 1 z.now) }
    ensures within { spec.WithinBody result (length z.now + 1) }
{
    let mut text = Vec::new(alloc);
    let mut at = 0;
    while at < z.len() {
        if z[at] == b'"' {
            return Ok((Text::from_vec(text), at + 2));
        }
        let (c, len) = unescaped(&z[at..], at + 1)?;
        text.push(c)?;
        at += len;
    }
    Err(Flaw::At(What::UnclosedText, 0))
}

fn word(alloc: Global, z: &[u8]) -> Result<(TokenKind, usize), Flaw>
    requires { length z.now < 2 ^ 32 }
    ensures value { Found result (spec.worded (spec.body 1 z.now)) }
    ensures within { spec.Within result (length z.now + 1) }
{
    let (text, len) = body(alloc, z)?;
    if text.items().len() > LONGEST_TEXT {
        return Err(Flaw::At(What::LongText, 0));
    }
    Ok((TokenKind::Word(text), len))
}

#[tactic(auto, unfolding(crate::specs::Lex::mark))]
fn mark(b: u8, next: u8) -> Result<(TokenKind, usize), Flaw>
    ensures value { Found result (spec.mark b next) }
    ensures within { spec.Within result (if nat_lt 0 next then 2 else 1) }
{
    let (sign, len) = match b {
        b'(' => (Sign::Left, 1),
        b')' => (Sign::Right, 1),
        b',' => (Sign::Comma, 1),
        b'.' => (Sign::Dot, 1),
        b'=' => (Sign::Equal, 1),
        b'+' => (Sign::Plus, 1),
        b'-' => (Sign::Minus, 1),
        b'*' => (Sign::Times, 1),
        b'!' if next == b'=' => (Sign::NotEqual, 2),
        b'<' if next == b'=' => (Sign::AtMost, 2),
        b'<' => (Sign::Less, 1),
        b'>' if next == b'=' => (Sign::AtLeast, 2),
        b'>' => (Sign::More, 1),
        b'\\' if next == b'g' => (Sign::Go, 2),
        _ => return Err(Flaw::At(What::BadChar, 0)),
    };
    Ok((TokenKind::Mark(sign), len))
}

/// The token in front of a text whose first byte is no blank, and how many bytes it takes.
#[tactic(auto, unfolding(crate::specs::Lex::piece))]
pub fn piece(alloc: Global, b: u8, z: &[u8]) -> Result<(TokenKind, usize), Flaw>
    requires small { length z.now < 2 ^ 32 }
    requires front { slice_index z.now 0 ≡ b }
    requires some { 0 < length z.now }
    ensures value { Found result (spec.piece b (spec.rest_of z.now)) }
    ensures within { spec.Within result (length z.now) }
{
    if is_in(Run::Digit, b) {
        number(z)
    } else if is_in(Run::Word, b) {
        name(alloc, z)
    } else if b == b'"' {
        word(alloc, &z[1..])
    } else {
        mark(b, if z.len() > 1 { z[1] } else { 0 })
    }
}

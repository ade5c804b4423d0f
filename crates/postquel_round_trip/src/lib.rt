//! What a script prints as is read again as the same script, but for its places.
#![tactic(auto)]

ghost use Rattle.std.specs.Prelude.{◌≡◌, IfOk, Ok};
ghost use Rattle.postquel_tokens.specs.Lex.{lex_of};
ghost use Rattle.postquel.specs.Print.{script_text};
ghost use Rattle.postquel.specs.Program.{program_of};
ghost use Rattle.postquel_round_trip.specs.Bare.{bare};
ghost use Rattle.postquel_round_trip.specs.RoundTrip.{RoundTrip, IsRead, Reads};

use postquel::{Script, TextErr, TokenList, lex, parse, print};
use std::alloc::{AllocError, Global};

/// A law: the text that a script prints as is read again, as the same script but for places. It
/// does nothing when it runs.
pub fn round_trip()
    ensures { RoundTrip }
{}

// The tokens of the text that a script prints as.
fn printed_tokens(alloc: Global, script: &Script) -> Result<TokenList, AllocError>
    requires { IsRead (program_of script.now) }
    ensures { IfOk result (λ tokens. lex_of (script_text (program_of script.now)) ≡ Ok tokens) }
{
    let text = print(alloc, script)?;
    match lex(alloc, &text) {
        Ok(tokens) => Ok(tokens),
        Err(TextErr::NoMemory) => Err(AllocError),
        Err(TextErr::Fault { .. }) => unreachable!(),
    }
}

/// The script that the printed text of a script is read as: the same one, but for its places. The
/// script that is given must have been read by `lex` and `parse` from some text. Want of memory is
/// the one error.
pub fn reread(alloc: Global, script: &Script) -> Result<Script, AllocError>
    requires { IsRead (program_of script.now) }
    ensures reads { IfOk result (λ again. Reads (script_text (program_of script.now)) (program_of again)) }
    ensures same { IfOk result (λ again. bare (program_of again) ≡ bare (program_of script.now)) }
{
    let tokens = printed_tokens(alloc, script)?;
    match parse(alloc, &tokens) {
        Ok(again) => Ok(again),
        Err(TextErr::NoMemory) => Err(AllocError),
        Err(TextErr::Fault { .. }) => unreachable!(),
    }
}

#[cfg(test)]
mod tests;

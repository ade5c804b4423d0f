//! The program: it hands its words, the files of the current folder and the standard outputs to the call that does all,
//! and ends with the number of the status.
#![tactic(auto)]

ghost use Rattle.std.specs.Prelude.{◌≡◌};

mod folder;
mod page_file;
mod program;
mod scratch;
mod terminal;
#[cfg(test)]
mod tests;

use program::{program, words};
use std::process::ExitCode;
use terminal::if_open;

fn main(rt: HostRuntime) -> ExitCode {
    let out = if_open(rt.stdout());
    let err = if_open(rt.stderr());
    let words = words(&rt);
    ExitCode::from(program(&rt, words, out, err))
}

//! The commands that read the words of each form.

ghost use Rattle.std.specs.Prelude.{◌≡◌, IfOk, codes, map, string_bytes, true};
ghost use Rattle.clap.specs.Faults.{is_simple_and_free};
ghost use Rattle.clap.specs.Simple.{app_of, is_simple, with_rule};
ghost use Rattle.command_words.specs.Commands as spec;
ghost use Rattle.command_words.specs.Commands.{HasMatches};

use crate::NoMemory;
use clap::error::ErrorKind;
use clap::{Arg, ArgAction, ArgMatches, Command};
use std::alloc::{AllocError, Global};

// A command without options. The words of each form begin with one that names the form.
fn plain_command<'a>(alloc: Global) -> Command<'a>
    ensures { app_of result ≡ spec.plain_app }
{
    Command::new(alloc, "xprs").disable_help_flag(true)
}

// With one more word that has to be there.
fn with_operand<'a>(
    alloc: Global,
    command: Command<'a>,
    id: &'a str,
) -> Result<Command<'a>, NoMemory>
    ensures { IfOk result (λ r.
        app_of r ≡ with_rule (app_of command.entry) (spec.operand id.now)) }
{
    let operand = Arg::new(alloc, id).required(true);
    command.arg(operand)
}

// With one more option that has a value.
fn with_option<'a>(
    alloc: Global,
    command: Command<'a>,
    id: &'a str,
) -> Result<Command<'a>, NoMemory>
    ensures { IfOk result (λ r.
        app_of r ≡ with_rule (app_of command.entry) (spec.option id.now)) }
{
    let option = Arg::new(alloc, id).long(id).action(ArgAction::Set);
    command.arg(option)
}

// With one more option that has none.
fn with_flag<'a>(alloc: Global, command: Command<'a>, id: &'a str) -> Result<Command<'a>, NoMemory>
    ensures { IfOk result (λ r. app_of r ≡ with_rule (app_of command.entry) (spec.flag id.now)) }
{
    let flag = Arg::new(alloc, id).long(id).action(ArgAction::SetTrue);
    command.arg(flag)
}

// What a command finds in the words, or none where it doesn't take them.
fn matches<'a>(
    command: Command<'a>,
    words: &'a [String],
) -> Result<Option<ArgMatches<'a>>, NoMemory>
    requires simple { is_simple (app_of command) ≡ true }
    requires free { is_simple_and_free (app_of command) ≡ true }
    ensures { IfOk result (HasMatches (app_of command.entry) (map string_bytes words.now)) }
{
    match command.try_get_matches_from(words) {
        Ok(matches) => Ok(Some(matches)),
        Err(error) => {
            if let ErrorKind::OutOfMemory = error.kind() {
                return Err(AllocError);
            }
            Ok(None)
        }
    }
}

// The two operands of a script.
fn file_command<'a>(alloc: Global) -> Result<Command<'a>, NoMemory>
    ensures { IfOk result (λ r. app_of r ≡ spec.file_app) }
{
    let command = with_operand(alloc, plain_command(alloc), "catalog")?;
    with_operand(alloc, command, "script")
}

fn with_machine<'a>(alloc: Global, command: Command<'a>) -> Result<Command<'a>, NoMemory>
    ensures { IfOk result (λ r. app_of r ≡ spec.with_machine (app_of command.entry)) }
{
    let command = with_option(alloc, command, "backends")?;
    let command = with_option(alloc, command, "drives")?;
    let command = with_option(alloc, command, "frames")?;
    with_option(alloc, command, "batch")
}

fn job_command<'a>(alloc: Global) -> Result<Command<'a>, NoMemory>
    ensures { IfOk result (λ r. app_of r ≡ spec.job_app) }
{
    let command = with_machine(alloc, file_command(alloc)?)?;
    let command = with_option(alloc, command, "join")?;
    with_flag(alloc, command, "trace")
}

fn plans_command<'a>(alloc: Global) -> Result<Command<'a>, NoMemory>
    ensures { IfOk result (λ r. app_of r ≡ spec.plans_app) }
{
    let command = with_option(alloc, file_command(alloc)?, "backends")?;
    let command = with_option(alloc, command, "drives")?;
    with_option(alloc, command, "join")
}

fn generation_command<'a>(alloc: Global) -> Result<Command<'a>, NoMemory>
    ensures { IfOk result (λ r. app_of r ≡ spec.generation_app) }
{
    let command = with_operand(alloc, plain_command(alloc), "number")?;
    let command = with_operand(alloc, command, "rows")?;
    with_machine(alloc, command)
}

/// What the words of `run` and of `alone` hold.
#[tactic(auto, using(crate::proofs::Taken::job_is_simple, crate::proofs::Taken::job_is_free))]
pub(crate) fn job_matches<'a>(
    alloc: Global,
    words: &'a [String],
) -> Result<Option<ArgMatches<'a>>, NoMemory>
    ensures { IfOk result (HasMatches spec.job_app (map string_bytes words.now)) }
{
    matches(job_command(alloc)?, words)
}

/// What the words of `explain` hold.
#[tactic(auto, using(crate::proofs::Taken::plans_is_simple, crate::proofs::Taken::plans_is_free))]
pub(crate) fn plans_matches<'a>(
    alloc: Global,
    words: &'a [String],
) -> Result<Option<ArgMatches<'a>>, NoMemory>
    ensures { IfOk result (HasMatches spec.plans_app (map string_bytes words.now)) }
{
    matches(plans_command(alloc)?, words)
}

/// What the words of `check` hold.
#[tactic(auto, using(crate::proofs::Taken::file_is_simple, crate::proofs::Taken::file_is_free))]
pub(crate) fn file_matches<'a>(
    alloc: Global,
    words: &'a [String],
) -> Result<Option<ArgMatches<'a>>, NoMemory>
    ensures { IfOk result (HasMatches spec.file_app (map string_bytes words.now)) }
{
    matches(file_command(alloc)?, words)
}

/// What the words of `gen` hold.
#[tactic(auto, using(crate::proofs::Taken::generation_is_simple, crate::proofs::Taken::generation_is_free))]
pub(crate) fn generation_matches<'a>(
    alloc: Global,
    words: &'a [String],
) -> Result<Option<ArgMatches<'a>>, NoMemory>
    ensures { IfOk result (HasMatches spec.generation_app (map string_bytes words.now)) }
{
    matches(generation_command(alloc)?, words)
}

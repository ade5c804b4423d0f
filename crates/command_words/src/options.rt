//! What the rows of a parse say.

ghost use Rattle.std.specs.Prelude.{◌≡◌};
ghost use Rattle.std.specs.Option.{option_map};
ghost use Rattle.clap.specs.Matches.{found_of};
ghost use Rattle.clap.specs.Walk.{first_of, rows_of};
ghost use Rattle.command_words.specs.Forms as spec;
ghost use Rattle.command_words.specs.Forms.{files_of, job_of, plans_of};

use crate::number::{number_or, number_within, small};
use crate::{FileNames, Generation, Job, JoinMethod, Machine, Plans};
use clap::ArgMatches;

// The first value of that name.
fn text<'a>(matches: &ArgMatches<'a>, id: &str) -> Option<&'a str>
    ensures { option_map (λ t. t.now) result ≡ first_of id.now (rows_of (found_of matches.now)) }
{
    matches.get_str(id)
}

fn number_option(
    matches: &ArgMatches<'_>,
    id: &str,
    standard: u32,
    low: u32,
    high: u32,
) -> Option<u32>
    ensures { result
        ≡ spec.number_or standard low high (first_of id.now (rows_of (found_of matches.now))) }
{
    number_or(text(matches, id), standard, low, high)
}

fn backends(matches: &ArgMatches<'_>) -> Option<u32>
    ensures { result ≡ spec.backends_by (rows_of (found_of matches.now)) }
{
    number_option(matches, "backends", 4, 1, 64)
}

fn drives(matches: &ArgMatches<'_>) -> Option<u32>
    ensures { result ≡ spec.drives_by (rows_of (found_of matches.now)) }
{
    number_option(matches, "drives", 4, 1, 16)
}

fn frames(matches: &ArgMatches<'_>) -> Option<u32>
    ensures { result ≡ spec.frames_by (rows_of (found_of matches.now)) }
{
    number_option(matches, "frames", 64, 1, 4096)
}

fn batch(matches: &ArgMatches<'_>) -> Option<u32>
    ensures { result ≡ spec.batch_by (rows_of (found_of matches.now)) }
{
    number_option(matches, "batch", 8, 1, 64)
}

fn method_named(text: Option<&str>) -> Option<JoinMethod>
    ensures { result ≡ spec.method_named (option_map (λ t. t.now) text.entry) }
{
    let Some(text) = text else {
        return Some(JoinMethod::Hash);
    };
    if text == "hash" {
        Some(JoinMethod::Hash)
    } else if text == "merge" {
        Some(JoinMethod::Merge)
    } else {
        None
    }
}

fn join(matches: &ArgMatches<'_>) -> Option<JoinMethod>
    ensures { result ≡ spec.join_by (rows_of (found_of matches.now)) }
{
    method_named(text(matches, "join"))
}

fn is_traced(matches: &ArgMatches<'_>) -> bool
    ensures { result ≡ spec.trace_by (rows_of (found_of matches.now)) }
{
    match text(matches, "trace") {
        Some(text) => text == "true",
        None => false,
    }
}

pub(crate) fn files<'a>(matches: &ArgMatches<'a>) -> Option<FileNames<'a>>
    ensures { option_map files_of result ≡ spec.files_by (rows_of (found_of matches.now)) }
{
    let catalog = text(matches, "catalog")?;
    let script = text(matches, "script")?;
    Some(FileNames { catalog, script })
}

fn machine(matches: &ArgMatches<'_>) -> Option<Machine>
    ensures { result ≡ spec.machine_by (rows_of (found_of matches.now)) }
{
    let backends = backends(matches)?;
    let drives = drives(matches)?;
    let frames = frames(matches)?;
    let batch = batch(matches)?;
    Some(Machine {
        backends,
        drives,
        frames,
        batch,
    })
}

pub(crate) fn job<'a>(matches: &ArgMatches<'a>) -> Option<Job<'a>>
    ensures { option_map job_of result ≡ spec.job_by (rows_of (found_of matches.now)) }
{
    let files = files(matches)?;
    let machine = machine(matches)?;
    let join = join(matches)?;
    Some(Job {
        files,
        machine,
        join,
        is_traced: is_traced(matches),
    })
}

pub(crate) fn plans<'a>(matches: &ArgMatches<'a>) -> Option<Plans<'a>>
    ensures { option_map plans_of result ≡ spec.plans_by (rows_of (found_of matches.now)) }
{
    let files = files(matches)?;
    let backends = backends(matches)?;
    let drives = drives(matches)?;
    let join = join(matches)?;
    Some(Plans {
        files,
        backends,
        drives,
        join,
    })
}

fn number(matches: &ArgMatches<'_>) -> Option<u64>
    ensures { result ≡ spec.number_by (rows_of (found_of matches.now)) }
{
    number_within(text(matches, "number")?, 0, u64::MAX)
}

fn rows(matches: &ArgMatches<'_>) -> Option<u32>
    ensures { result ≡ spec.row_count_by (rows_of (found_of matches.now)) }
{
    small(text(matches, "rows")?, 1, 100_000)
}

pub(crate) fn generation(matches: &ArgMatches<'_>) -> Option<Generation>
    ensures { result ≡ spec.generation_by (rows_of (found_of matches.now)) }
{
    let number = number(matches)?;
    let rows = rows(matches)?;
    let machine = machine(matches)?;
    Some(Generation {
        number,
        rows,
        machine,
    })
}

//! The five forms.

ghost use Rattle.std.specs.Prelude.{◌≡◌, IfOk, map, string_bytes};
ghost use Rattle.std.specs.Option.{option_map};
ghost use Rattle.command_words.specs.Forms as spec;
ghost use Rattle.command_words.specs.Forms.{files_of, job_of, plans_of, request_of};

use crate::command::{file_matches, generation_matches, job_matches, plans_matches};
use crate::options::{files, generation, job, plans};
use crate::{FileNames, Generation, Job, NoMemory, Plans, Request};
use std::alloc::Global;

#[tactic(auto, using(crate::proofs::Taken::job_said, crate::proofs::Taken::job_none))]
fn job_form<'a>(alloc: Global, words: &'a [String]) -> Result<Option<Job<'a>>, NoMemory>
    ensures { IfOk result (λ r. option_map job_of r ≡ spec.job_form (map string_bytes words.now)) }
{
    match job_matches(alloc, words)? {
        Some(matches) => Ok(job(&matches)),
        None => Ok(None),
    }
}

#[tactic(auto, using(crate::proofs::Taken::plans_said, crate::proofs::Taken::plans_none))]
fn plans_form<'a>(alloc: Global, words: &'a [String]) -> Result<Option<Plans<'a>>, NoMemory>
    ensures { IfOk result (λ r.
        option_map plans_of r ≡ spec.plans_form (map string_bytes words.now)) }
{
    match plans_matches(alloc, words)? {
        Some(matches) => Ok(plans(&matches)),
        None => Ok(None),
    }
}

#[tactic(auto, using(crate::proofs::Taken::file_said, crate::proofs::Taken::file_none))]
fn file_form<'a>(alloc: Global, words: &'a [String]) -> Result<Option<FileNames<'a>>, NoMemory>
    ensures { IfOk result (λ r. option_map files_of r ≡ spec.file_form (map string_bytes words.now)) }
{
    match file_matches(alloc, words)? {
        Some(matches) => Ok(files(&matches)),
        None => Ok(None),
    }
}

#[tactic(auto, using(crate::proofs::Taken::generation_said, crate::proofs::Taken::generation_none))]
fn generation_form(alloc: Global, words: &[String]) -> Result<Option<Generation>, NoMemory>
    ensures { IfOk result (λ r. r ≡ spec.generation_form (map string_bytes words.now)) }
{
    match generation_matches(alloc, words)? {
        Some(matches) => Ok(generation(&matches)),
        None => Ok(None),
    }
}

fn run_request<'a>(alloc: Global, words: &'a [String]) -> Result<Option<Request<'a>>, NoMemory>
    ensures { IfOk result (λ r. option_map request_of r
        ≡ option_map spec.run (spec.job_form (map string_bytes words.now))) }
{
    match job_form(alloc, words)? {
        Some(job) => Ok(Some(Request::Run(job))),
        None => Ok(None),
    }
}

fn alone_request<'a>(alloc: Global, words: &'a [String]) -> Result<Option<Request<'a>>, NoMemory>
    ensures { IfOk result (λ r. option_map request_of r
        ≡ option_map spec.alone (spec.job_form (map string_bytes words.now))) }
{
    match job_form(alloc, words)? {
        Some(job) => Ok(Some(Request::Alone(job))),
        None => Ok(None),
    }
}

fn explain_request<'a>(alloc: Global, words: &'a [String]) -> Result<Option<Request<'a>>, NoMemory>
    ensures { IfOk result (λ r. option_map request_of r
        ≡ option_map spec.explain (spec.plans_form (map string_bytes words.now))) }
{
    match plans_form(alloc, words)? {
        Some(plans) => Ok(Some(Request::Explain(plans))),
        None => Ok(None),
    }
}

fn check_request<'a>(alloc: Global, words: &'a [String]) -> Result<Option<Request<'a>>, NoMemory>
    ensures { IfOk result (λ r. option_map request_of r
        ≡ option_map spec.check (spec.file_form (map string_bytes words.now))) }
{
    match file_form(alloc, words)? {
        Some(files) => Ok(Some(Request::Check(files))),
        None => Ok(None),
    }
}

fn gen_request<'a>(alloc: Global, words: &'a [String]) -> Result<Option<Request<'a>>, NoMemory>
    ensures { IfOk result (λ r. option_map request_of r
        ≡ option_map spec.gen (spec.generation_form (map string_bytes words.now))) }
{
    match generation_form(alloc, words)? {
        Some(made) => Ok(Some(Request::Gen(made))),
        None => Ok(None),
    }
}

// The form that a word names.
#[derive(Clone, Copy)]
pub(crate) enum Form {
    Run,
    Alone,
    Explain,
    Check,
    Gen,
}

#[tactic(auto, unfolding(crate::specs::Forms::form_called))]
fn form_called(word: &str) -> Option<Form>
    ensures { result ≡ spec.form_called word.now }
{
    if word == "run" {
        Some(Form::Run)
    } else if word == "alone" {
        Some(Form::Alone)
    } else if word == "explain" {
        Some(Form::Explain)
    } else if word == "check" {
        Some(Form::Check)
    } else if word == "gen" {
        Some(Form::Gen)
    } else {
        None
    }
}

// What the words ask for as words of a form.
fn request_of_form<'a>(
    alloc: Global,
    form: Form,
    words: &'a [String],
) -> Result<Option<Request<'a>>, NoMemory>
    ensures { IfOk result (λ r. option_map request_of r
        ≡ spec.asked_by form (map string_bytes words.now)) }
{
    match form {
        Form::Run => run_request(alloc, words),
        Form::Alone => alone_request(alloc, words),
        Form::Explain => explain_request(alloc, words),
        Form::Check => check_request(alloc, words),
        Form::Gen => gen_request(alloc, words),
    }
}

// What the words ask for, where the first one names a form.
fn request_named<'a>(
    alloc: Global,
    form: Option<Form>,
    words: &'a [String],
) -> Result<Option<Request<'a>>, NoMemory>
    ensures { IfOk result (λ r. option_map request_of r
        ≡ spec.asked_if form (map string_bytes words.now)) }
{
    match form {
        Some(form) => request_of_form(alloc, form, words),
        None => Ok(None),
    }
}

/// What the words ask for, and `None` exactly where they are of none of the five forms: `run`,
/// `alone`, `explain` and `check` with the names of a catalogue's and of a script's file, and `gen`
/// with a number and a number of rows. An `Err` is want of memory.
///
/// `run` and `alone` have the options `--backends` 1 to 64 (4 where it isn't there), `--drives` 1 to
/// 16 (4), `--frames` 1 to 4096 (64), `--batch` 1 to 64 (8), `--join` `hash` (where it isn't there)
/// or `merge`, and `--trace`; `explain` has `--backends`, `--drives` and `--join`; `gen` has those
/// of a number, its own number has 64 bits, and its rows are 1 to 100000. A number is one or more
/// decimal digits. Each option stands at most once, before or behind the operands, as `--name=value`
/// or `--name value`, where the value doesn't begin with `-`. Behind a word `--` all are operands.
pub fn read_words<'a>(alloc: Global, words: &'a [String]) -> Result<Option<Request<'a>>, NoMemory>
    ensures { IfOk result (λ r. option_map request_of r ≡ spec.form_of (map string_bytes words.now)) }
{
    let Some(word) = words.first() else {
        return Ok(None);
    };
    request_named(alloc, form_called(word.as_str()), words)
}

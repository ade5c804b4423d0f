//! What the words of a command ask of a run on one thread.
ghost use Rattle.std.specs.Prelude.{◌≡◌, IfOk, map, string_bytes};
ghost use Rattle.command_words.specs.Forms as words;
ghost use Rattle.xprs_top.specs.Requests as spec;
ghost use Rattle.xprs_top.specs.Requests.{HasMachine, IsAsked, IsServed, asked_by, request_of, served, to_make};

use crate::goal::{Aim, Goal};
use crate::{Status, Unbuilt};
use command_words::{FileNames, Job, JoinMethod, Plans, Request, read_words};
use plan_tree::Method;
use rows::Machine;
use std::alloc::Global;

/// How many positions are claimed at once in a run that is explained.
const PLANS_BATCH: u32 = 8;

/// What is made of a script, and the names of the two files that a run reads first.
#[derive(Clone, Copy)]
pub(crate) struct Operands<'a> {
    pub aim: Aim,
    pub catalog: &'a [u8],
    pub script: &'a [u8],
}

fn method_of(join: JoinMethod) -> Method
    ensures { result ≡ spec.method_of join }
{
    match join {
        JoinMethod::Hash => Method::Hash,
        JoinMethod::Merge => Method::Merge,
    }
}

fn operands_for<'a>(aim: Aim, files: FileNames<'a>) -> Operands<'a>
    ensures { to_make aim (words.files_of files.entry) ≡ Ok (request_of result) }
{
    Operands {
        aim,
        catalog: files.catalog.as_bytes(),
        script: files.script.as_bytes(),
    }
}

// To answer a script, as long as no trace is asked for.
fn answers<'a>(job: Job<'a>) -> Result<Operands<'a>, Status>
    ensures { IsServed (served (words.alone (words.job_of job.entry))) result }
{
    if job.is_traced {
        return Err(Status::NotBuilt(Unbuilt::Trace));
    }
    let machine = Machine {
        backends: job.machine.backends,
        drives: job.machine.drives,
        batch: job.machine.batch,
    };
    let goal = Goal::Answers;
    Ok(operands_for(Aim::Make { goal, machine }, job.files))
}

// To show the plans of a script.
fn plans<'a>(plans: Plans<'a>) -> Operands<'a>
    ensures { served (words.explain (words.plans_of plans.entry)) ≡ Ok (request_of result) }
{
    let machine = Machine {
        backends: plans.backends,
        drives: plans.drives,
        batch: PLANS_BATCH,
    };
    let goal = Goal::Plans(method_of(plans.join));
    operands_for(Aim::Make { goal, machine }, plans.files)
}

fn operands_of<'a>(request: Request<'a>) -> Result<Operands<'a>, Status>
    ensures { IsServed (served (words.request_of request.entry)) result }
{
    match request {
        Request::Run(_) => Err(Status::Usage),
        Request::Alone(job) => answers(job),
        Request::Explain(wanted) => Ok(plans(wanted)),
        Request::Check(files) => Ok(operands_for(Aim::Print, files)),
        Request::Gen(_) => Err(Status::NotBuilt(Unbuilt::Generation)),
    }
}

/// What the words ask for. Where they ask for nothing that this call does, the status of such words: `Usage` of words
/// that are no form, and of `run`, which is for another call; `NotBuilt` of `gen` and of a trace.
pub(crate) fn operands_in<'a>(alloc: Global, words: &'a [String]) -> Result<Operands<'a>, Status>
    ensures asked { IsAsked (asked_by (map string_bytes words.now)) result }
    ensures machine { IfOk result (λ operands. HasMachine operands.aim) }
{
    match read_words(alloc, words)? {
        Some(request) => operands_of(request),
        None => Err(Status::Usage),
    }
}

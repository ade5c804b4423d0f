//! The control of a run, driven by backends that take turns on one thread.
ghost use Rattle.std.specs.Prelude.{◌≡◌, ◌≤◌, ◌<◌, [], IfOk, length};
ghost use Rattle.std.specs.List.{AllByRecursion};
ghost use Rattle.io_cpu_scheduler.specs.Limits.{IsMachine};
ghost use Rattle.master.specs.SampleRuns.{IsSample};
ghost use Rattle.engine_bench.specs.Scans.{IsScan};

use crate::page_scans::{PageScan, make_scans};
use adjust_protocol::{ArcList, Claimed};
use hash_join::{Built, Parts, build};
use history::Event;
use io_cpu_scheduler::{Decision, Part};
use lists::Sequence;
use master::{Control, History, Next, RunName};
use plan_tree::FragmentList;
use rows::{Machine, Rows};
use std::alloc::{AllocError, Global};
use std::io;
use std::marker::Brand;
use std::rt::Clock;
use std::sync::Arc;
use std::time::{Duration, Instant};

const MACHINE: Machine = Machine {
    backends: 4,
    drives: 4,
    batch: 8,
};

const FRAGMENTS: u32 = 16;

const PAGES: u32 = 62_500;

// A scan of so many pages waits for its drives, or for its processors.
const SHORT_TIME: u32 = 687_500;

const LONG_TIME: u32 = 4_000_000;

const SMALL_MACHINE: Machine = Machine {
    backends: 2,
    drives: 1,
    batch: 2,
};

const SMALL_SCANS: &[PageScan; 2] = &[
    PageScan { pages: 1, time: 11 },
    PageScan {
        pages: 8,
        time: 400,
    },
];

// A role that a backend has.
#[derive(Clone, Copy)]
struct Job {
    fragment: u32,
    role: u32,
}

// How many calls of a kind were made, and how long they took in all.
#[derive(Clone, Copy)]
struct Spent {
    calls: u64,
    time: Duration,
}

impl Spent {
    const NOTHING: Spent = Spent {
        calls: 0,
        time: Duration::ZERO,
    };

    // Counts a call that began then.
    fn count(&mut self, clock: &impl Clock, begin: Instant) -> io::Result<()> {
        let end = Instant::now(clock)?;
        self.calls = self.calls.saturating_add(1);
        self.time = self
            .time
            .saturating_add(end.saturating_duration_since(begin));
        Ok(())
    }

    fn average(&self) -> u128 {
        self.time
            .as_nanos()
            .checked_div(u128::from(self.calls))
            .unwrap_or(0)
    }
}

// The calls by their kind.
#[derive(Clone, Copy)]
struct Calls {
    next: Spent,
    collect: Spent,
    claim: Spent,
    settle: Spent,
    leave: Spent,
    finish: Spent,
}

impl Calls {
    const NONE: Calls = Calls {
        next: Spent::NOTHING,
        collect: Spent::NOTHING,
        claim: Spent::NOTHING,
        settle: Spent::NOTHING,
        leave: Spent::NOTHING,
        finish: Spent::NOTHING,
    };

    // Where a call of `next_job` with such an answer is counted: a collection shares every output of its scan.
    fn of_answer(&mut self, answer: &Next) -> &mut Spent {
        match answer {
            Next::Collect { .. } => &mut self.collect,
            _ => &mut self.next,
        }
    }
}

// So many times the one output.
fn outputs(alloc: Global, output: &Arc<Rows>, count: u32) -> Result<ArcList<Rows>, AllocError>
    requires { output.now.value ≡ [] }
    ensures { IfOk result (AllByRecursion (λ rows. rows ≡ [])) }
{
    let mut list = ArcList::new(alloc);
    for _place in 0..count {
        if list.push(output.clone()?).is_err() {
            return Err(AllocError);
        }
    }
    Ok(list)
}

// Finishes a fragment with a value of no rows.
fn finish<K: RunName>(
    clock: &impl Clock,
    alloc: Global,
    control: &mut Control<K>,
    fragment: u32,
    calls: &mut Calls,
) -> io::Result<()>
    requires { IsSample K.meaning }
{
    if fragment >= control.fragment_count() {
        return Ok(());
    }
    if !control.is_collecting(fragment) {
        return Ok(());
    }
    let parts = Parts::new(alloc);
    let built = build(alloc, parts, &Sequence::new(alloc), &Sequence::new(alloc))?;
    let value = Arc::new(alloc, built)?;
    let begin = Instant::now(clock)?;
    control.finish(fragment, value);
    calls.finish.count(clock, begin)
}

// Settles what the role has out.
fn settle<K: RunName>(
    clock: &impl Clock,
    alloc: Global,
    control: &mut Control<K>,
    job: Job,
    output: &Arc<Rows>,
    calls: &mut Calls,
) -> io::Result<()>
    requires fragment { job.fragment < length control.old.slots }
    requires role { job.role < 64 }
    requires sample { IsSample K.meaning }
    requires output { output.now.value ≡ [] }
{
    let out = control.out(job.fragment, job.role).len();
    if out == 0 {
        return Ok(());
    }
    let outputs = outputs(alloc, output, out)?;
    if outputs.len() > out as usize {
        return Ok(());
    }
    let begin = Instant::now(clock)?;
    control.settle(job.fragment, job.role, outputs);
    calls.settle.count(clock, begin)
}

fn leave<K: RunName>(
    clock: &impl Clock,
    control: &mut Control<K>,
    job: Job,
    calls: &mut Calls,
) -> io::Result<()>
    requires fragment { job.fragment < length control.old.slots }
    requires role { job.role < 64 }
{
    if !control.holds(job.fragment, job.role) {
        return Ok(());
    }
    if control.out(job.fragment, job.role).len() > 0 {
        return Ok(());
    }
    let begin = Instant::now(clock)?;
    control.leave(job.fragment, job.role);
    calls.leave.count(clock, begin)
}

// One claim, with its settle or its leave. It tells what the backend has then.
fn work<K: RunName>(
    clock: &impl Clock,
    alloc: Global,
    control: &mut Control<K>,
    job: Job,
    output: &Arc<Rows>,
    calls: &mut Calls,
) -> io::Result<Option<Job>>
    requires sample { IsSample K.meaning }
    requires output { output.now.value ≡ [] }
{
    if job.fragment >= control.fragment_count() || job.role >= 64 {
        return Ok(None);
    }
    if !control.holds(job.fragment, job.role) {
        return Ok(None);
    }
    if control.out(job.fragment, job.role).len() > 0 {
        return Ok(None);
    }
    let begin = Instant::now(clock)?;
    let claimed = control.claim(alloc, job.fragment, job.role)?;
    calls.claim.count(clock, begin)?;
    match claimed {
        Claimed::Batch(_) => settle(clock, alloc, control, job, output, calls)?,
        Claimed::Hold => {}
        Claimed::Leave => {
            leave(clock, control, job, calls)?;
            return Ok(None);
        }
    }
    Ok(Some(job))
}

// What a backend is told.
enum Told {
    Job(Job),
    Nothing,
    Stop,
}

// Asks what the backend does next. A fragment that is to be collected is finished at once.
fn take_job<K: RunName>(
    clock: &impl Clock,
    alloc: Global,
    control: &mut Control<K>,
    backend: u32,
    calls: &mut Calls,
) -> io::Result<Told>
    requires { IsSample K.meaning }
{
    let begin = Instant::now(clock)?;
    let next = control.next_job(alloc, backend)?;
    calls.of_answer(&next).count(clock, begin)?;
    match next {
        Next::Job { fragment, role, .. } => Ok(Told::Job(Job { fragment, role })),
        Next::Collect { fragment, .. } => {
            finish(clock, alloc, control, fragment, calls)?;
            Ok(Told::Nothing)
        }
        Next::Rest => Ok(Told::Nothing),
        Next::Stop => Ok(Told::Stop),
    }
}

// Lets the backends take turns until one is told to stop.
fn drive<K: RunName>(
    clock: &impl Clock,
    alloc: Global,
    control: &mut Control<K>,
    backends: u32,
) -> io::Result<Calls>
    requires some { 1 ≤ backends }
    requires sample { IsSample K.meaning }
{
    let output = Arc::new(alloc, Sequence::new(alloc))?;
    let mut calls = Calls::NONE;
    let mut jobs: Vec<Option<Job>> = vec![in alloc; None; backends as usize]?;
    for turn in 0..u64::MAX {
        let backend = (turn % u64::from(backends)) as usize;
        let Some(place) = jobs.get_mut(backend) else {
            return Ok(calls);
        };
        if let Some(job) = *place {
            *place = work(clock, alloc, control, job, &output, &mut calls)?;
            continue;
        }
        match take_job(clock, alloc, control, backend as u32, &mut calls)? {
            Told::Job(job) => *place = Some(job),
            Told::Nothing => {}
            Told::Stop => return Ok(calls),
        }
    }
    Ok(calls)
}

// What is left of a run.
#[derive(Drop)]
struct Ended {
    history: History,
    answers: usize,
    calls: Calls,
}

fn run_named<K: RunName, R: Clock>(
    clock: &R,
    alloc: Global,
    fragments: &FragmentList,
    machine: Machine,
) -> io::Result<Ended>
    requires fragments { fragments.now ≡ K.meaning.fragments }
    requires scans { AllByRecursion IsScan fragments.now }
    requires few { length fragments.now ≤ 1000 }
    requires machine { machine ≡ K.meaning.machine }
    requires limits { IsMachine machine }
    requires steps { K.meaning.steps ≡ [] }
    requires sample { IsSample K.meaning }
{
    let steps = Sequence::new(alloc);
    let mut control: Control<K> = Control::new(alloc, fragments, machine, &steps)?;
    let calls = drive(clock, alloc, &mut control, machine.backends)?;
    let (history, answers) = control.into_end();
    Ok(Ended {
        history,
        answers: answers.len(),
        calls,
    })
}

// Runs fragments that are scans of pages on a machine.
fn run<R: Clock>(
    clock: &R,
    alloc: Global,
    fragments: &FragmentList,
    machine: Machine,
) -> io::Result<Ended>
    requires scans { AllByRecursion IsScan fragments.now }
    requires few { length fragments.now ≤ 1000 }
    requires limits { IsMachine machine }
{
    run_named::<Brand, R>(clock, alloc, fragments, machine)
}

fn part_text(alloc: Global, part: Option<Part>) -> io::Result<String> {
    match part {
        Some(part) => Ok(format!(in alloc; " {}:{}", part.fragment, part.degree)?),
        None => Ok(String::new(alloc)),
    }
}

fn decision_text(alloc: Global, decision: &Decision) -> io::Result<String> {
    let first = part_text(alloc, decision.first)?;
    let second = part_text(alloc, decision.second)?;
    if first.is_empty() {
        return Ok(String::from_str(alloc, " nothing")?);
    }
    Ok(format!(in alloc; "{first}{second}")?)
}

// Prints an event that takes or gives positions back, divides a scan, or ends what a role or a backend does.
fn print_move(rt: &impl Print, event: &Event) -> io::Result<()> {
    match event {
        Event::Claim {
            fragment,
            role,
            places,
        } => {
            println!(rt;
                "claim: fragment {fragment}, role {role}, positions {:?}",
                places.items()
            )
        }
        Event::Settle {
            fragment,
            role,
            count,
        } => { println!(rt; "settle: fragment {fragment}, role {role}, {count}") }
        Event::Divide {
            fragment,
            degree,
            cut,
        } => { println!(rt; "divide: fragment {fragment}, degree {degree}, cut {cut}") }
        Event::Leave { fragment, role } => println!(rt; "leave: fragment {fragment}, role {role}"),
        Event::Uncollect { fragment } => println!(rt; "uncollect: fragment {fragment}"),
        _ => Ok(()),
    }
}

// Prints an event on a line.
fn print_event(rt: &impl Print, alloc: Global, event: &Event) -> io::Result<()> {
    match event {
        Event::Begin { decision } => {
            let decision = decision_text(alloc, decision)?;
            println!(rt; "begin{decision}")
        }
        Event::Finish { fragment, decision } => {
            let decision = decision_text(alloc, decision)?;
            println!(rt; "finish {fragment}, then{decision}")
        }
        Event::Seat {
            backend,
            fragment,
            role,
        } => { println!(rt; "seat: backend {backend}, fragment {fragment}, role {role}") }
        Event::Collect { backend, fragment } => {
            println!(rt; "collect: backend {backend}, fragment {fragment}")
        }
        other => print_move(rt, other),
    }
}

fn print_events(rt: &impl Print, alloc: Global, history: &History) -> io::Result<()> {
    for place in 0..history.len() {
        print_event(rt, alloc, history.get(place))?;
    }
    Ok(())
}

// Prints how long a call of each kind took on average.
fn print_times(rt: &impl Print, calls: &Calls) -> io::Result<()> {
    println!(rt;
        "ns for each next_job {}, collect {}, claim {}, settle {}, leave {}, finish {}",
        calls.next.average(),
        calls.collect.average(),
        calls.claim.average(),
        calls.settle.average(),
        calls.leave.average(),
        calls.finish.average()
    )
}

// Scans of so many pages, of which each other one waits for its processors.
fn mixed_scans(alloc: Global) -> Result<Vec<PageScan>, AllocError>
    ensures { IfOk result (λ scans. length scans.items ≡ 16) }
{
    let mut scans = Vec::with_capacity(alloc, FRAGMENTS as usize)?;
    for number in 0..FRAGMENTS {
        let time = if number % 2 == 0 {
            SHORT_TIME
        } else {
            LONG_TIME
        };
        scans.push(PageScan { pages: PAGES, time })?;
    }
    Ok(scans)
}

/// Runs 16 scans of 62,500 pages each through a control, with 4 backends that claim 8 pages at a time, and prints how many
/// events there were and how many bytes an event takes; with `times` also how long the calls took.
pub fn run_control(rt: &(impl Print + Clock + AllocGlobal), times: bool) -> io::Result<()> {
    let alloc = rt.alloc();
    let fragments = make_scans(alloc, &mixed_scans(alloc)?)?;
    let ended = run(rt, alloc, &fragments, MACHINE)?;
    let (events, bytes) = (ended.history.len(), size_of::<Event>());
    println!(rt;
        "{events} events of {bytes} bytes, {} answers",
        ended.answers
    )?;
    if times {
        print_times(rt, &ended.calls)?;
    }
    Ok(())
}

/// Runs a scan of one page and one of eight pages with two backends, and prints the history.
pub fn print_history(rt: &(impl Print + Clock + AllocGlobal)) -> io::Result<()> {
    let alloc = rt.alloc();
    let fragments = make_scans(alloc, SMALL_SCANS)?;
    let ended = run(rt, alloc, &fragments, SMALL_MACHINE)?;
    print_events(rt, alloc, &ended.history)
}

//! Calls on a control, each with its answer, and the events that they give.
ghost use Rattle.std.specs.Prelude.{◌≡◌, ◌<◌, ◌≤◌, [], ◌∷◌, IfOk, length};
ghost use Rattle.std.specs.List.{AllByRecursion};
ghost use Rattle.io_cpu_scheduler.specs.Limits.{IsMachine, IsStep};
ghost use Rattle.plan_tree.specs.Pieces.{pieces_of};
ghost use Rattle.plan_tree.specs.WellFormed.{AreWellFormed};
ghost use Rattle.plan_tree.specs.declared.fragment.End.TheVariants as end;
ghost use Rattle.master.specs.SampleRuns.{IsSample};

use crate::sample_runs::{RUNS, WALK};
use crate::samples::{Scan, pair, trio};
use crate::{Control, History, Next, RunName};
use adjust_protocol::{ArcList, Claimed, Settled};
use hash_join::{Built, Parts, build};
use history::Event;
use io_cpu_scheduler::{Decision, Part};
use lists::Sequence;
use plan_tree::FragmentList;
use rows::{Machine, Rows, Step, StepList};
use std::alloc::Global;
use std::marker::Brand;
use std::process::Abort;
use std::sync::Arc;
use std::test::Fail;

// The number that a word stands for, or 0.
fn number(word: Option<&str>) -> u32 {
    word.and_then(|text| text.parse::<u32>().ok()).unwrap_or(0)
}

fn next<K: RunName>(alloc: Global, control: &mut Control<K>, backend: u32) -> Result<String, Fail> {
    match control.next_job(alloc, backend)? {
        Next::Job { fragment, role, .. } => Ok(format!(in alloc; "job {fragment} {role}")?),
        Next::Collect { fragment, .. } => Ok(format!(in alloc; "collect {fragment}")?),
        Next::Rest => Ok(String::from_str(alloc, "rest")?),
        Next::Stop => Ok(String::from_str(alloc, "stop")?),
    }
}

fn claim<K: RunName>(
    rt: &impl Abort,
    alloc: Global,
    control: &mut Control<K>,
    fragment: u32,
    role: u32,
) -> Result<String, Fail> {
    assert!(rt; fragment < control.fragment_count());
    assert!(rt; role < 64);
    assert!(rt; control.holds(fragment, role));
    assert_eq!(rt; control.out(fragment, role).len(), 0);
    match control.claim(alloc, fragment, role)? {
        Claimed::Batch(batch) => Ok(format!(in alloc; "{:?}", batch.positions())?),
        Claimed::Hold => Ok(String::from_str(alloc, "hold")?),
        Claimed::Leave => Ok(String::from_str(alloc, "leave")?),
    }
}

// So many outputs without rows.
fn outputs(rt: &impl Abort, alloc: Global, count: u32) -> Result<ArcList<Rows>, Fail>
    ensures { IfOk result (AllByRecursion (λ rows. rows ≡ [])) }
{
    let mut list = ArcList::new(alloc);
    for _ in 0..count {
        let rows = Arc::new(alloc, Sequence::new(alloc))?;
        assert!(rt; list.push(rows).is_ok());
    }
    Ok(list)
}

fn settle<K: RunName>(
    rt: &impl Abort,
    alloc: Global,
    control: &mut Control<K>,
    fragment: u32,
    role: u32,
    count: u32,
) -> Result<String, Fail>
    requires { IsSample K.meaning }
{
    assert!(rt; fragment < control.fragment_count());
    assert!(rt; role < 64);
    let out = control.out(fragment, role).len() as usize;
    assert!(rt; 0 < out);
    let outputs = outputs(rt, alloc, count)?;
    assert!(rt; outputs.len() <= out);
    match control.settle(fragment, role, outputs) {
        Settled::More => Ok(String::from_str(alloc, "more")?),
        Settled::Cut(cut) => Ok(format!(in alloc; "cut {cut}")?),
        Settled::Finished => Ok(String::from_str(alloc, "finished")?),
    }
}

fn leave<K: RunName>(rt: &impl Abort, control: &mut Control<K>, fragment: u32, role: u32) {
    assert!(rt; fragment < control.fragment_count());
    assert!(rt; role < 64);
    assert!(rt; control.holds(fragment, role));
    assert_eq!(rt; control.out(fragment, role).len(), 0);
    control.leave(fragment, role);
}

fn uncollect<K: RunName>(rt: &impl Abort, control: &mut Control<K>, fragment: u32) {
    assert!(rt; fragment < control.fragment_count());
    assert!(rt; control.is_collecting(fragment));
    control.uncollect(fragment);
}

fn finish<K: RunName>(
    rt: &impl Abort,
    alloc: Global,
    control: &mut Control<K>,
    fragment: u32,
) -> Result<String, Fail>
    requires { IsSample K.meaning }
{
    assert!(rt; fragment < control.fragment_count());
    assert!(rt; control.is_collecting(fragment));
    let parts = Parts::new(alloc);
    let built = build(alloc, parts, &Sequence::new(alloc), &Sequence::new(alloc))?;
    let decision = control.finish(fragment, Arc::new(alloc, built)?);
    decision_text(alloc, &decision)
}

fn part_text(alloc: Global, part: Part) -> Result<String, Fail> {
    Ok(format!(in alloc; "{}:{}", part.fragment, part.degree)?)
}

fn decision_text(alloc: Global, decision: &Decision) -> Result<String, Fail> {
    match (decision.first, decision.second) {
        (Some(first), Some(second)) => {
            let one = part_text(alloc, first)?;
            let two = part_text(alloc, second)?;
            Ok(format!(in alloc; "{one} {two}")?)
        }
        (Some(first), None) => part_text(alloc, first),
        _ => Ok(String::from_str(alloc, "nothing")?),
    }
}

fn done(alloc: Global, answer: &str) -> Result<String, Fail> {
    Ok(String::from_str(alloc, answer)?)
}

// What a call such as `claim 0 8` answers, as text.
fn answer<K: RunName>(
    rt: &impl Abort,
    alloc: Global,
    control: &mut Control<K>,
    call: &str,
) -> Result<String, Fail>
    requires { IsSample K.meaning }
{
    let mut words = call.split_whitespace();
    let name = words.next().unwrap_or("");
    let first = number(words.next());
    let second = number(words.next());
    let third = number(words.next());
    if name == "next" {
        return next(alloc, control, first);
    }
    if name == "claim" {
        return claim(rt, alloc, control, first, second);
    }
    if name == "settle" {
        return settle(rt, alloc, control, first, second, third);
    }
    if name == "finish" {
        return finish(rt, alloc, control, first);
    }
    if name == "leave" {
        leave(rt, control, first, second);
        return done(alloc, "left");
    }
    if name == "uncollect" {
        uncollect(rt, control, first);
        return done(alloc, "undone");
    }
    control.release(alloc);
    done(alloc, "released")
}

// Makes the calls, those lines that have an answer.
fn play<K: RunName>(
    rt: &impl Abort,
    alloc: Global,
    control: &mut Control<K>,
    lines: &str,
) -> Result<(), Fail>
    requires { IsSample K.meaning }
{
    for line in lines.lines() {
        if let Some((call, wanted)) = line.split_once(" = ") {
            let text = answer(rt, alloc, control, call)?;
            assert_eq!(rt; text.as_str(), wanted, "{call}");
        }
    }
    Ok(())
}

fn event_text(alloc: Global, event: &Event) -> Result<String, Fail> {
    match event {
        Event::Begin { decision } => {
            let decision = decision_text(alloc, decision)?;
            Ok(format!(in alloc; "begin then {decision}")?)
        }
        Event::Finish { fragment, decision } => {
            let decision = decision_text(alloc, decision)?;
            Ok(format!(in alloc; "finish {fragment} then {decision}")?)
        }
        other => move_text(alloc, other),
    }
}

fn move_text(alloc: Global, event: &Event) -> Result<String, Fail> {
    match event {
        Event::Seat {
            backend,
            fragment,
            role,
        } => { Ok(format!(in alloc; "seat {backend} {fragment} {role}")?) }
        Event::Claim {
            fragment,
            role,
            places,
        } => { Ok(format!(in alloc; "claim {fragment} {role} {:?}", places.items())?) }
        Event::Settle {
            fragment,
            role,
            count,
        } => { Ok(format!(in alloc; "settle {fragment} {role} {count}")?) }
        Event::Divide {
            fragment,
            degree,
            cut,
        } => { Ok(format!(in alloc; "divide {fragment} {degree} {cut}")?) }
        Event::Leave { fragment, role } => Ok(format!(in alloc; "leave {fragment} {role}")?),
        Event::Collect { backend, fragment } => {
            Ok(format!(in alloc; "collect {backend} {fragment}")?)
        }
        Event::Uncollect { fragment } => Ok(format!(in alloc; "uncollect {fragment}")?),
        _ => done(alloc, ""),
    }
}

// The events are those of the lines that have no answer.
fn assert_events(
    rt: &impl Abort,
    alloc: Global,
    history: &History,
    lines: &str,
) -> Result<(), Fail> {
    let mut place = 0usize;
    for line in lines.lines() {
        if line.contains(" = ") {
            continue;
        }
        assert!(rt; place < history.len());
        let text = event_text(alloc, history.get(place))?;
        assert_eq!(rt; text.as_str(), line);
        place += 1;
    }
    assert_eq!(rt; history.len(), place);
    Ok(())
}

fn run_named<K: RunName, R: Abort>(
    rt: &R,
    alloc: Global,
    fragments: &FragmentList,
    machine: Machine,
    steps: &StepList,
    lines: &String,
) -> Result<usize, Fail>
    requires fragments { fragments.now ≡ K.meaning.fragments }
    requires formed { AreWellFormed (pieces_of fragments.now) }
    requires machine { machine ≡ K.meaning.machine }
    requires limits { IsMachine machine }
    requires steps { steps.now ≡ K.meaning.steps }
    requires within { AllByRecursion IsStep steps.now }
    requires sample { IsSample K.meaning }
{
    let mut control: Control<K> = Control::new(alloc, fragments, machine, steps)?;
    play(rt, alloc, &mut control, lines.as_str())?;
    let (history, answers) = control.into_end();
    assert_events(rt, alloc, &history, lines.as_str())?;
    Ok(answers.len())
}

// The machine of a run, its backends after the first finish, and how many answers there are at the end.
#[derive(Clone, Copy)]
struct Setting {
    machine: Machine,
    later: u32,
    answers: u32,
}

// What stands behind ` on ` in the first line of a run.
fn setting_of(rt: &impl Abort, words: &str) -> Setting
    ensures machine { IsMachine result.machine }
    ensures low { 1 ≤ result.later }
    ensures high { result.later ≤ 64 }
{
    let mut words = words.split_whitespace();
    let backends = number(words.next());
    let drives = number(words.next());
    let batch = number(words.next());
    let _then = words.next();
    let later = number(words.next());
    let _gives = words.next();
    let answers = number(words.next());
    assert!(rt; 1 <= backends && backends <= 64);
    assert!(rt; 1 <= drives && drives <= 16);
    assert!(rt; 1 <= batch && batch <= 64);
    assert!(rt; 1 <= later && later <= 64);
    let machine = Machine {
        backends,
        drives,
        batch,
    };
    Setting {
        machine,
        later,
        answers,
    }
}

// A machine that changes to so many backends after the first finish.
fn steps(alloc: Global, backends: u32) -> Result<StepList, Fail>
    requires low { 1 ≤ backends }
    requires high { backends ≤ 64 }
    ensures { IfOk result (AllByRecursion IsStep) }
{
    let step = Step { after: 1, backends };
    Ok(Sequence::from_vec(vec![in alloc; step]?))
}

// Makes a control for these fragments, makes the calls, and compares the events and the number of answers.
fn run<R: Abort>(
    rt: &R,
    alloc: Global,
    fragments: &FragmentList,
    setting: &str,
    lines: &str,
) -> Result<(), Fail>
    requires formed { AreWellFormed (pieces_of fragments.now) }
    requires ends { AllByRecursion (λ f. f.end ≡ end.Build []) fragments.now }
{
    let setting = setting_of(rt, setting);
    let steps = steps(alloc, setting.later)?;
    let lines = String::from_str(alloc, lines)?;
    let answers = run_named::<Brand, R>(rt, alloc, fragments, setting.machine, &steps, &lines)?;
    assert_eq!(rt; answers, setting.answers as usize);
    Ok(())
}

// A scan such as `pages 20 20 90000`: its positions, pages and time.
fn scan_of(rt: &impl Abort, words: &str) -> Scan
    ensures { 1 ≤ result.time }
{
    let mut words = words.split_whitespace();
    let by_entries = words.next() == Some("entries");
    let positions = number(words.next());
    let pages = number(words.next());
    let time = number(words.next());
    assert!(rt; 1 <= time);
    Scan {
        by_entries,
        positions,
        pages,
        time,
    }
}

// Two scans, each of its own statement.
fn play_pair(
    rt: &impl Abort,
    alloc: Global,
    scans: &str,
    setting: &str,
    lines: &str,
) -> Result<(), Fail> {
    let (first, second) = scans.split_once(" + ").ok_or("a run has one scan")?;
    let first = scan_of(rt, first);
    let second = scan_of(rt, second);
    let fragments = pair(alloc, &first, &second)?;
    run(rt, alloc, &fragments, setting, lines)
}

// Three fragments, of which one reads another.
fn play_trio(rt: &impl Abort, alloc: Global, setting: &str, lines: &str) -> Result<(), Fail> {
    let fragments = trio(alloc)?;
    run(rt, alloc, &fragments, setting, lines)
}

// No fragments.
fn play_none(rt: &impl Abort, alloc: Global, setting: &str, lines: &str) -> Result<(), Fail> {
    let fragments = Sequence::new(alloc);
    run(rt, alloc, &fragments, setting, lines)
}

// A run: a line that says what it is, then its calls with their answers, and its events.
fn play_run(rt: &impl Abort, alloc: Global, text: &str) -> Result<(), Fail> {
    let (first, lines) = text.split_once("\n").ok_or("a run has one line")?;
    let (fragments, setting) = first.split_once(" on ").ok_or("a run has no machine")?;
    if fragments == "none" {
        return play_none(rt, alloc, setting, lines);
    }
    if fragments == "trio" {
        return play_trio(rt, alloc, setting, lines);
    }
    play_pair(rt, alloc, fragments, setting, lines)
}

#[test]
fn runs_answer_and_record_what_is_stated(rt: HostRuntime) -> Result<(), Fail> {
    for text in RUNS.split("\n\n") {
        play_run(&rt, rt.alloc(), text)?;
    }
    Ok(())
}

#[test]
fn a_random_walk_meets_the_plain_definitions(rt: HostRuntime) -> Result<(), Fail> {
    play_run(&rt, rt.alloc(), WALK)
}

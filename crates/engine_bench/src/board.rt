ghost use Rattle.std.specs.Prelude.{◌≡◌, ℕ, ◌≤◌, ◌+◌, ◌*◌, ◌<◌, length, IfOk};
ghost use Rattle.adjust_protocol.specs.Room.{KeepsRoom};

use adjust_protocol::{ArcList, Asked, Board};
use page_partition::{Division, PageStride};
use range_partition::EntryIntervals;
use std::alloc::{AllocError, Global};
use std::io;
use std::rt::Clock;
use std::sync::Arc;
use std::time::{Duration, Instant};

const ROLES: u32 = 8;

const DIVIDES: u32 = 64;

const BATCH: u32 = 16;

const POSITIONS: u32 = 1_000_000;

const STEPS: u32 = 200_000;

/// Each step uses the room of eleven divides at most.
const ROOM: u32 = 2_200_000;

/// How many claims and divides were made, and how long each kind of call took in all.
#[derive(Drop)]
struct Tally {
    claims: u32,
    divides: u32,
    claiming: Duration,
    settling: Duration,
    dividing: Duration,
}

impl Tally {
    fn count_divide(&mut self, taken: Duration) {
        self.divides = self.divides.saturating_add(1);
        self.dividing = self.dividing.saturating_add(taken);
    }
}

/// Holds each role that may be held.
fn seat_all<V: Division>(board: &mut Board<V, u32>)
    ensures { board.old.running.scan.room ≤ board.new.running.scan.room + 8 }
{
    for _role in 0..ROLES {
        seat(board);
    }
}

fn seat<V: Division>(board: &mut Board<V, u32>)
    ensures { KeepsRoom board.old.running board.new.running }
{
    if board.holders() >= board.wanted() {
        return;
    }
    board.seat();
}

fn claim<V: Division>(board: &mut Board<V, u32>, role: u32)
    requires { role < 64 }
    ensures { KeepsRoom board.old.running board.new.running }
{
    if !board.holds(role) {
        return;
    }
    if board.out(role).len() > 0 {
        return;
    }
    board.claim(role, BATCH);
}

fn settle<V: Division>(board: &mut Board<V, u32>, role: u32, outputs: ArcList<u32>)
    requires { role < 64 }
    ensures { KeepsRoom board.old.running board.new.running }
{
    let out = board.out(role).len() as usize;
    if out == 0 {
        return;
    }
    if outputs.len() > out {
        return;
    }
    board.settle(role, outputs);
}

/// Asks for a degree, and tells whether the scan was divided at once.
fn ask<V: Division>(board: &mut Board<V, u32>, degree: u32) -> bool
    requires low { 1 ≤ degree }
    requires high { degree ≤ 64 }
    requires room { 0 < board.old.running.scan.room }
    ensures { KeepsRoom board.old.running board.new.running }
{
    match board.ask(degree) {
        Asked::Cut(_) => true,
        _ => false,
    }
}

/// One output for each of `count` positions.
fn outputs(alloc: Global, count: u32) -> Result<ArcList<u32>, AllocError> {
    let mut list = ArcList::new(alloc);
    for _place in 0..count {
        let output = Arc::new(alloc, 0)?;
        if list.push(output).is_err() {
            return Err(AllocError);
        }
    }
    Ok(list)
}

/// One claim and its settle.
fn work<V: Division>(
    clock: &impl Clock,
    alloc: Global,
    board: &mut Board<V, u32>,
    role: u32,
    tally: &mut Tally,
) -> io::Result<()>
    requires { role < 64 }
    ensures { board.old.running.scan.room ≤ board.new.running.scan.room + 2 }
{
    let begin = Instant::now(clock)?;
    claim(board, role);
    let end = Instant::now(clock)?;
    let out = board.out(role).len();
    if out == 0 {
        return Ok(());
    }
    tally.claims = tally.claims.saturating_add(1);
    tally.claiming = tally
        .claiming
        .saturating_add(end.saturating_duration_since(begin));
    let outputs = outputs(alloc, out)?;
    let begin = Instant::now(clock)?;
    settle(board, role, outputs);
    let end = Instant::now(clock)?;
    tally.settling = tally
        .settling
        .saturating_add(end.saturating_duration_since(begin));
    Ok(())
}

/// Divides the scan anew, with seven roles after eight and eight after seven.
fn divide<V: Division>(
    clock: &impl Clock,
    board: &mut Board<V, u32>,
    tally: &mut Tally,
) -> io::Result<()>
    requires { 9 ≤ board.old.running.scan.room }
    ensures { board.old.running.scan.room ≤ board.new.running.scan.room + 9 }
{
    let degree = if board.degree() == ROLES {
        ROLES - 1
    } else {
        ROLES
    };
    let begin = Instant::now(clock)?;
    let divided = ask(board, degree);
    let end = Instant::now(clock)?;
    if divided {
        tally.count_divide(end.saturating_duration_since(begin));
    }
    seat_all(board);
    Ok(())
}

/// Divides the scan where the step is one of each `every` steps.
fn divide_at<V: Division>(
    clock: &impl Clock,
    board: &mut Board<V, u32>,
    step: u32,
    every: u32,
    tally: &mut Tally,
) -> io::Result<()>
    requires { 9 ≤ board.old.running.scan.room }
    ensures { board.old.running.scan.room ≤ board.new.running.scan.room + 9 }
{
    if step.checked_rem(every) != Some(0) {
        return Ok(());
    }
    if tally.divides >= DIVIDES {
        return Ok(());
    }
    divide(clock, board, tally)
}

/// Gives each role its turn until the scan is finished, and divides it every `every` steps, 64 times at most.
fn run<V: Division>(
    clock: &impl Clock,
    alloc: Global,
    board: &mut Board<V, u32>,
    every: u32,
) -> io::Result<Tally>
    requires { 11 * 200000 ≤ board.old.running.scan.room }
{
    let mut tally = Tally {
        claims: 0,
        divides: 0,
        claiming: Duration::ZERO,
        settling: Duration::ZERO,
        dividing: Duration::ZERO,
    };
    for step in 0..STEPS {
        if board.is_finished() {
            return Ok(tally);
        }
        turn(clock, alloc, board, step, every, &mut tally)?;
    }
    Ok(tally)
}

/// One step: a divide where one is due, then one claim and its settle by the role whose turn it is.
fn turn<V: Division>(
    clock: &impl Clock,
    alloc: Global,
    board: &mut Board<V, u32>,
    step: u32,
    every: u32,
    tally: &mut Tally,
) -> io::Result<()>
    requires { 11 ≤ board.old.running.scan.room }
    ensures { board.old.running.scan.room ≤ board.new.running.scan.room + 11 }
{
    divide_at(clock, board, step, every, tally)?;
    work(clock, alloc, board, step % ROLES, tally)
}

fn per_call(total: Duration, calls: u32) -> u128 {
    total.as_nanos().checked_div(u128::from(calls)).unwrap_or(0)
}

/// Runs a scan of so many positions over a new board, and prints how it ended.
fn run_board<V: Division>(
    rt: &(impl Print + Clock + AllocGlobal),
    name: &str,
    positions: u32,
) -> io::Result<Tally> {
    let alloc = rt.alloc();
    let every = positions / BATCH / DIVIDES;
    let mut board: Board<V, u32> = Board::new(alloc, positions, ROLES, ROOM)?;
    let tally = run(rt, alloc, &mut board, every)?;
    let finished = board.is_finished();
    println!(rt; "{name}: {} divides, finished {finished}", tally.divides)?;
    Ok(tally)
}

/// Prints how long a call of each kind took on average.
fn print_times(rt: &impl Print, name: &str, tally: &Tally) -> io::Result<()> {
    let claim = per_call(tally.claiming, tally.claims);
    let settle = per_call(tally.settling, tally.claims);
    let divide = per_call(tally.dividing, tally.divides);
    println!(rt;
        "{name}: {} claims; ns for each claim {claim}, settle {settle}, divide {divide}",
        tally.claims
    )
}

/// Runs a scan of a million positions through eight roles while its degree changes 64 times, once by pages and once by
/// entries, and prints how each ended; with `times` also how long the calls took.
pub fn run_boards(rt: &(impl Print + Clock + AllocGlobal), times: bool) -> io::Result<()> {
    let pages = run_board::<PageStride>(rt, "pages", POSITIONS)?;
    let entries = run_board::<EntryIntervals>(rt, "entries", POSITIONS)?;
    if times {
        print_times(rt, "pages", &pages)?;
        print_times(rt, "entries", &entries)?;
    }
    Ok(())
}

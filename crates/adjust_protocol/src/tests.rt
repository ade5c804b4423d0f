ghost use Rattle.std.specs.Prelude.{◌≡◌, ◌<◌, ◌≤◌, ◌+◌, length};
ghost use Rattle.adjust_protocol.specs.Room.{KeepsRoom};

use crate::random_walks::{ENTRIES_WALK, PAGES_WALK};
use crate::{ArcList, Asked, Board, Claimed, Seated, Settled};
use page_partition::{Division, PageStride};
use range_partition::EntryIntervals;
use std::alloc::Global;
use std::process::Abort;
use std::sync::Arc;
use std::test::Fail;

/// The output of a position in these tests.
fn output_of(position: u32) -> u64 {
    u64::from(position) + 1000
}

fn seat<V: Division>(rt: &impl Abort, board: &mut Board<V, u64>) -> Seated
    ensures { KeepsRoom board.old.running board.new.running }
{
    assert!(rt; board.holders() < board.wanted());
    board.seat()
}

fn claim<V: Division>(rt: &impl Abort, board: &mut Board<V, u64>, role: u32, most: u32) -> Claimed
    ensures { KeepsRoom board.old.running board.new.running }
{
    assert!(rt; role < 64);
    assert!(rt; 1 <= most);
    assert!(rt; most <= 64);
    assert!(rt; board.holds(role));
    assert_eq!(rt; board.out(role).len(), 0);
    board.claim(role, most)
}

/// The outputs of the first `count` positions that are out with the role.
fn outputs<V: Division>(
    rt: &impl Abort,
    alloc: Global,
    board: &Board<V, u64>,
    role: u32,
    count: u32,
) -> Result<ArcList<u64>, Fail> {
    assert!(rt; role < 64);
    let batch = board.out(role);
    let mut list = ArcList::new(alloc);
    for place in 0..count {
        assert!(rt; place < batch.len());
        let output = Arc::new(alloc, output_of(batch.get(place)))?;
        assert!(rt; list.push(output).is_ok());
    }
    Ok(list)
}

fn settle<V: Division>(
    rt: &impl Abort,
    board: &mut Board<V, u64>,
    role: u32,
    outputs: ArcList<u64>,
) -> Settled
    ensures { KeepsRoom board.old.running board.new.running }
{
    assert!(rt; role < 64);
    let out = board.out(role).len() as usize;
    assert!(rt; 0 < out);
    assert!(rt; outputs.len() <= out);
    board.settle(role, outputs)
}

fn ask<V: Division>(rt: &impl Abort, board: &mut Board<V, u64>, degree: u32) -> Asked
    requires { 0 < board.old.running.scan.room }
    ensures { KeepsRoom board.old.running board.new.running }
{
    assert!(rt; 1 <= degree);
    assert!(rt; degree <= 64);
    board.ask(degree)
}

/// Gives up a held role.
fn leave<V: Division>(rt: &impl Abort, board: &mut Board<V, u64>, role: u32)
    ensures { KeepsRoom board.old.running board.new.running }
{
    assert!(rt; role < 64);
    assert!(rt; board.holds(role));
    assert_eq!(rt; board.out(role).len(), 0);
    board.leave(role);
}

/// The outputs are those of the positions, in order.
fn assert_outputs(rt: &impl Abort, outputs: &ArcList<u64>) {
    for place in 0..outputs.len() {
        assert!(rt; place < u32::MAX as usize);
        assert_eq!(rt; **outputs.get(place), output_of(place as u32));
    }
}

/// The number that a word stands for, or 0.
fn number(word: Option<&str>) -> u32 {
    word.and_then(|text| text.parse::<u32>().ok()).unwrap_or(0)
}

fn seated_text(alloc: Global, answer: &Seated) -> Result<String, Fail> {
    match answer {
        Seated::Role(role) => Ok(format!(in alloc; "role {role}")?),
        Seated::NoRole => Ok(String::from_str(alloc, "no role")?),
    }
}

fn claimed_text(alloc: Global, answer: &Claimed) -> Result<String, Fail> {
    match answer {
        Claimed::Batch(batch) => Ok(format!(in alloc; "{:?}", batch.positions())?),
        Claimed::Hold => Ok(String::from_str(alloc, "hold")?),
        Claimed::Leave => Ok(String::from_str(alloc, "leave")?),
    }
}

fn settled_text(alloc: Global, answer: &Settled) -> Result<String, Fail> {
    match answer {
        Settled::More => Ok(String::from_str(alloc, "more")?),
        Settled::Cut(cut) => Ok(format!(in alloc; "cut {cut}")?),
        Settled::Finished => Ok(String::from_str(alloc, "finished")?),
    }
}

fn asked_text(alloc: Global, answer: &Asked) -> Result<String, Fail> {
    match answer {
        Asked::Pending => Ok(String::from_str(alloc, "pending")?),
        Asked::Cut(cut) => Ok(format!(in alloc; "cut {cut}")?),
        Asked::NoChange => Ok(String::from_str(alloc, "no change")?),
        Asked::AlreadyFinished => Ok(String::from_str(alloc, "already finished")?),
    }
}

/// What a call such as `claim 0 8` answers, as text.
fn answer<V: Division>(
    rt: &impl Abort,
    alloc: Global,
    board: &mut Board<V, u64>,
    call: &str,
) -> Result<String, Fail>
    requires { 0 < board.old.running.scan.room }
    ensures { KeepsRoom board.old.running board.new.running }
{
    let mut words = call.split_whitespace();
    let name = words.next().unwrap_or("");
    let first = number(words.next());
    let second = number(words.next());
    if name == "seat" {
        return seated_text(alloc, &seat(rt, board));
    }
    if name == "claim" {
        return claimed_text(alloc, &claim(rt, board, first, second));
    }
    if name == "settle" {
        let outputs = outputs(rt, alloc, board, first, second)?;
        return settled_text(alloc, &settle(rt, board, first, outputs));
    }
    if name == "leave" {
        leave(rt, board, first);
        return Ok(String::from_str(alloc, "left")?);
    }
    asked_text(alloc, &ask(rt, board, first))
}

/// Makes the calls of a row in order, one a line, each with its answer.
fn play<V: Division>(
    rt: &impl Abort,
    alloc: Global,
    board: &mut Board<V, u64>,
    row: &str,
) -> Result<(), Fail>
    requires { 64 ≤ board.old.running.scan.room }
{
    let mut asks = 64u32;
    for line in row.lines() {
        let (call, wanted) = line.split_once(" = ").ok_or("a line has no answer")?;
        if asks == 0 {
            return Err(Fail::from("a row is too long"));
        }
        asks -= 1;
        let text = answer(rt, alloc, board, call)?;
        assert_eq!(rt; text.as_str(), wanted, "{call}");
    }
    Ok(())
}

fn row<V: Division>(
    rt: &impl Abort,
    alloc: Global,
    positions: u32,
    degree: u32,
    row: &str,
) -> Result<Board<V, u64>, Fail>
    requires low { 1 ≤ degree }
    requires high { degree ≤ 64 }
{
    let mut board = Board::new(alloc, positions, degree, 64)?;
    play(rt, alloc, &mut board, row)?;
    Ok(board)
}

const PAGES_CUT: &str = "seat = role 0
seat = role 1
claim 0 3 = [0, 2, 4]
claim 1 4 = [1, 3, 5, 7]
settle 0 3 = more
settle 1 4 = more
ask 3 = cut 8
seat = role 2
claim 0 64 = [6, 9, 12, 15, 18]
claim 1 64 = [10, 13, 16, 19]
claim 2 64 = [8, 11, 14, 17]";

const NOTHING_DEPOSITED: &str = "ask 3 = cut 0
ask 3 = no change
seat = role 0
claim 0 64 = [0, 3]";

const ROLES_RETIRE: &str = "seat = role 0
seat = role 1
seat = role 2
seat = role 3
seat = role 4
claim 0 64 = [0, 5, 10]
settle 0 3 = more
ask 1 = cut 11
claim 0 64 = [11]
claim 1 64 = [1, 6]
claim 2 64 = [2, 7]
claim 3 64 = [3, 8]
claim 4 64 = [4, 9]";

const PENDING: &str = "seat = role 0
claim 0 8 = [0, 1, 2, 3, 4, 5, 6, 7]
ask 2 = pending
settle 0 3 = cut 3
claim 0 8 = [4, 6, 8, 10, 12, 14, 16, 18]
seat = role 1
claim 1 64 = [3, 5, 7, 9, 11, 13, 15, 17, 19]";

const HELD_BACK: &str = "seat = role 0
seat = role 1
claim 0 1 = [0]
ask 1 = pending
claim 1 1 = hold
settle 0 1 = cut 1
claim 1 1 = leave";

const FINISHED: &str = "seat = role 0
claim 0 64 = [0, 1, 2]
ask 2 = pending
settle 0 3 = finished
ask 2 = already finished";

const ENTRIES_CUT: &str = "seat = role 0
seat = role 1
claim 0 2 = [0, 1]
claim 1 1 = [5]
settle 0 2 = more
settle 1 1 = more
ask 3 = cut 7
seat = role 2
claim 0 64 = [2, 3]
claim 1 64 = [4, 6]
claim 2 64 = [7, 8, 9]";

const ENTRIES_PENDING: &str = "seat = role 0
claim 0 8 = [0, 1, 2, 3, 4, 5, 6, 7]
ask 3 = pending
settle 0 2 = cut 8
seat = role 1
seat = role 2
claim 0 64 = [2, 3]
claim 1 64 = [4, 5, 6]
claim 2 64 = [7, 8, 9]";

#[test]
fn rows_give_their_answers(rt: HostRuntime) -> Result<(), Fail> {
    row::<PageStride>(&rt, rt.alloc(), 20, 2, PAGES_CUT)?;
    row::<PageStride>(&rt, rt.alloc(), 5, 2, NOTHING_DEPOSITED)?;
    row::<PageStride>(&rt, rt.alloc(), 12, 5, ROLES_RETIRE)?;
    row::<PageStride>(&rt, rt.alloc(), 20, 1, PENDING)?;
    row::<EntryIntervals>(&rt, rt.alloc(), 10, 2, ENTRIES_CUT)?;
    row::<EntryIntervals>(&rt, rt.alloc(), 10, 1, ENTRIES_PENDING)?;
    let mut board = row::<PageStride>(&rt, rt.alloc(), 4, 2, HELD_BACK)?;
    assert!(rt; board.collect(rt.alloc())?.is_none());
    Ok(())
}

#[test]
fn random_walks_meet_the_plain_definitions(rt: HostRuntime) -> Result<(), Fail> {
    let pages = row::<PageStride>(&rt, rt.alloc(), 24, 3, PAGES_WALK)?;
    assert!(rt; pages.is_finished());
    let entries = row::<EntryIntervals>(&rt, rt.alloc(), 20, 3, ENTRIES_WALK)?;
    assert!(rt; entries.is_finished());
    Ok(())
}

#[test]
fn outputs_come_back_in_order(rt: HostRuntime) -> Result<(), Fail> {
    let mut board = row::<PageStride>(&rt, rt.alloc(), 3, 1, FINISHED)?;
    let all = board.collect(rt.alloc())?.ok_or("not full")?;
    assert_eq!(rt; all.len(), 3);
    assert_outputs(&rt, &all);
    assert!(rt; board.is_collecting());
    board.release();
    assert_eq!(rt; board.holders(), 0);
    assert!(rt; !board.is_collecting());
    Ok(())
}

#[test]
fn a_board_of_no_positions_is_finished_when_made(rt: HostRuntime) -> Result<(), Fail> {
    let mut board: Board<PageStride, u64> = Board::new(rt.alloc(), 0, 1, 64)?;
    board.begin(2);
    assert_eq!(rt; board.degree(), 2);
    play(
        &rt,
        rt.alloc(),
        &mut board,
        "seat = no role\nask 3 = already finished",
    )?;
    assert!(rt; board.is_finished());
    let all = board.collect(rt.alloc())?.ok_or("not full")?;
    assert_eq!(rt; all.len(), 0);
    assert!(rt; board.collect(rt.alloc())?.is_none());
    assert!(rt; board.is_collecting());
    board.uncollect();
    assert!(rt; !board.is_collecting());
    Ok(())
}

//! A fragment of a run: its board, and how far it has come.
ghost use Rattle.std.specs.Prelude.{◌≡◌, ℕ, ◌<◌, ◌≤◌, ◌+◌, ◌++◌, ◌==◌, ◌&&◌, not, [], ◌∷◌, true, false, length, IfOk, OnErr, IsTrue, is_some, Some, None, map, replicate};
ghost use Rattle.std.specs.Bool.{OnTrue};
ghost use Rattle.page_partition.specs.Scan.{left_of, out_of};
ghost use Rattle.master.specs.Boards.{AsksBoard, BeginsBoard, CollectsBoard, IsUnbegunBoard, cut_in};
ghost use Rattle.master.specs.Kind.{board_in, by_entries_in};
ghost use Rattle.master.specs.Starts.{start_of};
ghost use Rattle.adjust_protocol.specs.Calls.{fresh};
ghost use Rattle.history.specs.Boards.{rule_by};

use crate::start::inputs_of;
use adjust_protocol::{ArcList, Asked, Board, Claimed, Seated, Settled};
use hash_join::{Built, Parts};
use io_cpu_scheduler::Load;
use page_partition::{Batch, PageStride};
use plan_tree::Fragment;
use range_partition::EntryIntervals;
use rows::Rows;
use std::alloc::{AllocError, Global};
use std::marker::Model;
use std::sync::Arc;

/// A board of either division.
#[derive(Drop)]
pub enum AnyBoard {
    Pages(Board<PageStride, Rows>),
    Entries(Board<EntryIntervals, Rows>),
}

/// Whether a fragment has begun, and its value once it is finished.
#[derive(Drop)]
pub enum Phase {
    Waiting,
    Runs,
    Ended(Arc<Built>),
}

/// A fragment of a run.
#[derive(Drop)]
pub struct Slot {
    board: AnyBoard,
    inputs: Vec<u32>,
    load: Load,
    phase: Phase,
}

impl Model for Slot {
    ghost use Rattle.master.specs.Kind.{Slotted, slotted};

    ghost Value = { Slotted };

    ghost view = { λ s. slotted s.board s.inputs.items s.load s.phase };
}

impl Slot {
    ghost use Rattle.master.specs.Kind.{Slotted, is_ended, is_running, is_waiting, value_in};
    ghost use Rattle.std.specs.Option.{option_map};
    ghost use Rattle.master.specs.Boards.{Collects, HasSeat, collected_as, with_board, waits};
    ghost use Rattle.adjust_protocol.specs.Moves as move;
    ghost use Rattle.adjust_protocol.specs.Moves.{Makes, holders, is_free, is_full, is_held, wanted};
    ghost use Rattle.adjust_protocol.specs.Answers.{AskAnswer, ClaimAnswer, SeatAnswer, SettleAnswer, ask_moves, claim_moves, seat_moves, settle_moves};
    ghost use Rattle.adjust_protocol.specs.Full.{CollectAnswer};
    ghost use Rattle.adjust_protocol.specs.Kept.{IsCalm};
    ghost use Rattle.adjust_protocol.specs.Outputs.{put_outputs};

    /// A fragment that hasn't begun, of this number. Its board has room for so many asks. An error is want of memory.
    pub fn new(
        alloc: Global,
        number: u32,
        fragment: &Fragment,
        asks: u32,
    ) -> Result<Slot, AllocError>
        requires { asks ≤ 1000 }
        ensures { IfOk result (λ slot. slot ≡ start_of number asks fragment.now) }
    {
        let inputs = inputs_of(alloc, fragment)?;
        let board = new_board(alloc, fragment.by_entries(), fragment.positions, asks)?;
        Ok(Slot {
            board,
            inputs,
            load: Load {
                fragment: number,
                pages: fragment.pages,
                time: fragment.time,
            },
            phase: Phase::Waiting,
        })
    }

    pub fn is_running(&self) -> bool
        ensures { result ≡ is_running self.now }
    {
        match self.phase {
            Phase::Runs => true,
            _ => false,
        }
    }

    pub fn is_ended(&self) -> bool
        ensures { result ≡ is_ended self.now }
    {
        match self.phase {
            Phase::Ended(_) => true,
            _ => false,
        }
    }

    pub fn is_waiting(&self) -> bool
        ensures { result ≡ is_waiting self.now }
    {
        match self.phase {
            Phase::Waiting => true,
            _ => false,
        }
    }

    /// The fragments that this one reads.
    pub fn inputs(&self) -> &[u32]
        ensures { result.now ≡ self.now.inputs }
    {
        &self.inputs
    }

    /// The fragment's value, shared, once it is finished. An error is want of memory.
    pub fn share_value(&self) -> Result<Option<Arc<Built>>, AllocError>
        ensures { IfOk result (λ found. option_map (λ x. x.value) found ≡ value_in self.now.stage) }
    {
        match &self.phase {
            Phase::Ended(value) => Ok(Some(value.clone()?)),
            _ => Ok(None),
        }
    }

    /// The fragment's value, once it is finished.
    pub fn into_value(self) -> Option<Arc<Built>>
        ensures { option_map (λ x. x.value) result ≡ value_in self.stage }
    {
        let Slot { phase, .. } = self;
        match phase {
            Phase::Ended(value) => Some(value),
            _ => None,
        }
    }

    pub fn load(&self) -> Load
        ensures { result ≡ self.now.load }
    {
        self.load
    }

    /// Whether every position is deposited.
    pub fn is_full(&self) -> bool
        ensures { result ≡ is_full self.now.board.running.scan.marks }
    {
        match &self.board {
            AnyBoard::Pages(board) => board.is_finished(),
            AnyBoard::Entries(board) => board.is_finished(),
        }
    }

    pub fn is_collecting(&self) -> bool
        ensures { result ≡ self.now.board.running.collecting }
    {
        match &self.board {
            AnyBoard::Pages(board) => board.is_collecting(),
            AnyBoard::Entries(board) => board.is_collecting(),
        }
    }

    /// Whether it runs, its scan is done, and nobody collects it.
    pub fn waits(&self) -> bool
        ensures { result ≡ waits self.now }
    {
        self.is_running() && self.is_full() && !self.is_collecting()
    }

    pub fn is_asked(&self) -> bool
        ensures { result ≡ is_some self.now.board.running.asked }
    {
        match &self.board {
            AnyBoard::Pages(board) => board.is_asked(),
            AnyBoard::Entries(board) => board.is_asked(),
        }
    }

    pub fn holders(&self) -> u32
        ensures { result ≡ holders self.now.board.running }
    {
        match &self.board {
            AnyBoard::Pages(board) => board.holders(),
            AnyBoard::Entries(board) => board.holders(),
        }
    }

    pub fn wanted(&self) -> u32
        ensures { result ≡ wanted self.now.board.running }
    {
        match &self.board {
            AnyBoard::Pages(board) => board.wanted(),
            AnyBoard::Entries(board) => board.wanted(),
        }
    }

    pub fn has_free_role(&self) -> bool
        ensures yes { OnTrue result ((r : ℕ) × (r < 64) × (is_free self.now.board.running r ≡ true)) }
        ensures no { OnTrue (not result) ((r : ℕ) → r < 64 → is_free self.now.board.running r ≡ false) }
    {
        match &self.board {
            AnyBoard::Pages(board) => board.has_free_role(),
            AnyBoard::Entries(board) => board.has_free_role(),
        }
    }

    /// Whether it runs, has a free role, and has fewer held ones than it wants.
    pub fn has_seat(&self) -> bool
        ensures yes { OnTrue result (HasSeat self.now) }
        ensures no { OnTrue (not result) (HasSeat self.now → ⊥) }
    {
        self.is_running() && self.holders() < self.wanted() && self.has_free_role()
    }

    pub fn holds(&self, role: u32) -> bool
        requires { role < 64 }
        ensures { result ≡ is_held self.now.board.running role }
    {
        match &self.board {
            AnyBoard::Pages(board) => board.holds(role),
            AnyBoard::Entries(board) => board.holds(role),
        }
    }

    pub fn out(&self, role: u32) -> Batch
        requires { role < 64 }
        ensures { result ≡ out_of self.now.board.running.scan.marks role }
    {
        match &self.board {
            AnyBoard::Pages(board) => board.out(role),
            AnyBoard::Entries(board) => board.out(role),
        }
    }

    /// How many positions are left for the role.
    pub fn left(&self, role: u32) -> u32
        requires { role < 64 }
        ensures { result ≡ length (left_of self.now.board.running.scan.marks role) }
    {
        match &self.board {
            AnyBoard::Pages(board) => board.left(role),
            AnyBoard::Entries(board) => board.left(role),
        }
    }

    /// The degree in force.
    pub fn degree(&self) -> u32
        ensures { result ≡ self.now.board.running.scan.degree }
    {
        match &self.board {
            AnyBoard::Pages(board) => board.degree(),
            AnyBoard::Entries(board) => board.degree(),
        }
    }

    pub fn is_calm(&self)
        ensures { IsCalm self.now.board }
    {
        match &self.board {
            AnyBoard::Pages(board) => board.is_calm(),
            AnyBoard::Entries(board) => board.is_calm(),
        }
    }

    pub fn seat(&mut self) -> Seated
        requires { holders self.old.board.running < wanted self.old.board.running }
        ensures moves { Makes (rule_by self.old.by_entries) 64 self.old.board.running (seat_moves result) self.new.board.running }
        ensures answer { SeatAnswer self.old.board.running result }
        ensures rest { self.new ≡ with_board self.old self.new.board.running self.old.board.outputs }
    {
        match &mut self.board {
            AnyBoard::Pages(board) => board.seat(),
            AnyBoard::Entries(board) => board.seat(),
        }
    }

    pub fn claim(&mut self, role: u32, most: u32) -> Claimed
        requires role { role < 64 }
        requires held { is_held self.old.board.running role ≡ true }
        requires idle { out_of self.old.board.running.scan.marks role ≡ [] }
        requires low { 1 ≤ most }
        requires high { most ≤ 64 }
        ensures moves { Makes (rule_by self.old.by_entries) most self.old.board.running (claim_moves role result) self.new.board.running }
        ensures answer { ClaimAnswer self.old.board.running role result }
        ensures rest { self.new ≡ with_board self.old self.new.board.running self.old.board.outputs }
    {
        match &mut self.board {
            AnyBoard::Pages(board) => board.claim(role, most),
            AnyBoard::Entries(board) => board.claim(role, most),
        }
    }

    pub fn settle(&mut self, role: u32, outputs: ArcList<Rows>) -> Settled
        requires role { role < 64 }
        requires some { 0 < length (out_of self.old.board.running.scan.marks role) }
        requires count { length outputs ≤ length (out_of self.old.board.running.scan.marks role) }
        ensures moves { Makes (rule_by self.old.by_entries) 64 self.old.board.running (settle_moves self.old.board.running.asked role (length outputs) result) self.new.board.running }
        ensures answer { SettleAnswer self.old.board.running self.new.board.running result }
        ensures rest { self.new ≡ with_board self.old self.new.board.running (put_outputs (out_of self.old.board.running.scan.marks role) outputs self.old.board.outputs) }
    {
        match &mut self.board {
            AnyBoard::Pages(board) => board.settle(role, outputs),
            AnyBoard::Entries(board) => board.settle(role, outputs),
        }
    }

    pub fn leave(&mut self, role: u32)
        requires role { role < 64 }
        requires held { is_held self.old.board.running role ≡ true }
        requires idle { out_of self.old.board.running.scan.marks role ≡ [] }
        ensures moves { Makes (rule_by self.old.by_entries) 64 self.old.board.running (move.Leave role ∷ []) self.new.board.running }
        ensures rest { self.new ≡ with_board self.old self.new.board.running self.old.board.outputs }
    {
        match &mut self.board {
            AnyBoard::Pages(board) => board.leave(role),
            AnyBoard::Entries(board) => board.leave(role),
        }
    }

    pub fn uncollect(&mut self)
        requires { self.old.board.running.collecting ≡ true }
        ensures { self.new ≡ with_board self.old (collected_as false self.old.board.running) self.old.board.outputs }
    {
        match &mut self.board {
            AnyBoard::Pages(board) => board.uncollect(),
            AnyBoard::Entries(board) => board.uncollect(),
        }
    }

    /// The outputs in order of position, if every position is deposited and nobody collects them yet.
    pub fn collect(&mut self, alloc: Global) -> Result<Option<Parts>, AllocError>
        ensures err { OnErr result (self.new ≡ self.old) }
        ensures answer { IfOk result (λ found. Collects self.old self.new found) }
    {
        match collect_board(alloc, &mut self.board)? {
            Some(outputs) => Ok(Some(Parts::from_vec(outputs.into_vec()))),
            None => Ok(None),
        }
    }
}

impl Slot {
    ghost use Rattle.master.specs.Gives.{Asks, Begins, CanGive, GivesOne, IsUnbegun, finished};
    ghost use Rattle.master.specs.Kind.{is_ended};

    /// The fragment is finished, with this value.
    pub fn finish(&mut self, value: Arc<Built>)
        requires { self.old.board.running.collecting ≡ true }
        ensures { self.new ≡ finished self.old value.value }
    {
        self.uncollect();
        self.phase = Phase::Ended(value);
    }

    // The fragment begins with a degree.
    fn begin(&mut self, degree: u32)
        requires low { 1 ≤ degree }
        requires high { degree ≤ 64 }
        requires room { 0 < self.old.board.running.scan.room }
        requires unbegun { IsUnbegun self.old }
        ensures { Begins self.old degree self.new }
    {
        begin_board(&mut self.board, degree);
        self.phase = Phase::Runs;
    }

    // A running fragment is asked for a degree. It answers the cut of the divide that follows at once.
    fn ask(&mut self, degree: u32) -> Option<u32>
        requires low { 1 ≤ degree }
        requires high { degree ≤ 64 }
        requires room { 0 < self.old.board.running.scan.room }
        ensures { Asks self.old degree result self.new }
    {
        cut_in(ask_board(&mut self.board, degree))
    }

    /// Starts the fragment with a degree, or asks it for it where it runs. It answers the cut of the divide that
    /// follows at once.
    pub fn give(&mut self, degree: u32) -> Option<u32>
        requires low { 1 ≤ degree }
        requires high { degree ≤ 64 }
        requires can { CanGive self.old }
        ensures { GivesOne self.old degree result self.new }
    {
        match &self.phase {
            Phase::Waiting => {
                self.begin(degree);
                None
            }
            Phase::Runs => self.ask(degree),
            Phase::Ended(_) => None,
        }
    }
}

// A board of either division, which has not begun.
fn new_board(
    alloc: Global,
    by_entries: bool,
    positions: u32,
    asks: u32,
) -> Result<AnyBoard, AllocError>
    requires { asks ≤ 1000 }
    ensures kind { IfOk result (λ b. by_entries_in b ≡ by_entries) }
    ensures board { IfOk result (λ b. board_in b ≡ record { running = fresh (rule_by by_entries) positions 1 (asks + 1); outputs = replicate positions None }) }
{
    if by_entries {
        Ok(AnyBoard::Entries(Board::new(alloc, positions, 1, asks)?))
    } else {
        Ok(AnyBoard::Pages(Board::new(alloc, positions, 1, asks)?))
    }
}

// The cut that an answer tells.
fn cut_in(answer: Asked) -> Option<u32>
    ensures { result ≡ cut_in answer }
{
    match answer {
        Asked::Cut(cut) => Some(cut),
        _ => None,
    }
}

fn begin_board(board: &mut AnyBoard, degree: u32)
    requires low { 1 ≤ degree }
    requires high { degree ≤ 64 }
    requires room { 0 < (board_in board.old).running.scan.room }
    requires unbegun { IsUnbegunBoard board.old }
    ensures { BeginsBoard board.old degree board.new }
{
    match board {
        AnyBoard::Pages(board) => board.begin(degree),
        AnyBoard::Entries(board) => board.begin(degree),
    }
}

fn ask_board(board: &mut AnyBoard, degree: u32) -> Asked
    requires low { 1 ≤ degree }
    requires high { degree ≤ 64 }
    requires room { 0 < (board_in board.old).running.scan.room }
    ensures { AsksBoard board.old degree board.new result }
{
    match board {
        AnyBoard::Pages(board) => board.ask(degree),
        AnyBoard::Entries(board) => board.ask(degree),
    }
}

fn collect_board(alloc: Global, board: &mut AnyBoard) -> Result<Option<ArcList<Rows>>, AllocError>
    ensures err { OnErr result (board.new ≡ board.old) }
    ensures answer { IfOk result (λ found. CollectsBoard board.old board.new found) }
{
    match board {
        AnyBoard::Pages(board) => board.collect(alloc),
        AnyBoard::Entries(board) => board.collect(alloc),
    }
}

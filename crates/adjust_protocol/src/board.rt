ghost use Rattle.std.specs.Prelude.{◌≡◌, ℕ, ◌<◌, ◌≤◌, [], ◌∷◌, length, true, false, IfOk, OnErr, Some, None, replicate, ◌+◌, ◌-◌, not, is_some};
ghost use Rattle.std.specs.Bool.{OnTrue};
ghost use Rattle.page_partition.specs.Scan.{left_of, out_of, places, is_deposited};
ghost use Rattle.page_partition.specs.declared.table.Mark.TheVariants.{Left};
ghost use Rattle.adjust_protocol.specs.Moves.{Running, Rule, Makes, is_full, is_held, is_free, holders, wanted};
ghost use Rattle.page_partition.specs.Scan.{IsIdle};
ghost use Rattle.page_partition.specs.Counts.{IsMadeUp};
ghost use Rattle.adjust_protocol.specs.Full.{Kept, CollectAnswer};
ghost use Rattle.adjust_protocol.specs.Kept.{IsCalm};
ghost use Rattle.adjust_protocol.specs.Calls.{fresh, IsLawfulAlways};
ghost use Rattle.adjust_protocol.specs.Outputs.{put_outputs};

use crate::answers::{Asked, Claimed, Seated, Settled};
use crate::outputs::{ArcList, Outputs};
use crate::turns::Turns;
use page_partition::{Batch, Division};
use std::alloc::{AllocError, Global};
use std::marker::Model;

/// One scan with its roles, its pending degree and the outputs deposited.
#[derive(Drop)]
pub struct Board<V: Division, T: Drop> {
    turns: Turns<V>,
    outputs: Outputs<T>,
}

impl<V: Division, T: Drop> Model for Board<V, T> {
    ghost use Rattle.std.specs.Prelude.{◌≡◌};
    ghost use Rattle.adjust_protocol.specs.Full.{Kept};
    ghost use Rattle.adjust_protocol.specs.Outputs.{IsFilled};

    ghost Value = { Kept T };

    ghost view = { λ b. record { running = b.turns; outputs = b.outputs } };

    ghost invariant = { λ b. IsFilled b.outputs b.turns.scan.marks };
}

impl<V: Division, T: Drop> Board<V, T> {
    ghost use Rattle.adjust_protocol.specs.Answers.{seat_moves, claim_moves, settle_moves, ask_moves, SeatAnswer, ClaimAnswer, SettleAnswer, SettleFront, AskAnswer};
    ghost use Rattle.adjust_protocol.specs.Moves as move;
    ghost use Rattle.adjust_protocol.specs.Release.{Releases, IsReleased};

    /// A scan of this many positions, none of them deposited, divided among `degree` roles (1 to 64). It
    /// takes room for all outputs, for `asks` asks (below 2^32 - 1) and for one `begin`. An error is want
    /// of memory.
    pub fn new(
        alloc: Global,
        positions: u32,
        degree: u32,
        asks: u32,
    ) -> Result<Board<V, T>, AllocError>
        requires low { 1 ≤ degree }
        requires high { degree ≤ 64 }
        requires asks { asks + 1 < 4294967296 }
        ensures { IfOk result (λ b. b ≡ record {
          running = fresh (record { redivided = V.redivided; cut = V.cut }) positions degree (asks + 1);
          outputs = replicate positions None;
        }) }
    {
        let turns = Turns::new(alloc, positions, degree, asks + 1)?;
        let outputs = Outputs::new(alloc, positions as usize)?;
        Ok(Board { turns, outputs })
    }

    /// The scan starts with this degree (1 to 64) in place of that of `new`. Nothing may be deposited, out
    /// or asked. It uses none of the asks.
    pub fn begin(&mut self, degree: u32)
        requires low { 1 ≤ degree }
        requires high { degree ≤ 64 }
        requires fresh { places is_deposited self.old.running.scan.marks ≡ [] }
        requires idle { IsIdle self.old.running.scan.marks }
        requires calm { self.old.running.asked ≡ None }
        requires room { 0 < self.old.running.scan.room }
        ensures after { self.new ≡ record self.old {
          running = record self.old.running {
            scan = record {
              marks = V.redivided degree (replicate (length self.old.running.scan.marks) (Left 0));
              degree = degree;
              room = self.old.running.scan.room - 1;
            };
          };
        } }
        ensures fresh { (positions degree' room : ℕ) → self.old.running ≡ fresh (record { redivided = V.redivided; cut = V.cut }) positions degree' room
            → self.new.running ≡ fresh (record { redivided = V.redivided; cut = V.cut }) positions degree (room - 1) }
    {
        self.turns.begin(degree);
    }

    /// Holds the least role that is free: nobody holds it, and it has something left or lies below the
    /// pending degree. If none is free it answers `NoRole`. Fewer roles than the wanted degree must be
    /// held.
    pub fn seat(&mut self) -> Seated
        requires { holders self.old.running < wanted self.old.running }
        ensures moves { Makes (record { redivided = V.redivided; cut = V.cut }) 64 self.old.running (seat_moves result) self.new.running }
        ensures outputs { self.new.outputs ≡ self.old.outputs }
        ensures answer { SeatAnswer self.old.running result }
    {
        self.turns.seat()
    }

    /// Gives a held role, which has nothing out, the first `most` positions (1 to 64) that are left for
    /// it, or all where there are fewer. If a degree is pending it answers `Hold` instead, and otherwise,
    /// if nothing is left for the role, `Leave`.
    pub fn claim(&mut self, role: u32, most: u32) -> Claimed
        requires role { role < 64 }
        requires held { is_held self.old.running role ≡ true }
        requires idle { out_of self.old.running.scan.marks role ≡ [] }
        requires low { 1 ≤ most }
        requires high { most ≤ 64 }
        ensures moves { Makes (record { redivided = V.redivided; cut = V.cut }) most self.old.running (claim_moves role result) self.new.running }
        ensures outputs { self.new.outputs ≡ self.old.outputs }
        ensures answer { ClaimAnswer self.old.running role result }
    {
        self.turns.claim(role, most)
    }

    /// Deposits these outputs of the first positions of the role's batch. The others are left for it
    /// again, before all that was left for it. If these were the last positions it answers `Finished`, and
    /// no degree is pending any more. Otherwise, if a degree was pending and this was the last batch out,
    /// the scan is divided and it answers `Cut`. Otherwise it answers `More`.
    pub fn settle(&mut self, role: u32, outputs: ArcList<T>) -> Settled
        requires role { role < 64 }
        requires some { 0 < length (out_of self.old.running.scan.marks role) }
        requires count { length outputs ≤ length (out_of self.old.running.scan.marks role) }
        ensures moves { Makes (record { redivided = V.redivided; cut = V.cut }) 64 self.old.running (settle_moves self.old.running.asked role (length outputs) result) self.new.running }
        ensures outputs { self.new.outputs ≡ put_outputs (out_of self.old.running.scan.marks role) outputs self.old.outputs }
        ensures answer { SettleAnswer self.old.running self.new.running result }
        ensures front { SettleFront self.old.running self.new.running role (length outputs) result }
    {
        let batch = self.turns.out(role);
        let count = outputs.len().min(batch.len() as usize) as u32;
        self.outputs.put_all(&batch, outputs);
        self.turns.settle(role, count)
    }

    /// Asks for a degree, 1 to 64; room for a divide must be left. The first of these that fits is the
    /// answer: `AlreadyFinished` if every position is deposited; `NoChange` if this is the wanted degree;
    /// `Cut` if nothing is out, and then the scan is divided; `Pending`, and then this degree is pending
    /// in place of any other.
    pub fn ask(&mut self, degree: u32) -> Asked
        requires low { 1 ≤ degree }
        requires high { degree ≤ 64 }
        requires room { 0 < self.old.running.scan.room }
        ensures moves { Makes (record { redivided = V.redivided; cut = V.cut }) 64 self.old.running (ask_moves degree result) self.new.running }
        ensures outputs { self.new.outputs ≡ self.old.outputs }
        ensures answer { AskAnswer self.old.running self.new.running degree result }
    {
        self.turns.ask(degree)
    }

    /// Gives up a role that is held and has nothing out. What it owns stays its own.
    pub fn leave(&mut self, role: u32)
        requires role { role < 64 }
        requires held { is_held self.old.running role ≡ true }
        requires idle { out_of self.old.running.scan.marks role ≡ [] }
        ensures moves { Makes (record { redivided = V.redivided; cut = V.cut }) 64 self.old.running (move.Leave role ∷ []) self.new.running }
        ensures outputs { self.new.outputs ≡ self.old.outputs }
    {
        self.turns.leave(role);
    }

    /// The outputs in order of position, shared; the board is being collected from then on. `None` if a
    /// position isn't deposited yet or the board is being collected already. An error is want of memory,
    /// and the board is as it was.
    pub fn collect(&mut self, alloc: Global) -> Result<Option<ArcList<T>>, AllocError>
        ensures err { OnErr result (self.new ≡ self.old) }
        ensures answer { IfOk result (λ found. CollectAnswer (record { redivided = V.redivided; cut = V.cut }) self.old self.new found) }
    {
        if !self.turns.may_collect() {
            return Ok(None);
        }
        let all = self.outputs.all(alloc)?;
        self.turns.collect();
        Ok(Some(all))
    }

    /// Undoes a collection.
    pub fn uncollect(&mut self)
        requires { self.old.running.collecting ≡ true }
        ensures moves { Makes (record { redivided = V.redivided; cut = V.cut }) 64 self.old.running (move.Uncollect ∷ []) self.new.running }
        ensures outputs { self.new.outputs ≡ self.old.outputs }
    {
        self.turns.uncollect();
    }

    /// What every board shows between two calls: an output stands exactly at each deposited position, a
    /// pending degree has a batch out and room for its divide, and every degree is 1 to 64. It does nothing.
    pub fn is_calm(&self)
        ensures { IsCalm self.now }
    {
        let _ = &self.outputs;
        self.turns.is_calm();
    }

    /// Whether every position is deposited. For every list of calls that led here from a board that had
    /// just begun, the events that they stand for are allowed each after those before it; what is
    /// deposited, out and left makes up the scan without a repeat; and a finished board deposited each
    /// position once.
    pub fn is_finished(&self) -> bool
        ensures full { result ≡ is_full self.now.running.scan.marks }
        ensures history { IsLawfulAlways (record { redivided = V.redivided; cut = V.cut }) V.owns V.cut_after self.now.running }
    {
        self.turns.is_finished()
    }

    /// Whether the board is being collected.
    pub fn is_collecting(&self) -> bool
        ensures { result ≡ self.now.running.collecting }
    {
        self.turns.is_collecting()
    }

    /// How many roles are held.
    pub fn holders(&self) -> u32
        ensures { result ≡ holders self.now.running }
    {
        self.turns.holders()
    }

    /// The pending degree, or the degree in force if none is pending.
    pub fn wanted(&self) -> u32
        ensures { result ≡ wanted self.now.running }
    {
        self.turns.wanted()
    }

    /// The batch that the role, below 64, has out; an empty one where none is.
    pub fn out(&self, role: u32) -> Batch
        requires { role < 64 }
        ensures { result ≡ out_of self.now.running.scan.marks role }
    {
        self.turns.out(role)
    }

    /// How many positions are left for the role, below 64. What is deposited, out and left makes up the
    /// scan without a repeat.
    pub fn left(&self, role: u32) -> u32
        requires { role < 64 }
        ensures count { result ≡ length (left_of self.now.running.scan.marks role) }
        ensures made_up { IsMadeUp self.now.running.scan.marks }
    {
        self.turns.left(role)
    }

    /// Whether a degree is pending.
    pub fn is_asked(&self) -> bool
        ensures { result ≡ is_some self.now.running.asked }
    {
        self.turns.is_asked()
    }

    /// The degree in force.
    pub fn degree(&self) -> u32
        ensures { result ≡ self.now.running.scan.degree }
    {
        self.turns.degree()
    }

    /// Whether the role, below 64, is held.
    pub fn holds(&self, role: u32) -> bool
        requires { role < 64 }
        ensures { result ≡ is_held self.now.running role }
    {
        self.turns.holds(role)
    }

    /// Whether there is a role that `seat` could hold.
    pub fn has_free_role(&self) -> bool
        ensures yes { OnTrue result ((r : ℕ) × (r < 64) × (is_free self.now.running r ≡ true)) }
        ensures no { OnTrue (not result) ((r : ℕ) → r < 64 → is_free self.now.running r ≡ false) }
    {
        self.turns.has_free_role()
    }

    /// Gives back every batch, gives up every role and undoes a collection, role by role. If a degree was
    /// pending, the scan is divided when the last batch comes back.
    pub fn release(&mut self)
        ensures moves { Releases (record { redivided = V.redivided; cut = V.cut }) self.old.running self.new.running }
        ensures ended { IsReleased self.new.running }
        ensures outputs { self.new.outputs ≡ self.old.outputs }
    {
        self.turns.release();
    }
}

ghost use Rattle.std.specs.Prelude.{◌≡◌, ℕ, ◌<◌, ◌≤◌, [], ◌∷◌, length, true, false, IfOk, Some, None, replicate, ◌+◌, ◌-◌, not, is_some, ◌↔◌, IsTrue};
ghost use Rattle.std.specs.Bool.{OnTrue};
ghost use Rattle.page_partition.specs.Scan.{left_of, out_of, places, is_deposited, AllNamed, IsIdle};
ghost use Rattle.adjust_protocol.specs.Kept.{IsDegree};
ghost use Rattle.page_partition.specs.Counts.{IsMadeUp};
ghost use Rattle.page_partition.specs.declared.table.Mark.TheVariants.{Left};
ghost use Rattle.adjust_protocol.specs.Moves.{Running, Rule, Makes, IsDue, is_full, is_held, is_free, holders, wanted};

use crate::answers::{Asked, Claimed, Seated, Settled};
use crate::walks::{first_free, is_complete, is_spent, wanted_degree};
use page_partition::{Batch, Division, is_idle};
use std::alloc::{AllocError, Global};
use std::marker::Model;

/// One scan with its roles and its pending degree.
#[derive(Drop)]
pub struct Turns<V: Division> {
    division: V,
    held: [bool; 64],
    asked: Option<u32>,
    collecting: bool,
    degree: u32,
    missing: u32,
}

impl<V: Division> Model for Turns<V> {
    ghost use Rattle.std.specs.Prelude.{◌≡◌};
    ghost use Rattle.adjust_protocol.specs.Moves.{Running};
    ghost use Rattle.adjust_protocol.specs.Kept.{IsKept, IsDegree};

    ghost Value = { Running };

    ghost view = { λ b. record { scan = V.scan b.division; held = b.held; asked = b.asked; collecting = b.collecting } };

    ghost invariant = { λ b. IsKept (record { scan = V.scan b.division; held = b.held; asked = b.asked; collecting = b.collecting }) b.missing × (b.degree ≡ (V.scan b.division).degree) × IsDegree b.degree };
}

impl<V: Division> Turns<V> {
    ghost use Rattle.adjust_protocol.specs.Answers.{seat_moves, claim_moves, settle_moves, ask_moves, SeatAnswer, ClaimAnswer, SettleAnswer, SettleFront, AskAnswer};
    ghost use Rattle.adjust_protocol.specs.Moves as move;
    ghost use Rattle.adjust_protocol.specs.Release.{Releases, IsReleased};

    /// A scan of this many positions, with room for `asks` divides. An error is want of memory.
    pub fn new(
        alloc: Global,
        positions: u32,
        degree: u32,
        asks: u32,
    ) -> Result<Turns<V>, AllocError>
        requires low { 1 ≤ degree }
        requires high { degree ≤ 64 }
        ensures { IfOk result (λ b. b ≡ record {
          scan = record { marks = V.redivided degree (replicate positions (Left 0)); degree = degree; room = asks };
          held = replicate 64 false;
          asked = None;
          collecting = false;
        }) }
    {
        let division = V::start(alloc, positions, degree, asks)?;
        Ok(Turns {
            division,
            held: [false; 64],
            asked: None,
            collecting: false,
            degree,
            missing: positions,
        })
    }

    /// Holds the least role that is free.
    pub fn seat(&mut self) -> Seated
        requires { holders self.old < wanted self.old }
        ensures moves { Makes (record { redivided = V.redivided; cut = V.cut }) 64 self.old (seat_moves result) self.new }
        ensures answer { SeatAnswer self.old result }
    {
        let Some(role) = first_free(&self.division, &self.held, self.asked) else {
            return Seated::NoRole;
        };
        self.held[role as usize] = true;
        Seated::Role(role)
    }

    /// Gives a held role the first `most` positions that are left for it.
    pub fn claim(&mut self, role: u32, most: u32) -> Claimed
        requires role { role < 64 }
        requires held { is_held self.old role ≡ true }
        requires idle { out_of self.old.scan.marks role ≡ [] }
        requires low { 1 ≤ most }
        requires high { most ≤ 64 }
        ensures moves { Makes (record { redivided = V.redivided; cut = V.cut }) most self.old (claim_moves role result) self.new }
        ensures answer { ClaimAnswer self.old role result }
    {
        if self.asked.is_some() {
            return Claimed::Hold;
        }
        if is_spent(&self.division, role) {
            return Claimed::Leave;
        }
        Claimed::Batch(self.division.take_first(role, most))
    }

    /// Deposits the first `count` positions of the role's batch, and gives it the others back.
    pub fn settle(&mut self, role: u32, count: u32) -> Settled
        requires role { role < 64 }
        requires some { 0 < length (out_of self.old.scan.marks role) }
        requires count { count ≤ length (out_of self.old.scan.marks role) }
        ensures moves { Makes (record { redivided = V.redivided; cut = V.cut }) 64 self.old (settle_moves self.old.asked role count result) self.new }
        ensures answer { SettleAnswer self.old self.new result }
        ensures front { SettleFront self.old self.new role count result }
    {
        self.division.give_back(role, count);
        self.missing -= count;
        if is_complete(self.missing) {
            self.asked = None;
            return Settled::Finished;
        }
        let Some(degree) = self.asked else {
            return Settled::More;
        };
        if !is_idle(&self.division) {
            return Settled::More;
        }
        let cut = self.division.divide(degree);
        self.degree = degree;
        self.asked = None;
        Settled::Cut(cut)
    }

    /// Asks for a degree.
    pub fn ask(&mut self, degree: u32) -> Asked
        requires low { 1 ≤ degree }
        requires high { degree ≤ 64 }
        requires room { 0 < self.old.scan.room }
        ensures moves { Makes (record { redivided = V.redivided; cut = V.cut }) 64 self.old (ask_moves degree result) self.new }
        ensures answer { AskAnswer self.old self.new degree result }
    {
        if is_complete(self.missing) {
            return Asked::AlreadyFinished;
        }
        if wanted_degree(self.asked, self.degree) == degree {
            return Asked::NoChange;
        }
        if is_idle(&self.division) {
            let cut = self.division.divide(degree);
            self.degree = degree;
            return Asked::Cut(cut);
        }
        self.asked = Some(degree);
        Asked::Pending
    }

    /// What every scan keeps between two calls. It does nothing.
    pub fn is_calm(&self)
        ensures calm { IsDue self.now → ⊥ }
        ensures degree { IsDegree self.now.scan.degree }
        ensures pending { (n : ℕ) → self.now.asked ≡ Some n → IsDegree n × (0 < self.now.scan.room) }
        ensures roles { length self.now.held ≡ 64 }
        ensures named { AllNamed self.now.scan.marks }
    {
        let _ = &self.division;
    }

    /// Whether every position is deposited.
    pub fn is_finished(&self) -> bool
        ensures { result ≡ is_full self.now.scan.marks }
    {
        self.missing == 0
    }

    /// The degree in force.
    pub fn degree(&self) -> u32
        ensures { result ≡ self.now.scan.degree }
    {
        self.degree
    }

    /// The role is held no more.
    pub fn leave(&mut self, role: u32)
        requires role { role < 64 }
        requires held { is_held self.old role ≡ true }
        requires idle { out_of self.old.scan.marks role ≡ [] }
        ensures { Makes (record { redivided = V.redivided; cut = V.cut }) 64 self.old (move.Leave role ∷ []) self.new }
    {
        self.held[role as usize] = false;
    }

    /// The scan starts with this degree in place of that of `new`.
    pub fn begin(&mut self, degree: u32)
        requires low { 1 ≤ degree }
        requires high { degree ≤ 64 }
        requires fresh { places is_deposited self.old.scan.marks ≡ [] }
        requires idle { IsIdle self.old.scan.marks }
        requires calm { self.old.asked ≡ None }
        requires room { 0 < self.old.scan.room }
        ensures { self.new ≡ record self.old {
          scan = record {
            marks = V.redivided degree (replicate (length self.old.scan.marks) (Left 0));
            degree = degree;
            room = self.old.scan.room - 1;
          };
        } }
    {
        self.division.divide(degree);
        self.degree = degree;
    }

    /// The scan, which is full, is being collected.
    pub fn collect(&mut self)
        requires full { is_full self.old.scan.marks ≡ true }
        requires free { self.old.collecting ≡ false }
        ensures { Makes (record { redivided = V.redivided; cut = V.cut }) 64 self.old (move.Collect ∷ []) self.new }
    {
        self.collecting = true;
    }

    /// Undoes a collection.
    pub fn uncollect(&mut self)
        requires { self.old.collecting ≡ true }
        ensures { Makes (record { redivided = V.redivided; cut = V.cut }) 64 self.old (move.Uncollect ∷ []) self.new }
    {
        self.collecting = false;
    }

    /// Whether it may be collected: every position is deposited, and it isn't being collected.
    pub fn may_collect(&self) -> bool
        ensures { IsTrue result ↔ ((is_full self.now.scan.marks ≡ true) × (self.now.collecting ≡ false)) }
    {
        self.is_finished() && !self.is_collecting()
    }

    /// Whether the scan is being collected. Between two calls it is never due.
    pub fn is_collecting(&self) -> bool
        ensures collecting { result ≡ self.now.collecting }
        ensures calm { IsDue self.now → ⊥ }
    {
        self.collecting
    }

    /// Whether a degree is pending.
    pub fn is_asked(&self) -> bool
        ensures { result ≡ is_some self.now.asked }
    {
        self.asked.is_some()
    }

    /// How many roles are held.
    pub fn holders(&self) -> u32
        ensures { result ≡ holders self.now }
    {
        let mut count = 0;
        for held in &self.held {
            if *held {
                count += 1;
            }
        }
        count
    }

    /// The pending degree, or the one in force.
    pub fn wanted(&self) -> u32
        ensures { result ≡ wanted self.now }
    {
        wanted_degree(self.asked, self.degree)
    }

    /// Whether there is a free role.
    pub fn has_free_role(&self) -> bool
        ensures yes { OnTrue result ((r : ℕ) × (r < 64) × (is_free self.now r ≡ true)) }
        ensures no { OnTrue (not result) ((r : ℕ) → r < 64 → is_free self.now r ≡ false) }
    {
        first_free(&self.division, &self.held, self.asked).is_some()
    }

    /// How many positions are left for the role.
    pub fn left(&self, role: u32) -> u32
        requires { role < 64 }
        ensures count { result ≡ length (left_of self.now.scan.marks role) }
        ensures made_up { IsMadeUp self.now.scan.marks }
    {
        self.division.left(role)
    }

    /// The batch that the role has out.
    pub fn out(&self, role: u32) -> Batch
        requires { role < 64 }
        ensures { result ≡ out_of self.now.scan.marks role }
    {
        self.division.out(role)
    }

    /// Whether the role is held.
    pub fn holds(&self, role: u32) -> bool
        requires { role < 64 }
        ensures { result ≡ is_held self.now role }
    {
        self.held[role as usize]
    }

    /// Settles the role's batch with nothing.
    fn give_up(&mut self, role: u32)
        requires { role < 64 }
        ensures moves { Releases (record { redivided = V.redivided; cut = V.cut }) self.old self.new }
        ensures out { out_of self.new.scan.marks role ≡ [] }
    {
        if self.out(role).len() == 0 {
            return;
        }
        self.settle(role, 0);
    }

    /// Settles the role's batch with nothing, and lets the role leave.
    fn free_role(&mut self, role: u32)
        requires { role < 64 }
        ensures moves { Releases (record { redivided = V.redivided; cut = V.cut }) self.old self.new }
        ensures out { out_of self.new.scan.marks role ≡ [] }
        ensures held { is_held self.new role ≡ false }
    {
        self.give_up(role);
        if !self.holds(role) {
            return;
        }
        self.leave(role);
    }

    /// Settles every batch out with nothing, lets every held role leave, and undoes a collection.
    pub fn release(&mut self)
        ensures moves { Releases (record { redivided = V.redivided; cut = V.cut }) self.old self.new }
        ensures ended { IsReleased self.new }
    {
        for role in 0u32..64 {
            self.free_role(role);
        }
        if !self.is_collecting() {
            return;
        }
        self.uncollect();
    }
}

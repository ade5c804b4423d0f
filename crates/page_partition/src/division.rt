ghost use Rattle.std.specs.Prelude.{◌≡◌, ℕ, ◌-◌, ◌<◌, ◌≤◌, ◌++◌, List, [], ◌∷◌, length, take, drop, replicate, Bool, IfOk, IsTrue, ◌↔◌};
ghost use Rattle.page_partition.specs.declared.table.Mark.{Mark};
ghost use Rattle.page_partition.specs.declared.table.Mark.TheVariants.{Left, Out};
ghost use Rattle.page_partition.specs.Scan.{Scan, is_left, is_deposited, places, left_of, out_of, mark_first, given_back, AllNamed, IsIdle};
ghost use Rattle.page_partition.specs.Counts.{IsMadeUp};
ghost use Rattle.page_partition.specs.Owners.{Divided, AllOwned, AreDeposited};

use crate::batch::Batch;
use std::alloc::{AllocError, Global};

/// A scan's positions divided among the roles 0 to 63. Contracts see a mark for each position: left
/// for a role, out with a role, or deposited.
pub trait Division: Sized + Drop {
    ghost scan: { Self → Scan };

    /// The marks that a divide to a degree leaves.
    ghost redivided: { ℕ → List Mark → List Mark };

    /// The cut of a divide of these marks.
    ghost cut: { List Mark → ℕ };

    /// Whether a role owns a position, in a scan of so many positions that began with this degree,
    /// after these divides, the latest first.
    ghost owns: { ℕ → ℕ → List Divided → ℕ → ℕ → Bool };

    /// The cut of a divide of a scan of so many positions, of which these are deposited.
    ghost cut_after: { ℕ → List ℕ → ℕ };

    /// A scan of this many positions, none of them deposited, divided among `degree` roles (1 to 64),
    /// with room for so many divides. An error is want of memory.
    fn start(alloc: Global, positions: u32, degree: u32, divides: u32) -> Result<Self, AllocError>
        requires low { 1 ≤ degree }
        requires high { degree ≤ 64 }
        ensures { IfOk result (λ d. scan d ≡ record {
          marks = redivided degree (replicate positions (Left 0));
          degree = degree;
          room = divides;
        }) };

    /// Moves the first `most` positions (1 to 64) that are left for the role into its batch, or all of
    /// them where there are fewer. The role may have nothing out.
    fn take_first(&mut self, role: u32, most: u32) -> Batch
        requires role { role < 64 }
        requires low { 1 ≤ most }
        requires high { most ≤ 64 }
        requires idle { out_of (scan self.old).marks role ≡ [] }
        ensures batch { result ≡ take most (left_of (scan self.old).marks role) }
        ensures after { scan self.new ≡ record (scan self.old) {
          marks = mark_first (is_left role) most (Out role) (scan self.old).marks;
        } };

    /// Deposits the first `done` positions of the role's batch. The others are left for it again,
    /// before all that was left for it.
    fn give_back(&mut self, role: u32, done: u32)
        requires role { role < 64 }
        requires done { done ≤ length (out_of (scan self.old).marks role) }
        ensures after { scan self.new ≡ record (scan self.old) {
          marks = given_back role done (scan self.old).marks;
        } }
        ensures front { left_of (scan self.new).marks role
            ≡ drop done (out_of (scan self.old).marks role) ++ left_of (scan self.old).marks role };

    /// Divides the positions that aren't deposited anew among `degree` roles (1 to 64), and gives the
    /// cut. Nothing may be out.
    fn divide(&mut self, degree: u32) -> u32
        requires low { 1 ≤ degree }
        requires high { degree ≤ 64 }
        requires idle { IsIdle (scan self.old).marks }
        requires room { 0 < (scan self.old).room }
        ensures cut { result ≡ cut (scan self.old).marks }
        ensures after { scan self.new ≡ record {
          marks = redivided degree (scan self.old).marks;
          degree = degree;
          room = (scan self.old).room - 1;
        } };

    /// How many positions are left for the role. What is deposited, out and left makes up the scan.
    fn left(&self, role: u32) -> u32
        requires { role < 64 }
        ensures count { result ≡ length (left_of (scan self.now).marks role) }
        ensures made_up { IsMadeUp (scan self.now).marks };

    /// The batch that the role has out, an empty one where none is.
    fn out(&self, role: u32) -> Batch
        requires { role < 64 }
        ensures { result ≡ out_of (scan self.now).marks role };

    /// A divide deposits nothing and takes no deposit back.
    ghost deposits_kept: { (degree : ℕ) (ms : List Mark) → places is_deposited (redivided degree ms) ≡ places is_deposited ms };

    ghost positions_kept: { (degree : ℕ) (ms : List Mark) → length (redivided degree ms) ≡ length ms };

    /// A divide before any deposit gives what a start with that degree gives.
    ghost as_started: { (degree : ℕ) (ms : List Mark) → places is_deposited ms ≡ []
        → redivided degree ms ≡ redivided degree (replicate (length ms) (Left 0)) };

    /// No role is 64 or above.
    ghost named: { (degree : ℕ) (ms : List Mark) → 1 ≤ degree → degree ≤ 64 → AllNamed ms → AllNamed (redivided degree ms) };

    ghost none_out: { (degree role : ℕ) (ms : List Mark) → out_of ms role ≡ [] → out_of (redivided degree ms) role ≡ [] };

    /// At the start each position is left for its owner.
    ghost owned_start: { (positions degree : ℕ) → 1 ≤ degree
        → AllOwned (owns positions degree []) 0 (redivided degree (replicate positions (Left 0))) };

    /// A divide leaves each position that isn't deposited for its owner after this divide.
    ghost owned_divided: { (positions degree to : ℕ) (divides : List Divided) (xs : List ℕ) (ms : List Mark)
        → 1 ≤ to → length ms ≡ positions → AreDeposited xs ms → AllOwned (owns positions degree divides) 0 ms
        → AllOwned (owns positions degree (record { degree = to; deposited = xs } ∷ divides)) 0 (redivided to ms) };

    ghost cut_is: { (positions : ℕ) (xs : List ℕ) (ms : List Mark)
        → length ms ≡ positions → AreDeposited xs ms → cut_after positions xs ≡ cut ms };
}

/// Whether no role has a batch out.
pub fn is_idle<V: Division>(division: &V) -> bool
    ensures { IsTrue result ↔ IsIdle (V.scan division.now).marks }
{
    for role in 0u32..64 {
        if division.out(role).len() > 0 {
            return false;
        }
    }
    true
}

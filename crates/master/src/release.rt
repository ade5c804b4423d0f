//! All that is out, held or being collected is released.
ghost use Rattle.std.specs.Prelude.{◌≡◌, ℕ, ◌<◌, [], length};
ghost use Rattle.page_partition.specs.Scan.{out_of};
ghost use Rattle.adjust_protocol.specs.Release.{IsReleased};

use crate::control::{Control, RunName};
use adjust_protocol::ArcList;
use std::alloc::Global;

impl<K: RunName> Control<K> {
    ghost use Rattle.master.specs.Ledger.{Fits, scans};
    ghost use Rattle.master.specs.Release.{AllGaveUp, AreReleased, GaveUpAt, IsFreed};

    // Settles the role's batch with no output.
    fn give_back(&mut self, alloc: Global, fragment: u32, role: u32)
        requires fragment { fragment < length self.old.slots }
        requires role { role < 64 }
        ensures gives_up { GaveUpAt fragment self.old self.new }
        ensures out { out_of (scans self.new.slots fragment).scan.marks role ≡ [] }
    {
        if self.out(fragment, role).len() == 0 {
            return;
        }
        self.settle(fragment, role, ArcList::new(alloc));
    }

    // Settles the role's batch with no output, and lets the role leave.
    fn free_role(&mut self, alloc: Global, fragment: u32, role: u32)
        requires fragment { fragment < length self.old.slots }
        requires role { role < 64 }
        ensures gives_up { GaveUpAt fragment self.old self.new }
        ensures freed { IsFreed self.new.slots fragment role }
    {
        self.give_back(alloc, fragment, role);
        if !self.holds(fragment, role) {
            return;
        }
        self.leave(fragment, role);
    }

    // Lets all roles of a fragment leave.
    fn free_roles(&mut self, alloc: Global, fragment: u32)
        requires fragment { fragment < length self.old.slots }
        ensures gives_up { GaveUpAt fragment self.old self.new }
        ensures freed { (role : ℕ) → role < 64 → IsFreed self.new.slots fragment role }
    {
        for role in 0u32..64 {
            self.free_role(alloc, fragment, role);
        }
    }

    // Lets all roles of a fragment leave, and undoes its collection.
    fn release_fragment(&mut self, alloc: Global, fragment: u32)
        requires fragment { fragment < length self.old.slots }
        ensures gives_up { GaveUpAt fragment self.old self.new }
        ensures released { IsReleased (scans self.new.slots fragment) }
    {
        self.free_roles(alloc, fragment);
        self.is_calm();
        if !self.is_collecting(fragment) {
            return;
        }
        self.uncollect(fragment);
    }

    /// Puts back all that is out, held or being collected: each batch is settled with no output, each held
    /// role leaves, and each collection is undone. What is deposited, the outputs and the values stay. It takes no memory.
    pub fn release(&mut self, alloc: Global)
        ensures gives_up { AllGaveUp self.old self.new }
        ensures released { AreReleased self.new.slots }
        ensures fits { Fits K.meaning self.new }
    {
        for fragment in 0..self.fragment_count() {
            self.release_fragment(alloc, fragment);
        }
        self.is_calm();
    }
}

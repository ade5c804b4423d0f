ghost use Rattle.std.specs.Prelude.{◌≡◌, ℕ, ◌<◌, ◌≤◌, ◌^◌, [], length, replicate, IfOk};
ghost use Rattle.page_partition.specs.declared.table.Mark.TheVariants.{Left};
ghost use Rattle.page_partition.specs.Scan.{AllNamed, out_of};
ghost use Rattle.page_partition.specs.Table.{IsTable};
ghost use Rattle.range_partition.specs.Share.{undeposited, share_marks};
ghost use Rattle.range_partition.specs.ShareLaws.{share_kept, share_length, share_as_started, share_named, share_idle};
ghost use Rattle.range_partition.specs.EntryOwner.{entry_owns, entry_cut_after};
ghost use Rattle.range_partition.specs.EntryOwnerLaws.{entry_owned_start, entry_owned_divided, entry_cut_is};

use crate::share::divide_entries;
use page_partition::table::{Mark, Role, give_to, idle_roles, take_from};
use page_partition::{Batch, Division};
use std::alloc::{AllocError, Global};
use std::marker::Model;

/// A scan whose entries go to the roles by intervals. At the start and at each divide the `r` entries that
/// aren't deposited are dealt out in order: of `n` roles, role `j` gets those at the places `k` with
/// `j * r / n <= k < (j + 1) * r / n`. The cut is `r`.
#[derive(Drop)]
pub struct EntryIntervals {
    marks: Vec<Mark>,
    roles: Vec<Role>,
    degree: u32,
    room: u32,
}

impl Model for EntryIntervals {
    ghost use Rattle.page_partition.specs.Scan.{Scan};
    ghost use Rattle.page_partition.specs.Table.{IsTable};

    ghost Value = { Scan };

    ghost view = { λ p. record { marks = p.marks.items; degree = p.degree; room = p.room } };

    ghost invariant = { λ p. IsTable p.marks.items p.roles.items };
}

impl Division for EntryIntervals {
    ghost scan = { λ s. s };

    ghost redivided = { share_marks };

    ghost cut = { undeposited };

    ghost owns = { entry_owns };

    ghost cut_after = { entry_cut_after };

    fn start(
        alloc: Global,
        positions: u32,
        degree: u32,
        divides: u32,
    ) -> Result<EntryIntervals, AllocError> {
        let mut marks = vec![in alloc; Mark::Left(0); positions as usize]?;
        let mut roles = idle_roles(alloc)?;
        divide_entries(&mut marks, &mut roles, degree);
        Ok(EntryIntervals {
            marks,
            roles,
            degree,
            room: divides,
        })
    }

    fn take_first(&mut self, role: u32, most: u32) -> Batch {
        take_from(&mut self.marks, &mut self.roles, role, most)
    }

    fn give_back(&mut self, role: u32, done: u32) {
        give_to(&mut self.marks, &mut self.roles, role, done);
    }

    fn divide(&mut self, degree: u32) -> u32 {
        let cut = divide_entries(&mut self.marks, &mut self.roles, degree);
        self.degree = degree;
        self.room -= 1;
        cut
    }

    fn left(&self, role: u32) -> u32 {
        self.roles[role as usize].left
    }

    fn out(&self, role: u32) -> Batch {
        self.roles[role as usize].out.copy()
    }

    ghost deposits_kept = { share_kept };

    ghost positions_kept = { share_length };

    ghost as_started = { share_as_started };

    ghost named = { share_named };

    ghost none_out = { share_idle };

    ghost owned_start = { entry_owned_start };

    ghost owned_divided = { entry_owned_divided };

    ghost cut_is = { entry_cut_is };
}

ghost use Rattle.std.specs.Prelude.{◌≡◌, ℕ, ◌<◌, ◌≤◌, ◌^◌, [], length, replicate, IfOk};
ghost use Rattle.page_partition.specs.declared.table.Mark.TheVariants.{Left};
ghost use Rattle.page_partition.specs.Scan.{AllNamed, out_of};
ghost use Rattle.page_partition.specs.Table.{IsTable};
ghost use Rattle.page_partition.specs.Stride.{page_cut, stride_marks};
ghost use Rattle.page_partition.specs.StrideKept.{stride_kept, stride_length, stride_as_started, stride_named, stride_idle};
ghost use Rattle.page_partition.specs.PageOwner.{page_owns, page_cut_after};
ghost use Rattle.page_partition.specs.PageOwnerLaws.{page_owned_start, page_owned_divided, page_cut_is};

use crate::batch::Batch;
use crate::division::Division;
use crate::stride::divide_pages;
use crate::table::{Mark, Role, give_to, idle_roles, take_from};
use std::alloc::{AllocError, Global};
use std::marker::Model;

/// A scan whose pages go to the roles in turn. A divide deals out the pages from the cut on, each to the
/// role of its number modulo the degree; the pages below the cut keep their owners. The cut is one past
/// the last deposited page, or 0.
#[derive(Drop)]
pub struct PageStride {
    marks: Vec<Mark>,
    roles: Vec<Role>,
    degree: u32,
    room: u32,
}

impl Model for PageStride {
    ghost use Rattle.page_partition.specs.Scan.{Scan};
    ghost use Rattle.page_partition.specs.Table.{IsTable};

    ghost Value = { Scan };

    ghost view = { λ p. record { marks = p.marks.items; degree = p.degree; room = p.room } };

    ghost invariant = { λ p. IsTable p.marks.items p.roles.items };
}

impl Division for PageStride {
    ghost scan = { λ s. s };

    ghost redivided = { stride_marks };

    ghost cut = { page_cut };

    ghost owns = { page_owns };

    ghost cut_after = { page_cut_after };

    fn start(
        alloc: Global,
        positions: u32,
        degree: u32,
        divides: u32,
    ) -> Result<PageStride, AllocError> {
        let mut marks = vec![in alloc; Mark::Left(0); positions as usize]?;
        let mut roles = idle_roles(alloc)?;
        divide_pages(&mut marks, &mut roles, degree);
        Ok(PageStride {
            marks,
            roles,
            degree,
            room: divides,
        })
    }

    fn take_first(&mut self, role: u32, most: u32) -> Batch {
        take_from(&mut self.marks, &mut self.roles, role, most)
    }

    fn give_back(&mut self, role: u32, done: u32) {
        give_to(&mut self.marks, &mut self.roles, role, done);
    }

    fn divide(&mut self, degree: u32) -> u32 {
        let cut = divide_pages(&mut self.marks, &mut self.roles, degree);
        self.degree = degree;
        self.room -= 1;
        cut
    }

    fn left(&self, role: u32) -> u32 {
        self.roles[role as usize].left
    }

    fn out(&self, role: u32) -> Batch {
        self.roles[role as usize].out.copy()
    }

    ghost deposits_kept = { stride_kept };

    ghost positions_kept = { stride_length };

    ghost as_started = { stride_as_started };

    ghost named = { stride_named };

    ghost none_out = { stride_idle };

    ghost owned_start = { page_owned_start };

    ghost owned_divided = { page_owned_divided };

    ghost cut_is = { page_cut_is };
}

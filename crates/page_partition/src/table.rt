//! One mark for each position of a scan, and what is kept of each role beside the marks.

ghost use Rattle.std.specs.Prelude.{◌≡◌, ℕ, ◌+◌, ◌^◌, ◌<◌, ◌≤◌, [], ◌∷◌, ◌++◌, length, take, drop, ◌-◌, EachIndex, slice_index, IfOk};
ghost use Rattle.page_partition.specs.Scan.{is_left, is_out, is_deposited, left_of, out_of, places_from, mark_first, given_back, put, AllNamed};
ghost use Rattle.page_partition.specs.Table.{IsTable};
ghost use Rattle.page_partition.specs.declared.table.Mark.TheVariants.{Out};

use crate::batch::Batch;
use std::alloc::{AllocError, Global};

/// Where a position stands: left for a role, out with it, or deposited.
#[derive(Clone, Copy)]
pub enum Mark {
    Left(u8),
    Out(u8),
    Deposited,
}

impl Mark {
    /// Whether the position is left for this role.
    pub fn is_left(self, role: u8) -> bool
        ensures { result ≡ is_left role self }
    {
        match self {
            Mark::Left(r) => r == role,
            _ => false,
        }
    }

    /// Whether the position is deposited.
    pub fn is_deposited(self) -> bool
        ensures { result ≡ is_deposited self }
    {
        match self {
            Mark::Deposited => true,
            _ => false,
        }
    }
}

/// What is kept of a role: from which position to look for what is left, how much is left, and
/// the batch that is out.
#[derive(Drop)]
pub struct Role {
    pub next: u32,
    pub left: u32,
    pub out: Batch,
}

/// The first `count` positions that are left for a role, and where the search ended.
fn find_left(marks: &[Mark], from: u32, role: u8, count: u32) -> (Batch, u32)
    requires small { length marks.now < 2 ^ 32 }
    requires most { count ≤ 64 }
    requires there { count ≤ length (left_of marks.now role) }
    requires none_before { left_of (take from marks.now) role ≡ [] }
    requires within { from ≤ length marks.now }
    ensures batch { result.0 ≡ take count (left_of marks.now role) }
    ensures next { result.1 ≤ length marks.now }
    ensures none { left_of (take result.1 marks.now) role ≡ take count (left_of marks.now role) }
{
    let mut batch = Batch::new();
    let mut at = from;
    while batch.len() < count {
        if marks[at as usize].is_left(role) {
            batch.push(at);
        }
        at += 1;
    }
    (batch, at)
}

/// Writes one mark at each of the positions.
fn put_all(marks: &mut [Mark], positions: &[u32], mark: Mark)
    requires { EachIndex positions.now (λ k. slice_index positions.now k < length marks.old) }
    ensures { marks.new ≡ put positions.now mark marks.old }
{
    for p in positions {
        marks[*p as usize] = mark;
    }
}

/// Moves the first `most` positions that are left for a role into its batch.
pub fn take_from(marks: &mut [Mark], roles: &mut [Role], role: u32, most: u32) -> Batch
    requires table { IsTable marks.old roles.old }
    requires role { role < 64 }
    requires most { most ≤ 64 }
    requires idle { out_of marks.old role ≡ [] }
    ensures batch { result ≡ take most (left_of marks.old role) }
    ensures marks { marks.new ≡ mark_first (is_left role) most (Out role) marks.old }
    ensures table { IsTable marks.new roles.new }
{
    let found = &roles[role as usize];
    let left = found.left;
    let count = most.min(left);
    let (batch, next) = find_left(marks, found.next, role as u8, count);
    put_all(marks, batch.positions(), Mark::Out(role as u8));
    roles[role as usize] = Role {
        next,
        left: left - count,
        out: batch.copy(),
    };
    batch
}

/// Deposits the first `done` positions of a role's batch. The others are left for it again, before all
/// that was left for it.
pub fn give_to(marks: &mut [Mark], roles: &mut [Role], role: u32, done: u32)
    requires table { IsTable marks.old roles.old }
    requires role { role < 64 }
    requires done { done ≤ length (out_of marks.old role) }
    ensures marks { marks.new ≡ given_back role done marks.old }
    ensures front { left_of marks.new role ≡ drop done (out_of marks.old role) ++ left_of marks.old role }
    ensures table { IsTable marks.new roles.new }
{
    let found = &roles[role as usize];
    let left = found.left;
    let next = found.out.first_or(found.next);
    let out = found.out.copy();
    let (kept, rest) = out.positions().split_at(done as usize);
    put_all(marks, kept, Mark::Deposited);
    put_all(marks, rest, Mark::Left(role as u8));
    roles[role as usize] = Role {
        next,
        left: left + (out.len() - done),
        out: Batch::new(),
    };
}

/// Finds anew for each role how much is left for it and where that begins. Nothing may be out.
pub fn recount(marks: &[Mark], roles: &mut [Role])
    requires fits { length marks.now < 2 ^ 32 }
    requires named { AllNamed marks.now }
    requires sizes { length roles.old ≡ 64 }
    requires idle { (role : ℕ) → role < 64 → out_of marks.now role ≡ [] }
    ensures { IsTable marks.now roles.new }
{
    let end = marks.len() as u32;
    for role in roles.iter_mut() {
        *role = Role {
            next: end,
            left: 0,
            out: Batch::new(),
        };
    }
    for p in (0..end).rev() {
        if let Mark::Left(role) = marks[p as usize] {
            let left = roles[role as usize].left;
            roles[role as usize] = Role {
                next: p,
                left: left + 1,
                out: Batch::new(),
            };
        }
    }
}

/// Sixty-four roles with nothing left and nothing out. An error is want of memory.
pub fn idle_roles(alloc: Global) -> Result<Vec<Role>, AllocError>
    ensures { IfOk result (λ roles. length roles.items ≡ 64) }
{
    let mut roles = Vec::with_capacity(alloc, 64)?;
    for _role in 0u32..64 {
        roles.push(Role {
            next: 0,
            left: 0,
            out: Batch::new(),
        })?;
    }
    Ok(roles)
}

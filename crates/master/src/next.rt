//! What a backend does next.
ghost use Rattle.std.specs.Prelude.{◌≡◌, true, IfOk, Some, map};
ghost use Rattle.master.specs.Boards.{HasSeat};
ghost use Rattle.master.specs.Kind.{is_ended, value_in};
ghost use Rattle.master.specs.Ledger.{AreFed, at};
ghost use Rattle.master.specs.Firsts.{FirstHas, PartHas, Waits};

use crate::slot::Slot;
use hash_join::{Built, Inputs, Parts};
use io_cpu_scheduler::{Decision, Part};
use lists::Sequence;
use std::alloc::{AllocError, Global};
use std::sync::Arc;

/// What `next_job` answers.
#[derive(Drop)]
pub enum Next {
    Job {
        fragment: u32,
        role: u32,
        inputs: Inputs,
    },
    Collect {
        fragment: u32,
        parts: Parts,
    },
    Rest,
    Stop,
}

// The part's fragment, if its scan is done and nobody collects it.
fn waiting_part(slots: &[Slot], part: Option<Part>) -> Option<u32>
    ensures { PartHas Waits slots.now part result }
{
    let part = part?;
    match slots.get(part.fragment as usize) {
        Some(slot) if slot.waits() => Some(part.fragment),
        _ => None,
    }
}

// The part's fragment, if a role of it can be seated.
fn seat_part(slots: &[Slot], part: Option<Part>) -> Option<u32>
    ensures { PartHas HasSeat slots.now part result }
{
    let part = part?;
    match slots.get(part.fragment as usize) {
        Some(slot) if slot.has_seat() => Some(part.fragment),
        _ => None,
    }
}

/// The first fragment of the decision whose scan is done and that nobody collects.
pub fn first_waiting(slots: &[Slot], decision: &Decision) -> Option<u32>
    ensures { FirstHas Waits slots.now decision.now result }
{
    match waiting_part(slots, decision.first) {
        Some(fragment) => Some(fragment),
        None => waiting_part(slots, decision.second),
    }
}

/// The first fragment of the decision of which a role can be seated.
pub fn first_with_seat(slots: &[Slot], decision: &Decision) -> Option<u32>
    ensures { FirstHas HasSeat slots.now decision.now result }
{
    match seat_part(slots, decision.first) {
        Some(fragment) => Some(fragment),
        None => seat_part(slots, decision.second),
    }
}

// The value of a finished fragment, shared.
fn value_at(slots: &[Slot], fragment: u32) -> Result<Arc<Built>, AllocError>
    requires { is_ended (at slots.now fragment) ≡ true }
    ensures { IfOk result (λ found. Some found.value ≡ value_in (at slots.now fragment).stage) }
{
    let Some(slot) = slots.get(fragment as usize) else {
        unreachable!();
    };
    let Some(value) = slot.share_value()? else {
        unreachable!();
    };
    Ok(value)
}

/// The values of these fragments, which are all finished, shared. An error is want of memory.
pub fn values_of(alloc: Global, slots: &[Slot], fragments: &[u32]) -> Result<Inputs, AllocError>
    requires { AreFed slots.now fragments.now }
    ensures { IfOk result (λ values. map Some (map (λ x. x.value) values) ≡ map (λ i. value_in (at slots.now i).stage) fragments.now) }
{
    let mut values = Vec::with_capacity(alloc, fragments.len())?;
    for fragment in fragments {
        values.push(value_at(slots, *fragment)?)?;
    }
    Ok(Sequence::from_vec(values))
}

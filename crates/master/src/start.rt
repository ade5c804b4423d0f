//! The fragments before the first decision.
ghost use Rattle.std.specs.Prelude.{◌≡◌, ◌<◌, ◌≤◌, ◌+◌, ◌^◌, length, IfOk};
ghost use Rattle.plan_tree.specs.Inputs.{inputs_of};
ghost use Rattle.plan_tree.specs.Pieces.{piece_of};
ghost use Rattle.master.specs.Starts.{starts};

use crate::slot::Slot;
use plan_tree::Fragment;
use std::alloc::{AllocError, Global};

/// The numbers of the fragments that a fragment reads. An error is want of memory.
pub fn inputs_of(alloc: Global, fragment: &Fragment) -> Result<Vec<u32>, AllocError>
    ensures { IfOk result (λ inputs. inputs.items ≡ inputs_of (piece_of fragment.now)) }
{
    let mut inputs = Vec::new(alloc);
    while let Some(input) = fragment.input(inputs.len()) {
        inputs.push(input)?;
    }
    Ok(inputs)
}

/// The fragments, each with a board that has room for one ask for each of them. An error is want of memory.
pub fn start_slots(alloc: Global, fragments: &[Fragment]) -> Result<Vec<Slot>, AllocError>
    requires { length fragments.now ≤ 1000 }
    ensures { IfOk result (λ slots. slots.items ≡ starts fragments.now) }
{
    let asks = fragments.len() as u32;
    let mut slots = Vec::with_capacity(alloc, fragments.len())?;
    for (number, fragment) in fragments.iter().enumerate() {
        slots.push(Slot::new(alloc, number as u32, fragment, asks)?)?;
    }
    Ok(slots)
}

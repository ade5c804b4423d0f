//! The layout of combined rows.
ghost use Rattle.std.specs.Prelude.{◌≡◌, IfOk, OnOk};
ghost use Rattle.plan_tree.specs.Combining.{insert_part, merged};

use lists::{Duplicate, Sequence};
use rows::{Layout, LayoutPart};
use std::alloc::{AllocError, Global};

// Puts a part before the first one with a greater variable.
fn put_part(parts: &mut Vec<LayoutPart>, part: LayoutPart) -> Result<(), AllocError>
    ensures { OnOk result (parts.new.items ≡ insert_part part parts.old.items) }
{
    let mut place = 0;
    while place < parts.len() && parts[place].var <= part.var {
        place += 1;
    }
    parts.insert(place, part)?;
    Ok(())
}

/// The layout of rows that are combined of rows of two layouts: the parts of both, in ascending order
/// of variable where each layout's are. An error is want of memory.
pub fn merged_layout(alloc: Global, first: &Layout, second: &Layout) -> Result<Layout, AllocError>
    ensures { IfOk result (λ both. both ≡ merged first.now second.now) }
{
    let mut parts = second.copy(alloc)?.into_vec();
    for place in (0..first.len()).rev() {
        put_part(&mut parts, first.get(place).duplicate(alloc)?)?;
    }
    Ok(Sequence::from_vec(parts))
}

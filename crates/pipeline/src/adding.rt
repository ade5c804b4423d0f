//! The columns that a probe adds.
ghost use Rattle.std.specs.Prelude.{◌≡◌, IfOk};
ghost use Rattle.plan_tree.specs.Fragments.{added};

use crate::combining::has_part;
use plan_tree::copy_plain;
use rows::{Layout, LayoutPart};
use std::alloc::{AllocError, Global};

// The parts of a layout that were not there before.
pub(crate) fn added_layout(
    alloc: Global,
    before: &Layout,
    after: &Layout,
) -> Result<Layout, AllocError>
    ensures { IfOk result (λ parts. parts ≡ added before.now after.now) }
{
    let mut parts = Vec::new(alloc);
    for part in after.items() {
        if !has_part(before.items(), part.var) {
            let columns = copy_plain(alloc, part.columns.items())?;
            parts.push(LayoutPart {
                var: part.var,
                columns,
            })?;
        }
    }
    Ok(Layout::from_vec(parts))
}

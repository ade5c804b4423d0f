//! The values of targets.
ghost use Rattle.std.specs.Prelude.{◌≡◌, IfOk, map};
ghost use Rattle.std.specs.List.{AllByRecursion};
ghost use Rattle.rows.specs.Layouts.{IsRowIn};
ghost use Rattle.rel_meaning.specs.Expression.{output_of};
ghost use Rattle.plan_tree.specs.Fragments.{targets_of};
ghost use Rattle.plan_tree.specs.WellFormed.{AreTargets, FitsTypes, target_types};

use rel_meaning::{TargetList, target_values};
use rows::{Layout, Rows};
use std::alloc::{AllocError, Global};

// The values of the targets for each row.
fn projected_rows(
    alloc: Global,
    targets: &TargetList,
    rows: &Rows,
    layout: &Layout,
) -> Result<Rows, AllocError>
    requires typed { AreTargets layout.now (map output_of targets.now) }
    requires rows { AllByRecursion (IsRowIn layout.now) rows.now }
    ensures { IfOk result (λ found. found ≡ targets_of (map output_of targets.now) layout.now rows.now) }
{
    let mut out = Vec::with_capacity(alloc, rows.len())?;
    for row in rows.items() {
        out.push(target_values(alloc, targets.items(), row, layout)?)?;
    }
    Ok(Rows::from_vec(out))
}

// The values of the targets for each row.
pub(crate) fn project_rows(
    alloc: Global,
    targets: &TargetList,
    rows: &Rows,
    layout: &Layout,
) -> Result<Rows, AllocError>
    requires typed { AreTargets layout.now (map output_of targets.now) }
    requires rows { AllByRecursion (IsRowIn layout.now) rows.now }
    ensures rows { IfOk result (λ found. found ≡ targets_of (map output_of targets.now) layout.now rows.now) }
    ensures fit { IfOk result (AllByRecursion (FitsTypes (target_types layout.now (map output_of targets.now)))) }
{
    projected_rows(alloc, targets, rows, layout)
}

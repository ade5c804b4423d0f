//! All probes of a pipe in turn.
ghost use Rattle.std.specs.Prelude.{◌≡◌, List, IfOk, map};
ghost use Rattle.std.specs.List.{AllByRecursion};
ghost use Rattle.rows.specs.declared.value.Value.{Value};
ghost use Rattle.rows.specs.Layouts.{IsRowIn};
ghost use Rattle.plan_tree.specs.Fragments.{through};
ghost use Rattle.plan_tree.specs.Pieces.{probing_of};
ghost use Rattle.pipeline.specs.Probes.{AreValues, CanProbeAll, last_layout};

use crate::probe::probe_rows;
use hash_join::Built;
use plan_tree::Probe;
use rows::{Layout, Rows};
use std::alloc::{AllocError, Global};
use std::sync::Arc;

// The rows after all probes. There is an input for each probe.
pub(crate) fn run_probes(
    alloc: Global,
    probes: &[Probe],
    inputs: &[Arc<Built>],
    before: &Layout,
    rows: Rows,
) -> Result<Rows, AllocError>
    requires can { CanProbeAll before.now (map probing_of probes.now) (map (λ x. x.value) inputs.now) }
    requires rows { AllByRecursion (IsRowIn before.now) rows }
    ensures fit { IfOk result (AllByRecursion (IsRowIn (last_layout before.now (map probing_of probes.now)))) }
    ensures output { (values : List (List (List Value))) → AreValues values (map probing_of probes.now) (map (λ x. x.value) inputs.now) → IfOk result (λ found. found ≡ through values before.now (map probing_of probes.now) rows) }
{
    let Some((probe, probes)) = probes.split_first() else {
        return Ok(rows);
    };
    let Some((input, inputs)) = inputs.split_first() else {
        return Ok(rows);
    };
    let rows = probe_rows(alloc, probe, before, input, &rows)?;
    run_probes(alloc, probes, inputs, &probe.layout, rows)
}

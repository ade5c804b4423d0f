//! Rows with the rows of a table that have their keys.
ghost use Rattle.std.specs.Prelude.{◌≡◌, ◌++◌, [], ◌∷◌, List, IfOk, OnOk, map};
ghost use Rattle.std.specs.List.{AllByRecursion, flat_map};
ghost use Rattle.rows.specs.declared.value.Value.{Value};
ghost use Rattle.rows.specs.Layouts.{IsRowIn};
ghost use Rattle.rel_meaning.specs.Expression.{expression_of};
ghost use Rattle.plan_tree.specs.Combining.{combined};
ghost use Rattle.plan_tree.specs.Rows.{kept};
ghost use Rattle.plan_tree.specs.Fragments.{added, after_probe, value_at};
ghost use Rattle.plan_tree.specs.Pieces.{probing_of};
ghost use Rattle.plan_tree.specs.WellFormed.{AreTests};
ghost use Rattle.hash_join.specs.Table.{places_of, rows_of};
ghost use Rattle.pipeline.specs.Probes.{CanProbe, joined};
ghost use Rattle.pipeline.specs.Taking.{taken_columns};

use crate::adding::added_layout;
use crate::combining::{Taken, combined_row, place_of, taken_columns};
use crate::row_testing::are_true;
use hash_join::Built;
use plan_tree::Probe;
use rows::{KeyPair, Layout, Row, Rows};
use std::alloc::{AllocError, Global};

// What is the same for all rows of a probe: the places of their keys, and where the values of combined rows stand.
#[derive(Drop)]
struct Way {
    keys: Vec<usize>,
    taken: Vec<Taken>,
}

// The places in a row of the columns by which it is looked up.
fn key_places(alloc: Global, layout: &Layout, keys: &[KeyPair]) -> Result<Vec<usize>, AllocError>
    ensures { IfOk result (λ places. places.items ≡ places_of layout.now (map (λ key. key.probe) keys.now)) }
{
    let mut places = Vec::new(alloc);
    for key in keys {
        if let Some(place) = place_of(layout.items(), key.probe.var, key.probe.col as usize)? {
            places.push(place)?;
        }
    }
    Ok(places)
}

// The way of a probe of rows of a layout.
fn way_of(alloc: Global, probe: &Probe, before: &Layout) -> Result<Way, AllocError>
    ensures keys { IfOk result (λ way. way.keys.items ≡ places_of before.now (map (λ key. key.probe) probe.now.keys)) }
    ensures taken { IfOk result (λ way. way.taken.items ≡ taken_columns probe.now.layout (added before.now probe.now.layout) before.now) }
{
    let keys = key_places(alloc, before, probe.keys.items())?;
    let first = added_layout(alloc, before, &probe.layout)?;
    let taken = taken_columns(alloc, &probe.layout, &first, before)?;
    Ok(Way { keys, taken })
}

// Adds a row with one row of the table, where the tests are true.
fn put_joined(
    out: &mut Vec<Row>,
    alloc: Global,
    probe: &Probe,
    way: &Way,
    before: &Layout,
    built: &Row,
    row: &Row,
) -> Result<(), AllocError>
    requires taken { way.now.taken.items ≡ taken_columns probe.now.layout (added before.now probe.now.layout) before.now }
    requires fits { IsRowIn probe.now.layout (combined probe.now.layout (added before.now probe.now.layout) before.now built.now row.now) }
    requires tests { AreTests probe.now.layout (map expression_of probe.now.tests) }
    ensures { OnOk result (out.new.items ≡ out.old.items ++ kept probe.now.layout (map expression_of probe.now.tests) (combined probe.now.layout (added before.now probe.now.layout) before.now built.now row.now ∷ [])) }
{
    let joined = combined_row(alloc, way.taken.as_slice(), built.items(), row.items())?;
    if are_true(alloc, probe.tests.items(), &joined, &probe.layout)? {
        out.push(joined)?;
    }
    Ok(())
}

// Adds a row with each row of the table that has its keys.
fn put_matches(
    out: &mut Vec<Row>,
    alloc: Global,
    probe: &Probe,
    way: &Way,
    before: &Layout,
    built: &Built,
    row: &Row,
) -> Result<(), AllocError>
    requires keys { way.now.keys.items ≡ places_of before.now (map (λ key. key.probe) probe.now.keys) }
    requires taken { way.now.taken.items ≡ taken_columns probe.now.layout (added before.now probe.now.layout) before.now }
    requires can { CanProbe before.now (probing_of probe.now) built.now }
    requires row { IsRowIn before.now row.now }
    ensures { OnOk result (out.new.items ≡ out.old.items ++ joined before.now (probing_of probe.now) (rows_of built.now.lists) row.now) }
{
    for at in built.matches_in(row.items(), way.keys.as_slice()) {
        put_joined(out, alloc, probe, way, before, built.row(*at), row)?;
    }
    Ok(())
}

// Each row with each row of the table that has its keys.
fn join_rows(
    alloc: Global,
    probe: &Probe,
    before: &Layout,
    built: &Built,
    rows: &Rows,
) -> Result<Rows, AllocError>
    requires can { CanProbe before.now (probing_of probe.now) built.now }
    requires rows { AllByRecursion (IsRowIn before.now) rows.now }
    ensures { IfOk result (λ found. found ≡ flat_map (joined before.now (probing_of probe.now) (rows_of built.now.lists)) rows.now) }
{
    let way = way_of(alloc, probe, before)?;
    let mut out = Vec::new(alloc);
    for row in rows.items() {
        put_matches(&mut out, alloc, probe, &way, before, built, row)?;
    }
    Ok(Rows::from_vec(out))
}

// Each row with each row of the table that has its keys, where the tests are true.
pub(crate) fn probe_rows(
    alloc: Global,
    probe: &Probe,
    before: &Layout,
    built: &Built,
    rows: &Rows,
) -> Result<Rows, AllocError>
    requires can { CanProbe before.now (probing_of probe.now) built.now }
    requires rows { AllByRecursion (IsRowIn before.now) rows.now }
    ensures rows { IfOk result (λ found. found ≡ flat_map (joined before.now (probing_of probe.now) (rows_of built.now.lists)) rows.now) }
    ensures fit { IfOk result (AllByRecursion (IsRowIn probe.now.layout)) }
    ensures output { (values : List (List (List Value))) → value_at values probe.now.input ≡ rows_of built.now.lists → IfOk result (λ found. found ≡ after_probe values before.now (probing_of probe.now) rows.now) }
{
    join_rows(alloc, probe, before, built, rows)
}

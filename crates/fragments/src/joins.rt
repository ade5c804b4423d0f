//! Fragments of joins, before their ends, and the ends of their sides.
ghost use Rattle.std.specs.Prelude.{◌≡◌, ◌<◌, ◌^◌, ◌+◌, ◌++◌, ◌∷◌, [], IfOk, OnOk, length, map};
ghost use Rattle.rel_meaning.specs.Expression.{expression_of};
ghost use Rattle.rows.specs.Layouts.{all_columns};
ghost use Rattle.plan_tree.specs.Combining.{merged};
ghost use Rattle.plan_tree.specs.Pieces.{building, ending_of, piece_of, pieces_of, sorting};
ghost use Rattle.plan_tree.specs.WellFormed.{sort_key};
ghost use Rattle.fragments.specs.Cuts.{ended, merge_of, with_probe};
ghost use Rattle.fragments.specs.Opened.{IsOpen, IsSide, opening_of};

use crate::NoMemory;
use crate::layouts::merged_layout;
use crate::scans::Open;
use crate::time::time_of;
use lists::Sequence;
use plan_tree::{End, ExprList, Fragment, Pipe, Probe, ProbeList, Source, copy_exprs};
use rows::{ColumnList, ColumnRef, KeyPairList, Layout, SortKey, place_of};
use std::alloc::Global;

// How many slices the left side of a merge is read in.
const SLICES: u32 = 64;

// The fragment of a side of a join: its number, and the layout of its rows.
#[derive(Drop)]
pub(crate) struct Side {
    pub number: u32,
    pub layout: Layout,
}

// A fragment with its end.
pub(crate) fn ended(statement: u32, begun: Open, end: End) -> Fragment
    ensures { piece_of result ≡ ended statement begun.layout (opening_of begun) (ending_of end) }
{
    let Open {
        pipe,
        layout,
        positions,
        pages,
        rows,
        joins,
    } = begun;
    Fragment {
        statement,
        pipe,
        end,
        layout,
        positions,
        pages,
        time: time_of(pages, rows, joins),
    }
}

// Adds the last fragment of a side.
fn push_side(
    alloc: Global,
    fragments: &mut Vec<Fragment>,
    statement: u32,
    begun: Open,
    end: End,
) -> Result<Side, NoMemory>
    requires { length fragments.old.items < 1000 }
    ensures more { OnOk result (length fragments.new.items ≡ length fragments.old.items + 1) }
    ensures side { IfOk result (λ side. IsSide statement begun.layout (opening_of begun) (ending_of end)
        (pieces_of fragments.old.items) (pieces_of fragments.new.items) side.number side.layout) }
{
    let layout = begun.layout.copy(alloc)?;
    let number = fragments.len() as u32;
    fragments.push(ended(statement, begun, end))?;
    Ok(Side { number, layout })
}

// The key columns of the first side.
pub(crate) fn build_columns(alloc: Global, keys: &KeyPairList) -> Result<Vec<ColumnRef>, NoMemory>
    ensures { IfOk result (λ columns. columns.items ≡ map (λ key. key.build) keys.now) }
{
    keys.items().iter().map(|key| key.build).collect(alloc)
}

// The key columns of the second side.
pub(crate) fn probe_columns(alloc: Global, keys: &KeyPairList) -> Result<Vec<ColumnRef>, NoMemory>
    ensures { IfOk result (λ columns. columns.items ≡ map (λ key. key.probe) keys.now) }
{
    keys.items().iter().map(|key| key.probe).collect(alloc)
}

// Adds the last fragment of a build side.
pub(crate) fn push_build(
    alloc: Global,
    fragments: &mut Vec<Fragment>,
    statement: u32,
    begun: Open,
    keys: &KeyPairList,
) -> Result<Side, NoMemory>
    requires { length fragments.old.items < 1000 }
    ensures more { OnOk result (length fragments.new.items ≡ length fragments.old.items + 1) }
    ensures side { IfOk result (λ side. IsSide statement begun.layout (opening_of begun)
        (building (map (λ key. key.build) keys.now))
        (pieces_of fragments.old.items) (pieces_of fragments.new.items) side.number side.layout) }
{
    let keys = Sequence::from_vec(build_columns(alloc, keys)?);
    push_side(alloc, fragments, statement, begun, End::Build { keys })
}

// Up by a column of a layout.
fn sort_key(layout: &Layout, column: ColumnRef) -> SortKey
    requires { length (all_columns layout.now) < 2 ^ 32 }
    ensures { result ≡ sort_key layout.now column }
{
    let place = place_of(layout.items(), column.var, column.col);
    SortKey {
        column: place.unwrap_or(0) as u32,
        down: false,
    }
}

fn sort_keys(
    alloc: Global,
    layout: &Layout,
    columns: &[ColumnRef],
) -> Result<Vec<SortKey>, NoMemory>
    requires { length (all_columns layout.now) < 2 ^ 32 }
    ensures { IfOk result (λ keys. keys.items ≡ map (sort_key layout.now) columns.now) }
{
    columns
        .iter()
        .map(|column| sort_key(layout, *column))
        .collect(alloc)
}

// Adds the last fragment of a side of a merge.
pub(crate) fn push_sort(
    alloc: Global,
    fragments: &mut Vec<Fragment>,
    statement: u32,
    begun: Open,
    columns: &[ColumnRef],
) -> Result<Side, NoMemory>
    requires room { length fragments.old.items < 1000 }
    requires narrow { length (all_columns begun.layout) < 2 ^ 32 }
    ensures more { OnOk result (length fragments.new.items ≡ length fragments.old.items + 1) }
    ensures side { IfOk result (λ side. IsSide statement begun.layout (opening_of begun)
        (sorting (map (sort_key begun.layout) columns.now))
        (pieces_of fragments.old.items) (pieces_of fragments.new.items) side.number side.layout) }
{
    let keys = Sequence::from_vec(sort_keys(alloc, &begun.layout, columns)?);
    push_side(alloc, fragments, statement, begun, End::Sort { keys })
}

// One more probe at the end.
fn with_probe(pipe: Pipe, probe: Probe) -> Result<Pipe, NoMemory>
    ensures { IfOk result (λ more. (more.source ≡ pipe.source) × (more.columns ≡ pipe.columns)
        × (more.tests ≡ pipe.tests) × (more.probes ≡ pipe.probes ++ probe ∷ [])) }
{
    let Pipe {
        source,
        columns,
        tests,
        probes,
    } = pipe;
    let mut probes = probes.into_vec();
    probes.push(probe)?;
    Ok(Pipe {
        source,
        columns,
        tests,
        probes: Sequence::from_vec(probes),
    })
}

#[tactic(auto, using(crate::proofs::Widths::merged_width))]
// The last fragment of a probe side with a probe of the build side.
pub(crate) fn hash_open(
    alloc: Global,
    built: &Side,
    begun: Open,
    keys: &KeyPairList,
    tests: &ExprList,
) -> Result<Open, NoMemory>
    requires { begun.joins < 1000 }
    ensures joins { IfOk result (λ o. o.joins ≡ begun.joins + 1) }
    ensures width { IfOk result (λ o. length (all_columns o.layout)
        ≡ length (all_columns built.now.layout) + length (all_columns begun.layout)) }
    ensures is { let both = merged built.now.layout begun.layout in
        IfOk result (λ o. IsOpen o (with_probe (opening_of begun) (record {
          input = built.now.number;
          keys = keys.now;
          tests = map expression_of tests.now;
          layout = both;
        })) both) }
{
    let Open {
        pipe,
        layout,
        positions,
        pages,
        rows,
        joins,
    } = begun;
    let probe = Probe {
        input: built.number,
        keys: keys.copy(alloc)?,
        tests: copy_exprs(alloc, tests)?,
        layout: merged_layout(alloc, &built.layout, &layout)?,
    };
    Ok(Open {
        pipe: with_probe(pipe, probe)?,
        layout: merged_layout(alloc, &built.layout, &layout)?,
        positions,
        pages,
        rows,
        joins: joins + 1,
    })
}

#[tactic(auto, using(crate::proofs::Widths::merged_width))]
// The merge of two sides, whose rows are taken to be so many.
pub(crate) fn merge_open(
    alloc: Global,
    left: Side,
    right: Side,
    rows: u128,
    keys: &KeyPairList,
    tests: &ExprList,
) -> Result<Open, NoMemory>
    ensures joins { IfOk result (λ o. o.joins ≡ 0) }
    ensures width { IfOk result (λ o. length (all_columns o.layout)
        ≡ length (all_columns left.layout) + length (all_columns right.layout)) }
    ensures is { let both = merged left.layout right.layout in
        IfOk result (λ o. IsOpen o (merge_of left.number right.number left.layout right.layout
        keys.now (map expression_of tests.now) rows) both) }
{
    let layout = merged_layout(alloc, &left.layout, &right.layout)?;
    let source = Source::Merge {
        left: left.number,
        right: right.number,
        keys: keys.copy(alloc)?,
        left_layout: left.layout,
        right_layout: right.layout,
    };
    Ok(Open {
        pipe: Pipe {
            source,
            columns: ColumnList::new(alloc),
            tests: copy_exprs(alloc, tests)?,
            probes: ProbeList::new(alloc),
        },
        layout,
        positions: SLICES,
        pages: 0,
        rows,
        joins: 0,
    })
}

//! Fragments of scans, before their ends.
ghost use Rattle.std.specs.Prelude.{◌≡◌, ◌<◌, IfOk, length, map, [], slice_get};
ghost use Rattle.rows.specs.Layouts.{one_part};
ghost use Rattle.rel_meaning.specs.Expression.{expression_of, question_of};
ghost use Rattle.rel_meaning.specs.Meaning.{layout_column};
ghost use Rattle.plan_tree.specs.WellFormed.{IsIndexed};
ghost use Rattle.kept_answers.specs.KeptAnswers.{columns_kept};
ghost use Rattle.fragments.specs.Homes.{stored, columns_in, home_of};
ghost use Rattle.fragments.specs.Cuts.{heap_opening, index_opening, kept_opening, one_opening, scan_opening};
ghost use Rattle.fragments.specs.Opened.{IsOpen, IsStatement, facts_in, known_of, store_of};
ghost use Rattle.fragments.specs.Premises.{MayRead};

use crate::NoMemory;
use crate::known::{Statement, Stored, stored_at};
use crate::time::LIMIT;
use kept_relations::{Kept, kept_layout};
use lists::Sequence;
use plan_tree::{ExprList, Pipe, Probe, ProbeList, Source, Way, copy_exprs};
use rel_meaning::column_layout;
use rows::{
    Column, ColumnList, Interval, KeyIndex, KeyPairList, Layout, LayoutColumn, LayoutColumnList,
    LayoutPart,
};
use std::alloc::Global;

// A fragment before its end, and the layout of its rows. Its source has so many positions, reads so many pages and
// gives so many rows; `joins` counts the probes of joins.
#[derive(Drop)]
pub(crate) struct Open {
    pub pipe: Pipe,
    pub layout: Layout,
    pub positions: u32,
    pub pages: u64,
    pub rows: u128,
    pub joins: u32,
}

fn column_layouts(alloc: Global, columns: &[Column]) -> Result<Vec<LayoutColumn>, NoMemory>
    ensures { IfOk result (λ v. v.items ≡ map layout_column columns.now) }
{
    columns
        .iter()
        .map(|column| column_layout(column))
        .collect(alloc)
}

// The columns of a relation as those of a layout.
fn layout_columns(alloc: Global, columns: &ColumnList) -> Result<LayoutColumnList, NoMemory>
    ensures { IfOk result (λ v. v ≡ map layout_column columns.now) }
{
    Ok(Sequence::from_vec(column_layouts(alloc, columns.items())?))
}

// The layout of one variable.
fn layout_of(alloc: Global, var: u32, columns: LayoutColumnList) -> Result<Layout, NoMemory>
    ensures { IfOk result (λ layout. layout ≡ one_part var columns) }
{
    Ok(Sequence::from_vec(vec![in alloc; LayoutPart { var, columns }]?))
}

// The one empty row, where the tests are true.
pub(crate) fn one_open(alloc: Global, tests: &ExprList) -> Result<Open, NoMemory>
    ensures { IfOk result (λ o. IsOpen o (one_opening (map expression_of tests.now)) []) }
{
    Ok(Open {
        pipe: Pipe {
            source: Source::One,
            columns: ColumnList::new(alloc),
            tests: copy_exprs(alloc, tests)?,
            probes: ProbeList::new(alloc),
        },
        layout: Layout::new(alloc),
        positions: 1,
        pages: 0,
        rows: 1,
        joins: 0,
    })
}

// A source of the rows of a stored relation with its tests.
fn stored_pipe(
    alloc: Global,
    source: Source,
    columns: &ColumnList,
    tests: &ExprList,
) -> Result<Pipe, NoMemory>
    ensures { IfOk result (λ pipe. (pipe.source ≡ source) × (pipe.columns ≡ columns.now)
        × (map expression_of pipe.tests ≡ map expression_of tests.now) × (pipe.probes ≡ [])) }
{
    Ok(Pipe {
        source,
        columns: columns.copy(alloc)?,
        tests: copy_exprs(alloc, tests)?,
        probes: ProbeList::new(alloc),
    })
}

// The scan of a heap file.
fn heap_open(
    alloc: Global,
    relation: &Stored<'_>,
    var: u32,
    rows: u64,
    tests: &ExprList,
) -> Result<Open, NoMemory>
    ensures { IfOk result (λ o. IsOpen o
        (heap_opening var (store_of relation.now) rows (map expression_of tests.now))
        (one_part var (map layout_column relation.now.columns.now))) }
{
    let file = relation.heap_file;
    let source = Source::Heap { var, file };
    Ok(Open {
        pipe: stored_pipe(alloc, source, relation.columns, tests)?,
        layout: layout_of(alloc, var, layout_columns(alloc, relation.columns)?)?,
        positions: relation.pages,
        pages: relation.pages as u64,
        rows: rows as u128,
        joins: 0,
    })
}

// The scan of an interval of an index.
fn index_open(
    alloc: Global,
    relation: &Stored<'_>,
    index: KeyIndex,
    interval: Interval,
    var: u32,
    tests: &ExprList,
) -> Result<Open, NoMemory>
    requires { IsIndexed index interval }
    ensures { IfOk result (λ o. IsOpen o
        (index_opening var (store_of relation.now) index interval (map expression_of tests.now))
        (one_part var (map layout_column relation.now.columns.now))) }
{
    let entries = interval.upto - interval.from;
    let heap_file = relation.heap_file;
    let source = Source::Index {
        var,
        index,
        heap_file,
        interval,
    };
    Ok(Open {
        pipe: stored_pipe(alloc, source, relation.columns, tests)?,
        layout: layout_of(alloc, var, layout_columns(alloc, relation.columns)?)?,
        positions: entries,
        pages: (entries as u64 + index.height as u64).min(LIMIT),
        rows: entries as u128,
        joins: 0,
    })
}

// The scan of a relation of the catalogue.
pub(crate) fn stored_open(
    alloc: Global,
    relation: &Stored<'_>,
    var: u32,
    way: Way,
    rows: u64,
    tests: &ExprList,
) -> Result<Open, NoMemory>
    requires { MayRead (stored (store_of relation.now)) way }
    ensures { IfOk result (λ o. IsOpen o
        (scan_opening var (stored (store_of relation.now)) way rows (map expression_of tests.now))
        (one_part var (map layout_column relation.now.columns.now))) }
{
    match way {
        Way::Heap => heap_open(alloc, relation, var, rows, tests),
        Way::Index(interval) => match relation.index {
            Some(index) => index_open(alloc, relation, index, interval, var, tests),
            None => unreachable!(),
        },
    }
}

// The rows that a fragment made, as the answer of the statement that keeps them.
pub(crate) fn kept_open(
    alloc: Global,
    kept: &Kept,
    input: u32,
    var: u32,
    rows: u64,
    tests: &ExprList,
) -> Result<Open, NoMemory>
    requires { length kept.now.bounds ≡ length kept.now.columns }
    ensures { IfOk result (λ o. IsOpen o
        (kept_opening var input (columns_kept kept.now) rows (map expression_of tests.now))
        (one_part var (columns_kept kept.now))) }
{
    let probe = Probe {
        input,
        keys: KeyPairList::new(alloc),
        tests: copy_exprs(alloc, tests)?,
        layout: layout_of(alloc, var, kept_layout(alloc, kept)?)?,
    };
    // Its probe is no join.
    let joins = 0;
    Ok(Open {
        pipe: Pipe {
            source: Source::One,
            columns: ColumnList::new(alloc),
            tests: ExprList::new(alloc),
            probes: Sequence::from_vec(vec![in alloc; probe]?),
        },
        layout: layout_of(alloc, var, kept_layout(alloc, kept)?)?,
        positions: 1,
        pages: 0,
        rows: rows as u128,
        joins,
    })
}

//! Fragments for tests.
ghost use Rattle.std.specs.Prelude.{◌≡◌, IfOk, [], ◌∷◌, map, pos, ℕ};
ghost use Rattle.plan_tree.specs.Pieces.{ending_of, piece_of, probing_of};
ghost use Rattle.rel_meaning.specs.declared.expr.CompareOp.TheVariants.{Equal};
ghost use Rattle.rel_meaning.specs.Expression.{column, compare, expression_of, number, output_of};
ghost use Rattle.pipeline.specs.Positions.{IsFormed, IsScan};
ghost use Rattle.pipeline.specs.SamplePieces.{IsReady, sample_build, sample_chain, sample_columns, sample_counts, sample_fold, sample_link, sample_output, sample_part, sample_piece, sample_scan};

use crate::finishing::layout_columns;
use aggregate_op::{Fold, FoldOp, FoldOpList, FoldPlace, FoldPlaceList};
use plan_tree::{End, ExprList, Fragment, Pipe, Probe, ProbeList, Source};
use rel_meaning::{CompareOp, Expr, Target, TargetList};
use rows::{
    ColType, Column, ColumnList, ColumnRef, ColumnRefList, Interval, KeyIndex, KeyPair,
    KeyPairList, Layout, LayoutPart, SortKeyList, Text,
};
use std::alloc::{AllocError, Global};

/// An index over six texts of 2,000 bytes, in two leaves under a root.
pub(crate) const INDEX: KeyIndex = KeyIndex {
    file: 1,
    key_type: ColType::Text,
    entries: 6,
    pages: 3,
    height: 2,
    heap_pages: 2,
};

fn column(alloc: Global, col_type: ColType, nullable: bool) -> Column
    ensures { result ≡ record { name = []; col_type = col_type; nullable = nullable } }
{
    Column {
        name: Text::new(alloc),
        col_type,
        nullable,
    }
}

/// The columns of the relation.
pub(crate) fn columns(alloc: Global) -> Result<ColumnList, AllocError>
    ensures { IfOk result (λ columns. columns ≡ sample_columns) }
{
    let name = column(alloc, ColType::Text, false);
    let first = column(alloc, ColType::Int4, true);
    let second = column(alloc, ColType::Int4, true);
    Ok(ColumnList::from_vec(vec![in alloc; name, first, second]?))
}

fn part(alloc: Global, var: u32) -> Result<LayoutPart, AllocError>
    ensures { IfOk result (λ part. part ≡ sample_part var) }
{
    let columns = layout_columns(alloc, &columns(alloc)?)?;
    Ok(LayoutPart { var, columns })
}

/// The layout of these variables.
pub(crate) fn layout(alloc: Global, vars: &[u32]) -> Result<Layout, AllocError>
    ensures { IfOk result (λ layout. layout ≡ map sample_part vars.now) }
{
    let mut parts = Vec::new(alloc);
    for var in vars {
        parts.push(part(alloc, *var)?)?;
    }
    Ok(Layout::from_vec(parts))
}

/// A fragment with as many positions as pages.
pub(crate) fn fragment(
    alloc: Global,
    source: Source,
    tests: ExprList,
    probes: ProbeList,
    end: End,
    layout: Layout,
    positions: u32,
) -> Result<Fragment, AllocError>
    ensures { IfOk result (λ f. piece_of f ≡ sample_piece source (map expression_of tests) (map probing_of probes) (ending_of end) layout positions) }
{
    Ok(Fragment {
        statement: 0,
        pipe: Pipe {
            source,
            columns: columns(alloc)?,
            tests,
            probes,
        },
        end,
        layout,
        positions,
        pages: u64::from(positions),
        time: 1,
    })
}

// The rows of a variable, found by their first integer.
fn build_of(alloc: Global, var: u32) -> Result<Fragment, AllocError>
    ensures { IfOk result (λ f. piece_of f ≡ sample_build var) }
{
    let keys = vec![in alloc; ColumnRef { var, col: 1 }]?;
    let end = End::Build {
        keys: ColumnRefList::from_vec(keys),
    };
    fragment(
        alloc,
        Source::Heap { var, file: 0 },
        ExprList::new(alloc),
        ProbeList::new(alloc),
        end,
        layout(alloc, &[var])?,
        2,
    )
}

/// The rows of a variable, found by their first integer.
pub(crate) fn ready_build(alloc: Global, var: u32) -> Result<Fragment, AllocError>
    ensures piece { IfOk result (λ f. piece_of f ≡ sample_build var) }
    ensures ready { (n : ℕ) → IfOk result (λ f. IsReady (piece_of f) n []) }
{
    Ok(build_of(alloc, var)?)
}

// The rows of the next variable, with the same first integer.
fn link(alloc: Global, vars: &[u32], input: u32) -> Result<Probe, AllocError>
    ensures { IfOk result (λ probe. probing_of probe ≡ sample_link vars.now input) }
{
    let width = input as usize + 2;
    let Some(next) = input.checked_add(1) else {
        return Err(AllocError);
    };
    if width > vars.len() {
        return Err(AllocError);
    }
    let (before, _) = vars.split_at(width);
    let key = KeyPair {
        build: ColumnRef { var: next, col: 1 },
        probe: ColumnRef { var: input, col: 1 },
    };
    Ok(Probe {
        input,
        keys: KeyPairList::from_vec(vec![in alloc; key]?),
        tests: ExprList::new(alloc),
        layout: layout(alloc, before)?,
    })
}

// Those of so many variables, one after the other.
fn links(alloc: Global, vars: &[u32], inputs: &[u32]) -> Result<ProbeList, AllocError>
    ensures { IfOk result (λ probes. map probing_of probes ≡ map (sample_link vars.now) inputs.now) }
{
    let mut probes = Vec::new(alloc);
    for input in inputs {
        probes.push(link(alloc, vars, *input)?)?;
    }
    Ok(ProbeList::from_vec(probes))
}

// The names of the rows of these variables.
fn names(alloc: Global, vars: &[u32]) -> Result<TargetList, AllocError>
    ensures { IfOk result (λ targets. map output_of targets ≡ map sample_output vars.now) }
{
    let mut targets = Vec::new(alloc);
    for var in vars {
        targets.push(Target {
            name: Text::new(alloc),
            expr: Expr::Column { var: *var, col: 0 },
        })?;
    }
    Ok(TargetList::from_vec(targets))
}

/// The rows of variable 0 with those of the variables behind it, each of which is built by the fragment of an input.
pub(crate) fn chain(alloc: Global, vars: &[u32], inputs: &[u32]) -> Result<Fragment, AllocError>
    ensures { IfOk result (λ f. piece_of f ≡ sample_chain vars.now inputs.now) }
{
    let end = End::Answer {
        targets: names(alloc, vars)?,
        unique: false,
        keys: SortKeyList::new(alloc),
    };
    fragment(
        alloc,
        Source::Heap { var: 0, file: 0 },
        ExprList::new(alloc),
        links(alloc, vars, inputs)?,
        end,
        layout(alloc, vars)?,
        2,
    )
}

// Whether the first integer of variable 0 is 1.
fn is_one(alloc: Global) -> Result<ExprList, AllocError>
    ensures { IfOk result (λ tests. map expression_of tests ≡ compare Equal (column 0 1) (number (pos 1)) ∷ []) }
{
    let left = Box::new(alloc, Expr::Column { var: 0, col: 1 })?;
    let right = Box::new(alloc, Expr::Number(1))?;
    let test = Expr::Compare {
        op: CompareOp::Equal,
        left,
        right,
    };
    Ok(ExprList::from_vec(vec![in alloc; test]?))
}

// The names of the rows of a source whose first integer is 1.
fn scan(alloc: Global, source: Source, positions: u32) -> Result<Fragment, AllocError>
    ensures { IfOk result (λ f. piece_of f ≡ sample_scan source positions) }
{
    let end = End::Answer {
        targets: names(alloc, &[0])?,
        unique: false,
        keys: SortKeyList::new(alloc),
    };
    fragment(
        alloc,
        source,
        is_one(alloc)?,
        ProbeList::new(alloc),
        end,
        layout(alloc, &[0])?,
        positions,
    )
}

// Counts by one group value.
fn counting(alloc: Global) -> Result<Fold, AllocError>
    ensures { IfOk result (λ fold. fold ≡ sample_fold) }
{
    Ok(Fold {
        groups: 1,
        ops: FoldOpList::from_vec(vec![in alloc; FoldOp::Count]?),
        places: FoldPlaceList::from_vec(vec![in alloc; FoldPlace::Group(0), FoldPlace::Op(0)]?),
    })
}

// How many rows have each second integer.
fn counts(alloc: Global) -> Result<Fragment, AllocError>
    ensures { IfOk result (λ f. piece_of f ≡ sample_counts) }
{
    let group = Target {
        name: Text::new(alloc),
        expr: Expr::Column { var: 0, col: 2 },
    };
    let counted = Target {
        name: Text::new(alloc),
        expr: Expr::Column { var: 0, col: 0 },
    };
    let end = End::Fold {
        targets: TargetList::from_vec(vec![in alloc; group, counted]?),
        fold: counting(alloc)?,
    };
    fragment(
        alloc,
        Source::Heap { var: 0, file: 0 },
        ExprList::new(alloc),
        ProbeList::new(alloc),
        end,
        layout(alloc, &[0])?,
        2,
    )
}

/// How many rows have each second integer.
pub(crate) fn ready_counts(alloc: Global) -> Result<Fragment, AllocError>
    ensures { (n : ℕ) → IfOk result (λ f. IsReady (piece_of f) n []) }
{
    Ok(counts(alloc)?)
}

/// The names of the rows of the heap file whose first integer is 1.
#[tactic(auto, using(crate::proofs::SampleRuns::scan_scans))]
pub(crate) fn heap_scan(alloc: Global) -> Result<Fragment, AllocError>
    ensures ready { (n : ℕ) → IfOk result (λ f. IsReady (piece_of f) n []) }
    ensures formed { IfOk result (λ f. IsFormed (piece_of f)) }
    ensures scan { IfOk result (λ f. IsScan f.pipe.source) }
    ensures positions { IfOk result (λ f. f.positions ≡ 2) }
{
    Ok(scan(alloc, Source::Heap { var: 0, file: 0 }, 2)?)
}

/// The names of the rows of an index's entries whose first integer is 1.
pub(crate) fn index_scan(alloc: Global) -> Result<Fragment, AllocError>
    ensures ready { IfOk result (λ f. IsReady (piece_of f) 3 []) }
    ensures positions { IfOk result (λ f. f.positions ≡ 6) }
{
    let interval = Interval { from: 0, upto: 6 };
    let source = Source::Index {
        var: 0,
        index: INDEX,
        heap_file: 0,
        interval,
    };
    Ok(scan(alloc, source, 6)?)
}

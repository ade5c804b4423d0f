//! The fragments of a tree.
ghost use Rattle.std.specs.Prelude.{◌≡◌, ◌≤◌, ◌<◌, ◌+◌, ◌*◌, ◌++◌, IfOk, OnOk, length, map};
ghost use Rattle.rel_meaning.specs.Expression.{expression_of, question_of, output_of};
ghost use Rattle.plan_tree.specs.Pieces.{answering, ending_of, pieces_of};
ghost use Rattle.plan_tree.specs.Trees.{has};
ghost use Rattle.plan_tree.specs.Views.{shape_of};
ghost use Rattle.fragments.specs.Cuts.{cut_query, last_of, scan_opening};
ghost use Rattle.fragments.specs.Homes.{columns_in};
ghost use Rattle.rows.specs.Layouts.{all_columns, one_part};
ghost use Rattle.fragments.specs.Opened.{GivesCut, IsOpen, IsStatement, facts_in, fragment_count, opening_of};
ghost use Rattle.fragments.specs.Premises.{MayRead, MayScan};

use crate::NoMemory;
use crate::joins::{
    build_columns, ended, hash_open, merge_open, probe_columns, push_build, push_sort,
};
use crate::known::{Statement, stored_at};
use crate::scans::{Open, kept_open, one_open, stored_open};
use plan_tree::{End, ExprList, Fragment, Tree, Way, copy_plain, copy_targets};
use rel_meaning::Query;
use seq_optimizer::estimate_of;
use std::alloc::Global;

// The scan of a range variable.
fn scan_open(
    alloc: Global,
    statement: &Statement<'_>,
    var: u32,
    way: Way,
    tests: &ExprList,
) -> Result<Open, NoMemory>
    requires statement { IsStatement statement.now }
    requires var { var < length (question_of statement.now.query.now).vars }
    requires read { MayRead ((facts_in statement.now).home var) way }
    ensures joins { IfOk result (λ o. o.joins ≡ 0) }
    ensures width { IfOk result (λ o. length (all_columns o.layout) ≤ 32) }
    ensures is { let facts = facts_in statement.now in IfOk result (λ o. IsOpen o
        (scan_opening var (facts.home var) way (facts.rows var) (map expression_of tests.now))
        (one_part var (columns_in (facts.home var)))) }
{
    let known = &statement.known;
    let relation = statement.query.vars.get(var as usize).relation as usize;
    let rows = statement.stats.get(var as usize).rows;
    if relation < known.catalog.len() {
        let stored = stored_at(known, relation);
        return stored_open(alloc, &stored, var, way, rows, tests);
    }
    let kept = known.kept.get(relation - known.catalog.len());
    let made_by = statement.lasts[kept.statement as usize];
    kept_open(alloc, kept, made_by, var, rows, tests)
}

#[tactic(auto, using(crate::proofs::Counts::scans_below))]
// How many rows both sides of a merge are taken to have.
fn merged_rows(statement: &Statement<'_>, left: &Tree, right: &Tree) -> u128
    requires statement { IsStatement statement.now }
    requires left { MayScan (facts_in statement.now).home (length (question_of statement.now.query.now).vars) (shape_of left.now) }
    requires right { MayScan (facts_in statement.now).home (length (question_of statement.now.query.now).vars) (shape_of right.now) }
    ensures { let size = (facts_in statement.now).size in
        result ≡ size (has (shape_of left.now)) + size (has (shape_of right.now)) }
{
    let first = estimate_of(statement.query, statement.stats, left);
    let second = estimate_of(statement.query, statement.stats, right);
    first as u128 + second as u128
}

// The fragments of a tree but for the end of the last one.
fn cut_open(
    alloc: Global,
    statement: &Statement<'_>,
    tree: &Tree,
    fragments: &mut Vec<Fragment>,
) -> Result<Open, NoMemory>
    requires statement { IsStatement statement.now }
    requires scans { MayScan (facts_in statement.now).home (length (question_of statement.now.query.now).vars) (shape_of tree.now) }
    requires room { length fragments.old.items + fragment_count (shape_of tree.now) ≤ 1000 }
    ensures room { OnOk result (length fragments.new.items + 1 ≡ length fragments.old.items + fragment_count (shape_of tree.now)) }
    ensures joins { IfOk result (λ o. o.joins < fragment_count (shape_of tree.now)) }
    ensures width { IfOk result (λ o. length (all_columns o.layout) ≤ 32 * fragment_count (shape_of tree.now)) }
    ensures cut { IfOk result (λ o. GivesCut (facts_in statement.now) (shape_of tree.now)
        (pieces_of fragments.old.items) (pieces_of fragments.new.items) (opening_of o) o.layout) }
{
    let number = statement.lasts.len() as u32;
    match tree {
        Tree::One { tests } => one_open(alloc, tests),
        Tree::Scan { var, way, tests } => scan_open(alloc, statement, *var, *way, tests),
        Tree::Join {
            build,
            probe,
            keys,
            tests,
        } => {
            let built = cut_open(alloc, statement, build, fragments)?;
            let side = push_build(alloc, fragments, number, built, keys)?;
            let probing = cut_open(alloc, statement, probe, fragments)?;
            hash_open(alloc, &side, probing, keys, tests)
        }
        Tree::Merge {
            left,
            right,
            keys,
            tests,
        } => {
            let rows = merged_rows(statement, left, right);
            let first = cut_open(alloc, statement, left, fragments)?;
            let first = push_sort(
                alloc,
                fragments,
                number,
                first,
                &build_columns(alloc, keys)?,
            )?;
            let second = cut_open(alloc, statement, right, fragments)?;
            let second = push_sort(
                alloc,
                fragments,
                number,
                second,
                &probe_columns(alloc, keys)?,
            )?;
            merge_open(alloc, first, second, rows, keys, tests)
        }
    }
}

// The targets and keys of a query as an end.
fn answer_end(alloc: Global, query: &Query) -> Result<End, NoMemory>
    ensures { let q = question_of query.now in
        IfOk result (λ e. ending_of e ≡ answering q.targets q.unique q.keys) }
{
    Ok(End::Answer {
        targets: copy_targets(alloc, &query.targets)?,
        unique: query.unique,
        keys: copy_plain(alloc, query.keys.items())?,
    })
}

// Adds the fragments of a statement, and gives the number of the last one.
pub(crate) fn cut_statement(
    alloc: Global,
    statement: &Statement<'_>,
    tree: &Tree,
    fragments: &mut Vec<Fragment>,
) -> Result<u32, NoMemory>
    requires statement { IsStatement statement.now }
    requires scans { MayScan (facts_in statement.now).home (length (question_of statement.now.query.now).vars) (shape_of tree.now) }
    requires room { length fragments.old.items + fragment_count (shape_of tree.now) ≤ 1000 }
    ensures pieces { IfOk result (λ last. pieces_of fragments.new.items ≡ pieces_of fragments.old.items
        ++ cut_query (facts_in statement.now) (length (pieces_of fragments.old.items)) (question_of statement.now.query.now) (shape_of tree.now)) }
    ensures last { IfOk result (λ last. last ≡ last_of (facts_in statement.now) (length (pieces_of fragments.old.items)) (shape_of tree.now)) }
{
    let last = cut_open(alloc, statement, tree, fragments)?;
    let end = answer_end(alloc, statement.query)?;
    let number = fragments.len() as u32;
    fragments.push(ended(statement.lasts.len() as u32, last, end))?;
    Ok(number)
}

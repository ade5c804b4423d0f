//! The checks of a whole statement.

ghost use Rattle.std.specs.Prelude.{◌≡◌, ◌&&◌, ◌++◌, [], ◌∷◌, map, not, IfOk, is_some, true};
ghost use Rattle.std.specs.List.{list_any};
ghost use Rattle.std.specs.Option.{option_map};
ghost use Rattle.std.specs.Result.{result_err};
ghost use Rattle.postquel_tokens.specs.Forms.{condition_of, sentence_of, wish_of};
ghost use Rattle.rel_meaning.specs.Expression.{expression_of, output_of, question_of};
ghost use Rattle.name_check.specs.Checked.{Gives, Tells};
ghost use Rattle.name_check.specs.Headers.{kept_name};
ghost use Rattle.name_check.specs.Sentences as sentences;
ghost use Rattle.name_check.specs.Steps as spec;
ghost use Rattle.name_check.specs.Steps.{chosen_of};

use crate::checking::expression;
use crate::columns::{Outputs, is_fold, targets};
use crate::folding::fold;
use crate::heading::{HeadColumn, HeadColumnList, Heading, number, place_of};
use aggregate_op::{FoldOp, FoldPlan};
use lists::{Duplicate, Sequence};
use postquel_tokens::{
    IntoForm, KeyForm, RangeForm, Statement, TargetForm, TestForm, TextErr, What,
};
use rel_meaning::{Expr, Query, Target, Var};
use rows::{ColType, SortKey, SortKeyList, Text};
use std::alloc::{AllocError, Global};

/// A query, the columns of its answer, its fold, and the name of what it keeps.
#[derive(Drop)]
pub(crate) struct Found {
    pub query: Query,
    pub head: HeadColumnList,
    pub plan: Option<FoldPlan>,
    pub into: Option<Text>,
}

fn has_fold(targets: &[TargetForm]) -> bool
    ensures { result ≡ list_any (λ t. sentences.is_fold (wish_of t)) targets.now }
{
    targets.iter().any(|target| is_fold(target))
}

// Whether a target of the statement is a fold.
#[tactic(auto, using(crate::proofs::Any::any_map))]
pub(crate) fn folds(statement: &Statement) -> bool
    ensures { result ≡ sentences.has_fold (sentence_of statement.now) }
{
    has_fold(statement.targets.items())
}

fn into_fault(headings: &[Heading], folds: bool, into: &Option<IntoForm>) -> Result<(), TextErr>
    ensures { result_err result ≡ sentences.into_fault headings.now folds into.now }
{
    let Some(into) = into else {
        return Ok(());
    };
    if folds {
        return Err(TextErr::at(into.spot, What::FoldInto));
    }
    if place_of(headings, &into.name.text).is_some() {
        return Err(TextErr::at(into.name.spot, What::DoubleRelation));
    }
    Ok(())
}

fn add_range(
    alloc: Global,
    headings: &[Heading],
    vars: &mut Vec<Var>,
    range: &RangeForm,
) -> Result<(), TextErr>
    ensures { Gives (λ u. vars.new.items) (sentences.or_fault
        (vars.old.items ++ sentences.var_of headings.now range.now ∷ [])
        (sentences.range_form_fault headings.now vars.old.items range.now)) result }
{
    if vars.len() >= 6 {
        return Err(TextErr::at(range.var.spot, What::TooManyRanges));
    }
    if place_of(vars.as_slice(), &range.var.text).is_some() {
        return Err(TextErr::at(range.var.spot, What::DoubleRange));
    }
    let Some(place) = place_of(headings, &range.relation.text) else {
        return Err(TextErr::at(range.relation.spot, What::NoRelation));
    };
    vars.push(Var {
        name: range.var.text.duplicate(alloc)?,
        relation: number(place)?,
    })?;
    Ok(())
}

fn ranges(alloc: Global, headings: &[Heading], ranges: &[RangeForm]) -> Result<Vec<Var>, TextErr>
    ensures { Gives (λ v. v.items) (spec.ranges_checked headings.now [] ranges.now) result }
{
    let mut vars = Vec::new(alloc);
    for range in ranges {
        add_range(alloc, headings, &mut vars, range)?;
    }
    Ok(vars)
}

fn test(
    alloc: Global,
    headings: &[Heading],
    vars: &mut Vec<Var>,
    test: &Option<TestForm>,
) -> Result<Option<Expr>, TextErr>
    ensures { Tells (option_map expression_of) (spec.test_checked headings.now vars.old.items
        (option_map condition_of test.now)) result vars.new.items }
{
    let Some(test) = test else {
        return Ok(None);
    };
    let typed = expression(alloc, headings, vars, &test.form)?;
    if typed.layout.col_type != ColType::Bool {
        return Err(TextErr::at(test.spot, What::TypeMismatch));
    }
    Ok(Some(typed.expr))
}

fn sort_key(head: &[HeadColumn], key: &KeyForm) -> Result<SortKey, TextErr>
    ensures { Gives (λ k. k) (spec.key_checked head.now key.now) result }
{
    match place_of(head, &key.target.text) {
        Some(place) => Ok(SortKey {
            column: number(place)?,
            down: key.down,
        }),
        None => Err(TextErr::at(key.target.spot, What::NoSortTarget)),
    }
}

fn keys(alloc: Global, head: &[HeadColumn], keys: &[KeyForm]) -> Result<Vec<SortKey>, TextErr>
    ensures { Gives (λ v. v.items) (spec.keys_checked head.now [] keys.now) result }
{
    let mut found = Vec::new(alloc);
    for key in keys {
        found.push(sort_key(head, key)?)?;
    }
    Ok(found)
}

fn joined(mut first: Vec<Target>, second: Vec<Target>) -> Result<Vec<Target>, AllocError>
    ensures { IfOk result (λ v. map output_of v.items
        ≡ map output_of first.items ++ map output_of second.items) }
{
    for target in second {
        first.push(target)?;
    }
    Ok(first)
}

// The sort keys of a query, or the fold with those of its answer.
#[derive(Drop)]
struct Sorted {
    keys: SortKeyList,
    plan: Option<FoldPlan>,
}

fn sort_ends(
    alloc: Global,
    folds: bool,
    ops: &[Option<FoldOp>],
    keys: Vec<SortKey>,
) -> Result<Sorted, TextErr>
    ensures { Gives (λ s. s) (Ok (spec.sorted_by folds ops.now keys.items)) result }
{
    let keys = Sequence::from_vec(keys);
    if !folds {
        return Ok(Sorted { keys, plan: None });
    }
    let fold = fold(alloc, ops)?;
    Ok(Sorted {
        keys: Sequence::new(alloc),
        plan: Some(FoldPlan { fold, keys }),
    })
}

// The name of what a statement keeps.
fn kept_name(alloc: Global, into: &Option<IntoForm>) -> Result<Option<Text>, AllocError>
    ensures { IfOk result (λ name. name ≡ kept_name into.now) }
{
    match into {
        Some(into) => Ok(Some(into.name.text.duplicate(alloc)?)),
        None => Ok(None),
    }
}

fn make_query(
    unique: bool,
    plain: Vec<Target>,
    operands: Vec<Target>,
    test: Option<Expr>,
    keys: SortKeyList,
    vars: Vec<Var>,
) -> Result<Query, AllocError>
    ensures { IfOk result (λ q. question_of q ≡ spec.query_by unique (map output_of plain.items)
        (map output_of operands.items) (option_map expression_of test) keys vars.items) }
{
    Ok(Query {
        vars: Sequence::from_vec(vars),
        targets: Sequence::from_vec(joined(plain, operands)?),
        test,
        unique,
        keys,
    })
}

fn make_found(
    alloc: Global,
    statement: &Statement,
    folds: bool,
    out: Outputs,
    test: Option<Expr>,
    keys: Vec<SortKey>,
    vars: Vec<Var>,
) -> Result<Found, TextErr>
    ensures { Gives spec.view_of (Ok (spec.found_of folds (sentence_of statement.now)
        (chosen_of out) (option_map expression_of test) keys.items vars.items)) result }
{
    let sorted = sort_ends(alloc, folds, out.ops.as_slice(), keys)?;
    let unique = statement.unique && !folds;
    let query = make_query(unique, out.plain, out.operands, test, sorted.keys, vars)?;
    Ok(Found {
        query,
        head: Sequence::from_vec(out.head),
        plan: sorted.plan,
        into: kept_name(alloc, &statement.into)?,
    })
}

fn checked(
    alloc: Global,
    headings: &[Heading],
    statement: &Statement,
    folds: bool,
    mut vars: Vec<Var>,
) -> Result<Found, TextErr>
    ensures { Gives spec.view_of
        (spec.to_end headings.now folds (sentence_of statement.now) vars.items) result }
{
    let limited = statement.into.is_some();
    let out = targets(
        alloc,
        headings,
        limited,
        &mut vars,
        statement.targets.items(),
    )?;
    let test = test(alloc, headings, &mut vars, &statement.test)?;
    let keys = keys(alloc, out.head.as_slice(), statement.keys.items())?;
    make_found(alloc, statement, folds, out, test, keys, vars)
}

/// A statement's query and the header of its answer, where its checks find no fault.
pub(crate) fn query(
    alloc: Global,
    headings: &[Heading],
    statement: &Statement,
) -> Result<Found, TextErr>
    ensures { Gives spec.view_of
        (spec.sentence_checked headings.now (sentence_of statement.now)) result }
{
    let folds = folds(statement);
    into_fault(headings, folds, &statement.into)?;
    let vars = ranges(alloc, headings, statement.ranges.items())?;
    checked(alloc, headings, statement, folds, vars)
}

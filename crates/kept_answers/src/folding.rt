//! The answers of a script's statements, some of which fold the rows that their queries mean.
ghost use Rattle.std.specs.Prelude.{◌≡◌, All, IfOk, IfSome, false, map};
ghost use Rattle.std.specs.List.{AllByRecursion};
ghost use Rattle.std.specs.Option.{option_map};
ghost use Rattle.aggregate_op.specs.Closing.{rows_in};
ghost use Rattle.aggregate_op.specs.FoldMeaning.{fold_meaning};
ghost use Rattle.aggregate_op.specs.Partials.{IsFoldRow};
ghost use Rattle.rows.specs.Values.{arranged};
ghost use Rattle.rel_meaning.specs.Expression.{question_of};
ghost use Rattle.rel_meaning.specs.Meaning.{IsTable};
ghost use Rattle.kept_answers.specs.FoldedAnswers.{AreAnswers, FitFolds, FoldQueries, folded};
ghost use Rattle.kept_answers.specs.FoldedAnswers.{folded_answers, plan_at, script_answers};
ghost use Rattle.kept_answers.specs.KeptAnswers.{FitKept, database_columns};

use crate::answering::{AnswerList, answer_script};
use aggregate_op::{Closed, FoldPlan, FoldTable, close_groups, partial};
use kept_relations::KeptList;
use lists::Sequence;
use rel_meaning::{Database, Query};
use rows::{Rows, SortKeyList, arrange_rows};
use std::alloc::{AllocError, Global};

/// The answers of all statements, or the first statement whose fold is too large.
#[derive(Debug, Drop)]
pub enum FoldedAnswers {
    Rows(AnswerList),
    TooLarge { statement: usize },
}

// The fold of a statement and the keys of its answer, if it has a fold.
fn plan_at(folds: &FoldTable, statement: usize) -> Option<&FoldPlan>
    ensures { option_map (λ plan. plan.now) result ≡ plan_at folds.now statement }
{
    match folds.items().get(statement) {
        Some(Some(plan)) => Some(plan),
        Some(None) | None => None,
    }
}

// Rows in the order of sort keys.
fn in_order(rows: Rows, keys: &SortKeyList) -> Result<Rows, AllocError>
    ensures { IfOk result (λ ordered. ordered ≡ arranged false keys.now rows) }
{
    let mut rows = rows.into_vec();
    arrange_rows(&mut rows, false, keys.items())?;
    Ok(Rows::from_vec(rows))
}

// What a fold answers of rows, in the order of its keys.
fn fold_rows(alloc: Global, rows: &Rows, plan: &FoldPlan) -> Result<Closed, AllocError>
    requires { AllByRecursion (IsFoldRow plan.now.fold) rows.now }
    ensures { IfOk result (λ closed.
        rows_in closed ≡ fold_meaning plan.now.fold plan.now.keys rows.now) }
{
    let groups = partial(alloc, rows, &plan.fold)?;
    match close_groups(alloc, &groups, &plan.fold)? {
        Closed::Rows(rows) => Ok(Closed::Rows(in_order(rows, &plan.keys)?)),
        Closed::TooLarge => Ok(Closed::TooLarge),
    }
}

// The answer of a statement by the rows that its query means.
fn answer_of(alloc: Global, rows: Rows, plan: Option<&FoldPlan>) -> Result<Closed, AllocError>
    requires { IfSome plan (λ plan. AllByRecursion (IsFoldRow plan.now.fold) rows) }
    ensures { IfOk result (λ closed.
        rows_in closed ≡ folded (option_map (λ plan. plan.now) plan.entry) rows) }
{
    match plan {
        Some(plan) => fold_rows(alloc, &rows, plan),
        None => Ok(Closed::Rows(rows)),
    }
}

/// The answer of each statement by the rows that its query means: those rows, or, where `folds`
/// has a fold for the statement, what the fold answers of them, in the order of its keys. The
/// statement is told, the first one, whose fold is too large. The rows of a statement with a fold
/// have the group values and then a value for each op, a number or null under `Sum`. An `Err` is
/// want of memory.
pub fn answer_folds(
    alloc: Global,
    answers: AnswerList,
    folds: &FoldTable,
) -> Result<FoldedAnswers, AllocError>
    requires { FitFolds folds.now answers }
    ensures { IfOk result (AreAnswers (folded_answers folds.now answers)) }
{
    let mut folded = Vec::with_capacity(alloc, answers.len())?;
    let mut left = answers.into_vec();
    left.reverse();
    while let Some(rows) = left.pop() {
        let statement = folded.len();
        match answer_of(alloc, rows, plan_at(folds, statement))? {
            Closed::Rows(rows) => folded.push(rows)?,
            Closed::TooLarge => return Ok(FoldedAnswers::TooLarge { statement }),
        }
    }
    Ok(FoldedAnswers::Rows(Sequence::from_vec(folded)))
}

/// The answers of a script: of each query its relational meaning, as `answer_script` gives it, or
/// what the fold of its statement answers of that, in the order of the fold's keys. The statement
/// is told, the first one, whose fold is too large. The targets of a query with a fold are the
/// group values and then a value for each op, an integer under `Sum`; what else is asked stands
/// at `answer_script`. An `Err` is want of memory.
pub fn answer_folded_script(
    alloc: Global,
    db: Database,
    queries: &Sequence<Query>,
    kept: &KeptList,
    folds: &FoldTable,
) -> Result<FoldedAnswers, AllocError>
    requires queries { FitKept (database_columns db) kept.now (map question_of queries.now) }
    requires tables { All IsTable db }
    requires folds { FoldQueries (database_columns db) kept.now folds.now
        (map question_of queries.now) }
    ensures { IfOk result (AreAnswers
        (script_answers db kept.now folds.now (map question_of queries.now))) }
{
    let answers = answer_script(alloc, db, queries, kept)?;
    answer_folds(alloc, answers, folds)
}

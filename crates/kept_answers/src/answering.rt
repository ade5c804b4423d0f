//! The answers of a script's statements in their order.
ghost use Rattle.std.specs.Prelude.{◌≡◌, All, IfOk, IfSome, OnOk, length, map};
ghost use Rattle.std.specs.Option.{option_map};
ghost use Rattle.rel_meaning.specs.Expression.{question_of};
ghost use Rattle.rel_meaning.specs.Meaning.{meaning, IsTable};
ghost use Rattle.kept_answers.specs.KeptAnswers.{answers_of, columns_behind, database_columns};
ghost use Rattle.kept_answers.specs.KeptAnswers.{kept_of, tables_behind, FitColumns, FitKept};
ghost use Rattle.kept_answers.specs.KeptAnswers.{FitQueries, FitsTargets, IsResolvedIn};

use crate::tables::{Relations, add_answer, relations_of};
use kept_relations::{Kept, KeptList};
use lists::Sequence;
use rel_meaning::{Database, Query, answer_over};
use rows::Rows;
use std::alloc::{AllocError, Global};

/// The rows of each query of a script, in their order.
pub type AnswerList = Sequence<Rows>;

// What a statement keeps.
fn kept_of<'a>(kept: &'a [Kept], statement: usize) -> Option<&'a Kept>
    ensures { option_map (λ k. k.now) result ≡ kept_of kept.now statement }
{
    let (first, others) = kept.split_first()?;
    if first.statement as usize == statement {
        Some(first)
    } else {
        kept_of(others, statement)
    }
}

// Adds the answer of a statement to the tables, where it is kept.
fn keep_answer(
    alloc: Global,
    relations: &mut Relations,
    kept: Option<&Kept>,
    rows: &Rows,
) -> Result<(), AllocError>
    requires { IfSome kept (λ k. length k.now.bounds ≡ length k.now.columns) }
    ensures tables { OnOk result (relations.new.tables
        ≡ tables_behind relations.old.tables (option_map (λ k. k.now) kept.entry) rows.now) }
    ensures columns { OnOk result (relations.new.columns.items
        ≡ columns_behind relations.old.columns.items (option_map (λ k. k.now) kept.entry)) }
{
    match kept {
        None => Ok(()),
        Some(kept) => add_answer(alloc, relations, kept, rows),
    }
}

// The answer of a statement over the tables so far. From then on it is one of them, if it is kept.
fn answer_next(
    alloc: Global,
    relations: &mut Relations,
    query: &Query,
    kept: Option<&Kept>,
) -> Result<Rows, AllocError>
    requires resolved { IsResolvedIn relations.old.columns.items (question_of query.now) }
    requires kept { IfSome kept (λ k.
        FitsTargets relations.old.columns.items (question_of query.now) k.now) }
    requires fit { FitColumns relations.old.columns.items relations.old.tables }
    ensures rows { IfOk result (λ rows.
        rows ≡ meaning relations.old.tables (question_of query.now)) }
    ensures tables { OnOk result (relations.new.tables
        ≡ tables_behind relations.old.tables (option_map (λ k. k.now) kept.entry)
        (meaning relations.old.tables (question_of query.now))) }
    ensures columns { OnOk result (relations.new.columns.items
        ≡ columns_behind relations.old.columns.items (option_map (λ k. k.now) kept.entry)) }
    ensures fit { OnOk result (FitColumns relations.new.columns.items relations.new.tables) }
{
    let rows = answer_over(
        alloc,
        &relations.tables,
        relations.columns.as_slice(),
        query,
    )?;
    keep_answer(alloc, relations, kept, &rows)?;
    Ok(rows)
}

// The answers of all statements.
fn answer_all(
    alloc: Global,
    relations: &mut Relations,
    queries: &[Query],
    kept: &[Kept],
) -> Result<Vec<Rows>, AllocError>
    requires queries { FitQueries relations.old.columns.items kept.now 0 (map question_of queries.now) }
    requires fit { FitColumns relations.old.columns.items relations.old.tables }
    ensures { IfOk result (λ answers.
        answers.items ≡ answers_of relations.old.tables kept.now (map question_of queries.now)) }
{
    let mut answers = Vec::new(alloc);
    for (statement, query) in queries.iter().enumerate() {
        answers.push(answer_next(alloc, relations, query, kept_of(kept, statement))?)?;
    }
    Ok(answers)
}

/// The rows of each query of a script: its relational meaning over the tables, and over the answers
/// that the statements before it keep, which stand behind the tables in the order of their
/// statements. The queries are resolved for these relations, and no fold counts. The kept relations
/// are of other statements each, in their order, and have a column for each target of their query,
/// with its type and bound. Each table's rows are of its columns. The tables are given up. An `Err` is
/// want of memory.
pub fn answer_script(
    alloc: Global,
    db: Database,
    queries: &Sequence<Query>,
    kept: &KeptList,
) -> Result<AnswerList, AllocError>
    requires queries { FitKept (database_columns db) kept.now (map question_of queries.now) }
    requires tables { All IsTable db }
    ensures { IfOk result (λ answers.
        answers ≡ answers_of db kept.now (map question_of queries.now)) }
{
    let mut relations = relations_of(alloc, db)?;
    let answers = answer_all(alloc, &mut relations, queries.items(), kept.items())?;
    Ok(Sequence::from_vec(answers))
}

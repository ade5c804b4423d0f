//! The queries of a script.

ghost use Rattle.std.specs.Prelude.{◌≡◌, ◌++◌, [], ◌∷◌, map, All, IfOk, OnOk};
ghost use Rattle.postquel.specs.Program.{program_of};
ghost use Rattle.postquel_tokens.specs.Forms.{sentence_of};
ghost use Rattle.rel_meaning.specs.Expression.{question_of};
ghost use Rattle.name_check.specs.Checked.{Gives};
ghost use Rattle.name_check.specs.Sentences as sentences;
ghost use Rattle.name_check.specs.Sentences.{HasNoFault};
ghost use Rattle.name_check.specs.Resolved.{Answerable, MayAskEach};
ghost use Rattle.name_check.specs.Steps as spec;
ghost use Rattle.name_check.specs.Whole.{found_of_script};

use crate::heading::{HeadColumn, Heading, copies};
use crate::statement::{Found, query};
use lists::{Duplicate, Sequence};
use postquel::Script;
use postquel_tokens::TextErr;
use rel_meaning::{Query, column_layout};
use rows::{Catalog, Column, Relation};
use std::alloc::{AllocError, Global};

/// The queries of a script, one for each statement.
pub type QueryList = Sequence<Query>;

fn head_columns(alloc: Global, columns: &[Column]) -> Result<Vec<HeadColumn>, AllocError>
    ensures { IfOk result (λ v. v.items ≡ map sentences.head_column columns.now) }
{
    let mut found = Vec::new(alloc);
    for column in columns {
        found.push(HeadColumn {
            name: column.name.duplicate(alloc)?,
            layout: column_layout(column),
        })?;
    }
    Ok(found)
}

fn headings(alloc: Global, catalog: &[Relation]) -> Result<Vec<Heading>, AllocError>
    ensures { IfOk result (λ v. v.items ≡ map sentences.heading_of catalog.now) }
{
    let mut found = Vec::new(alloc);
    for relation in catalog {
        found.push(Heading {
            name: relation.name.duplicate(alloc)?,
            columns: Sequence::from_vec(head_columns(alloc, relation.columns.items())?),
        })?;
    }
    Ok(found)
}

// Adds the relation that a statement keeps.
fn keep(alloc: Global, headings: &mut Vec<Heading>, found: &Found) -> Result<(), AllocError>
    ensures { OnOk result (headings.new.items
        ≡ headings.old.items ++ spec.kept_by found.now.head found.now.into) }
{
    if let Some(name) = &found.into {
        headings.push(Heading {
            name: name.duplicate(alloc)?,
            columns: copies(alloc, found.head.items())?,
        })?;
    }
    Ok(())
}

// What the statements of a script are, behind these relations.
fn found_behind(
    alloc: Global,
    script: &Script,
    headings: &mut Vec<Heading>,
) -> Result<Vec<Found>, TextErr>
    ensures { Gives (λ v. map spec.view_of v.items) (spec.script_checked headings.old.items []
        (map sentence_of script.now.statements)) result }
{
    let mut all = Vec::new(alloc);
    for place in 0..script.len() {
        let found = query(alloc, headings.as_slice(), script.get(place))?;
        keep(alloc, headings, &found)?;
        all.push(found)?;
    }
    Ok(all)
}

/// What the statements of a script are, or its first fault.
#[tactic(auto, using(crate::proofs::Resolved::resolves))]
pub(crate) fn found_in(
    alloc: Global,
    script: &Script,
    catalog: &Catalog,
) -> Result<Vec<Found>, TextErr>
    requires { All sentences.HasNumbers (program_of script.now).sentences }
    ensures { Gives (λ v. map spec.view_of v.items)
        (found_of_script catalog.now (program_of script.now).sentences) result }
{
    let mut headings = headings(alloc, catalog.items())?;
    found_behind(alloc, script, &mut headings)
}

fn queries_of(alloc: Global, found: Vec<Found>) -> Result<Vec<Query>, AllocError>
    ensures { IfOk result (λ v. map question_of v.items
        ≡ map spec.question_by (map spec.view_of found.items)) }
{
    let mut queries = Vec::new(alloc);
    for one in found {
        queries.push(one.query)?;
    }
    Ok(queries)
}

#[tactic(auto, using(crate::proofs::Each::gives_questions, crate::proofs::Each::fault_stays, crate::proofs::Each::found_may))]
fn queries(alloc: Global, script: &Script, catalog: &Catalog) -> Result<QueryList, TextErr>
    requires { All sentences.HasNumbers (program_of script.now).sentences }
    ensures value { Gives (λ queries. map question_of queries)
        (sentences.queries_of (map sentences.heading_of catalog.now)
        (program_of script.now).sentences) result }
    ensures may_be_asked { OnOk result (MayAskEach (map sentences.heading_of catalog.now)
        (program_of script.now).sentences) }
{
    let found = found_in(alloc, script, catalog)?;
    Ok(Sequence::from_vec(queries_of(alloc, found)?))
}

/// The queries of a script over a catalogue, one for each statement, or its first fault with its
/// place.
///
/// Statements are checked in order, and in each: `into`, the ranges, the targets, the test, the
/// keys; in an expression the operands come left to right before their operator. `FoldInto` stands
/// at `into` beside a fold, `DoubleRelation` at a name after `into` that is taken, `TooManyRanges`
/// at the seventh range variable, `DoubleRange` at a variable that `from` names again, `NoRelation`
/// at an unknown relation after `in`, `NoRange` at a dotted name's variable that is neither declared
/// nor a relation, `NoColumn` at a column that its relation lacks, `TypeMismatch` at an operator, a
/// `where` or a `sum` that can't take its operands, `TooWide` at an operator whose bound exceeds
/// 2^63 - 1, `DoubleTarget` at a target one of whose names is taken, `TooManyColumns` at the target
/// that brings a kept relation above 32 columns, `NoSortTarget` at a key that is no target. Else an
/// `Err` is want of memory.
///
/// A statement with a fold gives its inner query: the targets that are no folds, then the operands.
/// A relation's number is its place in the catalogue, and behind the catalogue come the relations
/// that earlier statements keep. A script that was read from a text has such numbers: `numbers_fit`
/// says so. Where there is no fault, `folds_of`, `headers_of` and `kept_of` may be asked.
#[tactic(auto, using(crate::proofs::Answered::if_answerable))]
pub fn resolve(alloc: Global, script: &Script, catalog: &Catalog) -> Result<QueryList, TextErr>
    requires { All sentences.HasNumbers (program_of script.now).sentences }
    ensures value { Gives (λ queries. map question_of queries)
        (sentences.queries_of (map sentences.heading_of catalog.now)
        (program_of script.now).sentences) result }
    ensures may_be_asked { OnOk result (MayAskEach (map sentences.heading_of catalog.now)
        (program_of script.now).sentences) }
    ensures faultless { OnOk result (HasNoFault catalog.now (program_of script.now).sentences) }
    ensures answerable { IfOk result (λ queries.
        Answerable catalog.now (program_of script.now).sentences queries) }
{
    queries(alloc, script, catalog)
}

//! The folds of a script's statements, the relations that they keep, and the headers of their
//! answers.

ghost use Rattle.std.specs.Prelude.{◌≡◌, ◌++◌, [], All, IfOk, OnOk, map};
ghost use Rattle.postquel.specs.Program.{program_of};
ghost use Rattle.name_check.specs.FoldFit.{FoldsFit, KeptFits};
ghost use Rattle.name_check.specs.Folds.{plans_of};
ghost use Rattle.name_check.specs.Headers.{headers_of, kept_as, kept_column, kept_of};
ghost use Rattle.name_check.specs.Listed as spec;
ghost use Rattle.name_check.specs.Sentences.{HasNoFault, HasNumbers, heading_of};
ghost use Rattle.name_check.specs.Steps.{view_of};
ghost use Rattle.name_check.specs.Whole.{asked_in};

use crate::heading::{HeadColumn, number};
use crate::script::found_in;
use crate::statement::Found;
use aggregate_op::{FoldPlan, FoldTable};
use kept_relations::{BoundNumberList, Kept, KeptList, NoMemory};
use lists::{Duplicate, Sequence};
use postquel::Script;
use rows::{Catalog, Column, ColumnList, Text};
use std::alloc::{AllocError, Global};

/// The names of the columns of an answer.
pub type Header = Sequence<Text>;

/// The headers of a script's answers, one for each statement.
pub type HeaderList = Sequence<Header>;

// What the statements of a script without a fault are.
#[tactic(auto, using(crate::proofs::Each::ok_parts))]
fn found_each(alloc: Global, script: &Script, catalog: &Catalog) -> Result<Vec<Found>, NoMemory>
    requires numbers { All HasNumbers (program_of script.now).sentences }
    requires faultless { HasNoFault catalog.now (program_of script.now).sentences }
    ensures { IfOk result (λ v. map view_of v.items
        ≡ asked_in (map heading_of catalog.now) (program_of script.now).sentences) }
{
    match found_in(alloc, script, catalog) {
        Ok(found) => Ok(found),
        Err(_) => Err(AllocError),
    }
}

fn plans(alloc: Global, found: Vec<Found>) -> Result<Vec<Option<FoldPlan>>, NoMemory>
    ensures { IfOk result (λ v. v.items ≡ map spec.plan_by (map view_of found.items)) }
{
    let mut plans = Vec::new(alloc);
    for one in found {
        plans.push(one.plan)?;
    }
    Ok(plans)
}

/// For each statement of a script its fold and the sort keys of its answer, and `None` where it has
/// no fold. The groups are the columns that are no folds; the ops stand in the order of the fold
/// targets; the places and the keys' columns are those of the answer. The folds fit the queries
/// that `resolve` gives, which finds no fault in such a script.
#[tactic(auto, using(crate::proofs::Listed::each_plan, crate::proofs::FoldFit::fits_folds))]
pub fn folds_of(alloc: Global, script: &Script, catalog: &Catalog) -> Result<FoldTable, NoMemory>
    requires numbers { All HasNumbers (program_of script.now).sentences }
    requires faultless { HasNoFault catalog.now (program_of script.now).sentences }
    ensures value { IfOk result (λ table. table
        ≡ plans_of catalog.now (program_of script.now).sentences) }
    ensures fits { IfOk result (λ table.
        FoldsFit catalog.now (program_of script.now).sentences table) }
{
    let found = found_each(alloc, script, catalog)?;
    Ok(Sequence::from_vec(plans(alloc, found)?))
}

fn header(alloc: Global, columns: &[HeadColumn]) -> Result<Header, NoMemory>
    ensures { IfOk result (λ names. names ≡ map (λ c. c.name) columns.now) }
{
    let mut names = Vec::new(alloc);
    for column in columns {
        names.push(column.name.duplicate(alloc)?)?;
    }
    Ok(Sequence::from_vec(names))
}

fn headers(alloc: Global, found: &[Found]) -> Result<Vec<Header>, NoMemory>
    ensures { IfOk result (λ v. v.items ≡ map spec.header_by (map view_of found.now)) }
{
    let mut headers = Vec::new(alloc);
    for one in found {
        headers.push(header(alloc, one.head.items())?)?;
    }
    Ok(headers)
}

/// For each statement of a script the names of its targets in their order, folds among them;
/// `v.all` gives the name of each column of `v`. `resolve` finds no fault in such a script.
#[tactic(auto, using(crate::proofs::Listed::each_header))]
pub fn headers_of(alloc: Global, script: &Script, catalog: &Catalog) -> Result<HeaderList, NoMemory>
    requires numbers { All HasNumbers (program_of script.now).sentences }
    requires faultless { HasNoFault catalog.now (program_of script.now).sentences }
    ensures { IfOk result (λ headers. headers
        ≡ headers_of catalog.now (program_of script.now).sentences) }
{
    let found = found_each(alloc, script, catalog)?;
    Ok(Sequence::from_vec(headers(alloc, found.as_slice())?))
}

fn kept_columns(alloc: Global, head: &[HeadColumn]) -> Result<ColumnList, NoMemory>
    ensures { IfOk result (λ columns. columns ≡ map kept_column head.now) }
{
    let mut columns = Vec::new(alloc);
    for column in head {
        columns.push(Column {
            name: column.name.duplicate(alloc)?,
            col_type: column.layout.col_type,
            nullable: true,
        })?;
    }
    Ok(Sequence::from_vec(columns))
}

fn kept_bounds(alloc: Global, head: &[HeadColumn]) -> Result<BoundNumberList, NoMemory>
    ensures { IfOk result (λ bounds. bounds ≡ map (λ c. c.layout.bound) head.now) }
{
    let mut bounds = Vec::new(alloc);
    for column in head {
        bounds.push(column.layout.bound)?;
    }
    Ok(Sequence::from_vec(bounds))
}

fn kept(alloc: Global, name: &Text, statement: usize, head: &[HeadColumn]) -> Result<Kept, NoMemory>
    ensures { IfOk result (λ kept. kept ≡ spec.kept_named head.now statement name.now) }
{
    let Ok(statement) = number(statement) else {
        return Err(AllocError);
    };
    let columns = kept_columns(alloc, head)?;
    let bounds = kept_bounds(alloc, head)?;
    Ok(Kept {
        name: name.duplicate(alloc)?,
        statement,
        columns,
        bounds,
    })
}

// Adds what a statement keeps.
fn keep_found(
    alloc: Global,
    list: &mut KeptList,
    statement: usize,
    found: &Found,
) -> Result<(), NoMemory>
    requires { spec.IsNew list.old found.now.into }
    ensures { OnOk result (list.new
        ≡ list.old ++ kept_as found.now.head statement found.now.into) }
{
    let Some(name) = &found.into else {
        return Ok(());
    };
    list.keep(kept(alloc, name, statement, found.head.items())?)
}

fn kept_each(alloc: Global, found: &[Found]) -> Result<KeptList, NoMemory>
    requires { spec.AreNew [] 0 (map view_of found.now) }
    ensures { IfOk result (λ list. list ≡ spec.kept_by 0 (map view_of found.now)) }
{
    let mut list = KeptList::new(alloc);
    for (statement, one) in found.iter().enumerate() {
        keep_found(alloc, &mut list, statement, one)?;
    }
    Ok(list)
}

/// The relations that the statements of a script keep, in their order: the name after `into`, the
/// number of the statement, and for each target a nullable column of its name and type with the
/// bound of its expression, 0 where it is no integer. They fit the queries that `resolve` gives.
/// It finds no fault in such a script.
#[tactic(auto, using(crate::proofs::Listed::each_kept, crate::proofs::New::all_new_first, crate::proofs::KeptFit::fits_kept))]
pub fn kept_of(alloc: Global, script: &Script, catalog: &Catalog) -> Result<KeptList, NoMemory>
    requires numbers { All HasNumbers (program_of script.now).sentences }
    requires faultless { HasNoFault catalog.now (program_of script.now).sentences }
    ensures value { IfOk result (λ kept. kept
        ≡ kept_of catalog.now (program_of script.now).sentences) }
    ensures fits { IfOk result (λ kept.
        KeptFits catalog.now (program_of script.now).sentences kept) }
{
    let found = found_each(alloc, script, catalog)?;
    kept_each(alloc, found.as_slice())
}

//! The fold of a statement, by the ops of its answer's columns.

ghost use Rattle.std.specs.Prelude.{◌≡◌, [], IfOk};
ghost use Rattle.postquel_tokens.specs.Forms.{wish_of};
ghost use Rattle.name_check.specs.Checked.{Gives};
ghost use Rattle.name_check.specs.FoldSteps as spec;
ghost use Rattle.name_check.specs.Folds.{fold_of, op_named, op_of};

use crate::heading::number;
use aggregate_op::{Fold, FoldOp, FoldPlace};
use lists::Sequence;
use postquel_tokens::{TargetForm, TextErr};
use std::alloc::Global;

fn op_named(name: &[u8]) -> FoldOp
    ensures { result ≡ op_named name.now }
{
    if name == b"count".as_slice() {
        FoldOp::Count
    } else if name == b"sum".as_slice() {
        FoldOp::Sum
    } else if name == b"min".as_slice() {
        FoldOp::Min
    } else {
        FoldOp::Max
    }
}

/// The op that a target is, and `None` where it is no fold.
pub(crate) fn op_of(target: &TargetForm) -> Option<FoldOp>
    ensures { result ≡ op_of (wish_of target.now) }
{
    if let TargetForm::Fold {
        name: _,
        fold,
        form: _,
    } = target
    {
        Some(op_named(fold.text.items()))
    } else {
        None
    }
}

/// A fold of the columns so far.
#[derive(Drop)]
pub(crate) struct Folding {
    pub groups: u32,
    pub ops: Vec<FoldOp>,
    pub places: Vec<FoldPlace>,
}

// One more group value.
fn add_group(folding: &mut Folding) -> Result<(), TextErr>
    ensures { Gives (λ u. spec.fold_by folding.new)
        (Ok (spec.with_column (spec.fold_by folding.old) None)) result }
{
    if folding.groups == u32::MAX {
        return Err(TextErr::NoMemory);
    }
    folding.places.push(FoldPlace::Group(folding.groups))?;
    folding.groups += 1;
    Ok(())
}

// One more op.
fn add_op(folding: &mut Folding, op: FoldOp) -> Result<(), TextErr>
    ensures { Gives (λ u. spec.fold_by folding.new)
        (Ok (spec.with_column (spec.fold_by folding.old) (Some op))) result }
{
    let place = number(folding.ops.len())?;
    folding.places.push(FoldPlace::Op(place))?;
    folding.ops.push(op)?;
    Ok(())
}

fn add_column(folding: &mut Folding, op: Option<FoldOp>) -> Result<(), TextErr>
    ensures { Gives (λ u. spec.fold_by folding.new)
        (Ok (spec.with_column (spec.fold_by folding.old) op)) result }
{
    match op {
        None => add_group(folding),
        Some(op) => add_op(folding, op),
    }
}

fn all_columns(alloc: Global, columns: &[Option<FoldOp>]) -> Result<Folding, TextErr>
    ensures { Gives spec.fold_by (Ok (spec.with_columns spec.no_fold columns.now)) result }
{
    let mut folding = Folding {
        groups: 0,
        ops: Vec::new(alloc),
        places: Vec::new(alloc),
    };
    for column in columns {
        add_column(&mut folding, *column)?;
    }
    Ok(folding)
}

/// The fold of columns, each with its op or none where it is a group value.
#[tactic(auto, using(crate::proofs::Folds::folds_all))]
pub(crate) fn fold(alloc: Global, columns: &[Option<FoldOp>]) -> Result<Fold, TextErr>
    ensures { Gives (λ f. f) (Ok (fold_of columns.now)) result }
{
    let folding = all_columns(alloc, columns)?;
    Ok(Fold {
        groups: folding.groups,
        ops: Sequence::from_vec(folding.ops),
        places: Sequence::from_vec(folding.places),
    })
}

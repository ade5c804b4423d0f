//! Fragments whose answers are folded.
ghost use Rattle.std.specs.Prelude.{◌≡◌, IfOk, map};
ghost use Rattle.plan_tree.specs.Pieces.{piece_of, pieces_of};
ghost use Rattle.plan_tree.specs.Fragments.{Stored, values_of};
ghost use Rattle.plan_tree.specs.WellFormed.{AreWellFormed};
ghost use Rattle.fragments.specs.Folds.{MayBeFolded, fold_at, folded, folded_values, is_answer};

use crate::NoMemory;
use aggregate_op::{Fold, FoldTable};
use lists::Sequence;
use plan_tree::{End, Fragment, FragmentList};
use std::alloc::Global;

// A copy of the fold of a statement, if it has one.
fn fold_of(alloc: Global, folds: &FoldTable, statement: u32) -> Result<Option<Fold>, NoMemory>
    ensures { IfOk result (λ fold. fold ≡ fold_at folds.now statement) }
{
    match folds.items().get(statement as usize) {
        Some(Some(plan)) => Ok(Some(Fold {
            groups: plan.fold.groups,
            ops: plan.fold.ops.copy(alloc)?,
            places: plan.fold.places.copy(alloc)?,
        })),
        Some(None) | None => Ok(None),
    }
}

fn is_answer(end: &End) -> bool
    ensures { result ≡ is_answer end.now }
{
    match end {
        End::Answer { .. } => true,
        End::Build { .. } | End::Fold { .. } | End::Sort { .. } => false,
    }
}

// A fragment that ends with an answer, with a fold in its place.
#[tactic(auto, using(crate::proofs::FoldedEnds::is_answered, crate::proofs::FoldedEnds::not_folded, crate::proofs::FoldedEnds::without_fold, crate::proofs::FoldedEnds::with_its_fold))]
fn with_fold(alloc: Global, fragment: Fragment, folds: &FoldTable) -> Result<Fragment, NoMemory>
    ensures { IfOk result (λ f. piece_of f ≡ folded folds.now (piece_of fragment)) }
{
    if !is_answer(&fragment.end) {
        return Ok(fragment);
    }
    match fold_of(alloc, folds, fragment.statement)? {
        Some(fold) => Ok(fragment.with_fold(fold)),
        None => Ok(fragment),
    }
}

// The same fragments, with the answers of statements with folds folded.
fn fold_each(
    alloc: Global,
    fragments: FragmentList,
    folds: &FoldTable,
) -> Result<FragmentList, NoMemory>
    ensures { IfOk result (λ more. pieces_of more ≡ map (folded folds.now) (pieces_of fragments)) }
{
    let mut more = Vec::new(alloc);
    for fragment in fragments.into_vec() {
        more.push(with_fold(alloc, fragment, folds)?)?;
    }
    Ok(Sequence::from_vec(more))
}

/// The same fragments, but that the answers of statements with folds are folded: each such fragment
/// ends with the fold of its statement over the targets that it had. `folds` has an entry for each
/// statement. Where the folds fit the answers and no fragment reads an answer that is folded, the
/// fragments are well formed if they were, and over all stored files the value of such a fragment is
/// the partial of what it was, and those of the others stay. An `Err` is want of memory.
#[tactic(auto, using(crate::proofs::FoldedFormed::still_formed, crate::proofs::FoldedValues::values_by_folds))]
pub fn with_folds(
    alloc: Global,
    fragments: FragmentList,
    folds: &FoldTable,
) -> Result<FragmentList, NoMemory>
    ensures ends { IfOk result (λ more. pieces_of more ≡ map (folded folds.now) (pieces_of fragments)) }
    ensures formed { AreWellFormed (pieces_of fragments) → MayBeFolded folds.now (pieces_of fragments) →
        IfOk result (λ more. AreWellFormed (pieces_of more)) }
    ensures values { MayBeFolded folds.now (pieces_of fragments) → IfOk result (λ more. (stored : Stored) →
        values_of stored (pieces_of more)
        ≡ folded_values folds.now (pieces_of fragments) (values_of stored (pieces_of fragments))) }
{
    fold_each(alloc, fragments, folds)
}

use lists::{Duplicate, Sequence};
use rows::SortKeyList;
use std::alloc::{AllocError, Global};

/// What is taken of a group's values. No op takes account of null.
#[derive(Clone, Copy, Debug, PartialEq, Eq)]
pub enum FoldOp {
    Count,
    Min,
    Max,
    Sum,
}

pub type FoldOpList = Sequence<FoldOp>;

/// What a column of the answer shows: a group value or an op, both counted from 0.
#[derive(Clone, Copy, Debug, PartialEq, Eq)]
pub enum FoldPlace {
    Group(u32),
    Op(u32),
}

pub type FoldPlaceList = Sequence<FoldPlace>;

/// A fold of rows whose first `groups` values are the group values. One value for each op follows.
/// `places` tells the columns of the answer.
#[derive(Debug, Drop)]
pub struct Fold {
    pub groups: u32,
    pub ops: FoldOpList,
    pub places: FoldPlaceList,
}

/// A statement's fold, and the sort keys of its answer, whose columns are those of the answer.
#[derive(Debug, Drop)]
pub struct FoldPlan {
    pub fold: Fold,
    pub keys: SortKeyList,
}

/// For each statement of a script its fold, if it has one.
pub type FoldTable = Sequence<Option<FoldPlan>>;

impl Duplicate for FoldOp {
    fn duplicate(&self, _alloc: Global) -> Result<FoldOp, AllocError> {
        Ok(*self)
    }
}

impl Duplicate for FoldPlace {
    fn duplicate(&self, _alloc: Global) -> Result<FoldPlace, AllocError> {
        Ok(*self)
    }
}

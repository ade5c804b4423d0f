use lists::{Duplicate, Sequence};
use rows::Interval;
use std::alloc::{AllocError, Global};

/// What is known of the relation of a range variable: the pages of its heap file, its rows, the height of its index, 0
/// where it has none, and the entries of the index that the bounds on its column leave, where there are an index and
/// bounds.
#[derive(Clone, Copy, Debug, PartialEq, Eq, Drop)]
pub struct VarStats {
    pub pages: u64,
    pub rows: u64,
    pub interval: Option<Interval>,
    pub height: u32,
}

impl Duplicate for VarStats {
    fn duplicate(&self, _alloc: Global) -> Result<VarStats, AllocError> {
        Ok(*self)
    }
}

/// One entry for each range variable of a query, in their order.
pub type VarStatsList = Sequence<VarStats>;

/// The stats of several queries, in their order.
pub type VarStatsTable = Sequence<VarStatsList>;

use lists::Sequence;
use rel_meaning::{Expr, Query};
use rows::{Interval, KeyPairList};

/// Expressions in order.
pub type ExprList = Sequence<Expr>;

/// How a variable's rows are read: the whole heap file, or the rows of an interval of its index's entries.
#[derive(Clone, Copy, Debug, PartialEq, Eq)]
pub enum Way {
    Heap,
    Index(Interval),
}

/// A tree of scans and joins. A key pair names a column of the build side and one of the probe side; that of a `Merge`
/// one of the left side as `build` and one of the right side as `probe`.
#[derive(Drop)]
pub enum Tree {
    /// The one empty row, where its tests are true.
    One {
        tests: ExprList,
    },
    /// The rows of a variable for which all tests are true.
    Scan {
        var: u32,
        way: Way,
        tests: ExprList,
    },
    /// The rows of the probe side, each with those of the build side that have its keys, where the tests are true.
    Join {
        build: Box<Tree>,
        probe: Box<Tree>,
        keys: KeyPairList,
        tests: ExprList,
    },
    /// The same rows, found by merging both sides in order of their keys.
    Merge {
        left: Box<Tree>,
        right: Box<Tree>,
        keys: KeyPairList,
        tests: ExprList,
    },
}

/// How joins with a key pair are done.
#[derive(Clone, Copy, Debug, PartialEq, Eq)]
pub enum Method {
    Hash,
    Merge,
}

/// A statement's query, the tree that answers it, and the tree's cost.
#[derive(Drop)]
pub struct Plan {
    pub query: Query,
    pub tree: Tree,
    pub cost: u64,
}

/// The plans of a script's statements, in order.
pub type PlanList = Sequence<Plan>;

//! Folds of groups of rows: which they are. A fold counts, adds up or takes the least or the
//! greatest of values, group by group.
#![tactic(auto)]

mod closing;
mod fold;
mod groups;
mod known;
mod merging;
mod partials;
mod parts;
mod runs;
#[cfg(test)]
mod tests;

pub use closing::{Closed, close_groups};
pub use fold::{Fold, FoldOp, FoldOpList, FoldPlace, FoldPlaceList, FoldPlan, FoldTable};
pub use partials::{merge, merge_all, partial};

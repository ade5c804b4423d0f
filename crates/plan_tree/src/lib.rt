//! Plans: the tree of a query, and the fragments that it is cut into.
#![tactic(auto)]

mod copying;
mod explain;
mod fragment;
mod laws;
#[cfg(test)]
mod tests;
mod tree;

pub use copying::{copy_expr, copy_exprs, copy_plain, copy_query, copy_targets};
pub use explain::explain_text;
pub use fragment::{End, Fragment, FragmentList, Pipe, Probe, ProbeList, Source};
pub use laws::{end_laws, index_laws, input_laws, position_laws, shape_laws, tree_laws};
pub use tree::{ExprList, Method, Plan, PlanList, Tree, Way};

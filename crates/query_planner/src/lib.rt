//! The plans of queries over tables that stand on drives.
#![tactic(auto)]

mod counting;
mod indexing;
mod known;
mod laws;
mod planning;
#[cfg(test)]
mod tests;

pub use indexing::laid_indexes;
pub use laws::{bound_laws, one_plan_list, plan_laws};
pub use planning::{Planned, PlansAndStats, plan_queries};

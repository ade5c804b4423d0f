//! The plan of a query: estimates, costs, and the tree that costs least.
#![tactic(auto)]

mod bounds;
mod conjuncts;
mod costs;
mod estimates;
mod keys;
mod laws;
mod naming;
mod optimising;
mod placing;
#[cfg(test)]
mod plain;
mod stats;
mod table;
#[cfg(test)]
mod tests;

pub use bounds::bounds_of;
pub use costs::{cost, estimate, estimate_of};
pub use laws::one_plan;
pub use optimising::optimise;
pub use stats::{VarStats, VarStatsList, VarStatsTable};

/// No memory is left.
pub type NoMemory = std::alloc::AllocError;

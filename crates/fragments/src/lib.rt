//! The fragments that the plans of a script are cut into.
#![tactic(auto)]

mod cutting;
mod folding;
mod joins;
mod known;
mod laws;
mod layouts;
mod scans;
mod time;
mod tree;

pub use cutting::cut;
pub use folding::with_folds;
pub use laws::fold_laws;

/// No memory is left.
pub type NoMemory = std::alloc::AllocError;

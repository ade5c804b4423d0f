//! The relations that statements of a script keep for those behind them.
#![tactic(auto)]

mod kept;
mod kept_list;
#[cfg(test)]
mod tests;

pub use kept::{BoundNumberList, Kept, kept_layout};
pub use kept_list::KeptList;

/// No memory is left.
pub type NoMemory = std::alloc::AllocError;

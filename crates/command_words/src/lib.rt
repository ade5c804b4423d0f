//! The words of a command: what a run is asked for.
#![tactic(auto)]

mod command;
mod number;
mod options;
mod reading;
mod request;
#[cfg(test)]
mod tests;

pub use reading::read_words;
pub use request::{FileNames, Generation, Job, JoinMethod, Machine, Plans, Request};

/// No memory is left.
pub type NoMemory = std::alloc::AllocError;

//! Runs a control to its end.
#![tactic(auto)]

mod lone;

pub use lone::{Todo, finish_fragment, next_alone, settle_alone};

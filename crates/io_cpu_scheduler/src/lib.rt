//! Which fragments run, and with how many backends each.
//!
//! A load is bound by input and output where the drives can't serve it on all backends, and by the
//! processors where they can. Two loads of different classes run side by side, with the backends
//! shared so that the drives come closest to full use. No call takes memory.
#![tactic(auto)]

mod choice;
mod degree;
mod extreme;
mod load;
mod steps;
#[cfg(test)]
mod tests;

pub use choice::{decide, decide_loads};
pub use degree::{balance, class_of, solo};
pub use load::{Class, Decision, Load, LoadList, Part};
pub use steps::machine_after;

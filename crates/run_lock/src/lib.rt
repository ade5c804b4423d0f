//! A lock round one value that has a name and keeps a log.
//!
//! Threads take the value by turns. Each thread holds a [`Pass`], which says how long the log was
//! when the thread last saw it. Whoever takes the lock finds a value that fits the lock's name, and
//! whose log is at least that long. A value is put back only where its log begins with the log that
//! it had when it was taken.
#![tactic(auto)]

mod lock;
mod named;
mod rule;
#[cfg(test)]
mod tests;

pub use lock::{Held, Pass, RunLock};
pub use named::Named;

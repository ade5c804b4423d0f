//! The division of a scan's entries by intervals.
#![tactic(auto)]

mod entry_intervals;
mod share;
#[cfg(test)]
mod tests;

pub use entry_intervals::EntryIntervals;

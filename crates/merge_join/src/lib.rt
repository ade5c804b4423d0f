//! Two tables in the order of their keys, merged slice by slice.
#![tactic(auto)]

mod combining;
mod key;
mod layouts;
mod merging;
mod search;
mod slices;
#[cfg(test)]
mod tests;

pub use layouts::merged_layout;
pub use merging::merge_slice;

//! Indexes: their pages, what stands on them, and searches from the root to a leaf.
#![tactic(auto)]

mod aim;
mod descent;
mod entry_order;
mod fixed;
mod index_page;
mod key;
mod laws;
mod level;
mod look;
mod node;
mod page_entry;
mod plan;
mod reading;
mod scan;
mod search;
#[cfg(test)]
mod tests;
mod writing;

pub use entry_order::{are_entries, compare_entries};
pub use laws::{index_laws, page_laws};
pub use plan::plan_index;
pub use search::{entry, interval, rank_high, rank_low};
pub use writing::write_index;

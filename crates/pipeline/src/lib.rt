//! What one position of a fragment gives: from the pages of a source and the values of earlier fragments to rows.
#![tactic(auto)]

mod adding;
mod chain;
mod combining;
mod end;
mod entries;
mod finishing;
mod heap;
mod laws;
mod page_scan;
mod position;
mod probe;
mod projecting;
mod row_testing;
#[cfg(test)]
mod sample_pages;
#[cfg(test)]
mod samples;
mod testing;
#[cfg(test)]
mod tests;

pub use end::end_value;
pub use laws::{image_laws, kept_laws};
pub use position::run_position;
pub use testing::meets;

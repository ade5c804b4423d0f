//! The positions of one scan divided among roles: what a division is (`Division`), and the division by pages
//! (`PageStride`).
#![tactic(auto)]

mod batch;
mod division;
mod page_stride;
mod stride;
pub mod table;

pub use batch::Batch;
pub use division::{Division, is_idle};
pub use page_stride::PageStride;

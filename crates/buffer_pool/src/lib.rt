//! Pages of files on drives, of which those used last are kept in memory.
#![tactic(auto)]

mod cache;
mod lone;
mod mounted;
mod named;
mod opening;
mod place;
mod reading;
mod seat;
mod shard;
mod shared;
mod source;
#[cfg(test)]
mod tests;
mod turn;

pub use lone::LonePool;
pub use mounted::Mounted;
pub use seat::PoolSeat;
pub use shard::Shard;
pub use shared::SharedPool;
pub use source::PoolSource;

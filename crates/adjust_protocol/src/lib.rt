//! One scan with its roles, its pending degree and its outputs, and the events that its calls stand for.
#![tactic(auto)]

mod answers;
mod board;
mod outputs;
#[cfg(test)]
mod random_walks;
#[cfg(test)]
mod tests;
mod turns;
mod walks;

pub use answers::{Asked, Claimed, Seated, Settled};
pub use board::Board;
pub use outputs::ArcList;

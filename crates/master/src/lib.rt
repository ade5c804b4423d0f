//! The control of a run: its fragments with their boards, and the history of what was decided and done.
#![tactic(auto)]

mod answers;
mod control;
mod decide;
mod next;
mod places;
mod release;
mod room;
#[cfg(test)]
mod sample_runs;
#[cfg(test)]
mod samples;
mod slot;
mod start;
#[cfg(test)]
mod tests;

pub use answers::History;
pub use control::{Control, RunName};
pub use next::Next;

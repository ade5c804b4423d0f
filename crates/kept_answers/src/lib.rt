//! The answers of the statements of a script, each over the tables and over what earlier
//! statements keep.
#![tactic(auto)]

mod answering;
mod folding;
mod stats;
mod tables;
#[cfg(test)]
mod tests;

pub use answering::{AnswerList, answer_script};
pub use folding::{FoldedAnswers, answer_folded_script, answer_folds};
pub use stats::kept_stats;

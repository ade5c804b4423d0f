//! Two generated tables of any size, with a catalogue and a script over them.
#![tactic(auto)]

mod draws;
mod tables;
#[cfg(test)]
mod tests;

pub use tables::{GenInput, gen_input};

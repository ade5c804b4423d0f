//! The text that shows what a run decided, and how its scans were divided anew.
#![tactic(auto)]

#[cfg(test)]
mod tests;
mod trace;

pub use trace::trace_text;

//! Reads catalogues and tables.
#![tactic(auto)]

mod catalog;
mod checks;
mod fault;
mod form;
mod machine;
mod records;
mod table;
#[cfg(test)]
mod tests;
mod words;

pub use catalog::{one_catalog, read_catalog};
pub use fault::{LoadErr, TableWhat};
pub use table::load_table;

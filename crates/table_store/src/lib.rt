//! Tables on striped drives: their files, their pages, and their rows read back.
#![tactic(auto)]

mod database;
mod database_reading;
mod entries;
mod files;
mod page_rows;
mod reading;
mod row_buffer;
#[cfg(test)]
mod tests;
mod writing;

pub use database::{Laid, lay_database};
pub use database_reading::read_database;
pub use files::{StoredIndex, StoredTable, file_map, heap_file_number, items_of};
pub use reading::read_table;
pub use writing::write_tables;

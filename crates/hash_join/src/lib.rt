//! Tables of rows that are looked up by their keys, for joins, and answers in their order.
#![tactic(auto)]

mod buckets;
mod hash;
mod index;
mod key;
mod laws;
mod making;
mod parts;
mod table;
#[cfg(test)]
mod tests;

pub use laws::match_laws;
pub use making::{arrange, build};
pub use parts::Parts;
pub use table::{Built, BuiltList, Inputs, RowPlace};

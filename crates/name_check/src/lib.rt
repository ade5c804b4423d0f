//! The checks of a script: its names, types and bounds, its machine line, and the queries that its
//! statements are, with their folds, headers and kept relations.
#![tactic(auto)]

mod building;
mod checking;
mod columns;
mod folding;
mod heading;
mod listing;
mod machine;
mod parts;
mod script;
mod statement;
mod typing;

pub use aggregate_op::{Fold, FoldOp, FoldPlace, FoldPlan, FoldTable};
pub use kept_relations::{Kept, KeptList, NoMemory};
pub use listing::{Header, HeaderList, folds_of, headers_of, kept_of};
pub use machine::machine_of;
pub use parts::{has_fold, has_into, numbers_fit};
pub use script::{QueryList, resolve};

#[cfg(test)]
mod tests;

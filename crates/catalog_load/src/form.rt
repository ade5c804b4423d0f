//! The entries of a catalogue as they are written.

use lists::Sequence;
use postquel_tokens::{Ident, Spot, What};
use rows::{ColType, Text};

/// A column of an entry.
#[derive(Drop)]
pub struct ColumnForm {
    pub name: Ident,
    pub col_type: ColType,
    pub nullable: bool,
}

/// An entry: a relation, the file of its rows, its columns, and the column of its index.
#[derive(Drop)]
pub struct RelationForm {
    pub name: Ident,
    pub file: Text,
    pub columns: Sequence<ColumnForm>,
    pub index: Option<Ident>,
}

/// A fault and its place.
#[derive(Clone, Copy, Debug, PartialEq, Eq)]
pub struct Flaw {
    pub what: What,
    pub spot: Spot,
}

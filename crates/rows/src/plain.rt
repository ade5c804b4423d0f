use crate::{ColType, Text, Value};
use lists::{Duplicate, Sequence};
use std::alloc::{AllocError, Global};

/// A column of a relation. Only a nullable column may hold null.
#[derive(Debug, Drop)]
pub struct Column {
    pub name: Text,
    pub col_type: ColType,
    pub nullable: bool,
}

impl Duplicate for Column {
    fn duplicate(&self, alloc: Global) -> Result<Column, AllocError> {
        Ok(Column {
            name: self.name.duplicate(alloc)?,
            col_type: self.col_type,
            nullable: self.nullable,
        })
    }
}

pub type ColumnList = Sequence<Column>;

/// A relation of a catalogue, the file of its rows, and the column of its index, counted from 0.
#[derive(Debug, Drop)]
pub struct Relation {
    pub name: Text,
    pub file: Text,
    pub columns: ColumnList,
    pub index: Option<u32>,
}

impl Duplicate for Relation {
    fn duplicate(&self, alloc: Global) -> Result<Relation, AllocError> {
        Ok(Relation {
            name: self.name.duplicate(alloc)?,
            file: self.file.duplicate(alloc)?,
            columns: self.columns.duplicate(alloc)?,
            index: self.index,
        })
    }
}

/// The relations in catalogue order.
pub type Catalog = Sequence<Relation>;

/// A column of a range variable, both counted from 0.
#[derive(Clone, Copy, Debug, PartialEq, Eq)]
pub struct ColumnRef {
    pub var: u32,
    pub col: u32,
}

impl Duplicate for ColumnRef {
    fn duplicate(&self, _alloc: Global) -> Result<ColumnRef, AllocError> {
        Ok(*self)
    }
}

pub type ColumnRefList = Sequence<ColumnRef>;

/// Two columns whose values are to be equal in a join.
#[derive(Clone, Copy, Debug, PartialEq, Eq)]
pub struct KeyPair {
    pub build: ColumnRef,
    pub probe: ColumnRef,
}

impl Duplicate for KeyPair {
    fn duplicate(&self, _alloc: Global) -> Result<KeyPair, AllocError> {
        Ok(*self)
    }
}

pub type KeyPairList = Sequence<KeyPair>;

/// An index file: its number, its sizes, and the number of pages of its heap file.
#[derive(Clone, Copy, Debug, PartialEq, Eq)]
pub struct KeyIndex {
    pub file: u32,
    pub key_type: ColType,
    pub entries: u32,
    pub pages: u32,
    pub height: u32,
    pub heap_pages: u32,
}

impl Duplicate for KeyIndex {
    fn duplicate(&self, _alloc: Global) -> Result<KeyIndex, AllocError> {
        Ok(*self)
    }
}

pub type KeyIndexList = Sequence<KeyIndex>;

/// A key, and where its row stands: the heap page and the slot on it.
#[derive(Debug, Drop)]
pub struct KeyEntry {
    pub key: Value,
    pub page: u32,
    pub slot: u32,
}

impl Duplicate for KeyEntry {
    fn duplicate(&self, alloc: Global) -> Result<KeyEntry, AllocError> {
        Ok(KeyEntry {
            key: self.key.duplicate(alloc)?,
            page: self.page,
            slot: self.slot,
        })
    }
}

pub type KeyEntryList = Sequence<KeyEntry>;

/// The entries from number `from` up to, not including, `upto`.
#[derive(Clone, Copy, Debug, PartialEq, Eq)]
pub struct Interval {
    pub from: u32,
    pub upto: u32,
}

/// How many backends and drives there are, and how many positions are claimed at once.
#[derive(Clone, Copy, Debug, PartialEq, Eq)]
pub struct Machine {
    pub backends: u32,
    pub drives: u32,
    pub batch: u32,
}

/// From the finish of so many fragments on, so many backends.
#[derive(Clone, Copy, Debug, PartialEq, Eq)]
pub struct Step {
    pub after: u32,
    pub backends: u32,
}

impl Duplicate for Step {
    fn duplicate(&self, _alloc: Global) -> Result<Step, AllocError> {
        Ok(*self)
    }
}

pub type StepList = Sequence<Step>;

/// How a column is compared with a constant.
#[derive(Clone, Copy, Debug, PartialEq, Eq)]
pub enum BoundOp {
    Equal,
    Less,
    AtMost,
    More,
    AtLeast,
}

/// A comparison of a column with a constant.
#[derive(Debug, Drop)]
pub struct Bound {
    pub op: BoundOp,
    pub value: Value,
}

impl Duplicate for Bound {
    fn duplicate(&self, alloc: Global) -> Result<Bound, AllocError> {
        Ok(Bound {
            op: self.op,
            value: self.value.duplicate(alloc)?,
        })
    }
}

pub type BoundList = Sequence<Bound>;

/// A column of a layout. `bound` is the greatest size of an integer without its sign, and 0 for another type.
#[derive(Clone, Copy, Debug, PartialEq, Eq)]
pub struct LayoutColumn {
    pub col_type: ColType,
    pub bound: u64,
}

impl Duplicate for LayoutColumn {
    fn duplicate(&self, _alloc: Global) -> Result<LayoutColumn, AllocError> {
        Ok(*self)
    }
}

pub type LayoutColumnList = Sequence<LayoutColumn>;

/// The columns that a range variable has in a layout.
#[derive(Debug, Drop)]
pub struct LayoutPart {
    pub var: u32,
    pub columns: LayoutColumnList,
}

impl Duplicate for LayoutPart {
    fn duplicate(&self, alloc: Global) -> Result<LayoutPart, AllocError> {
        Ok(LayoutPart {
            var: self.var,
            columns: self.columns.duplicate(alloc)?,
        })
    }
}

/// The parts of joined rows, in ascending order of their variables.
pub type Layout = Sequence<LayoutPart>;

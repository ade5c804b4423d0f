//! Rows that are found by their keys.
ghost use Rattle.std.specs.Prelude.{◌≡◌, ◌<◌, Some, length, slice_get};
ghost use Rattle.hash_join.specs.Table.{IsPlace, key_of, matching, row_at, rows_of};
ghost use Rattle.std.specs.List.{All};

use crate::Parts;
use crate::buckets::{Buckets, places_for, places_with};
use crate::key::{holds_null, null_within};
use lists::Sequence;
use rows::{Row, Value};
use std::marker::Model;
use std::sync::Arc;

/// Where a row stands: its position, and its place in the list of that position, both counted from 0.
#[derive(Clone, Copy, Debug, PartialEq, Eq)]
pub struct RowPlace {
    pub position: usize,
    pub place: usize,
}

/// The rows that a fragment gave, by position, and the columns of their key. Rows in answer order stand in one list at
/// position 0, and have no key column.
#[derive(Drop)]
pub struct Built {
    pub(crate) parts: Parts,
    pub(crate) columns: Vec<usize>,
    pub(crate) buckets: Buckets,
}

/// Built values that are shared.
pub type BuiltList = Sequence<Arc<Built>>;

/// The built values that a fragment reads.
pub type Inputs = Sequence<Arc<Built>>;

impl Model for Built {
    ghost use Rattle.std.specs.Prelude.{map};
    ghost use Rattle.hash_join.specs.Table.{Table};
    ghost use Rattle.hash_join.specs.Found.{AreFound};

    ghost Value = { Table };

    ghost view = { λ b. record { lists = b.parts; columns = b.columns.items } };

    ghost invariant = { λ b. AreFound (record { lists = b.parts; columns = b.columns.items }) b.buckets.places.items b.buckets.hashes.items b.buckets.starts.items };
}

impl Built {
    // The places of the rows with a key, in order.
    fn found(&self, key: &[Value]) -> &[RowPlace]
        ensures { result.now ≡ matching self.now key.now }
    {
        if holds_null(key) {
            return &[];
        }
        let buckets = &self.buckets;
        places_with(self.parts.items(), self.columns.as_slice(), buckets, key)
    }

    // The places of the rows whose key has a row's values in columns, in order.
    fn found_in(&self, row: &[Value], columns: &[usize]) -> &[RowPlace]
        ensures { result.now ≡ matching self.now (key_of columns.now row.now) }
    {
        if null_within(row, columns) {
            return &[];
        }
        let buckets = &self.buckets;
        places_for(
            self.parts.items(),
            self.columns.as_slice(),
            buckets,
            row,
            columns,
        )
    }

    /// The places of the rows whose key is this one, in order of position and then of place. There is none where the key
    /// holds null. Without key columns every row has the empty key.
    pub fn matches(&self, key: &Row) -> &[RowPlace]
        ensures found { result.now ≡ matching self.now key.now }
        ensures places { All (IsPlace self.now.lists) result.now }
    {
        self.found(key.items())
    }

    /// The places of the rows whose key has the values of a row in these columns, as `matches` gives them for that key. A
    /// row has null past its last column. It takes no memory.
    pub fn matches_in(&self, row: &[Value], columns: &[usize]) -> &[RowPlace]
        ensures found { result.now ≡ matching self.now (key_of columns.now row.now) }
        ensures places { All (IsPlace self.now.lists) result.now }
    {
        self.found_in(row, columns)
    }

    /// The row at a place of this value.
    pub fn row(&self, at: RowPlace) -> &Row
        requires { IsPlace self.now.lists at }
        ensures { result.now ≡ row_at self.now.lists at }
    {
        self.parts.get(at.position).get(at.place)
    }

    /// The number of rows of a value in answer order.
    pub fn rows(&self) -> u64
        requires { length self.now.lists ≡ 1 }
        ensures { result ≡ length (rows_of self.now.lists) }
    {
        self.parts.get(0).len() as u64
    }

    /// A row of a value in answer order, by its number from 0, which is below `rows`.
    pub fn nth(&self, number: u64) -> &Row
        requires arranged { length self.now.lists ≡ 1 }
        requires within { number < length (rows_of self.now.lists) }
        ensures { slice_get (rows_of self.now.lists) number ≡ Some result.now }
    {
        self.parts.get(0).get(number as usize)
    }
}

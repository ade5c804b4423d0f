//! Rows that take the places of others.
ghost use Rattle.std.specs.Prelude.{◌≡◌, [], ◌∷◌, ◌++◌, OnOk};

use rows::Row;
use std::alloc::AllocError;
use std::marker::Model;

/// Rows that are put one behind the other into the places of rows that nobody needs any more. Each of those is given up
/// as its place is taken, so that the memory it had serves the row that comes next. Contracts see the rows that were put in.
#[derive(Drop)]
pub(crate) struct RowBuffer {
    rows: Vec<Row>,
    used: usize,
}

impl Model for RowBuffer {
    ghost use Rattle.std.specs.Prelude.{◌≤◌, List, length, take};
    ghost use Rattle.rows.specs.declared.value.Value as value;

    ghost Value = { List (List value.Value) };

    ghost view = { λ b. take b.used b.rows.items };

    ghost invariant = { λ b. b.used ≤ length b.rows.items };
}

impl RowBuffer {
    /// No row, over the places of these.
    pub(crate) fn over(spent: Vec<Row>) -> RowBuffer
        ensures { result ≡ [] }
    {
        RowBuffer {
            rows: spent,
            used: 0,
        }
    }

    /// Puts a row behind the others.
    pub(crate) fn push(&mut self, row: Row) -> Result<(), AllocError>
        ensures { OnOk result (self.new ≡ self.old ++ row ∷ []) }
    {
        if self.used < self.rows.len() {
            self.rows[self.used] = row;
        } else {
            self.rows.push(row)?;
        }
        self.used += 1;
        Ok(())
    }

    /// The rows that were put in.
    pub(crate) fn into_vec(self) -> Vec<Row>
        ensures { result.items ≡ self }
    {
        let RowBuffer { mut rows, used } = self;
        rows.truncate(used);
        rows
    }
}

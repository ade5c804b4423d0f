ghost use Rattle.std.specs.Prelude.{◌≡◌, IfOk, length};
ghost use Rattle.kept_relations.specs.KeptColumns.{kept_columns};

use crate::NoMemory;
use lists::Sequence;
use rows::{ColumnList, LayoutColumn, LayoutColumnList, Text};
use std::alloc::Global;

/// A number for each column.
pub type BoundNumberList = Sequence<u64>;

/// A relation that a statement keeps: its name, the number of the statement, counted from 0, its
/// columns, and for each of them the greatest size of an integer without its sign, and 0 for
/// another type.
#[derive(Debug, Drop)]
pub struct Kept {
    pub name: Text,
    pub statement: u32,
    pub columns: ColumnList,
    pub bounds: BoundNumberList,
}

/// The columns of a kept relation as those of a layout, each with its type and bound.
pub fn kept_layout(alloc: Global, kept: &Kept) -> Result<LayoutColumnList, NoMemory>
    requires { length kept.now.bounds ≡ length kept.now.columns }
    ensures { IfOk result (λ columns. columns ≡ kept_columns kept.now.columns kept.now.bounds) }
{
    let mut columns = Vec::new(alloc);
    for place in 0..kept.columns.len() {
        columns.push(LayoutColumn {
            col_type: kept.columns.get(place).col_type,
            bound: *kept.bounds.get(place),
        })?;
    }
    Ok(Sequence::from_vec(columns))
}

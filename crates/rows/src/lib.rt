//! The values of a relation, their order, and their spelling in a file.
#![tactic(auto)]

mod encoding;
mod field;
mod laws;
mod order;
mod place;
mod plain;
mod row_view;
#[cfg(test)]
mod tests;
mod text;
mod value;

pub use encoding::{encode_row, put_row, put_value, row_size, value_size};
pub use field::{ColType, FieldErr, field_text, is_text, read_field};
pub use laws::arranging_laws;
pub use lists::Sequence;
pub use order::{SortKey, SortKeyList, arrange_rows, compare, row_order};
pub use place::place_of;
pub use plain::{
    Bound, BoundList, BoundOp, Catalog, Column, ColumnList, ColumnRef, ColumnRefList, Interval,
    KeyEntry, KeyEntryList, KeyIndex, KeyIndexList, KeyPair, KeyPairList, Layout, LayoutColumn,
    LayoutColumnList, LayoutPart, Machine, Relation, Step, StepList,
};
pub use row_view::{RowReader, RowView, ValueView, compare_views, decode_row, typed_front};
pub use text::Text;
pub use value::Value;

/// One value for each column.
pub type Row = Sequence<Value>;

/// Rows in order.
pub type Rows = Sequence<Row>;

//! The order of a key where its bytes lie.
ghost use Rattle.std.specs.Prelude.{◌≡◌};
ghost use Rattle.rows.specs.RowSeen.{seen};
ghost use Rattle.rows.specs.Values.{rank_of, value_cmp};

use rows::{Value, ValueView};
use std::cmp::Ordering;

fn view_rank(view: ValueView<'_>) -> u8
    ensures { result ≡ rank_of (seen view.entry) }
{
    match view {
        ValueView::Null => 0,
        ValueView::Number(_) => 1,
        ValueView::Word(_) => 2,
        ValueView::Truth(_) => 3,
    }
}

fn value_rank(value: &Value) -> u8
    ensures { result ≡ rank_of value.now }
{
    match value {
        Value::Null => 0,
        Value::Number(_) => 1,
        Value::Word(_) => 2,
        Value::Truth(_) => 3,
    }
}

// The order of a key and a value.
pub(crate) fn compare_key(key: ValueView<'_>, value: &Value) -> Ordering
    ensures { result ≡ value_cmp (seen key.entry) value.now }
{
    match (key, value) {
        (ValueView::Number(a), Value::Number(b)) => a.cmp(b),
        (ValueView::Word(a), Value::Word(b)) => a.cmp(b.items()),
        (ValueView::Truth(a), Value::Truth(b)) => a.cmp(b),
        _ => view_rank(key).cmp(&value_rank(value)),
    }
}

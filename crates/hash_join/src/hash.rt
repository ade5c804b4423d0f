//! The bucket in which a key is looked for.
ghost use Rattle.std.specs.Prelude.{◌≡◌, ◌<◌, ◌^◌};
ghost use Rattle.std.specs.List.{fold};
ghost use Rattle.std.specs.Hash.FoldHasher as folding;
ghost use Rattle.rows.specs.Values.{column_of};
ghost use Rattle.hash_join.specs.Hash.{bucket_of, hash_of, writes_of};
ghost use Rattle.hash_join.specs.Table.{key_of};

use rows::Value;
use std::hash::{FoldHasher, Hasher};

// Adds a value to a hash. Null adds nothing.
fn feed(state: &mut FoldHasher, value: &Value)
    ensures { state.new ≡ fold folding.write state.old (writes_of value.now) }
{
    match value {
        Value::Null => {}
        Value::Number(number) => state.write_i64(*number),
        Value::Word(text) => state.write(text.items()),
        Value::Truth(true) => state.write_u8(1),
        Value::Truth(false) => state.write_u8(0),
    }
}

// Adds a row's value in a column to a hash.
fn feed_column(state: &mut FoldHasher, row: &[Value], column: usize)
    ensures { state.new ≡ fold folding.write state.old (writes_of (column_of row.now column)) }
{
    if let Some(value) = row.get(column) {
        feed(state, value);
    }
}

// The hash of a row's values in columns.
pub(crate) fn hash_in(row: &[Value], columns: &[usize]) -> u64
    ensures { result ≡ hash_of (key_of columns.now row.now) }
{
    let mut state = FoldHasher::default();
    for column in columns {
        feed_column(&mut state, row, *column);
    }
    state.finish()
}

// The hash of a key.
pub(crate) fn hash_key(key: &[Value]) -> u64
    ensures { result ≡ hash_of key.now }
{
    let mut state = FoldHasher::default();
    for value in key {
        feed(&mut state, value);
    }
    state.finish()
}

// The bucket, out of `count`, of a hash. The buckets rise with the hashes.
pub(crate) fn bucket_of(hash: u64, count: usize) -> usize
    requires { count < 2 ^ 32 }
    ensures number { result ≡ bucket_of count hash }
    ensures within { 0 < count → result < count }
{
    (((hash >> 32) * count as u64) >> 32) as usize
}

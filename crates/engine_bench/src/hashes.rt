//! A table of many rows, and look-ups in it.
use hash_join::{Built, Parts, build};
use lists::Sequence;
use rows::{ColType, ColumnRef, Layout, LayoutColumn, LayoutPart, Row, Rows, Text, Value};
use std::alloc::{AllocError, Global};
use std::io;
use std::rt::Clock;
use std::sync::Arc;
use std::time::Instant;

// The rows are looked up at this distance from each other.
const STRIDE: u64 = 618_033;

const HEX: &[u8; 16] = b"0123456789abcdef";

/// What keys are.
#[derive(Clone, Copy, Debug, PartialEq, Eq)]
enum Kind {
    Numbers,
    Words,
}

// Numbers whose order has nothing to do with that of their keys, all of them below 2^32 and no two the same.
fn scrambled(number: u32) -> u32 {
    number.wrapping_mul(2_654_435_761)
}

// A number as 12 hexadecimal digits.
fn word(alloc: Global, number: u32) -> Result<Text, AllocError> {
    let mut bytes = Vec::with_capacity(alloc, 12)?;
    let mut left = u64::from(number);
    for _digit in 0..12 {
        bytes.push(HEX[(left % 16) as usize])?;
        left /= 16;
    }
    Ok(Text::from_vec(bytes))
}

// The key of a number.
fn key(alloc: Global, kind: Kind, number: u32) -> Result<Value, AllocError> {
    match kind {
        Kind::Numbers => Ok(Value::Number(i64::from(scrambled(number)))),
        Kind::Words => Ok(Value::Word(word(alloc, scrambled(number))?)),
    }
}

// A row with the key of a number, and the number.
fn row(alloc: Global, kind: Kind, number: u32) -> Result<Row, AllocError> {
    let mut values = Vec::with_capacity(alloc, 2)?;
    values.push(key(alloc, kind, number)?)?;
    values.push(Value::Number(i64::from(number)))?;
    Ok(Sequence::from_vec(values))
}

// The rows of so many numbers.
fn rows_of(alloc: Global, kind: Kind, count: u32) -> Result<Rows, AllocError> {
    let mut rows = Vec::with_capacity(alloc, count as usize)?;
    for number in 0..count {
        rows.push(row(alloc, kind, number)?)?;
    }
    Ok(Sequence::from_vec(rows))
}

// Rows with the same keys in another order.
fn probes(alloc: Global, kind: Kind, count: u32) -> Result<Rows, AllocError> {
    let mut rows = Vec::with_capacity(alloc, count as usize)?;
    for number in 0..count {
        let Some(other) = (u64::from(number) * STRIDE).checked_rem(u64::from(count)) else {
            return Err(AllocError);
        };
        rows.push(row(alloc, kind, other as u32)?)?;
    }
    Ok(Sequence::from_vec(rows))
}

// Rows of one variable with two columns.
fn layout(alloc: Global, kind: Kind) -> Result<Layout, AllocError> {
    let number = LayoutColumn {
        col_type: ColType::Int4,
        bound: 2_147_483_648,
    };
    let first = match kind {
        Kind::Numbers => number,
        Kind::Words => LayoutColumn {
            col_type: ColType::Text,
            bound: 12,
        },
    };
    let columns = Sequence::from_vec(vec![in alloc; first, number]?);
    Ok(Sequence::from_vec(vec![in alloc; LayoutPart { var: 0, columns }]?))
}

// A table of the rows, by their first column.
fn table(alloc: Global, kind: Kind, rows: Rows) -> Result<Built, AllocError> {
    let mut parts = Parts::new(alloc);
    if parts.push(Arc::new(alloc, rows)?).is_err() {
        return Err(AllocError);
    }
    let keys = Sequence::from_vec(vec![in alloc; ColumnRef { var: 0, col: 0 }]?);
    build(alloc, parts, &layout(alloc, kind)?, &keys)
}

// How many rows match the first columns of other rows.
fn count_matches(table: &Built, probes: &[Row]) -> u64 {
    let mut found = 0u64;
    for probe in probes {
        let matches = table.matches_in(probe.items(), &[0]);
        found = found.saturating_add(matches.len() as u64);
    }
    found
}

// Builds a table of so many rows and looks each key up, and prints how many were found; with `times` also how long it took.
fn run_kind(
    rt: &(impl Print + Clock + AllocGlobal),
    kind: Kind,
    name: &str,
    count: u32,
    times: bool,
) -> io::Result<()> {
    let rows = rows_of(rt.alloc(), kind, count)?;
    let probes = probes(rt.alloc(), kind, count)?;
    let begin = Instant::now(rt)?;
    let table = table(rt.alloc(), kind, rows)?;
    let built = Instant::now(rt)?;
    let found = count_matches(&table, probes.items());
    let end = Instant::now(rt)?;
    println!(rt; "{found} {name} found")?;
    if times {
        let building = built.saturating_duration_since(begin).as_millis();
        let looking = end.saturating_duration_since(built).as_millis();
        println!(rt; "ms for {count} {name}: built {building}, looked up {looking}")?;
    }
    Ok(())
}

/// Looks so many keys up in a table of as many rows, once with integers and once with texts of 12 bytes, and prints how many
/// were found; with `times` also how long it took.
pub fn run_hashes(
    rt: &(impl Print + Clock + AllocGlobal),
    count: u32,
    times: bool,
) -> io::Result<()> {
    run_kind(rt, Kind::Numbers, "numbers", count, times)?;
    run_kind(rt, Kind::Words, "words", count, times)
}

//! Reading a row where its bytes lie.
ghost use Rattle.std.specs.Prelude.{◌≡◌, ◌<◌, ◌≤◌, IfOk, IfSome, IsSome, length, is_some, Some};
ghost use Rattle.std.specs.Option.{option_map};
ghost use Rattle.rows.specs.RowBytes.{Decodes, IsRowOf};
ghost use Rattle.rows.specs.RowFields.{behind, bits_behind, ends, integer_front, low_number, row_in, text_front, truth_front, typed_front, value_front, values_in};
ghost use Rattle.rows.specs.RowSeen.{seen, seen_front, seen_rest};
ghost use Rattle.rows.specs.Values.{column_of, rank_of, value_cmp};

use crate::encoding::bit_bytes;
use crate::field::{MAX_TEXT, is_text};
use crate::{ColType, Column, ColumnList, Row, Text, Value};
use lists::Sequence;
use std::alloc::{AllocError, Global};
use std::cmp::Ordering;
use std::marker::Model;

/// A value of a row where its bytes lie.
#[derive(Clone, Copy, Debug)]
pub enum ValueView<'a> {
    Null,
    Number(i64),
    Word(&'a [u8]),
    Truth(bool),
}

impl<'a> ValueView<'a> {
    /// The value as one of its own.
    pub fn to_value(&self, alloc: Global) -> Result<Value, AllocError>
        ensures { IfOk result (λ value. value ≡ seen self.now) }
    {
        match self {
            ValueView::Null => Ok(Value::Null),
            ValueView::Number(number) => Ok(Value::Number(*number)),
            ValueView::Word(bytes) => Ok(Value::Word(Text::from_slice(alloc, bytes)?)),
            ValueView::Truth(truth) => Ok(Value::Truth(*truth)),
        }
    }
}

// Null, then numbers, then words, then truth values.
fn rank_of(value: ValueView<'_>) -> u32
    ensures { result ≡ rank_of (seen value.entry) }
{
    match value {
        ValueView::Null => 0,
        ValueView::Number(_) => 1,
        ValueView::Word(_) => 2,
        ValueView::Truth(_) => 3,
    }
}

/// The order of values, as `compare` has it.
pub fn compare_views(a: ValueView<'_>, b: ValueView<'_>) -> Ordering
    ensures { result ≡ value_cmp (seen a.entry) (seen b.entry) }
{
    match (a, b) {
        (ValueView::Number(first), ValueView::Number(second)) => first.cmp(&second),
        (ValueView::Word(first), ValueView::Word(second)) => first.cmp(second),
        (ValueView::Truth(first), ValueView::Truth(second)) => first.cmp(&second),
        _ => rank_of(a).cmp(&rank_of(b)),
    }
}

fn integer_front(bytes: &[u8]) -> Option<(ValueView<'_>, &[u8])>
    ensures { option_map seen_front result ≡ integer_front bytes.now }
{
    if bytes.len() < 4 {
        return None;
    }
    let (number, rest) = bytes.split_at(4);
    let number = i32::from_be_bytes([number[0], number[1], number[2], number[3]]);
    Some((ValueView::Number(i64::from(number)), rest))
}

fn text_front(bytes: &[u8]) -> Option<(ValueView<'_>, &[u8])>
    ensures { option_map seen_front result ≡ text_front bytes.now }
{
    if bytes.len() < 2 {
        return None;
    }
    let (size, rest) = bytes.split_at(2);
    let size = usize::from(u16::from_be_bytes([size[0], size[1]]));
    if size > MAX_TEXT || rest.len() < size {
        return None;
    }
    let (text, rest) = rest.split_at(size);
    if is_text(text) {
        Some((ValueView::Word(text), rest))
    } else {
        None
    }
}

fn truth_front(bytes: &[u8]) -> Option<(ValueView<'_>, &[u8])>
    ensures { option_map seen_front result ≡ truth_front bytes.now }
{
    match bytes {
        [0, rest @ ..] => Some((ValueView::Truth(false), rest)),
        [1, rest @ ..] => Some((ValueView::Truth(true), rest)),
        _ => None,
    }
}

/// The value of a type at the front of the bytes, and the bytes behind it. It is `None` where the bytes begin with no value of
/// the type, as `put_value` writes it. A text has at most 2,000 bytes.
pub fn typed_front(col_type: ColType, bytes: &[u8]) -> Option<(ValueView<'_>, &[u8])>
    ensures { option_map seen_front result ≡ typed_front col_type bytes.now }
{
    match col_type {
        ColType::Int4 => integer_front(bytes),
        ColType::Text => text_front(bytes),
        ColType::Bool => truth_front(bytes),
    }
}

// The value of a column at the front of the bytes, and the bytes behind it.
fn value_front<'a>(column: &Column, bits: u32, bytes: &'a [u8]) -> Option<(ValueView<'a>, &'a [u8])>
    ensures { option_map seen_front result ≡ value_front column.now bits bytes.now }
{
    if column.nullable && bits % 2 == 1 {
        return Some((ValueView::Null, bytes));
    }
    typed_front(column.col_type, bytes)
}

// The integer at the front of the bytes of values, and the bytes behind it.
fn known_integer(bytes: &[u8]) -> (ValueView<'_>, &[u8])
    requires { IsSome (integer_front bytes.now) }
    ensures { integer_front bytes.now ≡ Some (seen_front result) }
{
    let (number, rest) = bytes.split_at(4);
    let number = i32::from_be_bytes([number[0], number[1], number[2], number[3]]);
    (ValueView::Number(i64::from(number)), rest)
}

// The text at the front of the bytes of values, and the bytes behind it. Whether it is UTF-8 isn't tested again.
fn known_text(bytes: &[u8]) -> (ValueView<'_>, &[u8])
    requires { IsSome (text_front bytes.now) }
    ensures { text_front bytes.now ≡ Some (seen_front result) }
{
    let (size, rest) = bytes.split_at(2);
    let size = usize::from(u16::from_be_bytes([size[0], size[1]]));
    let (text, rest) = rest.split_at(size);
    (ValueView::Word(text), rest)
}

// The truth value at the front of the bytes of values, and the bytes behind it.
fn known_truth(bytes: &[u8]) -> (ValueView<'_>, &[u8])
    requires { IsSome (truth_front bytes.now) }
    ensures { truth_front bytes.now ≡ Some (seen_front result) }
{
    let (truth, rest) = bytes.split_at(1);
    (ValueView::Truth(truth[0] == 1), rest)
}

// The value of a column at the front of the bytes of values, and the bytes behind it.
fn known_front<'a>(column: &Column, bits: u32, bytes: &'a [u8]) -> (ValueView<'a>, &'a [u8])
    requires { IsSome (value_front column.now bits bytes.now) }
    ensures { value_front column.now bits bytes.now ≡ Some (seen_front result) }
{
    if column.nullable && bits % 2 == 1 {
        return (ValueView::Null, bytes);
    }
    match column.col_type {
        ColType::Int4 => known_integer(bytes),
        ColType::Text => known_text(bytes),
        ColType::Bool => known_truth(bytes),
    }
}

fn bits_behind(column: &Column, bits: u32) -> u32
    ensures { result ≡ bits_behind column.now bits }
{
    if column.nullable { bits / 2 } else { bits }
}

// What is left behind the values of the columns: the bits and the bytes.
fn behind<'a>(columns: &[Column], bits: u32, bytes: &'a [u8]) -> Option<(u32, &'a [u8])>
    ensures { option_map seen_rest result ≡ behind columns.now bits bytes.now }
{
    let mut bits = bits;
    let mut rest = bytes;
    for column in columns {
        match value_front(column, bits, rest) {
            Some((_, next)) => rest = next,
            None => return None,
        }
        bits = bits_behind(column, bits);
    }
    Some((bits, rest))
}

// What is left behind the values of the columns, where they are there. It goes by the lengths alone.
fn behind_known<'a>(columns: &[Column], bits: u32, bytes: &'a [u8]) -> (u32, &'a [u8])
    requires { IsSome (behind columns.now bits bytes.now) }
    ensures { behind columns.now bits bytes.now ≡ Some (seen_rest result) }
{
    let mut bits = bits;
    let mut rest = bytes;
    for column in columns {
        (_, rest) = known_front(column, bits, rest);
        bits = bits_behind(column, bits);
    }
    (bits, rest)
}

// Whether the bytes are the values of the columns, with these bits.
fn are_values(columns: &[Column], bits: u32, bytes: &[u8]) -> bool
    ensures { result ≡ ends (behind columns.now bits bytes.now) }
{
    match behind(columns, bits, bytes) {
        Some((bits, rest)) => bits == 0 && rest.is_empty(),
        None => false,
    }
}

// The number that at most four bytes write, the lowest first.
fn low_number(bytes: &[u8]) -> u32
    requires { length bytes.now ≤ 4 }
    ensures { result ≡ low_number bytes.now }
{
    let mut number = 0u32;
    for place in (0..bytes.len()).rev() {
        number = 256 * number + u32::from(bytes[place]);
    }
    number
}

/// The columns of rows, and in how many bytes the bits of those that are nullable stand, so that it is counted once for
/// many rows. Contracts see it as the columns.
#[derive(Drop)]
pub struct RowReader<'a> {
    columns: &'a [Column],
    front: usize,
}

impl<'a> Model for RowReader<'a> {
    ghost use Rattle.std.specs.Prelude.{◌≡◌, List};
    ghost use Rattle.rows.specs.declared.plain.Column.{Column as Heading};
    ghost use Rattle.rows.specs.RowBytes.{bit_bytes};

    ghost Value = { List Heading };

    ghost view = { λ r. r.columns.now };

    ghost invariant = { λ r. r.front ≡ bit_bytes r.columns.now };
}

impl<'a> RowReader<'a> {
    pub fn of(columns: &'a ColumnList) -> RowReader<'a>
        ensures { result ≡ columns.now }
    {
        let columns = columns.items();
        RowReader {
            columns,
            front: bit_bytes(columns),
        }
    }

    /// The row whose encoding the bytes are. It is `None` where they are no encoding of a row of the columns, or where
    /// there are more than 32 columns.
    pub fn read(&self, bytes: &'a [u8]) -> Option<RowView<'a>>
        ensures { result ≡ row_in self.now bytes.now }
    {
        if self.columns.len() > 32 || bytes.len() < self.front {
            return None;
        }
        let (bits, bytes) = bytes.split_at(self.front);
        let bits = low_number(bits);
        if are_values(self.columns, bits, bytes) {
            Some(RowView {
                columns: self.columns,
                bits,
                bytes,
            })
        } else {
            None
        }
    }
}

/// A row seen in its bytes. Contracts see it as the row.
#[derive(Drop)]
pub struct RowView<'a> {
    columns: &'a [Column],
    bits: u32,
    bytes: &'a [u8],
}

impl<'a> Model for RowView<'a> {
    ghost use Rattle.std.specs.Prelude.{List, IsTrue, is_some};
    ghost use Rattle.rows.specs.declared.value.Value.{Value as Cell};
    ghost use Rattle.rows.specs.RowFields.{row_or_none, values_in};

    ghost Value = { List Cell };

    ghost view = { λ v. row_or_none (values_in v.columns.now v.bits v.bytes.now) };

    ghost invariant = { λ v. IsTrue (is_some (values_in v.columns.now v.bits v.bytes.now)) };
}

impl<'a> RowView<'a> {
    /// The row whose encoding the bytes are. It is `None` where they are no encoding of a row of the columns, or where
    /// there are more than 32 columns.
    pub fn read(bytes: &'a [u8], columns: &'a ColumnList) -> Option<RowView<'a>>
        ensures encoded { Decodes columns.now bytes.now result }
        ensures row { result ≡ row_in columns.now bytes.now }
        ensures of_columns { IfSome result (IsRowOf columns.now) }
    {
        RowReader::of(columns).read(bytes)
    }

    /// The value of a column, counted from 0. There is such a column.
    pub fn field(&self, column: u32) -> ValueView<'a>
        requires { column < length self.now }
        ensures { seen result ≡ column_of self.now column }
    {
        let place = column as usize;
        let (bits, rest) = behind_known(&self.columns[..place], self.bits, self.bytes);
        known_front(&self.columns[place], bits, rest).0
    }

    /// The row with values of its own.
    pub fn to_row(&self, alloc: Global) -> Result<Row, AllocError>
        ensures { IfOk result (λ row. row ≡ self.now) }
    {
        let mut row = Vec::with_capacity(alloc, self.columns.len())?;
        let mut bits = self.bits;
        let mut rest = self.bytes;
        for column in self.columns {
            let (value, next) = known_front(column, bits, rest);
            row.push(value.to_value(alloc)?)?;
            rest = next;
            bits = bits_behind(column, bits);
        }
        Ok(Sequence::from_vec(row))
    }
}

// The values of the columns, where the bits and the bytes are just theirs.
fn read_values(
    alloc: Global,
    columns: &[Column],
    bits: u32,
    bytes: &[u8],
) -> Result<Option<Row>, AllocError>
    ensures { IfOk result (λ found. found ≡ values_in columns.now bits bytes.now) }
{
    let mut row = Vec::with_capacity(alloc, columns.len())?;
    let mut bits = bits;
    let mut rest = bytes;
    for column in columns {
        match value_front(column, bits, rest) {
            Some((value, next)) => {
                row.push(value.to_value(alloc)?)?;
                rest = next;
            }
            None => return Ok(None),
        }
        bits = bits_behind(column, bits);
    }
    if bits == 0 && rest.is_empty() {
        Ok(Some(Sequence::from_vec(row)))
    } else {
        Ok(None)
    }
}

/// The row whose encoding the bytes are. It is `None` where they are no encoding of a row of the columns, or where there
/// are more than 32 columns. It goes over the bytes once.
pub fn decode_row(
    alloc: Global,
    bytes: &[u8],
    columns: &ColumnList,
) -> Result<Option<Row>, AllocError>
    ensures { IfOk result (Decodes columns.now bytes.now) }
{
    let columns = columns.items();
    let front = bit_bytes(columns);
    if columns.len() > 32 || bytes.len() < front {
        return Ok(None);
    }
    let (bits, bytes) = bytes.split_at(front);
    read_values(alloc, columns, low_number(bits), bytes)
}

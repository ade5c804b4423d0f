use crate::{
    Bound, BoundOp, ColType, Column, FieldErr, KeyEntry, LayoutColumn, LayoutPart, Relation, Row,
    RowReader, RowView, SortKey, Text, Value, arrange_rows, compare, compare_views, decode_row,
    encode_row, field_text, read_field, row_order, row_size,
};
use lists::{Duplicate, Sequence};
use std::alloc::{AllocError, Global};
use std::cmp::Ordering;
use std::test::Fail;

#[test]
fn fields_are_read_and_spelled(rt: HostRuntime) -> Result<(), Fail> {
    let alloc = rt.alloc();
    let accepted: [(&[u8], ColType, &[u8]); 7] = [
        (b"+7", ColType::Int4, b"7"),
        (b"-2147483648", ColType::Int4, b"-2147483648"),
        (b"2147483647", ColType::Int4, b"2147483647"),
        (b"a,b", ColType::Text, b"a,b"),
        (b"", ColType::Text, b""),
        (b"true", ColType::Bool, b"t"),
        (b"f", ColType::Bool, b"f"),
    ];
    for (field, col_type, spelled) in accepted {
        let Ok(value) = read_field(alloc, field, col_type) else {
            return Err(Fail::from(AllocError));
        };
        assert_eq!(rt; field_text(alloc, &value)?.as_slice(), spelled);
    }
    let refused: [(&[u8], ColType, FieldErr); 6] = [
        (b"2147483648", ColType::Int4, FieldErr::OutOfInt4),
        (b"99999999999x", ColType::Int4, FieldErr::NotInt4),
        (b"+", ColType::Int4, FieldErr::NotInt4),
        (b"\xff", ColType::Text, FieldErr::NotUtf8),
        (&[b'a'; 2001], ColType::Text, FieldErr::TextTooLong),
        (b"yes", ColType::Bool, FieldErr::NotBool),
    ];
    for (field, col_type, fault) in refused {
        assert_eq!(rt; read_field(alloc, field, col_type).err(), Some(fault));
    }
    Ok(())
}

fn row(alloc: Global, name: &[u8], number: Value) -> Result<Row, AllocError> {
    let values = vec![in alloc; Value::Word(Text::from_slice(alloc, name)?), number]?;
    Ok(Sequence::from_vec(values))
}

#[test]
fn rows_are_arranged_by_keys_and_then_by_all_columns(rt: HostRuntime) -> Result<(), Fail> {
    let alloc = rt.alloc();
    assert_eq!(rt; compare(&Value::Null, &Value::Number(-1)), Ordering::Less);
    let keys = [SortKey {
        column: 1,
        down: true,
    }];
    let mut rows = vec![in alloc;
        row(alloc, b"b", Value::Null)?,
        row(alloc, b"b", Value::Number(2))?,
        row(alloc, b"a", Value::Number(2))?,
        row(alloc, b"b", Value::Number(2))?,
    ]?;
    arrange_rows(&mut rows, true, keys.as_slice())?;
    let wanted = [
        (b"a", Value::Number(2)),
        (b"b", Value::Number(2)),
        (b"b", Value::Null),
    ];
    assert_eq!(rt; rows.len(), 3);
    for ((name, number), found) in wanted.iter().zip(rows.iter()) {
        let row = row(alloc, name.as_slice(), number.duplicate(alloc)?)?;
        assert_eq!(rt; row_order(&row, found, &[]), Ordering::Equal);
    }
    Ok(())
}

fn column(alloc: Global, col_type: ColType, nullable: bool) -> Column {
    Column {
        name: Text::from_vec(Vec::new(alloc)),
        col_type,
        nullable,
    }
}

#[test]
fn rows_are_read_from_their_bytes_and_written_again(rt: HostRuntime) -> Result<(), Fail> {
    let alloc = rt.alloc();
    let columns = Sequence::from_vec(vec![in alloc;
        column(alloc, ColType::Text, false),
        column(alloc, ColType::Int4, true),
        column(alloc, ColType::Int4, true),
    ]?);
    let rows: [(&[u8], &[u8]); 2] = [
        (b"\x00\x00\x01x\x00\x00\x00\x01\x00\x00\x00\x02", b"x12"),
        (b"\x01\x00\x01y\x00\x00\x00\x02", b"y2"),
    ];
    for (bytes, fields) in rows {
        let Some(row) = decode_row(alloc, bytes, &columns)? else {
            return Err(Fail::from(AllocError));
        };
        assert_eq!(rt; row_size(&row, &columns) as usize, bytes.len());
        assert_eq!(rt; encode_row(alloc, &row, &columns)?.as_slice(), bytes);
        let mut spelled = Vec::new(alloc);
        for value in row.items() {
            spelled.extend_from_slice(field_text(alloc, value)?.as_slice())?;
        }
        assert_eq!(rt; spelled.as_slice(), fields);
        let Some(view) = RowView::read(bytes, &columns) else {
            return Err(Fail::from(AllocError));
        };
        assert!(rt; RowReader::of(&columns).read(bytes).is_some());
        assert_eq!(rt; compare_views(view.field(1), view.field(2)), Ordering::Less);
        let seen = view.field(1).to_value(alloc)?;
        assert!(rt; row.len() > 1);
        assert_eq!(rt; compare(&seen, row.get(1)), Ordering::Equal);
        assert_eq!(rt; row_order(&view.to_row(alloc)?, &row, &[]), Ordering::Equal);
    }
    let not_a_row = b"\x04\x00\x01y\x00\x00\x00\x01\x00\x00\x00\x02".as_slice();
    assert!(rt; decode_row(alloc, not_a_row, &columns)?.is_none());
    Ok(())
}

#[test]
fn texts_and_lists_are_copied(rt: HostRuntime) -> Result<(), Fail> {
    let alloc = rt.alloc();
    let mut text = Text::new(alloc);
    for byte in [b'a', b'b'] {
        assert!(rt; text.push(byte).is_ok());
    }
    assert_eq!(rt; text.len(), 2);
    assert!(rt; text.len() > 1);
    assert_eq!(rt; *text.get(1), b'b');
    assert_eq!(rt; text.copy(alloc)?.items(), b"ab".as_slice());
    let column = LayoutColumn {
        col_type: ColType::Int4,
        bound: 9,
    };
    let columns = Sequence::from_vec(vec![in alloc; column]?);
    let layout = Sequence::from_vec(vec![in alloc; LayoutPart { var: 2, columns }]?);
    let layout = layout.copy(alloc)?;
    assert_eq!(rt; layout.len(), 1);
    let catalog = Sequence::from_vec(vec![in alloc;
        Relation {
            name: text.copy(alloc)?,
            file: text.copy(alloc)?,
            columns: Sequence::new(alloc),
            index: Some(0),
        },
    ]?);
    assert_eq!(rt; catalog.copy(alloc)?.len(), 1);
    let entry = KeyEntry {
        key: Value::Word(text),
        page: 1,
        slot: 2,
    };
    assert_eq!(rt; entry.duplicate(alloc)?.slot, 2);
    let bound = Bound {
        op: BoundOp::More,
        value: Value::Null,
    };
    assert_eq!(rt; bound.duplicate(alloc)?.op, BoundOp::More);
    Ok(())
}

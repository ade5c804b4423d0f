use crate::{LoadErr, TableWhat, load_table, one_catalog, read_catalog};
use postquel_tokens::{TextErr, What};
use rows::{Catalog, ColType, Rows, Value};
use std::alloc::Global;

// A text of a front, a piece with each number below the given one, and a back.
fn numbered(
    alloc: Global,
    front: &[u8],
    piece: [&[u8]; 2],
    times: u8,
    back: &[u8],
) -> Result<Vec<u8>, TextErr> {
    let mut text = Vec::from_slice(alloc, front)?;
    for number in 0..times {
        text.extend_from_slice(piece[0])?;
        text.push(b'a' + number / 16 % 16)?;
        text.push(b'a' + number % 16)?;
        text.extend_from_slice(piece[1])?;
    }
    text.extend_from_slice(back)?;
    Ok(text)
}

fn read(alloc: Global, text: &[u8]) -> Result<Catalog, TextErr> {
    if text.len() > 10_000 {
        return Err(TextErr::NoMemory);
    }
    read_catalog(alloc, text)
}

fn fault_of(read: &Result<Catalog, TextErr>) -> Option<(u32, u32, What)> {
    match read {
        Err(TextErr::Fault { line, col, what }) => Some((*line, *col, *what)),
        _ => None,
    }
}

#[test]
fn each_catalogue_has_its_first_fault_or_none(rt: HostRuntime) {
    let table: [(&[u8], Option<(u32, u32, What)>); 21] = [
        (b"", None),
        (
            b"relation relation from \"a\" (index = text, bool = bool null) index index relation int4 from \"\" (text = int4)",
            None,
        ),
        (
            b"relation A from \"a\" (x = int4, x = bool)",
            Some((1, 32, What::DoubleColumn)),
        ),
        (
            b"relation A from \"a\" (x = int4, y = int5)",
            Some((1, 36, What::Unexpected)),
        ),
        (
            b"relation A from \"a\" (x = int4",
            Some((1, 30, What::Unexpected)),
        ),
        (b"relation A from \"a\" ()", Some((1, 22, What::Unexpected))),
        (
            b"relation A from \"a\" (x = int4) index",
            Some((1, 37, What::Unexpected)),
        ),
        (
            b"relation null from \"a\" (x = int4)",
            Some((1, 10, What::Unexpected)),
        ),
        (
            b"relation A from \"a\" (x = int4 null null)",
            Some((1, 36, What::Unexpected)),
        ),
        (
            b"relation A from a (x = int4)",
            Some((1, 17, What::Unexpected)),
        ),
        (
            b"relation A\nfrom \"a\" (x = int4) index y",
            Some((2, 27, What::NoColumn)),
        ),
        (
            b"relation A from \"a\" (x = int4) relation A from \"a\" (x = int4, x = int4)",
            Some((1, 41, What::DoubleRelation)),
        ),
        (
            b"relation A from \"a\" (x = int4, x = int4) index y",
            Some((1, 32, What::DoubleColumn)),
        ),
        (
            b"relation A from \"a\" (x = int4, x = int4) relation",
            Some((1, 50, What::Unexpected)),
        ),
        (
            b"relation A from \"a\" (x = int4) index x index x",
            Some((1, 40, What::Unexpected)),
        ),
        (
            b"relation A from \"a\" (x = ;",
            Some((1, 26, What::BadChar)),
        ),
        (
            b"relation A from \"a\" (x = int4);",
            Some((1, 31, What::BadChar)),
        ),
        (
            b"relation A from \"a (x = int4)",
            Some((1, 17, What::UnclosedText)),
        ),
        (
            b"relation A from \"a\" (x = int4) \xff",
            Some((1, 32, What::NotUtf8)),
        ),
        (b"A", Some((1, 1, What::Unexpected))),
        (
            b"relation A from \"a\" (x = int4) index 7",
            Some((1, 38, What::Unexpected)),
        ),
    ];
    for (text, fault) in table.iter() {
        let found = read(rt.alloc(), *text);
        assert_eq!(rt; fault_of(&found), *fault);
        assert_eq!(rt; found.is_ok(), fault.is_none());
    }
    one_catalog();
}

#[test]
fn a_catalogue_has_16_relations_of_32_columns_at_most(rt: HostRuntime) -> Result<(), TextErr> {
    let alloc = rt.alloc();
    let entry: [&[u8]; 2] = [b"relation r", b" from \"f\" (x = int4)\n"];
    let column: [&[u8]; 2] = [b"c", b" = int4, "];
    let front = b"relation R from \"f\" (".as_slice();
    let text = numbered(alloc, b"", entry, 16, b"")?;
    let catalog = read(alloc, text.as_slice())?;
    assert_eq!(rt; catalog.len(), 16);
    let text = numbered(alloc, b"", entry, 17, b"")?;
    assert_eq!(rt;
        fault_of(&read(alloc, text.as_slice())),
        Some((17, 10, What::TooManyRelations))
    );
    let text = numbered(alloc, front, column, 31, b"z = text null) index z")?;
    let catalog = read(alloc, text.as_slice())?;
    match catalog.items() {
        [relation] => {
            assert!(rt; relation.name.items() == b"R".as_slice());
            assert!(rt; relation.file.items() == b"f".as_slice());
            assert_eq!(rt; relation.index, Some(31));
            match relation.columns.items() {
                [.., last] => {
                    assert!(rt; last.name.items() == b"z".as_slice());
                    assert!(rt; last.col_type == ColType::Text && last.nullable);
                }
                _ => panic!(rt; "no column"),
            }
        }
        _ => panic!(rt; "not one relation"),
    }
    let text = numbered(alloc, front, column, 32, b"caa = text)")?;
    assert_eq!(rt;
        fault_of(&read(alloc, text.as_slice())),
        Some((1, 406, What::TooManyColumns))
    );
    Ok(())
}

// What a table of these columns is.
fn load(alloc: Global, catalog: &Catalog, text: &[u8]) -> Result<Rows, LoadErr> {
    match catalog.items() {
        [relation] if relation.columns.len() <= 32 => load_table(alloc, text, relation),
        _ => Err(LoadErr::NoMemory),
    }
}

fn table_fault_of(read: &Result<Rows, LoadErr>) -> Option<(u32, u32, TableWhat)> {
    match read {
        Err(
            LoadErr::Fault {
                number,
                column,
                what,
            },
        ) => Some((*number, *column, *what)),
        _ => None,
    }
}

#[test]
fn each_table_has_its_first_fault_or_none(rt: HostRuntime) -> Result<(), TextErr> {
    let alloc = rt.alloc();
    let catalog = read(
        alloc,
        b"relation T from \"t\" (n = text, a = int4 null, b = bool)",
    )?;
    let table: [(&[u8], Option<(u32, u32, TableWhat)>); 19] = [
        (b"", Some((1, 0, TableWhat::NoHeader))),
        (b"\n\n", Some((1, 0, TableWhat::NoHeader))),
        (b"n,a,b", None),
        (b"n,a", Some((1, 3, TableWhat::BadHeader))),
        (b"n,a,b,c\nx,1,t\n", Some((1, 4, TableWhat::BadHeader))),
        (b"n,A,b\n", Some((1, 2, TableWhat::BadHeader))),
        (b"n,a,b\nx,1\n", Some((2, 0, TableWhat::FieldCount))),
        (b"n,a,b\n\xff,1\n", Some((2, 0, TableWhat::FieldCount))),
        (
            b"n,a,b\nx,1,t\nx,1,t,t\nx,-,t\n",
            Some((3, 0, TableWhat::FieldCount)),
        ),
        (b"n,a,b\nx,1x,maybe\n", Some((2, 2, TableWhat::NotInt4))),
        (
            b"n,a,b\nx,2147483648,t\n",
            Some((2, 2, TableWhat::OutOfInt4)),
        ),
        (b"n,a,b\nx,-2147483648,t\n", None),
        (b"n,a,b\nx,+7,true\n", None),
        (b"n,a,b\nx, 7,t\n", Some((2, 2, TableWhat::NotInt4))),
        (b"n,a,b\nx,7,\n", Some((2, 3, TableWhat::NotBool))),
        (b"n,a,b\nx,7,T\n", Some((2, 3, TableWhat::NotBool))),
        (b"n,a,b\n\xc3,,t\n", Some((2, 1, TableWhat::NotUtf8))),
        (b"\xef\xbb\xbfn,a,b\r\nx,1,t\r\n", None),
        (
            b"\"n\",a,b\n\"a\nb\",1,t\n\"c\"\"d\",2,yes",
            Some((3, 3, TableWhat::NotBool)),
        ),
    ];
    for (text, fault) in table.iter() {
        let found = load(alloc, &catalog, *text);
        assert_eq!(rt; table_fault_of(&found), *fault);
        assert_eq!(rt; found.is_ok(), fault.is_none());
    }
    Ok(())
}

#[test]
fn rows_are_the_records_behind_the_header(rt: HostRuntime) -> Result<(), TextErr> {
    let alloc = rt.alloc();
    let catalog = read(
        alloc,
        b"relation T from \"t\" (n = text, a = int4 null, b = bool)",
    )?;
    let text = b"\xef\xbb\xbfn,a,b\r\n\"a\"\"b,\nc\",,t\r\n,-12,false".as_slice();
    let rows = match load(alloc, &catalog, text) {
        Ok(rows) => rows,
        Err(_) => panic!(rt; "a fault"),
    };
    assert_eq!(rt; rows.len(), 2);
    for (place, row) in rows.items().iter().enumerate() {
        match (place, row.items()) {
            (0, [Value::Word(n), Value::Null, Value::Truth(b)]) => {
                assert!(rt; n.items() == b"a\"b,\nc".as_slice() && *b)
            }
            (1, [Value::Word(n), Value::Number(a), Value::Truth(b)]) => {
                assert!(rt; n.items().is_empty() && *a == -12 && !*b)
            }
            _ => panic!(rt; "another row"),
        }
    }
    Ok(())
}

#[test]
fn a_row_fills_a_page_to_its_last_byte(rt: HostRuntime) -> Result<(), TextErr> {
    let alloc = rt.alloc();
    let catalog = read(
        alloc,
        b"relation T from \"t\" (a = text, b = text, c = text, d = text, e = text)",
    )?;
    for (sizes, fault) in [
        ([2000, 2000, 2000, 2000, 158], None),
        (
            [2000, 2000, 2000, 2000, 159],
            Some((2, 0, TableWhat::RowTooLong)),
        ),
        (
            [2000, 2001, 2000, 2000, 159],
            Some((2, 2, TableWhat::TextTooLong)),
        ),
    ] {
        let mut text = Vec::from_slice(alloc, b"a,b,c,d,e\n")?;
        for size in sizes {
            for _ in 0..size {
                text.push(b'x')?;
            }
            text.push(b',')?;
        }
        let _ = text.pop();
        let found = load(alloc, &catalog, text.as_slice());
        assert_eq!(rt; table_fault_of(&found), fault);
        assert_eq!(rt; found.is_ok(), fault.is_none());
    }
    Ok(())
}

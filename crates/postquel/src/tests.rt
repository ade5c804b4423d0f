use crate::{BinaryOp, Form, Script, TargetForm, TextErr, What, lex, one_reading, parse, print};
use std::alloc::Global;
use std::test::Fail;

fn read(alloc: Global, text: &[u8]) -> Result<Script, TextErr> {
    if text.len() > 10_000 {
        return Err(TextErr::NoMemory);
    }
    let tokens = lex(alloc, text)?;
    parse(alloc, &tokens)
}

// A text of a front, a piece so many times, a middle, another piece so many times, and a back.
fn repeated(alloc: Global, parts: [&[u8]; 5], times: usize) -> Result<Vec<u8>, TextErr> {
    let mut text = Vec::new(alloc);
    text.extend_from_slice(parts[0])?;
    for _ in 0..times {
        text.extend_from_slice(parts[1])?;
    }
    text.extend_from_slice(parts[2])?;
    for _ in 0..times {
        text.extend_from_slice(parts[3])?;
    }
    text.extend_from_slice(parts[4])?;
    Ok(text)
}

fn fault_of(read: &Result<Script, TextErr>) -> Option<(u32, u32, What)> {
    match read {
        Err(TextErr::Fault { line, col, what }) => Some((*line, *col, *what)),
        _ => None,
    }
}

#[test]
fn each_text_has_its_first_fault_or_none(rt: HostRuntime) {
    let table: [(&[u8], Option<(u32, u32, What)>); 22] = [
        (b"", None),
        (
            b"retrieve(x=(1+2)*3,EMP.all)where not(true or false)\\g",
            None,
        ),
        (b"machine 2 after 01,8 after 3\\g", None),
        (b"machine 2 after 1 \\g retrieve (x = 1) \\g", None),
        (
            b"retrieve (count = sum.max, after = count.after, n = count(a.b)) \\g",
            None,
        ),
        (
            b"retrieve unique into T (a.b) from a in A, b in B where a.x is not null and b.y is null sort by b using >, c using <, d \\g",
            None,
        ),
        (b"retrieve (EMP.name)\n", Some((2, 1, What::Unexpected))),
        (
            b"retrieve (EMP.name) where EMP.name = \"ab",
            Some((1, 38, What::UnclosedText)),
        ),
        (
            b"retrieve (x = 9223372036854775808) \\g",
            Some((1, 15, What::BigNumber)),
        ),
        (
            b"retrieve (x = count(a.b) + 1) \\g",
            Some((1, 26, What::Unexpected)),
        ),
        (
            b"retrieve (x = count + 1) \\g",
            Some((1, 21, What::Unexpected)),
        ),
        (b"retrieve (where = 1) \\g", Some((1, 11, What::Unexpected))),
        (
            b"retrieve (x = a.b = 1 = 2) \\g",
            Some((1, 23, What::Unexpected)),
        ),
        (
            b"retrieve (x = 1 is not 2) \\g",
            Some((1, 24, What::Unexpected)),
        ),
        (b"retrieve (x = - - 1) \\g", Some((1, 17, What::Unexpected))),
        (
            b"retrieve into (x = 1) \\g",
            Some((1, 15, What::Unexpected)),
        ),
        (
            b"retrieve (x = 1) where \\g",
            Some((1, 24, What::Unexpected)),
        ),
        (b"machine 2 before 1 \\g", Some((1, 11, What::Unexpected))),
        (
            b"retrieve (x = 1) \\g machine 2 after 1 \\g",
            Some((1, 21, What::Unexpected)),
        ),
        (
            b"retrieve (x = 1) sort by a using = \\g",
            Some((1, 34, What::Unexpected)),
        ),
        (b"retrieve () \\g", Some((1, 11, What::Unexpected))),
        (b"retrieve (x = 1)) ; \\g", Some((1, 19, What::BadChar))),
    ];
    for (text, want) in table.iter() {
        let found = read(rt.alloc(), *text);
        assert_eq!(rt; found.is_ok(), want.is_none());
        assert_eq!(rt; fault_of(&found), *want);
    }
    one_reading();
}

#[test]
fn limits_stand_at_their_tokens(rt: HostRuntime) -> Result<(), Fail> {
    let table: [([&[u8]; 5], usize, Option<(u32, u32, What)>); 11] = [
        ([b"retrieve (x = ", b"(", b"1", b")", b") \\g"], 31, None),
        (
            [b"retrieve (x = ", b"(", b"1", b")", b") \\g"],
            32,
            Some((1, 46, What::TooDeep)),
        ),
        (
            [b"retrieve (x = 1) where ", b"(", b"1", b")", b" \\g"],
            32,
            None,
        ),
        (
            [b"retrieve (x = 1) where ", b"(", b"1", b")", b" \\g"],
            33,
            Some((1, 56, What::TooDeep)),
        ),
        (
            [b"retrieve (x = sum(", b"(", b"1", b")", b")) \\g"],
            31,
            Some((1, 49, What::TooDeep)),
        ),
        ([b"retrieve (x = 1", b" + 1", b"", b"", b") \\g"], 496, None),
        (
            [b"retrieve (x = 1", b" + 1", b"", b"", b") \\g"],
            497,
            Some((1, 2006, What::StatementTooLong)),
        ),
        (
            [b"machine 1 after 1", b", 1 after 1", b"", b"", b" \\g"],
            248,
            None,
        ),
        (
            [b"machine 1 after 1", b", 1 after 1", b"", b"", b" \\g"],
            249,
            Some((1, 2758, What::StatementTooLong)),
        ),
        ([b"", b"retrieve (x = 1) \\g\n", b"", b"", b""], 16, None),
        (
            [b"", b"retrieve (x = 1) \\g\n", b"", b"", b""],
            17,
            Some((17, 1, What::TooManyStatements)),
        ),
    ];
    for (parts, times, want) in table.iter() {
        let text = match repeated(rt.alloc(), *parts, *times) {
            Ok(text) => text,
            Err(_) => panic!(rt; "no memory"),
        };
        let found = read(rt.alloc(), text.as_slice());
        assert_eq!(rt; found.is_ok(), want.is_none());
        assert_eq!(rt; fault_of(&found), *want);
    }
    Ok(())
}

#[test]
fn a_script_offers_its_steps_and_statements(rt: HostRuntime) {
    let text = b"machine 2 after 1, 8 after 30 \\g retrieve (x = 1 - 2 - 3) sort by x using > \\g";
    let script = match read(rt.alloc(), text) {
        Ok(script) => script,
        Err(_) => panic!(rt; "a fault"),
    };
    for (step, want) in script
        .machine()
        .items()
        .iter()
        .zip([(2, 1, 9), (8, 30, 20)])
    {
        let found = (step.backends, step.after, step.backends_spot.col);
        assert_eq!(rt; found, want);
    }
    assert_eq!(rt; (script.machine().len(), script.len()), (2, 1));
    let statement = script.get(0);
    for key in statement.keys.items() {
        assert!(rt; key.down && !statement.unique);
    }
    for target in statement.targets.items() {
        match target {
            TargetForm::Named {
                form: Form::Binary { op, spot, left, .. },
                ..
            } => {
                assert!(rt; *op == BinaryOp::Sub && spot.col == 54);
                assert!(rt; matches!(&**left, Form::Binary { .. }));
            }
            _ => panic!(rt; "another target"),
        }
    }
}

fn printed(alloc: Global, text: &[u8]) -> Result<Vec<u8>, TextErr> {
    let script = read(alloc, text)?;
    Ok(print(alloc, &script)?)
}

#[test]
fn a_script_prints_and_prints_the_same_when_read_again(rt: HostRuntime) {
    let table: [(&[u8], &[u8]); 6] = [
        (b"", b""),
        (
            b"retrieve(x=(1+2)*3,EMP.all)where not(true or false)\\g",
            b"retrieve (x = (1 + 2) * 3, EMP.all) where not (true or false) \\g\n",
        ),
        (
            b"machine 2 after 01,8 after 3\\g",
            b"machine 2 after 1, 8 after 3 \\g\n",
        ),
        (
            b"retrieve (x = a.b - (a.c - 1) - -(2), y = (a.b) * (-1 + 1), z = (1 = 2) is null)\\g",
            b"retrieve (x = a.b - (a.c - 1) - -2, y = a.b * (-1 + 1), z = (1 = 2) is null) \\g\n",
        ),
        (
            b"retrieve unique into T (n = count(a.b)) from a in A , b in B where ((a.x) is not null) and (true or a.t = \"q\\\"\\\\\") sort by b using >, c using <\\g",
            b"retrieve unique into T (n = count(a.b)) from a in A, b in B where a.x is not null and (true or a.t = \"q\\\"\\\\\") sort by b using >, c \\g\n",
        ),
        (
            b"retrieve (x = 1) where not (not true) and (not true) or false \\g",
            b"retrieve (x = 1) where not (not true) and not true or false \\g\n",
        ),
    ];
    for (text, want) in table.iter() {
        match (printed(rt.alloc(), *text), printed(rt.alloc(), *want)) {
            (Ok(once), Ok(twice)) => {
                assert!(rt; once.as_slice() == *want && twice.as_slice() == *want);
            }
            _ => panic!(rt; "a fault"),
        }
    }
}

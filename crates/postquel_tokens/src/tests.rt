use crate::{Sign, TextErr, TokenKind, What, lex};
use std::test::Fail;

#[test]
fn each_fault_of_a_token_stands_at_its_place(rt: HostRuntime) {
    let table: [(&[u8], u32, u32, What); 16] = [
        (
            b"a\n  b234567890123456789012345678901z",
            2,
            3,
            What::LongName,
        ),
        (b" 9223372036854775808", 1, 2, What::BigNumber),
        (b"a = \"ab", 1, 5, What::UnclosedText),
        (b"\"ab\n\\x\"", 1, 1, What::UnclosedText),
        (b"\"a\\xb\n\"", 1, 3, What::BadEscape),
        (b"\n\"a\\", 2, 3, What::BadEscape),
        (b"\"a\\\n\"", 1, 3, What::BadEscape),
        (b"a !b", 1, 3, What::BadChar),
        (b"a !", 1, 3, What::BadChar),
        (b"\\x", 1, 1, What::BadChar),
        (b"\r\n\t;", 2, 2, What::BadChar),
        (b"; \xff", 1, 3, What::NotUtf8),
        (b"retrieve (x = 1) \\g\n\xff", 2, 1, What::NotUtf8),
        (b"\"\xc3", 1, 2, What::NotUtf8),
        (b"\xc3\xa9", 1, 1, What::BadChar),
        (b"; 9223372036854775808", 1, 1, What::BadChar),
    ];
    for (text, line, col, what) in table.iter() {
        match lex(rt.alloc(), *text) {
            Err(
                TextErr::Fault {
                    line: l,
                    col: c,
                    what: w,
                },
            ) => assert_eq!(rt; (l, c, w), (*line, *col, *what)),
            _ => panic!(rt; "no fault"),
        }
    }
}

#[test]
fn tokens_are_the_longest_and_end_with_the_end(rt: HostRuntime) {
    let text = b"a_1<=<9223372036854775807\n\"q\\\"\\\\\"\\g b234567890123456789012345678901";
    let tokens = match lex(rt.alloc(), text) {
        Ok(tokens) => tokens,
        Err(_) => panic!(rt; "a fault"),
    };
    assert_eq!(rt; tokens.len(), 8);
    for (place, token) in tokens.items().iter().enumerate() {
        let spot = (token.spot.line, token.spot.col);
        match (&token.kind, place) {
            (TokenKind::Name(name), 0) => assert!(rt;
                name.items() == b"a_1".as_slice() && spot == (1, 1)
            ),
            (TokenKind::Mark(Sign::AtMost), 1) => assert!(rt; spot == (1, 4)),
            (TokenKind::Mark(Sign::Less), 2) => assert!(rt; spot == (1, 6)),
            (TokenKind::Number(n), 3) => assert!(rt; *n == i64::MAX && spot == (1, 7)),
            (TokenKind::Word(word), 4) => assert!(rt;
                word.items() == b"q\"\\".as_slice() && spot == (2, 1)
            ),
            (TokenKind::Mark(Sign::Go), 5) => assert!(rt; spot == (2, 8)),
            (TokenKind::Name(name), 6) => assert!(rt; name.items().len() == 31),
            (TokenKind::End, 7) => assert!(rt; spot == (2, 42)),
            _ => panic!(rt; "another token at {place}"),
        }
    }
}

//! Texts, divided or refused.
use std::test::Fail;
use vlog_tokens::{Kind, LexError, Token, tokens};
use word_core::Place;

type Found = (&'static [u8], u32, Kind);

fn is(token: &Token<'_>, wanted: Found) -> bool {
    token.text() == wanted.0 && token.from() == wanted.1 && token.kind() == wanted.2
}

/// Texts, and the bytes, the offset and the kind of each of their tokens.
const TEXTS: [(&[u8], &[Found]); 6] = [
    (
        b"a/*x*/<=8'hF_f;",
        &[
            (b"a", 0, Kind::Name),
            (b"<=", 6, Kind::Mark),
            (b"8'hF_f", 8, Kind::Number),
            (b";", 14, Kind::Mark),
        ],
    ),
    (
        b"4'b12",
        &[(b"4'b1", 0, Kind::Number), (b"2", 4, Kind::Number)],
    ),
    (
        b"(*)",
        &[
            (b"(", 0, Kind::Mark),
            (b"*", 1, Kind::Mark),
            (b")", 2, Kind::Mark),
        ],
    ),
    (
        b"(* )$x//y",
        &[
            (b"(", 0, Kind::Mark),
            (b"*", 1, Kind::Mark),
            (b")", 3, Kind::Mark),
            (b"$x", 4, Kind::Keyword),
        ],
    ),
    (
        b"(**)end /**/<<<=",
        &[
            (b"end", 4, Kind::Keyword),
            (b"<<<", 12, Kind::Mark),
            (b"=", 15, Kind::Mark),
        ],
    ),
    (
        b"1_0'b1(*)*)y",
        &[
            (b"1_0'b1", 0, Kind::Number),
            (b"(", 6, Kind::Mark),
            (b"*", 7, Kind::Mark),
            (b")", 8, Kind::Mark),
            (b"*", 9, Kind::Mark),
            (b")", 10, Kind::Mark),
            (b"y", 11, Kind::Name),
        ],
    ),
];

/// Texts that are refused at this line and column, and why.
const REFUSED: [(&[u8], LexError); 11] = [
    (
        b"4294967296",
        LexError::BadNumber {
            at: Place { line: 1, col: 1 },
        },
    ),
    (
        b"\n 129'b0",
        LexError::BadNumber {
            at: Place { line: 2, col: 2 },
        },
    ),
    (
        b"8'dx",
        LexError::BadNumber {
            at: Place { line: 1, col: 1 },
        },
    ),
    (
        b"a (* b",
        LexError::Unclosed {
            at: Place { line: 1, col: 3 },
        },
    ),
    (
        b"/*/",
        LexError::Unclosed {
            at: Place { line: 1, col: 1 },
        },
    ),
    (
        b"8'dz",
        LexError::BadChar {
            at: Place { line: 1, col: 2 },
        },
    ),
    (
        b"8'",
        LexError::BadChar {
            at: Place { line: 1, col: 2 },
        },
    ),
    (
        b"'b_1",
        LexError::BadChar {
            at: Place { line: 1, col: 1 },
        },
    ),
    (
        b"3'o8",
        LexError::BadChar {
            at: Place { line: 1, col: 2 },
        },
    ),
    (
        b"a$ $ ",
        LexError::BadChar {
            at: Place { line: 1, col: 4 },
        },
    ),
    (
        b"$ // ` \n`",
        LexError::BadDirective {
            at: Place { line: 2, col: 1 },
        },
    ),
];

#[test]
fn texts_divide(rt: HostRuntime) -> Result<(), Fail> {
    for (text, wanted) in TEXTS {
        let found = tokens(rt.alloc(), text)?;
        assert_eq!(rt; found.len(), wanted.len());
        for (index, token) in found.as_slice().iter().enumerate() {
            assert!(rt; is(token, wanted.get(index).copied().ok_or("one token more")?));
        }
    }
    Ok(())
}

#[test]
fn texts_are_refused(rt: HostRuntime) -> Result<(), Fail> {
    for (text, error) in REFUSED {
        match tokens(rt.alloc(), text) {
            Ok(_) => return Err("not refused".into()),
            Err(found) => assert!(rt; found == error),
        }
    }
    Ok(())
}

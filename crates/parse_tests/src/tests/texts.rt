//! Texts that have no tree.
use std::test::Fail;
use vlog_modules::{ParseError, TextError, parse};
use word_core::Place;

/// Texts, where they are refused, and what is expected there.
const EXPECTED: [(&[u8], Place, &[u8]); 3] = [
    (b"", Place { line: 1, col: 1 }, b"module"),
    (b"/* x */\n", Place { line: 2, col: 1 }, b"module"),
    (
        b"module m(input a)\nendmodule",
        Place { line: 2, col: 1 },
        b";",
    ),
];

#[test]
fn what_was_expected_is_named(rt: HostRuntime) -> Result<(), Fail> {
    for (text, place, wanted) in EXPECTED {
        match parse(rt.alloc(), text) {
            Err(TextError::Parse(ParseError::Expected { at, what })) => {
                assert!(rt; at == place);
                assert!(rt; what.bytes() == wanted);
            }
            _ => return Err("not refused so".into()),
        }
    }
    Ok(())
}

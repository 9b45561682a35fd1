//! Texts of tokens.
use std::test::Fail;
use token_text::print_tokens;
use vlog_tokens::tokens;

/// Texts, and what is written for their tokens.
const TEXTS: [(&[u8], &[u8]); 4] = [
    (b"", b""),
    (b"a/*x*/<=8'hF_f;", b"a <= 8'hF_f ;\n"),
    (b"(*)< =(* z *)-  >", b"( * ) < = - >"),
    (
        b"module m;;endmodule endmodule m",
        b"module m ;\n;\nendmodule\nendmodule\nm",
    ),
];

#[test]
fn tokens_are_written(rt: HostRuntime) -> Result<(), Fail> {
    for (text, wanted) in TEXTS {
        let found = tokens(rt.alloc(), text)?;
        let written = print_tokens(rt.alloc(), found.as_slice())?;
        assert!(rt; written.as_slice() == wanted);
    }
    Ok(())
}

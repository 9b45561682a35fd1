//! Texts and their claims.
use cert_text::read_cert;
use source_check::{CheckError, SourceError, check, front, judge};
use std::test::Fail;
use vlog_modules::parse;

const TEXT: &[u8] =
    b"module t(input clk, input a, output reg q); always @(posedge clk) q <= a; endmodule";

const CERT: &[u8] =
    b"unr 1\ntop t\nclock clk\ncycles 0\npoints s\nclaims 1\nS t #1\nreached 0\nstart 0\nin 0\nend\n";

// The stimulus has one line too few for cycle 1.
const LATE: &[u8] =
    b"unr 1\ntop t\nclock clk\ncycles 0\npoints s\nclaims 1\nS t #1\nreached 1\nstart 0\nin 0\nend\n";

// A register that starts with 1, and an arm.
const LOGIC: &[u8] =
    b"module t(input clk, input a, output reg q = 1'b1); always @(posedge clk) if (~a | q) q <= ~q; endmodule";

const LOGIC_CERT: &[u8] =
    b"unr 1\ntop t\nclock clk\ncycles 0\npoints s\nclaims 1\nS t #1\nreached 0\nstart 1\nin 1\nend\n";

// A branch in an arm of a branch.
const ARMS: &[u8] =
    b"module t(input clk, input a, output reg q); always @(posedge clk) if (a) begin if (q) q <= 1'b0; end else q <= 1'b1; endmodule";

// Certificates without claims, and the points of their kinds.
const NO_CLAIMS: [(&[u8], &[&[u8]]); 3] = [
    (
        b"unr 1\ntop t\nclock clk\ncycles 0\npoints s\nclaims 0\n",
        &[b"S t #1", b"S t #2"],
    ),
    (
        b"unr 1\ntop t\nclock clk\ncycles 0\npoints b\nclaims 0\n",
        &[
            b"B t #1 then",
            b"B t #1 else",
            b"B t #2 then",
            b"B t #2 else",
        ],
    ),
    (
        b"unr 1\ntop t\nclock clk\ncycles 0\npoints sb\nclaims 0\n",
        &[
            b"S t #1",
            b"S t #2",
            b"B t #1 then",
            b"B t #1 else",
            b"B t #2 then",
            b"B t #2 else",
        ],
    ),
];

const NOT_BUILT: [&[u8]; 8] = [
    b"module t(input clk, input [128:0] a, output reg q); always @(posedge clk) q <= 1'b0; endmodule",
    b"module t(input clk, input a, output reg q); always @(posedge clk) q[0] <= a; endmodule",
    b"module t(input clk, input a, output reg q); always @(posedge clk) q <= a / 1'b1; endmodule",
    b"module u(input clk, input a, output reg q); always @(posedge clk) q <= a; endmodule",
    b"module t(input clk, input clk, output reg q); always @(posedge clk) q <= clk; endmodule",
    b"module t(input clk, input a, output reg q); always @(posedge clk) q <= clk; endmodule",
    b"module t(input clk, input a, output reg q); always @(posedge clk) if (clk) q <= a; endmodule",
    b"module t(input clk, input a, output reg q); endmodule",
];

#[test]
fn checks(rt: HostRuntime) -> Result<(), Fail> {
    let alloc = rt.alloc();
    assert_eq!(rt; check(alloc, TEXT, CERT)?.len(), 1);
    assert_eq!(rt; check(alloc, LOGIC, LOGIC_CERT)?.len(), 1);
    assert!(rt; matches!(check(alloc, TEXT, LATE), Err(CheckError::NotHit { .. })));
    for text in NOT_BUILT {
        let found = check(alloc, text, CERT);
        assert!(rt; matches!(found, Err(CheckError::Source(SourceError::NotBuilt { .. }))));
    }
    Ok(())
}

#[test]
fn judges(rt: HostRuntime) -> Result<(), Fail> {
    let alloc = rt.alloc();
    let tree = parse(alloc, TEXT)?;
    let cert = read_cert(alloc, CERT)?;
    assert_eq!(rt; judge(alloc, &tree, &cert)?.len(), 1);
    let front = front(alloc, TEXT, &cert.setup)?;
    assert_eq!(rt; front.points.len(), 1);
    assert_eq!(rt; front.legal.design().registers.as_slice(), [2].as_slice());
    Ok(())
}

#[test]
fn lists_points(rt: HostRuntime) -> Result<(), Fail> {
    let alloc = rt.alloc();
    for (text, names) in NO_CLAIMS {
        let cert = read_cert(alloc, text)?;
        let front = front(alloc, ARMS, &cert.setup)?;
        assert_eq!(rt; front.points.len(), names.len());
        for (point, name) in front.points.as_slice().iter().zip(names) {
            assert_eq!(rt; point.name.bytes(), *name);
        }
        assert!(rt; matches!(check(alloc, ARMS, text), Err(CheckError::Missing { .. })));
    }
    Ok(())
}

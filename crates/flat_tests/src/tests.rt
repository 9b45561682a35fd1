//! The designs of texts.
use design_core::flat::Design;
use design_core::setup::{Kinds, Setup};
use elab_flat::{FlatError, flatten};
use sqlite_items::Items;
use std::alloc::{AllocError, Global};
use std::test::Fail;
use vlog_modules::parse;
use word_core::Name;

// A counter of four bits that starts with 10.
const COUNTER: &[u8] =
    b"module t(input clk, input up, output reg [3:0] q = 4'd10); always @(posedge clk) if (up) q <= q + 4'd1; endmodule";

// The first index is that of the most significant bit.
const TURNED: &[u8] =
    b"module t(input clk, input [0:2] a, output reg [0:7] q = 1); always @(posedge clk) q <= a; endmodule";

// Two items that assign a half each.
const HALVES: &[u8] =
    b"module t(input clk, input a, output reg [1:0] q); always @(posedge clk) q[0] <= a; always @(posedge clk) q[1] <= ~a; endmodule";

// No text here has a design.
const NOT_BUILT: [&[u8]; 10] = [
    b"module t(input clk, input a, output reg [1:0] q); always @(posedge clk) q <= q / 2; endmodule",
    b"module t(input clk, input [128:0] a, output reg q); always @(posedge clk) q <= a; endmodule",
    b"module t(input clk, input a, output reg [1:0] q); always @(posedge clk) q[0] <= a; endmodule",
    b"module t(input clk, input a, output reg q); always @(posedge clk) q <= a; always @(posedge clk) q <= ~a; endmodule",
    b"module t(input clk, input a, output reg q); always @(posedge clk) q <= clk; endmodule",
    b"module t(input clk, input clk, output reg q); always @(posedge clk) q <= 1'b0; endmodule",
    b"module t(input [1:0] clk, output reg q); always @(posedge clk) q <= 1'b0; endmodule",
    b"module t(input clk, input [4'd1:0] a, output reg q); always @(posedge clk) q <= a; endmodule",
    b"module t(input clk, input [4294967295:4294967290] a, output reg q); always @(posedge clk) q <= a; endmodule",
    b"module t(input clk, input [7:0] a, output reg q); always @(posedge clk) begin q <= 1'b0; a[9] <= 1'b1; end endmodule",
];

// Under the clock `clk`, with no prelude.
fn setup(alloc: Global) -> Result<Setup, AllocError> {
    Ok(Setup {
        top: Name::make(alloc, b"t")?,
        clock: Name::make(alloc, b"clk")?,
        hold: Items::new(alloc),
        cycles: 0,
        kinds: Kinds {
            s: true,
            b: true,
            r: false,
            t: false,
            f: false,
        },
        fsm: Items::new(alloc),
    })
}

// The name of a bit.
fn name(design: &Design, bit: usize) -> &[u8] {
    match design.bits.as_slice().get(bit) {
        Some(bit) => bit.name.bytes(),
        None => b"",
    }
}

#[test]
fn counts(rt: HostRuntime) -> Result<(), Fail> {
    let alloc = rt.alloc();
    let design = flatten(alloc, &parse(alloc, COUNTER)?, &setup(alloc)?)?;
    assert_eq!(rt; design.inputs.as_slice(), [1].as_slice());
    assert_eq!(rt; design.registers.as_slice(), [2, 3, 4, 5].as_slice());
    assert_eq!(rt; name(&design, 5), b"t.q[3]".as_slice());
    assert_eq!(rt; design.sites.len(), 3);
    Ok(())
}

#[test]
fn turns_and_halves(rt: HostRuntime) -> Result<(), Fail> {
    let alloc = rt.alloc();
    let turned = flatten(alloc, &parse(alloc, TURNED)?, &setup(alloc)?)?;
    assert_eq!(rt; name(&turned, 1), b"t.a[2]".as_slice());
    assert_eq!(rt; name(&turned, 11), b"t.q[0]".as_slice());
    let halves = flatten(alloc, &parse(alloc, HALVES)?, &setup(alloc)?)?;
    assert_eq!(rt; halves.processes.len(), 2);
    Ok(())
}

#[test]
fn refuses(rt: HostRuntime) -> Result<(), Fail> {
    let alloc = rt.alloc();
    let setup = setup(alloc)?;
    for text in NOT_BUILT {
        let found = flatten(alloc, &parse(alloc, text)?, &setup);
        assert!(rt; matches!(found, Err(FlatError::NotBuilt { .. })));
    }
    Ok(())
}

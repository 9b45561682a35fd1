// What is proved of a text, below the command `prove`.
use design_core::setup::Kinds;
use std::test::Fail;
use text_prover::prove_text;

const TEXT: &[u8] =
    b"module u(input clk, input a, output reg q = 1'b0, output reg r = 1'b0, output reg e); \
    always @(posedge clk) begin q <= a; r <= a; if (q & ~r) e <= 1'b1; end endmodule";

// How its certificate begins. The hints of a proof's line may stand in another order.
const FRONT: &[u8] = b"unr 1\ntop u\nclock clk\ncycles 0\npoints s\nclaims 3\n\
    S u #1\nreached 0\nstart 000\nin 0\nend\nS u #2\nreached 0\nstart 000\nin 0\nend\n\
    S u #3\nexcluded 1\nl all -u.q u.r\nstep 1 1 0\n5 0 ";

// So begins every one.
const FIRST: &[u8] = b"unr 1\n";

const STATEMENTS: Kinds = Kinds {
    s: true,
    b: false,
    r: false,
    t: false,
    f: false,
};

#[test]
fn proves(rt: HostRuntime) -> Result<(), Fail> {
    for (effort, cert, used) in [(1000, FRONT, [0, 0, 0]), (1, FIRST, [0, 0, 1])] {
        let proven = prove_text(rt.alloc(), TEXT, b"u", b"clk", STATEMENTS, effort)?;
        assert!(rt; proven.cert.starts_with(cert));
        assert_eq!(rt; proven.used.as_slice(), used.as_slice());
    }
    Ok(())
}

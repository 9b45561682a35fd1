// The command `prove`.
use crate::tests::running::{NONE, lines, run_over};
use std::alloc::Global;
use std::process::Abort;
use std::test::Fail as TestFail;
use unr_io::{Fail, Files};

// A condition that is never true.
const NEVER: &[u8] = b"module t(input clk, input a, output reg q); \
    always @(posedge clk) if (q & ~q) q <= 1'b1; else q <= a; endmodule";

const NEVER_CERT: (&str, usize) = (
    "unr 1|top t|clock clk|cycles 0|points s|claims 2|S t #1|excluded 0|hit 1 0|3 0 ",
    123,
);

// The same with the points of branch arms.
const ARMS_CERT: (&str, usize) = (
    "unr 1|top t|clock clk|cycles 0|points sb|claims 4|S t #1|excluded 0|hit 1 0|3 0 ",
    208,
);

const ARMS_REPORT: &str =
    "excluded S t #1|reached 0 S t #2|excluded B t #1 then|reached 0 B t #1 else|\
    points 4 excluded 2 reached 2 open 0|";

// Two registers that are always alike.
const ALIKE: &[u8] =
    b"module u(input clk, input a, output reg q = 1'b0, output reg r = 1'b0, output reg e); \
    always @(posedge clk) begin q <= a; r <= a; if (q & ~r) e <= 1'b1; end endmodule";

const ALIKE_CERT: (&str, usize) = (
    "unr 1|top u|clock clk|cycles 0|points s|claims 3|\
    S u #1|reached 0|start 000|in 0|end|S u #2|reached 0|start 000|in 0|end|\
    S u #3|excluded 1|l all -u.q u.r|step 1 1 0|5 0 ",
    201,
);

const ALIKE_REPORT: &str =
    "reached 0 S u #1|reached 0 S u #2|excluded S u #3|points 3 excluded 1 reached 2 open 0|";

const ALIKE_ARMS_CERT: (&str, usize) = (
    "unr 1|top u|clock clk|cycles 0|points b|claims 2|\
    B u #1 then|excluded 1|l all -u.q u.r|step 1 1 0|5 0 ",
    175,
);

// The same, where the one unit is the query that is refuted, and none is left for its proof.
const OPEN_CERT: (&str, usize) = (
    "unr 1|top u|clock clk|cycles 0|points s|claims 3|\
    S u #1|reached 0|start 000|in 0|end|S u #2|reached 0|start 000|in 0|end|\
    S u #3|open 0 0|end|",
    141,
);

const OPEN_REPORT: &str = "reached 0 S u #1|reached 0 S u #2|open 0 S u #3 used 1 of 1|\
    points 3 excluded 0 reached 2 open 1|";

const PROVE: &str = "prove u.v --top u --clock clk --out p --points s";

// A token that goes round eight places, and a second one that never comes.
const RING: &[u8] =
    b"module g(input clk, input s, output reg a = 1'b1, output reg b = 1'b0, output reg c = 1'b0, output reg d = 1'b0, \
    output reg e = 1'b0, output reg f = 1'b0, output reg g = 1'b0, output reg h = 1'b0, output reg z); \
    always @(posedge clk) begin \
    if (s) begin a <= h; b <= a; c <= b; d <= c; e <= d; f <= e; g <= f; h <= g; end \
    if (a & (b | c | d | e | f | g | h) | b & (c | d | e | f | g | h) | c & (d | e | f | g | h) | d & (e | f | g | h) \
    | e & (f | g | h) | f & (g | h) | g & h) z <= 1'b1; \
    end endmodule";

const RING_REPORT: &str = "reached 0 S g #1|reached 0 S g #2|reached 0 S g #3|reached 0 S g #4|\
    reached 0 S g #5|reached 0 S g #6|reached 0 S g #7|reached 0 S g #8|excluded S g #9|\
    points 9 excluded 1 reached 8 open 0|";

// A bit that comes out after twelve cycles.
const SHIFT: &[u8] =
    b"module h(input clk, input i, output reg a = 1'b0, output reg b = 1'b0, output reg c = 1'b0, output reg d = 1'b0, \
    output reg e = 1'b0, output reg f = 1'b0, output reg g = 1'b0, output reg h = 1'b0, output reg j = 1'b0, output reg k = 1'b0, \
    output reg l = 1'b0, output reg m = 1'b0, output reg z); \
    always @(posedge clk) if (m) z <= 1'b1; \
    always @(posedge clk) begin \
    a <= i; b <= a; c <= b; d <= c; e <= d; f <= e; g <= f; h <= g; j <= h; k <= j; l <= k; m <= l; end endmodule";

const SHIFT_REPORT: &str = "reached 12 S h #1|reached 0 S h #2|reached 0 S h #3|reached 0 S h #4|\
    reached 0 S h #5|reached 0 S h #6|reached 0 S h #7|reached 0 S h #8|reached 0 S h #9|\
    reached 0 S h #10|reached 0 S h #11|reached 0 S h #12|reached 0 S h #13|\
    points 13 excluded 0 reached 13 open 0|";

// A sum as wide as its number, which has 32 bits: it is never 0.
const WIDE_SUM: &[u8] = b"module w(input clk, input [7:0] a, output reg q); \
    always @(posedge clk) if (a + 1 == 0) q <= 1'b1; else q <= 1'b0; endmodule";

const WIDE_REPORT: &str = "excluded S w #1|reached 0 S w #2|points 2 excluded 1 reached 1 open 0|";

// A sum of 8 bits.
const BYTE_SUM: &[u8] = b"module s(input clk, input [7:0] a, output reg q); \
    always @(posedge clk) if (a + 8'd1 == 8'd0) q <= 1'b1; else q <= 1'b0; endmodule";

const BYTE_REPORT: &str = "reached 0 S s #1|reached 0 S s #2|points 2 excluded 0 reached 2 open 0|";

// A run over the file u.v, and what it is to give. A bar stands for a line feed.
#[derive(Clone, Copy)]
struct Case<'a> {
    words: &'a str,
    text: &'a [u8],
    // The call of the desk that fails, and that of the output.
    fails: [Fail; 2],
    status: u8,
    // How the bytes in p.cert begin in the end, and how many there are. The hints of a proof's line may stand in another order.
    cert: Option<(&'a str, usize)>,
    // What p.excl holds.
    list: Option<&'a str>,
    out: &'a str,
    err: &'a str,
}

fn try_list(
    rt: &impl Abort,
    alloc: Global,
    held: Option<&[u8]>,
    wanted: Option<&str>,
) -> Result<(), TestFail> {
    match wanted {
        Some(text) => assert_eq!(rt; held, Some(lines(alloc, text)?.as_slice())),
        None => assert!(rt; held.is_none()),
    }
    Ok(())
}

fn try_cert(
    rt: &impl Abort,
    alloc: Global,
    held: Option<&[u8]>,
    wanted: Option<(&str, usize)>,
) -> Result<(), TestFail> {
    match (held, wanted) {
        (Some(bytes), Some((front, length))) => {
            assert!(rt; bytes.starts_with(&lines(alloc, front)?));
            assert_eq!(rt; bytes.len(), length);
        }
        (held, wanted) => assert_eq!(rt; held.is_some(), wanted.is_some()),
    }
    Ok(())
}

fn try_case(rt: &impl Abort, alloc: Global, case: &Case<'_>) -> Result<(), TestFail> {
    let mut files = Files::new(alloc);
    files.set(alloc, "u.v", case.text)?;
    let [desk, out] = case.fails;
    let ran = run_over(alloc, case.words, files, [desk, out, NONE])?;
    assert_eq!(rt; ran.err.bytes(), lines(alloc, case.err)?.as_slice());
    assert_eq!(rt; ran.out.bytes(), lines(alloc, case.out)?.as_slice());
    assert_eq!(rt; ran.status, case.status);
    try_cert(rt, alloc, ran.desk.file("p.cert"), case.cert)?;
    try_list(rt, alloc, ran.desk.file("p.excl"), case.list)
}

const PROVEN: Case<'static> = Case {
    words: PROVE,
    text: ALIKE,
    fails: [NONE, NONE],
    status: 0,
    cert: Some(ALIKE_CERT),
    list: Some("S u #3|"),
    out: ALIKE_REPORT,
    err: "",
};

const REFUSED: Case<'static> = Case {
    status: 4,
    cert: None,
    list: None,
    out: "",
    ..PROVEN
};

const FAILED: Case<'static> = Case {
    status: 3,
    ..REFUSED
};

#[test]
fn proves(rt: HostRuntime) -> Result<(), TestFail> {
    for case in [
        PROVEN,
        Case {
            words: "prove --out=p --effort 1 u.v --clock=clk --points s --top=u --cycles 0",
            status: 1,
            cert: Some(OPEN_CERT),
            list: Some(""),
            out: OPEN_REPORT,
            ..PROVEN
        },
        Case {
            words: "prove u.v --top t --clock clk --out p --points s",
            text: NEVER,
            cert: Some(NEVER_CERT),
            list: Some("S t #1|"),
            out: "excluded S t #1|reached 0 S t #2|points 2 excluded 1 reached 1 open 0|",
            ..PROVEN
        },
        // Without `--points`, all kinds that are built.
        Case {
            words: "prove u.v --top t --clock clk --out p",
            text: NEVER,
            cert: Some(ARMS_CERT),
            list: Some("S t #1|B t #1 then|"),
            out: ARMS_REPORT,
            ..PROVEN
        },
        // An `else` that isn't written has its point.
        Case {
            words: "prove u.v --top u --clock clk --out p --points b",
            cert: Some(ALIKE_ARMS_CERT),
            list: Some("B u #1 then|"),
            out: "excluded B u #1 then|reached 0 B u #1 else|points 2 excluded 1 reached 1 open 0|",
            ..PROVEN
        },
        Case {
            words: "prove u.v --top t --clock clk --out p",
            err: "unr: source 1:1 NotBuilt|",
            ..REFUSED
        },
        Case {
            text: b"",
            err: "unr: source 1:1 Expected module|",
            ..REFUSED
        },
    ] {
        try_case(&rt, rt.alloc(), &case)?;
    }
    Ok(())
}

#[test]
fn tells_where_it_failed(rt: HostRuntime) -> Result<(), TestFail> {
    for case in [
        Case {
            fails: [Fail { call: 1, kept: 3 }, NONE],
            err: "unr: fault u.v|",
            ..FAILED
        },
        Case {
            fails: [Fail { call: 2, kept: 10 }, NONE],
            cert: Some(("unr 1|top ", 10)),
            err: "unr: fault p.cert|",
            ..FAILED
        },
        Case {
            fails: [Fail { call: 3, kept: 3 }, NONE],
            cert: Some(ALIKE_CERT),
            list: Some("S u"),
            err: "unr: fault p.excl|",
            ..FAILED
        },
        Case {
            fails: [NONE, Fail { call: 1, kept: 3 }],
            cert: Some(ALIKE_CERT),
            list: Some("S u #3|"),
            out: "rea",
            err: "unr: fault output|",
            ..FAILED
        },
    ] {
        try_case(&rt, rt.alloc(), &case)?;
    }
    Ok(())
}

#[test]
fn finds_far_hits_invariants_and_widths(rt: HostRuntime) -> Result<(), TestFail> {
    let alloc = rt.alloc();
    for (top, text, report) in [
        ("g", RING, RING_REPORT),
        ("h", SHIFT, SHIFT_REPORT),
        ("w", WIDE_SUM, WIDE_REPORT),
        ("s", BYTE_SUM, BYTE_REPORT),
    ] {
        let words = format!(in alloc; "prove u.v --top {top} --clock clk --out p --points s")?;
        let mut files = Files::new(alloc);
        files.set(alloc, "u.v", text)?;
        let ran = run_over(alloc, words.as_str(), files, [NONE, NONE, NONE])?;
        assert_eq!(rt; ran.out.bytes(), lines(alloc, report)?.as_slice());
        assert_eq!(rt; ran.status, 0);
    }
    Ok(())
}

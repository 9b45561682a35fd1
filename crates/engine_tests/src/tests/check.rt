// The command `check`.
use crate::tests::running::{lines, run_over};
use std::alloc::{AllocError, Global};
use std::process::Abort;
use std::test::Fail as TestFail;
use unr_io::{Fail, Files};

const TEXT: &[u8] =
    b"module t(input clk, input a, output reg q); always @(posedge clk) q <= a; endmodule";

const CERT: &str =
    "unr 1|top t|clock clk|cycles 0|points s|claims 1|S t #1|reached 0|start 0|in 0|end|";

const REPORT: &[u8] = b"reached 0 S t #1\npoints 1 excluded 0 reached 1 open 0\n";

// Two registers, of which one is assigned in two arms.
const LOGIC: &[u8] = b"module t(input clk, input a, output reg x, output reg y); \
    always @(posedge clk) x <= ~y; always @(posedge clk) if (x & y) y <= a; else y <= x; endmodule";

const LOGIC_CERT: &str = "unr 1|top t|clock clk|cycles 0|points s|claims 3|\
    S t #1|reached 0|start 00|in 0|end|S t #2|reached 2|start 00|in 0|in 0|in 0|end|\
    S t #3|reached 0|start 00|in 0|end|";

const LOGIC_REPORT: &[u8] =
    b"reached 0 S t #1\nreached 2 S t #2\nreached 0 S t #3\npoints 3 excluded 0 reached 3 open 0\n";

// A register that starts with 0.
const STARTS: &[u8] =
    b"module t(input clk, input a, output reg q = 1'b0); always @(posedge clk) q <= a; endmodule";

// A condition that is never true.
const NEVER: &[u8] = b"module t(input clk, input a, output reg q); \
    always @(posedge clk) if (q & ~q) q <= 1'b1; else q <= a; endmodule";

const NEVER_CERT: &str = "unr 1|top t|clock clk|cycles 0|points s|claims 2|\
    S t #1|excluded 0|hit 1 0|3 0 1 2 0|end|S t #2|reached 0|start 0|in 0|end|";

// The same with the points of branch arms.
const ARMS_CERT: &str = "unr 1|top t|clock clk|cycles 0|points sb|claims 4|\
    S t #1|excluded 0|hit 1 0|3 0 1 2 0|end|S t #2|reached 0|start 0|in 0|end|\
    B t #1 then|excluded 0|hit 1 0|3 0 1 2 0|end|B t #1 else|reached 0|start 0|in 0|end|";

const ARMS_REPORT: &[u8] =
    b"excluded S t #1\nreached 0 S t #2\nexcluded B t #1 then\nreached 0 B t #1 else\n\
    points 4 excluded 2 reached 2 open 0\n";

// Lines of it, from 1, others in their place, and the message.
const ARMS_CHANGES: [(usize, usize, &str, &str); 8] = [
    (5, 5, "points s", "cert point line 17"),
    (5, 5, "points b", "cert point line 7"),
    (5, 5, "points bs", "cert line 5"),
    (5, 5, "points sbrt", "cert line 5"),
    (17, 17, "B t #1 else", "cert point line 17"),
    (17, 17, "B t #1 item 1", "cert point line 17"),
    (22, 22, "B t #1 default", "cert point line 22"),
    (23, 23, "reached 1", "claim B t #1 else NotHit"),
];

// Two registers that are always alike.
const ALIKE: &[u8] =
    b"module u(input clk, input a, output reg q = 1'b0, output reg r = 1'b0, output reg e); \
    always @(posedge clk) begin q <= a; r <= a; if (q & ~r) e <= 1'b1; end endmodule";

const ALIKE_CERT: &str = "unr 1|top u|clock clk|cycles 0|points s|claims 3|\
    S u #1|reached 0|start 000|in 0|end|S u #2|reached 0|start 000|in 0|end|\
    S u #3|excluded 1|l all -u.q u.r|step 1 1 0|5 0 3 4 0|hit 1 0|7 0 6 2 3 5 0|end|";

// The same, where nothing is known of the third point but that the start doesn't hit it.
const OPEN_CERT: &str = "unr 1|top u|clock clk|cycles 0|points s|claims 3|\
    S u #1|reached 0|start 000|in 0|end|S u #2|reached 0|start 000|in 0|end|\
    S u #3|open 1 0|hit 1 0|8 0 7 3 5 0|end|";

// Lines of the certificate before it, from 1, others in their place, and the message.
const CHANGES: [(usize, usize, &str, &str); 15] = [
    (23, 23, "7 0 6 2 3 0", "claim S u #3 Ladder hit NotClosed 7"),
    (23, 23, "7 0 2 6 3 5 0", "claim S u #3 Ladder hit NotUnit 2"),
    (21, 21, "5 0 3 9 0", "claim S u #3 Ladder step 1 NoHint 9"),
    (23, 23, "7 0 6 2 3 -5 0", "cert line 23"),
    (19, 19, "l all u.r", "claim S u #3 Ladder StartFails 1"),
    (19, 19, "l all -u.z u.r", "claim S u #3 Ladder Shape"),
    (18, 18, "excluded 2", "cert line 20"),
    (22, 22, "hit 2 0", "cert line 24"),
    (22, 22, "hit 1 1", "cert line 23"),
    (21, 21, "4 0 3 4 0", "claim S u #3 Ladder step 1 OldId 4"),
    (
        20,
        21,
        "step 1 1 1|5 9 0 3 4 0",
        "claim S u #3 Ladder step 1 BadVar 5",
    ),
    (
        20,
        21,
        "step 1 1 1|5 8 0 3 4 0",
        "claim S u #3 Ladder step 1 NoEnd",
    ),
    (
        6,
        6,
        "claims 4|S u #1|reached 0|start 000|in 0|end",
        "cert point line 12",
    ),
    (23, 24, "7 0 6", "cert line 23"),
    (
        17,
        24,
        "S u #3|open 2 0|hit 1 0|6 0 5 2 3 0|end",
        "claim S u #3 Ladder hit NotClosed 6",
    ),
];

// A run, and what it is to give. In `cert` a bar stands for a line feed. Of `fails` the first is the call of the desk that fails, then that of the output and of the error output, or 0.
#[derive(Clone, Copy)]
struct Case<'a> {
    words: &'a str,
    text: &'a [u8],
    cert: &'a str,
    fails: [u32; 3],
    status: u8,
    out: &'a [u8],
    err: &'a [u8],
    calls: usize,
}

// The certificate with other lines in the place of those from `first` to `last`, counted from 1.
fn changed(
    alloc: Global,
    cert: &str,
    first: usize,
    last: usize,
    lines: &str,
) -> Result<String, AllocError> {
    let mut text = String::new(alloc);
    for (at, line) in cert.split_terminator('|').enumerate() {
        if at + 1 == first {
            text.push_str(lines)?;
            text.push_str("|")?;
        }
        if at + 1 < first || last < at + 1 {
            text.push_str(line)?;
            text.push_str("|")?;
        }
    }
    Ok(text)
}

// That call fails, and keeps three bytes.
fn fails_at(call: u32) -> Fail {
    Fail { call, kept: 3 }
}

fn try_case(rt: &impl Abort, alloc: Global, case: &Case<'_>) -> Result<(), TestFail> {
    let mut files = Files::new(alloc);
    files.set(alloc, "t.v", case.text)?;
    files.set(alloc, "t.cert", &lines(alloc, case.cert)?)?;
    let [desk, out, err] = case.fails;
    let fails = [fails_at(desk), fails_at(out), fails_at(err)];
    let ran = run_over(alloc, case.words, files, fails)?;
    assert_eq!(rt; ran.err.bytes(), case.err);
    assert_eq!(rt; ran.out.bytes(), case.out);
    assert_eq!(rt; ran.status, case.status);
    assert_eq!(rt; ran.desk.calls().len(), case.calls);
    Ok(())
}

fn case_of<'a>(
    words: &'a str,
    cert: &'a str,
    fails: [u32; 3],
    status: u8,
    err: &'a str,
    calls: usize,
) -> Case<'a> {
    Case {
        words,
        text: TEXT,
        cert,
        fails,
        status,
        out: b"",
        err: err.as_bytes(),
        calls,
    }
}

#[test]
fn runs(rt: HostRuntime) -> Result<(), TestFail> {
    let check = "check t.v t.cert";
    let spaces = vec![in rt.alloc(); b' '; 4_194_305]?;
    let none = [0, 0, 0];
    for case in [
        Case {
            out: REPORT,
            ..case_of(check, CERT, none, 0, "", 2)
        },
        Case {
            text: LOGIC,
            out: LOGIC_REPORT,
            ..case_of(check, LOGIC_CERT, none, 0, "", 2)
        },
        Case {
            text: NEVER,
            out: b"excluded S t #1\nreached 0 S t #2\npoints 2 excluded 1 reached 1 open 0\n",
            ..case_of(check, NEVER_CERT, none, 0, "", 2)
        },
        Case {
            text: ALIKE,
            out: b"reached 0 S u #1\nreached 0 S u #2\nopen 1 S u #3\n\
                points 3 excluded 0 reached 2 open 1\n",
            ..case_of(check, OPEN_CERT, none, 0, "", 2)
        },
        case_of("", CERT, none, 2, "unr: words\n", 0),
        case_of("check t.v", CERT, none, 2, "unr: words\n", 0),
        case_of("check t.v t.cert c", CERT, none, 2, "unr: words\n", 0),
        case_of("check -v t.cert", CERT, none, 2, "unr: words\n", 0),
        case_of("check u.v t.cert", CERT, none, 3, "unr: fault u.v\n", 1),
        case_of("check t.v u.cert", CERT, none, 3, "unr: fault u.cert\n", 2),
        Case {
            text: b"",
            ..case_of(check, CERT, none, 4, "unr: source 1:1 Expected module\n", 1)
        },
        Case {
            text: &spaces,
            ..case_of(check, CERT, none, 4, "unr: source TooLong 4194305\n", 1)
        },
        case_of(
            check,
            "unr 1|top u|clock clk|cycles 0|points s|claims 0|",
            none,
            4,
            "unr: source 1:1 NotBuilt\n",
            2,
        ),
        case_of(
            check,
            "unr 1|top t|clock clk|cycles 0|points s|claims 0|",
            none,
            5,
            "unr: claim S t #1 Missing\n",
            2,
        ),
        case_of(
            check,
            "unr 1|top t|clock clk|cycles 0|points s|claims 1|S t #1|reached 1|start 0|in 0|in 0|end|",
            none,
            5,
            "unr: claim S t #1 NotHit\n",
            2,
        ),
        Case {
            text: STARTS,
            ..case_of(
                check,
                "unr 1|top t|clock clk|cycles 0|points s|claims 1|S t #1|reached 0|start 1|in 0|end|",
                none,
                5,
                "unr: claim S t #1 NotHit\n",
                2,
            )
        },
        case_of(
            check,
            "unr 1|top t|clock clk|cycles 0|points s|claims 1|S t #2|reached 0|start 0|in 0|end|",
            none,
            5,
            "unr: cert point line 7\n",
            2,
        ),
        case_of(check, "unr 2|", none, 5, "unr: cert line 1\n", 2),
        case_of(
            check,
            "unr 1|top t|clock clk|cycles 0|points s|claims 1|S t #1|reached 00|",
            none,
            5,
            "unr: cert line 8\n",
            2,
        ),
        case_of(
            check,
            "unr 1|top t|clock clk|cycles 0|points s|claims 1|S t #1|reached 0|start 0|in 0|",
            none,
            5,
            "unr: cert line 11\n",
            2,
        ),
        case_of(check, CERT, [1, 0, 0], 3, "unr: fault t.v\n", 1),
        case_of(check, CERT, [2, 0, 0], 3, "unr: fault t.cert\n", 2),
        Case {
            out: b"rea",
            ..case_of(check, CERT, [0, 1, 0], 3, "unr: fault output\n", 2)
        },
        case_of("check", CERT, [0, 0, 1], 2, "unr", 0),
    ] {
        try_case(&rt, rt.alloc(), &case)?;
    }
    Ok(())
}

#[test]
fn arms(rt: HostRuntime) -> Result<(), TestFail> {
    let good = Case {
        text: NEVER,
        out: ARMS_REPORT,
        ..case_of("check t.v t.cert", ARMS_CERT, [0, 0, 0], 0, "", 2)
    };
    try_case(&rt, rt.alloc(), &good)?;
    for (first, last, lines, message) in ARMS_CHANGES {
        let cert = changed(rt.alloc(), ARMS_CERT, first, last, lines)?;
        let err = format!(in rt.alloc(); "unr: {message}\n")?;
        let case = Case {
            out: b"",
            cert: cert.as_str(),
            err: err.as_bytes(),
            status: 5,
            ..good
        };
        try_case(&rt, rt.alloc(), &case)?;
    }
    Ok(())
}

#[test]
fn bad_lines(rt: HostRuntime) -> Result<(), TestFail> {
    for number in 1..12 {
        let cert = changed(rt.alloc(), CERT, number, number, "x")?;
        let err = format!(in rt.alloc(); "unr: cert line {number}\n")?;
        let case = case_of(
            "check t.v t.cert",
            cert.as_str(),
            [0, 0, 0],
            5,
            err.as_str(),
            2,
        );
        try_case(&rt, rt.alloc(), &case)?;
    }
    Ok(())
}

#[test]
fn changed_ladders(rt: HostRuntime) -> Result<(), TestFail> {
    for (first, last, lines, message) in CHANGES {
        let cert = changed(rt.alloc(), ALIKE_CERT, first, last, lines)?;
        let err = format!(in rt.alloc(); "unr: {message}\n")?;
        let case = Case {
            text: ALIKE,
            ..case_of(
                "check t.v t.cert",
                cert.as_str(),
                [0, 0, 0],
                5,
                err.as_str(),
                2,
            )
        };
        try_case(&rt, rt.alloc(), &case)?;
    }
    Ok(())
}

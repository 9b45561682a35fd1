// Words that name no command, or the same one in another order.
use crate::tests::running::{NONE, run_over};
use std::test::Fail;
use unr_io::Files;

const NO_COMMANDS: [&str; 35] = [
    "",
    "check",
    "check t.v",
    "check t.v t.cert c",
    "check -v t.cert",
    "check t.v t.cert --effort 1",
    "Prove t.v --top t --clock clk --out p",
    "prove",
    "prove --top t --clock clk --out p",
    "prove t.v --clock clk --out p",
    "prove t.v --top t --out p",
    "prove t.v --top t --clock clk",
    "prove t.v u.v --top t --clock clk --out p",
    "prove t.v --top t --top t --clock clk --out p",
    "prove t.v --top t --clock clk --out p --out=p",
    "prove t.v --top --clock clk --out p",
    "prove t.v --top t --clock clk --out",
    "prove t.v --top= --clock clk --out p",
    "prove t.v -top t --clock clk --out p",
    "prove t.v -- --top t --clock clk --out p",
    "prove t.v --top t --clock clk --out p --cycles 1",
    "prove t.v --top t --clock clk --out p --cycles x",
    "prove t.v --top t --clock clk --out p --cycles 0 --cycles 0",
    "prove t.v --top t --clock clk --out p --points r",
    "prove t.v --top t --clock clk --out p --points sbrt",
    "prove t.v --top t --clock clk --out p --points bs",
    "prove t.v --top t --clock clk --out p --points=",
    "prove t.v --top t --clock clk --out p --reset r=1",
    "prove t.v --top t --clock clk --out p --fsm t.q",
    "prove t.v --top t --clock clk --out p --effort 0",
    "prove t.v --top t --clock clk --out p --effort -1",
    "prove t.v --top t --clock clk --out p --effort 1x",
    "prove t.v --top t --clock clk --out p --effort 1000000000000000001",
    "prove t.v --top t --clock clk --out p --effort 00000000000000000001",
    "points t.v --top t --clock clk",
];

// They name a command. The one file that they name is missing.
const COMMANDS: [&str; 6] = [
    "check t.v t.cert",
    "prove t.v --top t --clock clk --out p",
    "prove --out=p --clock=clk --points=s --effort=1000000000000000000 --cycles=00 --top=t t.v",
    "prove --cycles 0 --out p --effort 0000000000000000001 --top t t.v --clock clk --points s",
    "prove --top=a=b --clock clk --out p --points b t.v",
    "prove --points=sb --top t --clock clk --out p t.v",
];

#[test]
fn refuses_words(rt: HostRuntime) -> Result<(), Fail> {
    for words in NO_COMMANDS {
        let ran = run_over(
            rt.alloc(),
            words,
            Files::new(rt.alloc()),
            [NONE, NONE, NONE],
        )?;
        assert_eq!(rt; ran.status, 2, "{words}");
        assert_eq!(rt; ran.err.bytes(), b"unr: words\n".as_slice());
        assert_eq!(rt; ran.desk.calls().len(), 0);
    }
    Ok(())
}

#[test]
fn takes_words(rt: HostRuntime) -> Result<(), Fail> {
    for words in COMMANDS {
        let ran = run_over(
            rt.alloc(),
            words,
            Files::new(rt.alloc()),
            [NONE, NONE, NONE],
        )?;
        assert_eq!(rt; ran.status, 3, "{words}");
        assert_eq!(rt; ran.err.bytes(), b"unr: fault t.v\n".as_slice());
        assert_eq!(rt; ran.desk.calls().len(), 1);
    }
    Ok(())
}

// module t(input clk, output reg x, output reg y, output z);
//   wire w;
//   always @(posedge clk) x <= ~y;
//   always @(posedge clk) y <= ~x;
//   assign z = ~w;
//   assign w = ~x;
// endmodule
//
// Its bits in this order: clk 0, x 1, y 2, z 3, w 4.

ghost use Rattle.std.specs.Prelude.{◌≡◌, ◌<◌, [], ◌∷◌, length, IfOk};
ghost use Rattle.order_tests.specs.Negations.{negation, all_negations};

use bit_exprs::forms::{Bit, Expr, Part, Target, UnaryOp};
use design_core::flat::{BitInfo, Design, ProcKind, Process, Stmt};
use design_core::legal::Legal;
use sqlite_items::{Boxed, Items};
use std::alloc::{AllocError, Global};
use word_core::{Name, Place};

fn bits(alloc: Global) -> Result<Items<BitInfo>, AllocError>
    ensures { IfOk result (λ bits. length bits ≡ 5) }
{
    let mut bits = Items::new(alloc);
    for _ in 0..5u8 {
        bits.push(BitInfo {
            name: Name::make(alloc, b"b")?,
            start: None,
        })?;
    }
    Ok(bits)
}

fn not(alloc: Global, bit: Bit) -> Result<Expr, AllocError>
    ensures { IfOk result (λ e. e ≡ Expr.Unary UnaryOp.Not (Expr.Read (bit ∷ []))) }
{
    let read = Expr::Read(Items::from_slice(alloc, &[bit])?);
    let value = Boxed::new(alloc, read)?;
    Ok(Expr::Unary {
        op: UnaryOp::Not,
        value,
    })
}

fn target(alloc: Global, bit: Bit) -> Result<Target, AllocError>
    ensures { IfOk result (λ t. t.parts ≡ Part.Bits (bit ∷ []) ∷ []) }
{
    let mut parts = Items::new(alloc);
    parts.push(Part::Bits(Items::from_slice(alloc, &[bit])?))?;
    Ok(Target { parts })
}

// A process that assigns the negation of `from` to `to`.
fn process(
    alloc: Global,
    kind: ProcKind,
    delayed: bool,
    to: Bit,
    from: Bit,
) -> Result<Process, AllocError>
    ensures { IfOk result (λ p. p ≡ negation kind delayed to from) }
{
    let target = target(alloc, to)?;
    let value = not(alloc, from)?;
    Ok(Process {
        at: Place { line: 1, col: 1 },
        kind,
        events: None,
        body: Stmt::Assign {
            site: None,
            delayed,
            target,
            value,
        },
    })
}

fn processes(alloc: Global) -> Result<Items<Process>, AllocError>
    ensures { IfOk result (λ ps. ps ≡ all_negations) }
{
    let clocked = ProcKind::Clocked { reset: None };
    let mut processes = Items::new(alloc);
    processes.push(process(alloc, clocked, true, 1, 2)?)?;
    processes.push(process(alloc, clocked, true, 2, 1)?)?;
    processes.push(process(alloc, ProcKind::Comb, false, 3, 4)?)?;
    processes.push(process(alloc, ProcKind::Comb, false, 4, 1)?)?;
    Ok(processes)
}

/// The design above.
pub fn legal(alloc: Global) -> Result<Legal, AllocError>
    ensures bits { IfOk result (λ l. length l.design.bits ≡ 5) }
    ensures inputs { IfOk result (λ l. length l.design.inputs ≡ 0) }
    ensures registers { IfOk result (λ l. length l.design.registers ≡ 2) }
{
    let bits = bits(alloc)?;
    let registers = Items::from_slice(alloc, &[1, 2])?;
    let processes = processes(alloc)?;
    let order = Items::from_slice(alloc, &[3, 2])?;
    let design = Design {
        bits,
        declared: Items::new(alloc),
        inputs: Items::new(alloc),
        clock: 0,
        registers,
        processes,
        sites: Items::new(alloc),
    };
    Ok(Legal::make(design, order))
}

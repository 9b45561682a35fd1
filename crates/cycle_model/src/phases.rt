// The phases of a cycle.

ghost use Rattle.std.specs.Prelude.{◌≡◌, ◌<◌, length, All, zip, IfSome, ℕ, false};
ghost use Rattle.bit_exprs.specs.Updates.{perform};
ghost use Rattle.bit_exprs.specs.Values.{bit_at};
ghost use Rattle.design_core.specs.Exec.{exec_each};
ghost use Rattle.design_core.specs.Bounds.{IsWithin};
ghost use Rattle.design_core.specs.Settled.{reset_of, updates_where, next_of};
ghost use Rattle.design_core.specs.Alike.{SettlesAt};
ghost use Rattle.design_core.specs.Legality.{IsLegal, bodies};
ghost use Rattle.cycle_model.specs.Flags.{flagged};
ghost use Rattle.cycle_model.specs.Clocking.{CanRun, is_triggered, runs, marks_where, IsMarked};
ghost use Rattle.cycle_model.specs.Machine.{held_in};

use crate::execute::execute;
use bit_exprs::forms::Bit;
use design_core::flat::{Design, ProcKind};

/// What runs clocked processes: their resets while these are active, or the clock's edge.
#[derive(Clone, Copy)]
pub enum Trigger {
    Resets,
    ClockEdge,
}

/// Writes the inputs into their bits.
pub fn put_inputs(bits: &[Bit], inputs: &[bool], values: &mut [bool])
    requires within { All (λ b. b < length values.old) bits.now }
    requires inputs { length inputs.now ≡ length bits.now }
    ensures { values.new ≡ perform (zip bits.now inputs.now) values.old }
{
    for (k, bit) in bits.iter().enumerate() {
        values[*bit as usize] = inputs[k];
    }
}

/// Whether the trigger runs a process of this kind.
fn is_run(kind: ProcKind, trigger: Trigger, values: &[bool]) -> bool
    requires { IfSome (reset_of kind) (λ r. r.bit < length values.now) }
    ensures { result ≡ is_triggered trigger values.now kind }
{
    match trigger {
        Trigger::ClockEdge => matches!(kind, ProcKind::Clocked { reset: _ }),
        Trigger::Resets => match kind {
            ProcKind::Comb => false,
            ProcKind::Clocked { reset: None } => false,
            ProcKind::Clocked { reset: Some(reset) } => values[reset.bit as usize] == reset.active,
        },
    }
}

/// Executes the bodies of the processes that the trigger runs, and performs their updates in `next`.
pub fn clock(
    design: &Design,
    trigger: Trigger,
    values: &mut [bool],
    next: &mut [bool],
    scratch: &mut [bool],
    marks: &mut [bool],
)
    requires able { CanRun design.now }
    requires values { length values.old ≡ length design.now.bits }
    requires next { length next.old ≡ length design.now.bits }
    requires scratch { length scratch.old ≡ length design.now.bits }
    requires marks { length marks.old ≡ length design.now.sites }
    ensures values { values.new ≡ values.old }
    ensures next { next.new ≡ perform (updates_where (runs trigger values.old) design.now.processes values.old) next.old }
    ensures marks { marks.new ≡ flagged (marks_where (runs trigger values.old) design.now.processes values.old) marks.old }
{
    for process in design.processes.as_slice() {
        if is_run(process.kind, trigger, values) {
            execute(&process.body, values, next, scratch, marks);
        }
    }
}

/// Executes each combinational body once, in the order.
pub fn settle(
    design: &Design,
    order: &[u32],
    values: &mut [bool],
    next: &mut [bool],
    scratch: &mut [bool],
    marks: &mut [bool],
)
    requires legal { IsLegal design.now order.now }
    requires values { length values.old ≡ length design.now.bits }
    requires next { length next.old ≡ length design.now.bits }
    requires scratch { length scratch.old ≡ length design.now.bits }
    requires marks { length marks.old ≡ length design.now.sites }
    ensures values { values.new ≡ (exec_each (bodies design.now order.now) values.old).values }
    ensures marks { marks.new ≡ flagged (exec_each (bodies design.now order.now) values.old).marks marks.old }
{
    let processes = design.processes.as_slice();
    for k in order {
        let process = &processes[*k as usize];
        execute(&process.body, values, next, scratch, marks);
    }
}

/// Takes all flags down.
fn clear(marks: &mut [bool])
    ensures { (k : ℕ) → bit_at marks.new k ≡ false }
{
    for mark in marks.iter_mut() {
        *mark = false;
    }
}

/// A whole cycle. Before it `next` has the registers' values, and after it those for the next cycle.
/// Takes time linear in the number of bits and sites and in what is executed of the bodies.
pub fn advance(
    design: &Design,
    order: &[u32],
    inputs: &[bool],
    values: &mut [bool],
    next: &mut [bool],
    scratch: &mut [bool],
    marks: &mut [bool],
)
    requires legal { IsLegal design.now order.now }
    requires inputs { length inputs.now ≡ length design.now.inputs }
    requires values { length values.old ≡ length design.now.bits }
    requires next { length next.old ≡ length design.now.bits }
    requires scratch { length scratch.old ≡ length design.now.bits }
    requires marks { length marks.old ≡ length design.now.sites }
    ensures settled { SettlesAt design.now order.now (held_in design.now next.old) inputs.now values.new }
    ensures next { held_in design.now next.new ≡ next_of design.now values.new }
    ensures marks { IsMarked design.now values.new marks.new }
{
    values.copy_from_slice(next);
    put_inputs(design.inputs.as_slice(), inputs, values);
    clock(design, Trigger::Resets, values, next, scratch, marks);
    values.copy_from_slice(next);
    put_inputs(design.inputs.as_slice(), inputs, values);
    clear(marks);
    settle(design, order, values, next, scratch, marks);
    next.copy_from_slice(values);
    clock(design, Trigger::ClockEdge, values, next, scratch, marks);
}

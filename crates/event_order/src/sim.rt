// A simulator that runs the processes of a legal design in any order.

ghost use Rattle.std.specs.Prelude.{◌≡◌, ◌<◌, true, false, length, IfOk, OnOk, OnErr};
ghost use Rattle.bit_exprs.specs.Values.{bit_at};
ghost use Rattle.design_core.specs.Settled.{Settled, next_of};
ghost use Rattle.event_order.specs.Cycles.{begun};
ghost use Rattle.event_order.specs.Registers.{registers_in};
ghost use Rattle.event_order.specs.Ready.{IsReady};
ghost use Rattle.event_order.specs.Sims.{EventMachine, state_of, between, started, Turns, AllSettleAt, AllCanEnd};

use crate::phases::run_cycle;
use bit_exprs::forms::Bit;
use cycle_model::put_inputs;
use design_core::legal::Legal;
use std::alloc::{AllocError, Global};
use std::marker::Model;

/// A legal design that is run cycle by cycle, each in the order that a number names.
#[derive(Drop)]
pub struct EventSim<'a> {
    legal: &'a Legal,
    is_fresh: bool,
    held: Vec<bool>,
    settled: Vec<bool>,
    turns: u64,
}

impl<'a> Model for EventSim<'a> {
    ghost use Rattle.event_order.specs.Sims.{EventMachine, IsEventMachine, machine_code};

    ghost Value = { EventMachine };

    ghost coded = { machine_code };

    ghost view = { λ s. record { legal = s.legal.now; is_fresh = s.is_fresh; held = s.held.items; settled = s.settled.items; turns = s.turns } };

    ghost invariant = { λ s. IsEventMachine (record { legal = s.legal.now; is_fresh = s.is_fresh; held = s.held.items; settled = s.settled.items; turns = s.turns }) };
}

/// Values of all bits in which the registers have these, and all others are 0.
fn start_values(alloc: Global, legal: &Legal, start: &[bool]) -> Result<Vec<bool>, AllocError>
    requires { length start.now ≡ length legal.now.design.registers }
    ensures values { IfOk result (λ v. v.items ≡ started legal.now.design start.now) }
    ensures registers { IfOk result (λ v. registers_in legal.now.design v.items ≡ start.now) }
    ensures ready { IfOk result (λ v. IsReady legal.now.design (between legal.now.design true v.items)) }
{
    let design = legal.design();
    let mut bits = vec![in alloc; false; design.bits.len()]?;
    put_inputs(design.registers.as_slice(), start, &mut bits);
    Ok(bits)
}

impl<'a> EventSim<'a> {
    /// A simulator whose registers hold these values, in the order of the design's list of registers, while all other
    /// bits are 0. No cycle was run.
    pub fn make(alloc: Global, legal: &'a Legal, start: &[bool]) -> Result<EventSim<'a>, AllocError>
        requires { length start.now ≡ length legal.now.design.registers }
        ensures legal { IfOk result (λ s. s.legal ≡ legal.now) }
        ensures fresh { IfOk result (λ s. s.is_fresh ≡ true) }
        ensures held { IfOk result (λ s. s.held ≡ started legal.now.design start.now) }
        ensures registers { IfOk result (λ s. registers_in legal.now.design s.held ≡ start.now) }
        ensures settled { IfOk result (λ s. s.settled ≡ s.held) }
        ensures turns { IfOk result (λ s. s.turns ≡ 0) }
    {
        Ok(EventSim {
            legal,
            is_fresh: true,
            held: start_values(alloc, legal, start)?,
            settled: start_values(alloc, legal, start)?,
            turns: 0,
        })
    }

    /// Runs a cycle under these inputs, in the order of the design's list of inputs, by the steps that an order number
    /// names. Whatever the steps, the cycle settles at these values. After an error the simulator is as it was before.
    /// Takes memory linear in the number of bits and in the updates that wait.
    pub fn cycle(&mut self, alloc: Global, inputs: &[bool], order: u64) -> Result<(), AllocError>
        requires { length inputs.now ≡ length self.old.legal.design.inputs }
        ensures legal { self.new.legal ≡ self.old.legal }
        ensures fresh { OnOk result (self.new.is_fresh ≡ false) }
        ensures turns { OnOk result (Turns self.old.legal.design order (begun self.old.legal.design inputs.now (state_of self.old)) self.new.settled (state_of self.new) self.new.turns) }
        ensures settled { OnOk result (Settled self.old.legal.design (registers_in self.old.legal.design self.old.held) inputs.now self.new.settled) }
        ensures registers { OnOk result (registers_in self.old.legal.design self.new.held ≡ next_of self.old.legal.design self.new.settled) }
        ensures every { OnOk result (AllSettleAt self.old.legal inputs.now (state_of self.old) self.new.settled) }
        ensures ends { AllCanEnd self.old.legal.design }
        ensures unchanged { OnErr result (self.new ≡ self.old) }
    {
        let outcome = run_cycle(alloc, self.legal, self.is_fresh, inputs, order, &self.held)?;
        self.held = outcome.held;
        self.settled = outcome.settled;
        self.turns = outcome.turns;
        self.is_fresh = false;
        Ok(())
    }

    /// How many steps the last cycle took, or the greatest number where there were more. It is 0 before the first.
    pub fn turns(&self) -> u64
        ensures { result ≡ self.now.turns }
    {
        self.turns
    }

    /// The value at which a bit settled in the last cycle. Before the first it is that of the start.
    pub fn read(&self, bit: Bit) -> bool
        requires { bit < length self.now.legal.design.bits }
        ensures { result ≡ bit_at self.now.settled bit }
    {
        self.settled[bit as usize]
    }
}

// A simulator of a legal design.

ghost use Rattle.std.specs.Prelude.{◌≡◌, ◌<◌, length, IfOk};
ghost use Rattle.bit_exprs.specs.Values.{bit_at};
ghost use Rattle.design_core.specs.Settled.{next_of};
ghost use Rattle.design_core.specs.Alike.{SettlesAt};
ghost use Rattle.cycle_model.specs.Clocking.{IsMarked};
ghost use Rattle.cycle_model.specs.Machine.{held_in};

use crate::phases::{advance, put_inputs};
use bit_exprs::forms::Bit;
use design_core::legal::Legal;
use std::alloc::{AllocError, Global};
use std::marker::Model;

/// What the last cycle passed: a flag for each site of the design.
#[derive(Drop)]
pub struct Marks {
    pub passed: Vec<bool>,
}

/// A legal design that is run cycle by cycle. It takes memory linear in the numbers of bits and sites.
#[derive(Drop)]
pub struct Sim<'a> {
    legal: &'a Legal,
    values: Vec<bool>,
    next: Vec<bool>,
    scratch: Vec<bool>,
    marks: Marks,
}

/// Values of all bits in which the registers have these.
fn started(alloc: Global, legal: &Legal, start: &[bool]) -> Result<Vec<bool>, AllocError>
    requires { length start.now ≡ length legal.now.design.registers }
    ensures long { IfOk result (λ v. length v.items ≡ length legal.now.design.bits) }
    ensures held { IfOk result (λ v. held_in legal.now.design v.items ≡ start.now) }
{
    let design = legal.design();
    let mut bits = vec![in alloc; false; design.bits.len()]?;
    put_inputs(design.registers.as_slice(), start, &mut bits);
    Ok(bits)
}

impl<'a> Model for Sim<'a> {
    ghost use Rattle.cycle_model.specs.Machine.{Machine, IsMachine, held_in, machine_code};

    ghost Value = { Machine };

    ghost coded = { machine_code };

    ghost view = { λ s. record { legal = s.legal.now; values = s.values.items; held = held_in s.legal.now.design s.next.items; marks = s.marks.passed.items } };

    ghost invariant = { λ s. IsMachine s.legal.now.design s.values.items s.next.items s.scratch.items s.marks.passed.items };
}

impl<'a> Sim<'a> {
    /// A simulator whose registers hold these values, in the order of the design's list of registers. No cycle was run, and no flag is up.
    pub fn make(alloc: Global, legal: &'a Legal, start: &[bool]) -> Result<Sim<'a>, AllocError>
        requires { length start.now ≡ length legal.now.design.registers }
        ensures legal { IfOk result (λ s. s.legal ≡ legal.now) }
        ensures held { IfOk result (λ s. s.held ≡ start.now) }
    {
        let design = legal.design();
        let bits = design.bits.len();
        Ok(Sim {
            legal,
            values: vec![in alloc; false; bits]?,
            next: started(alloc, legal, start)?,
            scratch: vec![in alloc; false; bits]?,
            marks: Marks {
                passed: vec![in alloc; false; design.sites.len()]?,
            },
        })
    }

    /// Runs a cycle under these inputs, in the order of the design's list of inputs: the values are settled, and all settled values are alike; the flags up are
    /// those of the sites hit; and the registers then have their next values. Takes no memory, and time linear in the numbers of bits and sites and in what is executed of the bodies.
    pub fn cycle(&mut self, inputs: &[bool])
        requires { length inputs.now ≡ length self.old.legal.design.inputs }
        ensures legal { self.new.legal ≡ self.old.legal }
        ensures settled { SettlesAt self.old.legal.design self.old.legal.order self.old.held inputs.now self.new.values }
        ensures held { self.new.held ≡ next_of self.old.legal.design self.new.values }
        ensures marks { IsMarked self.old.legal.design self.new.values self.new.marks }
    {
        let legal = self.legal;
        advance(
            legal.design(),
            legal.order(),
            inputs,
            &mut self.values,
            &mut self.next,
            &mut self.scratch,
            &mut self.marks.passed,
        );
    }

    /// The value of a bit in the last cycle.
    pub fn read(&self, bit: Bit) -> bool
        requires { bit < length self.now.legal.design.bits }
        ensures { result ≡ bit_at self.now.values bit }
    {
        self.values[bit as usize]
    }

    /// What the last cycle passed.
    pub fn marks(&self) -> &Marks
        ensures marks { result.now.passed.items ≡ self.now.marks }
        ensures long { length self.now.marks ≡ length self.now.legal.design.sites }
    {
        &self.marks
    }
}

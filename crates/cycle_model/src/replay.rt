// Whether a stimulus reaches a site.

ghost use Rattle.std.specs.Prelude.{◌≡◌, ◌+◌, ◌<◌, ◌↔◌, Bool, [], length, slice_get, Some, All, IfOk, IsTrue};
ghost use Rattle.design_core.specs.declared.flat.BitInfo.{BitInfo};
ghost use Rattle.design_core.specs.Runs.{MayStart, Fits};
ghost use Rattle.design_core.specs.Verdicts.{Passes, HitAt};
ghost use Rattle.cycle_model.specs.Replay.{FirstHit};

use crate::sim::Sim;
use bit_exprs::forms::Bit;
use design_core::flat::{BitInfo, Design};
use design_core::legal::Legal;
use design_core::setup::{Setup, Stimulus};
use sqlite_items::{Items, at};
use std::alloc::{AllocError, Global};

/// Whether the bit may start with this value.
fn agrees(bits: &[BitInfo], bit: Bit, value: bool) -> bool
    ensures { IsTrue result ↔ ((info : BitInfo) (x : Bool) → slice_get bits.now bit ≡ Some info → info.start ≡ Some x → value ≡ x) }
{
    match at(bits, bit as usize) {
        None => true,
        Some(info) => match info.start {
            None => true,
            Some(x) => value == x,
        },
    }
}

/// Whether a run may begin with these values of the registers.
fn may_start(design: &Design, start: &[bool]) -> bool
    ensures { IsTrue result ↔ MayStart design.now start.now }
{
    let registers = design.registers.as_slice();
    if start.len() != registers.len() {
        return false;
    }
    for (k, bit) in registers.iter().enumerate() {
        if !agrees(design.bits.as_slice(), *bit, start[k]) {
            return false;
        }
    }
    true
}

/// Whether each line has this many values.
fn are_wide(lines: &[Items<bool>], inputs: usize) -> bool
    ensures { IsTrue result ↔ All (λ line. length line ≡ inputs) lines.now }
{
    lines.iter().all(|line| line.len() == inputs)
}

/// Whether the stimulus fits the design, where no input is held.
fn fits(design: &Design, setup: &Setup, stimulus: &Stimulus) -> bool
    requires { setup.now.hold ≡ [] }
    ensures { IsTrue result ↔ Fits design.now setup.now stimulus.now }
{
    may_start(design, stimulus.start.as_slice())
        && are_wide(stimulus.lines.as_slice(), design.inputs.len())
}

/// Runs the lines until the site is hit in the cycle `skip` or later, and gives the number of that cycle.
fn first_hit(sim: &mut Sim, lines: &[Items<bool>], skip: usize, site: u32) -> Option<usize>
    requires lines { All (λ line. length line ≡ length sim.old.legal.design.inputs) lines.now }
    requires site { site < length sim.old.legal.design.sites }
    ensures { FirstHit sim.old.legal.design sim.old.held lines.now skip site result }
{
    for (k, line) in lines.iter().enumerate() {
        sim.cycle(line.as_slice());
        if k >= skip && sim.marks().passed[site as usize] {
            return Some(k);
        }
    }
    None
}

/// Whether the lines end with this judged cycle, after a prelude of this length.
fn ends_at(lines: usize, prelude: u8, cycle: u64) -> bool
    ensures { IsTrue result ↔ (lines ≡ prelude + cycle + 1) }
{
    let prelude = prelude as usize;
    lines > prelude && (lines - prelude - 1) as u64 == cycle
}

/// Whether the stimulus reaches the site at this judged cycle and at none before, in every run, where no input is held.
/// The error is that memory ran out. Takes the time of as many cycles as the stimulus has lines.
pub fn hits_at(
    alloc: Global,
    legal: &Legal,
    setup: &Setup,
    stimulus: &Stimulus,
    site: u32,
    cycle: u64,
) -> Result<bool, AllocError>
    requires hold { setup.now.hold ≡ [] }
    requires site { site < length legal.now.design.sites }
    ensures { IfOk result (λ yes. IsTrue yes ↔ HitAt legal.now.design setup.now (Passes legal.now.design site) stimulus.now cycle) }
{
    let lines = stimulus.lines.as_slice();
    if !fits(legal.design(), setup, stimulus) || !ends_at(lines.len(), setup.cycles, cycle) {
        return Ok(false);
    }
    let mut sim = Sim::make(alloc, legal, stimulus.start.as_slice())?;
    match first_hit(&mut sim, lines, setup.cycles as usize, site) {
        None => Ok(false),
        Some(k) => Ok(k + 1 == lines.len()),
    }
}

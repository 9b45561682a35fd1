// The translation.

ghost use Rattle.std.specs.Prelude.{◌≡◌, ◌<◌, ◌^◌, [], length, map, All, IfOk};
ghost use Rattle.aig_core.specs.Graph.{IsLiteral, Extends};
ghost use Rattle.design_core.specs.Legality.{IsLegal};
ghost use Rattle.plain_blast.specs.Bridge.{Bridge};
ghost use Rattle.plain_blast.specs.Plain.{state_of, first_graph, first_literals, process_of, plain_of, wiring};
ghost use Rattle.plain_blast.specs.Exist.{Exist};

use crate::bodies::Passed;
use crate::phases::{clock, put_leaves, resets, settle};
use crate::points::hit_literals;
use aig_core::{Aig, Memory};
use bit_exprs::forms::Bit;
use bit_system::{StateInfo, System};
use design_core::flat::{BitInfo, Design};
use design_core::legal::Legal;
use expr_blast::picked;
use sqlite_items::Items;
use std::alloc::{AllocError, Global};
use word_core::Name;

/// A register's state bit.
fn state(alloc: Global, info: &BitInfo) -> Result<StateInfo, Memory>
    ensures { IfOk result (λ s. s ≡ record { name = info.now.name; start = info.now.start }) }
{
    Ok(StateInfo {
        name: Name::make(alloc, info.name.bytes())?,
        start: info.start,
    })
}

/// The state bits of registers.
fn states(alloc: Global, bits: &[BitInfo], registers: &[Bit]) -> Result<Items<StateInfo>, Memory>
    requires { All (λ b. b < length bits.now) registers.now }
    ensures { IfOk result (λ r. r ≡ map (state_of bits.now) registers.now) }
{
    let mut states = Items::new(alloc);
    for bit in registers {
        states.push(state(alloc, &bits[*bit as usize])?)?;
    }
    Ok(states)
}

/// The literals of the bits before any process is run.
fn placed(alloc: Global, design: &Design) -> Result<Vec<u32>, Memory>
    requires inputs { length design.now.inputs < 2 ^ 29 }
    requires registers { length design.now.registers < 2 ^ 29 }
    requires inputs_within { All (λ b. b < length design.now.bits) design.now.inputs }
    requires registers_within { All (λ b. b < length design.now.bits) design.now.registers }
    ensures { IfOk result (λ r. r.items ≡ first_literals design.now) }
{
    let mut literals = vec![in alloc; 0; design.bits.len()]?;
    let inputs = design.inputs.as_slice();
    put_leaves(
        design.registers.as_slice(),
        1 + inputs.len() as u32,
        &mut literals,
    );
    put_leaves(inputs, 1, &mut literals);
    Ok(literals)
}

/// The same, each a leaf of the circuit or 0.
#[tactic(auto, using(crate::proofs::Existing::first_exist_at, crate::proofs::Existing::first_long))]
fn first_literals(aig: &Aig, design: &Design) -> Result<Vec<u32>, Memory>
    requires inputs { length design.now.inputs < 2 ^ 29 }
    requires registers { length design.now.registers < 2 ^ 29 }
    requires inputs_within { All (λ b. b < length design.now.bits) design.now.inputs }
    requires registers_within { All (λ b. b < length design.now.bits) design.now.registers }
    requires graph { aig.now ≡ first_graph design.now }
    ensures exact { IfOk result (λ r. r.items ≡ first_literals design.now) }
    ensures long { IfOk result (λ r. length r.items ≡ length design.now.bits) }
    ensures exist { IfOk result (λ r. All (IsLiteral aig.now) r.items) }
{
    let literals = placed(aig.allocator(), design)?;
    Ok(literals)
}

/// Makes the gates of all processes, and answers the literals that the bits have after the cycle.
#[tactic(auto, using(crate::proofs::Existing::keeping, crate::proofs::Existing::bounds))]
fn process(
    aig: &mut Aig,
    design: &Design,
    order: &[u32],
    first: &[u32],
    paths: &mut Vec<Passed>,
) -> Result<Vec<u32>, Memory>
    requires legal { IsLegal design.now order.now }
    requires sites { length design.now.sites < 2 ^ 32 }
    requires long { length first.now ≡ length design.now.bits }
    requires first_exist { All (IsLiteral aig.old) first.now }
    requires fresh { paths.old.items ≡ [] }
    ensures exact { IfOk result (λ next. wiring aig.new next.items paths.new.items ≡ process_of design.now order.now aig.old first.now) }
    ensures exist { IfOk result (λ next. Exist (wiring aig.new next.items paths.new.items)) }
    ensures long { IfOk result (λ next. length next.items ≡ length first.now) }
    ensures kept { Extends aig.old aig.new }
{
    let alloc = aig.allocator();
    let processes = design.processes.as_slice();
    let mut literals = first.to_vec(alloc)?;
    resets(aig, processes, first, &mut literals)?;
    settle(aig, design, order, &mut literals, paths)?;
    let mut next = literals.to_vec(alloc)?;
    clock(aig, processes, &literals, &mut next, paths)?;
    Ok(next)
}

/// The system of a legal design, with a hit literal for each of the sites, in their order. The inputs and the
/// registers are those of the design, in its order, and a state bit has its register's name and declared start.
///
/// The gates are made in the order that `plain_of` gives, by which certificates cite them. The second clause
/// says what the system has to do with the design's runs.
///
/// The error is want of memory. It also stands for 2^29 inputs or registers, 2^32 sites, or 2^30 nodes.
/// Takes time about linear in the bodies for each level of branches in them, and in the paths of the sites.
#[tactic(auto, using(crate::proofs::Existing::keeping))]
pub fn translate(alloc: Global, legal: &Legal, sites: &[u32]) -> Result<System, Memory>
    ensures exact { IfOk result (λ s. s ≡ plain_of legal.now.design legal.now.order sites.now) }
    ensures bridge { IfOk result (λ s. Bridge legal.now.design sites.now s) }
{
    let design = legal.design();
    let inputs = design.inputs.len();
    let registers = design.registers.len();
    if inputs >= 1 << 29 || registers >= 1 << 29 || design.sites.len() >= 1 << 32 {
        return Err(AllocError);
    }
    let mut aig = Aig::make(alloc, inputs as u32, registers as u32)?;
    let first = first_literals(&aig, design)?;
    let mut paths = Vec::new(alloc);
    let next = process(&mut aig, design, legal.order(), &first, &mut paths)?;
    let hits = hit_literals(&mut aig, &paths, sites)?;
    let registers = design.registers.as_slice();
    let next = picked(alloc, &next, registers)?;
    let states = states(alloc, design.bits.as_slice(), registers)?;
    Ok(System::make(aig, states, Items::from_vec(next), Items::from_vec(hits), 0))
}

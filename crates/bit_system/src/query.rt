//! The clauses that a proof refutes.
ghost use Rattle.std.specs.Prelude.{◌≡◌, ◌↔◌, IsTrue, ℕ, ◌+◌, ◌*◌, ◌<◌, ◌≤◌, ◌^◌, [], ◌∷◌, ◌++◌, All, length, slice_index_or, HoldsAt, IfOk, OnOk};
ghost use Rattle.std.specs.Prelude.{if◌then◌else◌};
ghost use Rattle.cnf_core.specs.Literal.{HaveVarsUpTo};
ghost use Rattle.aig_core.specs.Graph.{IsLiteral, node_count, first_gate, ReadEarlierNodes};
ghost use Rattle.bit_system.specs.Machine.{Machine, hit_literal};
ghost use Rattle.bit_system.specs.Ladders.{HasStates, premises, is_first};
ghost use Rattle.bit_system.specs.Accepted.{LaddersAreSound};
ghost use Rattle.bit_system.specs.Cones.{ConesAreReached};
ghost use Rattle.bit_system.specs.Queries.{literal_for, gate_clauses_at, gate_clauses_of, listed_clauses, cone, lemma_clause, lemma_clauses, start_clause, start_clauses, unit_clauses, query_clauses, false_after, all_false_after, step_clauses, hit_clauses, RefutedMeansUnsatisfied, SolvedMeansSatisfied};

use crate::cone::reached;
use crate::ladder::{Depth, Lemma, StateLit};
use crate::system::{StateInfo, System};
use aig_core::{Gate, negated};
use cnf_core::{Clauses, Lit, Memory, gate_clauses};
use std::alloc::Global;

/// The literal of a query that stands for a literal of the circuit.
fn literal_for_lit(literal: u32) -> Lit
    requires { literal < 2 ^ 31 }
    ensures { result ≡ literal_for literal }
{
    Lit::make(literal / 2 + 1, literal % 2 == 0)
}

/// The three clauses of the gate at a node.
fn push_gate(clauses: &mut Clauses, node: u32, gate: Gate) -> Result<(), Memory>
    requires node { node < 2 ^ 30 }
    requires left { gate.left < 2 ^ 31 }
    requires right { gate.right < 2 ^ 31 }
    ensures { OnOk result (clauses.new ≡ clauses.old ++ gate_clauses_at node gate) }
{
    let (first, second, third) = gate_clauses(
        Lit::make(node + 1, true),
        literal_for_lit(gate.left),
        literal_for_lit(gate.right),
    );
    clauses.push(&first)?;
    clauses.push(&second)?;
    clauses.push(&third)?;
    Ok(())
}

/// The clauses of the gates of these nodes, from the last node on.
fn push_gates(
    clauses: &mut Clauses,
    first: u32,
    gates: &[Gate],
    nodes: &[u32],
) -> Result<(), Memory>
    requires reads { ReadEarlierNodes first gates.now }
    requires nodes { All (λ n. (first ≤ n) × (n < first + length gates.now)) nodes.now }
    requires small { first + length gates.now ≤ 2 ^ 30 }
    ensures { OnOk result (clauses.new ≡ clauses.old ++ listed_clauses first gates.now nodes.now) }
{
    let mut left = nodes.len();
    while left > 0 {
        left -= 1;
        let node = nodes[left];
        push_gate(clauses, node, gates[(node - first) as usize])?;
    }
    Ok(())
}

fn push_cone(
    alloc: Global,
    clauses: &mut Clauses,
    system: &System,
    roots: &[u32],
) -> Result<(), Memory>
    requires { All (IsLiteral system.now.graph) roots.now }
    ensures { OnOk result (clauses.new ≡ clauses.old ++ gate_clauses_of (cone system.now.graph roots.now) (first_gate system.now.graph) system.now.graph.gates) }
{
    let nodes = reached(alloc, system, roots)?;
    // Shows that the parts of the system fit.
    let _nodes = system.node_count();
    push_gates(
        clauses,
        system.first_gate(),
        system.gates(),
        nodes.as_slice(),
    )?;
    Ok(())
}

fn push_lemma(alloc: Global, clauses: &mut Clauses, first: u32, lemma: &Lemma) -> Result<(), Memory>
    requires { All (λ l. first + l.state < 2 ^ 30) lemma.now.lits }
    ensures { OnOk result (clauses.new ≡ clauses.old ++ lemma_clause first lemma.now ∷ []) }
{
    let mut clause = Vec::new(alloc);
    for lit in lemma.lits.as_slice() {
        clause.push(Lit::make(first + lit.state + 1, lit.positive))?;
    }
    clauses.push(clause.as_slice())?;
    Ok(())
}

fn push_premises(
    alloc: Global,
    clauses: &mut Clauses,
    first: u32,
    depth: Depth,
    lemmas: &[Lemma],
) -> Result<(), Memory>
    requires { All (λ k. All (λ l. first + l.state < 2 ^ 30) k.lits) lemmas.now }
    ensures { OnOk result (clauses.new ≡ clauses.old ++ lemma_clauses first (premises depth lemmas.now)) }
{
    let floor = depth.previous();
    for lemma in lemmas {
        if lemma.level.is_at_least(floor) {
            push_lemma(alloc, clauses, first, lemma)?;
        }
    }
    Ok(())
}

fn push_starts(clauses: &mut Clauses, first: u32, states: &[StateInfo]) -> Result<(), Memory>
    requires { first + length states.now ≤ 2 ^ 30 }
    ensures { OnOk result (clauses.new ≡ clauses.old ++ start_clauses first states.now) }
{
    for (i, state) in states.iter().enumerate() {
        if let Some(value) = state.start {
            clauses.push(&[Lit::make(first + i as u32 + 1, value)])?;
        }
    }
    Ok(())
}

fn push_starts_at(
    clauses: &mut Clauses,
    depth: Depth,
    first: u32,
    states: &[StateInfo],
) -> Result<(), Memory>
    requires { first + length states.now ≤ 2 ^ 30 }
    ensures { OnOk result (clauses.new ≡ clauses.old ++ (if is_first depth then start_clauses first states.now else [])) }
{
    if !depth.is_first() {
        return Ok(());
    }
    push_starts(clauses, first, states)
}

fn push_units(clauses: &mut Clauses, literals: &[u32]) -> Result<(), Memory>
    requires { All (λ x. x < 2 ^ 31) literals.now }
    ensures { OnOk result (clauses.new ≡ clauses.old ++ unit_clauses literals.now) }
{
    for literal in literals {
        clauses.push(&[literal_for_lit(*literal)])?;
    }
    Ok(())
}

#[tactic(auto, unfolding(crate::specs::Queries::query_clauses))]
fn build(
    alloc: Global,
    system: &System,
    depth: Depth,
    lemmas: &[Lemma],
    assumed: &[u32],
) -> Result<Clauses, Memory>
    requires states { All (HasStates system.now) lemmas.now }
    requires exist { All (IsLiteral system.now.graph) assumed.now }
    ensures { IfOk result (λ c. c ≡ query_clauses system.now depth lemmas.now assumed.now) }
{
    let first = 1 + system.inputs();
    let mut clauses = Clauses::new(alloc);
    clauses.push(&[Lit::make(1, false)])?;
    push_cone(alloc, &mut clauses, system, assumed)?;
    push_premises(alloc, &mut clauses, first, depth, lemmas)?;
    push_starts_at(&mut clauses, depth, first, system.states())?;
    push_units(&mut clauses, assumed)?;
    Ok(clauses)
}

/// The clauses for these literals, all assumed to be true.
fn query(
    alloc: Global,
    system: &System,
    depth: Depth,
    lemmas: &[Lemma],
    assumed: &[u32],
) -> Result<Clauses, Memory>
    requires states { All (HasStates system.now) lemmas.now }
    requires exist { All (IsLiteral system.now.graph) assumed.now }
    ensures exact { IfOk result (λ c. c ≡ query_clauses system.now depth lemmas.now assumed.now) }
    ensures vars { IfOk result (HaveVarsUpTo (node_count system.now.graph)) }
{
    // Shows that the parts of the system fit.
    let _inputs = system.inputs();
    let clauses = build(alloc, system, depth, lemmas, assumed)?;
    Ok(clauses)
}

/// The literal that says that the lemma's literal is false after a step.
fn false_after_step(system: &System, lit: StateLit) -> u32
    requires { lit.state < length system.now.states }
    ensures value { result ≡ false_after system.now lit }
    ensures exists { IsLiteral system.now.graph result }
{
    // Shows that the parts of the system fit.
    let _states = system.states();
    let next = system.next(lit.state);
    if lit.positive {
        return negated(next);
    }
    next
}

fn all_false_after_step(alloc: Global, system: &System, lemma: &Lemma) -> Result<Vec<u32>, Memory>
    requires { HasStates system.now lemma.now }
    ensures value { IfOk result (λ v. v.items ≡ all_false_after system.now lemma.now) }
    ensures exist { IfOk result (λ v. All (IsLiteral system.now.graph) v.items) }
{
    let mut literals = Vec::new(alloc);
    for lit in lemma.lits.as_slice() {
        literals.push(false_after_step(system, *lit))?;
    }
    Ok(literals)
}

fn has_states(states: usize, lits: &[StateLit]) -> bool
    ensures { IsTrue result ↔ All (λ l. l.state < states) lits.now }
{
    for lit in lits {
        if lit.state as usize >= states {
            return false;
        }
    }
    true
}

/// Whether the state bits of the lemma are the system's.
pub fn lemma_has_states(system: &System, lemma: &Lemma) -> bool
    ensures { IsTrue result ↔ HasStates system.now lemma.now }
{
    has_states(system.states().len(), lemma.lits.as_slice())
}

/// Whether those of all lemmas are.
pub fn have_states(system: &System, lemmas: &[Lemma]) -> bool
    ensures { IsTrue result ↔ All (HasStates system.now) lemmas.now }
{
    for lemma in lemmas {
        if !lemma_has_states(system, lemma) {
            return false;
        }
    }
    true
}

/// The clauses that the proof of the lemma at this place refutes, from 0 on.
pub fn step_query(
    alloc: Global,
    system: &System,
    lemmas: &[Lemma],
    lemma: u64,
) -> Result<Clauses, Memory>
    requires place { lemma < length lemmas.now }
    requires states { All (HasStates system.now) lemmas.now }
    ensures exact { IfOk result (λ c. HoldsAt (λ l. c ≡ step_clauses system.now lemmas.now l) lemmas.now lemma) }
    ensures vars { IfOk result (HaveVarsUpTo (node_count system.now.graph)) }
{
    let lemma = &lemmas[lemma as usize];
    let assumed = all_false_after_step(alloc, system, lemma)?;
    query(alloc, system, lemma.level, lemmas, assumed.as_slice())
}

/// The clauses that the proof of no hit refutes.
pub fn hit_query(
    alloc: Global,
    system: &System,
    depth: Depth,
    lemmas: &[Lemma],
    point: u32,
) -> Result<Clauses, Memory>
    requires point { point < length system.now.hits }
    requires states { All (HasStates system.now) lemmas.now }
    ensures exact { IfOk result (λ c. c ≡ hit_clauses system.now depth lemmas.now point) }
    ensures vars { IfOk result (HaveVarsUpTo (node_count system.now.graph)) }
{
    let hit = system.hit(point);
    query(alloc, system, depth, lemmas, &[hit])
}

/// Where a query is refuted, no state and input are as it says.
pub fn law_refuted_queries_are_unsatisfied()
    ensures { RefutedMeansUnsatisfied }
{}

/// A point for which a ladder is accepted is not hit within its depth.
pub fn law_accepted_ladders_are_sound()
    ensures { LaddersAreSound }
{}

/// The gates of a query are those that its literals reach.
pub fn law_cones_are_reached()
    ensures { ConesAreReached }
{}

/// Values that solve a query give a state and an input that are as it says.
pub fn law_solved_queries_are_satisfied()
    ensures { SolvedMeansSatisfied }
{}

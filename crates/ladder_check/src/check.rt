//! The checker of ladders.
ghost use Rattle.std.specs.Prelude.{◌≡◌, ◌≢◌, ℕ, ◌↔◌, ◌+◌, ◌<◌, ◌≤◌, true, All, length, slice_index_or, IsTrue, IfOk, IfErr, IfSome, OnOk, MatchOption, MatchResult};
ghost use Rattle.cnf_core.specs.Lrat.{start};
ghost use Rattle.aig_core.specs.Graph.{node_count};
ghost use Rattle.bit_system.specs.Ladders.{HasStates, NeverHits};
ghost use Rattle.bit_system.specs.Accepted.{starts_as, true_at_start, StepIsRefuted, HitIsRefuted, IsShaped, IsAccepted};
ghost use Rattle.ladder_check.specs.Faults.{StartFailsAt, StepsFault, StepFails, HitFails, HitFault, IsLadderFault};

use crate::fault::{LadderFault, Query, QueryFault};
use crate::lent::LentLadder;
use crate::proof::proof_fault;
use crate::shape::is_shaped;
use bit_system::{Ladder, Lemma, Memory, Proof, System, hit_query, step_query};
use cnf_core::Clauses;
use lrat_check::{Checker, Room};
use std::alloc::Global;

/// Whether the starting values make one of the lemma's literals true.
fn true_at_start(system: &System, lemma: &Lemma) -> bool
    requires { HasStates system.now lemma.now }
    ensures { result ≡ true_at_start system.now lemma.now }
{
    let states = system.states();
    for lit in lemma.lits.as_slice() {
        if starts_as(states[lit.state as usize].start, lit.positive) {
            return true;
        }
    }
    false
}

/// Whether the starting value makes a literal of this sign true.
fn starts_as(start: Option<bool>, positive: bool) -> bool
    ensures { result ≡ starts_as start positive }
{
    match start {
        None => false,
        Some(value) => value == positive,
    }
}

/// The place of the first lemma with no literal that is true at the start.
fn start_failure(system: &System, lemmas: &[Lemma]) -> Option<usize>
    requires { All (HasStates system.now) lemmas.now }
    ensures { MatchOption result (All (λ l. true_at_start system.now l ≡ true) lemmas.now) (StartFailsAt system.now lemmas.now) }
{
    for (i, lemma) in lemmas.iter().enumerate() {
        if !true_at_start(system, lemma) {
            return Some(i);
        }
    }
    None
}

/// What is wrong with the proof of the lemma at this place.
fn step_fault(
    alloc: Global,
    system: &System,
    ladder: &LentLadder<'_>,
    place: usize,
    checker: &mut Checker,
) -> Result<Option<QueryFault>, Memory>
    requires vars { checker.old.vars ≡ node_count system.now.graph }
    requires shape { IsShaped system.now ladder.now }
    requires place { place < length ladder.now.lemmas }
    ensures fault { IfOk result (λ f. MatchOption f (StepIsRefuted system.now ladder.now place) (StepFails system.now ladder.now place)) }
    ensures vars { checker.new.vars ≡ checker.old.vars }
{
    let query = step_query(alloc, system, ladder.lemmas(), place as u64)?;
    let steps = ladder.steps();
    let fault = proof_fault(alloc, checker, &query, &steps[place])?;
    Ok(fault)
}

/// The first step proof that fails, if any.
fn check_steps(
    alloc: Global,
    system: &System,
    ladder: &LentLadder<'_>,
    checker: &mut Checker,
) -> Result<(), LadderFault>
    requires vars { checker.old.vars ≡ node_count system.now.graph }
    requires shape { IsShaped system.now ladder.now }
    ensures ok { OnOk result ((i : ℕ) → i < length ladder.now.lemmas → StepIsRefuted system.now ladder.now i) }
    ensures fault { IfErr result (StepsFault system.now ladder.now) }
    ensures vars { checker.new.vars ≡ checker.old.vars }
{
    for place in 0..ladder.lemmas().len() {
        if let Some(fault) = step_fault(alloc, system, ladder, place, checker)? {
            let query = Query::Step(place as u64 + 1);
            return Err(LadderFault::Line { query, fault });
        }
    }
    Ok(())
}

/// What is wrong with the proof that the point isn't hit.
fn hit_fault(
    alloc: Global,
    system: &System,
    point: u32,
    ladder: &LentLadder<'_>,
    proof: &Proof,
    checker: &mut Checker,
) -> Result<Option<QueryFault>, Memory>
    requires vars { checker.old.vars ≡ node_count system.now.graph }
    requires shape { IsShaped system.now ladder.now }
    requires point { point < length system.now.hits }
    ensures fault { IfOk result (λ f. MatchOption f (HitIsRefuted system.now point ladder.now proof.now) (HitFails system.now point ladder.now proof.now)) }
    ensures vars { checker.new.vars ≡ checker.old.vars }
{
    let query = hit_query(alloc, system, ladder.depth(), ladder.lemmas(), point)?;
    let fault = proof_fault(alloc, checker, &query, proof)?;
    Ok(fault)
}

/// The fault of the hit proof, if it has one.
fn check_hit(
    alloc: Global,
    system: &System,
    point: u32,
    ladder: &LentLadder<'_>,
    checker: &mut Checker,
) -> Result<(), LadderFault>
    requires vars { checker.old.vars ≡ node_count system.now.graph }
    requires shape { IsShaped system.now ladder.now }
    requires point { point < length system.now.hits }
    ensures ok { OnOk result (IfSome ladder.now.hit (HitIsRefuted system.now point ladder.now)) }
    ensures fault { IfErr result (HitFault system.now point ladder.now) }
    ensures vars { checker.new.vars ≡ checker.old.vars }
{
    let Some(proof) = ladder.hit() else {
        return Ok(());
    };
    if let Some(fault) = hit_fault(alloc, system, point, ladder, proof, checker)? {
        let query = Query::Hit;
        return Err(LadderFault::Line { query, fault });
    }
    Ok(())
}

/// A checker for all ladders of a system. The memory that goes by the number of nodes is taken here, so
/// that each ladder costs its queries and lines alone.
pub fn checker_for(alloc: Global, system: &System) -> Result<Checker, Memory>
    ensures { IfOk result (λ c. c.vars ≡ node_count system.now.graph) }
{
    let none = Clauses::new(alloc);
    let checker = Checker::make(
        alloc,
        &none,
        system.node_count(),
        Room { lines: 0, lits: 0 },
    )?;
    Ok(checker)
}

/// Accepts exactly the ladders that show that the point isn't hit within their depth. It makes a checker
/// of its own; for many ladders take `check_with`.
pub fn check_ladder(
    alloc: Global,
    system: &System,
    point: u32,
    ladder: &Ladder,
) -> Result<(), LadderFault>
    requires { point < length system.now.hits }
    ensures accepted { OnOk result (IsAccepted system.now point ladder.now) }
    ensures fault { IfErr result (IsLadderFault system.now point ladder.now) }
    ensures refused { IfErr result (λ f. f ≢ LadderFault.Memory → IsAccepted system.now point ladder.now → ⊥) }
    ensures meaning { OnOk result (NeverHits system.now point ladder.now.depth) }
{
    let mut checker = checker_for(alloc, system)?;
    check_with(alloc, system, point, &LentLadder::of(ladder), &mut checker)
}

/// The same with a checker that other ladders of the system used before.
pub fn check_with(
    alloc: Global,
    system: &System,
    point: u32,
    ladder: &LentLadder<'_>,
    checker: &mut Checker,
) -> Result<(), LadderFault>
    requires vars { checker.old.vars ≡ node_count system.now.graph }
    requires point { point < length system.now.hits }
    ensures accepted { OnOk result (IsAccepted system.now point ladder.now) }
    ensures fault { IfErr result (IsLadderFault system.now point ladder.now) }
    ensures refused { IfErr result (λ f. f ≢ LadderFault.Memory → IsAccepted system.now point ladder.now → ⊥) }
    ensures meaning { OnOk result (NeverHits system.now point ladder.now.depth) }
    ensures vars { checker.new.vars ≡ checker.old.vars }
{
    // Shows that the parts of the system fit.
    let _nodes = system.node_count();
    check(alloc, system, point, ladder, checker)
}

fn check(
    alloc: Global,
    system: &System,
    point: u32,
    ladder: &LentLadder<'_>,
    checker: &mut Checker,
) -> Result<(), LadderFault>
    requires vars { checker.old.vars ≡ node_count system.now.graph }
    requires point { point < length system.now.hits }
    ensures accepted { OnOk result (IsAccepted system.now point ladder.now) }
    ensures fault { IfErr result (IsLadderFault system.now point ladder.now) }
    ensures vars { checker.new.vars ≡ checker.old.vars }
{
    if !is_shaped(system, ladder) {
        return Err(LadderFault::Shape);
    }
    if let Some(place) = start_failure(system, ladder.lemmas()) {
        let lemma = place as u64 + 1;
        return Err(LadderFault::StartFails { lemma });
    }
    check_steps(alloc, system, ladder, checker)?;
    check_hit(alloc, system, point, ladder, checker)?;
    Ok(())
}

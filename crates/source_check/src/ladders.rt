// The ladders of certificates, whose lemmas name state bits.

ghost use Rattle.std.specs.Prelude.{◌≡◌, ◌<◌, List, ℕ, length, map, IfOk, IfErr, OnOk};
ghost use Rattle.aig_core.specs.Graph.{node_count};
ghost use Rattle.bit_system.specs.Accepted.{IsAccepted};
ghost use Rattle.ladder_check.specs.Faults.{IsLadderFault};
ghost use Rattle.source_check.specs.Ladders.{state_names, state_of, lit_of, lemma_of, ladder_of};
ghost use Rattle.source_check.specs.Places.{place_in};

use crate::places::Places;
use bit_system::{Depth, Lemma, StateLit, System};
use cert_text::{NamedLadder, NamedLemma, NamedLit};
use ladder_check::{LadderFault, LentLadder, check_with};
use lrat_check::Checker;
use sqlite_items::Items;
use std::alloc::{AllocError, Global};

/// The literal of a state bit that is named.
fn lit(places: &Places, named: &NamedLit) -> StateLit
    ensures { result ≡ lit_of (place_in places.now) named.now }
{
    StateLit {
        state: places.place(&named.name),
        positive: named.positive,
    }
}

/// A lemma with the numbers of its state bits.
fn lemma(alloc: Global, places: &Places, named: &NamedLemma) -> Result<Lemma, AllocError>
    ensures { IfOk result (λ l. l ≡ lemma_of (place_in places.now) named.now) }
{
    let mut lits = Items::new(alloc);
    for literal in named.lits.as_slice() {
        lits.push(lit(places, literal))?;
    }
    Ok(Lemma {
        level: named.level,
        lits,
    })
}

/// Lemmas with the numbers of their state bits.
fn lemmas(alloc: Global, places: &Places, named: &[NamedLemma]) -> Result<Items<Lemma>, AllocError>
    ensures { IfOk result (λ ls. ls ≡ map (lemma_of (place_in places.now)) named.now) }
{
    let mut lemmas = Items::new(alloc);
    for one in named {
        lemmas.push(lemma(alloc, places, one)?)?;
    }
    Ok(lemmas)
}

/// Whether the ladder shows that a point of the system isn't hit within this depth, and else why not. It costs
/// its queries and its lines.
pub fn check_named(
    alloc: Global,
    system: &System,
    places: &Places,
    point: u32,
    depth: Depth,
    ladder: &NamedLadder,
    checker: &mut Checker,
) -> Result<(), LadderFault>
    requires names { (name : List ℕ) → place_in places.now name ≡ state_of (state_names system.now.states) name }
    requires vars { checker.old.vars ≡ node_count system.now.graph }
    requires point { point < length system.now.hits }
    ensures accepted { OnOk result (IsAccepted system.now point (ladder_of (state_names system.now.states) depth ladder.now)) }
    ensures fault { IfErr result (IsLadderFault system.now point (ladder_of (state_names system.now.states) depth ladder.now)) }
    ensures vars { checker.new.vars ≡ checker.old.vars }
{
    let lemmas = lemmas(alloc, places, ladder.lemmas.as_slice())?;
    let lent = LentLadder::new(
        depth,
        lemmas.as_slice(),
        ladder.steps.as_slice(),
        ladder.hit.as_ref(),
    );
    check_with(alloc, system, point, &lent, checker)
}

//! The shape of a ladder.
ghost use Rattle.std.specs.Prelude.{◌≡◌, ◌↔◌, ◌<◌, All, length, IsTrue};
ghost use Rattle.bit_system.specs.Accepted.{IsLevelOf, has_steps, Rises, LemmaFits, IsShaped};

use crate::lent::LentLadder;
use bit_system::{Depth, Lemma, StateLit, System, lemma_has_states};

/// Whether a ladder of this depth may have a lemma of this level.
fn is_level_of(depth: Depth, level: Depth) -> bool
    ensures { IsTrue result ↔ IsLevelOf depth level }
{
    match depth {
        Depth::All => match level {
            Depth::All => true,
            Depth::Steps(_) => false,
        },
        Depth::Steps(steps) => match level {
            Depth::All => 0 < steps,
            Depth::Steps(level) => 0 < level && level < steps,
        },
    }
}

/// Whether there is a step that could hit.
fn has_steps(depth: Depth) -> bool
    ensures { result ≡ has_steps depth }
{
    match depth {
        Depth::All => true,
        Depth::Steps(steps) => 0 < steps,
    }
}

/// Whether the state bits rise strictly.
fn rise(lits: &[StateLit]) -> bool
    ensures { IsTrue result ↔ Rises lits.now }
{
    let mut low: u64 = 0;
    for lit in lits {
        let state = u64::from(lit.state);
        if state < low {
            return false;
        }
        low = state + 1;
    }
    true
}

/// Whether level, state bits and their order fit.
fn lemma_fits(system: &System, depth: Depth, lemma: &Lemma) -> bool
    ensures { IsTrue result ↔ LemmaFits system.now depth lemma.now }
{
    if !is_level_of(depth, lemma.level) {
        return false;
    }
    if !lemma_has_states(system, lemma) {
        return false;
    }
    rise(lemma.lits.as_slice())
}

/// Whether those of all lemmas do.
fn lemmas_fit(system: &System, depth: Depth, lemmas: &[Lemma]) -> bool
    ensures { IsTrue result ↔ All (LemmaFits system.now depth) lemmas.now }
{
    for lemma in lemmas {
        if !lemma_fits(system, depth, lemma) {
            return false;
        }
    }
    true
}

/// Whether levels, state numbers and proofs fit.
pub fn is_shaped(system: &System, ladder: &LentLadder<'_>) -> bool
    ensures { IsTrue result ↔ IsShaped system.now ladder.now }
{
    if !lemmas_fit(system, ladder.depth(), ladder.lemmas()) {
        return false;
    }
    if ladder.steps().len() != ladder.lemmas().len() {
        return false;
    }
    ladder.hit().is_some() == has_steps(ladder.depth())
}

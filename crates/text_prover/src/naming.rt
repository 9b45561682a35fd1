// What was found out of a point, in the words of certificates.

ghost use Rattle.std.specs.Prelude.{◌≡◌, ◌<◌, length, map, All, IfOk};
ghost use Rattle.text_prover.specs.Naming.{named_lit, named_lemma, named_ladder, stimulus_of, HasBits};

use bit_system::{Ladder, Lemma, StateInfo, StateLit};
use cert_text::{NamedLadder, NamedLemma, NamedLit};
use design_core::setup::Stimulus;
use point_prover::Walk;
use sqlite_items::Items;
use std::alloc::{AllocError, Global};
use word_core::Name;

/// The literal, with the name of its state bit.
fn named_lit(alloc: Global, states: &[StateInfo], lit: &StateLit) -> Result<NamedLit, AllocError>
    requires { lit.now.state < length states.now }
    ensures { IfOk result (λ l. l ≡ named_lit states.now lit.now) }
{
    Ok(NamedLit {
        name: Name::make(alloc, states[lit.state as usize].name.bytes())?,
        positive: lit.positive,
    })
}

/// The lemma, with the names of its state bits.
fn named_lemma(alloc: Global, states: &[StateInfo], lemma: &Lemma) -> Result<NamedLemma, AllocError>
    requires { HasBits (length states.now) lemma.now }
    ensures { IfOk result (λ l. l ≡ named_lemma states.now lemma.now) }
{
    let mut lits = Items::new(alloc);
    for lit in lemma.lits.as_slice() {
        lits.push(named_lit(alloc, states, lit)?)?;
    }
    Ok(NamedLemma {
        level: lemma.level,
        lits,
    })
}

/// The lemmas, with the names of their state bits.
fn named_lemmas(
    alloc: Global,
    states: &[StateInfo],
    lemmas: &[Lemma],
) -> Result<Items<NamedLemma>, AllocError>
    requires { All (HasBits (length states.now)) lemmas.now }
    ensures { IfOk result (λ ls. ls ≡ map (named_lemma states.now) lemmas.now) }
{
    let mut named = Items::new(alloc);
    for lemma in lemmas {
        named.push(named_lemma(alloc, states, lemma)?)?;
    }
    Ok(named)
}

/// The ladder, with the names of state bits.
pub fn named_ladder(
    alloc: Global,
    states: &[StateInfo],
    ladder: Ladder,
) -> Result<NamedLadder, AllocError>
    requires { All (HasBits (length states.now)) ladder.lemmas }
    ensures { IfOk result (λ l. l ≡ named_ladder states.now ladder) }
{
    let lemmas = named_lemmas(alloc, states, ladder.lemmas.as_slice())?;
    Ok(NamedLadder {
        lemmas,
        steps: ladder.steps,
        hit: ladder.hit,
    })
}

/// The start and the inputs of the walk. The state bits are the registers, in their order.
pub fn stimulus(walk: Walk) -> Stimulus
    ensures { result ≡ stimulus_of walk }
{
    Stimulus {
        start: walk.start,
        lines: walk.lines,
    }
}

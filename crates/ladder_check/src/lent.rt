//! Ladders whose parts lie elsewhere.
ghost use Rattle.std.specs.Prelude.{◌≡◌};
ghost use Rattle.std.specs.Option.{option_copied};

use bit_system::{Depth, Ladder, Lemma, Proof};
use std::marker::Model;

/// A ladder whose lemmas and proofs are lent. Contracts see the ladder that they make.
#[derive(Drop)]
pub struct LentLadder<'a> {
    depth: Depth,
    lemmas: &'a [Lemma],
    steps: &'a [Proof],
    hit: Option<&'a Proof>,
}

impl<'a> Model for LentLadder<'a> {
    ghost use Rattle.std.specs.Option.{option_copied};
    ghost use Rattle.bit_system.specs.declared.ladder.Ladder.{Ladder};

    ghost Value = { Ladder };

    ghost view = { λ l. record { depth = l.depth; lemmas = l.lemmas.now; steps = l.steps.now; hit = option_copied l.hit } };
}

impl<'a> LentLadder<'a> {
    /// The ladder of these parts.
    pub fn new(
        depth: Depth,
        lemmas: &'a [Lemma],
        steps: &'a [Proof],
        hit: Option<&'a Proof>,
    ) -> LentLadder<'a>
        ensures { result ≡ record { depth = depth; lemmas = lemmas.now; steps = steps.now; hit = option_copied hit.entry } }
    {
        LentLadder {
            depth,
            lemmas,
            steps,
            hit,
        }
    }

    /// The parts of a ladder, lent.
    pub fn of(ladder: &'a Ladder) -> LentLadder<'a>
        ensures { result ≡ ladder.now }
    {
        LentLadder {
            depth: ladder.depth,
            lemmas: ladder.lemmas.as_slice(),
            steps: ladder.steps.as_slice(),
            hit: ladder.hit.as_ref(),
        }
    }

    /// How many steps it is about.
    pub fn depth(&self) -> Depth
        ensures { result ≡ self.now.depth }
    {
        self.depth
    }

    /// Its lemmas.
    pub fn lemmas(&self) -> &'a [Lemma]
        ensures { result.now ≡ self.now.lemmas }
    {
        self.lemmas
    }

    /// The proofs of its lemmas.
    pub fn steps(&self) -> &'a [Proof]
        ensures { result.now ≡ self.now.steps }
    {
        self.steps
    }

    /// The proof that no hit is made.
    pub fn hit(&self) -> Option<&'a Proof>
        ensures { option_copied result ≡ self.now.hit }
    {
        self.hit
    }
}

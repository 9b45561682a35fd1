//! Literals, numbered clauses, the clauses of a gate, and the lines of an LRAT proof.
#![tactic(auto)]

ghost use Rattle.std.specs.Prelude.{◌≡◌, ◌≢◌, ◌↔◌, ℕ, ◌+◌, ◌*◌, ◌<◌, ◌≤◌, ◌^◌, ◌++◌, [], ◌∷◌, length, IfOk, OnErr, OnOk, IsTrue, IsSome, IfSome, if◌then◌else◌, slice_index_or, take, pos, negsuc, All};
ghost use Rattle.cnf_core.specs.Literal.{negated, HaveVarsUpTo};
ghost use Rattle.cnf_core.specs.Views.{literal_of};
ghost use Rattle.cnf_core.specs.Gates.{Conjoins, clauses_of_gate};
ghost use Rattle.cnf_core.specs.Lrat.{RefutingIsSound, PlainClausesAreUnsolvable};

use smallvec::SmallVec;
use std::alloc::{AllocError, Global};
use std::marker::Model;

/// Memory ran out: the one error of this crate.
pub type Memory = AllocError;

/// A variable or its negation, as DIMACS writes it: a number other than 0 and above -2^31, whose
/// variable is its magnitude.
#[derive(Clone, Copy)]
pub struct Lit {
    number: i32,
}

impl Model for Lit {
    ghost use Rattle.std.specs.Prelude.{ℕ, ◌<◌, ◌^◌, unsigned_abs};
    ghost use Rattle.std.proofs.Common.{ap};
    ghost use Rattle.cnf_core.specs.Literal.{Literal};
    ghost use Rattle.cnf_core.specs.Views.{literal_of, number_of, number_of-literal_of};

    ghost Value = { Literal };

    ghost view = { λ l. literal_of l.number };

    ghost invariant = { λ l. (0 < unsigned_abs l.number) × (unsigned_abs l.number < 2 ^ 31) };

    ghost inverse = { λ l. record { number = number_of l } };

    ghost inverse_ok = { λ l h. ap (λ n. record { number = n }) (number_of-literal_of l.number) };
}

impl Lit {
    /// The literal of a number. There is none exactly where the number is 0 or -2^31.
    pub fn new(number: i32) -> Option<Self>
        ensures value { IfSome result (λ l. l ≡ literal_of number) }
        ensures some { number ≢ pos 0 → number ≢ negsuc 2147483647 → IsSome result }
    {
        if number == 0 || number == i32::MIN {
            return None;
        }
        Some(Lit { number })
    }

    /// A variable, or where `positive` is false its negation.
    pub fn make(variable: u32, positive: bool) -> Self
        requires low { 0 < variable }
        requires high { variable < 2 ^ 31 }
        ensures { result ≡ record { variable = variable; positive = positive } }
    {
        let number = variable as i32;
        if positive {
            return Lit { number };
        }
        Lit { number: -number }
    }

    /// The variable, from 1 to 2^31 - 1.
    pub fn variable(self) -> u32
        ensures value { result ≡ self.variable }
        ensures low { 0 < result }
        ensures high { result < 2 ^ 31 }
    {
        self.number.unsigned_abs()
    }

    /// Whether the literal is its variable, and not the negation of it.
    pub fn is_positive(self) -> bool
        ensures { result ≡ self.positive }
    {
        self.number > 0
    }

    /// The opposite literal.
    pub fn negated(self) -> Self
        ensures { result ≡ negated self }
    {
        Lit {
            number: -self.number,
        }
    }
}

/// The numbers of clauses that a line names. Up to eight of them take no memory of their own.
pub type Hints = SmallVec<u64, 8>;

/// A line of an LRAT proof, without RAT: no hint is negative.
#[derive(Drop)]
pub enum Line {
    /// A clause that follows, with its new number and with the numbers of the clauses that show it.
    Add {
        id: u64,
        lits: Vec<Lit>,
        hints: Hints,
    },
    /// Numbers of clauses that are not used from here on. The line's own number says nothing.
    Delete {
        id: u64,
        ids: Hints,
    },
}

/// How the hints of an addition end, read in order.
#[derive(Clone, Copy)]
pub enum Ending {
    /// A clause has only false literals.
    Falsified,
    /// No live clause has this number.
    NoHint(u64),
    /// Two literals or more of this clause aren't false.
    NotUnit(u64),
    /// No clause was falsified.
    RanOut,
}

/// The three clauses that hold exactly where `gate` is the conjunction of `left` and `right`.
pub fn gate_clauses(gate: Lit, left: Lit, right: Lit) -> ([Lit; 2], [Lit; 2], [Lit; 3])
    ensures exact { result.0 ∷ result.1 ∷ result.2 ∷ [] ≡ clauses_of_gate gate left right }
    ensures meaning { Conjoins gate left right result.0 result.1 result.2 }
{
    (
        [gate.negated(), left],
        [gate.negated(), right],
        [gate, left.negated(), right.negated()],
    )
}

/// Lines that refute clauses leave them no solution.
pub fn law_refuting_is_sound()
    ensures { RefutingIsSound }
{}

/// Clauses that one empty line refutes have no solution.
pub fn law_plain_clauses_are_unsolvable()
    ensures { PlainClausesAreUnsolvable }
{}

/// A part of a list: the places from `from` on that are below `to`.
#[derive(Clone, Copy)]
pub struct Span {
    pub from: usize,
    pub to: usize,
}

fn lits_have_vars_up_to(lits: &[Lit], vars: u32) -> bool
    ensures { IsTrue result ↔ All (λ l. l.variable ≤ vars) lits.now }
{
    for literal in lits {
        if literal.variable() > vars {
            return false;
        }
    }
    true
}

/// Clauses, numbered from 1. They stand in one list of literals: a clause is found at once, and a new
/// one costs its length.
#[derive(Drop)]
pub struct Clauses {
    lits: Vec<Lit>,
    spans: Vec<Span>,
}

impl Model for Clauses {
    ghost use Rattle.std.specs.Prelude.{List, map, All, length};
    ghost use Rattle.cnf_core.specs.Literal.{Literal};
    ghost use Rattle.cnf_core.specs.Spans.{cut, IsWithin};

    ghost Value = { List (List Literal) };

    ghost view = { λ c. map (cut c.lits.items) c.spans.items };

    ghost invariant = { λ c. All (IsWithin (length c.lits.items)) c.spans.items };
}

impl Clauses {
    /// No clauses.
    pub fn new(alloc: Global) -> Self
        ensures { result ≡ [] }
    {
        Clauses {
            lits: Vec::new(alloc),
            spans: Vec::new(alloc),
        }
    }

    /// How many clauses there are.
    pub fn len(&self) -> usize
        ensures { result ≡ length self.now }
    {
        self.spans.len()
    }

    /// The number of the next clause.
    pub fn next(&self) -> u64
        ensures { result ≡ length self.now + 1 }
    {
        self.spans.len() as u64 + 1
    }

    /// The clause at a place, from 0 on: the one with the number `at + 1`.
    pub fn get(&self, at: usize) -> &[Lit]
        requires { at < length self.now }
        ensures { result.now ≡ slice_index_or self.now at [] }
    {
        let span = self.spans[at];
        &self.lits.as_slice()[span.from..span.to]
    }

    /// Whether every variable is at most `vars`.
    pub fn have_vars_up_to(&self, vars: u32) -> bool
        ensures { IsTrue result ↔ HaveVarsUpTo vars self.now }
    {
        for at in 0..self.len() {
            if !lits_have_vars_up_to(self.get(at), vars) {
                return false;
            }
        }
        true
    }

    /// Adds a clause, and gives its number. After want of memory the clauses are as before.
    pub fn push(&mut self, clause: &[Lit]) -> Result<u64, Memory>
        ensures number { IfOk result (λ id. id ≡ length self.new) }
        ensures ok { OnOk result (self.new ≡ self.old ++ clause.now ∷ []) }
        ensures err { OnErr result (self.new ≡ self.old) }
    {
        self.spans.reserve(1)?;
        let from = self.lits.len();
        self.lits.extend_from_slice(clause)?;
        let to = self.lits.len();
        self.spans.push_reserved(Span { from, to });
        Ok(self.spans.len() as u64)
    }

    /// Leaves the first `count` clauses.
    pub fn truncate(&mut self, count: usize)
        ensures { self.new ≡ take count self.old }
    {
        self.spans.truncate(count);
    }
}

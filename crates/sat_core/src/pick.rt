//! Decisions.
ghost use Rattle.std.specs.Prelude.{◌≡◌, ◌≤◌, ◌⊎◌, [], true, All, MatchOption};
ghost use Rattle.cnf_core.specs.Literal.{HaveVarsUpTo};
ghost use Rattle.cnf_core.specs.Lrat.{open_lits};
ghost use Rattle.sat_core.specs.Trailed.{IsQuiet, IsFree, is_satisfied};

use crate::trail::Trail;
use cnf_core::{Clauses, Lit};

/// The first literal of a clause without a true literal that is free.
fn choose(trail: &Trail, clause: &[Lit]) -> Option<Lit>
    requires { All (λ l. l.variable ≤ trail.now.vars) clause.now }
    ensures { MatchOption result ((is_satisfied trail.now.falses clause.now ≡ true)
        ⊎ (open_lits trail.now.falses clause.now ≡ []))
        (λ l. IsFree trail.now.vars trail.now.falses l) }
{
    let mut free: Option<Lit> = None;
    for literal in clause {
        if trail.is_false(literal.negated()) {
            return None;
        }
        if !trail.is_false(*literal) {
            free = Some(*literal);
        }
    }
    free
}

/// A free literal of a clause without a true literal, if there is such a clause.
pub fn pick(clauses: &Clauses, trail: &Trail) -> Option<Lit>
    requires vars { HaveVarsUpTo trail.now.vars clauses.now }
    requires quiet { All (IsQuiet trail.now.falses) clauses.now }
    ensures { MatchOption result (All (λ c. is_satisfied trail.now.falses c ≡ true) clauses.now)
        (λ l. IsFree trail.now.vars trail.now.falses l) }
{
    for at in 0..clauses.len() {
        if let Some(literal) = choose(trail, clauses.get(at)) {
            return Some(literal);
        }
    }
    None
}

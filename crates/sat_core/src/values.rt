//! The values of a trail, and negated literals.
ghost use Rattle.std.specs.Prelude.{◌≡◌, IfOk, map, length};
ghost use Rattle.cnf_core.specs.Literal.{negated};
ghost use Rattle.sat_core.specs.Answers.{valuation};
ghost use Rattle.sat_core.specs.Trailed.{Agree};

use crate::trail::Trail;
use cnf_core::{Lit, Memory};
use sqlite_items::Items;
use std::alloc::Global;

/// The values, that of variable 1 first.
pub fn values(alloc: Global, trail: &Trail) -> Result<Items<bool>, Memory>
    ensures long { IfOk result (λ v. length v ≡ trail.now.vars) }
    ensures values { IfOk result (λ v. Agree trail.now.vars trail.now.falses (valuation v)) }
{
    let mut values = Items::new(alloc);
    for at in 0..trail.vars() {
        values.push(trail.is_set(at + 1))?;
    }
    Ok(values)
}

/// The negations of literals.
pub fn negate_all(alloc: Global, lits: &[Lit]) -> Result<Items<Lit>, Memory>
    ensures { IfOk result (λ v. v ≡ map negated lits.now) }
{
    let mut negations = Items::new(alloc);
    for literal in lits {
        negations.push(literal.negated())?;
    }
    Ok(negations)
}

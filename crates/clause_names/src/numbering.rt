//! Clauses over dense variables.
ghost use Rattle.std.specs.Prelude.{◌≡◌, ◌+◌, ◌<◌, ◌≤◌, ◌^◌, [], ◌∷◌, length, IfOk, OnOk};
ghost use Rattle.clause_names.specs.Naming.{IsNaming};
ghost use Rattle.clause_names.specs.Numbering.{Grows, IsInClause, IsInClauses, IsNumberOf, IsNumbered, ClauseIsNumbered, AreNumbered, IsNumbering};
ghost use Rattle.clause_names.specs.Laws.{NumberedClausesAreAsUnsolvable};

use cnf_core::{Clauses, Lit, Memory};
use indexmap::IndexSet;
use std::alloc::{AllocError, Global};

/// The greatest variable that a literal has.
const GREATEST: usize = (1 << 31) - 1;

/// Clauses whose variables are numbers, given from 1 on in the order in which variables are met, and the variable for
/// each number. Number 0 stands for 0, which is no variable.
#[derive(Drop)]
pub struct Numbered {
    pub names: IndexSet<u32>,
    pub clauses: Clauses,
}

/// The number of the variable: the one that it has, or the next one.
fn number_of(names: &mut IndexSet<u32>, variable: u32) -> Result<u32, Memory>
    requires low { 0 < variable }
    requires high { variable < 2 ^ 31 }
    requires naming { IsNaming names.old.keys }
    ensures number { IfOk result (IsNumberOf names.new.keys variable) }
    ensures small { IfOk result (λ k. k < 2 ^ 31) }
    ensures grows { OnOk result (Grows names.old.keys names.new.keys (λ n. n ≡ variable)) }
{
    if names.len() >= GREATEST {
        return Err(AllocError);
    }
    match names.insert_full(variable) {
        Ok((at, _)) => Ok(at as u32),
        Err(_) => Err(AllocError),
    }
}

/// The literal of the variable's number.
fn number_literal(names: &mut IndexSet<u32>, literal: Lit) -> Result<Lit, Memory>
    requires { IsNaming names.old.keys }
    ensures numbered { IfOk result (IsNumbered names.new.keys literal) }
    ensures grows { OnOk result (Grows names.old.keys names.new.keys (λ n. n ≡ literal.variable)) }
{
    let number = number_of(names, literal.variable())?;
    Ok(Lit::make(number, literal.is_positive()))
}

fn number_clause(
    alloc: Global,
    names: &mut IndexSet<u32>,
    clause: &[Lit],
) -> Result<Vec<Lit>, Memory>
    requires { IsNaming names.old.keys }
    ensures numbered { IfOk result (λ c. ClauseIsNumbered names.new.keys clause.now c.items) }
    ensures grows { OnOk result (Grows names.old.keys names.new.keys (IsInClause clause.now)) }
{
    let mut numbers = Vec::new(alloc);
    for literal in clause {
        numbers.push(number_literal(names, *literal)?)?;
    }
    Ok(numbers)
}

fn number_all(
    alloc: Global,
    names: &mut IndexSet<u32>,
    clauses: &Clauses,
) -> Result<Clauses, Memory>
    requires { IsNaming names.old.keys }
    ensures numbered { IfOk result (AreNumbered names.new.keys clauses.now) }
    ensures grows { OnOk result (Grows names.old.keys names.new.keys (IsInClauses clauses.now)) }
{
    let mut numbered = Clauses::new(alloc);
    for at in 0..clauses.len() {
        let clause = number_clause(alloc, names, clauses.get(at))?;
        numbered.push(clause.as_slice())?;
    }
    Ok(numbered)
}

/// The names of no variables.
fn no_names(alloc: Global) -> Result<IndexSet<u32>, Memory>
    ensures { IfOk result (λ names. names.keys ≡ 0 ∷ []) }
{
    let mut names = IndexSet::new(alloc);
    match names.insert_full(0) {
        Ok(_) => Ok(names),
        Err(_) => Err(AllocError),
    }
}

/// The clauses over dense variables. It takes the time and memory of their literals, whatever their variables are.
pub fn number_clauses(alloc: Global, clauses: &Clauses) -> Result<Numbered, Memory>
    ensures { IfOk result (IsNumbering clauses.now) }
{
    let mut names = no_names(alloc)?;
    let clauses = number_all(alloc, &mut names, clauses)?;
    Ok(Numbered { names, clauses })
}

/// Where clauses have no solution, neither have they over dense variables.
pub fn law_numbered_clauses_are_as_unsolvable()
    ensures { NumberedClausesAreAsUnsolvable }
{}

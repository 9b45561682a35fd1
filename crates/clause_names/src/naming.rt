//! Lines over dense variables, told in the variables themselves.
ghost use Rattle.std.specs.Prelude.{◌≡◌, ℕ, ◌+◌, ◌<◌, ◌≤◌, List, All, length, map, IfOk};
ghost use Rattle.cnf_core.specs.Literal.{Literal, HaveVarsUpTo};
ghost use Rattle.cnf_core.specs.Lrat.{Refutes};
ghost use Rattle.bit_system.specs.Accepted.{IsRefutedBy};
ghost use Rattle.bit_system.specs.ProofLines.{seen};
ghost use Rattle.clause_names.specs.Naming.{IsNaming, named, named_line, HasVarsBelow};
ghost use Rattle.clause_names.specs.Numbering.{IsNumbering};

use crate::numbering::Numbered;
use bit_system::{Memory, Proof};
use cnf_core::{Hints, Line, Lit};
use indexmap::IndexSet;
use std::alloc::Global;

fn named_literal(names: &IndexSet<u32>, literal: Lit) -> Lit
    requires naming { IsNaming names.now.keys }
    requires below { literal.variable < length names.now.keys }
    ensures { result ≡ named names.now.keys literal }
{
    let names = names.as_slice();
    Lit::make(names[literal.variable() as usize], literal.is_positive())
}

fn named_lits(alloc: Global, names: &IndexSet<u32>, lits: &[Lit]) -> Result<Vec<Lit>, Memory>
    requires naming { IsNaming names.now.keys }
    requires below { All (λ l. l.variable < length names.now.keys) lits.now }
    ensures { IfOk result (λ ls. ls.items ≡ map (named names.now.keys) lits.now) }
{
    let mut all = Vec::new(alloc);
    for literal in lits {
        all.push(named_literal(names, *literal))?;
    }
    Ok(all)
}

fn named_line(alloc: Global, names: &IndexSet<u32>, line: &Line) -> Result<Line, Memory>
    requires naming { IsNaming names.now.keys }
    requires below { HasVarsBelow (length names.now.keys) (seen line.now) }
    ensures { IfOk result (λ l. seen l ≡ named_line names.now.keys (seen line.now)) }
{
    match line {
        Line::Add { id, lits, hints } => Ok(Line::Add {
            id: *id,
            lits: named_lits(alloc, names, lits.as_slice())?,
            hints: Hints::from_slice(alloc, hints.as_slice())?,
        }),
        Line::Delete { id, ids } => Ok(Line::Delete {
            id: *id,
            ids: Hints::from_slice(alloc, ids.as_slice())?,
        }),
    }
}

fn named_lines(alloc: Global, names: &IndexSet<u32>, lines: &[Line]) -> Result<Proof, Memory>
    requires naming { IsNaming names.now.keys }
    requires below { All (λ l. HasVarsBelow (length names.now.keys) (seen l)) lines.now }
    ensures { IfOk result (λ p. p ≡ map (named_line names.now.keys) (map seen lines.now)) }
{
    let mut proof = Proof::new(alloc);
    for line in lines {
        proof.push(named_line(alloc, names, line)?)?;
    }
    Ok(proof)
}

impl Numbered {
    /// The greatest number, which is also how many variables there are.
    pub fn vars(&self) -> u32
        requires { IsNaming self.now.names.keys }
        ensures { result + 1 ≡ length self.now.names.keys }
    {
        (self.names.len() - 1) as u32
    }

    /// Lines that refute the clauses over dense variables, as a proof that refutes those over the variables themselves.
    pub fn proof(&self, alloc: Global, lines: &[Line]) -> Result<Proof, Memory>
        requires naming { IsNaming self.now.names.keys }
        requires refutes { (most : ℕ) × (most + 1 ≡ length self.now.names.keys) × Refutes most self.now.clauses lines.now }
        ensures { IfOk result (λ p. (vars : ℕ) (clauses : List (List Literal)) → IsNumbering clauses self.now → HaveVarsUpTo vars clauses → IsRefutedBy vars clauses p) }
    {
        let proof = named_lines(alloc, &self.names, lines)?;
        // Shows that there are lines that say this.
        let _lines = proof.lines();
        Ok(proof)
    }
}

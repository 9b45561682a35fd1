//! Checks one proof.
ghost use Rattle.std.specs.Prelude.{◌≡◌, IfOk, MatchOption};
ghost use Rattle.cnf_core.specs.Literal.{HaveVarsUpTo};
ghost use Rattle.cnf_core.specs.Lrat.{start, Refutes};
ghost use Rattle.bit_system.specs.Accepted.{IsRefutedBy};
ghost use Rattle.ladder_check.specs.Faults.{FailsBy, FailsAs};

use crate::fault::QueryFault;
use bit_system::Proof;
use cnf_core::{Clauses, Line, Memory};
use lrat_check::{Checker, Room, count_lits};
use std::alloc::{AllocError, Global};

/// What is wrong with the lines as a proof that no values make all clauses true. The checker begins anew.
fn lines_fault(
    alloc: Global,
    checker: &mut Checker,
    clauses: &Clauses,
    lines: &[Line],
) -> Result<Option<QueryFault>, Memory>
    requires { HaveVarsUpTo checker.old.vars clauses.now }
    ensures fault { IfOk result (λ f. MatchOption f (Refutes checker.old.vars clauses.now lines.now) (FailsBy checker.old.vars (start clauses.now) lines.now)) }
    ensures vars { checker.new.vars ≡ checker.old.vars }
{
    let Some(lits) = count_lits(lines) else {
        return Err(AllocError);
    };
    let room = Room {
        lines: lines.len() as u64,
        lits,
    };
    checker.restart(alloc, clauses, room)?;
    for line in lines {
        if let Err(fault) = checker.line(line) {
            return Ok(Some(QueryFault::Line(fault)));
        }
    }
    if checker.closed() {
        return Ok(None);
    }
    Ok(Some(QueryFault::NoEnd))
}

/// What is wrong with a proof that no values make all clauses true. The checker begins anew.
pub fn proof_fault(
    alloc: Global,
    checker: &mut Checker,
    clauses: &Clauses,
    proof: &Proof,
) -> Result<Option<QueryFault>, Memory>
    requires { HaveVarsUpTo checker.old.vars clauses.now }
    ensures fault { IfOk result (λ f. MatchOption f (IsRefutedBy checker.old.vars clauses.now proof.now) (FailsAs checker.old.vars clauses.now proof.now)) }
    ensures vars { checker.new.vars ≡ checker.old.vars }
{
    let fault = lines_fault(alloc, checker, clauses, proof.lines())?;
    Ok(fault)
}

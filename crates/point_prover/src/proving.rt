//! Proofs, by the solver.
ghost use Rattle.std.specs.Prelude.{◌≡◌, IfOk, MatchOption};
ghost use Rattle.cnf_core.specs.Literal.{HaveNoSolution};
ghost use Rattle.generalise.specs.Effort.{Uses};
ghost use Rattle.point_prover.specs.Good.{IsProofUpTo};

use bit_system::{Memory, Proof};
use clause_names::number_clauses;
use cnf_core::Clauses;
use generalise::Units;
use ic3_frames::{Solved, fill, run};
use proof_lines::KeepSink;
use sat_core::Solver;
use std::alloc::{AllocError, Global};

/// Has a solver that keeps its lines refute the clauses. There is no proof only where the effort is used. The solver
/// sees dense variables: its places are those of the clauses' variables, however many others there are.
pub fn refute(alloc: Global, clauses: &Clauses, units: &mut Units) -> Result<Option<Proof>, Memory>
    requires { HaveNoSolution clauses.now }
    ensures proof { IfOk result (λ p. MatchOption p (units.new.used ≡ units.new.effort) (IsProofUpTo clauses.now)) }
    ensures uses { Uses units.old units.new }
{
    if units.used == units.effort {
        return Ok(None);
    }
    let numbered = number_clauses(alloc, clauses)?;
    let mut solver = Solver::make(alloc, KeepSink::make(alloc), numbered.vars())?;
    fill(&mut solver, &numbered.clauses)?;
    let Ok(solved) = run(&mut solver, units) else {
        return Err(AllocError);
    };
    match solved {
        Solved::Refuted => {
            let sink = solver.close();
            let proof = numbered.proof(alloc, sink.lines())?;
            Ok(Some(proof))
        }
        Solved::Values(_) => unreachable!(),
        Solved::Spent => Ok(None),
    }
}

//! The solver, asked for as long as there is effort.
ghost use Rattle.std.specs.Prelude.{◌≡◌, ◌<◌, [], IfOk, OnOk};
ghost use Rattle.cnf_core.specs.Literal.{HaveVarsUpTo};
ghost use Rattle.sat_core.specs.Solvers.{vars_of, added_to, sink_of};
ghost use Rattle.generalise.specs.Effort.{Uses};
ghost use Rattle.ic3_frames.specs.Solving.{IsSolved, Shows};

use cnf_core::{Clauses, Memory};
use generalise::Units;
use proof_lines::{NoSink, ProofSink};
use sat_core::{Answer, SolveError, Solver};
use sqlite_items::Items;
use std::alloc::{AllocError, Global};

/// What the solver answers of clauses.
#[derive(Drop)]
pub enum Solved {
    /// No values solve them.
    Refuted,
    /// These values do, that of variable 1 first.
    Values(Items<bool>),
    /// The effort is used.
    Spent,
}

/// Gives a new solver the clauses.
pub fn fill<P: ProofSink + Drop>(solver: &mut Solver<P>, clauses: &Clauses) -> Result<(), Memory>
    requires empty { added_to solver.old ≡ [] }
    requires vars { HaveVarsUpTo (vars_of solver.old) clauses.now }
    ensures added { OnOk result (added_to solver.new ≡ clauses.now) }
    ensures vars { vars_of solver.new ≡ vars_of solver.old }
    ensures sink { sink_of solver.new ≡ sink_of solver.old }
{
    for at in 0..clauses.len() {
        solver.add(clauses.get(at))?;
    }
    Ok(())
}

/// Asks the solver. Each counted conflict is a unit, and so is the end of the query. The conflicts that are left
/// are those of the effort: where they are reached the query hasn't ended, and all units are used.
pub fn run<P: ProofSink + Drop>(
    solver: &mut Solver<P>,
    units: &mut Units,
) -> Result<Solved, SolveError>
    requires { units.old.used < units.old.effort }
    ensures solved { IfOk result (IsSolved (vars_of solver.old) (added_to solver.old) units.old units.new) }
    ensures shows { IfOk result (Shows (vars_of solver.old) (added_to solver.old) (P.state (sink_of solver.old)).told (P.state (sink_of solver.new)).told) }
    ensures uses { Uses units.old units.new }
{
    let left = units.effort - units.used;
    match solver.solve(&[], left)? {
        Answer::Model { conflicts, values } => {
            units.used += conflicts + 1;
            Ok(Solved::Values(values))
        }
        Answer::Refuted { conflicts, core: _ } => {
            units.used += conflicts + 1;
            Ok(Solved::Refuted)
        }
        Answer::Spent { conflicts } => {
            units.used += conflicts;
            Ok(Solved::Spent)
        }
    }
}

/// Asks a solver of its own, which tells no lines.
pub fn solve(
    alloc: Global,
    clauses: &Clauses,
    vars: u32,
    units: &mut Units,
) -> Result<Solved, Memory>
    requires { HaveVarsUpTo vars clauses.now }
    ensures solved { IfOk result (IsSolved vars clauses.now units.old units.new) }
    ensures uses { Uses units.old units.new }
{
    if units.used == units.effort {
        return Ok(Solved::Spent);
    }
    let mut solver = Solver::make(alloc, NoSink, vars)?;
    fill(&mut solver, clauses)?;
    match run(&mut solver, units) {
        Ok(solved) => Ok(solved),
        Err(_) => Err(AllocError),
    }
}

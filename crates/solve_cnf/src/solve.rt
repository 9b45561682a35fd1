//! One formula, solved.
ghost use Rattle.std.specs.Prelude.{◌≡◌, ◌<◌, IsTrue};
ghost use Rattle.cnf_core.specs.Literal.{HaveVarsUpTo};
ghost use Rattle.cnf_core.specs.Lrat.{HasGoodVars};
ghost use Rattle.sat_core.specs.Solvers.{vars_of};

use crate::formula::Formula;
use cnf_core::{Clauses, Lit};
use proof_lines::{KeepSink, ProofSink, TextSink, write_lrat};
use sat_core::{Answer, SolveError, Solver};
use std::alloc::Global;
use unr_io::{Fail, MemSink};

/// Whether the variables are distinct and at most `vars`. It takes time in the square of the number of literals.
fn are_good(lits: &[Lit], vars: u32) -> bool
    ensures { IsTrue result → HasGoodVars vars lits.now }
{
    for at in 0..lits.len() {
        if lits[at].variable() > vars {
            return false;
        }
        for before in 0..at {
            if lits[before].variable() == lits[at].variable() {
                return false;
            }
        }
    }
    true
}

fn add_all<P: ProofSink + Drop>(
    solver: &mut Solver<P>,
    clauses: &Clauses,
    vars: u32,
) -> Result<(), SolveError>
    requires vars { vars_of solver.old ≡ vars }
    requires clauses { HaveVarsUpTo vars clauses.now }
    ensures { vars_of solver.new ≡ vars }
{
    for at in 0..clauses.len() {
        solver.add(clauses.get(at))?;
    }
    Ok(())
}

/// The answer, and the sink with what it was told.
fn answer<P: ProofSink + Drop>(
    alloc: Global,
    sink: P,
    formula: &Formula,
) -> Result<(Answer, P), SolveError>
    requires clauses { HaveVarsUpTo formula.now.vars formula.now.clauses }
    requires assumptions { HasGoodVars formula.now.vars formula.now.assumptions.items }
    requires limit { 0 < formula.now.limit }
{
    let mut solver = Solver::make(alloc, sink, formula.vars)?;
    add_all(&mut solver, &formula.clauses, formula.vars)?;
    let answer = solver.solve(&formula.assumptions, formula.limit)?;
    Ok((answer, solver.close()))
}

/// What is printed of a refutation.
fn refuted(
    alloc: Global,
    formula: &Formula,
    conflicts: u64,
    core: &[Lit],
    sink: &KeepSink,
    figures: bool,
) -> anyhow::Result<String>
    requires { HaveVarsUpTo formula.now.vars formula.now.clauses }
{
    let mut text = String::from_str(alloc, "unsatisfiable")?;
    if formula.assumptions.is_empty() {
        let accepted = lrat_check::refutes(alloc, &formula.clauses, sink.lines(), formula.vars)?;
        text.push_str(if accepted {
            ", proof accepted"
        } else {
            ", PROOF REFUSED"
        })?;
    } else {
        text.push_str(", core")?;
    }
    for literal in core {
        text.push_str(if literal.is_positive() { " " } else { " -" })?;
        text.push_str(format!(in alloc; "{}", literal.variable())?.as_str())?;
    }
    if figures {
        let bytes = write_lrat(alloc, sink.lines())?.len();
        let lines = sink.lines().len();
        text.push_str(format!(in alloc;
            ", {conflicts} conflicts, {lines} lines, {bytes} bytes"
        )?.as_str())?;
    }
    Ok(text)
}

/// What is printed of the formula.
fn outcome(alloc: Global, formula: &Formula, figures: bool) -> anyhow::Result<String> {
    if !formula.clauses.have_vars_up_to(formula.vars)
        || !are_good(&formula.assumptions, formula.vars)
        || formula.limit == 0
    {
        return Ok(String::from_str(alloc, "bad assumptions")?);
    }
    if formula.sink_fails {
        let mut fails = Vec::new(alloc);
        fails.push(Fail { call: 1, kept: 0 })?;
        let sink = TextSink::make(alloc, MemSink::make(alloc, fails));
        answer(alloc, sink, formula)?;
        return Ok(String::from_str(alloc, "no line was put")?);
    }
    let (found, sink) = answer(alloc, KeepSink::make(alloc), formula)?;
    match found {
        Answer::Model {
            conflicts,
            values: _,
        } => {
            if figures {
                return Ok(format!(in alloc; "satisfiable, {conflicts} conflicts")?);
            }
            Ok(String::from_str(alloc, "satisfiable")?)
        }
        Answer::Refuted { conflicts, core } => {
            refuted(alloc, formula, conflicts, core.as_slice(), &sink, figures)
        }
        Answer::Spent { conflicts } => Ok(format!(in alloc; "spent after {conflicts}")?),
    }
}

/// Solves the formula, and prints what was found.
pub fn solve(
    rt: &impl Print,
    alloc: Global,
    formula: &Formula,
    figures: bool,
) -> anyhow::Result<()> {
    let name = formula.name.as_str();
    match outcome(alloc, formula, figures) {
        Ok(text) => println!(rt; "{name}: {text}")?,
        Err(error) => println!(rt; "{name}: {error}")?,
    }
    Ok(())
}

//! Makes clauses and lines by rule, checks the lines, and prints what came of them: for the times of the
//! checker, which a script takes.
#![tactic(auto)]

mod task;

use cnf_core::{Clauses, Line, Lit};
use lrat_check::{Checker, Room};
use smallvec::SmallVec;
use std::alloc::Global;
use std::env;
use task::Task;

/// The variable 1, that each variable gives the next, and that the last one is false.
fn clauses_of(alloc: Global, task: &Task) -> anyhow::Result<Clauses> {
    let mut clauses = Clauses::new(alloc);
    clauses.push(&[Lit::make(1, true)])?;
    for k in 1..task.vars {
        clauses.push(&[Lit::make(k, false), Lit::make(k + 1, true)])?;
    }
    clauses.push(&[Lit::make(task.vars, false)])?;
    Ok(clauses)
}

fn take(checker: &mut Checker, line: &Line) -> anyhow::Result<()> {
    if !checker.has_room(line) {
        anyhow::bail!("no room");
    }
    if let Err(fault) = checker.line(line) {
        anyhow::bail!("{fault:?}");
    }
    Ok(())
}

/// The next variable from the one before, and from the last one the empty clause.
fn take_lines(alloc: Global, task: &Task, checker: &mut Checker) -> anyhow::Result<()> {
    let clauses = u64::from(task.vars) + 1;
    let mut unit = 1;
    for k in 1..task.lines + 1 {
        let id = clauses + u64::from(k) * u64::from(task.step);
        let mut lits = Vec::new(alloc);
        if k < task.vars {
            lits.push(Lit::make(k + 1, true))?;
        }
        let hints = SmallVec::from_slice(alloc, &[unit, u64::from(k) + 1])?;
        take(checker, &Line::Add { id, lits, hints })?;
        if task.deletes {
            let ids = SmallVec::from_slice(alloc, &[unit])?;
            take(checker, &Line::Delete { id, ids })?;
        }
        unit = id;
    }
    Ok(())
}

fn main(rt: HostRuntime) -> anyhow::Result<()> {
    let mut words = env::args(&rt)?;
    let _ = words.next();
    let (Some(rule), Some(vars), Some(lines)) = (words.next(), words.next(), words.next()) else {
        anyhow::bail!("a rule, the number of variables, that of lines");
    };
    let Some(task) = Task::read(rule.as_str(), vars.as_str(), lines.as_str()) else {
        anyhow::bail!(
            "chain, gaps or deletes; at least one variable; no more lines than variables"
        );
    };
    let clauses = clauses_of(rt.alloc(), &task)?;
    if !clauses.have_vars_up_to(task.vars) {
        anyhow::bail!("a variable out of range");
    }
    let room = Room {
        lines: u64::from(task.lines),
        lits: u64::from(task.lines),
    };
    let mut checker = Checker::make(rt.alloc(), &clauses, task.vars, room)?;
    take_lines(rt.alloc(), &task, &mut checker)?;
    println!(rt; "{} lines, closed {}", task.lines, checker.closed())?;
    Ok(())
}

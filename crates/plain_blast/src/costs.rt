// What a design costs.

ghost use Rattle.std.specs.Prelude.{◌≡◌, ◌+◌, ◌*◌, ◌++◌, IfOk};
ghost use Rattle.bit_exprs.specs.Cost.{capped, target_cost};
ghost use Rattle.bit_exprs.specs.Cost as exprs;
ghost use Rattle.plain_blast.specs.Assigned.{targets_of};
ghost use Rattle.plain_blast.specs.Cost.{fork_cost, stmt_cost, arm_bits, reset_cost, process_cost, cost_of};

use crate::assigned::{assigned_in, assigned_in_arms};
use crate::phases::reset_of;
use aig_core::Memory;
use bit_exprs::forms::{Expr, Target};
use design_core::flat::{Design, Process, Reset, Stmt};
use expr_cost::{target_cost, weigh};
use std::alloc::Global;

/// The sum, or the greatest number where that is less.
fn plus(a: u64, b: u64) -> u64
    ensures { result ≡ capped (a + b) }
{
    a.saturating_add(b)
}

/// Three times the number, or the greatest one where that is less.
fn thrice(a: u64) -> u64
    ensures { result ≡ capped (3 * a) }
{
    plus(a, plus(a, a))
}

/// What an assignment costs.
fn assign_cost(target: &Target, value: &Expr) -> u64
    ensures { result ≡ capped (exprs.cost_of value.now + target_cost target.now) }
{
    plus(weigh(value).cost, target_cost(target))
}

/// What a branch costs beside its arms.
fn fork_cost(alloc: Global, cond: &Expr, yes: &Stmt, no: &Stmt) -> Result<u64, Memory>
    ensures { IfOk result (λ r. r ≡ capped (fork_cost cond.now (targets_of yes.now ++ targets_of no.now))) }
{
    let assigned = assigned_in_arms(alloc, yes, no)?;
    let choice = plus(2, thrice(assigned.len() as u64));
    let test = weigh(cond);
    Ok(plus(plus(test.cost, test.width), choice))
}

fn stmt_cost(alloc: Global, body: &Stmt) -> Result<u64, Memory>
    ensures { IfOk result (λ r. r ≡ capped (stmt_cost body.now)) }
{
    match body {
        Stmt::Assign { target, value, .. } => Ok(assign_cost(target, value)),
        Stmt::Branch { cond, yes, no, .. } => {
            let fork = fork_cost(alloc, cond, yes.get(), no.get())?;
            let then_cost = stmt_cost(alloc, yes.get())?;
            let else_cost = stmt_cost(alloc, no.get())?;
            Ok(plus(fork, plus(then_cost, else_cost)))
        }
        Stmt::Block(all) => {
            let mut total = 0;
            for s in all.as_slice() {
                total = plus(total, stmt_cost(alloc, s)?);
            }
            Ok(total)
        }
    }
}

/// How many bits the first arm of a body assigns.
fn arm_bits(alloc: Global, body: &Stmt) -> Result<u64, Memory>
    ensures { IfOk result (λ r. r ≡ arm_bits body.now) }
{
    let Stmt::Branch { yes, .. } = body else {
        return Ok(0);
    };
    let assigned = assigned_in(alloc, yes.get())?;
    Ok(assigned.len() as u64)
}

/// What the bits that the first arm of a body assigns cost, where there is a reset.
fn reset_cost(alloc: Global, reset: Option<Reset>, body: &Stmt) -> Result<u64, Memory>
    ensures { IfOk result (λ r. r ≡ capped (reset_cost reset body.now)) }
{
    match reset {
        None => Ok(0),
        Some(_) => {
            let bits = arm_bits(alloc, body)?;
            Ok(thrice(bits))
        }
    }
}

fn process_cost(alloc: Global, process: &Process) -> Result<u64, Memory>
    ensures { IfOk result (λ r. r ≡ capped (process_cost process.now)) }
{
    let body = stmt_cost(alloc, &process.body)?;
    let reset = reset_cost(alloc, reset_of(process.kind), &process.body)?;
    Ok(plus(body, reset))
}

/// What a design costs, a measure of the size of its circuit; the greatest number where it costs more.
/// An assignment costs its value and its target, as `expr_cost` gives them; a branch costs its condition, the
/// width of that, 2, and 3 for each bit that is assigned inside; an input bit costs 3, and so does a bit that a
/// reset arm assigns.
///
/// It takes memory to tell the bits that a branch assigns apart; the error is want of it. Takes time about
/// linear in the design for each level of branches in it.
pub fn cost(alloc: Global, design: &Design) -> Result<u64, Memory>
    ensures { IfOk result (λ r. r ≡ capped (cost_of design.now)) }
{
    let mut total = thrice(design.inputs.len() as u64);
    for process in design.processes.as_slice() {
        total = plus(total, process_cost(alloc, process)?);
    }
    Ok(total)
}

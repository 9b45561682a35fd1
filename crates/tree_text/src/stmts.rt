// Targets and statements.

ghost use Rattle.std.specs.Prelude.{◌≡◌, ◌∷◌, ◌++◌, [], OnOk, map, codes, option_map};
ghost use Rattle.token_text.specs.Printing.{with_tokens};
ghost use Rattle.tree_text.specs.Words as spec;

use crate::exprs::{write_behind, write_expr, write_named};
use crate::separators::write_separator;
use sqlite_items::Boxed;
use std::alloc::AllocError;
use token_text::TokenText;
use vlog_syntax::{Expr, Stmt, Target};

/// Writes a target.
#[cycle(target)]
#[tactic(auto, using(crate::proofs::Writing::writing, crate::proofs::WordEquations::target_equations))]
fn write_target(out: &mut TokenText, target: &Target) -> Result<(), AllocError>
    ensures { OnOk result (out.new ≡ with_tokens out.old (spec.target_words target.now)) }
{
    match target {
        Target::Name { name, select } => write_named(out, name, select),
        Target::Concat { at: _, parts } => {
            out.push(b"{")?;
            write_targets(out, parts.as_slice())?;
            out.push(b"}")?;
            Ok(())
        }
    }
}

/// Writes the targets with commas between them.
#[cycle(target)]
fn write_targets(out: &mut TokenText, targets: &[Target]) -> Result<(), AllocError>
    ensures { OnOk result (out.new ≡ with_tokens out.old (spec.between (44 ∷ []) (map spec.target_words targets.now))) }
{
    let mut is_first = true;
    for t in targets {
        write_separator(out, is_first, b",")?;
        write_target(out, t)?;
        is_first = false;
    }
    Ok(())
}

/// Writes an assignment.
#[tactic(auto, using(crate::proofs::Writing::writing))]
fn write_assign(out: &mut TokenText, target: &Target, value: &Expr) -> Result<(), AllocError>
    ensures { OnOk result (out.new ≡ with_tokens out.old (spec.target_words target.now ++ codes "<=" ∷ (spec.expr_words value.now ++ codes ";" ∷ []))) }
{
    write_target(out, target)?;
    write_behind(out, b"<=", value)?;
    out.push(b";")?;
    Ok(())
}

/// Writes what an `if` tests.
#[tactic(auto, using(crate::proofs::Writing::writing))]
fn write_test(out: &mut TokenText, condition: &Expr) -> Result<(), AllocError>
    ensures { OnOk result (out.new ≡ with_tokens out.old (codes "if" ∷ spec.parenthesized (spec.expr_words condition.now))) }
{
    out.push(b"if")?;
    out.push(b"(")?;
    write_expr(out, condition)?;
    out.push(b")")?;
    Ok(())
}

/// Writes a statement.
#[cycle(stmt)]
#[tactic(auto, using(crate::proofs::Writing::writing, crate::proofs::WordEquations::stmt_equations))]
pub fn write_stmt(out: &mut TokenText, stmt: &Stmt) -> Result<(), AllocError>
    ensures { OnOk result (out.new ≡ with_tokens out.old (spec.stmt_words stmt.now)) }
{
    match stmt {
        Stmt::Nonblocking {
            at: _,
            target,
            value,
        } => write_assign(out, target, value),
        Stmt::If {
            at: _,
            condition,
            yes,
            no,
        } => {
            write_test(out, condition)?;
            write_stmt(out, yes.get())?;
            write_else(out, no)?;
            Ok(())
        }
        Stmt::Block { at: _, statements } => {
            out.push(b"begin")?;
            write_stmts(out, statements.as_slice())?;
            out.push(b"end")?;
            Ok(())
        }
    }
}

/// Writes the other branch of an `if`, where it has one.
#[cycle(stmt)]
#[tactic(auto, using(crate::proofs::Writing::writing))]
fn write_else(out: &mut TokenText, stmt: &Option<Boxed<Stmt>>) -> Result<(), AllocError>
    ensures { OnOk result (out.new ≡ with_tokens out.old (spec.behind_if_there (codes "else") (option_map spec.stmt_words stmt.now))) }
{
    match stmt {
        None => Ok(()),
        Some(stmt) => {
            out.push(b"else")?;
            write_stmt(out, stmt.get())?;
            Ok(())
        }
    }
}

/// Writes statements one behind the other.
#[cycle(stmt)]
fn write_stmts(out: &mut TokenText, stmts: &[Stmt]) -> Result<(), AllocError>
    ensures { OnOk result (out.new ≡ with_tokens out.old (spec.in_a_row (map spec.stmt_words stmts.now))) }
{
    for s in stmts {
        write_stmt(out, s)?;
    }
    Ok(())
}

ghost use Rattle.parsing.specs.Reading.{Reads};
ghost use Rattle.vlog_rules.specs.Grammar.{IsExpr, whole};
ghost use Rattle.vlog_expr.specs.Reading.{all_read};
ghost use Rattle.vlog_expr.specs.Answers.{Answers};

use crate::cursor::Cursor;
use crate::error::ParseError;
use crate::expressions::{MAX_LEVELS, expr};
use crate::refusal::error_of;
use parsing::Fault;
use std::alloc::Global;
use vlog_rules::Level;
use vlog_syntax::Expr;
use vlog_tokens::Token;
use word_core::Place;

#[tactic(auto, unfolding(crate::specs::Reading::all_read))]
fn all_of(alloc: Global, cursor: &mut Cursor<'_, '_>) -> Result<Expr, Fault>
    ensures { Reads (all_read whole cursor.old) result cursor.new }
{
    let found = expr(alloc, cursor, MAX_LEVELS, Level::Whole)?;
    if cursor.left() != 0 {
        return Err(cursor.refuse(b"operator"));
    }
    Ok(found.tree)
}

/// The expression that the tokens spell, and otherwise the first token with which none goes on. The place `end`
/// is the one behind the tokens. The time is linear in the number and the length of the tokens.
pub fn expression(alloc: Global, tokens: &[Token<'_>], end: Place) -> Result<Expr, ParseError>
    ensures { Answers IsExpr tokens.now end result }
{
    let mut cursor = Cursor::new(tokens);
    match all_of(alloc, &mut cursor) {
        Ok(found) => Ok(found),
        Err(fault) => Err(error_of(alloc, tokens, end, fault, cursor.wanted())),
    }
}

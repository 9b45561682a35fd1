ghost use Rattle.parsing.specs.Reading.{Reads};
ghost use Rattle.vlog_rules.specs.Grammar as grammar;
ghost use Rattle.vlog_expr.specs.Reading.{read_by};

use crate::cursor::Cursor;
use parsing::Fault;
use std::alloc::Global;
use vlog_syntax::{Expr, Ident, Number};
use vlog_tokens::Word;
use word_core::Name;

/// Reads an identifier.
#[tactic(auto, unfolding(vlog_rules::specs::Grammar::ident))]
pub fn ident(alloc: Global, cursor: &mut Cursor<'_, '_>) -> Result<Ident, Fault>
    ensures { Reads (read_by grammar.ident cursor.old) result cursor.new }
{
    let at = cursor.place();
    let name = Name::make(alloc, cursor.text())?;
    cursor.expect(Word::Name, b"name")?;
    Ok(Ident { at, name })
}

/// Reads a number.
#[tactic(auto, unfolding(vlog_rules::specs::Grammar::number))]
pub fn number(alloc: Global, cursor: &mut Cursor<'_, '_>) -> Result<Expr, Fault>
    ensures { Reads (read_by grammar.number cursor.old) result cursor.new }
{
    let at = cursor.place();
    let text = Name::make(alloc, cursor.text())?;
    cursor.expect(Word::Number, b"number")?;
    Ok(Expr::Number(Number { at, text }))
}

ghost use Rattle.parsing.specs.Reading.{Reads};
ghost use Rattle.vlog_rules.specs.Grammar as grammar;
ghost use Rattle.vlog_expr.specs.Reading.{read_by};

use crate::ports::ports;
use crate::stmts::stmt;
use parsing::Fault;
use sqlite_items::Items;
use std::alloc::Global;
use vlog_expr::{Cursor, MAX_LEVELS, ident};
use vlog_syntax::{Always, Edge, Event, Item, Module, Tree};
use vlog_tokens::Word;

// The functions below read what their forms of the grammar say.

#[tactic(auto, unfolding(vlog_rules::specs::Grammar::event))]
fn event(alloc: Global, cursor: &mut Cursor<'_, '_>) -> Result<Event, Fault>
    ensures { Reads (read_by grammar.event cursor.old) result cursor.new }
{
    let at = cursor.place();
    cursor.expect(Word::Posedge, b"posedge")?;
    let name = ident(alloc, cursor)?;
    Ok(Event {
        at,
        edge: Some(Edge::Posedge),
        name,
    })
}

#[tactic(auto, unfolding(vlog_rules::specs::Grammar::events))]
fn events(alloc: Global, cursor: &mut Cursor<'_, '_>) -> Result<Items<Event>, Fault>
    ensures { Reads (read_by grammar.events cursor.old) result cursor.new }
{
    cursor.expect(Word::At, b"@")?;
    cursor.expect(Word::OpenParen, b"(")?;
    let event = event(alloc, cursor)?;
    cursor.expect(Word::CloseParen, b")")?;
    let mut found = Items::new(alloc);
    found.push(event)?;
    Ok(found)
}

#[tactic(auto, unfolding(vlog_rules::specs::Grammar::always))]
fn always(alloc: Global, cursor: &mut Cursor<'_, '_>) -> Result<Item, Fault>
    ensures { Reads (read_by grammar.always cursor.old) result cursor.new }
{
    let at = cursor.place();
    cursor.expect(Word::Always, b"always")?;
    let events = events(alloc, cursor)?;
    let body = stmt(alloc, cursor, MAX_LEVELS)?;
    Ok(Item::Always(Always {
        at,
        events,
        body: body.tree,
    }))
}

/// The items of a module.
#[tactic(auto, unfolding(parsing::specs::Reading::scans, vlog_rules::specs::Grammar::items, vlog_rules::specs::Grammar::always))]
fn items(alloc: Global, cursor: &mut Cursor<'_, '_>) -> Result<Items<Item>, Fault>
    ensures { Reads (read_by grammar.items cursor.old) result cursor.new }
{
    let mut found = Items::new(alloc);
    for _turn in 0..cursor.left() {
        if !cursor.stands(Word::Always) {
            return Ok(found);
        }
        let next = always(alloc, cursor)?;
        found.push(next)?;
    }
    Ok(found)
}

#[tactic(auto, unfolding(vlog_rules::specs::Grammar::module_form))]
fn module(alloc: Global, cursor: &mut Cursor<'_, '_>) -> Result<Module, Fault>
    ensures { Reads (read_by grammar.module_form cursor.old) result cursor.new }
{
    let at = cursor.place();
    cursor.expect(Word::Module, b"module")?;
    let name = ident(alloc, cursor)?;
    let ports = ports(alloc, cursor)?;
    cursor.expect(Word::Semicolon, b";")?;
    let items = items(alloc, cursor)?;
    cursor.expect(Word::Endmodule, b"always")?;
    Ok(Module {
        at,
        name,
        ports,
        items,
    })
}

/// The tree that the tokens begin with.
#[tactic(auto, unfolding(vlog_rules::specs::Grammar::source))]
pub fn source(alloc: Global, cursor: &mut Cursor<'_, '_>) -> Result<Tree, Fault>
    ensures { Reads (read_by grammar.source cursor.old) result cursor.new }
{
    let module = module(alloc, cursor)?;
    let mut modules = Items::new(alloc);
    modules.push(module)?;
    Ok(Tree { modules })
}

// Modules and what stands in them.

ghost use Rattle.std.specs.Prelude.{◌≡◌, ◌∷◌, ◌++◌, [], OnOk, map, codes, option_map};
ghost use Rattle.token_text.specs.Printing.{with_tokens};
ghost use Rattle.tree_text.specs.Words as spec;

use crate::exprs::{write_behind, write_expr};
use crate::separators::write_separator;
use crate::stmts::write_stmt;
use std::alloc::AllocError;
use token_text::TokenText;
use vlog_syntax::{Always, Direction, Edge, Event, Expr, Item, Module, NetKind, Port, Range};

/// The keyword of a direction.
fn direction_text(direction: Direction) -> &'static [u8]
    ensures { result.now ≡ spec.direction_text direction }
{
    match direction {
        Direction::Input => b"input",
        Direction::Output => b"output",
    }
}

/// The keyword of a kind of net.
fn kind_text(kind: NetKind) -> &'static [u8]
    ensures { result.now ≡ spec.kind_text kind }
{
    match kind {
        NetKind::Wire => b"wire",
        NetKind::Reg => b"reg",
    }
}

/// The keyword of an edge.
fn edge_text(edge: Edge) -> &'static [u8]
    ensures { result.now ≡ spec.edge_text edge }
{
    match edge {
        Edge::Posedge => b"posedge",
    }
}

// ---- ports

/// Writes the kind of a port, where it is written.
#[tactic(auto, using(crate::proofs::Writing::writing))]
fn write_kind(out: &mut TokenText, kind: Option<NetKind>) -> Result<(), AllocError>
    ensures { OnOk result (out.new ≡ with_tokens out.old (spec.if_there (option_map (λ k. spec.kind_text k ∷ []) kind))) }
{
    match kind {
        None => Ok(()),
        Some(kind) => {
            out.push(kind_text(kind))?;
            Ok(())
        }
    }
}

/// Writes the range of a port, where it has one.
#[tactic(auto, using(crate::proofs::Writing::writing))]
fn write_range(out: &mut TokenText, range: &Option<Range>) -> Result<(), AllocError>
    ensures { OnOk result (out.new ≡ with_tokens out.old (spec.if_there (option_map spec.range_words range.now))) }
{
    match range {
        None => Ok(()),
        Some(range) => {
            out.push(b"[")?;
            write_expr(out, &range.left)?;
            write_behind(out, b":", &range.right)?;
            out.push(b"]")?;
            Ok(())
        }
    }
}

/// Writes the value that a port starts with, where it has one.
#[tactic(auto, using(crate::proofs::Writing::writing))]
fn write_value(out: &mut TokenText, value: &Option<Expr>) -> Result<(), AllocError>
    ensures { OnOk result (out.new ≡ with_tokens out.old (spec.behind_if_there (codes "=") (option_map spec.expr_words value.now))) }
{
    match value {
        None => Ok(()),
        Some(value) => write_behind(out, b"=", value),
    }
}

/// Writes a port.
#[tactic(auto, using(crate::proofs::Writing::writing))]
fn write_port(out: &mut TokenText, port: &Port) -> Result<(), AllocError>
    ensures { OnOk result (out.new ≡ with_tokens out.old (spec.port_words port.now)) }
{
    out.push(direction_text(port.direction))?;
    write_kind(out, port.kind)?;
    write_range(out, &port.range)?;
    out.push(port.name.name.bytes())?;
    write_value(out, &port.value)?;
    Ok(())
}

/// Writes the ports with commas between them.
fn write_ports(out: &mut TokenText, ports: &[Port]) -> Result<(), AllocError>
    ensures { OnOk result (out.new ≡ with_tokens out.old (spec.between (44 ∷ []) (map spec.port_words ports.now))) }
{
    let mut is_first = true;
    for p in ports {
        write_separator(out, is_first, b",")?;
        write_port(out, p)?;
        is_first = false;
    }
    Ok(())
}

/// Writes the list of ports.
#[tactic(auto, using(crate::proofs::Writing::writing))]
fn write_port_list(out: &mut TokenText, ports: &[Port]) -> Result<(), AllocError>
    ensures { OnOk result (out.new ≡ with_tokens out.old (spec.parenthesized (spec.between (44 ∷ []) (map spec.port_words ports.now)))) }
{
    out.push(b"(")?;
    write_ports(out, ports)?;
    out.push(b")")?;
    Ok(())
}

// ---- processes

/// Writes the edge of an event, where it has one.
#[tactic(auto, using(crate::proofs::Writing::writing))]
fn write_edge(out: &mut TokenText, edge: Option<Edge>) -> Result<(), AllocError>
    ensures { OnOk result (out.new ≡ with_tokens out.old (spec.if_there (option_map (λ k. spec.edge_text k ∷ []) edge))) }
{
    match edge {
        None => Ok(()),
        Some(edge) => {
            out.push(edge_text(edge))?;
            Ok(())
        }
    }
}

/// Writes an event.
#[tactic(auto, using(crate::proofs::Writing::writing))]
fn write_event(out: &mut TokenText, event: &Event) -> Result<(), AllocError>
    ensures { OnOk result (out.new ≡ with_tokens out.old (spec.event_words event.now)) }
{
    write_edge(out, event.edge)?;
    out.push(event.name.name.bytes())?;
    Ok(())
}

/// Writes the events with `or` between them.
fn write_events(out: &mut TokenText, events: &[Event]) -> Result<(), AllocError>
    ensures { OnOk result (out.new ≡ with_tokens out.old (spec.between (codes "or") (map spec.event_words events.now))) }
{
    let mut is_first = true;
    for e in events {
        write_separator(out, is_first, b"or")?;
        write_event(out, e)?;
        is_first = false;
    }
    Ok(())
}

/// Writes the list of events.
#[tactic(auto, using(crate::proofs::Writing::writing))]
fn write_event_list(out: &mut TokenText, events: &[Event]) -> Result<(), AllocError>
    ensures { OnOk result (out.new ≡ with_tokens out.old (spec.parenthesized (spec.between (codes "or") (map spec.event_words events.now)))) }
{
    out.push(b"(")?;
    write_events(out, events)?;
    out.push(b")")?;
    Ok(())
}

/// Writes a process.
#[tactic(auto, using(crate::proofs::Writing::writing))]
fn write_always(out: &mut TokenText, always: &Always) -> Result<(), AllocError>
    ensures { OnOk result (out.new ≡ with_tokens out.old (spec.always_words always.now)) }
{
    out.push(b"always")?;
    out.push(b"@")?;
    write_event_list(out, always.events.as_slice())?;
    write_stmt(out, &always.body)?;
    Ok(())
}

// ---- modules

/// Writes an item.
fn write_item(out: &mut TokenText, item: &Item) -> Result<(), AllocError>
    ensures { OnOk result (out.new ≡ with_tokens out.old (spec.item_words item.now)) }
{
    match item {
        Item::Always(always) => write_always(out, always),
    }
}

/// Writes items one behind the other.
fn write_items(out: &mut TokenText, items: &[Item]) -> Result<(), AllocError>
    ensures { OnOk result (out.new ≡ with_tokens out.old (spec.in_a_row (map spec.item_words items.now))) }
{
    for i in items {
        write_item(out, i)?;
    }
    Ok(())
}

/// Writes what stands behind a module's ports.
#[tactic(auto, using(crate::proofs::Writing::writing))]
fn write_body(out: &mut TokenText, items: &[Item]) -> Result<(), AllocError>
    ensures { OnOk result (out.new ≡ with_tokens out.old (codes ";" ∷ (spec.in_a_row (map spec.item_words items.now) ++ codes "endmodule" ∷ []))) }
{
    out.push(b";")?;
    write_items(out, items)?;
    out.push(b"endmodule")?;
    Ok(())
}

/// Writes a module.
#[tactic(auto, using(crate::proofs::Writing::writing))]
fn write_module(out: &mut TokenText, unit: &Module) -> Result<(), AllocError>
    ensures { OnOk result (out.new ≡ with_tokens out.old (spec.module_words unit.now)) }
{
    out.push(b"module")?;
    out.push(unit.name.name.bytes())?;
    write_port_list(out, unit.ports.as_slice())?;
    write_body(out, unit.items.as_slice())?;
    Ok(())
}

/// Writes modules one behind the other.
pub fn write_modules(out: &mut TokenText, modules: &[Module]) -> Result<(), AllocError>
    ensures { OnOk result (out.new ≡ with_tokens out.old (spec.in_a_row (map spec.module_words modules.now))) }
{
    for m in modules {
        write_module(out, m)?;
    }
    Ok(())
}

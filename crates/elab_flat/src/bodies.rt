// Statements and items over bits.

ghost use Rattle.std.specs.Prelude.{◌≡◌, ◌≤◌, ◌<◌, ◌+◌, ◌↔◌, All, IsTrue, IfOk, OnOk, MatchOption, option_map, true, Some, [], ◌∷◌};
ghost use Rattle.vlog_syntax.specs.declared.module.Edge.TheVariants.{Posedge};
ghost use Rattle.elab_flat.specs.Bodies.{assignments_in, body_of, sum_over, assignment_of, or_nothing, stmt_of, IsClockedBy, process_of, processes_from};

use bit_exprs::forms::{Bit, Expr, Target};
use design_core::flat::{Edge, Event, ProcKind, Process, Stmt};
use expr_elab::{Scope, assigned, elaborate, target};
use expr_value::target_places;
use sqlite_items::{Boxed, Items};
use std::alloc::{AllocError, Global};
use vlog_syntax as syntax;
use vlog_syntax::Item;
use word_core::Name;

/// The greatest number of statements.
const STATEMENT_LIMIT: u32 = 65_536;

/// The body of an item.
pub fn body(item: &Item) -> &syntax::Stmt
    ensures { result.now ≡ body_of item.now }
{
    match item {
        Item::Always(a) => &a.body,
    }
}

/// The room that is left where a statement's assignments are taken from it, or none where it has more.
fn room_after(stmt: &syntax::Stmt, room: u32) -> Option<u32>
    ensures { MatchOption result (room < assignments_in stmt.now) (λ left. left + assignments_in stmt.now ≡ room) }
{
    match stmt {
        syntax::Stmt::Nonblocking { .. } => room.checked_sub(1),
        syntax::Stmt::If {
            at: _,
            condition: _,
            yes,
            no,
        } => {
            let left = room_after(yes.get(), room)?;
            match no {
                None => Some(left),
                Some(no) => room_after(no.get(), left),
            }
        }
        syntax::Stmt::Block { at: _, statements } => {
            let mut left = room;
            for s in statements.as_slice() {
                let next = room_after(s, left)?;
                left = next;
            }
            Some(left)
        }
    }
}

/// How many assignments the items have, or none where they have more than the limit.
pub fn statement_count(items: &[Item]) -> Option<u32>
    ensures { MatchOption result (65536 < sum_over assignments_in items.now) (λ n. (n ≡ sum_over assignments_in items.now) × (n ≤ 65536)) }
{
    let mut room = STATEMENT_LIMIT;
    for item in items {
        let left = room_after(body(item), room)?;
        room = left;
    }
    Some(STATEMENT_LIMIT - room)
}

/// Whether an event is `posedge CLOCK`.
fn is_clock_edge(clock: &Name, event: &syntax::Event) -> bool
    ensures { IsTrue result ↔ ((event.now.edge ≡ Some Posedge) × (event.now.name.name ≡ clock.now)) }
{
    match event.edge {
        None => false,
        Some(syntax::Edge::Posedge) => event.name.name == *clock,
    }
}

/// Whether an item is an `always @(posedge CLOCK)`.
fn is_clocked_by(clock: &Name, item: &Item) -> bool
    ensures { IsTrue result ↔ IsClockedBy clock.now item.now }
{
    match item {
        Item::Always(a) => {
            let events = a.events.as_slice();
            if events.len() != 1 {
                return false;
            }
            is_clock_edge(clock, &events[0])
        }
    }
}

/// Whether all items are.
pub fn are_clocked_by(clock: &Name, items: &[Item]) -> bool
    ensures { IsTrue result ↔ All (IsClockedBy clock.now) items.now }
{
    for item in items {
        if !is_clocked_by(clock, item) {
            return false;
        }
    }
    true
}

/// The sites of the next assignment and of the next arm.
#[derive(Clone, Copy, Debug)]
pub struct Numbers {
    pub site: u32,
    pub arm: u32,
}

/// The next number, with so many taken. The error is that there would be 2^32 or more.
fn take(next: &mut u32, count: u32) -> Result<u32, AllocError>
    ensures taken { OnOk result (next.new ≡ next.old + count) }
    ensures number { IfOk result (λ number. number ≡ next.old) }
{
    let number = *next;
    let Some(after) = number.checked_add(count) else {
        return Err(AllocError);
    };
    *next = after;
    Ok(number)
}

/// A statement that does nothing, for an arm that isn't written.
fn nothing(alloc: Global) -> Stmt
    ensures { result ≡ Stmt.Block [] }
{
    Stmt::Block(Items::new(alloc))
}

/// A branch whose arms have the site and the next one.
fn branch(
    alloc: Global,
    site: u32,
    cond: Expr,
    first: Stmt,
    second: Stmt,
) -> Result<Stmt, AllocError>
    ensures { IfOk result (λ s. s ≡ Stmt.Branch site cond first second) }
{
    let yes = Boxed::new(alloc, first)?;
    let no = Boxed::new(alloc, second)?;
    Ok(Stmt::Branch {
        site,
        cond,
        yes,
        no,
    })
}

/// An assignment with this site. None where it isn't built.
fn assignment(
    alloc: Global,
    scope: &Scope,
    site: u32,
    source: &syntax::Target,
    value: &syntax::Expr,
) -> Result<Option<Stmt>, AllocError>
    ensures { IfOk result (λ s. s ≡ option_map (λ parts. Stmt.Assign (Some site) true parts.0 parts.1) (assignment_of scope.now source.now value.now)) }
{
    let Some(target) = target(alloc, scope, source)? else {
        return Ok(None);
    };
    let Some(value) = assigned(alloc, scope, target_places(&target), value)? else {
        return Ok(None);
    };
    Ok(Some(Stmt::Assign {
        site: Some(site),
        delayed: true,
        target,
        value,
    }))
}

/// The arm of a branch that is taken where the condition is 0. None where it isn't built.
#[cycle(stmt)]
fn other_arm(
    alloc: Global,
    scope: &Scope,
    source: &Option<Boxed<syntax::Stmt>>,
    numbers: &mut Numbers,
) -> Result<Option<Stmt>, AllocError>
    ensures { IfOk result (λ s. option_map (λ s. (s, numbers.new)) s ≡ or_nothing (option_map (stmt_of scope.now) source.now) numbers.old) }
{
    match source {
        None => Ok(Some(nothing(alloc))),
        Some(no) => stmt(alloc, scope, no.get(), numbers),
    }
}

/// A statement over bits, whose assignments and arms take the next sites. An arm takes its site before those in it.
/// None where it isn't built.
#[cycle(stmt)]
pub fn stmt(
    alloc: Global,
    scope: &Scope,
    source: &syntax::Stmt,
    numbers: &mut Numbers,
) -> Result<Option<Stmt>, AllocError>
    ensures { IfOk result (λ s. option_map (λ s. (s, numbers.new)) s ≡ stmt_of scope.now source.now numbers.old) }
{
    match source {
        syntax::Stmt::Nonblocking {
            at: _,
            target,
            value,
        } => {
            let site = take(&mut numbers.site, 1)?;
            assignment(alloc, scope, site, target, value)
        }
        syntax::Stmt::If {
            at: _,
            condition,
            yes,
            no,
        } => {
            let site = take(&mut numbers.arm, 2)?;
            let Some(cond) = elaborate(alloc, scope, condition)? else {
                return Ok(None);
            };
            let Some(first) = stmt(alloc, scope, yes.get(), numbers)? else {
                return Ok(None);
            };
            let Some(second) = other_arm(alloc, scope, no, numbers)? else {
                return Ok(None);
            };
            Ok(Some(branch(alloc, site, cond.expr, first, second)?))
        }
        syntax::Stmt::Block { at: _, statements } => {
            let mut all = Items::new(alloc);
            for s in statements.as_slice() {
                let Some(made) = stmt(alloc, scope, s, numbers)? else {
                    return Ok(None);
                };
                all.push(made)?;
            }
            Ok(Some(Stmt::Block(all)))
        }
    }
}

/// The rising edge of the clock.
fn clock_edge(alloc: Global, clock: Bit) -> Result<Items<Event>, AllocError>
    ensures { IfOk result (λ events. events ≡ record { bits = clock ∷ []; edge = Edge.Rise } ∷ []) }
{
    let mut bits = Items::new(alloc);
    bits.push(clock)?;
    let mut events = Items::new(alloc);
    events.push(Event {
        bits,
        edge: Edge::Rise,
    })?;
    Ok(events)
}

/// An item as a process with this body.
fn process(alloc: Global, clock: Bit, item: &Item, body: Stmt) -> Result<Process, AllocError>
    ensures { IfOk result (λ p. p ≡ process_of clock item.now body) }
{
    match item {
        Item::Always(a) => Ok(Process {
            at: a.at,
            kind: ProcKind::Clocked { reset: None },
            events: Some(clock_edge(alloc, clock)?),
            body,
        }),
    }
}

/// The items as processes, whose assignments and arms take the next sites. None where a body isn't built.
pub fn processes(
    alloc: Global,
    scope: &Scope,
    clock: Bit,
    items: &[Item],
    numbers: &mut Numbers,
) -> Result<Option<Items<Process>>, AllocError>
    ensures { IfOk result (λ ps. option_map (λ ps. (ps, numbers.new)) ps ≡ processes_from scope.now clock items.now numbers.old) }
{
    let mut processes = Items::new(alloc);
    for item in items {
        let Some(made) = stmt(alloc, scope, body(item), numbers)? else {
            return Ok(None);
        };
        processes.push(process(alloc, clock, item, made)?)?;
    }
    Ok(Some(processes))
}

//! The checker.
ghost use Rattle.std.specs.Prelude.{◌≡◌, ℕ, ◌+◌, ◌<◌, ◌≤◌, ◌↔◌, length, IsOk, IfOk, IfErr, OnOk, OnErr, Ok};
ghost use Rattle.cnf_core.specs.Literal.{Literal, HaveVarsUpTo, HaveNoSolution};
ghost use Rattle.cnf_core.specs.Lrat.{start, numbered, Rup, Passes, added, Refutes, Follows};
ghost use Rattle.std.specs.Prelude.{◌^◌, List, IsSome, IfSome, IsTrue, sum_by};
ghost use Rattle.lrat_check.specs.Checking.{HasRoom, TakesRoom, lits_in};
ghost use Rattle.lrat_check.specs.Faults.{IsFault, IsAddFault, IsAccepted};

use crate::assignment::Assignment;
use crate::hints::{assume, read_hints};
use crate::store::Store;
use cnf_core::{Clauses, Ending, Line, Lit, Memory};
use std::alloc::{AllocError, Global};
use std::marker::Model;

/// How many added lines, and how many literals in all of them, a checker takes. Deletions take none.
#[derive(Clone, Copy)]
pub struct Room {
    pub lines: u64,
    pub lits: u64,
}

/// Why a line isn't accepted: the first of these that applies, hint by hint for the hints.
#[derive(Clone, Copy, Debug, PartialEq, Eq)]
pub enum LineFault {
    /// The line's number isn't above those of the clauses and of all additions before it.
    OldId { id: u64 },
    /// A variable of the line with this number is out of range, or stands in it twice.
    BadVar { id: u64 },
    /// No live clause has this number, which is a hint's or one that a deletion names.
    NoHint { id: u64 },
    /// Two literals or more of the clause with this number aren't false.
    NotUnit { id: u64 },
    /// The hints of the line with this number end, and no clause was falsified.
    NotClosed { id: u64 },
}

/// Checks the lines of a proof, one after another.
///
/// A line costs the lengths of the clauses that it names, and its own. A clause is found at once where
/// numbers have no gaps, else by halving. What was deleted keeps its place.
#[derive(Drop)]
pub struct Checker {
    store: Store,
    assigned: Assignment,
    closed: bool,
}

impl Model for Checker {
    ghost use Rattle.std.specs.Prelude.{◌≡◌, []};
    ghost use Rattle.lrat_check.specs.Checking.{Checking};

    ghost Value = { Checking };

    ghost view = { λ c. record { vars = c.store.vars; state = record { live = c.store.live; last = c.store.last; closed = c.closed }; lines_left = c.store.lines_left; lits_left = c.store.lits_left } };

    ghost invariant = { λ c. (c.assigned.vars ≡ c.store.vars) × (c.assigned.falses ≡ []) };
}

/// A store of these clauses, with room for more.
fn filled(alloc: Global, clauses: &Clauses, vars: u32, room: Room) -> Result<Store, Memory>
    requires { HaveVarsUpTo vars clauses.now }
    ensures vars { IfOk result (λ s. s.vars ≡ vars) }
    ensures live { IfOk result (λ s. s.live ≡ numbered 1 clauses.now) }
    ensures last { IfOk result (λ s. s.last ≡ length clauses.now) }
    ensures lines { IfOk result (λ s. room.lines ≤ s.lines_left) }
    ensures lits { IfOk result (λ s. room.lits ≤ s.lits_left) }
{
    let mut store = Store::new(alloc, vars);
    for at in 0..clauses.len() {
        let clause = clauses.get(at);
        store.reserve(1, clause.len())?;
        store.push_reserved(at as u64 + 1, clause);
    }
    store.reserve(room.lines as usize, room.lits as usize)?;
    Ok(store)
}

impl Checker {
    /// A checker of these clauses, with room for lines. All memory that it will need is taken here.
    pub fn make(alloc: Global, clauses: &Clauses, vars: u32, room: Room) -> Result<Self, Memory>
        requires { HaveVarsUpTo vars clauses.now }
        ensures vars { IfOk result (λ c. c.vars ≡ vars) }
        ensures state { IfOk result (λ c. c.state ≡ start clauses.now) }
        ensures follows { IfOk result (λ c. Follows clauses.now c.state) }
        ensures lines { IfOk result (λ c. room.lines ≤ c.lines_left) }
        ensures lits { IfOk result (λ c. room.lits ≤ c.lits_left) }
    {
        let store = filled(alloc, clauses, vars, room)?;
        let assigned = Assignment::make(alloc, vars)?;
        Ok(Checker {
            store,
            assigned,
            closed: false,
        })
    }

    /// Begins anew with other clauses, and keeps the memory that it has by variable: that costs the
    /// clauses and the room, whatever the number of variables. After want of memory the checker is as
    /// before.
    pub fn restart(&mut self, alloc: Global, clauses: &Clauses, room: Room) -> Result<(), Memory>
        requires { HaveVarsUpTo self.old.vars clauses.now }
        ensures vars { self.new.vars ≡ self.old.vars }
        ensures state { OnOk result (self.new.state ≡ start clauses.now) }
        ensures follows { OnOk result (Follows clauses.now self.new.state) }
        ensures lines { OnOk result (room.lines ≤ self.new.lines_left) }
        ensures lits { OnOk result (room.lits ≤ self.new.lits_left) }
        ensures unchanged { OnErr result (self.new ≡ self.old) }
    {
        let store = filled(alloc, clauses, self.store.vars(), room)?;
        self.store = store;
        self.closed = false;
        Ok(())
    }

    /// Whether an empty clause was added. Then no values satisfy any clauses that the state follows.
    pub fn closed(&self) -> bool
        ensures value { result ≡ self.now.state.closed }
        ensures sound { IsTrue result → (clauses : List (List Literal)) → Follows clauses self.now.state → HaveNoSolution clauses }
    {
        self.closed
    }

    // An addition, with the faults in their order.
    fn add(&mut self, id: u64, lits: &[Lit], hints: &[u64]) -> Result<(), LineFault>
        requires line { 0 < self.old.lines_left }
        requires lits { length lits.now ≤ self.old.lits_left }
        ensures rup { OnOk result (Rup self.old.vars self.old.state id lits.now hints.now) }
        ensures state { OnOk result (self.new.state ≡ added self.old.state id lits.now) }
        ensures fault { IfErr result (λ f. IsAddFault self.old.vars self.old.state id lits.now hints.now f) }
        ensures unchanged { OnErr result (self.new ≡ self.old) }
        ensures vars { self.new.vars ≡ self.old.vars }
        ensures lines { OnOk result (self.new.lines_left + 1 ≡ self.old.lines_left) }
        ensures lits { OnOk result (self.new.lits_left + length lits.now ≡ self.old.lits_left) }
    {
        if id <= self.store.last() {
            return Err(LineFault::OldId { id });
        }
        if !assume(&mut self.assigned, lits) {
            self.assigned.clear();
            return Err(LineFault::BadVar { id });
        }
        let ending = read_hints(&self.store, &mut self.assigned, hints);
        self.assigned.clear();
        match ending {
            Ending::Falsified => {
                self.store.push_reserved(id, lits);
                if lits.is_empty() {
                    self.closed = true;
                }
                Ok(())
            }
            Ending::NoHint(id) => Err(LineFault::NoHint { id }),
            Ending::NotUnit(id) => Err(LineFault::NotUnit { id }),
            Ending::RanOut => Err(LineFault::NotClosed { id }),
        }
    }

    /// Whether there is room for a line.
    pub fn has_room(&self, line: &Line) -> bool
        ensures { IsTrue result ↔ HasRoom self.now line.now }
    {
        match line {
            Line::Add {
                id: _,
                lits,
                hints: _,
            } => self.store.lines_left() > 0 && lits.len() <= self.store.lits_left(),
            Line::Delete { id: _, ids: _ } => true,
        }
    }

    /// Takes the next line, where it may stand, else leaves the checker as it was. It takes no memory.
    pub fn line(&mut self, line: &Line) -> Result<(), LineFault>
        requires { HasRoom self.old line.now }
        ensures accepted { IsOk result ↔ IsAccepted self.old.vars self.old.state line.now }
        ensures passes { OnOk result (Passes self.old.vars self.old.state line.now self.new.state) }
        ensures fault { IfErr result (λ f. IsFault self.old.vars self.old.state line.now f) }
        ensures unchanged { OnErr result (self.new ≡ self.old) }
        ensures follows { (clauses : List (List Literal)) → Follows clauses self.old.state → Follows clauses self.new.state }
        ensures vars { self.new.vars ≡ self.old.vars }
        ensures room { OnOk result (TakesRoom self.old line.now self.new) }
    {
        match line {
            Line::Add { id, lits, hints } => self.add(*id, lits.as_slice(), hints.as_slice()),
            Line::Delete { id: _, ids } => {
                if let Err(id) = self.store.delete(ids.as_slice()) {
                    return Err(LineFault::NoHint { id });
                }
                Ok(())
            }
        }
    }
}

/// How many literals the lines add, unless there are 2^64 or more.
pub fn count_lits(lines: &[Line]) -> Option<u64>
    ensures fits { IsSome result ↔ (sum_by lits_in lines.now < 2 ^ 64) }
    ensures count { IfSome result (λ n. n ≡ sum_by lits_in lines.now) }
{
    let mut sum: u64 = 0;
    for line in lines {
        if let Line::Add {
            id: _,
            lits,
            hints: _,
        } = line
        {
            sum = sum.checked_add(lits.len() as u64)?;
        }
    }
    Some(sum)
}

/// Whether the lines refute the clauses: each passes in turn, and one of them is empty. Then no values
/// satisfy the clauses.
pub fn refutes(alloc: Global, clauses: &Clauses, lines: &[Line], vars: u32) -> Result<bool, Memory>
    requires { HaveVarsUpTo vars clauses.now }
    ensures exact { IfOk result (λ yes. IsTrue yes ↔ Refutes vars clauses.now lines.now) }
    ensures sound { IfOk result (λ yes. IsTrue yes → HaveNoSolution clauses.now) }
{
    let Some(lits) = count_lits(lines) else {
        return Err(AllocError);
    };
    let room = Room {
        lines: lines.len() as u64,
        lits,
    };
    let mut checker = Checker::make(alloc, clauses, vars, room)?;
    for line in lines {
        if let Err(_) = checker.line(line) {
            return Ok(false);
        }
    }
    Ok(checker.closed())
}

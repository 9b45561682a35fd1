//! Clauses by their numbers, in one list of literals.
ghost use Rattle.std.specs.Prelude.{◌≡◌, ℕ, ◌+◌, ◌-◌, ◌<◌, ◌≤◌, false, [], ◌∷◌, ◌++◌, Some, None, Ok, Err, All, length, IfOk, IfErr, OnOk, OnErr, IfSome, IfNone, MatchOption, slice_index_or, true};
ghost use Rattle.cnf_core.specs.Lrat.{clause_at, delete_all};
ghost use Rattle.lrat_check.specs.Slots.{Rises, IsPlaceOf, HasNone, is_live, kill_all, revive_all};

use cnf_core::{Lit, Memory, Span};
use std::alloc::Global;
use std::marker::Model;

/// A clause that stands, or stood.
#[derive(Clone, Copy)]
struct Slot {
    id: u64,
    span: Span,
    live: bool,
}

/// Where the slot with this number is.
fn find(slots: &[Slot], id: u64) -> Option<usize>
    requires { Rises slots.now }
    ensures found { IfSome result (λ k. IsPlaceOf slots.now id k) }
    ensures absent { IfNone result (HasNone slots.now id) }
{
    // Numbers mostly have no gaps: then the place is known.
    if id > 0 {
        let guess = id as usize - 1;
        if guess < slots.len() && slots[guess].id == id {
            return Some(guess);
        }
    }
    let mut low = 0;
    let mut high = slots.len();
    while low < high {
        let middle = low + (high - low) / 2;
        let here = slots[middle].id;
        if here == id {
            return Some(middle);
        }
        if here < id {
            low = middle + 1;
        } else {
            high = middle;
        }
    }
    None
}

/// Where the slot of the live clause with this number is.
fn find_live(slots: &[Slot], id: u64) -> Option<usize>
    requires { Rises slots.now }
    ensures found { IfSome result (λ k. IsPlaceOf slots.now id k) }
    ensures live { IfSome result (λ k. (d : Slot) → (slice_index_or slots.now k d).live ≡ true) }
    ensures absent { IfNone result (is_live slots.now id ≡ false) }
{
    match find(slots, id) {
        Some(at) if slots[at].live => Some(at),
        _ => None,
    }
}

/// Makes the slots with these numbers live again.
fn revive(slots: &mut [Slot], ids: &[u64])
    requires { Rises slots.old }
    ensures { slots.new ≡ revive_all slots.old ids.now }
{
    let mut left = ids.len();
    while left > 0 {
        left -= 1;
        if let Some(at) = find(slots, ids[left]) {
            slots[at].live = true;
        }
    }
}

/// Makes the live clauses with these numbers dead, in order. Where one has no live clause, gives its number and changes nothing.
fn kill(slots: &mut [Slot], ids: &[u64]) -> Result<(), u64>
    requires { Rises slots.old }
    ensures ok { OnOk result (kill_all slots.old ids.now ≡ Ok slots.new) }
    ensures err { IfErr result (λ id. kill_all slots.old ids.now ≡ Err id) }
    ensures unchanged { OnErr result (slots.new ≡ slots.old) }
{
    for done in 0..ids.len() {
        match find_live(slots, ids[done]) {
            Some(at) => slots[at].live = false,
            None => {
                revive(slots, &ids[..done]);
                return Err(ids[done]);
            }
        }
    }
    Ok(())
}

/// The clauses, with room for more.
#[derive(Drop)]
pub struct Store {
    vars: u32,
    last: u64,
    lits: Vec<Lit>,
    slots: Vec<Slot>,
}

impl Model for Store {
    ghost use Rattle.std.specs.Prelude.{◌-◌, vec_len, vec_capacity};
    ghost use Rattle.lrat_check.specs.Stored.{Stored, live_of, Tidy};

    ghost Value = { Stored };

    ghost view = { λ s. record { vars = s.vars; live = live_of s.lits.items s.slots.items; last = s.last; lines_left = vec_capacity s.slots - vec_len s.slots; lits_left = vec_capacity s.lits - vec_len s.lits } };

    ghost invariant = { λ s. Tidy s.vars s.last s.lits.items s.slots.items };
}

impl Store {
    /// No clauses, and no room.
    pub fn new(alloc: Global, vars: u32) -> Self
        ensures vars { result.vars ≡ vars }
        ensures live { result.live ≡ [] }
        ensures last { result.last ≡ 0 }
    {
        Store {
            vars,
            last: 0,
            lits: Vec::new(alloc),
            slots: Vec::new(alloc),
        }
    }

    /// The largest variable.
    pub fn vars(&self) -> u32
        ensures { result ≡ self.now.vars }
    {
        self.vars
    }

    /// The highest number so far.
    pub fn last(&self) -> u64
        ensures { result ≡ self.now.last }
    {
        self.last
    }

    /// How many more clauses have room.
    pub fn lines_left(&self) -> usize
        ensures { result ≡ self.now.lines_left }
    {
        self.slots.capacity() - self.slots.len()
    }

    /// How many more literals have room.
    pub fn lits_left(&self) -> usize
        ensures { result ≡ self.now.lits_left }
    {
        self.lits.capacity() - self.lits.len()
    }

    /// Makes room.
    pub fn reserve(&mut self, lines: usize, lits: usize) -> Result<(), Memory>
        ensures vars { self.new.vars ≡ self.old.vars }
        ensures live { self.new.live ≡ self.old.live }
        ensures last { self.new.last ≡ self.old.last }
        ensures lines { OnOk result (lines ≤ self.new.lines_left) }
        ensures lits { OnOk result (lits ≤ self.new.lits_left) }
    {
        self.slots.reserve(lines)?;
        self.lits.reserve(lits)
    }

    /// Adds a clause. It takes no memory.
    pub fn push_reserved(&mut self, id: u64, clause: &[Lit])
        requires new_id { self.old.last < id }
        requires vars { All (λ l. l.variable ≤ self.old.vars) clause.now }
        requires line { 0 < self.old.lines_left }
        requires lits { length clause.now ≤ self.old.lits_left }
        ensures vars { self.new.vars ≡ self.old.vars }
        ensures live { self.new.live ≡ self.old.live ++ record { id = id; lits = clause.now } ∷ [] }
        ensures last { self.new.last ≡ id }
        ensures lines { self.new.lines_left + 1 ≡ self.old.lines_left }
        ensures lits { self.new.lits_left + length clause.now ≡ self.old.lits_left }
    {
        let from = self.lits.len();
        for literal in clause {
            self.lits.push_reserved(*literal);
        }
        let to = self.lits.len();
        self.slots.push_reserved(Slot {
            id,
            span: Span { from, to },
            live: true,
        });
        self.last = id;
    }

    /// The live clause with this number.
    pub fn clause(&self, id: u64) -> Option<&[Lit]>
        ensures lookup { MatchOption result (clause_at self.now.live id ≡ None) (λ c. clause_at self.now.live id ≡ Some c.now) }
        ensures vars { IfSome result (λ c. All (λ l. l.variable ≤ self.now.vars) c.now) }
    {
        match find_live(self.slots.as_slice(), id) {
            Some(at) => {
                let span = self.slots[at].span;
                Some(&self.lits.as_slice()[span.from..span.to])
            }
            None => None,
        }
    }

    /// Removes the clauses with these numbers, in order. Where one has no live clause, gives its number and changes nothing.
    pub fn delete(&mut self, ids: &[u64]) -> Result<(), u64>
        ensures ok { OnOk result (delete_all self.old.live ids.now ≡ Ok self.new.live) }
        ensures err { IfErr result (λ id. delete_all self.old.live ids.now ≡ Err id) }
        ensures unchanged { OnErr result (self.new ≡ self.old) }
        ensures vars { self.new.vars ≡ self.old.vars }
        ensures last { self.new.last ≡ self.old.last }
        ensures lines { self.new.lines_left ≡ self.old.lines_left }
        ensures lits { self.new.lits_left ≡ self.old.lits_left }
    {
        kill(self.slots.as_mut_slice(), ids)
    }
}

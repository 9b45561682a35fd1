//! Clauses in one list of literals, found by references that stay valid until the arena is compacted.
#![tactic(auto)]

ghost use Rattle.std.specs.Prelude.{◌≡◌, ◌+◌, ◌<◌, ◌≤◌, ◌++◌, [], ◌∷◌, length, IfOk, OnErr, OnOk, Some, None, is_some, slice_set, vec_len, vec_capacity};
ghost use Rattle.std.specs.List.{swap};
ghost use Rattle.clause_arena.specs.Stored.{clause_at, IsLive, literals};
ghost use Rattle.clause_arena.specs.Moving.{Compacts};

use cnf_core::{Lit, Memory, Span};
use sqlite_items::Items;
use std::alloc::Global;
use std::marker::Model;

/// The place of a clause in an arena.
#[derive(Clone, Copy)]
pub struct Ref {
    pub place: u64,
}

/// A reference before compaction, and the one after it for the same clause.
#[derive(Clone, Copy)]
pub struct Move {
    pub from: Ref,
    pub to: Ref,
}

/// References that compaction moved, in rising order.
pub type Moves = Items<Move>;

/// The part of the arena's literals that is one clause's, also where the clause was removed.
#[derive(Clone, Copy)]
pub struct Slot {
    pub span: Span,
    pub is_live: bool,
}

/// Clauses by reference. They stand one after another in one list of literals.
///
/// A clause takes a word for each literal and one of its own. To add one costs its length, to find or
/// remove one takes constant time. The room of removed clauses is free again after `compact`.
#[derive(Drop)]
pub struct Arena {
    alloc: Global,
    lits: Vec<Lit>,
    slots: Vec<Slot>,
}

impl Model for Arena {
    ghost use Rattle.std.specs.Prelude.{map, vec_len, vec_capacity, min, ◌-◌};
    ghost use Rattle.clause_arena.specs.Stored.{Stored, held, AreApart};

    ghost Value = { Stored };

    ghost view = { λ a. record { places = map (held a.lits.items) a.slots.items; spare = min (vec_capacity a.lits - vec_len a.lits) (vec_capacity a.slots - vec_len a.slots) } };

    ghost invariant = { λ a. AreApart a.lits.items a.slots.items };
}

/// Adds literals to the end of a list that has room for them.
fn append_reserved(lits: &mut Vec<Lit>, clause: &[Lit])
    requires { vec_len lits.old + length clause.now ≤ vec_capacity lits.old }
    ensures items { lits.new.items ≡ lits.old.items ++ clause.now }
    ensures capacity { vec_capacity lits.new ≡ vec_capacity lits.old }
{
    for literal in clause {
        lits.push_reserved(*literal);
    }
}

impl Arena {
    /// No clauses. It takes no memory.
    pub fn make(alloc: Global) -> Self
        ensures { result.places ≡ [] }
    {
        Arena {
            alloc,
            lits: Vec::new(alloc),
            slots: Vec::new(alloc),
        }
    }

    /// How many places there are, those of removed clauses counted.
    fn len(&self) -> usize
        ensures { result ≡ length self.now.places }
    {
        self.slots.len()
    }

    /// Whether a clause stands at a place.
    fn is_live(&self, at: Ref) -> bool
        requires { at.place < length self.now.places }
        ensures { result ≡ is_some (clause_at self.now.places at) }
    {
        self.slots[at.place as usize].is_live
    }

    /// The literals of a clause.
    pub fn get(&self, at: Ref) -> &[Lit]
        requires { IsLive self.now.places at }
        ensures { Some result.now ≡ clause_at self.now.places at }
    {
        let span = self.slots[at.place as usize].span;
        &self.lits.as_slice()[span.from..span.to]
    }

    /// Adds a clause, and gives its reference. After want of memory the clauses are as before.
    pub fn add(&mut self, clause: &[Lit]) -> Result<Ref, Memory>
        ensures place { IfOk result (λ at. at.place ≡ length self.old.places) }
        ensures ok { OnOk result (self.new.places ≡ self.old.places ++ Some clause.now ∷ []) }
        ensures err { OnErr result (self.new.places ≡ self.old.places) }
        ensures spare { self.old.spare ≤ self.new.spare + length clause.now + 1 }
    {
        self.slots.reserve(1)?;
        let from = self.lits.len();
        self.lits.extend_from_slice(clause)?;
        let to = self.lits.len();
        let place = self.slots.len() as u64;
        self.slots.push_reserved(Slot {
            span: Span { from, to },
            is_live: true,
        });
        Ok(Ref { place })
    }

    /// Has room for `words` words: a clause takes one for each literal, and one of its own.
    pub fn reserve(&mut self, words: u32) -> Result<(), Memory>
        ensures places { self.new.places ≡ self.old.places }
        ensures spare { self.old.spare ≤ self.new.spare }
        ensures ok { OnOk result (words ≤ self.new.spare) }
    {
        self.lits.reserve(words as usize)?;
        self.slots.reserve(words as usize)
    }

    /// Adds a clause for which room is reserved, and gives its reference.
    pub fn add_reserved(&mut self, clause: &[Lit]) -> Ref
        requires { length clause.now + 1 ≤ self.old.spare }
        ensures place { result.place ≡ length self.old.places }
        ensures places { self.new.places ≡ self.old.places ++ Some clause.now ∷ [] }
        ensures spare { self.old.spare ≤ self.new.spare + length clause.now + 1 }
    {
        let from = self.lits.len();
        append_reserved(&mut self.lits, clause);
        let to = self.lits.len();
        let place = self.slots.len() as u64;
        self.slots.push_reserved(Slot {
            span: Span { from, to },
            is_live: true,
        });
        Ref { place }
    }

    /// Swaps two literals of a clause, counted from 0.
    pub fn swap(&mut self, at: Ref, i: u32, j: u32)
        requires live { IsLive self.old.places at }
        requires first { i < length (literals (clause_at self.old.places at)) }
        requires second { j < length (literals (clause_at self.old.places at)) }
        ensures places { self.new.places ≡ slice_set self.old.places at.place (Some (swap (literals (clause_at self.old.places at)) i j)) }
        ensures spare { self.new.spare ≡ self.old.spare }
    {
        let span = self.slots[at.place as usize].span;
        self.lits.as_mut_slice()[span.from..span.to].swap(i as usize, j as usize);
    }

    /// Removes a clause. Its reference, and that of no other clause, gets invalid.
    pub fn remove(&mut self, at: Ref)
        requires { IsLive self.old.places at }
        ensures places { self.new.places ≡ slice_set self.old.places at.place None }
        ensures spare { self.new.spare ≡ self.old.spare }
    {
        self.slots[at.place as usize].is_live = false;
    }

    /// Frees the room of removed clauses, and gives each clause's old and new reference, in rising order.
    /// It takes time and memory in the literals of the clauses. After want of memory all is as before.
    pub fn compact(&mut self) -> Result<Moves, Memory>
        ensures ok { IfOk result (λ moves. Compacts self.old.places self.new.places moves) }
        ensures err { OnErr result (self.new ≡ self.old) }
    {
        let (fresh, moves) = self.compacted()?;
        *self = fresh;
        Ok(moves)
    }

    /// The same clauses in an arena with no removed ones, and where they stand there.
    fn compacted(&self) -> Result<(Self, Moves), Memory>
        ensures { IfOk result (λ r. Compacts self.now.places r.0.places r.1) }
    {
        let mut fresh = Arena::make(self.alloc);
        let mut moves = Items::new(self.alloc);
        for at in 0..self.len() {
            let from = Ref { place: at as u64 };
            if self.is_live(from) {
                let to = fresh.add(self.get(from))?;
                moves.push(Move { from, to })?;
            }
        }
        Ok((fresh, moves))
    }
}

//! Which two literals of each clause are watched.
ghost use Rattle.std.specs.Prelude.{◌≡◌, ℕ, ◌+◌, ◌*◌, ◌<◌, ◌≤◌, [], ◌∷◌, ◌++◌, length, OnOk, IfOk, slice_index_or, slice_set};
ghost use Rattle.sat_core.specs.Assigned.{place_of};
ghost use Rattle.sat_core.specs.Watching.{listed, unlisted, list_at, pair_at};

use crate::assignment::place;
use cnf_core::{Lit, Memory};
use std::alloc::Global;
use std::marker::Model;

/// The two watched literals of a clause.
#[derive(Clone, Copy)]
pub struct Pair {
    pub first: Lit,
    pub second: Lit,
}

/// The watched literals of each clause, and for each literal the places of the clauses that may watch it.
#[derive(Drop)]
pub struct Watches {
    lists: Vec<Vec<usize>>,
    pairs: Vec<Pair>,
}

impl Model for Watches {
    ghost use Rattle.std.specs.Prelude.{map};
    ghost use Rattle.sat_core.specs.Watching.{Watching};

    ghost Value = { Watching };

    ghost view = { λ w. record { lists = map (λ v. v.items) w.lists.items; pairs = w.pairs.items } };
}

impl Watches {
    /// No clauses, for the variables up to `vars`.
    pub fn make(alloc: Global, vars: u32) -> Result<Self, Memory>
        ensures places { IfOk result (λ w. length w.lists ≡ 2 * vars + 2) }
        ensures pairs { IfOk result (λ w. w.pairs ≡ []) }
    {
        let places = 2 * vars as usize + 2;
        let mut lists = Vec::with_capacity(alloc, places)?;
        for _ in 0..places {
            lists.push(Vec::new(alloc))?;
        }
        Ok(Watches {
            lists,
            pairs: Vec::new(alloc),
        })
    }

    /// Forgets all clauses. It takes time in the number of variables.
    pub fn clear(&mut self)
        ensures places { length self.new.lists ≡ length self.old.lists }
        ensures pairs { self.new.pairs ≡ [] }
    {
        for at in 0..self.lists.len() {
            self.lists[at].clear();
        }
        self.pairs.clear();
    }

    /// How many clauses have watched literals.
    pub fn len(&self) -> usize
        ensures { result ≡ length self.now.pairs }
    {
        self.pairs.len()
    }

    /// The watched literals of a clause.
    pub fn pair(&self, clause: usize) -> Pair
        requires { clause < length self.now.pairs }
        ensures { result ≡ pair_at self.now.pairs clause }
    {
        self.pairs[clause]
    }

    /// How many clauses the list of a literal has.
    pub fn count(&self, literal: Lit) -> usize
        requires { place_of literal < length self.now.lists }
        ensures { result ≡ length (list_at self.now.lists (place_of literal)) }
    {
        self.lists[place(literal)].len()
    }

    /// The place of a clause in the list of a literal.
    pub fn clause(&self, literal: Lit, at: usize) -> usize
        requires within { place_of literal < length self.now.lists }
        requires there { at < length (list_at self.now.lists (place_of literal)) }
        ensures { result ≡ slice_index_or (list_at self.now.lists (place_of literal)) at 0 }
    {
        self.lists[place(literal)][at]
    }

    /// Puts a clause into the list of a literal.
    pub fn list(&mut self, literal: Lit, clause: usize) -> Result<(), Memory>
        requires { place_of literal < length self.old.lists }
        ensures places { length self.new.lists ≡ length self.old.lists }
        ensures pairs { self.new.pairs ≡ self.old.pairs }
        ensures ok { OnOk result (self.new.lists ≡ listed self.old.lists (place_of literal) clause) }
    {
        self.lists[place(literal)].push(clause)?;
        Ok(())
    }

    /// Takes a clause out of the list of a literal. The last one there takes its place.
    pub fn unlist(&mut self, literal: Lit, at: usize)
        requires within { place_of literal < length self.old.lists }
        requires there { at < length (list_at self.old.lists (place_of literal)) }
        ensures { self.new ≡ record self.old
            { lists = unlisted self.old.lists (place_of literal) at } }
    {
        self.lists[place(literal)].swap_remove(at);
    }

    /// Adds the watched literals of the next clause.
    pub fn add(&mut self, pair: Pair) -> Result<(), Memory>
        requires first { place_of pair.first < length self.old.lists }
        requires second { place_of pair.second < length self.old.lists }
        ensures places { length self.new.lists ≡ length self.old.lists }
        ensures pairs { OnOk result (self.new.pairs ≡ self.old.pairs ++ pair ∷ []) }
        ensures lists { OnOk result (self.new.lists ≡ listed
            (listed self.old.lists (place_of pair.first) (length self.old.pairs))
            (place_of pair.second) (length self.old.pairs)) }
    {
        let clause = self.pairs.len();
        self.list(pair.first, clause)?;
        self.list(pair.second, clause)?;
        self.pairs.push(pair)?;
        Ok(())
    }

    /// Gives a clause other watched literals.
    pub fn set(&mut self, clause: usize, pair: Pair)
        requires { clause < length self.old.pairs }
        ensures { self.new ≡ record self.old { pairs = slice_set self.old.pairs clause pair } }
    {
        self.pairs[clause] = pair;
    }
}

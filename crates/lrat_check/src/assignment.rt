//! The literals that are false while a line is checked.
ghost use Rattle.std.specs.Prelude.{◌≡◌, ℕ, ◌+◌, ◌≤◌, false, [], ◌∷◌, ◌++◌, IfOk};
ghost use Rattle.cnf_core.specs.Lrat.{is_false};
ghost use Rattle.lrat_check.specs.Assigned.{place_of};

use cnf_core::{Lit, Memory};
use std::alloc::Global;
use std::marker::Model;

/// The false literals: a mark for each literal, and a trail of those that are marked.
#[derive(Drop)]
pub struct Assignment {
    vars: u32,
    marks: Vec<bool>,
    trail: Vec<Lit>,
}

impl Model for Assignment {
    ghost use Rattle.std.specs.Prelude.{vec_capacity};
    ghost use Rattle.lrat_check.specs.Assigned.{Assigned, Kept};

    ghost Value = { Assigned };

    ghost view = { λ a. record { vars = a.vars; falses = a.trail.items } };

    ghost invariant = { λ a. Kept a.vars a.marks.items a.trail.items (vec_capacity a.trail) };
}

/// Where a literal's mark is.
fn place(literal: Lit) -> usize
    ensures { result ≡ place_of literal }
{
    let twice = 2 * literal.variable() as usize;
    if literal.is_positive() {
        twice
    } else {
        twice + 1
    }
}

impl Assignment {
    /// No false literal. It takes all memory that it will need, by the number of variables.
    pub fn make(alloc: Global, vars: u32) -> Result<Self, Memory>
        ensures vars { IfOk result (λ a. a.vars ≡ vars) }
        ensures falses { IfOk result (λ a. a.falses ≡ []) }
    {
        let places = 2 * vars as usize + 2;
        let marks = vec![in alloc; false; places]?;
        let trail = Vec::with_capacity(alloc, places)?;
        Ok(Assignment { vars, marks, trail })
    }

    /// The largest variable.
    pub fn vars(&self) -> u32
        ensures { result ≡ self.now.vars }
    {
        self.vars
    }

    /// Whether the literal is false.
    pub fn is_false(&self, literal: Lit) -> bool
        requires { literal.variable ≤ self.now.vars }
        ensures { result ≡ is_false self.now.falses literal }
    {
        self.marks[place(literal)]
    }

    /// Makes a literal false. It takes no memory.
    pub fn set_false(&mut self, literal: Lit)
        requires within { literal.variable ≤ self.old.vars }
        requires not_yet { is_false self.old.falses literal ≡ false }
        ensures { self.new ≡ record self.old { falses = self.old.falses ++ literal ∷ [] } }
    {
        self.marks[place(literal)] = true;
        self.trail.push_reserved(literal);
    }

    /// Leaves no literal false.
    pub fn clear(&mut self)
        ensures { self.new ≡ record self.old { falses = [] } }
    {
        while let Some(literal) = self.trail.pop() {
            self.marks[place(literal)] = false;
        }
    }
}

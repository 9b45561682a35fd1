// Names with the vectors that they stand for.

ghost use Rattle.std.specs.Prelude.{◌≡◌, ◌≤◌, [], ◌∷◌, ◌++◌, None, IfOk, OnErr, MatchBool, slice_get};
ghost use Rattle.std.specs.Option.{option_copied};
ghost use Rattle.bit_exprs.specs.Values.{listed};
ghost use Rattle.expr_elab.specs.Vectors.{vector_width, width_within, range_width, is_rising, bits_of, vector_of};

use crate::vectors::{Range, Vector};
use bit_exprs::forms::Bit;
use indexmap::IndexMap;
use sqlite_items::Items;
use std::alloc::{AllocError, Global};
use std::marker::Model;
use word_core::Name;

/// Names in the order in which they are declared, with their vectors, no name twice. A look-up takes the same time however many there are.
#[derive(Drop)]
pub struct Scope {
    vectors: IndexMap<Name, Vector>,
}

impl Model for Scope {
    ghost use Rattle.std.specs.Prelude.{List, ℕ};
    ghost use Rattle.expr_elab.specs.declared.vectors.Vector.{Vector};

    ghost Value = { List (List ℕ × Vector) };

    ghost view = { λ s. s.vectors.entries };
}

impl Scope {
    /// No names.
    pub fn new(alloc: Global) -> Scope
        ensures { result ≡ [] }
    {
        Scope {
            vectors: IndexMap::new(alloc),
        }
    }

    /// Puts a name behind the others. The answer is whether it is new; one that is there stays what it is. The error is that memory ran out.
    pub fn declare(
        &mut self,
        alloc: Global,
        name: &Name,
        vector: Vector,
    ) -> Result<bool, AllocError>
        ensures ok { IfOk result (λ new. MatchBool new ((vector_of self.old name.now ≡ None) × (self.new ≡ self.old ++ (name.now, vector) ∷ [])) ((vector_of self.old name.now ≡ None → ⊥) × (self.new ≡ self.old))) }
        ensures err { OnErr result (self.new ≡ self.old) }
    {
        if self.vectors.contains_key(name) {
            return Ok(false);
        }
        let copy = Name::make(alloc, name.bytes())?;
        self.vectors.insert(copy, vector)?;
        Ok(true)
    }

    /// What a name stands for.
    pub fn get(&self, name: &Name) -> Option<Vector>
        ensures { result ≡ vector_of self.now name.now }
    {
        let vector = self.vectors.get(name)?;
        Some(*vector)
    }
}

fn span(range: Range) -> u8
    ensures value { result ≡ range_width range }
    ensures within { result ≤ 128 }
{
    if range.left < range.right {
        (range.right - range.left + 1) as u8
    } else {
        (range.left - range.right + 1) as u8
    }
}

/// How many bits a vector has.
pub fn width(vector: Vector) -> u8
    ensures value { result ≡ vector_width vector }
    ensures within { result ≤ 128 }
{
    match vector.range {
        None => 1,
        Some(range) => span(range),
    }
}

/// Whether the indices rise towards the least significant bit.
pub fn rises(range: Range) -> bool
    ensures { result ≡ is_rising range }
{
    range.left < range.right
}

/// The bits of a vector, the least significant one first.
pub fn bits(alloc: Global, vector: Vector) -> Result<Items<Bit>, AllocError>
    ensures { IfOk result (λ bits. bits ≡ bits_of vector) }
{
    let mut bits = Items::new(alloc);
    for k in 0..width(vector) {
        bits.push(vector.first + k as u32)?;
    }
    Ok(bits)
}

/// The bit at a place, if the vector has so many.
pub fn bit_at(vector: Vector, place: u128) -> Option<Bit>
    ensures { result ≡ slice_get (bits_of vector) place }
{
    if place < width(vector) as u128 {
        Some(vector.first + place as u32)
    } else {
        None
    }
}

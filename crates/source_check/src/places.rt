// Where names stand in a list.

ghost use Rattle.std.specs.Prelude.{◌≡◌, ◌<◌, ◌^◌, List, ℕ, length, IfOk, OnOk};
ghost use Rattle.source_check.specs.Ladders.{state_names, state_of};
ghost use Rattle.source_check.specs.Places.{place_in, with_place};

use bit_system::StateInfo;
use indexmap::IndexMap;
use std::alloc::{AllocError, Global};
use word_core::Name;

/// The places of names in a list, counted from 0: a name that stands in it several times has its first place, and one that doesn't has the
/// place behind the last. A look-up takes the same time however many there are.
#[derive(Drop)]
pub struct Places {
    first: IndexMap<Name, u32>,
    count: u32,
}

impl Places {
    /// The place of a name.
    pub fn place(&self, name: &Name) -> u32
        ensures { result ≡ place_in self.now name.now }
    {
        match self.first.get(name) {
            Some(place) => *place,
            None => self.count,
        }
    }
}

/// Gives a name this place, where it has none so far.
fn put(
    alloc: Global,
    places: &mut IndexMap<Name, u32>,
    name: &Name,
    place: u32,
) -> Result<(), AllocError>
    ensures { OnOk result (places.new.entries ≡ with_place places.old.entries name.now place) }
{
    if places.contains_key(name) {
        return Ok(());
    }
    let copy = Name::make(alloc, name.bytes())?;
    places.insert(copy, place)?;
    Ok(())
}

/// The places of the names of state bits.
pub fn places_of(alloc: Global, states: &[StateInfo]) -> Result<Places, AllocError>
    requires { length states.now < 2 ^ 32 }
    ensures { IfOk result (λ places. (name : List ℕ) → place_in places name ≡ state_of (state_names states.now) name) }
{
    let mut first = IndexMap::new(alloc);
    for (place, state) in states.iter().enumerate() {
        put(alloc, &mut first, &state.name, place as u32)?;
    }
    Ok(Places {
        first,
        count: states.len() as u32,
    })
}

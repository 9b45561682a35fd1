// The names that may stand in a body.

ghost use Rattle.std.specs.Prelude.{◌≡◌, ◌↔◌, [], ◌∷◌, ◌++◌, cond, true, None, Contains, IsTrue, IfOk, OnOk, MatchBool, MatchOption};
ghost use Rattle.std.specs.Str.{bytes_eq};
ghost use Rattle.expr_elab.specs.Vectors.{vector_width, vector_of};
ghost use Rattle.elab_flat.specs.Nets.{names_of, scope_of};
ghost use Rattle.elab_flat.specs.Designs.{AreDistinct, IsClock};

use crate::nets::Net;
use bit_exprs::forms::Bit;
use expr_elab::{Scope, width};
use indexmap::IndexSet;
use std::alloc::{AllocError, Global};
use word_core::Name;

/// Puts a name behind the others. The answer is whether it is new; one that is there stays where it is.
fn add_name(alloc: Global, name: &Name, names: &mut IndexSet<Name>) -> Result<bool, AllocError>
    ensures new { IfOk result (λ new. MatchBool new (names.new.keys ≡ names.old.keys ++ name.now ∷ []) (names.new.keys ≡ names.old.keys)) }
    ensures absent { IfOk result (λ new. MatchBool new (Contains names.old.keys name.now → ⊥) (Contains names.old.keys name.now)) }
{
    let copy = Name::make(alloc, name.bytes())?;
    Ok(names.insert(copy)?)
}

/// Whether no name stands twice.
pub fn are_distinct(alloc: Global, nets: &[Net]) -> Result<bool, AllocError>
    ensures { IfOk result (λ answer. IsTrue answer ↔ AreDistinct (names_of nets.now)) }
{
    let mut names = IndexSet::new(alloc);
    for net in nets {
        if !add_name(alloc, &net.name, &mut names)? {
            return Ok(false);
        }
    }
    Ok(true)
}

/// Lets a net be named that isn't the clock.
fn declare_net(alloc: Global, clock: &Name, net: &Net, scope: &mut Scope) -> Result<(), AllocError>
    requires { vector_of scope.old net.now.name ≡ None }
    ensures { OnOk result (scope.new ≡ scope.old ++ cond (bytes_eq net.now.name clock.now) [] ((net.now.name, net.now.vector) ∷ [])) }
{
    if net.name == *clock {
        return Ok(());
    }
    scope.declare(alloc, &net.name, net.vector)?;
    Ok(())
}

/// What may be named: all nets but the clock.
pub fn scope(alloc: Global, clock: &Name, nets: &[Net]) -> Result<Scope, AllocError>
    requires { AreDistinct (names_of nets.now) }
    ensures { IfOk result (λ s. s ≡ scope_of clock.now nets.now) }
{
    let mut scope = Scope::new(alloc);
    for net in nets {
        declare_net(alloc, clock, net, &mut scope)?;
    }
    Ok(scope)
}

/// Whether a net is the clock: an input of one bit.
fn is_clock(clock: &Name, net: &Net) -> bool
    ensures { IsTrue result ↔ ((net.now.name ≡ clock.now) × (net.now.input ≡ true) × (vector_width net.now.vector ≡ 1)) }
{
    if net.name != *clock {
        return false;
    }
    if !net.input {
        return false;
    }
    width(net.vector) == 1
}

/// The bit of the clock, where it is an input of one bit.
pub fn clock_bit(clock: &Name, nets: &[Net]) -> Option<Bit>
    ensures { MatchOption result ((n : Net) → IsClock clock.now nets.now n → ⊥) (λ b. (n : Net) × IsClock clock.now nets.now n × (b ≡ n.vector.first)) }
{
    for net in nets {
        if is_clock(clock, net) {
            return Some(net.vector.first);
        }
    }
    None
}

// Whether each register is driven by exactly one process, and nothing else is driven.

ghost use Rattle.std.specs.Prelude.{ℕ, ◌≡◌, ◌≢◌, ◌↔◌, ◌<◌, ◌≤◌, [], ◌∷◌, false, length, All, IsTrue, IfOk};
ghost use Rattle.bit_exprs.specs.Named.{among, target_bits};
ghost use Rattle.design_core.specs.Drive.{drives};
ghost use Rattle.elab_flat.specs.Driven.{IsDriven};
ghost use Rattle.elab_flat.specs.Owners.{owner_at, AreFree, Owns, Clashes, AreOwners};

use bit_exprs::forms::{Bit, Target};
use design_core::flat::{Process, Stmt};
use expr_value::named;
use std::alloc::{AllocError, Global};

/// Which process drives a bit.
#[derive(Clone, Copy, Debug)]
pub enum Owner {
    /// None may: the bit is no register.
    Barred,
    /// None does so far.
    Nobody,
    /// The process of this number.
    Process(usize),
}

/// How many bits there are up to this one, or this count where it is more.
fn up_to(bit: Bit, count: usize) -> usize
    ensures all { count ≤ result }
    ensures one { bit < result }
{
    let place = bit as usize;
    if place < count { count } else { place + 1 }
}

/// How many bits there are up to the last register.
fn place_count(registers: &[Bit]) -> usize
    ensures { All (λ b. b < result) registers.now }
{
    let mut count = 0;
    for bit in registers {
        count = up_to(*bit, count);
    }
    count
}

/// Lets the registers have an owner.
fn free_registers(registers: &[Bit], owners: &mut [Owner])
    requires within { All (λ b. b < length owners.old) registers.now }
    requires barred { (b : ℕ) → owner_at owners.old b ≡ Owner.Barred }
    ensures { AreFree registers.now owners.new }
{
    for bit in registers {
        owners[*bit as usize] = Owner::Nobody;
    }
}

/// The places of all bits up to the last register, of which the registers' have no owner so far.
fn no_owners(alloc: Global, registers: &[Bit]) -> Result<Vec<Owner>, AllocError>
    ensures { IfOk result (λ owners. AreFree registers.now owners.items) }
{
    let mut owners = vec![in alloc; Owner::Barred; place_count(registers)]?;
    free_registers(registers, &mut owners);
    Ok(owners)
}

/// Makes a process the owner of a bit. The answer is whether it may be.
fn own_bit(bit: Bit, process: usize, owners: &mut [Owner]) -> bool
    ensures owns { IsTrue result → Owns (among (bit ∷ [])) process owners.old owners.new }
    ensures clashes { result ≡ false → Clashes (among (bit ∷ [])) process owners.old }
{
    let place = bit as usize;
    if place >= owners.len() {
        return false;
    }
    match owners[place] {
        Owner::Barred => false,
        Owner::Nobody => {
            owners[place] = Owner::Process(process);
            true
        }
        Owner::Process(owner) => owner == process,
    }
}

/// Makes a process the owner of some bits.
fn own_bits(bits: &[Bit], process: usize, owners: &mut [Owner]) -> bool
    ensures owns { IsTrue result → Owns (among bits.now) process owners.old owners.new }
    ensures clashes { result ≡ false → Clashes (among bits.now) process owners.old }
{
    for bit in bits {
        if !own_bit(*bit, process, owners) {
            return false;
        }
    }
    true
}

/// Makes a process the owner of the bits that a target may write.
fn own_target(target: &Target, process: usize, owners: &mut [Owner]) -> bool
    ensures owns { IsTrue result → Owns (among (target_bits target.now)) process owners.old owners.new }
    ensures clashes { result ≡ false → Clashes (among (target_bits target.now)) process owners.old }
{
    for part in target.parts.as_slice() {
        if !own_bits(named(part), process, owners) {
            return false;
        }
    }
    true
}

/// Makes a process the owner of the bits that a body drives.
fn own_body(body: &Stmt, process: usize, owners: &mut [Owner]) -> bool
    ensures owns { IsTrue result → Owns (drives body.now) process owners.old owners.new }
    ensures clashes { result ≡ false → Clashes (drives body.now) process owners.old }
{
    match body {
        Stmt::Assign {
            site: _,
            delayed: _,
            target,
            value: _,
        } => own_target(target, process, owners),
        Stmt::Branch {
            site: _,
            cond: _,
            yes,
            no,
        } => {
            if !own_body(yes.get(), process, owners) {
                return false;
            }
            own_body(no.get(), process, owners)
        }
        Stmt::Block(all) => {
            for s in all.as_slice() {
                if !own_body(s, process, owners) {
                    return false;
                }
            }
            true
        }
    }
}

/// Makes each process the owner of the bits that it drives. The answer is whether each may be.
fn own_all(registers: &[Bit], processes: &[Process], owners: &mut [Owner]) -> bool
    requires { AreFree registers.now owners.old }
    ensures owners { IsTrue result → AreOwners processes.now registers.now (length processes.now) owners.new }
    ensures clashes { result ≡ false → IsDriven processes.now registers.now → ⊥ }
{
    for k in 0..processes.len() {
        if !own_body(&processes[k].body, k, owners) {
            return false;
        }
    }
    true
}

/// Whether a bit that may have an owner has one.
fn has_owner(owner: Owner) -> bool
    ensures { IsTrue result ↔ owner ≢ Owner.Nobody }
{
    match owner {
        Owner::Nobody => false,
        Owner::Barred => true,
        Owner::Process(_) => true,
    }
}

/// Whether each of the registers has an owner.
fn are_owned(registers: &[Bit], owners: &[Owner]) -> bool
    requires { All (λ b. b < length owners.now) registers.now }
    ensures { IsTrue result ↔ All (λ b. owner_at owners.now b ≢ Owner.Nobody) registers.now }
{
    for bit in registers {
        if !has_owner(owners[*bit as usize]) {
            return false;
        }
    }
    true
}

/// Whether each register is driven by exactly one process, and no other bit is driven. There are no owners before it.
fn is_driven_once(registers: &[Bit], processes: &[Process], owners: &mut [Owner]) -> bool
    requires { AreFree registers.now owners.old }
    ensures { IsTrue result ↔ IsDriven processes.now registers.now }
{
    if !own_all(registers, processes, owners) {
        return false;
    }
    are_owned(registers, owners)
}

/// Whether each register is driven by exactly one process, and no other bit is driven. Each body is walked
/// once, and the memory is that of one place for each bit up to the last register.
pub fn is_driven(
    alloc: Global,
    processes: &[Process],
    registers: &[Bit],
) -> Result<bool, AllocError>
    ensures { IfOk result (λ answer. IsTrue answer ↔ IsDriven processes.now registers.now) }
{
    let mut owners = no_owners(alloc, registers)?;
    Ok(is_driven_once(registers, processes, &mut owners))
}

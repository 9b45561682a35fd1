// What items assign.

ghost use Rattle.std.specs.Prelude.{◌≡◌, [], ◌∷◌, ◌++◌, cond, None, IfOk, OnOk};
ghost use Rattle.expr_elab.specs.Vectors.{vector_of};
ghost use Rattle.elab_flat.specs.Nets.{names_of};
ghost use Rattle.elab_flat.specs.Assigned.{registers_of, targets_registers, assigns_registers, assign_registers};
ghost use Rattle.elab_flat.specs.Designs.{AreDistinct};

use crate::bodies::body;
use crate::nets::Net;
use expr_elab::Scope;
use std::alloc::{AllocError, Global};
use vlog_syntax as syntax;
use vlog_syntax::Item;

/// Whether each name in a target is a register's.
fn targets_registers(registers: &Scope, target: &syntax::Target) -> bool
    ensures { result ≡ targets_registers registers.now target.now }
{
    match target {
        syntax::Target::Name { name, select: _ } => registers.get(&name.name).is_some(),
        syntax::Target::Concat { at: _, parts } => {
            for part in parts.as_slice() {
                if !targets_registers(registers, part) {
                    return false;
                }
            }
            true
        }
    }
}

/// Whether each name that a statement assigns is a register's.
fn assigns_registers(registers: &Scope, stmt: &syntax::Stmt) -> bool
    ensures { result ≡ assigns_registers registers.now stmt.now }
{
    match stmt {
        syntax::Stmt::Nonblocking {
            at: _,
            target,
            value: _,
        } => targets_registers(registers, target),
        syntax::Stmt::If {
            at: _,
            condition: _,
            yes,
            no,
        } => {
            if !assigns_registers(registers, yes.get()) {
                return false;
            }
            match no {
                None => true,
                Some(no) => assigns_registers(registers, no.get()),
            }
        }
        syntax::Stmt::Block { at: _, statements } => {
            for s in statements.as_slice() {
                if !assigns_registers(registers, s) {
                    return false;
                }
            }
            true
        }
    }
}

/// Whether each name that the items assign is a register's.
fn assign_registers(registers: &Scope, items: &[Item]) -> bool
    ensures { result ≡ assign_registers registers.now items.now }
{
    for item in items {
        if !assigns_registers(registers, body(item)) {
            return false;
        }
    }
    true
}

/// Puts a net behind the others, where it is a register.
fn declare_register(alloc: Global, net: &Net, registers: &mut Scope) -> Result<(), AllocError>
    requires { vector_of registers.old net.now.name ≡ None }
    ensures { OnOk result (registers.new ≡ registers.old ++ cond net.now.input [] ((net.now.name, net.now.vector) ∷ [])) }
{
    if net.input {
        return Ok(());
    }
    registers.declare(alloc, &net.name, net.vector)?;
    Ok(())
}

/// The registers, by their names.
fn registers_by_name(alloc: Global, nets: &[Net]) -> Result<Scope, AllocError>
    requires { AreDistinct (names_of nets.now) }
    ensures { IfOk result (λ s. s ≡ registers_of nets.now) }
{
    let mut registers = Scope::new(alloc);
    for net in nets {
        declare_register(alloc, net, &mut registers)?;
    }
    Ok(registers)
}

/// Whether the items assign registers alone.
pub fn are_assignable(alloc: Global, nets: &[Net], items: &[Item]) -> Result<bool, AllocError>
    requires { AreDistinct (names_of nets.now) }
    ensures { IfOk result (λ answer. answer ≡ assign_registers (registers_of nets.now) items.now) }
{
    let registers = registers_by_name(alloc, nets)?;
    Ok(assign_registers(&registers, items))
}

// From a tree and a setup to a design.

ghost use Rattle.std.specs.Prelude.{◌≡◌, ◌<◌, ◌≤◌, ◌+◌, ◌-◌, ◌*◌, ◌/◌, ◌^◌, List, length, All, MatchOption, IfOk};
ghost use Rattle.elab_flat.specs.Nets.{names_of, info_of, declared_of, each_of, bits_where, is_data_input, is_register};
ghost use Rattle.elab_flat.specs.Bodies.{assignments_in, branches_in, sum_over, IsClockedBy};
ghost use Rattle.elab_flat.specs.Designs.{AreDistinct, IsClock, AreNetsOf, AreProcesses, IsModuleDesign, first_place, Flattens};

use crate::bodies::{Numbers, are_clocked_by, processes, statement_count};
use crate::drivers::is_driven;
use crate::names::{bits, declared, inputs, registers};
use crate::nets::{Net, nets};
use crate::scopes::{are_distinct, clock_bit, scope};
use crate::sites::sites;
use crate::targets::are_assignable;
use bit_exprs::forms::Bit;
use design_core::flat::{Design, Process, Site};
use design_core::setup::Setup;
use sqlite_items::Items;
use std::alloc::{AllocError, Global};
use vlog_syntax::{Item, Module, Tree};
use word_core::{Name, Place};

/// Why a tree has no design under a setup.
#[derive(Clone, Copy, Debug)]
pub enum FlatError {
    /// It is beyond what is built so far. The place is that of the text's first token.
    NotBuilt { at: Place },
    /// Memory ran out, or the design would have 2^32 sites or more.
    Memory,
}

impl From<AllocError> for FlatError {
    ghost use Rattle.std.specs.Prelude.{◌≡◌};
    ghost use Rattle.elab_flat.specs.declared.elaborate.FlatError.TheVariants.{Memory};

    ghost from_gives = { λ _ e. e ≡ Memory };

    fn from(_: AllocError) -> FlatError {
        FlatError::Memory
    }
}

/// Where a text's first token stands.
fn first_token(tree: &Tree) -> Place
    ensures { result ≡ first_place tree.now }
{
    match tree.modules.as_slice() {
        [first, ..] => first.at,
        [] => Place { line: 1, col: 1 },
    }
}

/// How many branches there are, where their arms took the sites from `first` on and `next` is the next one.
fn branch_count(first: u32, next: u32) -> u32
    requires { first ≤ next }
    ensures half { result ≡ (next - first) / 2 }
    ensures few { first + 2 * result < 2 ^ 32 }
{
    (next - first) / 2
}

/// The processes of items with this number of assignments, and the number of their branches. None where they assign another net than a
/// register, a body isn't built, or the registers aren't driven by one process each. The error is that memory ran out, or that there would be 2^32 sites or more.
fn driven_processes(
    alloc: Global,
    clock_name: &Name,
    nets: &[Net],
    clock: Bit,
    items: &[Item],
    statements: u32,
) -> Result<Option<(Items<Process>, u32)>, AllocError>
    requires distinct { AreDistinct (names_of nets.now) }
    requires counted { statements ≡ sum_over assignments_in items.now }
    ensures { IfOk result (λ o. MatchOption o ((ps : List Process) → AreProcesses clock_name.now nets.now clock items.now ps → ⊥)
        (λ x. AreProcesses clock_name.now nets.now clock items.now x.0 × (x.1 ≡ sum_over branches_in items.now) × (statements + 2 * x.1 < 2 ^ 32))) }
{
    if !are_assignable(alloc, nets, items)? {
        return Ok(None);
    }
    let scope = scope(alloc, clock_name, nets)?;
    let mut numbers = Numbers {
        site: 0,
        arm: statements,
    };
    let Some(processes) = processes(alloc, &scope, clock, items, &mut numbers)? else {
        return Ok(None);
    };
    let registers = registers(alloc, nets)?;
    if !is_driven(alloc, processes.as_slice(), registers.as_slice())? {
        return Ok(None);
    }
    Ok(Some((processes, branch_count(statements, numbers.arm))))
}

/// The design over nets, with these processes and sites.
fn design(
    alloc: Global,
    path: &Name,
    clock_name: &Name,
    nets: &[Net],
    clock: Bit,
    processes: Items<Process>,
    sites: Items<Site>,
) -> Result<Design, AllocError>
    ensures { IfOk result (λ d. d ≡ record {
      bits = each_of (info_of path.now) nets.now;
      declared = each_of (declared_of path.now) nets.now;
      inputs = bits_where (is_data_input clock_name.now) nets.now;
      clock = clock;
      registers = bits_where is_register nets.now;
      processes = processes;
      sites = sites;
    }) }
{
    Ok(Design {
        bits: bits(alloc, path, nets)?,
        declared: declared(alloc, path, nets)?,
        inputs: inputs(alloc, clock_name, nets)?,
        clock,
        registers: registers(alloc, nets)?,
        processes,
        sites,
    })
}

/// The nets of a module, or none where it isn't the top or has ports that aren't built, or where an input is held.
fn module_nets(
    alloc: Global,
    source: &Module,
    setup: &Setup,
) -> Result<Option<Items<Net>>, AllocError>
    ensures { IfOk result (λ o. MatchOption o ((nets : List Net) → AreNetsOf source.now setup.now nets → ⊥) (λ nets. AreNetsOf source.now setup.now nets)) }
{
    if source.name.name != setup.top {
        return Ok(None);
    }
    if !setup.hold.is_empty() {
        return Ok(None);
    }
    let Some(nets) = nets(alloc, source.ports.as_slice())? else {
        return Ok(None);
    };
    if !are_distinct(alloc, nets.as_slice())? {
        return Ok(None);
    }
    Ok(Some(nets))
}

/// The design of a module with these nets, of which this bit is the clock, and this number of assignments.
fn clocked_design(
    alloc: Global,
    source: &Module,
    setup: &Setup,
    nets: &[Net],
    clock: Bit,
    statements: u32,
) -> Result<Option<Design>, AllocError>
    requires nets { AreNetsOf source.now setup.now nets.now }
    requires clock { (n : Net) × IsClock setup.now.clock nets.now n × (clock ≡ n.vector.first) }
    requires clocked { All (IsClockedBy setup.now.clock) source.now.items }
    requires counted { statements ≡ sum_over assignments_in source.now.items }
    requires few { statements ≤ 65536 }
    ensures { IfOk result (λ o. MatchOption o ((d : Design) → IsModuleDesign source.now setup.now d → ⊥)
        (λ d. IsModuleDesign source.now setup.now d × (length d.sites < 2 ^ 32))) }
{
    let driven = driven_processes(
        alloc,
        &setup.clock,
        nets,
        clock,
        source.items.as_slice(),
        statements,
    )?;
    let Some((processes, branches)) = driven else {
        return Ok(None);
    };
    let path = &source.name.name;
    let sites = sites(alloc, path, statements, branches)?;
    let design = design(alloc, path, &setup.clock, nets, clock, processes, sites)?;
    Ok(Some(design))
}

/// The design of a module with these nets, or none where it has none.
fn flatten_nets(
    alloc: Global,
    source: &Module,
    setup: &Setup,
    nets: &[Net],
) -> Result<Option<Design>, AllocError>
    requires { AreNetsOf source.now setup.now nets.now }
    ensures { IfOk result (λ o. MatchOption o ((d : Design) → IsModuleDesign source.now setup.now d → ⊥)
        (λ d. IsModuleDesign source.now setup.now d × (length d.sites < 2 ^ 32))) }
{
    let Some(clock) = clock_bit(&setup.clock, nets) else {
        return Ok(None);
    };
    let items = source.items.as_slice();
    if !are_clocked_by(&setup.clock, items) {
        return Ok(None);
    }
    let Some(statements) = statement_count(items) else {
        return Ok(None);
    };
    clocked_design(alloc, source, setup, nets, clock, statements)
}

/// The design of a module, or none where it has none. Want of memory is answered also where it has 2^32 sites or more.
fn flatten_module(
    alloc: Global,
    source: &Module,
    setup: &Setup,
) -> Result<Option<Design>, AllocError>
    ensures { IfOk result (λ o. MatchOption o ((d : Design) → IsModuleDesign source.now setup.now d → ⊥)
        (λ d. IsModuleDesign source.now setup.now d × (length d.sites < 2 ^ 32))) }
{
    let Some(nets) = module_nets(alloc, source, setup)? else {
        return Ok(None);
    };
    flatten_nets(alloc, source, setup, nets.as_slice())
}

/// The design of a text's tree under a setup. The time is linear in the tree, names being found by their hash.
pub fn flatten(alloc: Global, tree: &Tree, setup: &Setup) -> Result<Design, FlatError>
    ensures { Flattens tree.now setup.now result }
{
    let at = first_token(tree);
    let modules = tree.modules.as_slice();
    if modules.len() != 1 {
        return Err(FlatError::NotBuilt { at });
    }
    match flatten_module(alloc, &modules[0], setup)? {
        Some(design) => Ok(design),
        None => Err(FlatError::NotBuilt { at }),
    }
}

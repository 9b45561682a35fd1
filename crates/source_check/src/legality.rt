// The designs of texts are legal.

ghost use Rattle.source_check.specs.Legal.{Elaborates};

use crate::error::SourceError;
use design_core::legal::Legal;
use design_core::setup::Setup;
use elab_flat::flatten;
use plain_blast::cost;
use sqlite_items::Items;
use std::alloc::Global;
use vlog_syntax::Tree;

/// The most that a design may cost.
const COST_LIMIT: u64 = 4_194_304;

/// The legal design of a text's tree under a setup. It has no combinational processes, so none to put in order.
pub fn elaborate(alloc: Global, tree: &Tree, setup: &Setup) -> Result<Legal, SourceError>
    ensures { Elaborates tree.now setup.now result }
{
    let design = flatten(alloc, tree, setup)?;
    let cost = cost(alloc, &design)?;
    if cost > COST_LIMIT {
        return Err(SourceError::CostOver { cost });
    }
    Ok(Legal::make(design, Items::new(alloc)))
}

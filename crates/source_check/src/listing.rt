// The cover points of the design of a text.

ghost use Rattle.std.specs.Prelude.{◌≤◌, ◌^◌, length};
ghost use Rattle.source_check.specs.Legal.{ListsPoints};

use crate::error::SourceError;
use cover_points::{Point, PointError, points};
use design_core::flat::Design;
use design_core::legal::Legal;
use design_core::setup::Setup;
use sqlite_items::Items;
use std::alloc::Global;

/// A legal design and its cover points.
#[derive(Drop)]
pub struct Front {
    pub legal: Legal,
    pub points: Items<Point>,
}

/// The cover points of a design, of the kinds that the setup names, in their order.
pub fn listed(alloc: Global, design: &Design, setup: &Setup) -> Result<Items<Point>, SourceError>
    requires { length design.now.sites ≤ 2 ^ 32 }
    ensures { ListsPoints design.now setup.now result }
{
    match points(alloc, design, setup) {
        Ok(points) => Ok(points),
        Err(PointError::Memory) => Err(SourceError::Memory),
        Err(error) => Err(SourceError::Points(error)),
    }
}

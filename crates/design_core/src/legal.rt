// Legal designs.

ghost use Rattle.std.specs.Prelude.{◌≡◌};
ghost use Rattle.design_core.specs.Legality.{IsLegal};

use crate::flat::Design;
use sqlite_items::Items;
use std::marker::Model;

/// A legal design, with an order of its combinational processes, by their numbers, in which each reads only what is known by then.
#[derive(Drop)]
pub struct Legal {
    design: Design,
    order: Items<u32>,
}

impl Model for Legal {
    ghost use Rattle.design_core.specs.Legality.{IsLegal};
    ghost use Rattle.design_core.specs.Ordered.{Ordered, ordered_code};

    ghost Value = { Ordered };

    ghost coded = { ordered_code };

    ghost view = { λ l. record { design = l.design; order = l.order } };

    ghost invariant = { λ l. IsLegal l.design l.order };
}

impl Legal {
    /// The design with this order.
    pub fn make(design: Design, order: Items<u32>) -> Legal
        requires { IsLegal design order }
        ensures design { result.design ≡ design }
        ensures order { result.order ≡ order }
    {
        Legal { design, order }
    }

    /// The design.
    pub fn design(&self) -> &Design
        ensures design { result.now ≡ self.now.design }
        ensures legal { IsLegal result.now self.now.order }
    {
        &self.design
    }

    /// The numbers of the combinational processes, in their order.
    pub fn order(&self) -> &[u32]
        ensures { result.now ≡ self.now.order }
    {
        self.order.as_slice()
    }
}

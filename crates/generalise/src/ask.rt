//! Queries about frames.
ghost use Rattle.std.specs.Prelude.{◌≡◌, List, IfOk};
ghost use Rattle.bit_system.specs.declared.ladder.Lemma.{Lemma as FrameLemma};
ghost use Rattle.bit_system.specs.Machine.{Machine};
ghost use Rattle.generalise.specs.Cubes.{HasBits};
ghost use Rattle.generalise.specs.Effort.{Uses};
ghost use Rattle.generalise.specs.Frames.{IsLevel, IsTruth};

use crate::cube::Cube;
use crate::units::Units;
use bit_system::{Depth, Memory};

/// Answers whether steps of a system lead into a cube. Its meanings are that system and the lemmas that
/// make the frames.
pub trait Ask {
    ghost machine: { Self → Machine };

    ghost frames: { Self → List FrameLemma };

    /// Whether the cube is blocked at this level: no step leads into it from a state outside it that lies in
    /// the frame of the level before. There is no answer only where the effort is used.
    fn step_blocks(
        &mut self,
        cube: &Cube,
        level: Depth,
        units: &mut Units,
    ) -> Result<Option<bool>, Memory>
        requires level { IsLevel level }
        requires cube { HasBits (machine self.old) cube.now }
        ensures truth { IfOk result (λ a. IsTruth (machine self.old) (frames self.old) level cube.now units.new a) }
        ensures machine { machine self.new ≡ machine self.old }
        ensures frames { frames self.new ≡ frames self.old }
        ensures uses { Uses units.old units.new };
}

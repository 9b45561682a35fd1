//! Proofs, as lists of lines.

ghost use Rattle.std.specs.Prelude.{◌≡◌, [], ◌∷◌, ◌++◌, OnOk, OnErr, map};
ghost use Rattle.bit_system.specs.ProofLines.{seen};

use cnf_core::Line;
use sqlite_items::Items;
use std::alloc::{AllocError, Global};
use std::marker::Model;

/// The lines of a proof. Contracts see the list of what they say.
#[derive(Drop)]
pub struct Proof {
    lines: Items<Line>,
}

impl Model for Proof {
    ghost use Rattle.std.specs.Prelude.{List, map};
    ghost use Rattle.bit_system.specs.ProofLines.{ProofLine, seen};

    ghost Value = { List ProofLine };

    ghost view = { λ p. map seen p.lines };
}

impl Proof {
    /// A proof without lines.
    pub fn new(alloc: Global) -> Proof
        ensures { result ≡ [] }
    {
        Proof {
            lines: Items::new(alloc),
        }
    }

    /// Takes one more line. The error is that memory ran out.
    pub fn push(&mut self, line: Line) -> Result<(), AllocError>
        ensures ok { OnOk result (self.new ≡ self.old ++ seen line ∷ []) }
        ensures err { OnErr result (self.new ≡ self.old) }
    {
        self.lines.push(line)
    }

    /// The lines, in order.
    pub fn lines(&self) -> &[Line]
        ensures { map seen result.now ≡ self.now }
    {
        self.lines.as_slice()
    }
}

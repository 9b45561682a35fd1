use std::alloc::AllocError;
use word_core::{Name, Place};

/// Why tokens are not those of a tree.
#[derive(Debug, Drop)]
pub enum ParseError {
    /// Nothing of the grammar begins with the tokens up to the one at this place, or, behind the last one,
    /// the tokens end too early. The name says what was expected.
    Expected { at: Place, what: Name },
    /// The same, and the token at this place is a word that the grammar leaves out.
    NotInProfile { at: Place },
    /// More than 256 levels are needed from the token at this place on: something of the grammar begins with
    /// the tokens up to it, and nothing of at most 256 levels does.
    TooDeep { at: Place },
    /// Memory ran out.
    Memory,
}

impl From<AllocError> for ParseError {
    ghost use Rattle.std.specs.Prelude.{◌≡◌};
    ghost use Rattle.vlog_expr.specs.declared.error.ParseError.TheVariants.{Memory};

    ghost from_gives = { λ _ e. e ≡ Memory };

    fn from(_: AllocError) -> ParseError {
        ParseError::Memory
    }
}

ghost use Rattle.std.specs.Prelude.{◌≡◌};
ghost use Rattle.vlog_tokens.specs.declared.error.LexError.TheVariants.{Memory};

use std::alloc::AllocError;
use thiserror::Error;
use word_core::Place;

/// Why a text does not divide into tokens: the first place from which it can't be read on.
#[derive(Clone, Copy, Debug, PartialEq, Eq, Error)]
pub enum LexError {
    /// The first backquote outside comments. Directives are not read.
    #[error("a directive")]
    BadDirective { at: Place },
    /// A byte at which no token begins.
    #[error("no token begins with this byte")]
    BadChar { at: Place },
    /// A number with a digit `x` or `X`, a size outside 1 to 128, or a value that is too large.
    #[error("a number outside the limits")]
    BadNumber { at: Place },
    /// A comment or an attribute that has no end.
    #[error("a comment or an attribute without its end")]
    Unclosed { at: Place },
    /// Memory ran out.
    #[error("memory ran out")]
    Memory,
}

impl From<AllocError> for LexError {
    ghost from_gives = { λ _ e. e ≡ Memory };

    fn from(_: AllocError) -> Self {
        LexError::Memory
    }
}

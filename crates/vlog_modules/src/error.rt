use std::alloc::AllocError;
use vlog_expr::ParseError;
use vlog_tokens::LexError;

/// Why a text has no tree. The variants are tested in this order.
#[derive(Debug, Drop)]
pub enum TextError {
    /// It has more than 4,194,304 bytes. The length is 4,194,305 then, however long it is.
    TooLong { length: u64 },
    /// It does not divide into tokens. Never for want of memory.
    Lex(LexError),
    /// Its tokens are refused. Never for want of memory.
    Parse(ParseError),
    /// Memory ran out.
    Memory,
}

impl From<AllocError> for TextError {
    ghost use Rattle.std.specs.Prelude.{◌≡◌};
    ghost use Rattle.vlog_modules.specs.declared.error.TextError.TheVariants.{Memory};

    ghost from_gives = { λ _ e. e ≡ Memory };

    fn from(_: AllocError) -> TextError {
        TextError::Memory
    }
}

// What stands between neighbours.

ghost use Rattle.std.specs.Prelude.{◌≡◌, OnOk};
ghost use Rattle.token_text.specs.Printing.{with_tokens};
ghost use Rattle.tree_text.specs.Words.{before};

use std::alloc::AllocError;
use token_text::TokenText;

/// Writes what separates a part from the one before it, which the first has not.
#[tactic(auto, using(crate::proofs::Writing::writing))]
pub fn write_separator(out: &mut TokenText, is_first: bool, text: &[u8]) -> Result<(), AllocError>
    ensures { OnOk result (out.new ≡ with_tokens out.old (before text.now is_first)) }
{
    if is_first {
        return Ok(());
    }
    out.push(text)?;
    Ok(())
}

ghost use Rattle.std.specs.Prelude.{◌≡◌, IfOk, List, ℕ, Ok};
ghost use Rattle.token_text.specs.Printing.{printed};
ghost use Rattle.token_text.specs.Again.{DividesInto};
ghost use Rattle.vlog_modules.specs.Answers.{TextAnswers};
ghost use Rattle.tree_text.specs.Words.{words_of};
ghost use Rattle.tree_text.specs.Again.{ReadsAgain};

use crate::modules::write_modules;
use std::alloc::{AllocError, Global};
use token_text::TokenText;
use vlog_syntax::Tree;

/// The tree, written.
fn written(alloc: Global, tree: &Tree) -> Result<Vec<u8>, AllocError>
    ensures { IfOk result (λ bytes. bytes.items ≡ printed (words_of tree.now)) }
{
    let mut out = TokenText::new(alloc);
    write_modules(&mut out, tree.modules.as_slice())?;
    Ok(out.into_bytes())
}

/// The text of a tree: its tokens, with one space between neighbours, and a line feed in its place behind each `;` and `endmodule`.
/// Of the tree of a text these are the text's tokens, and what is written has the same tree again, but for places, unless it is too long to be read.
/// The time is linear in the tree and its names. The error is that memory ran out.
pub fn print_tree(alloc: Global, tree: &Tree) -> Result<Vec<u8>, AllocError>
    ensures bytes { IfOk result (λ bytes. bytes.items ≡ printed (words_of tree.now)) }
    ensures words { (text : List ℕ) → TextAnswers text (Ok tree.now) → DividesInto text (words_of tree.now) }
    ensures again { (text : List ℕ) → TextAnswers text (Ok tree.now) → IfOk result (λ bytes. ReadsAgain bytes.items tree.now) }
{
    written(alloc, tree)
}

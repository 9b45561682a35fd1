// The tree of a text, with want of memory as one answer.

ghost use Rattle.source_check.specs.Checking.{ReadsText};

use crate::error::SourceError;
use std::alloc::Global;
use vlog_modules::{TextError, parse};
use vlog_syntax::Tree;

/// The tree of a text.
pub fn tree_of(alloc: Global, text: &[u8]) -> Result<Tree, SourceError>
    ensures { ReadsText text.now result }
{
    match parse(alloc, text) {
        Ok(tree) => Ok(tree),
        Err(TextError::Memory) => Err(SourceError::Memory),
        Err(error) => Err(SourceError::Text(error)),
    }
}

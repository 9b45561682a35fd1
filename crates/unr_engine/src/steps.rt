// What every command is made of: a file that is loaded, a file that is stored, and a text that is put out.
ghost use Rattle.std.specs.Prelude.{◌≡◌, ◌++◌, IfOk, string_bytes};
ghost use Rattle.unr_engine.specs.Ends.{ending_text};
ghost use Rattle.unr_engine.specs.Steps.{Fetched, Kept, Delivers};

use crate::stop::{Ending, Stop, ending_text};
use std::alloc::{AllocError, Global};
use unr_io::{Desk, DeskError, Sink, SinkError};

/// The file's first `most` bytes, or all where there are fewer.
pub fn fetch<'a, D: Desk>(desk: &mut D, name: &'a str, most: u64) -> Result<Vec<u8>, Stop<'a>>
    ensures { Fetched name.now most result (D.state desk.old) (D.state desk.new) }
{
    match desk.load(name, most) {
        Ok(bytes) => Ok(bytes),
        Err(DeskError::Failed) => Err(Stop::NotLoaded { name }),
        Err(DeskError::Memory) => Err(Stop::Memory),
    }
}

// The name of a file that is stored.
fn stored_name(alloc: Global, prefix: &str, ending: Ending) -> Result<String, AllocError>
    ensures { IfOk result (λ name. string_bytes name ≡ prefix.now ++ ending_text ending) }
{
    let mut name = String::from_str(alloc, prefix)?;
    name.push_str(ending_text(ending))?;
    Ok(name)
}

/// Makes the file whose name is the prefix with that ending hold these bytes.
pub fn keep<'a, D: Desk>(
    alloc: Global,
    desk: &mut D,
    prefix: &'a str,
    ending: Ending,
    bytes: &[u8],
) -> Result<(), Stop<'a>>
    ensures { Kept (prefix.now ++ ending_text ending) bytes.now result (D.state desk.old) (D.state desk.new) }
{
    let name = stored_name(alloc, prefix, ending)?;
    match desk.store(name.as_str(), bytes) {
        Ok(()) => Ok(()),
        Err(DeskError::Failed) => Err(Stop::NotStored { prefix, ending }),
        Err(DeskError::Memory) => Err(Stop::Memory),
    }
}

/// Puts the text on the output.
pub fn deliver<'a, O: Sink>(out: &mut O, text: &[u8]) -> Result<(), Stop<'a>>
    ensures { Delivers text.now result (O.state out.old) (O.state out.new) }
{
    match out.put(text) {
        Ok(()) => Ok(()),
        Err(SinkError::Failed) => Err(Stop::Output),
        Err(SinkError::Memory) => Err(Stop::Memory),
    }
}

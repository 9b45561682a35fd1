// From words to a command.
ghost use Rattle.unr_engine.specs.Words.{texts};
ghost use Rattle.unr_engine.specs.Requests.{ReadsAs, command_of, check_of, prove_of, prove_given, givens_are};

use crate::options::{Givens, effort_of, givens_of, is_option, kinds_given, no_prelude, once};
use design_core::setup::Kinds;

/// A command, in the words that name it.
#[derive(Clone, Copy)]
pub enum Request<'a> {
    Check {
        file: &'a str,
        cert: &'a str,
    },
    Prove {
        file: &'a str,
        top: &'a str,
        clock: &'a str,
        prefix: &'a str,
        /// The kinds of points that are proved.
        kinds: Kinds,
        /// How many units each point may take.
        effort: u64,
    },
}

// The words after `check`.
fn check_of(words: &[String]) -> Option<Request<'_>>
    ensures { ReadsAs (check_of (texts words.now)) result }
{
    let (file, rest) = words.split_first()?;
    let (cert, rest) = rest.split_first()?;
    let (file, cert) = (file.as_str(), cert.as_str());
    match rest.split_first() {
        None if !is_option(file) && !is_option(cert) => Some(Request::Check { file, cert }),
        _ => None,
    }
}

fn prove_given<'a>(givens: Givens<'a>) -> Option<Request<'a>>
    ensures { ReadsAs (prove_given (givens_are givens.entry)) result }
{
    if !no_prelude(givens.cycles) {
        return None;
    }
    let file = once(givens.file)?;
    let top = once(givens.top)?;
    let clock = once(givens.clock)?;
    let prefix = once(givens.out)?;
    let kinds = kinds_given(givens.points)?;
    let effort = effort_of(givens.effort)?;
    Some(Request::Prove {
        file,
        top,
        clock,
        prefix,
        kinds,
        effort,
    })
}

// The words after `prove`.
fn prove_of(words: &[String]) -> Option<Request<'_>>
    ensures { ReadsAs (prove_of (texts words.now)) result }
{
    prove_given(givens_of(words)?)
}

/// The command that the words name.
pub fn request_of(words: &[String]) -> Option<Request<'_>>
    ensures { ReadsAs (command_of (texts words.now)) result }
{
    let (name, rest) = words.split_first()?;
    match name.as_str() {
        "check" => check_of(rest),
        "prove" => prove_of(rest),
        _ => None,
    }
}

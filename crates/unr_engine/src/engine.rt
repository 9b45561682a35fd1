// The whole of a run: the words, the command that they name, the message and the status.
ghost use Rattle.std.specs.Prelude.{◌≡◌, ◌≢◌, ◌⊎◌, ◌↔◌, List, ℕ, Result};
ghost use Rattle.unr_io.specs.Desk.{Tells, Rose};
ghost use Rattle.vlog_modules.specs.declared.error.TextError.{TextError};
ghost use Rattle.vlog_modules.specs.Answers.{TextAnswers};
ghost use Rattle.source_check.specs.declared.error.SourceError.{SourceError};
ghost use Rattle.source_check.specs.declared.listing.Front.{Front};
ghost use Rattle.source_check.specs.Checking.{FrontAnswers};
ghost use Rattle.text_prover.specs.Proving.{setup_of};
ghost use Rattle.unr_engine.specs.Ends.{End, Done, end_of};
ghost use Rattle.unr_engine.specs.Messages.{message_of};
ghost use Rattle.unr_engine.specs.Outcome.{Ran, Ended, Says, Outcome};
ghost use Rattle.unr_engine.specs.Promises.{Accepts, Rejects, HasText, HaveBytes, Deserve, Agree, Proves, ProofRefused, Fits, ListComesLast, MakesCalls, Blames, PutsPart, FilesStay, OthersStay};
ghost use Rattle.unr_engine.specs.Requests.{CanRun, meaning};
ghost use Rattle.unr_engine.specs.Statuses.{text_status, status_of};
ghost use Rattle.design_core.specs.declared.setup.Kinds.{Kinds};
ghost use Rattle.unr_engine.specs.Words.{Command, Check_files, Prove_file, Names, NamesNothing, texts};

use crate::check::check_files;
use crate::messages::say_stop;
use crate::prove::prove_file;
use crate::stop::{Stop, stop_status};
use crate::words::{Request, request_of};
use std::alloc::Global;
use unr_io::{Desk, Sink};

// Runs a command.
fn perform<'a, D: Desk, O: Sink>(
    alloc: Global,
    request: Request<'a>,
    desk: &mut D,
    out: &mut O,
) -> Result<bool, Stop<'a>>
    requires { CanRun (meaning request) }
    ensures { Ran (meaning request.entry) (end_of result) (D.state desk.old) (D.state desk.new) (O.state out.old) (O.state out.new) }
{
    match request {
        Request::Check { file, cert } => check_files(alloc, file, cert, desk, out),
        Request::Prove {
            file,
            top,
            clock,
            prefix,
            kinds,
            effort,
        } => prove_file(alloc, file, top, clock, prefix, kinds, effort, desk, out),
    }
}

// Does what the words say.
fn obey<'a, D: Desk, O: Sink>(
    alloc: Global,
    words: &'a [String],
    desk: &mut D,
    out: &mut O,
) -> Result<bool, Stop<'a>>
    ensures { Ended (texts words.now) (end_of result) (D.state desk.old) (D.state desk.new) (O.state out.old) (O.state out.new) }
{
    match request_of(words) {
        None => Err(Stop::Words),
        Some(request) => perform(alloc, request, desk, out),
    }
}

fn done_status(left_open: bool) -> u8
    ensures { result ≡ status_of (Done left_open) }
{
    if left_open { 1 } else { 0 }
}

// Says on the error output how the run ended, and gives its status.
fn conclude<E: Sink>(err: &mut E, ended: Result<bool, Stop<'_>>) -> u8
    ensures status { result ≡ status_of (end_of ended.entry) }
    ensures says { Says (message_of (end_of ended.entry)) (E.state err.old) (E.state err.new) }
{
    match ended {
        Ok(left_open) => done_status(left_open),
        Err(stop) => {
            let _ = say_stop(err, &stop);
            stop_status(&stop)
        }
    }
}

/// Runs the command that the words name, and answers the status with which the program ends.
///
/// The words leave out the program's name. Status 7, want of memory, may come at any place.
pub fn run<D: Desk, O: Sink, E: Sink>(
    alloc: Global,
    words: &[String],
    desk: &mut D,
    out: &mut O,
    err: &mut E,
) -> u8
    // Status 2 is for words that name no command. Then nothing is loaded or stored, and nothing is put out.
    ensures words { (result ≡ 2) ↔ NamesNothing (texts words.now) }
    ensures untouched { result ≡ 2 → (D.state desk.new ≡ D.state desk.old) × (O.state out.new ≡ O.state out.old) }

    // `check` ends with 0 only where CERT's certificate is accepted for FILE's text. Then each claim is true of the text, in every order of its processes.
    ensures accepts { (file cert : List ℕ) → Names (texts words.now) (Check_files file cert) → result ≡ 0 → Accepts file cert (D.state desk.old) (O.state out.old) (O.state out.new) }

    // It ends with 4 or 5 only where their bytes are refused with that status: the text, or the certificate.
    ensures rejects { (file cert : List ℕ) → Names (texts words.now) (Check_files file cert) → (result ≡ 4) ⊎ (result ≡ 5) → Rejects file cert result (D.state desk.old) (E.state err.old) (E.state err.new) }

    // Where no count rose, the status is the one that the bytes deserve, or that of want of memory.
    ensures exact { (file cert text spelling : List ℕ) (deserved : ℕ) → Names (texts words.now) (Check_files file cert) → HaveBytes (D.state desk.old).told file cert text spelling → Deserve text spelling deserved → (Rose (D.state desk.old).faults (D.state desk.new).faults → ⊥) → (Rose (O.state out.old).faults (O.state out.new).faults → ⊥) → Agree result deserved }

    // Where FILE's text is refused, that decides, whatever CERT is.
    ensures text_first { (file cert text : List ℕ) (error : TextError) → Names (texts words.now) (Check_files file cert) → HasText (D.state desk.old).told file text → TextAnswers text (Err error) → (Rose (D.state desk.old).faults (D.state desk.new).faults → ⊥) → (Rose (O.state out.old).faults (O.state out.new).faults → ⊥) → Agree result (text_status error) }

    // `prove` ends with 0 or 1 only where it has one claim for each point of FILE's text that is true in every order of its processes, and stored and put out what it says of them. It ends with 1 exactly where one of them is open.
    ensures proves { (file top clock prefix : List ℕ) (kinds : Kinds) (effort : ℕ) → Names (texts words.now) (Prove_file file top clock prefix kinds effort) → (result ≡ 0) ⊎ (result ≡ 1) → Proves file top clock prefix kinds effort result (D.state desk.old) (D.state desk.new) (O.state out.old) (O.state out.new) }

    // It ends with 4 only where FILE's text is refused, or its design, and never with 5. No other command ends with 1.
    ensures refuses { (file top clock prefix : List ℕ) (kinds : Kinds) (effort : ℕ) → Names (texts words.now) (Prove_file file top clock prefix kinds effort) → result ≡ 4 → ProofRefused file top clock prefix kinds effort result (D.state desk.old) (E.state err.old) (E.state err.new) }
    ensures never_five { (file top clock prefix : List ℕ) (kinds : Kinds) (effort : ℕ) → Names (texts words.now) (Prove_file file top clock prefix kinds effort) → result ≢ 5 }
    ensures only_prove { (file cert : List ℕ) → Names (texts words.now) (Check_files file cert) → result ≢ 1 }

    // Where no count rose, its status fits what is answered of the text: 0 or 1 for its points, else that of the refusal; or that of want of memory.
    ensures fits { (file top clock prefix text : List ℕ) (kinds : Kinds) (effort : ℕ) (answer : Result Front SourceError) → Names (texts words.now) (Prove_file file top clock prefix kinds effort) → HasText (D.state desk.old).told file text → FrontAnswers text (setup_of top clock kinds) answer → (Rose (D.state desk.old).faults (D.state desk.new).faults → ⊥) → (Rose (O.state out.old).faults (O.state out.new).faults → ⊥) → Fits answer result }

    // No byte of the exclusion list is stored before the certificate is stored whole.
    ensures list_last { (file top clock prefix : List ℕ) (kinds : Kinds) (effort : ℕ) → Names (texts words.now) (Prove_file file top clock prefix kinds effort) → Tells (D.state desk.old).told (D.state desk.new).told (ListComesLast file top clock prefix kinds effort) }

    // Status 3 comes only where the desk or the output failed in this call.
    ensures fault { result ≡ 3 → Rose (D.state desk.old).faults (D.state desk.new).faults ⊎ Rose (O.state out.old).faults (O.state out.new).faults }

    // Its message names the file of the last call, which failed, or the output.
    ensures blames { (command : Command) → Names (texts words.now) command → result ≡ 3 → Blames command (D.state desk.old) (D.state desk.new) (O.state out.old) (O.state out.new) (E.state err.old) (E.state err.new) }

    // `check` writes no file, and `prove` none but the two that it names. Where the words or the files are refused, nothing is stored.
    ensures files { (file cert : List ℕ) → Names (texts words.now) (Check_files file cert) → Tells (D.state desk.old).told (D.state desk.new).told FilesStay }
    ensures others { (command : Command) → Names (texts words.now) command → Tells (D.state desk.old).told (D.state desk.new).told (OthersStay command) }
    ensures unstored { (result ≡ 2) ⊎ ((result ≡ 4) ⊎ (result ≡ 5)) → Tells (D.state desk.old).told (D.state desk.new).told FilesStay }

    // The desk is asked for what the words name alone, in order, and for nothing after a call that failed.
    ensures calls { (command : Command) → Names (texts words.now) command → Tells (D.state desk.old).told (D.state desk.new).told (MakesCalls command result) }

    // Where the words or the files are refused nothing is put out, and after a fault or for want of memory a front of the text at most.
    ensures silent { (result ≡ 2) ⊎ ((result ≡ 4) ⊎ (result ≡ 5)) → (O.state out.new).written ≡ (O.state out.old).written }
    ensures part { (command : Command) → Names (texts words.now) command → PutsPart command (D.state desk.old) (O.state out.old) (O.state out.new) }

    // The error output gets nothing at status 0 and 1, else the one line of the message, or a front of it where one of its counts rose.
    ensures message { (end : End) × (result ≡ status_of end) × Says (message_of end) (E.state err.old) (E.state err.new) }
    ensures quiet { (result ≡ 0) ⊎ (result ≡ 1) → (E.state err.new).written ≡ (E.state err.old).written }

    // And how the run ends, from which the clauses above follow.
    ensures outcome { Outcome (texts words.now) result (D.state desk.old) (D.state desk.new) (O.state out.old) (O.state out.new) (E.state err.old) (E.state err.new) }
{
    let ended = obey(alloc, words, desk, out);
    conclude(err, ended)
}

// Sinks of proof lines: one that keeps them, and one that drops them.
ghost use Rattle.std.specs.Prelude.{◌≡◌, ℕ, List, Some, None, [], IfOk};
ghost use Rattle.cnf_core.specs.declared.Line.{Line};
ghost use Rattle.proof_lines.specs.Sinks.{SinkState, IsAddition, IsDeletion, Takes};

use crate::write::{put_addition, put_deletion};
use cnf_core::{Hints, Line, Lit, Memory};
use std::alloc::Global;
use unr_io::{Sink, SinkError};

pub trait ProofSink {
    /// How often it has failed, and, where it tells them, the lines so far.
    ghost state: { Self → SinkState };

    /// Takes a clause that follows from those before it, with the clauses that show it.
    fn add(&mut self, id: u64, lits: &[Lit], hints: &[u64]) -> Result<(), SinkError>
        ensures { Takes (IsAddition id lits.now hints.now) result (state self.old) (state self.new) };

    /// Takes the numbers of clauses that are not used from here on.
    fn delete(&mut self, id: u64, ids: &[u64]) -> Result<(), SinkError>
        ensures { Takes (IsDeletion id ids.now) result (state self.old) (state self.new) };
}

/// Drops the lines, and never refuses one.
#[derive(Drop)]
pub struct NoSink;

impl ProofSink for NoSink {
    ghost use Rattle.proof_lines.specs.Sinks.{SinkState, silent};

    ghost state = { λ _. silent };

    fn add(&mut self, _id: u64, _lits: &[Lit], _hints: &[u64]) -> Result<(), SinkError> {
        Ok(())
    }

    fn delete(&mut self, _id: u64, _ids: &[u64]) -> Result<(), SinkError> {
        Ok(())
    }
}

/// Keeps the lines.
#[derive(Drop)]
pub struct KeepSink {
    alloc: Global,
    lines: Vec<Line>,
}

impl KeepSink {
    ghost use Rattle.proof_lines.specs.Kept.{kept_state};

    pub fn make(alloc: Global) -> Self
        ensures { kept_state result ≡ record { faults = 0; told = Some [] } }
    {
        KeepSink {
            alloc,
            lines: Vec::new(alloc),
        }
    }

    pub fn lines(&self) -> &[Line]
        ensures { kept_state self.now ≡ record { faults = 0; told = Some result.now } }
    {
        &self.lines
    }
}

fn copy_hints(alloc: Global, hints: &[u64]) -> Result<Hints, Memory>
    ensures { IfOk result (λ h. h.items ≡ hints.now) }
{
    Hints::from_slice(alloc, hints)
}

impl ProofSink for KeepSink {
    ghost use Rattle.proof_lines.specs.Kept.{kept_state};

    ghost state = { kept_state };

    fn add(&mut self, id: u64, lits: &[Lit], hints: &[u64]) -> Result<(), SinkError> {
        let line = Line::Add {
            id,
            lits: lits.to_vec(self.alloc)?,
            hints: copy_hints(self.alloc, hints)?,
        };
        self.lines.push(line)?;
        Ok(())
    }

    fn delete(&mut self, id: u64, ids: &[u64]) -> Result<(), SinkError> {
        let line = Line::Delete {
            id,
            ids: copy_hints(self.alloc, ids)?,
        };
        self.lines.push(line)?;
        Ok(())
    }
}

/// Writes each line as text into a sink of bytes: LRAT, without RAT. It tells no lines.
///
/// The text of a line is made whole before it is put, in a buffer that is used again for the next line.
#[derive(Drop)]
pub struct TextSink<S> {
    sink: S,
    text: Vec<u8>,
}

impl<S: Sink> TextSink<S> {
    ghost use Rattle.proof_lines.specs.TextSinks.{sink_behind};

    pub fn make(alloc: Global, sink: S) -> Self
        ensures { sink_behind result ≡ sink }
    {
        TextSink {
            sink,
            text: Vec::new(alloc),
        }
    }

    /// The sink of bytes, with the lines so far.
    pub fn close(self) -> S
        ensures { result ≡ sink_behind self }
    {
        let TextSink { sink, text: _ } = self;
        sink
    }
}

impl<S: Sink> ProofSink for TextSink<S> {
    ghost use Rattle.line_text.specs.Lines.{line_text};
    ghost use Rattle.proof_lines.specs.Spelling.{addition_words, deletion_words};
    ghost use Rattle.proof_lines.specs.Texts.{silent_over, Writes};
    ghost use Rattle.proof_lines.specs.TextSinks.{sink_behind};

    ghost state = { λ t. silent_over (S.state (sink_behind t)) };

    fn add(&mut self, id: u64, lits: &[Lit], hints: &[u64]) -> Result<(), SinkError>
        ensures takes { Takes (IsAddition id lits.now hints.now) result (silent_over (S.state (sink_behind self.old))) (silent_over (S.state (sink_behind self.new))) }

        // The line's text was appended, or after an error a front of it.
        ensures writes { Writes (line_text (addition_words id lits.now hints.now)) result (S.state (sink_behind self.old)) (S.state (sink_behind self.new)) }
    {
        self.text.clear();
        put_addition(&mut self.text, id, lits, hints)?;
        self.sink.put(&self.text)
    }

    fn delete(&mut self, id: u64, ids: &[u64]) -> Result<(), SinkError>
        ensures takes { Takes (IsDeletion id ids.now) result (silent_over (S.state (sink_behind self.old))) (silent_over (S.state (sink_behind self.new))) }

        // The line's text was appended, or after an error a front of it.
        ensures writes { Writes (line_text (deletion_words id ids.now)) result (S.state (sink_behind self.old)) (S.state (sink_behind self.new)) }
    {
        self.text.clear();
        put_deletion(&mut self.text, id, ids)?;
        self.sink.put(&self.text)
    }
}

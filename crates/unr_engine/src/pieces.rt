// Texts that are made of pieces.
ghost use Rattle.std.specs.Prelude.{◌≡◌, ◌++◌, IfOk};
ghost use Rattle.unr_io.specs.Sink.{Puts};
ghost use Rattle.unr_engine.specs.Pieces.{piece_text, joined};

use itoa::Buffer;
use std::alloc::AllocError;
use unr_io::{Sink, SinkError};

/// A piece of a text: bytes, or the decimal digits of a number.
#[derive(Clone, Copy)]
pub enum Piece<'a> {
    Text(&'a [u8]),
    Number(u64),
}

fn put_piece<E: Sink>(err: &mut E, piece: Piece<'_>) -> Result<(), SinkError>
    ensures { Puts (piece_text piece.entry) result (E.state err.old) (E.state err.new) }
{
    match piece {
        Piece::Text(text) => err.put(text),
        Piece::Number(number) => err.put(Buffer::new().format(number).as_bytes()),
    }
}

/// Puts the pieces one after the other, and takes no memory. Where a put is refused, the text ends there.
pub fn put_all<E: Sink>(err: &mut E, pieces: &[Piece<'_>]) -> Result<(), SinkError>
    ensures { Puts (joined pieces.now) result (E.state err.old) (E.state err.new) }
{
    for piece in pieces {
        put_piece(err, *piece)?;
    }
    Ok(())
}

fn push_piece(text: &mut Vec<u8>, piece: Piece<'_>) -> Result<(), AllocError>
    ensures { IfOk result (λ _. text.new.items ≡ text.old.items ++ piece_text piece.entry) }
{
    match piece {
        Piece::Text(bytes) => text.extend_from_slice(bytes),
        Piece::Number(number) => text.extend_from_slice(Buffer::new().format(number).as_bytes()),
    }
}

/// Appends the pieces one after the other.
pub fn push_all(text: &mut Vec<u8>, pieces: &[Piece<'_>]) -> Result<(), AllocError>
    ensures { IfOk result (λ _. text.new.items ≡ text.old.items ++ joined pieces.now) }
{
    for piece in pieces {
        push_piece(text, *piece)?;
    }
    Ok(())
}

// What takes pieces into a caller's buffer. It counts all of them, and holds them if they have room.

ghost use Rattle.std.specs.Prelude.{◌≡◌, ◌-◌, ◌<◌, ◌^◌, [], length, slice_set};
ghost use Rattle.fit_c.specs.Skipped.{HoldsPieces, file_piece_of, piece_of, size_if};

use fit_mending::{Piece, TakesPieces};
use std::convert::Infallible;

/// Bytes of a file from one place to another.
#[repr(C)]
#[derive(Clone, Copy)]
pub struct FilePiece {
    /// The place of the first byte.
    pub start: u64,
    /// The place after the last byte.
    pub end: u64,
    /// 1 if the bytes are kept, and 0 if they are left out.
    pub kept: u8,
}

impl FilePiece {
    pub(crate) fn of(piece: Piece) -> FilePiece
        ensures { result ≡ file_piece_of piece }
    {
        FilePiece {
            start: piece.start as u64,
            end: piece.end as u64,
            kept: piece.kept as u8,
        }
    }

    pub(crate) fn piece(&self) -> Piece
        ensures { result ≡ piece_of self.now }
    {
        Piece {
            start: self.start as usize,
            end: self.end as usize,
            kept: self.kept == 1,
        }
    }
}

#[derive(Drop)]
pub struct PieceRoom<'a> {
    pub pieces: &'a mut [FilePiece],
    // How many pieces were taken, or 2^64 - 1 if they are more.
    pub count: usize,
    // How many bytes the kept ones have, or 2^64 - 1 if they are more.
    pub kept: usize,
}

impl<'a> PieceRoom<'a> {
    // No pieces were taken.
    pub fn new(pieces: &'a mut [FilePiece]) -> PieceRoom<'a>
        ensures buffer { result.pieces ≡ pieces.entry }
        ensures none { HoldsPieces result [] }
    {
        PieceRoom {
            pieces,
            count: 0,
            kept: 0,
        }
    }
}

impl TakesPieces for PieceRoom<'_> {
    ghost use Rattle.fit_c.specs.Skipped.{HoldsPieces};

    type Fault = Infallible;

    ghost place = { λ room. room.pieces.ghost_name };

    ghost has_taken = { HoldsPieces };

    fn put(&mut self, piece: Piece) -> Result<(), Infallible> {
        hold(self.pieces, self.count, FilePiece::of(piece));
        self.count = self.count.saturating_add(1);
        self.kept = self.kept.saturating_add(kept_bytes(&piece));
        Ok(())
    }
}

// Writes the piece at this place, if there is one.
fn hold(pieces: &mut [FilePiece], at: usize, piece: FilePiece)
    ensures held { at < length pieces.old → pieces.new ≡ slice_set pieces.old at piece }
    ensures small { length pieces.old < 2 ^ 64 }
{
    if at < pieces.len() {
        pieces[at] = piece;
    }
}

// How many bytes of a piece are kept.
fn kept_bytes(piece: &Piece) -> usize
    ensures { result ≡ size_if piece.now.kept (piece.now.end - piece.now.start) }
{
    if !piece.kept {
        return 0;
    }
    piece.end.saturating_sub(piece.start)
}

// A file of pieces of another one, in a caller's buffer.

ghost use Rattle.std.specs.Prelude.{◌≡◌, ◌+◌, ◌<◌, ◌≤◌, ◌^◌, ◌++◌, length, map, take};
ghost use Rattle.fit_grammar.specs.Calls.Framed.{framed};
ghost use Rattle.fit_mending.specs.Pieces.{AreWithin, kept_of, kept_row};
ghost use Rattle.fit_c.specs.Skipped.{piece_of};

use crate::pieces::FilePiece;
use crate::room::copy_to;
use fit_base::Crc;
use fit_grammar::{Frame, header_front};
use fit_mending::Piece;

// The sizes in bytes of the first part of a header, of a header, and of a checksum.
const FRONT: usize = 12;

const HEADER: usize = 14;

const CHECKSUM: usize = 2;

/// How many bytes a file has besides its records.
pub const FRAME_ROOM: usize = HEADER + CHECKSUM;

// Writes a file whose records are the bytes of the kept pieces. They are `size` bytes, and the buffer has room.
pub fn write_pieces(frame: Frame, bytes: &[u8], pieces: &[FilePiece], size: usize, out: &mut [u8])
    requires long { frame.header_size ≡ 14 }
    requires within { AreWithin bytes.now (map piece_of pieces.now) }
    requires size { size ≡ length (kept_row bytes.now (map piece_of pieces.now)) }
    requires small { size < 2 ^ 32 }
    requires room { size + 16 ≤ length out.old }
    ensures { take (size + 16) out.new
        ≡ framed frame (kept_row bytes.now (map piece_of pieces.now)) }
{
    let front = header_front(frame, size as u32);
    copy_to(out, 0, &front);
    copy_to(out, FRONT, &Crc::of(&front).to_le_bytes());
    copy_kept(bytes, pieces, HEADER, out);
    let end = HEADER + size;
    let checksum = Crc::of(&out[..end]).to_le_bytes();
    copy_to(out, end, &checksum);
}

// Copies the bytes of the kept pieces, one after another, to this place and after it.
fn copy_kept(bytes: &[u8], pieces: &[FilePiece], start: usize, out: &mut [u8])
    requires within { AreWithin bytes.now (map piece_of pieces.now) }
    requires room { start + length (kept_row bytes.now (map piece_of pieces.now))
        ≤ length out.old }
    ensures { take (start + length (kept_row bytes.now (map piece_of pieces.now))) out.new
        ≡ take start out.old ++ kept_row bytes.now (map piece_of pieces.now) }
{
    let mut at = start;
    let mut rest = pieces;
    while let [piece, others @ ..] = rest {
        at += copy_piece(bytes, &piece.piece(), at, out);
        rest = others;
    }
}

// Copies the bytes of a piece to this place, if it is kept. Returns how many they are.
fn copy_piece(bytes: &[u8], piece: &Piece, at: usize, out: &mut [u8]) -> usize
    requires order { piece.now.start ≤ piece.now.end }
    requires within { piece.now.end ≤ length bytes.now }
    requires room { at + length (kept_of bytes.now piece.now) ≤ length out.old }
    ensures size { result ≡ length (kept_of bytes.now piece.now) }
    ensures copied { take (at + result) out.new
        ≡ take at out.old ++ kept_of bytes.now piece.now }
    ensures long { length out.new ≡ length out.old }
{
    if !piece.kept {
        return 0;
    }
    let own = &bytes[piece.start..piece.end];
    copy_to(out, at, own);
    own.len()
}

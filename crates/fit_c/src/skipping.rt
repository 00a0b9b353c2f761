// Goes on after the faults of a damaged file, and finds where chained files end.

ghost use Rattle.std.specs.Prelude.{◌≡◌, ◌<◌, ◌≤◌, ◌^◌, ◌⊎◌, ◌++◌, [], List, ℕ, length, take, IfErr, OnOk};
ghost use Rattle.fit_mending.specs.Chained.{EndsFirst};
ghost use Rattle.fit_mending.specs.Pieces.{CutsFaults};
ghost use Rattle.fit_mending.specs.declared.pieces.Piece.{Piece};
ghost use Rattle.fit_grammar.specs.Format.File.{FileValue, FileOf};
ghost use Rattle.fit_files.specs.Printed.Salvaged.{IsNotSalvaged};
ghost use Rattle.fit_c.specs.Skipped.{AreTaken, HasContent, HoldsPieces, IsSkipped, IsNotSkipped, NeedsPieces, NeedsRoomToSkip};

use crate::framing::{FRAME_ROOM, write_pieces};
use crate::pieces::{FilePiece, PieceRoom};
use crate::room::NO_ROOM;
use crate::salvaging::{SalvageCounts, TOO_LARGE};
use fit_files::{Looked, look_at};
use fit_grammar::{FileFault, read_header_front};
use fit_mending::{cut_faults, first_file};

// There are more pieces than there is room for.
const MORE_PIECES: u8 = 25;

/// Writes what is readable of a damaged file into `out`, also after its faults, as `skip_bytes` of `fit_files` keeps it. Returns 0, the
/// length of the new file in `out_len`, and in `pieces` which bytes of the old one are kept and left out, in order; 1 to 4 if `bytes`
/// begins with no header and nothing is kept (the code of the `FaultKind`); 20 if the file does not fit into `out`, with its length
/// in `out_len`; 22 if `bytes` has 4294967296 bytes or more; 25 if there are more pieces than `pieces` has room for, with their number in
/// `piece_count`. An `out` that is 16 bytes longer than `bytes` is always large enough.
#[unsafe(no_mangle)]
pub extern "C" fn fitrec_skip(
    bytes: &[u8],
    all: bool,
    out: &mut [u8],
    out_len: &mut u64,
    pieces: &mut [FilePiece],
    piece_count: &mut u64,
    counts: &mut SalvageCounts,
) -> u8
    ensures code { (result ≤ 10) ⊎ (result ≡ 20) ⊎ (result ≡ 22) ⊎ (result ≡ 25) }
    ensures ok { result ≡ 0 → IsSkipped all bytes.now (take out_len.new out.new)
        (take piece_count.new pieces.new) counts.new }
    ensures within { result ≡ 0
        → (out_len.new ≤ length out.new) × (piece_count.new ≤ length pieces.new) }
    ensures refused { 1 ≤ result → result ≤ 10 → IsNotSkipped all bytes.now result }
    ensures no_room { result ≡ 20 → NeedsRoomToSkip all bytes.now (length out.old) out_len.new
        (take piece_count.new pieces.new) counts.new }
    ensures content { (result ≡ 0) ⊎ (result ≡ 20) → HasContent bytes.now counts.new.kept }
    ensures more_pieces { result ≡ 25
        → NeedsPieces all bytes.now (length pieces.old) piece_count.new }
    ensures too_large { result ≡ 22 → 2 ^ 32 ≤ length bytes.now }
    ensures unchanged { ((1 ≤ result) × (result ≤ 10)) ⊎ (22 ≤ result)
        → (out_len.new ≡ out_len.old) × (out.new ≡ out.old) × (counts.new ≡ counts.old) }
    ensures uncounted { ((1 ≤ result) × (result ≤ 10)) ⊎ (result ≡ 22)
        → piece_count.new ≡ piece_count.old }
    ensures untouched { result ≡ 22 → pieces.new ≡ pieces.old }
{
    if bytes.len() >= 1 << 32 {
        return TOO_LARGE;
    }
    let looked = look_at(bytes, all);
    let seen = &bytes[..looked.front + looked.looked_at];
    let Taken { count, kept } = take_pieces(seen, &looked, pieces);
    if let Err(fault) = refuse_nothing(bytes, kept) {
        return fault.kind.code();
    }
    *piece_count = count as u64;
    if count > pieces.len() {
        return MORE_PIECES;
    }
    *counts = SalvageCounts {
        kept: kept as u64,
        looked_at: looked.looked_at as u64,
        not_looked_at: looked.not_looked_at as u64,
    };
    *out_len = (kept + FRAME_ROOM) as u64;
    if out.len() < kept + FRAME_ROOM {
        return NO_ROOM;
    }
    write_pieces(looked.frame, seen, &pieces[..count], kept, out);
    0
}

// Refuses the bytes as a file if none of them are kept and they begin with no header.
fn refuse_nothing(bytes: &[u8], kept: usize) -> Result<(), FileFault>
    ensures content { OnOk result (HasContent bytes.now kept) }
    ensures nothing { IfErr result (λ fault. (kept ≡ 0) × IsNotSalvaged bytes.now fault) }
{
    if kept > 0 {
        return Ok(());
    }
    match read_header_front(bytes) {
        Ok(_header) => Ok(()),
        Err(fault) => Err(fault),
    }
}

// How many pieces were taken, and how many bytes the kept ones have.
#[derive(Clone, Copy)]
pub struct Taken {
    pub count: usize,
    pub kept: usize,
}

// Takes the pieces of what is looked at into the buffer.
fn take_pieces(seen: &[u8], looked: &Looked, pieces: &mut [FilePiece]) -> Taken
    requires within { looked.now.front ≤ length seen.now }
    requires small { length seen.now < 2 ^ 32 }
    ensures { AreTaken seen.now looked.now result pieces.new }
{
    let mut room = PieceRoom::new(pieces);
    take_in(seen, looked, &mut room);
    Taken {
        count: room.count,
        kept: room.kept,
    }
}

// Takes them into the same buffer.
fn take_in(seen: &[u8], looked: &Looked, room: &mut PieceRoom<'_>)
    requires within { looked.now.front ≤ length seen.now }
    requires none { HoldsPieces room.old [] }
    ensures name { room.new.pieces.ghost_name ≡ room.old.pieces.ghost_name }
    ensures taken { (taken : List Piece) × HoldsPieces room.new taken
        × CutsFaults seen.now looked.now.front looked.now.trusted taken }
{
    match cut_faults(seen, looked.front, looked.trusted, room) {
        Ok(_) => {}
        Err(fault) => match fault {},
    }
}

/// How many bytes the first of chained files has, as `first_file` of `fit_mending` finds it: 0 only if there are no bytes.
#[unsafe(no_mangle)]
pub extern "C" fn fitrec_first_file(bytes: &[u8]) -> u64
    ensures ends { EndsFirst bytes.now result }
    ensures whole { (file rest : List ℕ) (v : FileValue) → bytes.now ≡ file ++ rest
        → FileOf file v → result ≡ length file }
    ensures some { 1 ≤ length bytes.now → 1 ≤ result }
{
    first_file(bytes) as u64
}

// The lines of what is kept of a damaged file, and of what is left out.

ghost use Rattle.std.specs.Prelude.{◌≡◌, [], drop, IfErr, OnOk};
ghost use Rattle.fit_text.specs.Pen.{Puts};
ghost use Rattle.fit_files.specs.Printed.Mended.{first_of, kept_count, mended_text, piece_text, pieces_text};
ghost use Rattle.fit_files.specs.Printed.Shown.{IsOutputFault};

use crate::fault::ReportFault;
use crate::mended::Mended;
use crate::printing::{flush, put_line};
use fit_mending::Piece;
use fit_text::Pen;
use std::fmt::{self, Formatter};
use std::io::Write;

// Puts the line of what is kept, and those of what is left out, and hands them to the writer.
pub(crate) fn put_lines<O: Write>(mended: &Mended, pen: &mut Pen<'_, O>) -> Result<(), ReportFault>
    ensures fault { IfErr result IsOutputFault }
    ensures none { OnOk result (pen.new.waiting ≡ []) }
    ensures lines { Puts pen.old pen.new result (mended_text mended.now) }
{
    let kept = KeptLine {
        kept: mended
            .skipped
            .row
            .len()
            .saturating_sub(mended.skipped.known),
        of: mended.looked.looked_at,
        parts: count_kept(mended.skipped.pieces.as_slice()),
    };
    put_line(&kept, pen)?;
    put_pieces(
        mended.skipped.pieces.as_slice(),
        mended.skipped.others.as_slice(),
        pen,
    )
}

// How many pieces are kept.
fn count_kept(pieces: &[Piece]) -> usize
    ensures { result ≡ kept_count pieces.now }
{
    let mut count = 0;
    let mut rest = pieces;
    while let [piece, others @ ..] = rest {
        if piece.kept {
            count += 1;
        }
        rest = others;
    }
    count
}

// Puts a line for each piece that is left out, with the other ride in it, and hands all that was put to the writer.
fn put_pieces<O: Write>(
    pieces: &[Piece],
    others: &[Option<u32>],
    pen: &mut Pen<'_, O>,
) -> Result<(), ReportFault>
    ensures fault { IfErr result IsOutputFault }
    ensures none { OnOk result (pen.new.waiting ≡ []) }
    ensures lines { Puts pen.old pen.new result (pieces_text pieces.now others.now) }
{
    let mut rest = pieces;
    let mut later = others;
    while let [piece, more @ ..] = rest {
        let (other, left) = take_first(later);
        put_piece(piece, other, pen)?;
        rest = more;
        later = left;
    }
    flush(pen)
}

// What is said of the first piece, and of those after it.
fn take_first(others: &[Option<u32>]) -> (Option<u32>, &[Option<u32>])
    ensures first { result.0 ≡ first_of others.now }
    ensures left { result.1.now ≡ drop 1 others.now }
{
    match others {
        [first, left @ ..] => (*first, left),
        [] => (None, others),
    }
}

// Puts the line of a piece that is left out.
fn put_piece<O: Write>(
    piece: &Piece,
    other: Option<u32>,
    pen: &mut Pen<'_, O>,
) -> Result<(), ReportFault>
    ensures fault { IfErr result IsOutputFault }
    ensures line { Puts pen.old pen.new result (piece_text piece.now other) }
{
    if piece.kept {
        return Ok(());
    }
    let line = LeftOutLine {
        count: piece.end.saturating_sub(piece.start),
        at: piece.start,
        other,
    };
    put_line(&line, pen)
}

// The line of what is kept.
#[derive(Clone, Copy)]
struct KeptLine {
    kept: usize,
    of: usize,
    parts: usize,
}

impl fmt::Display for KeptLine {
    ghost use Rattle.std.specs.Prelude.{Some};
    ghost use Rattle.fit_files.specs.Printed.Mended.{kept_line};

    ghost output = { λ line. Some (kept_line line.kept line.of line.parts) };

    fn fmt<W: fmt::Write>(&self, f: &mut Formatter<W>) -> fmt::Result {
        let KeptLine { kept, of, parts } = self;
        write!(f, "kept {kept} of {of}, parts {parts}")
    }
}

// The line of a piece that is left out.
#[derive(Clone, Copy)]
struct LeftOutLine {
    count: usize,
    at: usize,
    other: Option<u32>,
}

impl fmt::Display for LeftOutLine {
    ghost use Rattle.std.specs.Prelude.{Some};
    ghost use Rattle.fit_files.specs.Printed.Mended.{left_out_line};

    ghost output = { λ line. Some (left_out_line line.count line.at line.other) };

    fn fmt<W: fmt::Write>(&self, f: &mut Formatter<W>) -> fmt::Result {
        let LeftOutLine { count, at, other } = self;
        write!(f, "left out {count} at {at}")?;
        match other {
            Some(time) => write!(f, ": another ride from {time}"),
            None => Ok(()),
        }
    }
}

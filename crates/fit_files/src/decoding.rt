// Reads a file from an input, piece by piece. No copy of its bytes is kept.

ghost use Rattle.std.specs.Prelude.{ℕ, List};
ghost use Rattle.fit_grammar.specs.Calls.Fed.{WasFed};
ghost use Rattle.fit_files.specs.Calls.Reading.{ReportsInput, DecodesTo, DecodesWith};

use crate::fault::ReportFault;
use crate::reading::{CHUNK, ReadFault, read_piece};
use fit_grammar::{Decoder, File, Places};
use std::alloc::Global;
use std::io::Read;

/// Reads a file of at most `most` bytes from an input. The input is read to its end even if its bytes are not a file.
pub fn decode_input<T: Read>(alloc: Global, from: &mut T, most: usize) -> Result<File, ReportFault>
    ensures { ReportsInput most (T.remaining from.old) (T.remaining from.new) DecodesTo result }
{
    match decode_with_places(alloc, from, most) {
        Ok((file, _)) => Ok(file),
        Err(fault) => Err(fault),
    }
}

// The same, with the places of the file's items in the input.
pub(crate) fn decode_with_places<T: Read>(
    alloc: Global,
    from: &mut T,
    most: usize,
) -> Result<(File, Places), ReportFault>
    ensures { ReportsInput most (T.remaining from.old) (T.remaining from.new) DecodesWith result }
{
    let mut decoder = Decoder::new(alloc);
    let mut chunk = [0u8; CHUNK];
    let mut count = 0;
    loop {
        let Ok(taken) = read_piece(from, &mut chunk) else {
            return Err(ReportFault::Input(ReadFault::Failed));
        };
        if taken == 0 {
            return finished(decoder);
        }
        if taken > most - count {
            return Err(ReportFault::Input(ReadFault::TooLarge));
        }
        count += taken;
        // `finish_with_places` answers a refusal again. No other one can come after it.
        let _ = decoder.feed(&chunk[..taken]);
    }
}

// The file that these bytes are, and the places of its items in them.
pub(crate) fn decode_whole(alloc: Global, bytes: &[u8]) -> Result<(File, Places), ReportFault>
    ensures { DecodesWith bytes.now result }
{
    let mut decoder = Decoder::new(alloc);
    // `finish_with_places` answers a refusal again.
    let _ = decoder.feed(bytes);
    finished(decoder)
}

// The file whose bytes a decoder was fed, and the places of its items in them.
fn finished(decoder: Decoder) -> Result<(File, Places), ReportFault>
    ensures { (bytes : List ℕ) → WasFed bytes decoder → DecodesWith bytes result }
{
    match decoder.finish_with_places() {
        Ok(read) => Ok(read),
        Err(fault) => Err(ReportFault::File(fault)),
    }
}

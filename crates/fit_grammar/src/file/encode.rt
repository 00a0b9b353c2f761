// Writing a whole file.

ghost use Rattle.std.specs.Prelude.{◌≡◌, ◌<◌, ◌^◌, List, length};
ghost use Rattle.fit_grammar.specs.Format.Item.{Item as AnyItem};
ghost use Rattle.fit_grammar.specs.Format.Records.{Records};
ghost use Rattle.fit_grammar.specs.Format.File.{IsFrame, FileOf};
ghost use Rattle.fit_grammar.specs.Calls.Framed.{framed};
ghost use Rattle.fit_grammar.specs.Format.Encoding.{header_front as header_front_of, encoded_header, encoded};
ghost use Rattle.fit_grammar.specs.Calls.Output.{WritesText};
ghost use Rattle.fit_grammar.specs.Calls.CheckedOutput.{WritesChecked};

use crate::file::{EncodeFault, File, Frame};
use crate::sink::{Sink, WriteFailed};
use fit_base::Crc;
use std::io::Write;

/// Writes the bytes of the file; at an `Err`, a prefix of them. It takes no memory, and fails only if the writer does.
pub fn encode_file<W: Write>(file: &File, out: &mut W) -> Result<(), EncodeFault>
    ensures { WritesText (W.contents out.old) (W.contents out.new) result (encoded file.now) }
{
    match encode_records(file.frame(), file.records(), out) {
        Ok(()) => Ok(()),
        Err(WriteFailed) => Err(EncodeFault::Write),
    }
}

/// Writes a file of these records, unchanged, after a header of this frame; at an `Err`, a prefix of it. It takes no memory,
/// and fails only if the bytes are not taken.
pub fn encode_records<S: Sink>(frame: Frame, records: &[u8], out: &mut S) -> Result<(), S::Fault>
    requires { length records.now < 2 ^ 32 }
    ensures written { WritesText (S.held out.old) (S.held out.new) result
        (framed frame records.now) }
    // If the records are those of some items, it is a file of these items.
    ensures file { (items : List AnyItem) → IsFrame frame → Records records.now items
        → FileOf (framed frame records.now) (record { frame = frame; items = items }) }
{
    let mut checksum = Crc::new();
    put_header(out, &mut checksum, frame, records.len() as u32)?;
    put_checked(out, &mut checksum, records)?;
    out.put(&checksum.value().to_le_bytes())
}

/// Hands over the header of a file over `size` bytes of records, with its checksum if it has 14 bytes, and adds it to the checksum of the
/// file.
pub fn put_header<S: Sink>(
    out: &mut S,
    checksum: &mut Crc,
    frame: Frame,
    size: u32,
) -> Result<(), S::Fault>
    ensures { WritesChecked (S.held out.old)
        (S.held out.new) checksum.old checksum.new result
        (encoded_header frame size) }
{
    let front = header_front(frame, size);
    if frame.header_size != 14 {
        return put_checked(out, checksum, &front);
    }
    put_checked(out, checksum, &front)?;
    put_checked(out, checksum, &Crc::of(&front).to_le_bytes())
}

/// The first twelve bytes of a header, over `size` bytes of records. A header of 14 bytes has its checksum after them.
pub fn header_front(frame: Frame, size: u32) -> [u8; 12]
    ensures { result ≡ header_front_of frame size }
{
    let [profile_1, profile_2] = frame.profile.to_le_bytes();
    let [size_1, size_2, size_3, size_4] = size.to_le_bytes();
    [
        frame.header_size,
        frame.protocol,
        profile_1,
        profile_2,
        size_1,
        size_2,
        size_3,
        size_4,
        0x2E,
        0x46,
        0x49,
        0x54,
    ]
}

/// Hands over the bytes, and adds them to the checksum.
pub fn put_checked<S: Sink>(out: &mut S, checksum: &mut Crc, bytes: &[u8]) -> Result<(), S::Fault>
    ensures { WritesChecked (S.held out.old)
        (S.held out.new) checksum.old checksum.new result bytes.now }
{
    checksum.add(bytes);
    out.put(bytes)
}

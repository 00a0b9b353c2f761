// The header of a file, read from the bytes that have come.

ghost use Rattle.std.specs.Prelude.{◌≡◌, ◌≢◌, ◌<◌, ◌≤◌, ◌↔◌, ◌⊎◌, ◌^◌, ◌++◌, ℕ, length, take, slice_index, slice_range, IfOk, IfErr, IsTrue};
ghost use Rattle.fit_grammar.specs.declared.file.frame.Frame.{Frame as AnyFrame};
ghost use Rattle.fit_grammar.specs.Format.File.{mark, ChecksHeader};
ghost use Rattle.fit_grammar.specs.Format.Refusal.{Refusal};
ghost use Rattle.fit_grammar.specs.Calls.BeginningHeader.{BeginsWithHeader};
ghost use Rattle.fit_grammar.specs.Calls.Pieces.{IsShownBy};
ghost use Rattle.fit_grammar.specs.Private.Decoding.{BeginsWith, IsRefusedBy, IsShort};
ghost use Rattle.fit_grammar.specs.Private.Feeding.{TakesHeader};

use crate::file::taking::is_cut;
use crate::file::{FaultKind, FileFault, Frame};
use arrayvec::ArrayVec;
use byteorder::{ByteOrder, LittleEndian};
use fit_base::Crc;

// The number of bytes of a header with its checksum.
pub(crate) const LONGEST_HEADER: usize = 14;

/// A header: the frame, and the number of bytes of the records.
#[derive(Clone, Copy, Debug, PartialEq, Eq)]
pub struct Header {
    pub frame: Frame,
    pub data_size: u32,
}

pub(crate) fn fault(kind: FaultKind, place: usize) -> FileFault
    ensures { result ≡ record { kind = kind; place = place } }
{
    FileFault { kind, place }
}

// Adds the bytes that belong to the header, and reads it once it is whole.
pub(crate) fn take_header(
    header: &mut ArrayVec<u8, LONGEST_HEADER>,
    bytes: &[u8],
) -> Result<Option<Header>, FileFault>
    ensures taken { IfOk result (TakesHeader (header.old.items ++ bytes.now) header.new.items) }
    ensures refused { IfErr result (IsShownBy (header.old.items ++ bytes.now)) }
{
    add_header(header, bytes);
    match read_header(header) {
        Ok(found) => Ok(Some(found)),
        Err(fault) => {
            if is_cut(fault.kind) {
                Ok(None)
            } else {
                Err(fault)
            }
        }
    }
}

// Adds bytes, up to the most that a header has.
fn add_header(header: &mut ArrayVec<u8, LONGEST_HEADER>, bytes: &[u8])
    ensures { header.new.items ≡ take 14 (header.old.items ++ bytes.now) }
{
    let own = header.remaining_capacity().min(bytes.len());
    header.try_extend_from_slice(&bytes[..own]).unwrap();
}

// Reads the header. The checks come in the order of the bytes that they need.
pub(crate) fn read_header(bytes: &[u8]) -> Result<Header, FileFault>
    ensures header { IfOk result (BeginsWith bytes.now) }
    ensures fits { IfOk result (λ header. header.data_size < 2 ^ 32) }
    ensures refused { IfErr result (IsRefusedBy bytes.now) }
    ensures short { IfErr result (λ fault. fault.kind ≡ FaultKind.Truncated → IsShort bytes.now) }
{
    let header = read_header_front(bytes)?;
    if header.frame.header_size == 14 && !checks_header(&bytes[..14]) {
        return Err(fault(FaultKind::HeaderCrc, 12));
    }
    Ok(header)
}

/// Reads the header that the bytes begin with, whatever its checksum is. If they begin with none, the fault is the one that
/// they have as a file.
pub fn read_header_front(bytes: &[u8]) -> Result<Header, FileFault>
    ensures header { IfOk result
        (λ header. BeginsWithHeader bytes.now header.frame header.data_size) }
    ensures fits { IfOk result (λ header. header.data_size < 2 ^ 32) }
    ensures refused { IfErr result
        (λ fault. (fault.kind ≢ FaultKind.Memory) × Refusal bytes.now fault.kind fault.place) }
    ensures none { IfErr result
        (λ _. (frame : AnyFrame) (size : ℕ) → BeginsWithHeader bytes.now frame size → ⊥) }
    // When the bytes end within their header.
    ensures short { IfErr result (λ fault. fault.kind ≡ FaultKind.Truncated
        → (length bytes.now < 14)
        × ((length bytes.now ≡ 0) ⊎ (length bytes.now < slice_index bytes.now 0))) }
{
    let len = bytes.len();
    if len == 0 {
        return Err(fault(FaultKind::Truncated, len));
    }
    let header_size = bytes[0];
    if !is_header_size(header_size) {
        return Err(fault(FaultKind::HeaderSize, 0));
    }
    if len < 2 {
        return Err(fault(FaultKind::Truncated, len));
    }
    let protocol = bytes[1];
    if !is_major(protocol / 16) {
        return Err(fault(FaultKind::Protocol, 1));
    }
    if len < 12 {
        return Err(fault(FaultKind::Truncated, len));
    }
    if !is_marked(bytes) {
        return Err(fault(FaultKind::Magic, 8));
    }
    if len < header_size as usize {
        return Err(fault(FaultKind::Truncated, len));
    }
    let frame = Frame {
        header_size,
        protocol,
        profile: LittleEndian::read_u16(&bytes[2..4]),
    };
    Ok(Header {
        frame,
        data_size: LittleEndian::read_u32(&bytes[4..8]),
    })
}

fn is_header_size(size: u8) -> bool
    ensures { IsTrue result ↔ ((size ≡ 12) ⊎ (size ≡ 14)) }
{
    size == 12 || size == 14
}

// The major protocol versions that are accepted.
fn is_major(number: u8) -> bool
    ensures { IsTrue result ↔ ((number ≡ 1) ⊎ (number ≡ 2)) }
{
    number == 1 || number == 2
}

// Whether bytes 8 to 11 mark a FIT file.
fn is_marked(bytes: &[u8]) -> bool
    requires { 12 ≤ length bytes.now }
    ensures { IsTrue result ↔ (slice_range bytes.now 8 12 ≡ mark) }
{
    bytes[8] == 0x2E && bytes[9] == 0x46 && bytes[10] == 0x49 && bytes[11] == 0x54
}

// Whether the checksum of a header of 14 bytes is zero, for "not given", or right.
fn checks_header(header: &[u8]) -> bool
    requires { length header.now ≡ 14 }
    ensures { IsTrue result ↔ ChecksHeader header.now }
{
    let given = LittleEndian::read_u16(&header[12..14]);
    given == 0 || given == Crc::of(&header[..12])
}

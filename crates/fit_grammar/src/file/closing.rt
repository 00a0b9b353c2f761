// The checksum after the records, with nothing after it.

ghost use Rattle.std.specs.Prelude.{◌≡◌, ◌≤◌, ◌++◌, length, OnOk, IfErr};
ghost use Rattle.fit_base.specs.Number.{low_first};
ghost use Rattle.fit_grammar.specs.Private.Feeding.{ClosingShows};

use crate::file::FaultKind;
use arrayvec::ArrayVec;
use byteorder::{ByteOrder, LittleEndian};

// Adds bytes to the checksum, and checks it once both of its bytes are there.
pub(crate) fn take_closing(
    closing: &mut ArrayVec<u8, 2>,
    checksum: u16,
    bytes: &[u8],
) -> Result<(), FaultKind>
    ensures items { OnOk result (closing.new.items ≡ closing.old.items ++ bytes.now) }
    ensures right { OnOk result (2 ≤ length closing.new.items
        → low_first closing.new.items ≡ checksum) }
    ensures within { OnOk result (length closing.new.items ≤ 2) }
    ensures shown { IfErr result (ClosingShows (closing.old.items ++ bytes.now) checksum) }
{
    let (own, after) = bytes.split_at(closing.remaining_capacity().min(bytes.len()));
    closing.try_extend_from_slice(own).unwrap();
    if closing.len() < 2 {
        return Ok(());
    }
    if LittleEndian::read_u16(closing) != checksum {
        return Err(FaultKind::FileCrc);
    }
    if !after.is_empty() {
        return Err(FaultKind::TrailingBytes);
    }
    Ok(())
}

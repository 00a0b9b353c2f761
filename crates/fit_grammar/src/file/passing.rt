// Passing over the items of a file where they are, and over its closing checksum.

ghost use Rattle.std.specs.Prelude.{◌≡◌, ◌<◌, ◌≤◌, ◌^◌, IfOk, IfErr, OnOk};
ghost use Rattle.fit_grammar.specs.Format.File.{FileValue, FileOf};
ghost use Rattle.fit_grammar.specs.Calls.Step.{least_length_of};
ghost use Rattle.fit_grammar.specs.Calls.Table.{definition_in};
ghost use Rattle.fit_grammar.specs.Private.Decoding.{BeginsWith, IsRefusedBy, Reached, WindowShows, fault_of};
ghost use Rattle.fit_grammar.specs.Private.Passing.{PassesItem, HasPassedAll};

use crate::definition::DefinitionMessage;
use crate::definition::latest::Latest;
use crate::file::header::{Header, fault};
use crate::file::taking::whole_length;
use crate::file::{FaultKind, FileFault};
use crate::item::first_byte::{Head, first_local, read_head};
use crate::item::{ItemFault, least_under};
use byteorder::{ByteOrder, LittleEndian};
use fit_base::Crc;

// Passes over all the items after this header. Returns the number of bytes that they are written as.
pub(crate) fn pass_items(bytes: &[u8], header: Header) -> Result<u32, FileFault>
    requires begins { BeginsWith bytes.now header }
    requires fits { header.data_size < 2 ^ 32 }
    ensures passed { IfOk result (HasPassedAll bytes.now header) }
    ensures refused { IfErr result (IsRefusedBy bytes.now) }
{
    let mut at = header.frame.header_size as usize;
    let end = at + header.data_size as usize;
    let mut latest = Latest::new();
    let mut size = 0;
    while at < end {
        match pass_item(&bytes[at..], &mut latest, end - at) {
            Ok((used, written)) => {
                at += used;
                size += written;
            }
            Err(kind) => return Err(fault_at(kind, at, bytes.len())),
        }
    }
    Ok(size as u32)
}

// Passes over the item at the front of the window; `left` bytes of the data remain. Returns the number of bytes that it has
// there, and of those that it is written as.
fn pass_item<'a>(
    window: &'a [u8],
    latest: &mut Latest<'a>,
    left: usize,
) -> Result<(usize, usize), FaultKind>
    ensures passed { IfOk result (λ counts.
        PassesItem (definition_in latest.old)
        (definition_in latest.new) window.now left counts.0 counts.1) }
    ensures shown { IfErr result (WindowShows (definition_in latest.old) window.now left) }
{
    let used = whole_length(least_after(window, latest), window, left)?;
    match read_head(window[0]) {
        Head::Definition(..) => {
            let definition = DefinitionMessage::new(&window[..used]);
            latest.take(&definition);
            Ok((used, definition.size()))
        }
        Head::Data(..) => Ok((used, used)),
    }
}

// The least length of the item at the front of a window after items with these latest definitions.
fn least_after(window: &[u8], latest: &Latest<'_>) -> Result<usize, ItemFault>
    ensures answer { result ≡ least_length_of (definition_in latest.now) window.now }
    ensures bound { IfOk result (λ n. n ≤ 130051) }
{
    match window {
        [first, ..] => least_under(window, latest.get(first_local(*first))),
        [] => Ok(1),
    }
}

// A fault is at its item, or, if the input ends too soon, at the end of the input.
fn fault_at(kind: FaultKind, at: usize, len: usize) -> FileFault
    ensures { result ≡ fault_of kind at len }
{
    match kind {
        FaultKind::Truncated => fault(kind, len),
        _ => fault(kind, at),
    }
}

// Checks what follows the records, which end at `end`: their checksum, and nothing else.
pub(crate) fn close(bytes: &[u8], end: usize) -> Result<(), FileFault>
    requires { (v : FileValue) × Reached bytes.now v end end }
    ensures file { (v : FileValue) → Reached bytes.now v end end
        → OnOk result (FileOf bytes.now v) }
    ensures refused { IfErr result (IsRefusedBy bytes.now) }
{
    let (before, after) = bytes.split_at(end);
    if after.len() < 2 {
        return Err(fault(FaultKind::Truncated, bytes.len()));
    }
    if LittleEndian::read_u16(&after[..2]) != Crc::of(before) {
        return Err(fault(FaultKind::FileCrc, end));
    }
    if after.len() > 2 {
        return Err(fault(FaultKind::TrailingBytes, end + 2));
    }
    Ok(())
}

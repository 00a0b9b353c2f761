// A file with its times moved.

ghost use Rattle.std.specs.Prelude.{◌≡◌, map, true, None, OnOk, IfOk, IfErr};
ghost use Rattle.std.specs.List.{AllByRecursion};
ghost use Rattle.fit_grammar.specs.Format.File.{FileOf};
ghost use Rattle.fit_grammar.specs.Format.Message.{messages_of};
ghost use Rattle.fit_grammar.specs.Calls.Adding.{with_item};
ghost use Rattle.fit_grammar.specs.Calls.LentItem.{lent_item};
ghost use Rattle.fit_grammar.specs.Calls.Places.{ArePlaces};
ghost use Rattle.fit_grammar.specs.Calls.PlainForm.{IsPlain};
ghost use Rattle.fit_shifting.specs.Moved.{moved, can_move};
ghost use Rattle.fit_shifting.specs.Stuck.{IsShiftFault};
ghost use Rattle.fit_shifting.specs.Private.Row.{CanTake, item_moved};

use crate::checking::find_stuck;
use crate::content::move_content;
use crate::shift::Shift;
use fit_grammar::{File, FileFault, FileItem, Places, PlainFault, PutFault, plain_file};
use std::alloc::Global;

/// Why the times of a file are not moved.
#[derive(Clone, Copy, Debug, PartialEq, Eq)]
pub enum ShiftFault {
    /// The bytes are not a FIT file that this library reads, or memory was refused.
    File(FileFault),
    /// No message has a time, so the ride has no beginning.
    NoTime,
    /// A time of the message at this place would be below 0, or 4,294,967,295 or more. The place is an offset in bytes from the front of
    /// the file.
    Time(usize),
    /// The plain form would be too long, or memory was refused.
    Plain(PlainFault),
    /// The allocator refused to grow a buffer.
    Memory,
}

// Makes the plain form of a file with every time in it moved: field 253 of each message, and each field that the Profile says holds a
// time. The file was read from these bytes, in which its items had these places.
pub(crate) fn shift_file(
    alloc: Global,
    shift: Shift,
    file: &File,
    places: &Places,
    bytes: &[u8],
) -> Result<File, ShiftFault>
    requires file { FileOf bytes.now file.now }
    requires places { ArePlaces bytes.now places.now }
    ensures frame { IfOk result (λ shifted. shifted.frame ≡ file.now.frame) }
    // Its messages are those of the file with exactly their times moved.
    ensures messages { IfOk result
        (λ shifted. messages_of shifted.items ≡ map (moved shift) (messages_of file.now.items)) }
    ensures written_out { IfOk result (λ shifted. AllByRecursion IsPlain shifted.items) }
    // Each of these times can be moved.
    ensures movable { OnOk result
        (AllByRecursion (λ m. can_move shift m ≡ true) (messages_of file.now.items)) }
    // No other file is refused for a time. The place is that of the first message with one that cannot be moved.
    ensures refused { IfErr result (IsShiftFault bytes.now file.now shift) }
{
    if let Some(place) = find_stuck(shift, &file.lend(), bytes) {
        return Err(ShiftFault::Time(place));
    }
    match plain_file(alloc, file, places) {
        Ok(plain) => match moved_file(alloc, shift, &plain) {
            Ok(shifted) => Ok(shifted),
            Err(_) => Err(ShiftFault::Memory),
        },
        Err(fault) => Err(ShiftFault::Plain(fault)),
    }
}

// The file with its times moved. It has no compressed timestamps.
fn moved_file(alloc: Global, shift: Shift, plain: &File) -> Result<File, PutFault>
    requires { AllByRecursion IsPlain plain.now.items }
    ensures frame { IfOk result (λ shifted. shifted.frame ≡ plain.now.frame) }
    ensures messages { IfOk result
        (λ shifted. messages_of shifted.items ≡ map (moved shift) (messages_of plain.now.items)) }
    ensures written_out { IfOk result (λ shifted. AllByRecursion IsPlain shifted.items) }
    ensures memory { IfErr result (λ fault. fault ≡ PutFault.Memory) }
{
    let mut shifted = File::new(alloc, plain.frame());
    let mut content = Vec::new(alloc);
    for item in plain.items() {
        put_moved(shift, &item, &mut shifted, &mut content)?;
    }
    Ok(shifted)
}

// Adds an item with its times moved. `content` is room for the bytes of a message.
fn put_moved(
    shift: Shift,
    item: &FileItem<'_>,
    shifted: &mut File,
    content: &mut Vec<u8>,
) -> Result<(), PutFault>
    requires { CanTake shift shifted.old (lent_item item.now) }
    ensures put { OnOk result
        (shifted.new ≡ with_item shifted.old (item_moved shift (lent_item item.now))) }
    ensures memory { IfErr result (λ fault. fault ≡ PutFault.Memory) }
{
    match item {
        FileItem::Definition(definition) => shifted.define(&definition.read()),
        FileItem::Data(message, _) => {
            content.clear();
            content.extend_from_slice(message.content)?;
            move_content(shift, &message.definition, content.as_mut_slice());
            shifted.data(message.local, None, content.as_slice())
        }
    }
}

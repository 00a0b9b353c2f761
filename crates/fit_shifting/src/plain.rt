// The plain form of a file in a buffer, its times moved in their places.

ghost use Rattle.std.specs.Prelude.{◌≡◌, ◌≤◌, ◌<◌, ◌++◌, ℕ, List, length, slice_set, None, is_some};
ghost use Rattle.fit_grammar.specs.Format.Encoding.{encoded, encoded_items};
ghost use Rattle.fit_grammar.specs.Format.File.{FileValue};
ghost use Rattle.fit_grammar.specs.Calls.LentItem.{lent_item, data_under};
ghost use Rattle.fit_grammar.specs.Calls.PlainForm.{plain_of, plain_items, plain_item, plain_content, definitions_before, is_timed, timed_after};
ghost use Rattle.fit_shifting.specs.Shifted.{IsShifted};
ghost use Rattle.fit_shifting.specs.Stuck.{stuck_at};
ghost use Rattle.fit_shifting.specs.Private.Plain.{HasLocal, plain_content_moved, plain_item_moved, plain_items_moved};

use crate::checking::size_written;
use crate::content::{move_content, move_times};
use crate::shift::Shift;
use fit_base::Crc;
use fit_grammar::{DataMessage, FileItem, LentFile};

/// Moves the times of a file in its plain form, which `plain` has. It takes no memory.
pub fn shift_plain(shift: Shift, file: &LentFile<'_>, plain: &mut [u8])
    requires plain { plain.old ≡ encoded (plain_of file.now) }
    requires movable { stuck_at shift file.now ≡ None }
    ensures shifted { (shifted : FileValue) × IsShifted shift file.now shifted
        × (plain.new ≡ encoded shifted) }
    ensures long { length plain.new ≡ length plain.old }
{
    let front = file.frame().header_size as usize;
    let end = plain.len() - 2;
    move_records(shift, file, &mut plain[front..end]);
    let checksum = Crc::of(&plain[..end]).to_le_bytes();
    plain[end..].copy_from_slice(&checksum);
}

// Moves the times in the records of the plain form.
fn move_records(shift: Shift, file: &LentFile<'_>, records: &mut [u8])
    requires { records.old ≡ encoded_items (plain_items file.now.items) }
    ensures moved { records.new ≡ encoded_items (plain_items_moved shift file.now.items) }
    ensures long { length records.new ≡ length records.old }
{
    let mut timed = [false; 16];
    let mut at = 0;
    for item in file.items() {
        at += move_item(shift, &mut timed, &item, &mut records[at..]);
    }
}

// Moves the times in what the plain form has of an item, with which `records` begins. Returns how many bytes it has.
fn move_item(shift: Shift, timed: &mut [bool; 16], item: &FileItem<'_>, records: &mut [u8]) -> usize
    requires local { HasLocal (lent_item item.now) }
    requires begins { (rest : List ℕ)
        × (records.old ≡ encoded_items (plain_item timed.old (lent_item item.now)) ++ rest) }
    ensures size { result ≡ length (encoded_items (plain_item timed.old (lent_item item.now))) }
    ensures moved { (rest : List ℕ)
        → records.old ≡ encoded_items (plain_item timed.old (lent_item item.now)) ++ rest
        → records.new ≡ encoded_items (plain_item_moved shift timed.old (lent_item item.now)) ++ rest }
    ensures timed { timed.new ≡ timed_after timed.old (lent_item item.now) }
    ensures long { length records.new ≡ length records.old }
{
    match item {
        FileItem::Definition(definition) => {
            timed[definition.local() as usize] = false;
            size_written(definition)
        }
        FileItem::Data(message, time) => {
            let start = 1 + size_before(timed, message, time.is_some());
            let end = start + if time.is_some() { 4 } else { 0 } + message.content.len();
            move_data(shift, message, *time, &mut records[start..end]);
            end
        }
    }
}

// How many bytes the definition has that is written before a message, with the time in front or not, if the last one of its local number
// does not fit.
fn size_before(timed: &mut [bool; 16], message: &DataMessage<'_>, needs: bool) -> usize
    requires { message.now.local < 16 }
    ensures size { result ≡ length (encoded_items
        (definitions_before (is_timed timed.old message.now.local) needs message.now.definition)) }
    ensures bound { result < 3000 }
    ensures timed { timed.new ≡ slice_set timed.old message.now.local needs }
{
    if timed[message.local as usize] == needs {
        return 0;
    }
    timed[message.local as usize] = needs;
    size_written(&message.definition) + if needs { 3 } else { 0 }
}

// Moves the times in the content of a message's plain form.
fn move_data(shift: Shift, message: &DataMessage<'_>, time: Option<u32>, content: &mut [u8])
    requires { content.old ≡ plain_content
        (data_under message.now.definition message.now.local message.now.offset time message.now.content.now) }
    ensures { content.new ≡ plain_content_moved shift
        (data_under message.now.definition message.now.local message.now.offset time message.now.content.now) }
{
    match time {
        None => move_content(shift, &message.definition, content),
        Some(_) => {
            move_times(shift, message.definition.arch(), &mut content[..4]);
            move_content(shift, &message.definition, &mut content[4..]);
        }
    }
}

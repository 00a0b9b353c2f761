// The first message of a file with a time that cannot be moved.

ghost use Rattle.std.specs.Prelude.{◌≡◌, ◌≤◌, ◌<◌, ◌+◌, ◌*◌, ◌∷◌, ◌++◌, ℕ, List, length, None, IfSome};
ghost use Rattle.fit_grammar.specs.Format.File.{FileOf};
ghost use Rattle.fit_grammar.specs.Format.Item.{Defines, Spells, item_size, part_size};
ghost use Rattle.fit_grammar.specs.Calls.LentItem.{LentItem, item_lent, lent_item, messages_in};
ghost use Rattle.fit_grammar.specs.Format.Message.{message_under};
ghost use Rattle.fit_grammar.specs.Calls.LentField.{field_view};
ghost use Rattle.fit_shifting.specs.Moved.{can_move as can_move_message, can_move_field, can_move_time, can_move_values};
ghost use Rattle.fit_shifting.specs.Private.Content.{can_move_compressed, times_of};
ghost use Rattle.std.specs.List.{list_all};
ghost use Rattle.fit_shifting.specs.Stuck.{is_stuck, stuck_at, IsStuck};
ghost use Rattle.fit_base.specs.Value.{values_of};

use crate::shift::Shift;
use crate::times::holds_time;
use fit_base::{Arch, FieldValue, number_of};
use fit_grammar::{DataMessage, DefinitionMessage, Field, FileItem, LentFile, Message, Messages};

/// The place of the first message with a time that cannot be moved, an offset from the front of the bytes that the file was read from.
pub fn find_stuck(shift: Shift, file: &LentFile<'_>, bytes: &[u8]) -> Option<usize>
    requires { FileOf bytes.now file.now }
    ensures stuck { IfSome result (IsStuck bytes.now file.now shift) }
    ensures free { result ≡ None → stuck_at shift file.now ≡ None }
{
    let mut place = file.frame().header_size as usize;
    let mut messages = file.messages();
    for item in file.items() {
        if is_stuck(shift, &item, &mut messages) {
            return Some(place);
        }
        place += size_read(&bytes[place..], &item);
    }
    None
}

// Whether the item is a message with a time that cannot be moved. It takes the item's message from those of the items that are left.
fn is_stuck(shift: Shift, item: &FileItem<'_>, messages: &mut Messages<'_>) -> bool
    ensures stuck { (left : List LentItem) → messages.old ≡ messages_in (lent_item item.now ∷ left)
        → result ≡ is_stuck shift (lent_item item.now) }
    ensures taken { (left : List LentItem) → messages.old ≡ messages_in (lent_item item.now ∷ left)
        → messages.new ≡ messages_in left }
{
    match item {
        FileItem::Definition(_) => false,
        FileItem::Data(own, time) => match messages.next() {
            Some(message) => !can_move_data(shift, own, *time, &message),
            None => false,
        },
    }
}

// Whether each time of a message can be moved, which is that of a data message with this time of its compressed timestamp.
fn can_move_data(
    shift: Shift,
    own: &DataMessage<'_>,
    time: Option<u32>,
    message: &Message<'_>,
) -> bool
    ensures { message.now.message
        ≡ message_under own.now.definition time own.now.content.now
        → result ≡ can_move_message shift message.now.message }
{
    let content = own.content;
    // A time has four bytes. With fewer, a message of many empty fields is not walked.
    if content.len() < 4 {
        return can_move_compressed(shift, time);
    }
    can_move(shift, message)
}

// Whether the time of a compressed timestamp can be moved, if there is one.
fn can_move_compressed(shift: Shift, time: Option<u32>) -> bool
    ensures { result ≡ can_move_compressed shift time }
{
    match time {
        Some(time) => shift.can_move(time),
        None => true,
    }
}

// The number of bytes that an item has in the bytes that it was read from, which begin with it.
fn size_read(bytes: &[u8], item: &FileItem<'_>) -> usize
    requires { 1 ≤ length bytes.now }
    ensures { (own rest : List ℕ) → bytes.now ≡ own ++ rest
        → Spells (item_lent (lent_item item.now)) own → result ≡ length own }
{
    match item {
        FileItem::Definition(definition) => definition_size(definition, bytes[0] / 32 % 2 == 1),
        FileItem::Data(message, _) => 1 + message.content.len(),
    }
}

// The number of bytes of a definition, in which developer fields are announced or not.
fn definition_size(definition: &DefinitionMessage<'_>, announced: bool) -> usize
    ensures { result ≡ 6 + 3 * length definition.now.fields.items
        + part_size announced (length definition.now.developer.items) }
{
    let definition = definition.read();
    let size = 6 + 3 * definition.fields.len();
    if announced {
        size + 1 + 3 * definition.developer.len()
    } else {
        size
    }
}

// The number of bytes that a definition is written as.
pub(crate) fn size_written(definition: &DefinitionMessage<'_>) -> usize
    ensures size { result ≡ item_size (Defines definition.now) }
    ensures bound { result < 2000 }
{
    definition_size(definition, !definition.read().developer.is_empty())
}

// Whether each time of a message can be moved.
fn can_move(shift: Shift, message: &Message<'_>) -> bool
    ensures { result ≡ can_move_message shift message.now.message }
{
    let global = message.global();
    for field in message.fields() {
        if !can_move_in(shift, global, &field) {
            return false;
        }
    }
    true
}

// Whether each time of a field can be moved.
fn can_move_in(shift: Shift, message: u16, field: &Field<'_>) -> bool
    ensures { result ≡ can_move_field shift message (field_view field.now) }
{
    // An empty field, of which a message may have many, is not looked up.
    let bytes = field.value.raw();
    if bytes.len() < 4 {
        return true;
    }
    !holds_time(message, field.number, field.value.base()) || can_move_values(shift, &field.value)
}

// Whether each number of a value can be moved as a time.
fn can_move_values(shift: Shift, value: &FieldValue<'_>) -> bool
    requires { value.now.base ≡ 0x86 }
    ensures { result ≡ can_move_values shift (values_of value.now) }
{
    value.is_raw() || can_move_times(shift, value.arch(), value.raw())
}

// Whether each of these times of four bytes can be moved.
fn can_move_times(shift: Shift, arch: Arch, bytes: &[u8]) -> bool
    ensures { result ≡ list_all (can_move_time shift) (times_of arch bytes.now) }
{
    let mut rest = bytes;
    while let [a, b, c, d, others @ ..] = rest {
        if !shift.can_move(number_of(arch, &[*a, *b, *c, *d]) as u32) {
            return false;
        }
        rest = others;
    }
    true
}

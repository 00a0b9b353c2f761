// Messages: data messages, read under their definitions and with their times.

ghost use Rattle.std.specs.Prelude.{◌≡◌, ◌≤◌, ℕ, length, drop, Option};
ghost use Rattle.fit_grammar.specs.Format.Item.{content_size, fields_size as fields_size_of};
ghost use Rattle.fit_grammar.specs.Format.Message.{developer_of, message_under};
ghost use Rattle.fit_grammar.specs.Calls.LentMessage.{message_lent};

mod developer;
mod fields;
mod row;
pub(crate) mod time;

use crate::definition::DefinitionMessage;
use crate::item::{DataMessage, Item};
pub use developer::{DeveloperField, DeveloperFields};
pub use fields::{Field, Fields};
use fit_base::BaseType;
pub use row::Messages;
use std::marker::Model;
use time::compressed_time;

/// A message, borrowed from its data message. Contracts see what it encodes, whatever its architecture and header are, and the
/// time of its compressed timestamp.
#[derive(Drop)]
pub struct Message<'a> {
    definition: DefinitionMessage<'a>,
    content: &'a [u8],
    time: Option<[u8; 4]>,
}

impl<'a> Model for Message<'a> {
    ghost use Rattle.std.specs.Prelude.{◌≡◌, length, option_map, IfSome};
    ghost use Rattle.fit_base.specs.Number.{low_first};
    ghost use Rattle.fit_grammar.specs.Format.Item.{content_size};
    ghost use Rattle.fit_grammar.specs.Format.Message.{message_under};
    ghost use Rattle.fit_grammar.specs.Calls.LentMessage.{LentMessage};

    ghost Value = { LentMessage };

    ghost view = { λ m. let time = option_map low_first m.time in
        record { compressed = time; message = message_under m.definition time m.content.now } };

    ghost invariant = { λ m. (content_size m.definition ≡ length m.content.now)
        × IfSome m.time (λ bytes. length bytes ≡ 4) };
}

impl<'a> Message<'a> {
    ghost use Rattle.std.specs.Prelude.{◌<◌, ◌^◌, ℕ, Some, IfSome};
    ghost use Rattle.fit_base.specs.Base.{row_of};
    ghost use Rattle.fit_grammar.specs.Calls.LentMessage.{lent_time};
    ghost use Rattle.fit_grammar.specs.Format.Message.{time_stated};
    ghost use Rattle.fit_grammar.specs.Format.OneValue.{value_of};

    /// The global message number, as the profile numbers messages.
    pub fn global(&self) -> u16
        ensures { result ≡ self.now.message.global }
    {
        self.definition.global()
    }

    /// The fields in order. The time of a compressed timestamp comes first, as field 253.
    pub fn fields(&self) -> Fields<'_>
        ensures { result ≡ self.now.message.fields }
    {
        let time: Option<&[u8]> = match &self.time {
            Some(bytes) => Some(bytes),
            None => None,
        };
        let definition = &self.definition;
        Fields::new(time, definition.arch(), definition.fields(), self.content)
    }

    /// The value of the first field of this number, if it has this type, whose values have at most four bytes, and is one valid value.
    pub fn value_of(&self, number: u8, base: BaseType) -> Option<u32>
        requires { (row_of base).size ≤ 4 }
        ensures value { result ≡ value_of base number self.now.message }
        ensures fits { IfSome result (λ value. value < 256 ^ (row_of base).size) }
    {
        for field in self.fields() {
            if field.number == number {
                return field.value_as(base);
            }
        }
        None
    }

    /// The developer fields in order. They come after the fields.
    pub fn developer_fields(&self) -> DeveloperFields<'_>
        ensures { result ≡ self.now.message.developer }
    {
        developer_fields_in(&self.definition, self.content)
    }

    /// The time that the message gives, in seconds since 1989-12-31 00:00 UTC: that of its compressed timestamp, or else the
    /// value of its first field 253 of base type 0x86 and size 4 that is not invalid.
    pub fn time(&self) -> Option<u32>
        ensures time { result ≡ lent_time self.now }
        // Its fields state the time too, since that of a compressed timestamp is the first of them. The exception is
        // 0xFFFFFFFF, which is invalid in a field.
        ensures stated { (time : ℕ) → result ≡ Some time → time < 0xFFFFFFFF
            → time_stated self.now.message.fields ≡ Some time }
    {
        if let Some(bytes) = self.time {
            return Some(u32::from_le_bytes(bytes));
        }
        // A time has four bytes. With fewer, a message of many empty fields is not walked.
        if self.content.len() < 4 {
            return None;
        }
        self.fields().stated_time()
    }
}

/// The message of an item, if `before` is the last time before it. A definition has none.
pub fn message_of<'a>(item: &Item<'a>, before: u32) -> Option<Message<'a>>
    ensures { result ≡ message_lent item.now before }
{
    match item {
        Item::Definition(_) => None,
        Item::Data(data) => Some(message_in(data, compressed_time(before, data.offset))),
    }
}

/// The developer fields of a data message, in order.
pub fn developer_fields_of<'a>(m: &DataMessage<'a>) -> DeveloperFields<'a>
    ensures fields { (time : Option ℕ) → result
        ≡ (message_under m.now.definition time m.now.content.now).developer }
    ensures bound { length result ≤ 255 }
{
    developer_fields_in(&m.definition, m.content)
}

// The developer fields of a content under its definition.
fn developer_fields_in<'a>(
    definition: &DefinitionMessage<'a>,
    content: &'a [u8],
) -> DeveloperFields<'a>
    requires { content_size definition.now ≡ length content.now }
    ensures fields { result ≡ developer_of definition.now.arch definition.now.developer.items
        (drop (fields_size_of definition.now) content.now) }
    ensures bound { length result ≤ 255 }
{
    let arch = definition.arch();
    let fields = definition.developer();
    if fields.is_empty() {
        return DeveloperFields::new(arch, fields, &[]);
    }
    let (_, content) = content.split_at(definition.fields_size());
    DeveloperFields::new(arch, fields, content)
}

// The message of a data message, if this is the time of its compressed timestamp.
pub(crate) fn message_in<'a>(m: &DataMessage<'a>, time: Option<u32>) -> Message<'a>
    ensures compressed { result.compressed ≡ time }
    ensures message { result.message ≡ message_under m.now.definition time m.now.content.now }
{
    let time = match time {
        Some(time) => Some(time.to_le_bytes()),
        None => None,
    };
    Message {
        definition: m.definition.lent(),
        content: m.content,
        time,
    }
}

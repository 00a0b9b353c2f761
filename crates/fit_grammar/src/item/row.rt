// The items of a file, one after another.

ghost use Rattle.std.specs.Prelude.{◌≡◌, ◌≤◌, [], length};
ghost use Rattle.fit_grammar.specs.Format.Records.{in_force};
ghost use Rattle.fit_grammar.specs.Calls.LentItem.{items_lent};
ghost use Rattle.fit_grammar.specs.Calls.Table.{definition_in};
ghost use Rattle.fit_grammar.specs.Private.ItemRow.{items_in, AreRead, IsFirst};

use crate::definition::DefinitionMessage;
use crate::definition::latest::Latest;
use crate::item::first_byte::first_local;
use crate::item::{DataMessage, Item, Step, step_under};
use crate::message::message_in;
use crate::message::time::compressed_time;
use std::marker::Model;

/// An item, borrowed where it is in a file.
#[derive(Drop)]
pub enum FileItem<'a> {
    /// A definition, which is in force for its local number from here on.
    Definition(DefinitionMessage<'a>),
    /// A data message with its definition in force, and the time of its compressed timestamp, if it has one: seconds since
    /// 1989-12-31 00:00 UTC.
    Data(DataMessage<'a>, Option<u32>),
}

impl<'a> FileItem<'a> {
    ghost use Rattle.fit_grammar.specs.Format.Item.{item_size};
    ghost use Rattle.fit_grammar.specs.Calls.LentItem.{lent_item, item_lent};

    // The number of bytes that the item is written as.
    pub(crate) fn size(&self) -> usize
        ensures { result ≡ item_size (item_lent (lent_item self.now)) }
    {
        match self {
            FileItem::Definition(definition) => definition.size(),
            FileItem::Data(data, _) => 1 + data.content.len(),
        }
    }
}

/// The items of a file in order, with the time carried along. Contracts see the items that are left.
#[derive(Drop)]
pub struct Items<'a> {
    // The bytes of the items that are left.
    rest: &'a [u8],
    latest: Latest<'a>,
    time: u32,
}

impl<'a> Model for Items<'a> {
    ghost use Rattle.std.specs.Prelude.{List};
    ghost use Rattle.fit_grammar.specs.Calls.LentItem.{LentItem};
    ghost use Rattle.fit_grammar.specs.Private.ItemsLeft.{items_left, AreLeft};

    ghost Value = { List LentItem };

    ghost view = { items_left };

    ghost invariant = { AreLeft };
}

impl<'a> Items<'a> {
    // All the items of a file. These are their bytes.
    pub(crate) fn new(records: &'a [u8]) -> Self
        requires { AreRead (in_force []) records.now }
        ensures { result ≡ items_lent (items_in records.now) }
    {
        Items {
            rest: records,
            latest: Latest::new(),
            time: 0,
        }
    }
}

impl<'a> Iterator for Items<'a> {
    ghost use Rattle.std.specs.Iterator.{item_count, YieldsFirstBy};
    ghost use Rattle.fit_grammar.specs.Calls.LentItem.{lent_item};

    type Item = FileItem<'a>;

    ghost next_gives = { YieldsFirstBy lent_item (λ s. s) };

    ghost remaining = { item_count (λ s. s) };

    #[inline(always)] // Without it, a loop writes each item to memory and reads it again.
    fn next(&mut self) -> Option<FileItem<'a>> {
        if self.rest.is_empty() {
            return None;
        }
        let (item, rest) = first_item(self.rest, &self.latest);
        self.rest = rest;
        match item {
            Item::Definition(definition) => {
                self.latest.take(&definition);
                Some(FileItem::Definition(definition))
            }
            Item::Data(data) => {
                let time = compressed_time(self.time, data.offset);
                self.time = message_in(&data, time).time().unwrap_or(self.time);
                Some(FileItem::Data(data, time))
            }
        }
    }
}

// The first of the items that are left, and the bytes of the others.
fn first_item<'a>(bytes: &'a [u8], latest: &Latest<'a>) -> (Item<'a>, &'a [u8])
    requires some { 1 ≤ length bytes.now }
    requires read { AreRead (definition_in latest.now) bytes.now }
    ensures { IsFirst (definition_in latest.now) bytes.now result.0 result.1.now }
{
    let definition = latest.get(first_local(bytes[0]));
    let Step::Item(item, used) = step_under(bytes, definition) else {
        unreachable!();
    };
    let (_, others) = bytes.split_at(used);
    (item, others)
}

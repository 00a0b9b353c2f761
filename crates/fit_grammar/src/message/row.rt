// The messages of a file, one after another.

ghost use Rattle.std.specs.Prelude.{◌≡◌};
ghost use Rattle.fit_grammar.specs.Calls.LentItem.{messages_in};

use crate::item::{FileItem, Items};
use crate::message::{Message, message_in};
use std::marker::Model;

/// The messages of a file in order, with the time carried along. Contracts see the messages that are left.
#[derive(Drop)]
pub struct Messages<'a> {
    items: Items<'a>,
}

impl<'a> Model for Messages<'a> {
    ghost use Rattle.std.specs.Prelude.{List};
    ghost use Rattle.fit_grammar.specs.Format.Message.{Message as AnyMessage};
    ghost use Rattle.fit_grammar.specs.Calls.LentItem.{messages_in};

    ghost Value = { List AnyMessage };

    ghost view = { λ s. messages_in s.items };
}

impl<'a> Messages<'a> {
    // The messages among these items.
    pub(crate) fn new(items: Items<'a>) -> Self
        ensures { result ≡ messages_in items.entry }
    {
        Messages { items }
    }
}

impl<'a> Iterator for Messages<'a> {
    ghost use Rattle.std.specs.Iterator.{item_count, YieldsFirstBy};

    type Item = Message<'a>;

    ghost next_gives = { YieldsFirstBy (λ m. m.message) (λ s. s) };

    ghost remaining = { item_count (λ s. s) };

    #[inline(always)] // For the same reason as `Items`.
    fn next(&mut self) -> Option<Message<'a>> {
        while let Some(item) = self.items.next() {
            if let FileItem::Data(data, time) = item {
                return Some(message_in(&data, time));
            }
        }
        None
    }
}

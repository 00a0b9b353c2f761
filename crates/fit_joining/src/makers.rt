// Who makes the developer data of a joined file, and which indices the data of a part has there.

ghost use Rattle.std.specs.Prelude.{◌≡◌, ℕ, Option};
ghost use Rattle.fit_grammar.specs.Format.Message.{message_under, messages_of};
ghost use Rattle.fit_joining.specs.Makers.{declared_after, declared_by, declared_past, first_open, index_for, index_in, is_open, no_makers};
ghost use Rattle.fit_joining.specs.Private.Lent.{maker_lent};

use crate::maker::{LentMaker, index_stated};
use fit_grammar::{DataMessage, FileItem, LentFile};
use std::marker::Model;

// For each index that a part declares, its index in the joined file.
pub(crate) type Given = [Option<u8>; 256];

// The makers of the indices of a joined file so far.
#[derive(Drop)]
pub(crate) struct Makers<'a> {
    slots: [Option<LentMaker<'a>>; 256],
}

impl<'a> Model for Makers<'a> {
    ghost use Rattle.std.specs.Prelude.{List, Option};
    ghost use Rattle.fit_joining.specs.Makers.{Maker};
    ghost use Rattle.fit_joining.specs.Private.Lent.{makers_lent, AreAll};

    ghost Value = { List (Option Maker) };

    ghost view = { makers_lent };

    ghost invariant = { AreAll };
}

impl<'a> Makers<'a> {
    // No index has a maker yet.
    pub(crate) fn new() -> Self
        ensures { result ≡ no_makers }
    {
        Makers { slots: [None; 256] }
    }

    // Hears which indices a part declares, and returns those that they have in the joined file.
    pub(crate) fn take_part(&mut self, file: &LentFile<'a>) -> Given
        ensures makers { self.new ≡ (declared_past self.old (messages_of file.now.items)).makers }
        ensures given { result ≡ (declared_past self.old (messages_of file.now.items)).given }
    {
        let mut given = [None; 256];
        for item in file.items() {
            if let FileItem::Data(message, _) = item {
                self.take(&mut given, message);
            }
        }
        given
    }

    // Hears the next message of a part.
    fn take(&mut self, given: &mut Given, message: DataMessage<'a>)
        ensures { (time : Option ℕ) → record { makers = self.new; given = given.new }
            ≡ declared_after (record { makers = self.old; given = given.old })
            (message_under message.entry.definition time message.entry.content.now) }
    {
        if message.definition.global() != 207 {
            return;
        }
        let definition = message.definition.read();
        let content = message.content;
        if let Some(index) = index_stated(message) {
            self.declare(given, index, LentMaker::of(&definition, content));
        }
    }

    // Hears that this index of a part has this maker. The first maker of an index counts.
    fn declare(&mut self, given: &mut Given, index: u8, maker: LentMaker<'a>)
        ensures { record { makers = self.new; given = given.new }
            ≡ declared_by (record { makers = self.old; given = given.old }) (maker_lent maker.entry) index }
    {
        if given[usize::from(index)].is_some() {
            return;
        }
        let new = self.index_for(index, maker);
        self.slots[usize::from(new)] = Some(maker);
        given[usize::from(index)] = Some(new);
    }

    // The index that data of this maker has in the joined file.
    fn index_for(&self, index: u8, maker: LentMaker<'a>) -> u8
        ensures { result ≡ index_for self.now (maker_lent maker.entry) index }
    {
        if self.is_open(index, maker) {
            return index;
        }
        match self.first_open(maker) {
            Some(open) => open,
            None => index,
        }
    }

    // The first index that is open to this maker.
    fn first_open(&self, maker: LentMaker<'a>) -> Option<u8>
        ensures { result ≡ first_open self.now (maker_lent maker.entry) }
    {
        (0..255_u8).find(|index| self.is_open(*index, maker))
    }

    // Whether this index is open to this maker.
    fn is_open(&self, index: u8, maker: LentMaker<'a>) -> bool
        ensures { result ≡ is_open self.now (maker_lent maker.entry) index }
    {
        maker.opens(self.slots[usize::from(index)])
    }
}

// The index of a part in the joined file.
pub(crate) fn index_in(given: &Given, index: u8) -> u8
    ensures { result ≡ index_in given.now index }
{
    given[usize::from(index)].unwrap_or(index)
}

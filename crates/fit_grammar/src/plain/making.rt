// Making the plain form of a file, item by item.

ghost use Rattle.std.specs.Prelude.{◌≡◌, ◌<◌, ◌≤◌, ◌+◌, ◌^◌, ◌⊎◌, ◌∷◌, ◌++◌, [], Some, is_some, slice_set, true, false, IfSome, IfNone, OnOk, IfErr, length};
ghost use Rattle.fit_grammar.specs.Format.File.{IsFrame};
ghost use Rattle.fit_grammar.specs.Format.Item.{Defines, item_size};
ghost use Rattle.fit_grammar.specs.Format.Records.{in_force, data_size};
ghost use Rattle.fit_grammar.specs.Calls.Adding.{with_item, IsTooLong};
ghost use Rattle.fit_grammar.specs.Calls.LentItem.{lent_item, DataHere};
ghost use Rattle.fit_grammar.specs.Calls.PlainForm.{none_timed, timed_after, plain_item, plain_data, plain_definition, timed_definition, is_too_long, time_bytes as time_bytes_of};
ghost use Rattle.fit_grammar.specs.Private.PlainSoFar.{IsReady, lent_data};

use crate::definition::{Definition, DefinitionMessage, FieldDefinition};
use crate::file::{File, Frame};
use crate::item::{DataMessage, FileItem};
use crate::plain::PlainFaultKind;
use fit_base::Arch;
use std::alloc::{AllocError, Global};

// The plain form of the items so far, and whether the last definition of each local number has field 253 in front.
#[derive(Drop)]
pub(crate) struct Plain {
    file: File,
    timed: [bool; 16],
}

impl Plain {
    // The plain form of no items.
    pub(crate) fn new(alloc: Global, frame: Frame) -> Plain
        requires { IsFrame frame }
        ensures frame { result.file.frame ≡ frame }
        ensures items { result.file.items ≡ [] }
        ensures timed { result.timed ≡ none_timed }
    {
        Plain {
            file: File::new(alloc, frame),
            timed: [false; 16],
        }
    }

    // The finished file.
    pub(crate) fn into_file(self) -> File
        ensures { result ≡ self.file }
    {
        self.file
    }

    // Takes the next item of the file.
    pub(crate) fn take(&mut self, item: &FileItem<'_>) -> Result<(), PlainFaultKind>
        requires { IsReady self.old.file.items self.old.timed (lent_item item.now) }
        ensures frame { OnOk result (self.new.file.frame ≡ self.old.file.frame) }
        ensures items { OnOk result (self.new.file.items
            ≡ self.old.file.items ++ plain_item self.old.timed (lent_item item.now)) }
        ensures timed { OnOk result (self.new.timed
            ≡ timed_after self.old.timed (lent_item item.now)) }
        ensures fits { OnOk result (is_too_long (data_size self.old.file.items)
            (plain_item self.old.timed (lent_item item.now)) ≡ false) }
        ensures too_long { IfErr result (λ kind. kind ≡ PlainFaultKind.TooLong
            → is_too_long (data_size self.old.file.items)
            (plain_item self.old.timed (lent_item item.now)) ≡ true) }
        ensures memory { IfErr result (λ kind. kind ≡ PlainFaultKind.Memory
            → is_too_long (data_size self.old.file.items)
            (plain_item self.old.timed (lent_item item.now)) ≡ false) }
    {
        match item {
            FileItem::Definition(definition) => self.take_definition(definition),
            FileItem::Data(message, time) => self.take_data(message, *time),
        }
    }

    // Takes a definition. Not inlined, so no message pays for its room.
    #[inline(never)]
    fn take_definition(&mut self, definition: &DefinitionMessage<'_>) -> Result<(), PlainFaultKind>
        requires { definition.now.local < 16 }
        ensures file { OnOk result (self.new.file
            ≡ with_item self.old.file (Defines definition.now)) }
        ensures timed { OnOk result
            (self.new.timed ≡ slice_set self.old.timed definition.now.local false) }
        ensures fits { OnOk result (is_too_long (data_size self.old.file.items)
            (Defines definition.now ∷ []) ≡ false) }
        ensures too_long { IfErr result (λ kind. kind ≡ PlainFaultKind.TooLong
            → is_too_long (data_size self.old.file.items) (Defines definition.now ∷ []) ≡ true) }
        ensures memory { IfErr result (λ kind. kind ≡ PlainFaultKind.Memory
            → is_too_long (data_size self.old.file.items) (Defines definition.now ∷ []) ≡ false) }
    {
        self.define(&definition.read(), false, 0)
    }

    // Takes a data message, and writes out its time if it has one.
    fn take_data(
        &mut self,
        message: &DataMessage<'_>,
        time: Option<u32>,
    ) -> Result<(), PlainFaultKind>
        requires { IsReady self.old.file.items self.old.timed
            (DataHere (lent_data message.now time)) }
        ensures frame { OnOk result (self.new.file.frame ≡ self.old.file.frame) }
        ensures items { OnOk result (self.new.file.items
            ≡ self.old.file.items
            ++ plain_item self.old.timed (DataHere (lent_data message.now time))) }
        ensures timed { OnOk result
            (self.new.timed ≡ slice_set self.old.timed message.now.local (is_some time)) }
        ensures fits { OnOk result (is_too_long (data_size self.old.file.items)
            (plain_item self.old.timed (DataHere (lent_data message.now time))) ≡ false) }
        ensures too_long { IfErr result (λ kind. kind ≡ PlainFaultKind.TooLong
            → is_too_long (data_size self.old.file.items)
            (plain_item self.old.timed (DataHere (lent_data message.now time))) ≡ true) }
        ensures memory { IfErr result (λ kind. kind ≡ PlainFaultKind.Memory
            → is_too_long (data_size self.old.file.items)
            (plain_item self.old.timed (DataHere (lent_data message.now time))) ≡ false) }
    {
        let timed = time.is_some();
        let size = plain_size(message, time);
        if self.timed[message.local as usize] != timed {
            self.define_plain(&message.definition, timed, size)?;
        } else if size > self.file.room() {
            return Err(PlainFaultKind::TooLong);
        }
        self.put(message, time)?;
        Ok(())
    }

    // Adds the definition of a plain form, if an item of `following` bytes still fits after it. Not inlined, as `take_definition`.
    #[inline(never)]
    fn define_plain(
        &mut self,
        definition: &DefinitionMessage<'_>,
        timed: bool,
        following: usize,
    ) -> Result<(), PlainFaultKind>
        requires local { definition.now.local < 16 }
        requires small { following ≤ 130055 }
        ensures file { OnOk result (self.new.file
            ≡ with_item self.old.file (Defines (timed_definition timed definition.now))) }
        ensures timed { OnOk result
            (self.new.timed ≡ slice_set self.old.timed definition.now.local timed) }
        ensures few { OnOk result
            (length (timed_definition timed definition.now).fields.items ≤ 255) }
        ensures fits { OnOk result (data_size self.old.file.items
            + item_size (Defines (timed_definition timed definition.now)) + following < 2 ^ 32) }
        ensures too_long { IfErr result (λ kind. kind ≡ PlainFaultKind.TooLong
            → (255 < length (timed_definition timed definition.now).fields.items)
            ⊎ (2 ^ 32 ≤ data_size self.old.file.items
            + item_size (Defines (timed_definition timed definition.now)) + following)) }
        ensures memory { IfErr result (λ kind. kind ≡ PlainFaultKind.Memory
            → (length (timed_definition timed definition.now).fields.items ≤ 255)
            × (data_size self.old.file.items
            + item_size (Defines (timed_definition timed definition.now)) + following < 2 ^ 32)) }
    {
        match plain_definition_of(definition, timed) {
            Some(definition) => self.define(&definition, timed, following),
            None => Err(PlainFaultKind::TooLong),
        }
    }

    // Adds a definition, with field 253 in front or not, if an item of `following` bytes still fits after it.
    fn define(
        &mut self,
        d: &Definition,
        timed: bool,
        following: usize,
    ) -> Result<(), PlainFaultKind>
        requires local { d.now.local < 16 }
        requires small { following ≤ 130055 }
        ensures file { OnOk result (self.new.file ≡ with_item self.old.file (Defines d.now)) }
        ensures timed { OnOk result (self.new.timed ≡ slice_set self.old.timed d.now.local timed) }
        ensures fits { OnOk result
            (data_size self.old.file.items + item_size (Defines d.now) + following < 2 ^ 32) }
        ensures too_long { IfErr result (λ kind. kind ≡ PlainFaultKind.TooLong
            → 2 ^ 32 ≤ data_size self.old.file.items + item_size (Defines d.now) + following) }
        ensures memory { IfErr result (λ kind. kind ≡ PlainFaultKind.Memory
            → data_size self.old.file.items + item_size (Defines d.now) + following < 2 ^ 32) }
    {
        if d.size() + following > self.file.room() {
            return Err(PlainFaultKind::TooLong);
        }
        self.file.push_definition(d)?;
        self.timed[d.local as usize] = timed;
        Ok(())
    }

    // Adds the plain form of a message. Its definition is in force.
    fn put(&mut self, message: &DataMessage<'_>, time: Option<u32>) -> Result<(), AllocError>
        requires local { message.now.local < 16 }
        requires in_force { in_force self.old.file.items message.now.local
            ≡ Some (plain_definition (lent_data message.now time)) }
        requires fits { IsTooLong self.old.file (plain_data (lent_data message.now time)) → ⊥ }
        ensures file { OnOk result (self.new.file
            ≡ with_item self.old.file (plain_data (lent_data message.now time))) }
        ensures timed { self.new.timed ≡ self.old.timed }
    {
        match time {
            Some(time) => {
                let bytes = bytes_of_time(message.definition.arch(), time);
                self.file.push_timed(message.local, &bytes, message.content)
            }
            None => self.file.push_data(message.local, None, message.content),
        }
    }
}

// The number of bytes of a message's plain form.
fn plain_size(message: &DataMessage<'_>, time: Option<u32>) -> usize
    ensures size { result ≡ item_size (plain_data (lent_data message.now time)) }
    ensures bound { result ≤ 130055 }
{
    let front = if time.is_some() { 5 } else { 1 };
    front + message.definition.content_size()
}

// The definition of a plain form, with field 253 in front or not. `None` if it would have 256 fields.
pub(crate) fn plain_definition_of(
    message: &DefinitionMessage<'_>,
    timed: bool,
) -> Option<Definition>
    ensures definition { IfSome result (λ d. d ≡ timed_definition timed message.now) }
    ensures full { IfNone result (255 < length (timed_definition timed message.now).fields.items) }
{
    let mut definition = message.read();
    if timed {
        if definition.fields.is_full() {
            return None;
        }
        let time = FieldDefinition {
            number: 253,
            size: 4,
            base: 0x86,
        };
        definition.fields.insert(0, time);
    }
    Some(definition)
}

// The four bytes of a time.
pub(crate) fn bytes_of_time(arch: Arch, time: u32) -> [u8; 4]
    ensures { result ≡ time_bytes_of arch time }
{
    match arch {
        Arch::Little => time.to_le_bytes(),
        Arch::Big => time.to_be_bytes(),
    }
}

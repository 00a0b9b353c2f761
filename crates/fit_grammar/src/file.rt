// A file in memory.

ghost use Rattle.std.specs.Prelude.{◌≡◌, ◌<◌, ◌≤◌, ◌+◌, ◌++◌, [], None, ◌↔◌, ◌⊎◌, length, map, Ok, Err, OnOk, OnErr, IfOk, IfErr, IsErrOf, IsTrue, ◌^◌};
ghost use Rattle.fit_grammar.specs.Format.Records.{in_force, IsDefined, data_size};
ghost use Rattle.fit_grammar.specs.Format.Encoding.{HasEncoding, encoded_items};
ghost use Rattle.fit_grammar.specs.Format.Item.{Defines, Data, content_size};
ghost use Rattle.fit_grammar.specs.Format.Message.{messages_of};
ghost use Rattle.fit_grammar.specs.Calls.Possible.{CanBeFile};
ghost use Rattle.fit_grammar.specs.Calls.LentItem.{items_lent, item_lent, messages_in, AllUnder};
ghost use Rattle.fit_grammar.specs.Calls.Step.{least_length_of};
ghost use Rattle.fit_grammar.specs.Format.File.{IsFrame};
ghost use Rattle.fit_grammar.specs.Calls.Adding.{with_item, IsTooLong, IsUndefined, HasWrongLength, CanHold, IsOffset};

mod carry;
mod closing;
mod decode;
mod decoder;
pub(crate) mod encode;
mod extending;
mod fault;
mod frame;
mod header;
mod lent;
mod passing;
mod places;
mod reading;
mod state;
mod taking;

use crate::definition::kept::WrittenDefinition;
use crate::definition::{Definition, Definitions, Table};
use crate::item::writing::data_byte;
use crate::item::{ItemFault, Items, least_length};
use crate::message::Messages;
pub use decode::decode_file;
pub use decoder::Decoder;
pub use encode::{encode_file, encode_records, header_front, put_checked, put_header};
pub use extending::{encode_extended, encode_file_extended};
pub use fault::{EncodeFault, FaultKind, FileFault, PutFault};
pub use frame::Frame;
pub use header::{Header, read_header_front};
pub use lent::LentFile;
pub use places::Places;
use std::alloc::{AllocError, Global};
use std::marker::Model;

/// A file: its frame, and a row of items. Each data message has a definition in force, whose sizes add up to the length of its
/// content.
#[derive(Drop)]
pub struct File {
    frame: Frame,
    // The items as they are written, one after another.
    records: Vec<u8>,
    table: Table,
}

impl Model for File {
    ghost use Rattle.fit_grammar.specs.Format.File.{FileValue};

    ghost Value = { FileValue };

    ghost use Rattle.fit_grammar.specs.Private.KeptFile.{file_view, IsKept};

    ghost view = { file_view };

    ghost invariant = { IsKept };
}

impl File {
    /// A file of this frame, with no items.
    pub fn new(alloc: Global, frame: Frame) -> File
        requires { IsFrame frame }
        ensures frame { result.frame ≡ frame }
        ensures items { result.items ≡ [] }
    {
        File {
            frame,
            records: Vec::new(alloc),
            table: Table::new(),
        }
    }

    /// What the header gives beside the length of the records.
    pub fn frame(&self) -> Frame
        ensures frame { result ≡ self.now.frame }
        ensures valid { IsFrame result }
        // Holds of every file.
        ensures possible { CanBeFile self.now }
    {
        self.frame
    }

    /// The number of bytes of the records.
    pub fn data_size(&self) -> u32
        ensures { result ≡ data_size self.now.items }
    {
        self.records.len() as u32
    }

    // How many more bytes the records can have.
    pub(crate) fn room(&self) -> usize
        ensures { result + data_size self.now.items + 1 ≡ 2 ^ 32 }
    {
        (u32::MAX - self.data_size()) as usize
    }

    // The bytes of the records, as they are written.
    pub(crate) fn records(&self) -> &[u8]
        ensures { result.now ≡ encoded_items self.now.items }
    {
        &self.records
    }

    // The least number of bytes that the next item has, as far as the window shows.
    pub(crate) fn least_length(&self, window: &[u8]) -> Result<usize, ItemFault>
        ensures answer { result ≡ least_length_of (in_force self.now.items) window.now }
        ensures bound { IfOk result (λ least. least ≤ 130051) }
    {
        least_length(window, &self.table)
    }

    /// The same file, lent in the bytes that it keeps.
    pub fn lend(&self) -> LentFile<'_>
        ensures { result ≡ self.now }
    {
        LentFile {
            frame: self.frame,
            records: &self.records,
            size: self.data_size(),
        }
    }

    /// The messages in order. The time of a compressed timestamp is counted from the last time before it, or from 0 if there is
    /// none.
    pub fn messages(&self) -> Messages<'_>
        ensures { result ≡ messages_of self.now.items }
    {
        self.lend().messages()
    }

    /// The items in order, each with what is needed to read it where it is: a data message comes with its definition in force
    /// and the time of its compressed timestamp, counted as in `messages`.
    pub fn items(&self) -> Items<'_>
        ensures items { result ≡ items_lent self.now.items }
        // They are the items of the file.
        ensures same { map item_lent result ≡ self.now.items }
        // Each data message has the last definition of its local number before it.
        ensures under { AllUnder (in_force []) result }
        // They encode the messages of the file.
        ensures messages { messages_in result ≡ messages_of self.now.items }
    {
        self.lend().items()
    }

    /// Adds a definition, which is in force for its local number from here on.
    pub fn define(&mut self, d: &Definition) -> Result<(), PutFault>
        requires { d.now.local < 16 }
        ensures ok { OnOk result (self.new ≡ with_item self.old (Defines d.now)) }
        ensures err { OnErr result (self.new ≡ self.old) }
        ensures too_long { IsErrOf result PutFault.TooLong ↔ IsTooLong self.old (Defines d.now) }
        ensures memory { IfErr result (λ fault. (fault ≡ PutFault.TooLong)
            ⊎ (fault ≡ PutFault.Memory)) }
    {
        if d.size() > self.room() {
            return Err(PutFault::TooLong);
        }
        self.push_definition(d)?;
        Ok(())
    }

    // Adds a definition.
    pub(crate) fn push_definition(&mut self, d: &Definition) -> Result<(), AllocError>
        requires local { d.now.local < 16 }
        requires fits { IsTooLong self.old (Defines d.now) → ⊥ }
        ensures ok { OnOk result (self.new ≡ with_item self.old (Defines d.now)) }
        ensures err { OnErr result (self.new ≡ self.old) }
    {
        let written = WrittenDefinition::new(d);
        self.records.extend_from_slice(written.bytes())?;
        self.table.keep(written);
        Ok(())
    }

    /// Adds a data message with this content under the definition in force of its local number, with the time offset of a
    /// compressed timestamp or none. The faults are checked in the order of their numbers.
    pub fn data(&mut self, local: u8, offset: Option<u8>, content: &[u8]) -> Result<(), PutFault>
        ensures ok { OnOk result (self.new ≡ with_item self.old (Data local offset content.now)) }
        ensures err { OnErr result (self.new ≡ self.old) }
        ensures undefined { IsErrOf result PutFault.UndefinedLocal ↔ IsUndefined self.old local }
        ensures length { IsErrOf result PutFault.Length
            ↔ HasWrongLength self.old local offset content.now }
        ensures too_long { IsErrOf result PutFault.TooLong
            ↔ (CanHold self.old local offset content.now
            × IsTooLong self.old (Data local offset content.now)) }
    {
        let Some(definition) = self.table.get(local) else {
            return Err(PutFault::UndefinedLocal);
        };
        if definition.content_size() != content.len() || !can_offset(local, offset) {
            return Err(PutFault::Length);
        }
        if 1 + content.len() > self.room() {
            return Err(PutFault::TooLong);
        }
        self.push_data(local, offset, content)?;
        Ok(())
    }

    // Adds a data message.
    pub(crate) fn push_data(
        &mut self,
        local: u8,
        offset: Option<u8>,
        content: &[u8],
    ) -> Result<(), AllocError>
        requires small { length content.now < 2 ^ 32 }
        requires encodable { HasEncoding (Data local offset content.now) }
        requires defined { IsDefined self.old.items (Data local offset content.now) }
        requires fits { IsTooLong self.old (Data local offset content.now) → ⊥ }
        ensures ok { OnOk result (self.new ≡ with_item self.old (Data local offset content.now)) }
        ensures err { OnErr result (self.new ≡ self.old) }
    {
        self.records.reserve(1 + content.len())?;
        self.records.push_reserved(data_byte(local, offset));
        self.records.extend_from_slice(content).unwrap();
        Ok(())
    }

    // Adds a data message without a compressed timestamp. Its content comes after the bytes of its time.
    pub(crate) fn push_timed(
        &mut self,
        local: u8,
        time: &[u8],
        content: &[u8],
    ) -> Result<(), AllocError>
        requires four { length time.now ≡ 4 }
        requires small { length content.now < 2 ^ 32 }
        requires local { local < 16 }
        requires defined { IsDefined self.old.items (Data local None (time.now ++ content.now)) }
        requires fits { IsTooLong self.old (Data local None (time.now ++ content.now)) → ⊥ }
        ensures ok { OnOk result (self.new
            ≡ with_item self.old (Data local None (time.now ++ content.now))) }
        ensures err { OnErr result (self.new ≡ self.old) }
    {
        self.records.reserve(1 + time.len() + content.len())?;
        self.records.push_reserved(local);
        self.records.extend_from_slice(time).unwrap();
        self.records.extend_from_slice(content).unwrap();
        Ok(())
    }
}

// A time offset is below 32, and only local numbers below 4 have one.
fn can_offset(local: u8, offset: Option<u8>) -> bool
    ensures { IsTrue result ↔ IsOffset local offset }
{
    match offset {
        None => true,
        Some(offset) => local < 4 && offset < 32,
    }
}

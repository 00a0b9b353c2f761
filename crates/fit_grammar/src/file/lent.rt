// A file, lent in its bytes.

ghost use Rattle.std.specs.Prelude.{◌≡◌, ◌≢◌, map, [], IfOk, IfErr, OnErr};
ghost use Rattle.fit_grammar.specs.Format.Records.{in_force, data_size};
ghost use Rattle.fit_grammar.specs.Format.Message.{messages_of};
ghost use Rattle.fit_grammar.specs.Format.File.{FileValue as AnyFile, FileOf, IsFrame};
ghost use Rattle.fit_grammar.specs.Format.Refusal.{Refusal};
ghost use Rattle.fit_grammar.specs.Calls.LentItem.{items_lent, item_lent, messages_in, AllUnder};
ghost use Rattle.fit_grammar.specs.Calls.Possible.{CanBeFile};
ghost use Rattle.fit_grammar.specs.Private.Passing.{HasPassedAll, framed_items};

use crate::file::header::{Header, read_header};
use crate::file::passing::{close, pass_items};
use crate::file::{FaultKind, FileFault, Frame};
use crate::item::Items;
use crate::message::Messages;
use std::marker::Model;

/// A file, borrowed in its bytes: its frame, and the row of its items where they are. It takes no memory.
#[derive(Drop)]
pub struct LentFile<'a> {
    pub(crate) frame: Frame,
    // The bytes of the items, one after another.
    pub(crate) records: &'a [u8],
    // The number of bytes that the items are written as.
    pub(crate) size: u32,
}

impl<'a> Model for LentFile<'a> {
    ghost use Rattle.fit_grammar.specs.Format.File.{FileValue};

    ghost Value = { FileValue };

    ghost use Rattle.fit_grammar.specs.Private.LentRow.{lent_view, IsLent};

    ghost view = { lent_view };

    ghost invariant = { IsLent };
}

impl Default for LentFile<'_> {
    ghost is_default = { λ file. file.items ≡ [] };

    /// A file without items.
    fn default() -> Self {
        LentFile {
            frame: Frame {
                header_size: 14,
                protocol: 0x10,
                profile: 0,
            },
            records: &[],
            size: 0,
        }
    }
}

impl<'a> LentFile<'a> {
    /// Reads a whole file where it is, in one pass over its items and one for the checksum. Bytes are judged in their order: the
    /// fault is the one that the shortest faulty prefix shows, as `decode_file` finds it. It is never `Memory`.
    pub fn read(bytes: &'a [u8]) -> Result<LentFile<'a>, FileFault>
        // The file is what the bytes encode.
        ensures file { IfOk result (FileOf bytes.now) }
        // A file is always read.
        ensures taken { (v : AnyFile) → FileOf bytes.now v → OnErr result ⊥ }
        // Bytes that are no file are refused with this fault.
        ensures refused { IfErr result
            (λ fault. (fault.kind ≢ FaultKind.Memory) × Refusal bytes.now fault.kind fault.place) }
    {
        let header = read_header(bytes)?;
        let size = pass_items(bytes, header)?;
        close(
            bytes,
            header.frame.header_size as usize + header.data_size as usize,
        )?;
        Ok(LentFile::of_passed(bytes, header, size))
    }

    // The file whose items after this header were all passed over. They are written as `size` bytes.
    fn of_passed(bytes: &'a [u8], header: Header, size: u32) -> LentFile<'a>
        requires { HasPassedAll bytes.now header size }
        ensures { (passed : HasPassedAll bytes.now header size)
            → result ≡ framed_items header.frame passed.items }
    {
        let (_, after) = bytes.split_at(header.frame.header_size as usize);
        let (records, _) = after.split_at(header.data_size as usize);
        LentFile {
            frame: header.frame,
            records,
            size,
        }
    }

    /// What the header gives beside the length of the records.
    pub fn frame(&self) -> Frame
        ensures frame { result ≡ self.now.frame }
        ensures valid { IsFrame result }
        // Holds of every file.
        ensures possible { CanBeFile self.now }
    {
        self.frame
    }

    /// The number of bytes that the records are written as. Each definition that announces developer fields and has none has
    /// one byte more where it is lent.
    pub fn data_size(&self) -> u32
        ensures { result ≡ data_size self.now.items }
    {
        self.size
    }

    /// The messages in order. The time of a compressed timestamp is counted from the last time before it, or from 0 if there is
    /// none.
    pub fn messages(&self) -> Messages<'a>
        ensures { result ≡ messages_of self.now.items }
    {
        Messages::new(self.items())
    }

    /// The items in order, each with what is needed to read it where it is: a data message comes with its definition in force
    /// and the time of its compressed timestamp, counted as in `messages`.
    pub fn items(&self) -> Items<'a>
        ensures items { result ≡ items_lent self.now.items }
        // They are the items of the file.
        ensures same { map item_lent result ≡ self.now.items }
        // Each data message has the last definition of its local number before it.
        ensures under { AllUnder (in_force []) result }
        // They encode the messages of the file.
        ensures messages { messages_in result ≡ messages_of self.now.items }
    {
        Items::new(self.records)
    }
}

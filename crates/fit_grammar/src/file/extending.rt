// Writing a file with more items around its own, without memory.

ghost use Rattle.std.specs.Prelude.{◌≡◌, ◌<◌, ◌+◌, ◌^◌, ◌++◌, [], ℕ, List, length};
ghost use Rattle.fit_base.specs.Checksum.{crc};
ghost use Rattle.fit_base.specs.declared.order.Arch.TheVariants.{Little};
ghost use Rattle.fit_grammar.specs.Format.Item.{Item as AnyItem, Data};
ghost use Rattle.fit_grammar.specs.Format.Encoding.{encoded, encoded_header, encoded_item, encoded_items, two_bytes, HasEncoding};
ghost use Rattle.fit_grammar.specs.Format.Records.{data_size};
ghost use Rattle.fit_grammar.specs.Calls.Extended.{with_items};
ghost use Rattle.fit_grammar.specs.Calls.LentItem.{lent_item, item_lent};
ghost use Rattle.fit_grammar.specs.Calls.Output.{WritesText};
ghost use Rattle.fit_grammar.specs.Calls.CheckedOutput.{WritesChecked};

use crate::file::encode::{put_checked, put_header};
use crate::file::{File, Frame, LentFile};
use crate::item::writing::data_byte;
use crate::item::{DataMessage, FileItem};
use crate::plain::writing::put_definition;
use crate::sink::Sink;
use fit_base::Crc;

/// Writes a file with more items before and after its own, given the bytes that those are written as; at an `Err`, a prefix of it. It
/// takes no memory.
pub fn encode_extended<S: Sink>(
    before: &[u8],
    file: &LentFile<'_>,
    after: &[u8],
    out: &mut S,
) -> Result<(), S::Fault>
    requires { length before.now + data_size file.now.items + length after.now < 2 ^ 32 }
    ensures { (first last : List AnyItem) → before.now ≡ encoded_items first
        → after.now ≡ encoded_items last
        → WritesText (S.held out.old) (S.held out.new) result
        (encoded (with_items first file.now last)) }
{
    let mut checksum = Crc::new();
    let size = before.len() as u32 + file.data_size() + after.len() as u32;
    put_beginning(out, &mut checksum, file.frame(), size, before)?;
    put_own_items(out, &mut checksum, file)?;
    put_end(out, &mut checksum, after)
}

/// The same of a file in memory, whose items are written at once.
pub fn encode_file_extended<S: Sink>(
    before: &[u8],
    file: &File,
    after: &[u8],
    out: &mut S,
) -> Result<(), S::Fault>
    requires { length before.now + data_size file.now.items + length after.now < 2 ^ 32 }
    ensures { (first last : List AnyItem) → before.now ≡ encoded_items first
        → after.now ≡ encoded_items last
        → WritesText (S.held out.old) (S.held out.new) result
        (encoded (with_items first file.now last)) }
{
    let mut checksum = Crc::new();
    let size = before.len() as u32 + file.data_size() + after.len() as u32;
    put_beginning(out, &mut checksum, file.frame(), size, before)?;
    put_checked(out, &mut checksum, file.records())?;
    put_end(out, &mut checksum, after)
}

// The header over `size` bytes of records, and the first items.
fn put_beginning<S: Sink>(
    out: &mut S,
    checksum: &mut Crc,
    frame: Frame,
    size: u32,
    before: &[u8],
) -> Result<(), S::Fault>
    ensures { WritesChecked (S.held out.old)
        (S.held out.new) checksum.old checksum.new result
        (encoded_header frame size ++ before.now) }
{
    put_header(out, checksum, frame, size)?;
    put_checked(out, checksum, before)
}

// The last items, and the checksum of all bytes before it.
fn put_end<S: Sink>(out: &mut S, checksum: &mut Crc, after: &[u8]) -> Result<(), S::Fault>
    ensures { (bytes : List ℕ) → checksum.old ≡ crc bytes
        → WritesText (S.held out.old) (S.held out.new) result
        (after.now ++ two_bytes Little (crc (bytes ++ after.now))) }
{
    put_checked(out, checksum, after)?;
    out.put(&checksum.value().to_le_bytes())
}

// The items of the file, which are added to the checksum.
fn put_own_items<S: Sink>(
    out: &mut S,
    checksum: &mut Crc,
    file: &LentFile<'_>,
) -> Result<(), S::Fault>
    ensures { WritesChecked (S.held out.old)
        (S.held out.new) checksum.old checksum.new result
        (encoded_items file.now.items) }
{
    // Each item of a file has an encoding.
    let _frame = file.frame();
    for item in file.items() {
        put_own_item(out, checksum, &item)?;
    }
    Ok(())
}

fn put_own_item<S: Sink>(
    out: &mut S,
    checksum: &mut Crc,
    item: &FileItem<'_>,
) -> Result<(), S::Fault>
    requires { HasEncoding (item_lent (lent_item item.now)) }
    ensures { WritesChecked (S.held out.old)
        (S.held out.new) checksum.old checksum.new result
        (encoded_item (item_lent (lent_item item.now))) }
{
    match item {
        FileItem::Definition(definition) => put_definition(out, checksum, &definition.read()),
        FileItem::Data(message, _) => put_message(out, checksum, message),
    }
}

// A data message, with its time offset if it has one.
fn put_message<S: Sink>(
    out: &mut S,
    checksum: &mut Crc,
    message: &DataMessage<'_>,
) -> Result<(), S::Fault>
    requires { HasEncoding (Data message.now.local message.now.offset []) }
    ensures { WritesChecked (S.held out.old)
        (S.held out.new) checksum.old checksum.new result
        (encoded_item (Data message.now.local message.now.offset message.now.content.now)) }
{
    put_checked(out, checksum, &[data_byte(message.local, message.offset)])?;
    put_checked(out, checksum, message.content)
}

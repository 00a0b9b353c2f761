// Writing the plain form of a file, item by item and without memory.

ghost use Rattle.std.specs.Prelude.{◌≡◌, ◌<◌, OnOk, slice_set};
ghost use Rattle.fit_grammar.specs.Format.Encoding.{encoded, encoded_item, encoded_items};
ghost use Rattle.fit_grammar.specs.Format.Item.{Defines};
ghost use Rattle.fit_grammar.specs.Format.Records.{data_size};
ghost use Rattle.fit_grammar.specs.Calls.LentItem.{lent_item};
ghost use Rattle.fit_grammar.specs.Calls.Output.{WritesText};
ghost use Rattle.fit_grammar.specs.Calls.PlainWriting.{JudgesFields};
ghost use Rattle.fit_grammar.specs.Calls.PlainForm.{plain_of, plain_items, plain_item, plain_data, timed_after, definitions_before, is_timed, time_front};
ghost use Rattle.fit_grammar.specs.Calls.CheckedOutput.{WritesChecked};
ghost use Rattle.fit_grammar.specs.Private.PlainSoFar.{lent_data};
ghost use Rattle.fit_grammar.specs.Private.PlainWritten.{IsWritable};

use crate::definition::Definition;
use crate::definition::kept::WrittenDefinition;
use crate::file::LentFile;
use crate::file::encode::{put_checked, put_header};
use crate::item::{DataMessage, FileItem};
use crate::plain::making::{bytes_of_time, plain_definition_of};
use crate::sink::Sink;
use fit_base::{Arch, Crc};

/// Why a plain form was not written.
#[derive(Clone, Copy, Debug, PartialEq, Eq)]
pub enum WritePlainFault<F> {
    /// The definition of a message would have 256 fields.
    TooLong,
    /// The bytes were not taken.
    Write(F),
}

/// Writes the records of a file's plain form, as `plain_file` makes it; at an `Err`, a prefix of them. It takes no memory.
pub fn write_plain_records<S: Sink>(
    file: &LentFile<'_>,
    out: &mut S,
) -> Result<(), WritePlainFault<S::Fault>>
    ensures text { WritesText (S.held out.old) (S.held out.new) result
        (encoded_items (plain_items file.now.items)) }
    ensures fields { JudgesFields (plain_items file.now.items) result }
{
    let mut checksum = Crc::new();
    put_items(out, &mut checksum, file)
}

/// Writes a file's plain form, whose records have `size` bytes: what `encode_file` writes of the file that `plain_file` makes. At an
/// `Err`, a prefix of it. It takes no memory.
pub fn write_plain<S: Sink>(
    file: &LentFile<'_>,
    size: u32,
    out: &mut S,
) -> Result<(), WritePlainFault<S::Fault>>
    requires { size ≡ data_size (plain_items file.now.items) }
    ensures text { WritesText (S.held out.old) (S.held out.new) result
        (encoded (plain_of file.now)) }
    ensures fields { JudgesFields (plain_items file.now.items) result }
{
    let mut checksum = Crc::new();
    put_header(out, &mut checksum, file.frame(), size)?;
    put_items(out, &mut checksum, file)?;
    out.put(&checksum.value().to_le_bytes())?;
    Ok(())
}

// The records, which are added to the checksum.
fn put_items<S: Sink>(
    out: &mut S,
    checksum: &mut Crc,
    file: &LentFile<'_>,
) -> Result<(), WritePlainFault<S::Fault>>
    ensures text { WritesChecked (S.held out.old)
        (S.held out.new) checksum.old checksum.new result
        (encoded_items (plain_items file.now.items)) }
    ensures fields { JudgesFields (plain_items file.now.items) result }
{
    let mut timed = [false; 16];
    for item in file.items() {
        put_item(out, checksum, &mut timed, &item)?;
    }
    Ok(())
}

// What is written for an item.
fn put_item<S: Sink>(
    out: &mut S,
    checksum: &mut Crc,
    timed: &mut [bool; 16],
    item: &FileItem<'_>,
) -> Result<(), WritePlainFault<S::Fault>>
    requires { IsWritable (lent_item item.now) }
    ensures text { WritesChecked (S.held out.old)
        (S.held out.new) checksum.old checksum.new result
        (encoded_items (plain_item timed.old (lent_item item.now))) }
    ensures timed { OnOk result (timed.new ≡ timed_after timed.old (lent_item item.now)) }
    ensures fields { JudgesFields (plain_item timed.old (lent_item item.now)) result }
{
    match item {
        FileItem::Definition(definition) => {
            put_definition(out, checksum, &definition.read())?;
            timed[definition.local() as usize] = false;
            Ok(())
        }
        FileItem::Data(message, time) => {
            put_definition_before(out, checksum, timed, message, time.is_some())?;
            put_data(out, checksum, message, *time)?;
            Ok(())
        }
    }
}

// The definition before a message, with the time in front or not, if the last one of its local number does not fit.
fn put_definition_before<S: Sink>(
    out: &mut S,
    checksum: &mut Crc,
    timed: &mut [bool; 16],
    message: &DataMessage<'_>,
    needs: bool,
) -> Result<(), WritePlainFault<S::Fault>>
    requires { (message.now.local < 16) × (message.now.definition.local ≡ message.now.local) }
    ensures text { WritesChecked (S.held out.old)
        (S.held out.new) checksum.old checksum.new result
        (encoded_items
        (definitions_before (is_timed timed.old message.now.local) needs message.now.definition)) }
    ensures timed { OnOk result (timed.new ≡ slice_set timed.old message.now.local needs) }
    ensures fields { JudgesFields
        (definitions_before (is_timed timed.old message.now.local) needs message.now.definition)
        result }
{
    if timed[message.local as usize] == needs {
        return Ok(());
    }
    let Some(definition) = plain_definition_of(&message.definition, needs) else {
        return Err(WritePlainFault::TooLong);
    };
    put_definition(out, checksum, &definition)?;
    timed[message.local as usize] = needs;
    Ok(())
}

/// Hands over a definition, and adds it to the checksum.
pub fn put_definition<S: Sink>(
    out: &mut S,
    checksum: &mut Crc,
    definition: &Definition,
) -> Result<(), S::Fault>
    requires { definition.now.local < 16 }
    ensures { WritesChecked (S.held out.old)
        (S.held out.new) checksum.old checksum.new result
        (encoded_item (Defines definition.now)) }
{
    put_checked(out, checksum, WrittenDefinition::new(definition).bytes())
}

// The plain form of a message: its local number, its time if it has one, and its content.
fn put_data<S: Sink>(
    out: &mut S,
    checksum: &mut Crc,
    message: &DataMessage<'_>,
    time: Option<u32>,
) -> Result<(), S::Fault>
    ensures { WritesChecked (S.held out.old)
        (S.held out.new) checksum.old checksum.new result
        (encoded_item (plain_data (lent_data message.now time))) }
{
    put_checked(out, checksum, &[message.local])?;
    put_time(out, checksum, message.definition.arch(), time)?;
    put_checked(out, checksum, message.content)
}

fn put_time<S: Sink>(
    out: &mut S,
    checksum: &mut Crc,
    arch: Arch,
    time: Option<u32>,
) -> Result<(), S::Fault>
    ensures { WritesChecked (S.held out.old)
        (S.held out.new) checksum.old checksum.new result
        (time_front arch time) }
{
    match time {
        Some(time) => put_checked(out, checksum, &bytes_of_time(arch, time)),
        None => put_checked(out, checksum, &[]),
    }
}

impl<F> From<F> for WritePlainFault<F> {
    ghost use Rattle.fit_grammar.specs.declared.plain.writing.WritePlainFault.TheVariants as faults;

    ghost from_gives = { λ fault e. e ≡ faults.Write fault };

    fn from(fault: F) -> WritePlainFault<F> {
        WritePlainFault::Write(fault)
    }
}

// Files of rides, and of messages that no recorder writes.

ghost use Rattle.std.specs.Prelude.{◌<◌, ◌^◌, length};

use super::{START, ride, spell};
use arrayvec::ArrayVec;
use fit_activity::{Entry, Speech, speak_closing, speak_start};
use fit_base::Arch;
use fit_grammar::{Definition, DeveloperFieldDefinition, FieldDefinition, File, Frame, PutFault};
use std::alloc::Global;
use std::process::Abort;
use std::test::Fail;

// A message: its local and its global number, its fields, and its content.
pub(super) type Row<'a> = (u8, u16, &'a [FieldDefinition], &'a [u8]);

pub(super) fn empty_file(alloc: Global) -> File {
    let frame = Frame {
        header_size: 14,
        protocol: 0x10,
        profile: 100,
    };
    File::new(alloc, frame)
}

// Adds the messages of this speech, each with its definition.
pub(super) fn put(file: &mut File, speech: &Speech) -> Result<(), PutFault> {
    put_but(file, speech, &[])
}

// The same without the messages of these global numbers.
pub(super) fn put_but(file: &mut File, speech: &Speech, left_out: &[u16]) -> Result<(), PutFault> {
    for message in speech.messages() {
        let definition = &message.definition();
        if definition.local < 16 && !left_out.contains(&definition.global) {
            file.define(definition)?;
            file.data(definition.local, None, message.content())?;
        }
    }
    Ok(())
}

pub(super) fn file_of(alloc: Global, speech: &Speech) -> Result<File, PutFault> {
    let mut file = empty_file(alloc);
    put(&mut file, speech)?;
    Ok(file)
}

// Adds these messages, each with its definition.
pub(super) fn put_rows(file: &mut File, arch: Arch, rows: &[Row<'_>]) -> Result<(), Fail> {
    for row in rows {
        put_row(file, arch, row, &[])?;
    }
    Ok(())
}

// Adds a message with these developer fields, whose content is the last part of its content.
pub(super) fn put_row(
    file: &mut File,
    arch: Arch,
    row: &Row<'_>,
    developer: &[DeveloperFieldDefinition],
) -> Result<(), Fail> {
    let (local, global, fields, content) = row;
    let mut definition = Definition {
        local: *local,
        arch,
        global: *global,
        fields: ArrayVec::new(),
        developer: ArrayVec::new(),
    };
    definition.fields.try_extend_from_slice(*fields)?;
    definition.developer.try_extend_from_slice(developer)?;
    if definition.local < 16 {
        file.define(&definition)?;
        file.data(*local, None, *content)?;
    }
    Ok(())
}

// The messages of a ride, without those that close it.
pub(super) fn reported(rt: &impl Abort, alloc: Global, entries: &[Entry]) -> Result<File, PutFault>
    requires { length entries.now < 2 ^ 31 }
{
    let mut file = empty_file(alloc);
    let mut speech = Speech::new();
    speak_start(&START, &mut speech);
    put(&mut file, &speech)?;
    for i in 0..entries.len() {
        put_after(rt, &mut file, &entries[..i], entries[i], &mut speech)?;
    }
    Ok(file)
}

// Adds the messages of this entry after a ride.
pub(super) fn put_after(
    rt: &impl Abort,
    file: &mut File,
    entries: &[Entry],
    entry: Entry,
    speech: &mut Speech,
) -> Result<(), PutFault>
    requires { length entries.now < 2 ^ 31 }
{
    spell(rt, entries, entry, speech);
    put(file, speech)
}

// The finished file of a ride.
pub(super) fn finished(rt: &impl Abort, alloc: Global, entries: &[Entry]) -> Result<File, PutFault>
    requires { length entries.now < 2 ^ 31 }
{
    let mut file = reported(rt, alloc, entries)?;
    let mut speech = Speech::new();
    speak_closing(&ride(rt, entries), &mut speech);
    put(&mut file, &speech)?;
    Ok(file)
}

// The content of a message, its times moved.

ghost use Rattle.std.specs.Prelude.{◌≡◌, ◌+◌, ◌≤◌, ◌++◌, length, take, drop};
ghost use Rattle.fit_grammar.specs.Format.Item.{fields_size};
ghost use Rattle.fit_grammar.specs.Calls.PlainForm.{time_bytes};
ghost use Rattle.fit_shifting.specs.Private.Content.{times_moved, field_moved, content_moved};

use crate::shift::Shift;
use crate::times::holds_time;
use fit_base::{Arch, number_of};
use fit_grammar::{Definition, DefinitionMessage, FieldDefinition};

// Moves the times in the content of a message under its definition.
pub(crate) fn move_content(shift: Shift, definition: &DefinitionMessage<'_>, content: &mut [u8])
    requires { fields_size definition.now ≤ length content.old }
    ensures { content.new ≡ content_moved shift definition.now.global definition.now.arch
        definition.now.fields.items content.old }
{
    // A time has four bytes. With fewer, a message of many empty fields is not walked.
    if content.len() < 4 {
        return;
    }
    move_fields(shift, &definition.read(), content);
}

fn move_fields(shift: Shift, definition: &Definition, content: &mut [u8])
    requires { fields_size definition.now ≤ length content.old }
    ensures { content.new ≡ content_moved shift definition.now.global definition.now.arch
        definition.now.fields.items content.old }
{
    let mut fields: &[FieldDefinition] = &definition.fields;
    let mut at = 0;
    while let [field, others @ ..] = fields {
        at = move_next(
            shift,
            definition.global,
            definition.arch,
            field,
            content,
            at,
        );
        fields = others;
    }
}

// Moves the bytes of a field, which begins at this place, if they are times. Returns the place after them.
fn move_next(
    shift: Shift,
    message: u16,
    arch: Arch,
    field: &FieldDefinition,
    content: &mut [u8],
    at: usize,
) -> usize
    requires { at + field.now.size ≤ length content.old }
    ensures end { result ≡ at + field.now.size }
    ensures moved { take result content.new ≡ take at content.old
        ++ field_moved shift message arch field.now (take field.now.size (drop at content.old)) }
    ensures rest { drop result content.new ≡ drop field.now.size (drop at content.old) }
    ensures long { length content.new ≡ length content.old }
{
    let end = at + field.size as usize;
    move_field(shift, message, arch, field, &mut content[at..end]);
    end
}

// Moves the bytes of a field, if they are times.
fn move_field(shift: Shift, message: u16, arch: Arch, field: &FieldDefinition, bytes: &mut [u8])
    ensures { bytes.new ≡ field_moved shift message arch field.now bytes.old }
{
    // An empty field, of which a message may have many, is not looked up.
    if bytes.len() < 4 {
        return;
    }
    if holds_time(message, field.number, field.base) && bytes.len() % 4 == 0 {
        move_times(shift, arch, bytes);
    }
}

// Moves times of four bytes each.
pub(crate) fn move_times(shift: Shift, arch: Arch, bytes: &mut [u8])
    ensures { bytes.new ≡ times_moved shift arch bytes.old }
{
    let mut at = 0;
    while bytes.len() - at >= 4 {
        move_time(shift, arch, &mut bytes[at..at + 4]);
        at += 4;
    }
}

// Moves a time.
fn move_time(shift: Shift, arch: Arch, bytes: &mut [u8])
    requires { length bytes.old ≡ 4 }
    ensures { bytes.new ≡ times_moved shift arch bytes.old }
{
    let time = number_of(arch, bytes) as u32;
    bytes.copy_from_slice(&bytes_of(arch, shift.moved(time)));
}

// The four bytes of a time.
fn bytes_of(arch: Arch, time: u32) -> [u8; 4]
    ensures { result ≡ time_bytes arch time }
{
    match arch {
        Arch::Little => time.to_le_bytes(),
        Arch::Big => time.to_be_bytes(),
    }
}

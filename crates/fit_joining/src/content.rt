// The content of a message, its fields changed.

ghost use Rattle.std.specs.Prelude.{◌≡◌, ◌≤◌, length};
ghost use Rattle.fit_grammar.specs.Format.Item.{fields_size};
ghost use Rattle.fit_grammar.specs.Format.Encoding.{two_bytes};
ghost use Rattle.fit_grammar.specs.Calls.CheckedOutput.{WritesChecked};
ghost use Rattle.fit_grammar.specs.Calls.PlainForm.{time_bytes};
ghost use Rattle.fit_joining.specs.Part.{is_distance, is_index, is_lap_number};
ghost use Rattle.fit_joining.specs.Content.{field_changed, content_changed, distance_changed, index_changed, lap_changed};

use crate::makers::{Given, index_in};
use crate::tally::Tally;
use fit_base::{Arch, Crc, number_of};
use fit_grammar::{Definition, FieldDefinition, Sink, put_checked};

// Writes the content of a message under its definition: a distance goes on, a lap has its number in turn, and a developer data index is the
// one in the joined file.
pub(crate) fn put_content<S: Sink>(
    given: &Given,
    tally: Tally,
    definition: &Definition,
    content: &[u8],
    out: &mut S,
    checksum: &mut Crc,
) -> Result<(), S::Fault>
    requires { fields_size definition.now ≤ length content.now }
    ensures { WritesChecked (S.held out.old)
        (S.held out.new) checksum.old checksum.new result
        (content_changed given.now tally definition.now.global definition.now.arch
        definition.now.fields.items content.now) }
{
    let mut fields: &[FieldDefinition] = &definition.fields;
    let mut rest = content;
    while let [field, others @ ..] = fields {
        let (bytes, after) = rest.split_at(field.size as usize);
        put_field(
            given,
            tally,
            definition.global,
            definition.arch,
            field,
            bytes,
            out,
            checksum,
        )?;
        fields = others;
        rest = after;
    }
    put_checked(out, checksum, rest)
}

// Writes the bytes of a field.
fn put_field<S: Sink>(
    given: &Given,
    tally: Tally,
    message: u16,
    arch: Arch,
    field: &FieldDefinition,
    bytes: &[u8],
    out: &mut S,
    checksum: &mut Crc,
) -> Result<(), S::Fault>
    ensures { WritesChecked (S.held out.old)
        (S.held out.new) checksum.old checksum.new result
        (field_changed given.now tally message arch field.now bytes.now) }
{
    if is_distance(message, field.number, field.base) {
        return put_distance(tally, arch, bytes, out, checksum);
    }
    if is_lap_number(message, field.number, field.base) {
        return put_lap_number(tally, arch, bytes, out, checksum);
    }
    if is_index(message, field.number, field.base) {
        return put_index(given, bytes, out, checksum);
    }
    put_checked(out, checksum, bytes)
}

// Writes a distance of four bytes, so much further.
fn put_distance<S: Sink>(
    tally: Tally,
    arch: Arch,
    bytes: &[u8],
    out: &mut S,
    checksum: &mut Crc,
) -> Result<(), S::Fault>
    ensures { WritesChecked (S.held out.old)
        (S.held out.new) checksum.old checksum.new result
        (distance_changed tally arch bytes.now) }
{
    match bytes {
        [a, b, c, d] => {
            let distance = number_of(arch, &[*a, *b, *c, *d]) as u32;
            put_checked(out, checksum, &bytes_of(arch, tally.further(distance)))
        }
        _ => put_checked(out, checksum, bytes),
    }
}

// Writes the number of a lap in two bytes.
fn put_lap_number<S: Sink>(
    tally: Tally,
    arch: Arch,
    bytes: &[u8],
    out: &mut S,
    checksum: &mut Crc,
) -> Result<(), S::Fault>
    ensures { WritesChecked (S.held out.old)
        (S.held out.new) checksum.old checksum.new result
        (lap_changed tally arch bytes.now) }
{
    match bytes {
        [_, _] => put_checked(out, checksum, &two_bytes_of(arch, tally.laps)),
        _ => put_checked(out, checksum, bytes),
    }
}

// Writes a developer data index in one byte.
fn put_index<S: Sink>(
    given: &Given,
    bytes: &[u8],
    out: &mut S,
    checksum: &mut Crc,
) -> Result<(), S::Fault>
    ensures { WritesChecked (S.held out.old)
        (S.held out.new) checksum.old checksum.new result
        (index_changed given.now bytes.now) }
{
    match bytes {
        [index] => put_checked(out, checksum, &[index_in(given, *index)]),
        _ => put_checked(out, checksum, bytes),
    }
}

// Whether a field is the distance of a record.
fn is_distance(message: u16, number: u8, base: u8) -> bool
    ensures { result ≡ is_distance message number base }
{
    base == 0x86 && message == 20 && number == 5
}

// Whether a field is the number of a lap.
fn is_lap_number(message: u16, number: u8, base: u8) -> bool
    ensures { result ≡ is_lap_number message number base }
{
    base == 0x84 && message == 19 && number == 254
}

// Whether a field is the index of developer data that a message declares or describes.
fn is_index(message: u16, number: u8, base: u8) -> bool
    ensures { result ≡ is_index message number base }
{
    base == 0x02 && ((message == 207 && number == 3) || (message == 206 && number == 0))
}

// The four bytes of a number.
fn bytes_of(arch: Arch, number: u32) -> [u8; 4]
    ensures { result ≡ time_bytes arch number }
{
    match arch {
        Arch::Little => number.to_le_bytes(),
        Arch::Big => number.to_be_bytes(),
    }
}

// The two bytes of a number.
fn two_bytes_of(arch: Arch, number: u16) -> [u8; 2]
    ensures { result ≡ two_bytes arch number }
{
    match arch {
        Arch::Little => number.to_le_bytes(),
        Arch::Big => number.to_be_bytes(),
    }
}

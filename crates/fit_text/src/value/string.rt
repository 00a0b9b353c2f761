// Strings.

ghost use Rattle.std.specs.Prelude.{◌≡◌, ◌||◌, ◌&&◌, nat_le};
ghost use Rattle.std.specs.List.{flat_map};
ghost use Rattle.std.specs.Str.{is_utf8};
ghost use Rattle.fit_base.specs.Value.{text_of};
ghost use Rattle.fit_text.specs.Notation.{words_of};
ghost use Rattle.fit_text.specs.Pen.{Puts};
ghost use Rattle.fit_text.specs.Values.{is_plain, string_as, string_byte};

use crate::notation::Notation;
use crate::value::bytes::hex_byte;
use crate::writing::Pen;
use fit_base::FieldValue;
use fit_grammar::Sink;

/// A string between quotation marks, up to its first zero byte.
#[inline(never)]
pub fn put_string<S: Sink>(
    pen: &mut Pen<'_, S>,
    notation: &Notation,
    field: &FieldValue<'_>,
) -> Result<(), S::Fault>
    ensures { Puts pen.old pen.new result (string_as (words_of notation.now) field.now.bytes) }
{
    let in_utf8 = keeps_utf8(notation, field);
    pen.put(b"\"")?;
    put_all(pen, notation.escape, in_utf8, field.text_bytes())?;
    pen.put(b"\"")
}

// Whether the bytes of UTF-8 stand in the text of a field as they are.
fn keeps_utf8(notation: &Notation, field: &FieldValue<'_>) -> bool
    ensures { result ≡ (notation.now.utf8 && is_utf8 (text_of field.now)) }
{
    notation.utf8 && is_utf8(field)
}

// Whether the text of a field is UTF-8.
fn is_utf8(field: &FieldValue<'_>) -> bool
    ensures { result ≡ is_utf8 (text_of field.now) }
{
    field.text().is_some()
}

fn put_all<S: Sink>(
    pen: &mut Pen<'_, S>,
    escape: &[u8],
    in_utf8: bool,
    bytes: &[u8],
) -> Result<(), S::Fault>
    ensures { Puts pen.old pen.new result (flat_map (string_byte escape.now in_utf8) bytes.now) }
{
    for byte in bytes {
        put_string_byte(pen, escape, in_utf8, *byte)?;
    }
    Ok(())
}

fn put_string_byte<S: Sink>(
    pen: &mut Pen<'_, S>,
    escape: &[u8],
    in_utf8: bool,
    byte: u8,
) -> Result<(), S::Fault>
    ensures { Puts pen.old pen.new result (string_byte escape.now in_utf8 byte) }
{
    if is_whole(in_utf8, byte) {
        return pen.put(&[byte]);
    }
    pen.put(escape)?;
    pen.put(&hex_byte(byte))
}

// Whether a byte stands in a string as it is.
fn is_whole(in_utf8: bool, byte: u8) -> bool
    ensures { result ≡ (is_plain byte || (in_utf8 && nat_le 128 byte)) }
{
    is_plain(byte) || (in_utf8 && byte >= 128)
}

// Whether a byte is printable and needs no escape.
fn is_plain(byte: u8) -> bool
    ensures { result ≡ is_plain byte }
{
    byte >= 32 && byte <= 126 && byte != b'"' && byte != b'\\'
}

// Strings as cells.

ghost use Rattle.std.specs.Prelude.{◌≡◌, ◌||◌, ◌==◌};
ghost use Rattle.std.specs.List.{flat_map, list_any};
ghost use Rattle.std.specs.Str.{is_utf8};
ghost use Rattle.fit_base.specs.Value.{text_of};
ghost use Rattle.fit_text.specs.Pen.{Puts};
ghost use Rattle.fit_table.specs.Cells.{byte_cell, is_special, marks_of, string_cell};

use fit_base::FieldValue;
use fit_grammar::WriteFailed;
use fit_text::Pen;
use std::io::Write;

/// A string, up to its first zero byte. One that is no UTF-8 is read as Latin-1.
pub fn put_string<W: Write>(
    pen: &mut Pen<'_, W>,
    empty: &[u8],
    field: &FieldValue<'_>,
) -> Result<(), WriteFailed>
    ensures { Puts pen.old pen.new result (string_cell empty.now field.now.bytes) }
{
    let text = field.text_bytes();
    if text.is_empty() {
        return pen.put(empty);
    }
    let in_utf8 = is_utf8(field);
    let marks = marks_of(text);
    pen.put(marks)?;
    put_bytes(pen, in_utf8, text)?;
    pen.put(marks)
}

// Whether the text of a field is UTF-8.
fn is_utf8(field: &FieldValue<'_>) -> bool
    ensures { result ≡ is_utf8 (text_of field.now) }
{
    field.text().is_some()
}

// What stands around a text: quotation marks if it has a comma, a quotation mark or an end of a line.
fn marks_of(text: &[u8]) -> &'static [u8]
    ensures { result.now ≡ marks_of text.now }
{
    if has_special(text) { b"\"" } else { b"" }
}

fn has_special(text: &[u8]) -> bool
    ensures { result ≡ list_any is_special text.now }
{
    for byte in text {
        if is_special(*byte) {
            return true;
        }
    }
    false
}

fn is_special(byte: u8) -> bool
    ensures { result ≡ is_special byte }
{
    byte == b',' || byte == b'"' || byte == b'\r' || byte == b'\n'
}

fn put_bytes<W: Write>(pen: &mut Pen<'_, W>, in_utf8: bool, bytes: &[u8]) -> Result<(), WriteFailed>
    ensures { Puts pen.old pen.new result (flat_map (byte_cell in_utf8) bytes.now) }
{
    for byte in bytes {
        put_byte(pen, in_utf8, *byte)?;
    }
    Ok(())
}

fn put_byte<W: Write>(pen: &mut Pen<'_, W>, in_utf8: bool, byte: u8) -> Result<(), WriteFailed>
    ensures { Puts pen.old pen.new result (byte_cell in_utf8 byte) }
{
    if byte == b'"' {
        pen.put(b"\"\"")
    } else if in_utf8 || byte < 128 {
        pen.put(&[byte])
    } else {
        pen.put(&[192 + byte / 64, 128 + byte % 64])
    }
}

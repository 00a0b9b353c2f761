// Bytes as hexadecimal digits.

ghost use Rattle.std.specs.Prelude.{◌≡◌, ◌<◌, ◌==◌, true};
ghost use Rattle.std.specs.Fmt.{digit_glyph};
ghost use Rattle.std.specs.List.{flat_map, list_all};
ghost use Rattle.fit_text.specs.Notation.{words_of};
ghost use Rattle.fit_text.specs.Pen.{Puts};
ghost use Rattle.fit_text.specs.Values.{hex_byte, hex_text, bytes_as, byte_as};

use crate::notation::Notation;
use crate::writing::Pen;
use fit_grammar::Sink;

/// `0x` and two digits a byte; nothing for no bytes.
pub fn put_hex<S: Sink>(pen: &mut Pen<'_, S>, bytes: &[u8]) -> Result<(), S::Fault>
    ensures { Puts pen.old pen.new result (hex_text bytes.now) }
{
    if bytes.is_empty() {
        return Ok(());
    }
    pen.put(b"0x")?;
    put_digits(pen, bytes)
}

fn put_digits<S: Sink>(pen: &mut Pen<'_, S>, bytes: &[u8]) -> Result<(), S::Fault>
    ensures { Puts pen.old pen.new result (flat_map hex_byte bytes.now) }
{
    for byte in bytes {
        pen.put(&hex_byte(*byte))?;
    }
    Ok(())
}

/// Bytes between the marks of a notation.
#[inline(never)]
pub fn put_bytes<S: Sink>(
    pen: &mut Pen<'_, S>,
    notation: &Notation,
    bytes: &[u8],
) -> Result<(), S::Fault>
    ensures { Puts pen.old pen.new result (bytes_as (words_of notation.now) bytes.now) }
{
    pen.put(notation.mark)?;
    put_hex(pen, bytes)?;
    pen.put(notation.mark)
}

/// The bytes of a field of type byte, which is invalid if all of them are FF.
pub fn put_byte_field<S: Sink>(
    pen: &mut Pen<'_, S>,
    notation: &Notation,
    bytes: &[u8],
) -> Result<(), S::Fault>
    ensures { Puts pen.old pen.new result (byte_as (words_of notation.now) bytes.now) }
{
    if all_invalid(bytes) {
        pen.put(notation.invalid)
    } else {
        put_bytes(pen, notation, bytes)
    }
}

// Whether all bytes are FF.
fn all_invalid(bytes: &[u8]) -> bool
    ensures { result ≡ list_all (λ byte. byte == 255) bytes.now }
{
    bytes.iter().all(|byte| *byte == 255)
}

/// The two digits of a byte.
#[tactic(auto, unfolding(crate::specs::Values::hex_byte))]
pub fn hex_byte(byte: u8) -> [u8; 2]
    ensures { result ≡ hex_byte byte }
{
    [hex_digit(byte / 16), hex_digit(byte % 16)]
}

fn hex_digit(digit: u8) -> u8
    requires { digit < 16 }
    ensures { result ≡ digit_glyph true digit }
{
    if digit < 10 {
        b'0' + digit
    } else {
        b'A' + (digit - 10)
    }
}

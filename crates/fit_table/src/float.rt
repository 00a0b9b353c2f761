// Floats in decimal.

ghost use Rattle.std.specs.Prelude.{◌≡◌, List, ℕ, from_bits, IsTrue, None, Some, if◌then◌else◌};
ghost use Rattle.std.specs.Float.{binary32, binary64, float_is_finite};
ghost use Rattle.fit_text.specs.Pen.{Puts};
ghost use Rattle.fit_table.specs.Tokens.{IsDecimal, PutsTokens, float_tokens};

use fit_grammar::Sink;
use fit_text::Pen;
use ryu::{Buffer, Float};

/// Puts the shortest decimal that reads back as the float of 32 bits with these bits, such as `12.5` or `1e-7`; for a NaN and an
/// infinity the text `none`.
#[inline(never)]
pub fn put_float32<S: Sink>(pen: &mut Pen<'_, S>, none: &[u8], bits: u32) -> Result<(), S::Fault>
    ensures { PutsTokens pen.old pen.new result (float_tokens none.now binary32 bits) }
{
    match finite32(bits) {
        Some(float) => put_finite(pen, float),
        None => pen.put(none),
    }
}

/// The same for a float of 64 bits.
#[inline(never)]
pub fn put_float64<S: Sink>(pen: &mut Pen<'_, S>, none: &[u8], bits: u64) -> Result<(), S::Fault>
    ensures { PutsTokens pen.old pen.new result (float_tokens none.now binary64 bits) }
{
    match finite64(bits) {
        Some(float) => put_finite(pen, float),
        None => pen.put(none),
    }
}

/// Whether bits are those of a finite float.
pub fn is_finite32(bits: u32) -> bool
    ensures { result ≡ float_is_finite (from_bits binary32 bits) }
{
    finite32(bits).is_some()
}

/// The same for a float of 64 bits.
pub fn is_finite64(bits: u64) -> bool
    ensures { result ≡ float_is_finite (from_bits binary64 bits) }
{
    finite64(bits).is_some()
}

fn put_finite<F: Float, S: Sink>(pen: &mut Pen<'_, S>, float: F) -> Result<(), S::Fault>
    requires { IsTrue (float_is_finite (F.value float)) }
    ensures { (text : List ℕ)
        × IsDecimal F.format F.WHOLE_DIGITS F.LEADING_ZEROS (F.value float) text
        × Puts pen.old pen.new result text }
{
    let mut buffer = Buffer::new();
    pen.put(buffer.format_finite(float).as_bytes())
}

// The float with these bits, if it is finite. Bits of a NaN are no float.
fn finite32(bits: u32) -> Option<f32>
    ensures { result ≡ (if float_is_finite (from_bits binary32 bits)
        then Some (from_bits binary32 bits) else None) }
{
    if bits % 0x8000_0000 > 0x7F80_0000 {
        return None;
    }
    let float = f32::from_bits(bits);
    if float.is_finite() { Some(float) } else { None }
}

fn finite64(bits: u64) -> Option<f64>
    ensures { result ≡ (if float_is_finite (from_bits binary64 bits)
        then Some (from_bits binary64 bits) else None) }
{
    if bits % 0x8000_0000_0000_0000 > 0x7FF0_0000_0000_0000 {
        return None;
    }
    let float = f64::from_bits(bits);
    if float.is_finite() { Some(float) } else { None }
}

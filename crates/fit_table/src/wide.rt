// Values of up to 64 bits in units.

ghost use Rattle.std.specs.Prelude.{◌≡◌, ◌≤◌, ◌^◌, ◌++◌, codes, decimal, IfOk, IfErr};
ghost use Rattle.fit_text.specs.Pen.{Puts};
ghost use Rattle.fit_table.specs.Number.{places_text, date_or, unit_text, split_of, IsWithin, nearest, decimals_text, scaled_text, AreSmallParts};

use crate::number::put_digits;
use crate::stated::stated_parts;
use crate::unit::Unit;
use fit_grammar::WriteFailed;
use fit_profile::{Parts, Scale, parts_of};
use fit_text::{Pen, put_date};
use itoa::Buffer;
use std::io::Write;

// The first time that is a date, and the last one.
const FIRST_DATE: i128 = 0x1000_0000;

const LAST_DATE: i128 = 0xFFFF_FFFF;

/// A value in the unit of its column. `empty` is what a time without a date is.
#[inline(never)]
pub fn put_wide<W: Write>(
    pen: &mut Pen<'_, W>,
    empty: &[u8],
    unit: Unit,
    value: i128,
) -> Result<(), WriteFailed>
    requires { IsWithin 64 value }
    ensures { Puts pen.old pen.new result (unit_text empty.now unit value) }
{
    match unit {
        Unit::Whole | Unit::Time | Unit::Scaled(Scale::Whole) => {
            let mut buffer = Buffer::new();
            pen.put(buffer.format(value).as_bytes())
        }
        Unit::Date => put_date_or(pen, empty, value),
        Unit::Scaled(scale) => put_scaled(pen, parts_of(scale), value),
        Unit::Stated(scale, offset) => put_scaled(pen, stated_parts(scale, offset), value),
    }
}

// A time as a date, or else an empty cell.
fn put_date_or<W: Write>(pen: &mut Pen<'_, W>, empty: &[u8], value: i128) -> Result<(), WriteFailed>
    ensures { Puts pen.old pen.new result (date_or empty.now value) }
{
    if value >= FIRST_DATE && value <= LAST_DATE {
        put_date(pen, value as u32)
    } else {
        pen.put(empty)
    }
}

// A value of a scale.
fn put_scaled<W: Write>(pen: &mut Pen<'_, W>, parts: Parts, value: i128) -> Result<(), WriteFailed>
    requires wide { IsWithin 66 value }
    requires parts { AreSmallParts parts }
    ensures { Puts pen.old pen.new result (scaled_text parts value) }
{
    match split(value - i128::from(parts.shift)) {
        Ok(n) => put_decimals(pen, parts, nearest(parts, n)),
        Err(n) => put_below_zero(pen, parts, nearest(parts, n)),
    }
}

// A number without its sign.
fn split(value: i128) -> Result<u128, u128>
    requires { IsWithin 67 value }
    ensures value { result ≡ split_of value }
    ensures ok { IfOk result (λ n. n ≤ 2 ^ 67) }
    ensures err { IfErr result (λ n. n ≤ 2 ^ 67) }
{
    if value < 0 {
        Err(value.unsigned_abs())
    } else {
        Ok(value as u128)
    }
}

// The whole number that is nearest.
fn nearest(parts: Parts, n: u128) -> u128
    requires limit { n ≤ 2 ^ 67 }
    requires parts { AreSmallParts parts }
    ensures { result ≡ nearest parts n }
{
    let divisor = u128::from(parts.divisor);
    (n * u128::from(parts.multiplier) + divisor / 2) / divisor
}

fn put_below_zero<W: Write>(pen: &mut Pen<'_, W>, parts: Parts, n: u128) -> Result<(), WriteFailed>
    requires { AreSmallParts parts }
    ensures { Puts pen.old pen.new result
        (codes "-" ++ decimals_text parts.power parts.decimals n) }
{
    pen.put(b"-")?;
    put_decimals(pen, parts, n)
}

fn put_decimals<W: Write>(pen: &mut Pen<'_, W>, parts: Parts, n: u128) -> Result<(), WriteFailed>
    requires { AreSmallParts parts }
    ensures { Puts pen.old pen.new result (decimals_text parts.power parts.decimals n) }
{
    match parts.decimals {
        0 => put_number(pen, n),
        decimals => put_places(pen, usize::from(decimals), parts.power, n),
    }
}

fn put_places<W: Write>(
    pen: &mut Pen<'_, W>,
    count: usize,
    power: u32,
    n: u128,
) -> Result<(), WriteFailed>
    requires few { count ≤ 8 }
    requires some { 1 ≤ power }
    ensures { Puts pen.old pen.new result (places_text power count n) }
{
    let power = u128::from(power);
    put_number(pen, n / power)?;
    pen.put(b".")?;
    put_digits(pen, count, (n % power) as u64)
}

fn put_number<W: Write>(pen: &mut Pen<'_, W>, n: u128) -> Result<(), WriteFailed>
    ensures { Puts pen.old pen.new result (decimal n) }
{
    let mut buffer = Buffer::new();
    pen.put(buffer.format(n).as_bytes())
}

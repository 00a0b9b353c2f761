// Values of at most 32 bits in units.

ghost use Rattle.std.specs.Prelude.{◌≡◌, ◌≤◌, ◌++◌, codes, length, take, IfOk, IfErr};
ghost use Rattle.fit_text.specs.Pen.{Puts};
ghost use Rattle.fit_columns.specs.Places.{IsSmall};
ghost use Rattle.fit_profile.specs.Scale.{parts_of};
ghost use Rattle.fit_table.specs.Number.{digits, places_text, is_date, date_or, unit_text, split_of, limit, IsWide, nearest, decimals_text, scaled_text, AreSmallParts};

use crate::stated::stated_parts;
use crate::unit::Unit;
use fit_grammar::Sink;
use fit_profile::{Parts, Scale, parts_of};
use fit_text::{Pen, put_date};
use std::io::Write;

// The first time that is a date. A time below it counts from when the device was switched on.
const FIRST_DATE: i64 = 0x1000_0000;

/// A value in the unit of its column. `empty` is what a time without a date is.
pub fn put_value<S: Sink>(
    pen: &mut Pen<'_, S>,
    empty: &[u8],
    unit: Unit,
    value: i64,
) -> Result<(), S::Fault>
    requires { IsSmall value }
    ensures { Puts pen.old pen.new result (unit_text empty.now unit value) }
{
    match unit {
        Unit::Whole | Unit::Time => pen.put_signed(value),
        Unit::Date => put_date_or(pen, empty, value),
        Unit::Scaled(scale) => put_by_scale(pen, scale, value),
        Unit::Stated(scale, offset) => put_scaled(pen, stated_parts(scale, offset), value),
    }
}

// A value of a scale of the Profile. A whole number needs no division.
fn put_by_scale<S: Sink>(pen: &mut Pen<'_, S>, scale: Scale, value: i64) -> Result<(), S::Fault>
    requires { IsSmall value }
    ensures { Puts pen.old pen.new result (scaled_text (parts_of scale) value) }
{
    match scale {
        Scale::Whole => pen.put_signed(value),
        scale => put_scaled(pen, parts_of(scale), value),
    }
}

// A value of these parts.
fn put_scaled<S: Sink>(pen: &mut Pen<'_, S>, parts: Parts, value: i64) -> Result<(), S::Fault>
    requires small { IsSmall value }
    requires parts { AreSmallParts parts }
    ensures { Puts pen.old pen.new result (scaled_text parts value) }
{
    match split(value - i64::from(parts.shift)) {
        Ok(n) => put_decimals(pen, parts, nearest(parts, n)),
        Err(n) => put_below_zero(pen, parts, nearest(parts, n)),
    }
}

// The whole number that is nearest.
fn nearest(parts: Parts, n: u64) -> u64
    requires limit { n ≤ limit }
    requires parts { AreSmallParts parts }
    ensures { result ≡ nearest parts n }
{
    let divisor = u64::from(parts.divisor);
    (n * u64::from(parts.multiplier) + divisor / 2) / divisor
}

fn put_below_zero<S: Sink>(pen: &mut Pen<'_, S>, parts: Parts, n: u64) -> Result<(), S::Fault>
    requires { AreSmallParts parts }
    ensures { Puts pen.old pen.new result
        (codes "-" ++ decimals_text parts.power parts.decimals n) }
{
    pen.put(b"-")?;
    put_decimals(pen, parts, n)
}

fn put_decimals<S: Sink>(pen: &mut Pen<'_, S>, parts: Parts, n: u64) -> Result<(), S::Fault>
    requires { AreSmallParts parts }
    ensures { Puts pen.old pen.new result (decimals_text parts.power parts.decimals n) }
{
    match parts.decimals {
        0 => pen.put_number(n),
        decimals => put_places(pen, usize::from(decimals), u64::from(parts.power), n),
    }
}

// A time as a date, or else an empty cell.
fn put_date_or<S: Sink>(pen: &mut Pen<'_, S>, empty: &[u8], value: i64) -> Result<(), S::Fault>
    ensures { Puts pen.old pen.new result (date_or empty.now value) }
{
    if is_date(value) {
        put_date(pen, value as u32)
    } else {
        pen.put(empty)
    }
}

/// Whether a time is a calendar time of 32 bits.
pub fn is_date(value: i64) -> bool
    ensures { result ≡ is_date value }
{
    value >= FIRST_DATE && value <= 0xFFFF_FFFF
}

// A number without its sign.
fn split(value: i64) -> Result<u64, u64>
    requires { IsWide value }
    ensures value { result ≡ split_of value }
    ensures ok { IfOk result (λ n. n ≤ limit) }
    ensures err { IfErr result (λ n. n ≤ limit) }
{
    if value < 0 {
        Err(value.unsigned_abs())
    } else {
        Ok(value as u64)
    }
}

fn put_places<S: Sink>(
    pen: &mut Pen<'_, S>,
    count: usize,
    power: u64,
    n: u64,
) -> Result<(), S::Fault>
    requires few { count ≤ 8 }
    requires some { 1 ≤ power }
    ensures { Puts pen.old pen.new result (places_text power count n) }
{
    pen.put_number(n / power)?;
    pen.put(b".")?;
    put_digits(pen, count, n % power)
}

/// The last digits of a number, at most eight.
pub fn put_digits<S: Sink>(pen: &mut Pen<'_, S>, count: usize, n: u64) -> Result<(), S::Fault>
    requires { count ≤ 8 }
    ensures { Puts pen.old pen.new result (digits count n) }
{
    let mut bytes = [0; 8];
    place_digits(&mut bytes, count, n);
    pen.put(&bytes[..count])
}

fn place_digits(bytes: &mut [u8], count: usize, mut n: u64)
    requires { count ≤ length bytes.old }
    ensures { take count bytes.new ≡ digits count n }
{
    let mut at = count;
    while at > 0 {
        at -= 1;
        bytes[at] = b'0' + (n % 10) as u8;
        n /= 10;
    }
}

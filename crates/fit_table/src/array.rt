// The values of a field as a cell.

ghost use Rattle.std.specs.Prelude.{◌≡◌, ◌<◌, ◌^◌, ◌==◌, if◌then◌else◌, [], Some};
ghost use Rattle.std.specs.List.{list_all};
ghost use Rattle.fit_base.specs.Base.{base_type, row_of};
ghost use Rattle.fit_base.specs.Value.{count_of, value_size, unsigned_at, numbers};
ghost use Rattle.fit_text.specs.Pen.{Puts};
ghost use Rattle.fit_table.specs.Cells.{is_none, is_gap, whole_value, whole_cell, value_tokens, values_from, values_tokens, empty_among};
ghost use Rattle.fit_table.specs.Number.{IsWithin};
ghost use Rattle.fit_table.specs.Tokens.{PutsTokens};

use crate::float::{is_finite32, is_finite64, put_float32, put_float64};
use crate::unit::Unit;
use crate::wide::put_wide;
use fit_base::{BaseType, FieldValue};
use fit_grammar::WriteFailed;
use fit_text::Pen;
use std::io::Write;

/// The values of a field of this type, with bars between them, or an empty cell if all of them are invalid.
pub fn put_values<W: Write>(
    pen: &mut Pen<'_, W>,
    empty: &[u8],
    unit: Unit,
    base: BaseType,
    field: &FieldValue<'_>,
) -> Result<(), WriteFailed>
    requires known { base_type field.now.base ≡ Some base }
    ensures { PutsTokens pen.old pen.new result
        (values_tokens empty.now unit base
        (numbers field.now.arch (value_size field.now) (count_of field.now) field.now.bytes)) }
{
    if are_none(base, field) {
        return pen.put(empty);
    }
    put_each(pen, empty_among(empty, field.count()), unit, base, field)
}

// What a time without a date is among so many values.
fn empty_among<'a>(empty: &'a [u8], count: usize) -> &'a [u8]
    ensures { result.now ≡ (if count == 1 then empty.now else []) }
{
    if count == 1 { empty } else { b"" }
}

// Whether no value is valid.
fn are_none(base: BaseType, field: &FieldValue<'_>) -> bool
    requires known { base_type field.now.base ≡ Some base }
    ensures { result
        ≡ list_all (is_none base)
        (numbers field.now.arch (value_size field.now) (count_of field.now) field.now.bytes) }
{
    for i in 0..field.count() {
        let number = field.unsigned(i);
        if !is_none(base, number) {
            return false;
        }
    }
    true
}

fn is_none(base: BaseType, number: u64) -> bool
    requires { number < 256 ^ (row_of base).size }
    ensures { result ≡ is_none base number }
{
    match base {
        BaseType::Float32 => !is_finite32(number as u32),
        BaseType::Float64 => !is_finite64(number),
        _ => number == base.invalid(),
    }
}

fn put_each<W: Write>(
    pen: &mut Pen<'_, W>,
    empty: &[u8],
    unit: Unit,
    base: BaseType,
    field: &FieldValue<'_>,
) -> Result<(), WriteFailed>
    requires known { base_type field.now.base ≡ Some base }
    ensures { PutsTokens pen.old pen.new result
        (values_from empty.now unit base []
        (numbers field.now.arch (value_size field.now) (count_of field.now) field.now.bytes)) }
{
    let mut front: &[u8] = &[];
    for i in 0..field.count() {
        pen.put(front)?;
        put_at(pen, empty, unit, base, field, i)?;
        front = b"|";
    }
    Ok(())
}

// The value of this index.
fn put_at<W: Write>(
    pen: &mut Pen<'_, W>,
    empty: &[u8],
    unit: Unit,
    base: BaseType,
    field: &FieldValue<'_>,
    i: usize,
) -> Result<(), WriteFailed>
    requires known { base_type field.now.base ≡ Some base }
    requires index { i < count_of field.now }
    ensures { PutsTokens pen.old pen.new result
        (value_tokens empty.now unit base (unsigned_at field.now i)) }
{
    match base {
        BaseType::Float32 => put_float32(pen, &[], field.unsigned(i) as u32),
        BaseType::Float64 => put_float64(pen, &[], field.unsigned(i)),
        _ => put_whole(pen, empty, unit, base, field, i),
    }
}

fn put_whole<W: Write>(
    pen: &mut Pen<'_, W>,
    empty: &[u8],
    unit: Unit,
    base: BaseType,
    field: &FieldValue<'_>,
    i: usize,
) -> Result<(), WriteFailed>
    requires known { base_type field.now.base ≡ Some base }
    requires index { i < count_of field.now }
    ensures { Puts pen.old pen.new result
        (whole_cell empty.now unit base (unsigned_at field.now i)) }
{
    if is_gap(base, field.unsigned(i)) {
        return Ok(());
    }
    put_wide(pen, empty, unit, whole_at(base, field, i))
}

// Whether a number is invalid among others. Bytes are invalid only all at once.
fn is_gap(base: BaseType, number: u64) -> bool
    ensures { result ≡ is_gap base number }
{
    match base {
        BaseType::Byte => false,
        _ => number == base.invalid(),
    }
}

// The whole number of this index.
fn whole_at(base: BaseType, field: &FieldValue<'_>, i: usize) -> i128
    requires known { base_type field.now.base ≡ Some base }
    requires index { i < count_of field.now }
    ensures value { result ≡ whole_value base (unsigned_at field.now i) }
    ensures wide { IsWithin 64 result }
{
    if base.is_signed() {
        i128::from(field.signed(i))
    } else {
        i128::from(field.unsigned(i))
    }
}

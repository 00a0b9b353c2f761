// The value of a column.

ghost use Rattle.std.specs.Prelude.{◌≡◌, ◌+◌, ◌≤◌, if◌then◌else◌, true, length};
ghost use Rattle.fit_base.specs.Number.{number as number_by};
ghost use Rattle.fit_text.specs.declared.writing.TheConstants.{SIZE};
ghost use Rattle.fit_text.specs.Pen.{Puts};
ghost use Rattle.fit_text.specs.Plan.{IsHeld, IsSized, kind_text};

use crate::form::plan::{Column, Kind};
use crate::notation::Words;
use crate::value::date::put_date_or_number;
use crate::value::put_values;
use crate::value::whole::{add_signed, add_unsigned};
use crate::writing::Pen;
use fit_base::{Arch, FieldValue, number_of};
use fit_grammar::Sink;

/// What the field of a column shows, by its kind. There is room for a whole number.
#[inline(always)]
pub fn put_column<W: Words, S: Sink>(
    pen: &mut Pen<'_, S>,
    arch: Arch,
    column: &Column,
    bytes: &[u8],
) -> Result<(), S::Fault>
    requires room { length pen.old.waiting + 22 ≤ SIZE }
    requires sized { IsSized column.now.size column.now.kind }
    requires size { length bytes.now ≡ column.now.size }
    ensures text { Puts pen.old pen.new result
        (kind_text W.words column.now.kind column.now.base arch bytes.now) }
    ensures held { IsHeld column.now.size column.now.kind (number_by arch bytes.now) }
{
    match column.kind {
        Kind::Unsigned(invalid) => {
            add_unsigned(pen, W::words().invalid, invalid, number_of(arch, bytes));
            Ok(())
        }
        Kind::Signed(invalid) => {
            add_signed(pen, W::words().invalid, invalid, number_of(arch, bytes));
            Ok(())
        }
        Kind::Date => put_other::<W, S>(pen, true, arch, column.base, bytes),
        Kind::Other => put_other::<W, S>(pen, false, arch, column.base, bytes),
    }
}

// A date, or a field that is no single whole number.
// Not inlined, so no other column pays for its room.
#[cold]
#[inline(never)]
fn put_other<W: Words, S: Sink>(
    pen: &mut Pen<'_, S>,
    is_date: bool,
    arch: Arch,
    base: u8,
    bytes: &[u8],
) -> Result<(), S::Fault>
    requires { is_date ≡ true → length bytes.now ≡ 4 }
    ensures { Puts pen.old pen.new result
        (kind_text W.words (if is_date then Kind.Date else Kind.Other) base arch bytes.now) }
{
    let notation = W::words();
    if is_date {
        return put_date_or_number(pen, &notation, number_of(arch, bytes) as u32);
    }
    put_values(
        pen,
        &notation,
        &notation,
        &FieldValue::new(base, arch, bytes),
    )
}

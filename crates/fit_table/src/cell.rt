// The cell of a column in the line of a message.

ghost use Rattle.std.specs.Prelude.{◌≡◌, ◌+◌, ◌<◌, ◌≤◌, ◌==◌, false, [], None, length};
ghost use Rattle.fit_base.specs.Base.{base_type};
ghost use Rattle.fit_base.specs.Value.{values_of};
ghost use Rattle.fit_columns.specs.Places.{IsSized, cell_with, place_cell};
ghost use Rattle.fit_table.specs.Cells.{field_tokens};
ghost use Rattle.fit_table.specs.Tokens.{PutsTokens};
ghost use Rattle.fit_table.specs.Unit.{AreUnits};
ghost use Rattle.fit_table.specs.Table.{cell_at, empty_of, is_time, held_at};

use crate::array::put_values;
use crate::layout::Layout;
use crate::number::put_value;
use crate::string::put_string;
use crate::unit::{Unit, unit_at};
use fit_base::{Arch, BaseType, FieldValue};
use fit_columns::{Place, cell};
use fit_grammar::WriteFailed;
use fit_text::Pen;
use std::io::Write;

// The field that holds the time of a compressed timestamp.
const TIMESTAMP: u8 = 253;

/// The value at a place of a content, or the time of a compressed timestamp, as its column has it.
#[inline(always)]
pub fn put_cell<W: Write>(
    pen: &mut Pen<'_, W>,
    layout: &Layout<'_>,
    units: &[Unit; 256],
    place: &Place,
    arch: Arch,
    time: Option<u32>,
    content: &[u8],
) -> Result<(), WriteFailed>
    requires units { AreUnits layout.now units.now }
    requires sized { IsSized place.now.size place.now.kind }
    requires inside { place.now.at + place.now.size ≤ length content.now }
    ensures { PutsTokens pen.old pen.new result
        (cell_at layout.now arch time content.now place.now) }
{
    match cell(place, arch, time, content) {
        Some(value) => {
            let unit = unit_at(layout, units, place.number);
            put_value(pen, empty_of(layout), unit, value)
        }
        None => put_other(pen, layout, units, place, arch, time, content),
    }
}

/// The least size of a field that has a cell of its own: with fewer bytes it has none, and an empty cell. In a table of one column each has one.
pub fn least_size(layout: &Layout<'_>) -> u8
    ensures bound { result ≤ 1 }
    ensures empty { 1 ≤ result → empty_of layout.now ≡ [] }
{
    if empty_of(layout).is_empty() { 1 } else { 0 }
}

/// Whether a place has a value in some message: the field has bytes, or the time of a compressed timestamp.
#[inline]
pub fn has_cell(place: &Place, least: u8) -> bool
    ensures { result ≡ false → (place.now.size < least) × ((253 == place.now.number) ≡ false) }
{
    place.size >= least || TIMESTAMP == place.number
}

// A cell without a value. In a table of one column it would be an empty line, which many readers skip.
fn empty_of(layout: &Layout<'_>) -> &'static [u8]
    ensures { result.now ≡ empty_of layout.now }
{
    if layout.fields.len() == 1 {
        b"\"\""
    } else {
        b""
    }
}

// The cell of what is not a single whole number.
#[inline(never)]
fn put_other<W: Write>(
    pen: &mut Pen<'_, W>,
    layout: &Layout<'_>,
    units: &[Unit; 256],
    place: &Place,
    arch: Arch,
    time: Option<u32>,
    content: &[u8],
) -> Result<(), WriteFailed>
    requires units { AreUnits layout.now units.now }
    requires inside { place.now.at + place.now.size ≤ length content.now }
    requires none { cell_with time place.now.number (place_cell place.now arch content.now)
        ≡ None }
    ensures { PutsTokens pen.old pen.new result
        (cell_at layout.now arch time content.now place.now) }
{
    let empty = empty_of(layout);
    if !layout.profile {
        return pen.put(empty);
    }
    if is_time(time, place.number) {
        return pen.put(empty);
    }
    if place.size == 0 {
        return pen.put(empty); // Most columns of the Profile have no field.
    }
    let unit = unit_at(layout, units, place.number);
    put_held(pen, empty, unit, place, arch, content)
}

// Whether the column has the time of a compressed timestamp.
fn is_time(time: Option<u32>, number: u8) -> bool
    ensures { result ≡ is_time time number }
{
    match time {
        Some(_) => TIMESTAMP == number,
        None => false,
    }
}

// What the field at a place of a content holds.
fn put_held<W: Write>(
    pen: &mut Pen<'_, W>,
    empty: &[u8],
    unit: Unit,
    place: &Place,
    arch: Arch,
    content: &[u8],
) -> Result<(), WriteFailed>
    requires { place.now.at + place.now.size ≤ length content.now }
    ensures { PutsTokens pen.old pen.new result
        (held_at empty.now unit place.now arch content.now) }
{
    let at = place.at as usize;
    let bytes = &content[at..at + usize::from(place.size)];
    put_field(pen, empty, unit, &FieldValue::new(place.base, arch, bytes))
}

/// The values of a field. One that is carried raw has none.
pub fn put_field<W: Write>(
    pen: &mut Pen<'_, W>,
    empty: &[u8],
    unit: Unit,
    field: &FieldValue<'_>,
) -> Result<(), WriteFailed>
    ensures { PutsTokens pen.old pen.new result
        (field_tokens empty.now unit (base_type field.now.base) (values_of field.now)) }
{
    if field.is_raw() {
        return pen.put(empty);
    }
    match field.base_type() {
        Some(BaseType::String) => put_string(pen, empty, field),
        Some(base) => put_values(pen, empty, unit, base, field),
        None => pen.put(empty),
    }
}

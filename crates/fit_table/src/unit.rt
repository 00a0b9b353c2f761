// What the numbers of a field count.

ghost use Rattle.std.specs.Prelude.{◌≡◌, option_map};
ghost use Rattle.fit_profile.specs.Facts.{facts_of};
ghost use Rattle.fit_profile.specs.Row.{row_by};
ghost use Rattle.fit_table.specs.Unit.{unit_of, unit_in, scaled_unit, suffix_of, suffix_in, end_of, AreUnits};

use crate::layout::Layout;
use fit_profile::{FieldRow, Scale, row_by};

/// What the numbers of a column count, and how they are written.
#[derive(Clone, Copy, Debug, Default)]
pub enum Unit {
    /// The whole number that the file has.
    #[default]
    Whole,
    /// Seconds since 1989-12-31T00:00:00Z.
    Time,
    /// Such a time as a date in UTC.
    Date,
    /// A unit of the Profile, by its scale.
    Scaled(Scale),
    /// A scale and an offset that a file states: a value is the number / scale - offset.
    Stated(u8, i8),
}

/// The unit of a column.
pub fn unit_in(layout: &Layout<'_>, number: u8) -> Unit
    ensures { result ≡ unit_in layout.now number }
{
    match unit_of(row_by(layout.profile, layout.message, number)) {
        Unit::Time if layout.utc => Unit::Date,
        _ if layout.raw => Unit::Whole,
        unit => unit,
    }
}

/// The unit of a field by its row of the Profile, if it has one.
pub fn unit_of(row: Option<&'static FieldRow>) -> Unit
    ensures { result ≡ unit_of (option_map (λ row. facts_of row.now) row.entry) }
{
    match row {
        Some(row) => scaled_unit(row.3),
        None => Unit::Whole,
    }
}

fn scaled_unit(scale: Scale) -> Unit
    ensures { result ≡ scaled_unit scale }
{
    match scale {
        Scale::Time => Unit::Time,
        scale => Unit::Scaled(scale),
    }
}

/// The units of all fields of the messages of a layout, by their numbers.
pub fn units_of(layout: &Layout<'_>) -> [Unit; 256]
    ensures { AreUnits layout.now result }
{
    let mut units = [Unit::Whole; 256];
    let mut number: u8 = 0;
    loop {
        units[usize::from(number)] = unit_in(layout, number);
        if number == 255 {
            return units;
        }
        number += 1;
    }
}

/// The unit of a field among them.
pub fn unit_at(layout: &Layout<'_>, units: &[Unit; 256], number: u8) -> Unit
    requires { AreUnits layout.now units.now }
    ensures { result ≡ unit_in layout.now number }
{
    let _ = layout;
    units[usize::from(number)]
}

/// What the name of a column ends with, which gives its unit.
pub fn suffix_in(layout: &Layout<'_>, number: u8) -> &'static [u8]
    ensures { result.now ≡ suffix_in layout.now number }
{
    let row = row_by(layout.profile, layout.message, number);
    suffix_of(row, unit_in(layout, number))
}

/// What the name of the field with this row ends with, if its values are in this unit.
pub fn suffix_of(row: Option<&'static FieldRow>, unit: Unit) -> &'static [u8]
    ensures { result.now
        ≡ suffix_of (end_of (option_map (λ row. facts_of row.now) row.entry)) unit }
{
    match unit {
        Unit::Time | Unit::Scaled(_) => end_of(row),
        Unit::Whole | Unit::Date | Unit::Stated(..) => b"",
    }
}

// How the Profile ends the name.
fn end_of(row: Option<&'static FieldRow>) -> &'static [u8]
    ensures { result.now ≡ end_of (option_map (λ row. facts_of row.now) row.entry) }
{
    match row {
        Some(row) => row.2.as_bytes(),
        None => b"",
    }
}

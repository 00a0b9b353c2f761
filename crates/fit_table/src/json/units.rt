// The units of values.

ghost use Rattle.std.specs.Prelude.{◌≡◌, false};
ghost use Rattle.fit_table.specs.Json.{has_units, keeps_number, keeps_scale, unit_for};
ghost use Rattle.fit_table.specs.Unit.{shown_by};

use crate::unit::Unit;
use fit_base::BaseType;
use fit_profile::Scale;

/// A unit as values that are written in units, or are not, have it. Times are dates if `utc` is set.
pub fn unit_for(utc: bool, are_in_units: bool, unit: Unit) -> Unit
    ensures { result ≡ unit_for are_in_units (shown_by false utc unit) }
{
    let unit = shown_by(utc, unit);
    if are_in_units || keeps_number(unit) {
        unit
    } else {
        Unit::Whole
    }
}

fn shown_by(utc: bool, unit: Unit) -> Unit
    ensures { result ≡ shown_by false utc unit }
{
    match unit {
        Unit::Time if utc => Unit::Date,
        unit => unit,
    }
}

/// Whether values of this type are written in units: whole numbers of at most four bytes are.
pub fn has_units(base: Option<BaseType>) -> bool
    ensures { result ≡ has_units base }
{
    match base {
        None => false,
        Some(base) => match base {
            BaseType::Byte
            | BaseType::String
            | BaseType::Float32
            | BaseType::Float64
            | BaseType::Sint64
            | BaseType::Uint64
            | BaseType::Uint64z => false,
            _ => true,
        },
    }
}

// Whether values of a unit are the numbers of the file.
fn keeps_number(unit: Unit) -> bool
    ensures { result ≡ keeps_number unit }
{
    match unit {
        Unit::Scaled(scale) => keeps_scale(scale),
        Unit::Stated(..) => false,
        _ => true,
    }
}

fn keeps_scale(scale: Scale) -> bool
    ensures { result ≡ keeps_scale scale }
{
    match scale {
        Scale::Whole => true,
        _ => false,
    }
}

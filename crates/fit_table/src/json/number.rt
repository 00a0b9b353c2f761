// The numbers of a field in a unit.

ghost use Rattle.std.specs.Prelude.{◌≡◌, ◌<◌, true};
ghost use Rattle.fit_base.specs.Base.{base_type};
ghost use Rattle.fit_base.specs.Value.{count_of, unsigned_at, values_of};
ghost use Rattle.fit_columns.specs.Places.{IsSmall};
ghost use Rattle.fit_text.specs.Pen.{Puts};
ghost use Rattle.fit_table.specs.Json.{are_in_units, date_json, has_units, number_json, value_json, values_in};

use crate::json::units::has_units;
use crate::number::put_value;
use crate::unit::Unit;
use fit_base::{BaseType, FieldValue};
use fit_grammar::Sink;
use fit_text::{Numbers, Pen, json_notation, put_marked_date, put_values as put_values_by};

/// Whether the values of a field are written in units.
pub fn are_in_units(value: &FieldValue<'_>) -> bool
    ensures { result ≡ are_in_units (base_type value.now.base) (values_of value.now) }
{
    has_units(value.base_type()) && value.count() != 0
}

/// The values of a field: in the unit if the type has units, or else as without the Profile.
pub fn put_values<S: Sink>(
    pen: &mut Pen<'_, S>,
    unit: Unit,
    value: &FieldValue<'_>,
) -> Result<(), S::Fault>
    ensures { Puts pen.old pen.new result
        (values_in unit (base_type value.now.base) (values_of value.now)) }
{
    match value.base_type() {
        Some(base) if has_units(Some(base)) && value.count() == 1 => put_at(
            pen, unit, base, value, 0,
        ),
        _ => put_others(pen, unit, value),
    }
}

// Values that are not one number in a unit.
#[inline(never)]
fn put_others<S: Sink>(
    pen: &mut Pen<'_, S>,
    unit: Unit,
    value: &FieldValue<'_>,
) -> Result<(), S::Fault>
    ensures { Puts pen.old pen.new result
        (values_in unit (base_type value.now.base) (values_of value.now)) }
{
    put_values_by(pen, &json_notation(), &InUnit { unit }, value)
}

// Numbers in a unit.
#[derive(Drop)]
struct InUnit {
    unit: Unit,
}

impl Numbers for InUnit {
    ghost use Rattle.fit_table.specs.Json.{number_in};

    ghost number = { λ n. number_in n.unit };

    fn put_number<S: Sink>(
        &self,
        pen: &mut Pen<'_, S>,
        base: BaseType,
        field: &FieldValue<'_>,
        i: usize,
    ) -> Result<(), S::Fault> {
        if has_units(Some(base)) {
            put_at(pen, self.unit, base, field, i)
        } else {
            json_notation().put_number(pen, base, field, i)
        }
    }
}

// The number of this index.
fn put_at<S: Sink>(
    pen: &mut Pen<'_, S>,
    unit: Unit,
    base: BaseType,
    value: &FieldValue<'_>,
    i: usize,
) -> Result<(), S::Fault>
    requires known { base_type value.now.base ≡ Some base }
    requires units { has_units (Some base) ≡ true }
    requires index { i < count_of value.now }
    ensures { Puts pen.old pen.new result (number_json unit base (unsigned_at value.now i)) }
{
    let number = value.unsigned(i);
    if number == base.invalid() {
        pen.put(b"null")
    } else if base.is_signed() {
        put_in_unit(pen, unit, value.signed(i))
    } else {
        put_in_unit(pen, unit, number as i64)
    }
}

fn put_in_unit<S: Sink>(pen: &mut Pen<'_, S>, unit: Unit, value: i64) -> Result<(), S::Fault>
    requires { IsSmall value }
    ensures { Puts pen.old pen.new result (value_json unit value) }
{
    match unit {
        Unit::Date => put_date_json(pen, value),
        unit => put_value(pen, b"", unit, value),
    }
}

// A time as a date between quotation marks, or `null`.
fn put_date_json<S: Sink>(pen: &mut Pen<'_, S>, value: i64) -> Result<(), S::Fault>
    ensures { Puts pen.old pen.new result (date_json value) }
{
    if value >= 0x1000_0000 && value <= 0xFFFF_FFFF {
        put_marked_date(pen, &json_notation(), value as u32)
    } else {
        pen.put(b"null")
    }
}

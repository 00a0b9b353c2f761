// A field as a member of a JSON object.

ghost use Rattle.std.specs.Prelude.{◌≡◌, ◌++◌, codes, option_map};
ghost use Rattle.fit_base.specs.Value.{values_of};
ghost use Rattle.fit_grammar.specs.Format.Message.{MessageField};
ghost use Rattle.fit_text.specs.Plan.{separator};
ghost use Rattle.fit_text.specs.Pen.{Puts};
ghost use Rattle.fit_profile.specs.Facts.{facts_of};
ghost use Rattle.fit_table.specs.Json.{IsRowOf, field_json};
ghost use Rattle.fit_table.specs.Table.{name_by};
ghost use Rattle.fit_table.specs.Unit.{end_of, suffix_of};

use crate::json::number::{are_in_units, put_values};
use crate::json::units::unit_for;
use crate::table::put_name_by;
use crate::unit::{Unit, suffix_of, unit_of};
use fit_base::FieldValue;
use fit_grammar::Sink;
use fit_profile::FieldRow;
use fit_text::Pen;

/// A field of this number, after a comma if it is not the first.
pub fn put_field<S: Sink>(
    pen: &mut Pen<'_, S>,
    utc: bool,
    message: u16,
    number: u8,
    row: Option<&'static FieldRow>,
    value: &FieldValue<'_>,
    is_first: bool,
) -> Result<(), S::Fault>
    requires { IsRowOf message number row }
    ensures { Puts pen.old pen.new result (let field : MessageField = record
        { number = number; base = value.now.base; values = values_of value.now } in
        separator (codes ",") is_first ++ field_json utc message field) }
{
    let unit = unit_for(utc, are_in_units(value), unit_of(row));
    pen.put(opening(is_first))?;
    put_title(pen, row, unit, number)?;
    pen.put(b"\":")?;
    put_values(pen, unit, value)
}

// What is in front of a name.
fn opening(is_first: bool) -> &'static [u8]
    ensures { result.now ≡ separator (codes ",") is_first ++ codes "\"" }
{
    if is_first { b"\"" } else { b",\"" }
}

// The name, with the unit at its end.
fn put_title<S: Sink>(
    pen: &mut Pen<'_, S>,
    row: Option<&'static FieldRow>,
    unit: Unit,
    number: u8,
) -> Result<(), S::Fault>
    ensures { Puts pen.old pen.new result
        (let facts = option_map (λ row. facts_of row.now) row.entry in
        name_by facts number ++ suffix_of (end_of facts) unit) }
{
    put_name_by(pen, row, number)?;
    pen.put(suffix_of(row, unit))
}

// A developer field as its file describes it.

ghost use Rattle.std.specs.Prelude.{◌≡◌};
ghost use Rattle.fit_text.specs.Json.{string_json};
ghost use Rattle.fit_text.specs.Pen.{Puts};
ghost use Rattle.fit_table.specs.Described.{described_in};
ghost use Rattle.fit_table.specs.Json.{described_json, developer_json_by, text_within};

use crate::described::Described;
use crate::json::number::put_values;
use crate::lookup::Lookup;
use fit_base::{Arch, BaseType, FieldValue};
use fit_grammar::{DeveloperFieldDefinition, Sink};
use fit_text::{Pen, put_developer_bytes, put_developer_key, put_json_string};

// The most bytes of a name and of units in the Profile.
const MOST_OF_NAME: usize = 64;

const MOST_OF_UNITS: usize = 16;

/// A developer field of the message in this place, by its description among these. One that has none is written by its bytes.
pub fn put_developer<S: Sink>(
    pen: &mut Pen<'_, S>,
    known: &Lookup<'_, '_>,
    place: u64,
    arch: Arch,
    field: &DeveloperFieldDefinition,
    bytes: &[u8],
) -> Result<(), S::Fault>
    ensures { Puts pen.old pen.new result
        (developer_json_by (described_in known.now place field.now.index field.now.number)
        (record {
          index =
              field.now.index;
          number = field.now.number;
          arch = arch;
          bytes = bytes.now;
        })) }
{
    match known.last(place, field.index, field.number) {
        Some(described) => put_described(pen, described, arch, field, bytes),
        None => put_developer_bytes(pen, field, bytes),
    }
}

// A field with its name and its units, unless they are longer than in the Profile, and its values.
fn put_described<S: Sink>(
    pen: &mut Pen<'_, S>,
    described: &Described<'_>,
    arch: Arch,
    field: &DeveloperFieldDefinition,
    bytes: &[u8],
) -> Result<(), S::Fault>
    ensures { Puts pen.old pen.new result
        (described_json described.now (record {
          index =
              field.now.index;
          number = field.now.number;
          arch = arch;
          bytes = bytes.now;
        })) }
{
    put_developer_key(pen, field)?;
    pen.put(b",\"name\":")?;
    put_string(pen, within(MOST_OF_NAME, described.name))?;
    pen.put(b",\"units\":")?;
    put_string(pen, within(MOST_OF_UNITS, described.units))?;
    pen.put(b",\"value\":")?;
    put_values(
        pen,
        described.unit,
        &FieldValue::new(described.base, arch, bytes),
    )?;
    pen.put(b"}")
}

fn put_string<S: Sink>(pen: &mut Pen<'_, S>, bytes: &[u8]) -> Result<(), S::Fault>
    ensures { Puts pen.old pen.new result (string_json bytes.now) }
{
    let field = FieldValue::new(BaseType::String.code(), Arch::Little, bytes);
    put_json_string(pen, &field)
}

// A text that is no longer than so many bytes; none if it is.
fn within(most: usize, text: &[u8]) -> &[u8]
    ensures { result.now ≡ text_within most text.now }
{
    if text.len() <= most { text } else { &[] }
}

// The values of a field.

pub(crate) mod bytes;
pub(crate) mod date;
pub(crate) mod number;
pub(crate) mod string;
pub(crate) mod whole;

ghost use Rattle.std.specs.Prelude.{◌≡◌, ◌≢◌};
ghost use Rattle.fit_base.specs.Base.{base_type};
ghost use Rattle.fit_base.specs.Value.{count_of, values_of};
ghost use Rattle.fit_text.specs.Notation.{words_of};
ghost use Rattle.fit_text.specs.Pen.{Puts};
ghost use Rattle.fit_text.specs.Values.{values_as};

use crate::notation::Notation;
use crate::value::bytes::{put_byte_field, put_bytes};
use crate::value::number::{Numbers, put_numbers};
use crate::value::string::put_string;
use crate::writing::Pen;
use fit_base::{BaseType, FieldValue};
use fit_grammar::Sink;

/// The values of a field, in the words of a notation. `numbers` writes those of types of numbers.
pub fn put_values<N: Numbers, S: Sink>(
    pen: &mut Pen<'_, S>,
    notation: &Notation,
    numbers: &N,
    value: &FieldValue<'_>,
) -> Result<(), S::Fault>
    ensures { Puts pen.old pen.new result
        (values_as (words_of notation.now) (N.number numbers.now) (base_type value.now.base)
        (values_of value.now)) }
{
    if value.is_raw() {
        return put_bytes(pen, notation, value.raw());
    }
    if value.count() == 0 {
        return pen.put(notation.nothing);
    }
    match value.base_type() {
        Some(base) => put_some(pen, notation, numbers, base, value),
        None => unreachable!(),
    }
}

// The values of a field of this type, at least one.
fn put_some<N: Numbers, S: Sink>(
    pen: &mut Pen<'_, S>,
    notation: &Notation,
    numbers: &N,
    base: BaseType,
    value: &FieldValue<'_>,
) -> Result<(), S::Fault>
    requires known { base_type value.now.base ≡ Some base }
    requires some { count_of value.now ≢ 0 }
    ensures { Puts pen.old pen.new result
        (values_as (words_of notation.now) (N.number numbers.now) (base_type value.now.base)
        (values_of value.now)) }
{
    match base {
        BaseType::String => put_string(pen, notation, value),
        BaseType::Byte => put_byte_field(pen, notation, value.raw()),
        _ => put_numbers(pen, notation, numbers, base, value),
    }
}

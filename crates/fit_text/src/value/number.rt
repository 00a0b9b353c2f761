// The numbers of a field.

ghost use Rattle.std.specs.Prelude.{◌≡◌, ◌<◌, ◌==◌, ◌++◌, if◌then◌else◌, [], codes, false};
ghost use Rattle.std.specs.List.{join_by};
ghost use Rattle.fit_base.specs.declared.base.BaseType.{BaseType as AnyBaseType};
ghost use Rattle.fit_base.specs.Base.{base_type, has_sign};
ghost use Rattle.fit_base.specs.Value.{count_of, value_size, unsigned_at, numbers};
ghost use Rattle.fit_text.specs.Notation.{words_of};
ghost use Rattle.fit_text.specs.Pen.{Puts};
ghost use Rattle.fit_text.specs.Values.{number_as, numbers_as, plain_as};

use crate::notation::Notation;
use crate::value::bytes::put_bytes;
use crate::writing::Pen;
use fit_base::{BaseType, FieldValue};
use fit_grammar::Sink;

/// How numbers are written.
pub trait Numbers {
    ghost use Rattle.std.specs.Prelude.{ℕ, List};

    // A number of this type.
    ghost number: { Self → AnyBaseType → ℕ → List ℕ };

    /// Puts the number of this index.
    fn put_number<S: Sink>(
        &self,
        pen: &mut Pen<'_, S>,
        base: BaseType,
        field: &FieldValue<'_>,
        i: usize,
    ) -> Result<(), S::Fault>
        requires known { base_type field.now.base ≡ Some base }
        requires index { i < count_of field.now }
        ensures { Puts pen.old pen.new result (number self.now base (unsigned_at field.now i)) };
}

/// The number of a field of this type, or several with commas between them.
pub fn put_numbers<N: Numbers, S: Sink>(
    pen: &mut Pen<'_, S>,
    notation: &Notation,
    writer: &N,
    base: BaseType,
    field: &FieldValue<'_>,
) -> Result<(), S::Fault>
    requires known { base_type field.now.base ≡ Some base }
    ensures { Puts pen.old pen.new result
        (numbers_as (words_of notation.now) (N.number writer.now base)
        (numbers field.now.arch (value_size field.now) (count_of field.now) field.now.bytes)) }
{
    if field.count() == 1 {
        return writer.put_number(pen, base, field, 0);
    }
    pen.put(notation.opening)?;
    put_each(pen, writer, base, field)?;
    pen.put(notation.closing)
}

// The numbers, with commas between them.
fn put_each<N: Numbers, S: Sink>(
    pen: &mut Pen<'_, S>,
    writer: &N,
    base: BaseType,
    field: &FieldValue<'_>,
) -> Result<(), S::Fault>
    requires known { base_type field.now.base ≡ Some base }
    ensures { Puts pen.old pen.new result
        (join_by (N.number writer.now base) (codes ",")
        (numbers field.now.arch (value_size field.now) (count_of field.now) field.now.bytes)) }
{
    for i in 0..field.count() {
        put_next(pen, writer, base, field, i)?;
    }
    Ok(())
}

fn put_next<N: Numbers, S: Sink>(
    pen: &mut Pen<'_, S>,
    writer: &N,
    base: BaseType,
    field: &FieldValue<'_>,
    i: usize,
) -> Result<(), S::Fault>
    requires known { base_type field.now.base ≡ Some base }
    requires index { i < count_of field.now }
    ensures { Puts pen.old pen.new result
        ((if i == 0 then [] else codes ",")
        ++ N.number writer.now base (unsigned_at field.now i)) }
{
    if i == 0 {
        return writer.put_number(pen, base, field, i);
    }
    pen.put(b",")?;
    writer.put_number(pen, base, field, i)
}

impl Numbers for Notation {
    ghost use Rattle.fit_text.specs.Notation.{words_of};
    ghost use Rattle.fit_text.specs.Values.{number_as};

    ghost number = { λ n. number_as (words_of n) };

    fn put_number<S: Sink>(
        &self,
        pen: &mut Pen<'_, S>,
        base: BaseType,
        field: &FieldValue<'_>,
        i: usize,
    ) -> Result<(), S::Fault> {
        let number = field.unsigned(i);
        if number == base.invalid() {
            pen.put(self.invalid)
        } else if base.is_signed() {
            pen.put_signed(field.signed(i))
        } else {
            put_unsigned(pen, self, base, number)
        }
    }
}

// A number of a type without a sign; for a float, the bytes of its bits.
fn put_unsigned<S: Sink>(
    pen: &mut Pen<'_, S>,
    notation: &Notation,
    base: BaseType,
    number: u64,
) -> Result<(), S::Fault>
    requires { has_sign base ≡ false }
    ensures { Puts pen.old pen.new result (plain_as (words_of notation.now) base number) }
{
    match base {
        BaseType::Float32 => put_bytes(pen, notation, &number.to_be_bytes()[4..]),
        BaseType::Float64 => put_bytes(pen, notation, &number.to_be_bytes()),
        _ => pen.put_number(number),
    }
}

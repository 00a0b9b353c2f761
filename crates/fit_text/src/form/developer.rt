// The developer fields of a message.

ghost use Rattle.std.specs.Prelude.{◌≡◌, ◌≤◌, ◌++◌, length, sum_by};
ghost use Rattle.std.specs.List.{join_by};
ghost use Rattle.fit_grammar.specs.Format.Message.{developer_of};
ghost use Rattle.fit_text.specs.Pen.{Puts};
ghost use Rattle.fit_text.specs.Plan.{separator};

use crate::form::file::Form;
use crate::writing::Pen;
use fit_base::Arch;
use fit_grammar::{DeveloperFieldDefinition, Sink};

/// The developer fields at the front of this content. The message has the place `number`.
pub fn put_developer_fields<F: Form, S: Sink>(
    form: &F,
    pen: &mut Pen<'_, S>,
    arch: Arch,
    number: u64,
    fields: &[DeveloperFieldDefinition],
    content: &[u8],
) -> Result<(), S::Fault>
    requires { sum_by (λ field. field.size) fields.now ≤ length content.now }
    ensures { Puts pen.old pen.new result
        (join_by ((F.form form.now).developer number) (F.form form.now).notation.between
        (developer_of arch fields.now content.now)) }
{
    let mut left = fields;
    let mut rest = content;
    let mut first = true;
    while let [field, others @ ..] = left {
        let (bytes, after) = rest.split_at(usize::from(field.size));
        put_next(form, pen, arch, number, field, bytes, first)?;
        left = others;
        rest = after;
        first = false;
    }
    Ok(())
}

// A developer field, after what separates it from the one before if it is not the first.
fn put_next<F: Form, S: Sink>(
    form: &F,
    pen: &mut Pen<'_, S>,
    arch: Arch,
    number: u64,
    field: &DeveloperFieldDefinition,
    bytes: &[u8],
    is_first: bool,
) -> Result<(), S::Fault>
    requires { length bytes.now ≡ field.now.size }
    ensures { Puts pen.old pen.new result
        (separator (F.form form.now).notation.between is_first
        ++ (F.form form.now).developer number (record {
          index =
              field.now.index;
          number = field.now.number;
          arch = arch;
          bytes = bytes.now;
        })) }
{
    if is_first {
        return form.put_developer_field(pen, arch, number, field, bytes);
    }
    pen.put(form.notation().between)?;
    form.put_developer_field(pen, arch, number, field, bytes)
}

// The line of a message.

ghost use Rattle.std.specs.Prelude.{◌≡◌, ◌<◌, ◌≤◌, ◌^◌, length, drop, sum_by, IfOk, IfSome};
ghost use Rattle.fit_grammar.specs.Format.Message.{message_under};
ghost use Rattle.fit_text.specs.Form.{line_of};
ghost use Rattle.fit_text.specs.Pen.{Puts};
ghost use Rattle.fit_text.specs.Plan.{AreNamed, IsNamed, IsPlanOf, columns_text, time_text};

use crate::form::developer::put_developer_fields;
use crate::form::file::Form;
use crate::form::plan::{Column, Plan};
use crate::writing::Pen;
use fit_base::Arch;
use fit_grammar::{DataMessage, DeveloperFieldDefinition, Sink};

/// The line of a message: how it begins, the time of its compressed timestamp if it has one, its fields, and its developer fields.
pub fn put_message<F: Form, S: Sink>(
    form: &mut F,
    pen: &mut Pen<'_, S>,
    plan: &Plan,
    columns: &[Column],
    developer: &[DeveloperFieldDefinition],
    number: u64,
    message: &DataMessage<'_>,
    time: Option<u32>,
) -> Result<(), S::Fault>
    requires { IsPlanOf (F.form form.old).notation.empty message.now.definition plan.now
        columns.now developer.now }
    ensures text { Puts pen.old pen.new result
        (line_of (F.form form.old) plan.now.utc number
        (message_under message.now.definition time message.now.content.now)) }
    ensures same { F.form form.new ≡ F.form form.old }
{
    form.put_head(pen, plan, number)?;
    put_time(form, pen, plan, time)?;
    let after = put_columns(form, pen, plan, columns, message.content, time.is_none())?;
    pen.put(form.notation().middle)?;
    put_developer_fields(form, pen, plan.arch, number, developer, after)?;
    pen.put(form.notation().end)
}

// The time of a compressed timestamp, if there is one.
#[inline]
fn put_time<F: Form, S: Sink>(
    form: &mut F,
    pen: &mut Pen<'_, S>,
    plan: &Plan,
    time: Option<u32>,
) -> Result<(), S::Fault>
    requires named { IsNamed plan.now.utc plan.now.global plan.now.time }
    requires size { plan.now.time.size ≡ 4 }
    ensures text { Puts pen.old pen.new result
        (time_text ((F.form form.old).field plan.now.utc plan.now.global) plan.now.time time) }
    ensures fits { IfSome time (λ time. time < 2 ^ 32) }
    ensures same { F.form form.new ≡ F.form form.old }
{
    match time {
        None => Ok(()),
        Some(time) => {
            let bytes = time.to_le_bytes();
            form.put_field(pen, plan, &plan.time, Arch::Little, &bytes, true)
        }
    }
}

// The fields at the front of this content. Returns the bytes after them.
// Not inlined, so its loop keeps its variables in registers.
#[inline(never)]
fn put_columns<'c, F: Form, S: Sink>(
    form: &mut F,
    pen: &mut Pen<'_, S>,
    plan: &Plan,
    columns: &[Column],
    content: &'c [u8],
    is_first: bool,
) -> Result<&'c [u8], S::Fault>
    requires named { AreNamed plan.now.utc plan.now.global columns.now }
    requires within { sum_by (λ column. column.size) columns.now ≤ length content.now }
    ensures text { Puts pen.old pen.new result
        (columns_text (F.form form.old).notation.between is_first
        ((F.form form.old).field plan.now.utc plan.now.global) plan.now.arch columns.now
        content.now) }
    ensures after { IfOk result
        (λ after. after.now ≡ drop (sum_by (λ column. column.size) columns.now) content.now) }
    ensures same { F.form form.new ≡ F.form form.old }
{
    let arch = plan.arch;
    let mut left = columns;
    let mut rest = content;
    let mut first = is_first;
    while let [column, others @ ..] = left {
        let (bytes, after) = rest.split_at(usize::from(column.size));
        form.put_field(pen, plan, column, arch, bytes, first)?;
        left = others;
        rest = after;
        first = false;
    }
    Ok(rest)
}

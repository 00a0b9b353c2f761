// A whole file.

ghost use Rattle.std.specs.Prelude.{◌≡◌, ◌<◌, ◌++◌, ◌^◌, [], codes, length, IfOk};
ghost use Rattle.fit_grammar.specs.Calls.Output.{WritesText};
ghost use Rattle.fit_grammar.specs.Format.Message.{messages_of};
ghost use Rattle.fit_text.specs.Form.{FileForm, numbered, line_of, lines_of};
ghost use Rattle.fit_text.specs.Notation.{words_of};
ghost use Rattle.fit_text.specs.Pen.{Puts};
ghost use Rattle.fit_text.specs.Text.{message_name};
ghost use Rattle.fit_text.specs.Plan.{IsNamed, field_in, separator};

use crate::form::header::{put_count, put_header};
use crate::form::message::put_message;
use crate::form::plan::{Column, Plan};
use crate::form::plans::Plans;
use crate::notation::Notation;
use crate::writing::Pen;
use fit_base::Arch;
use fit_grammar::{DeveloperFieldDefinition, FileItem, LentFile, Sink};

/// Why a file was not shown.
#[derive(Clone, Copy, Debug, PartialEq, Eq)]
pub enum ShowFault<F> {
    /// The text was not taken: a writer failed, or accepted no byte.
    Write(F),
}

impl<F> ShowFault<F> {
    /// The number of the fault, 1.
    pub fn code(&self) -> u8
        ensures { result ≡ 1 }
    {
        1
    }
}

/// A form of a file: how its messages and fields are written.
pub trait Form {
    // The words of the form, and its messages and fields.
    ghost form: { Self → FileForm };

    fn notation(&self) -> Notation
        ensures { words_of result ≡ (form self.now).notation };

    /// Puts how the line of the message in the place `number` begins.
    fn put_head<S: Sink>(
        &self,
        pen: &mut Pen<'_, S>,
        plan: &Plan,
        number: u64,
    ) -> Result<(), S::Fault>
        requires { plan.now.name ≡ codes " " ++ message_name plan.now.global }
        ensures { Puts pen.old pen.new result ((form self.now).head number plan.now.global) };

    /// Puts a field, after what separates it from the one before if it is not the first.
    fn put_field<S: Sink>(
        &mut self,
        pen: &mut Pen<'_, S>,
        plan: &Plan,
        column: &Column,
        arch: Arch,
        bytes: &[u8],
        is_first: bool,
    ) -> Result<(), S::Fault>
        requires column { IsNamed plan.now.utc plan.now.global column.now }
        requires size { length bytes.now ≡ column.now.size }
        ensures text { Puts pen.old pen.new result
            (separator (form self.old).notation.between is_first
            ++ (form self.old).field plan.now.utc plan.now.global
            (field_in column.now arch bytes.now)) }
        ensures same { form self.new ≡ form self.old };

    /// Puts a developer field of the message in the place `number`.
    fn put_developer_field<S: Sink>(
        &self,
        pen: &mut Pen<'_, S>,
        arch: Arch,
        number: u64,
        field: &DeveloperFieldDefinition,
        bytes: &[u8],
    ) -> Result<(), S::Fault>
        requires { length bytes.now ≡ field.now.size }
        ensures { Puts pen.old pen.new result ((form self.now).developer number (record {
          index =
              field.now.index;
          number = field.now.number;
          arch = arch;
          bytes = bytes.now;
        })) };
}

/// Writes a file in a form, in one pass and without allocation, through a buffer of its own. If `utc` is set, times are dates in UTC.
pub fn write_file<F: Form, S: Sink>(
    form: &mut F,
    file: &LentFile<'_>,
    utc: bool,
    out: &mut S,
) -> Result<(), ShowFault<S::Fault>>
    ensures { WritesText (S.held out.old) (S.held out.new) result
        (lines_of (F.form form.old) utc file.now) }
{
    match put_file(form, out, utc, file) {
        Ok(()) => Ok(()),
        Err(fault) => Err(ShowFault::Write(fault)),
    }
}

fn put_file<F: Form, S: Sink>(
    form: &mut F,
    out: &mut S,
    utc: bool,
    file: &LentFile<'_>,
) -> Result<(), S::Fault>
    ensures { WritesText (S.held out.old) (S.held out.new) result
        (lines_of (F.form form.old) utc file.now) }
{
    let mut pen = Pen::new(out);
    let done = put_all(form, &mut pen, utc, file);
    let _ = pen.into_writer();
    done
}

// All lines. At Ok none of their text waits.
fn put_all<F: Form, S: Sink>(
    form: &mut F,
    pen: &mut Pen<'_, S>,
    utc: bool,
    file: &LentFile<'_>,
) -> Result<(), S::Fault>
    ensures text { Puts pen.old pen.new result (lines_of (F.form form.old) utc file.now) }
    ensures none { IfOk result (λ _. pen.new.waiting ≡ []) }
{
    put_lines(form, pen, utc, file)?;
    pen.hand_over()
}

fn put_lines<F: Form, S: Sink>(
    form: &mut F,
    pen: &mut Pen<'_, S>,
    utc: bool,
    file: &LentFile<'_>,
) -> Result<(), S::Fault>
    ensures { Puts pen.old pen.new result (lines_of (F.form form.old) utc file.now) }
{
    let notation = form.notation();
    put_header(pen, &notation, file.frame(), file.data_size())?;
    let count = put_messages(form, pen, utc, file)?;
    put_count(pen, &notation, count)
}

// The lines of the messages. Returns how many there are.
fn put_messages<F: Form, S: Sink>(
    form: &mut F,
    pen: &mut Pen<'_, S>,
    utc: bool,
    file: &LentFile<'_>,
) -> Result<u64, S::Fault>
    requires { length (messages_of file.now.items) < 2 ^ 32 }
    ensures text { Puts pen.old pen.new result
        (numbered (line_of (F.form form.old) utc) (messages_of file.now.items)) }
    ensures count { IfOk result (λ count. count ≡ length (messages_of file.now.items)) }
{
    let mut plans = Plans::new(utc, form.notation().empty);
    let mut number = 0;
    for item in file.items() {
        match item {
            FileItem::Definition(definition) => {
                plans.forget(definition.local());
                continue;
            }
            FileItem::Data(message, time) => {
                plans.settle(message.local, &message.definition);
                let (plan, columns, developer) = plans.get(message.local);
                put_message(form, pen, plan, columns, developer, number, &message, time)?;
                number += 1;
            }
        }
    }
    Ok(number)
}

// The text of a file.

ghost use Rattle.fit_grammar.specs.Calls.Output.{WritesText};
ghost use Rattle.fit_text.specs.Text.{text_of};

use crate::form::column::put_column;
use crate::form::file::{Form, ShowFault, write_file};
use crate::form::plan::{Column, Plan};
use crate::notation::{AsText, Notation, Words};
use crate::value::bytes::put_hex;
use crate::writing::Pen;
use fit_base::Arch;
use fit_grammar::{DeveloperFieldDefinition, LentFile, Sink};

/// Writes the text of a file, in one pass and without allocation, through a buffer of its own. If `utc` is
/// set, times are dates in UTC. The writer is not flushed. If it fails, it has taken a prefix of the text.
// Not inlined, so its buffers reuse the stack on which those of the reading were.
#[inline(never)]
#[tactic(auto, unfolding(crate::specs::Text::text_of))]
pub fn show<S: Sink>(file: &LentFile<'_>, utc: bool, out: &mut S) -> Result<(), ShowFault<S::Fault>>
    ensures { WritesText (S.held out.old) (S.held out.new) result (text_of utc file.now) }
{
    write_file(&mut AsText, file, utc, out)
}

impl Form for AsText {
    ghost use Rattle.fit_text.specs.Text.{text_form};

    ghost form = { λ _. text_form };

    #[inline(always)]
    fn notation(&self) -> Notation {
        AsText::words()
    }

    #[inline(always)]
    fn put_head<S: Sink>(
        &self,
        pen: &mut Pen<'_, S>,
        plan: &Plan,
        number: u64,
    ) -> Result<(), S::Fault> {
        pen.room()?;
        pen.add_number(number);
        pen.add_label(&plan.name);
        Ok(())
    }

    #[inline(always)]
    fn put_field<S: Sink>(
        &mut self,
        pen: &mut Pen<'_, S>,
        plan: &Plan,
        column: &Column,
        arch: Arch,
        bytes: &[u8],
        is_first: bool,
    ) -> Result<(), S::Fault> {
        pen.room()?;
        pen.add_label(&column.label);
        put_column::<AsText, S>(pen, arch, column, bytes)
    }

    // The index of its developer data, its number, and its bytes with two digits each.
    fn put_developer_field<S: Sink>(
        &self,
        pen: &mut Pen<'_, S>,
        arch: Arch,
        number: u64,
        field: &DeveloperFieldDefinition,
        bytes: &[u8],
    ) -> Result<(), S::Fault> {
        pen.room()?;
        pen.add(b" developer_");
        pen.add_number(u64::from(field.index));
        pen.add(b"_");
        pen.add_number(u64::from(field.number));
        pen.add(b"=");
        put_hex(pen, bytes)
    }
}

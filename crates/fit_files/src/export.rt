// Prints a file in another form than its text, as a table, or what is said of it as an object.

ghost use Rattle.std.specs.Prelude.{◌≡◌, Err, IfErr};
ghost use Rattle.fit_grammar.specs.Calls.Output.{WritesText};
ghost use Rattle.fit_files.specs.declared.fault.ReportFault.TheVariants.{Input};
ghost use Rattle.fit_files.specs.declared.reading.ReadFault.{ReadFault};
ghost use Rattle.fit_files.specs.Calls.Reading.{ReportsInput};
ghost use Rattle.fit_files.specs.Printed.Shown.{IsOutputFault};
ghost use Rattle.fit_files.specs.Exports.Exported.{exported, Exports};

mod checked;
mod held;
mod table;

use crate::decoding::decode_input;
use crate::fault::ReportFault;
pub use checked::print_checked;
use fit_grammar::{File, LentFile, WriteFailed};
use fit_table::{show_profile_json, write_gpx};
use fit_text::{ShowFault, show_json};
pub use held::Held;
use std::alloc::Global;
use std::io::{Read, Write};
pub use table::{table_head, table_held_input, table_input};

/// A form of a file beside its text.
#[derive(Clone, Copy, Debug)]
pub enum ExportForm {
    /// JSON, an object on each line. With `profile`, names and units are those of the Profile; with `utc`, times are dates.
    Json { profile: bool, utc: bool },
    /// The track of an activity as GPX.
    Gpx,
}

/// Reads a file of at most `most` bytes from an input, and writes it in a form. The input is read to its end before anything is written.
pub fn export_input<T: Read, O: Write>(
    alloc: Global,
    from: &mut T,
    most: usize,
    form: ExportForm,
    out: &mut O,
) -> Result<(), ReportFault>
    ensures shown { ReportsInput most (T.remaining from.old) (T.remaining from.new)
        (Exports form (O.contents out.old) (O.contents out.new)) result }
    ensures quiet { (why : ReadFault) → result ≡ Err (Input why)
        → O.contents out.new ≡ O.contents out.old }
{
    match decode_input(alloc, from, most) {
        Ok(file) => export_flushed(&file, form, out),
        Err(fault) => Err(fault),
    }
}

// Writes a file in a form, and flushes the output.
fn export_flushed<O: Write>(file: &File, form: ExportForm, out: &mut O) -> Result<(), ReportFault>
    ensures text { WritesText (O.contents out.old) (O.contents out.new) result
        (exported form file.now) }
    ensures fault { IfErr result IsOutputFault }
{
    let Ok(()) = write_form(&file.lend(), form, out) else {
        return Err(ReportFault::Output);
    };
    match out.flush() {
        Ok(()) => Ok(()),
        Err(_) => Err(ReportFault::Output),
    }
}

fn write_form<O: Write>(
    file: &LentFile<'_>,
    form: ExportForm,
    out: &mut O,
) -> Result<(), ShowFault<WriteFailed>>
    ensures { WritesText (O.contents out.old) (O.contents out.new) result
        (exported form file.now) }
{
    match form {
        ExportForm::Json { profile: true, utc } => show_profile_json(file, utc, out),
        ExportForm::Json {
            profile: false,
            utc,
        } => show_json(file, utc, out),
        ExportForm::Gpx => match write_gpx(file, out) {
            Ok(()) => Ok(()),
            Err(fault) => Err(ShowFault::Write(fault)),
        },
    }
}

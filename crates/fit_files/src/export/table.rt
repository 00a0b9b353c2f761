// Prints a file as a table.

ghost use Rattle.std.specs.Prelude.{◌≡◌, ◌≤◌, ℕ, List, length, Option, Err, option_map, IfErr};
ghost use Rattle.fit_grammar.specs.Calls.Output.{WritesText};
ghost use Rattle.fit_columns.specs.declared.plans.TheConstants.{MOST_COLUMNS};
ghost use Rattle.fit_table.specs.Table.{head_of};
ghost use Rattle.fit_table.specs.Tokens.{Token, WritesTokens};
ghost use Rattle.fit_files.specs.declared.fault.ReportFault.TheVariants.{Input};
ghost use Rattle.fit_files.specs.declared.reading.ReadFault.{ReadFault};
ghost use Rattle.fit_files.specs.Calls.Reading.{ReportsInput};
ghost use Rattle.fit_files.specs.Printed.Shown.{IsOutputFault};
ghost use Rattle.fit_files.specs.Exports.Tabled.{tabled, ShowsHeld, ShowsTable};

use crate::decoding::decode_input;
use crate::export::held::Held;
use crate::fault::ReportFault;
use fit_grammar::{File, LentFile, WriteFailed};
use fit_table::{Layout, write_head, write_lines, write_table};
use std::alloc::Global;
use std::io::{Read, Write};

/// Reads a file of at most `most` bytes from an input, and writes its table. With a `front`, with which each line begins, the first line is
/// left out. The input is read to its end before anything is written.
pub fn table_input<T: Read, O: Write>(
    alloc: Global,
    from: &mut T,
    most: usize,
    layout: &Layout<'_>,
    front: Option<&[u8]>,
    out: &mut O,
) -> Result<(), ReportFault>
    requires { length layout.now.fields.now ≤ MOST_COLUMNS }
    ensures shown { ReportsInput most (T.remaining from.old) (T.remaining from.new)
        (ShowsTable layout.now (option_map (λ text. text.now) front.entry)
        (O.contents out.old) (O.contents out.new)) result }
    ensures quiet { (why : ReadFault) → result ≡ Err (Input why)
        → O.contents out.new ≡ O.contents out.old }
{
    match decode_input(alloc, from, most) {
        Ok(file) => table_decoded(&file, layout, front, out),
        Err(fault) => Err(fault),
    }
}

/// Reads a file in the same way, and writes its table with a column for each field that the messages of the layout have in it, up to 128,
/// in place of the layout's fields. They are left in `held`.
pub fn table_held_input<T: Read, O: Write>(
    alloc: Global,
    from: &mut T,
    most: usize,
    layout: &Layout<'_>,
    held: &mut Held,
    out: &mut O,
) -> Result<(), ReportFault>
    ensures shown { ReportsInput most (T.remaining from.old) (T.remaining from.new)
        (ShowsHeld layout.now held.new (O.contents out.old) (O.contents out.new)) result }
    ensures quiet { (why : ReadFault) → result ≡ Err (Input why)
        → O.contents out.new ≡ O.contents out.old }
{
    match decode_input(alloc, from, most) {
        Ok(file) => {
            held.find(&file.lend(), layout.message);
            let own = Layout {
                message: layout.message,
                fields: held.fields.as_slice(),
                raw: layout.raw,
                utc: layout.utc,
                profile: layout.profile,
                developer: layout.developer,
            };
            table_decoded(&file, &own, None, out)
        }
        Err(fault) => Err(fault),
    }
}

/// Writes the first line of a table. It begins with `front`.
pub fn table_head<O: Write>(
    layout: &Layout<'_>,
    front: &[u8],
    out: &mut O,
) -> Result<(), ReportFault>
    ensures text { WritesText (O.contents out.old) (O.contents out.new) result
        (head_of layout.now front.now) }
    ensures fault { IfErr result IsOutputFault }
{
    match write_head(layout, front, out) {
        Ok(()) => Ok(()),
        Err(_) => Err(ReportFault::Output),
    }
}

// Writes the table of a file that was read, and flushes the output.
fn table_decoded<O: Write>(
    file: &File,
    layout: &Layout<'_>,
    front: Option<&[u8]>,
    out: &mut O,
) -> Result<(), ReportFault>
    requires { length layout.now.fields.now ≤ MOST_COLUMNS }
    ensures text { WritesTokens (O.contents out.old) (O.contents out.new) result
        (tabled layout.now (option_map (λ text. text.now) front.entry) file.now) }
    ensures fault { IfErr result IsOutputFault }
{
    let written = write_chosen(&file.lend(), layout, front, out);
    flush_written(out, written)
}

// Flushes the output, to which a text was written.
fn flush_written<O: Write>(out: &mut O, written: Result<(), WriteFailed>) -> Result<(), ReportFault>
    ensures text { (before : Option (List ℕ)) (tokens : List Token)
        → WritesTokens before (O.contents out.old) written tokens
        → WritesTokens before (O.contents out.new) result tokens }
    ensures fault { IfErr result IsOutputFault }
{
    let Ok(()) = written else {
        return Err(ReportFault::Output);
    };
    match out.flush() {
        Ok(()) => Ok(()),
        Err(_) => Err(ReportFault::Output),
    }
}

fn write_chosen<O: Write>(
    file: &LentFile<'_>,
    layout: &Layout<'_>,
    front: Option<&[u8]>,
    out: &mut O,
) -> Result<(), WriteFailed>
    requires { length layout.now.fields.now ≤ MOST_COLUMNS }
    ensures { WritesTokens (O.contents out.old) (O.contents out.new) result
        (tabled layout.now (option_map (λ text. text.now) front.entry) file.now) }
{
    match front {
        Some(front) => write_lines(layout, front, file, out),
        None => write_table(layout, file, out),
    }
}

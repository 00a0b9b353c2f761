// The subcommand `table`: prints the values of a file as a table.

ghost use Rattle.std.specs.Prelude.{◌≤◌, length, None};
ghost use Rattle.fit_files.specs.Exports.Tabled.{ShowsHeld, ShowsTable};
ghost use Rattle.fit_files.specs.declared.export.held.Held.{Held as AnyHeld};
ghost use Rattle.fit_commands.specs.Faults.{IsReportFault};
ghost use Rattle.fit_commands.specs.Reading.{held_or_given};
ghost use Rattle.fit_commands.specs.Reported.{ReportsRun};

use crate::fault::Fault;
use crate::input::{MOST_BYTES, open_file, reported};
use fit_files::{Held, table_held_input, table_input};
use fit_places::NamedFiles;
use fit_table::Layout;
use std::alloc::Global;
use std::io::{Read, Write};

/// Prints the table of the file of this name, or of standard input if the name is `-`.
pub fn table_file<'a, F: NamedFiles + AllocGlobal, O: Write>(
    files: &F,
    name: &'a str,
    layout: &Layout<'_>,
    out: &mut O,
) -> Result<(), Fault<'a>>
    requires { length layout.now.fields.now ≤ 128 }
    ensures { ReportsRun (held_or_given name.now (F.held files.now name.now) (F.given files.now))
        name.entry (O.contents out.old) (O.contents out.new)
        (IsReportFault name.entry)
        (ShowsTable layout.now None (O.contents out.old) (O.contents out.new)) result }
{
    if name == "-" {
        let mut from = files.standard_input();
        return table_from(files.alloc(), name, &mut from, layout, out);
    }
    let mut file = open_file(files, name)?;
    table_from(files.alloc(), name, &mut file, layout, out)
}

// Prints the table of the input of this name.
fn table_from<'a, T: Read, O: Write>(
    alloc: Global,
    name: &'a str,
    from: &mut T,
    layout: &Layout<'_>,
    out: &mut O,
) -> Result<(), Fault<'a>>
    requires { length layout.now.fields.now ≤ 128 }
    ensures { ReportsRun (T.remaining from.old)
        name.entry (O.contents out.old) (O.contents out.new)
        (IsReportFault name.entry)
        (ShowsTable layout.now None (O.contents out.old) (O.contents out.new)) result }
{
    let shown = table_input(alloc, from, MOST_BYTES, layout, None, out);
    reported(name, shown)
}

/// Prints the table of the file of this name, or of standard input if the name is `-`, with a column for each field that the messages of
/// the layout have in it, in place of the layout's fields. Reports how many there are past 128.
pub fn table_of_all<'a, F: NamedFiles + AllocGlobal, O: Write, E: Write>(
    files: &F,
    name: &'a str,
    layout: &Layout<'_>,
    out: &mut O,
    err: &mut E,
) -> Result<(), Fault<'a>>
    ensures { (held : AnyHeld)
        × ReportsRun (held_or_given name.now (F.held files.now name.now) (F.given files.now))
        name.entry (O.contents out.old) (O.contents out.new)
        (IsReportFault name.entry)
        (ShowsHeld layout.now held (O.contents out.old) (O.contents out.new)) result }
{
    let mut held = Held::new();
    let done = table_held(files, name, layout, &mut held, out);
    let count = held.left_out;
    if count > 0 {
        let _ = writeln!(
            err,
            "fitrec: {count} columns past the first 128 are left out; --fields chooses them",
        );
    }
    done
}

fn table_held<'a, F: NamedFiles + AllocGlobal, O: Write>(
    files: &F,
    name: &'a str,
    layout: &Layout<'_>,
    held: &mut Held,
    out: &mut O,
) -> Result<(), Fault<'a>>
    ensures { ReportsRun (held_or_given name.now (F.held files.now name.now) (F.given files.now))
        name.entry (O.contents out.old) (O.contents out.new)
        (IsReportFault name.entry)
        (ShowsHeld layout.now held.new (O.contents out.old) (O.contents out.new)) result }
{
    if name == "-" {
        let mut from = files.standard_input();
        return table_held_from(files.alloc(), name, &mut from, layout, held, out);
    }
    let mut file = open_file(files, name)?;
    table_held_from(files.alloc(), name, &mut file, layout, held, out)
}

fn table_held_from<'a, T: Read, O: Write>(
    alloc: Global,
    name: &'a str,
    from: &mut T,
    layout: &Layout<'_>,
    held: &mut Held,
    out: &mut O,
) -> Result<(), Fault<'a>>
    ensures { ReportsRun (T.remaining from.old)
        name.entry (O.contents out.old) (O.contents out.new)
        (IsReportFault name.entry)
        (ShowsHeld layout.now held.new (O.contents out.old) (O.contents out.new)) result }
{
    let shown = table_held_input(alloc, from, MOST_BYTES, layout, held, out);
    reported(name, shown)
}

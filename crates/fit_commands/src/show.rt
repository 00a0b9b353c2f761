// The subcommand `show`: prints the text of a file.

ghost use Rattle.fit_files.specs.Printed.Shown.{ShowsBytes};
ghost use Rattle.fit_commands.specs.Faults.{IsReportFault};
ghost use Rattle.fit_commands.specs.Reported.{ReportsRun};

use crate::fault::Fault;
use crate::input::{MOST_BYTES, open_file, reported};
use fit_files::show_input;
use fit_places::NamedFiles;
use std::io::Write;

/// Prints the text of the file of this name. With `utc`, times are dates.
pub fn show_file<'a, F: NamedFiles + AllocGlobal, O: Write>(
    files: &F,
    name: &'a str,
    utc: bool,
    out: &mut O,
) -> Result<(), Fault<'a>>
    ensures { ReportsRun (F.held files.now name.now) name.entry (O.contents out.old) (O.contents out.new)
        (IsReportFault name.entry)
        (ShowsBytes utc (O.contents out.old) (O.contents out.new)) result }
{
    let mut file = open_file(files, name)?;
    let shown = show_input(files.alloc(), &mut file, MOST_BYTES, utc, out);
    reported(name, shown)
}

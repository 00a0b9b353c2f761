// The subcommand `show` with `--json` or `--gpx`: prints a file in another form than its text.

ghost use Rattle.fit_files.specs.Exports.Exported.{Exports};
ghost use Rattle.fit_commands.specs.Faults.{IsReportFault};
ghost use Rattle.fit_commands.specs.Reported.{ReportsRun};

use crate::fault::Fault;
use crate::input::{MOST_BYTES, open_file, reported};
use fit_files::{ExportForm, export_input};
use fit_places::NamedFiles;
use std::io::Write;

/// Prints the file of this name in a form.
pub fn export_file<'a, F: NamedFiles + AllocGlobal, O: Write>(
    files: &F,
    name: &'a str,
    form: ExportForm,
    out: &mut O,
) -> Result<(), Fault<'a>>
    ensures { ReportsRun (F.held files.now name.now) name.entry (O.contents out.old) (O.contents out.new)
        (IsReportFault name.entry)
        (Exports form (O.contents out.old) (O.contents out.new)) result }
{
    let mut file = open_file(files, name)?;
    let shown = export_input(files.alloc(), &mut file, MOST_BYTES, form, out);
    reported(name, shown)
}

// The subcommand `check`: whether a file is an activity, and its summary.

ghost use Rattle.fit_files.specs.Printed.Checked.{ChecksBytes};
ghost use Rattle.fit_commands.specs.Faults.{IsReportFault};
ghost use Rattle.fit_commands.specs.Reported.{ReportsRun};

use crate::fault::Fault;
use crate::input::{MOST_BYTES, open_file, reported};
use fit_files::check_input;
use fit_places::NamedFiles;
use std::io::Write;

/// Checks that the file of this name is an activity, and prints its summary.
pub fn check_file<'a, F: NamedFiles + AllocGlobal, O: Write>(
    files: &F,
    name: &'a str,
    out: &mut O,
) -> Result<(), Fault<'a>>
    ensures { ReportsRun (F.held files.now name.now) name.entry (O.contents out.old) (O.contents out.new)
        (IsReportFault name.entry)
        (ChecksBytes (O.contents out.old) (O.contents out.new)) result }
{
    let mut file = open_file(files, name)?;
    reported(name, check_input(files.alloc(), &mut file, MOST_BYTES, out))
}

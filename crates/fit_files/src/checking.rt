// Checks whether a file is an activity, and prints its summary or gives it.

ghost use Rattle.std.specs.Prelude.{◌≡◌, List, ℕ, Err};
ghost use Rattle.fit_grammar.specs.Format.File.{FileOf};
ghost use Rattle.fit_files.specs.declared.fault.ReportFault.TheVariants.{Input};
ghost use Rattle.fit_files.specs.declared.reading.ReadFault.{ReadFault};
ghost use Rattle.fit_files.specs.Calls.Reading.{ReportsInput};
ghost use Rattle.fit_files.specs.Printed.Checked.{ChecksBytes, SumsUp, SumsUpFile};

use crate::decoding::decode_input;
use crate::fault::ReportFault;
use crate::printing::print_summary;
use fit_activity::{Summary, check_activity};
use fit_grammar::{File, decode_file};
use std::alloc::Global;
use std::io::{Read, Write};

/// Reads a file of at most `most` bytes from an input, checks that it is an activity, and prints its summary. Otherwise nothing is
/// written. The input is read to its end unless a read fails or it has more than `most` bytes.
pub fn check_input<T: Read, O: Write>(
    alloc: Global,
    from: &mut T,
    most: usize,
    out: &mut O,
) -> Result<(), ReportFault>
    ensures checked { ReportsInput most (T.remaining from.old) (T.remaining from.new)
        (ChecksBytes (O.contents out.old) (O.contents out.new)) result }
    ensures quiet { (why : ReadFault) → result ≡ Err (Input why)
        → O.contents out.new ≡ O.contents out.old }
{
    match decode_input(alloc, from, most) {
        Ok(file) => check(&file, out),
        Err(fault) => Err(fault),
    }
}

/// Checks that these bytes are an activity file, and prints its summary. Otherwise nothing is written.
pub fn check_bytes<O: Write>(alloc: Global, bytes: &[u8], out: &mut O) -> Result<(), ReportFault>
    ensures { ChecksBytes (O.contents out.old) (O.contents out.new) bytes.now result }
{
    match decode_file(alloc, bytes) {
        Ok(file) => check(&file, out),
        Err(fault) => Err(ReportFault::File(fault)),
    }
}

fn check<O: Write>(file: &File, out: &mut O) -> Result<(), ReportFault>
    ensures { (bytes : List ℕ) → FileOf bytes file.now
        → ChecksBytes (O.contents out.old) (O.contents out.new) bytes result }
{
    match check_activity(&file.lend()) {
        Ok(summary) => print_summary(summary, out),
        Err(fault) => Err(ReportFault::Activity(fault)),
    }
}

/// Reads a file of at most `most` bytes from an input, and sums it up if it is an activity.
pub fn sum_up_input<T: Read>(
    alloc: Global,
    from: &mut T,
    most: usize,
) -> Result<Summary, ReportFault>
    ensures { ReportsInput most (T.remaining from.old) (T.remaining from.new) SumsUp result }
{
    match decode_input(alloc, from, most) {
        Ok(file) => sum_up(&file),
        Err(fault) => Err(fault),
    }
}

fn sum_up(file: &File) -> Result<Summary, ReportFault>
    ensures { SumsUpFile file.now result }
{
    match check_activity(&file.lend()) {
        Ok(summary) => Ok(summary),
        Err(fault) => Err(ReportFault::Activity(fault)),
    }
}

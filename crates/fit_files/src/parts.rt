// The line of one of several files that are chained, or stand in the image of a card.

ghost use Rattle.std.specs.Prelude.{◌++◌, codes, length, IfErr, Option};
ghost use Rattle.fit_grammar.specs.declared.file.fault.FileFault.{FileFault as AnyFault};
ghost use Rattle.fit_grammar.specs.Calls.Output.{WritesText};
ghost use Rattle.fit_files.specs.Printed.Parts.{IsReadAs, part_line};
ghost use Rattle.fit_files.specs.Printed.Shown.{IsOutputFault};

use crate::fault::ReportFault;
use crate::printing::print_line;
use fit_grammar::{FileFault, LentFile};
use fit_mending::Part;
use std::fmt::{self, Formatter};
use std::io::Write;

/// Prints the line of one of several files: its number or place, how many bytes it has, and why it is no file, if it is none. If the
/// output fails, a prefix of the line is written.
pub fn print_part<O: Write>(part: Part<'_>, out: &mut O) -> Result<(), ReportFault>
    ensures fault { IfErr result IsOutputFault }
    ensures line { (fault : Option AnyFault) × IsReadAs part.entry.bytes.now fault
        × WritesText (O.contents out.old) (O.contents out.new) result
        (part_line part.entry.number (length part.entry.bytes.now) fault ++ codes "\n") }
{
    let fault = match LentFile::read(part.bytes) {
        Ok(_) => None,
        Err(fault) => Some(fault),
    };
    let line = PartLine {
        number: part.number,
        size: part.bytes.len(),
        fault,
    };
    print_line(&line, out)
}

#[derive(Clone, Copy)]
struct PartLine {
    number: usize,
    size: usize,
    fault: Option<FileFault>,
}

impl fmt::Display for PartLine {
    ghost use Rattle.std.specs.Prelude.{Some};
    ghost use Rattle.fit_files.specs.Printed.Parts.{part_line};

    ghost output = { λ line. Some (part_line line.number line.size line.fault) };

    fn fmt<W: fmt::Write>(&self, f: &mut Formatter<W>) -> fmt::Result {
        let PartLine {
            number,
            size,
            fault,
        } = self;
        match fault {
            None => write!(f, "{number}.fit: {size} bytes"),
            Some(fault) => {
                let (kind, place) = (fault.kind, fault.place);
                write!(f, "{number}.fit: {size} bytes, {kind} at {place}")
            }
        }
    }
}

// What is kept of a damaged file, and what is printed of it.

ghost use Rattle.std.specs.Prelude.{◌≡◌, ◌++◌, IfErr};
ghost use Rattle.fit_grammar.specs.Calls.Output.{WritesText};
ghost use Rattle.fit_files.specs.Printed.Kept.{file_id_text as text_of_file_id, heard_line};
ghost use Rattle.fit_files.specs.Printed.Shown.{IsOutputFault};

use crate::fault::ReportFault;
use crate::mended::Mended;
use crate::mended_lines::put_lines;
use crate::printing::print_line;
use crate::salvage::Salvage;
use fit_text::Pen;
use std::fmt::{self, Formatter};
use std::io::Write;

/// What is kept of a damaged file.
#[derive(Drop)]
pub enum Kept<'a> {
    /// The readable part, up to the first fault.
    Front(Salvage<'a>),
    /// What is readable, also after faults.
    Pieces(Mended),
}

impl Kept<'_> {
    ghost use Rattle.fit_files.specs.Printed.Kept.{IsRowOf, kept_lines};

    /// All that is kept as one row, which is written as a salvaged one is.
    pub fn salvage(&self) -> Salvage<'_>
        ensures { IsRowOf self.now result }
    {
        let mended = match self {
            Kept::Front(salvage) => return *salvage,
            Kept::Pieces(mended) => mended,
        };
        Salvage {
            frame: mended.looked.frame,
            row: mended.skipped.row.as_slice(),
            looked_at: mended.looked.looked_at,
            not_looked_at: mended.looked.not_looked_at,
        }
    }

    /// Prints how many of the bytes looked at were kept. Of pieces, this line also has their number, and a line for each part that is left
    /// out follows, with its place in the file. If the file was finished, a last line has what was heard in it. If the output fails, a
    /// prefix of these lines is written.
    pub fn print<O: Write>(&self, heard: Option<Heard>, out: &mut O) -> Result<(), ReportFault>
        ensures fault { IfErr result IsOutputFault }
        ensures lines { WritesText (O.contents out.old) (O.contents out.new) result
            (kept_lines self.now ++ heard_line heard) }
    {
        self.print_kept(out)?;
        print_heard(heard, out)
    }

    // Prints what is kept and what is left out.
    fn print_kept<O: Write>(&self, out: &mut O) -> Result<(), ReportFault>
        ensures fault { IfErr result IsOutputFault }
        ensures lines { WritesText (O.contents out.old) (O.contents out.new) result
            (kept_lines self.now) }
    {
        match self {
            Kept::Front(salvage) => print_line(salvage, out),
            Kept::Pieces(mended) => {
                let mut pen = Pen::new(out);
                let done = put_lines(mended, &mut pen);
                let _ = pen.into_writer();
                done
            }
        }
    }
}

/// What was heard in a file that was finished.
#[derive(Clone, Copy)]
pub struct Heard {
    /// How many entries were heard and taken, without the start.
    pub taken: u32,
    /// How many were left out.
    pub left_out: u32,
    /// Whether a file_id was added.
    pub has_new_file_id: bool,
}

impl fmt::Display for Heard {
    ghost use Rattle.std.specs.Prelude.{Some};
    ghost use Rattle.fit_files.specs.Printed.Kept.{heard_text};

    ghost output = { λ heard. Some (heard_text heard) };

    fn fmt<W: fmt::Write>(&self, f: &mut Formatter<W>) -> fmt::Result {
        write!(f, "heard {} entries", self.taken)?;
        write!(f, ", {} left out", self.left_out)?;
        f.write_str(file_id_text(self.has_new_file_id))
    }
}

// What is said of a file_id.
fn file_id_text(added: bool) -> &'static str
    ensures { result.now ≡ text_of_file_id added }
{
    if added { ", file_id added" } else { "" }
}

// Prints what was heard, if the file was finished.
fn print_heard<O: Write>(heard: Option<Heard>, out: &mut O) -> Result<(), ReportFault>
    ensures fault { IfErr result IsOutputFault }
    ensures line { WritesText (O.contents out.old) (O.contents out.new) result (heard_line heard) }
{
    match heard {
        Some(heard) => print_line(&heard, out),
        None => Ok(()),
    }
}

// The subcommand `split`: writes each of the files that are chained in one, or stand in the image of a card.

ghost use Rattle.std.specs.Prelude.{IfOk, IfErr, OnOk};
ghost use Rattle.fit_places.specs.NamedFiles.{ReplacesNamed};
ghost use Rattle.fit_commands.specs.Faults.{IsNotFound, IsNotWritten, IsPartReported};
ghost use Rattle.fit_commands.specs.Reported.{AreNotTooMany, AreParts, PrintsLines, SplitsFile, WritesParts, part_name, transition_of};

use crate::beside::write_whole;
use crate::content::Content;
use crate::fault::Fault;
use crate::input::{fault_of_report, read_file};
use fit_files::print_part;
use fit_grammar::{EncodeFault, Sink};
use fit_mending::{FindFault, Part, find_files, split_files};
use fit_places::NamedFiles;
use std::alloc::Global;
use std::io::Write;

// The most files that are written without `all`.
const MOST_FILES: usize = 1000;

/// Writes each of the files that are chained in the file `name` into the folder `to`, as `1.fit`, `2.fit` and so on, which may exist. With
/// `all` writes each whole file that stands somewhere in it, named by the place where it begins. Prints a line for each: how many bytes it
/// has, and why it is no file, if it is none. A folder without a name is refused, and so are no file, and more than 1,000 files without
/// `all`.
pub fn split_file<'a, F: NamedFiles + AllocGlobal, O: Write>(
    files: &mut F,
    name: &'a str,
    to: &'a str,
    all: bool,
    out: &mut O,
) -> Result<(), Fault<'a>>
    ensures { SplitsFile all name.entry to.entry
        (transition_of F.held files.old files.new O.contents out.old out.new) result }
{
    let bytes = read_file(files, name)?;
    if to.is_empty() {
        return Err(Fault::Open(to));
    }
    let parts = parts_of(files.alloc(), bytes.as_slice(), all)?;
    if parts.is_empty() {
        return Err(Fault::NoFile(name));
    }
    write_parts(files, to, parts.as_slice(), out)
}

// The files of these bytes.
fn parts_of(alloc: Global, bytes: &[u8], all: bool) -> Result<Vec<Part<'_>>, Fault<'static>>
    ensures parts { IfOk result (λ parts. AreParts all bytes.now parts.items) }
    ensures most { IfOk result (λ parts. AreNotTooMany all parts.items) }
    ensures reported { IfErr result (IsNotFound all) }
{
    if all {
        return match find_files(alloc, bytes) {
            Ok(parts) => Ok(parts),
            Err(FindFault::TooManyHeaders) => Err(Fault::TooManyHeaders),
            Err(FindFault::Memory) => Err(Fault::NoMemory),
        };
    }
    let parts = split_files(alloc, bytes)?;
    if parts.len() > MOST_FILES {
        return Err(Fault::TooManyFiles(parts.len()));
    }
    Ok(parts)
}

// Writes each of these files into the folder, and prints its line after it.
fn write_parts<'a, F: NamedFiles + AllocGlobal, O: Write>(
    files: &mut F,
    folder: &'a str,
    parts: &[Part<'_>],
    out: &mut O,
) -> Result<(), Fault<'a>>
    ensures reported { IfErr result (IsPartReported folder.entry) }
    ensures lines { PrintsLines parts.now (O.contents out.old) (O.contents out.new) result }
    ensures written { OnOk result
        (WritesParts folder.now parts.now (F.held files.old) (F.held files.new)) }
{
    let mut rest = parts;
    while let [part, others @ ..] = rest {
        write_part(files, folder, *part)?;
        match print_part(*part, out) {
            Ok(()) => rest = others,
            Err(fault) => return Err(fault_of_report(folder, fault)),
        }
    }
    Ok(())
}

// The bytes of a file, as they are.
#[derive(Clone, Copy)]
struct Raw<'a>(&'a [u8]);

impl Content for Raw<'_> {
    ghost bytes = { λ raw. raw.0.now };

    fn write_to<W: Write>(&self, out: &mut W) -> Result<(), EncodeFault> {
        out.put(self.0).map_err(|_| EncodeFault::Write)
    }
}

// Writes a file into the folder, under its number.
fn write_part<'a, F: NamedFiles + AllocGlobal>(
    files: &mut F,
    folder: &'a str,
    part: Part<'_>,
) -> Result<(), Fault<'a>>
    ensures written { OnOk result (ReplacesNamed (part_name folder.now part.entry) part.entry.bytes.now
        (F.held files.old) (F.held files.new)) }
    ensures fault { IfErr result (IsNotWritten folder.entry) }
{
    let name = format!(in files.alloc(); "{folder}/{}.fit", part.number)?;
    match write_whole(files, name.as_str(), &Raw(part.bytes)) {
        Ok(()) => Ok(()),
        Err(Fault::NoMemory) => Err(Fault::NoMemory),
        Err(_) => Err(Fault::Write(folder)),
    }
}

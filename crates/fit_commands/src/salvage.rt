// The subcommand `salvage`: writes what is readable of a damaged file to a file of its own.

ghost use Rattle.std.specs.Prelude.{◌≤◌, Bool, List, length, IfOk, IfErr, vec_len};
ghost use Rattle.fit_grammar.specs.Format.Item.{Item};
ghost use Rattle.fit_grammar.specs.Format.Records.{Records};
ghost use Rattle.fit_commands.specs.Faults.{IsNoFormReported, IsNothingKept, IsOfWhole};
ghost use Rattle.fit_commands.specs.Reported.{IsFormOf, IsKeptOf, IsSalvagedOut, SalvagesNamed, transition_of};
ghost use Rattle.fit_commands.specs.Written.{WritesForm, WritesRun};

use crate::beside::write_whole;
use crate::fault::Fault;
use crate::finish::{finish_file, heard_in};
use crate::input::{print_end, read_file_front, reported};
use crate::like::{known_row, like_of, print_like};
use fit_files::{FrontRead, Heard, Kept, Salvage, salvage_bytes, skip_bytes};
use fit_grammar::{File, FileFault, read_header_front};
use fit_places::NamedFiles;
use fit_words::SalvageForm;
use std::alloc::Global;
use std::io::Write;

/// Writes what is readable of the file `name` to the file `to`, which may exist: up to the first fault, or with `skip` also after faults;
/// with `plain` the plain form of that, and with `finish` also the messages that the activity lacks. Both may be one file. Prints how many
/// bytes were kept and what was left out and heard. If the file could not be read to its end, a line on `err` says where reading ended, and
/// if more bytes follow those looked at and the two of a checksum, one gives their number.
///
/// With `skip`, bytes of which nothing is readable are refused as a file, unless they begin with a header. The definitions in force at the
/// end of the file `like`, if there is one, are known before the bytes, and stand first in the file `to`; a last line says how many there
/// are.
pub fn salvage_file<'a, F: NamedFiles + AllocGlobal, O: Write, E: Write>(
    files: &mut F,
    name: &'a str,
    to: &'a str,
    form: &SalvageForm<'a>,
    out: &mut O,
    err: &mut E,
) -> Result<(), Fault<'a>>
    ensures { WritesRun (SalvagesNamed form.now (F.held files.old) name.entry) IsSalvagedOut to.entry
        (transition_of F.held files.old files.new O.contents out.old out.new) result }
{
    let like = like_of(files, form)?;
    let read = read_file_front(files, name)?;
    let kept = kept_of(files.alloc(), name, known_row(&like), &read, form)?;
    let salvage = kept.salvage();
    let heard = write_kept(files, name, to, form, &salvage)?;
    // With either, what was not read is said even if the output fails.
    let is_always_said = form.skip || form.finish;
    if is_always_said {
        print_unread(name, &read, &salvage, err);
    }
    reported(name, kept.print(heard, out))?;
    if !is_always_said {
        print_unread(name, &read, &salvage, err);
    }
    print_like(&like, out)
}

// What is kept of the file `name`, of which this was read, after what is known.
fn kept_of<'a, 'b>(
    alloc: Global,
    name: &'a str,
    known: &[u8],
    read: &'b FrontRead,
    form: &SalvageForm<'_>,
) -> Result<Kept<'b>, Fault<'a>>
    requires most { vec_len read.now.bytes ≤ 268435456 }
    requires row { (items : List Item) × Records known.now items }
    requires short { length known.now ≤ 24592 }
    ensures kept { IfOk result (IsKeptOf form.now known.now read.now.bytes.items) }
    ensures reported { IfErr result (IsNothingKept form.now.skip name.entry) }
    ensures whole { IfErr result (IsOfWhole read.now.is_whole) }
{
    let bytes = read.bytes.as_slice();
    if !form.skip {
        return match salvage_bytes(bytes, form.all) {
            Ok(salvage) => Ok(Kept::Front(salvage)),
            Err(fault) => Err(fault_of(name, read, fault)),
        };
    }
    let mended = skip_bytes(alloc, known, bytes, form.all)?;
    match read_header_front(bytes) {
        Err(fault) if mended.is_empty() => Err(fault_of(name, read, fault)),
        _ => Ok(Kept::Pieces(mended)),
    }
}

// Of the file `name`, of which this was read, nothing is kept: what was read is no file.
fn fault_of<'a>(name: &'a str, read: &FrontRead, fault: FileFault) -> Fault<'a>
    ensures reported { (skip : Bool) → IsNothingKept skip name.entry result }
    ensures whole { IsOfWhole read.now.is_whole result }
{
    if read.is_whole {
        Fault::File(fault)
    } else {
        Fault::Read(name)
    }
}

// Writes what is kept of the file `name` to the file `to`, and returns what was heard in it, if it is finished.
fn write_kept<'a, F: NamedFiles + AllocGlobal>(
    files: &mut F,
    name: &'a str,
    to: &'a str,
    form: &SalvageForm<'_>,
    salvage: &Salvage<'_>,
) -> Result<Option<Heard>, Fault<'a>>
    ensures { WritesForm form.now salvage.now to.entry (F.held files.old) (F.held files.new) result }
{
    if !form.plain && !form.finish {
        write_whole(files, to, salvage)?;
        return Ok(None);
    }
    let file = form_of(files.alloc(), name, form.plain, salvage)?;
    if !form.finish {
        write_whole(files, to, &file)?;
        return Ok(None);
    }
    let finished = finish_file(file)?;
    write_whole(files, to, &finished)?;
    Ok(Some(heard_in(&finished.finishing)))
}

// The file of what is kept of the file `name`, or its plain form.
fn form_of<'a>(
    alloc: Global,
    name: &'a str,
    plain: bool,
    salvage: &Salvage<'_>,
) -> Result<File, Fault<'a>>
    ensures form { IfOk result (IsFormOf plain salvage.now) }
    ensures reported { IfErr result (IsNoFormReported plain) }
{
    let made = if plain {
        salvage.plain(alloc)
    } else {
        salvage.file(alloc)
    };
    reported(name, made)
}

// Prints what was not read of the file `name`, and what was not looked at.
fn print_unread<E: Write>(name: &str, read: &FrontRead, salvage: &Salvage<'_>, err: &mut E) {
    let _ = print_end(name, read.unread_from(), err);
    let _ = salvage.print_left(err);
}

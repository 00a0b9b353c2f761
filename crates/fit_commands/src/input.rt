// Opens and reads the file of a subcommand.

ghost use Rattle.std.specs.Io.KnownBytes.{Appends};
ghost use Rattle.std.specs.Prelude.{◌≡◌, ◌<◌, ◌↔◌, None, IsTrue, IfOk, IfErr, IfSome, OnOk};
ghost use Rattle.fit_commands.specs.Faults.{AnswersReport, IsReportFault};
ghost use Rattle.fit_commands.specs.Reading.{fault_of_read, end_text, IsRead, IsReadFault, IsReadFront, IsFileFault};

use crate::fault::Fault;
use fit_files::{FrontRead, ReadFault, ReportFault, read_all, read_front};
use fit_places::NamedFiles;
use fit_words::ShownWord;
use std::alloc::Global;
use std::io::{self, Read, Write};

/// The greatest size of a file that is read: 256 MiB, in bytes.
pub const MOST_BYTES: usize = 268_435_456;

/// Opens the file of this name, unless it is known to be too large.
pub fn open_file<'a, F: NamedFiles>(files: &F, name: &'a str) -> Result<F::File, Fault<'a>>
    ensures held { IfOk result (λ file. F.File.remaining file ≡ F.held files.now name.now) }
    ensures fault { IfErr result (IsFileFault name.entry) }
{
    let file = files.open(name).map_err(|_| Fault::Open(name))?;
    if is_too_large(files.size(&file)) {
        return Err(Fault::TooLarge);
    }
    Ok(file)
}

/// Reads all bytes of the file of this name.
pub fn read_file<'a, F: NamedFiles + AllocGlobal>(
    files: &F,
    name: &'a str,
) -> Result<Vec<u8>, Fault<'a>>
    ensures read { IfOk result (λ bytes. IsRead (F.held files.now name.now) bytes.items) }
    ensures fault { IfErr result (IsFileFault name.entry) }
{
    let mut file = open_file(files, name)?;
    read_input(files.alloc(), name, &mut file)
}

fn is_too_large(size: u64) -> bool
    ensures { IsTrue result ↔ 268435456 < size }
{
    size > MOST_BYTES as u64
}

/// Reads all bytes of the input of this name.
pub fn read_input<'a, T: Read>(
    alloc: Global,
    name: &'a str,
    from: &mut T,
) -> Result<Vec<u8>, Fault<'a>>
    ensures read { IfOk result (λ bytes. IsRead (T.remaining from.old) bytes.items) }
    ensures refused { IfErr result
        (IsReadFault 268435456 (T.remaining from.old) (T.remaining from.new) name.entry) }
{
    read_all(alloc, from, MOST_BYTES).map_err(|fault| fault_of(name, fault))
}

/// Reads what can be read of the input of this name: its bytes up to its end, or to the first read that fails.
pub fn read_input_front<'a, T: Read>(
    alloc: Global,
    name: &'a str,
    from: &mut T,
) -> Result<FrontRead, Fault<'a>>
    ensures read { IfOk result (IsReadFront (T.remaining from.old)) }
    ensures refused { IfErr result
        (IsReadFault 268435456 (T.remaining from.old) (T.remaining from.new) name.entry) }
{
    read_front(alloc, from, MOST_BYTES).map_err(|fault| fault_of(name, fault))
}

/// The same of the file of this name.
pub fn read_file_front<'a, F: NamedFiles + AllocGlobal>(
    files: &F,
    name: &'a str,
) -> Result<FrontRead, Fault<'a>>
    ensures read { IfOk result (IsReadFront (F.held files.now name.now)) }
    ensures fault { IfErr result (IsFileFault name.entry) }
{
    let mut file = open_file(files, name)?;
    read_input_front(files.alloc(), name, &mut file)
}

/// Prints that the input of this name could not be read from a byte on, if there is such a byte.
pub fn print_end<E: Write>(name: &str, unread_from: Option<usize>, err: &mut E) -> io::Result<()>
    ensures none { unread_from ≡ None → E.contents err.new ≡ E.contents err.old }
    ensures line { IfSome unread_from (λ at. OnOk result
        (Appends (E.contents err.old) (E.contents err.new) (end_text name.now at))) }
{
    match unread_from {
        Some(at) => writeln!(
            err,
            "fitrec: {} could not be read from byte {at} on",
            ShownWord(name),
        ),
        None => Ok(()),
    }
}

/// The program's result for that of an input of this name, which was read, checked, printed or made plain.
pub fn reported<'a, T>(name: &'a str, done: Result<T, ReportFault>) -> Result<T, Fault<'a>>
    ensures { AnswersReport name.entry done result }
{
    done.map_err(|fault| fault_of_report(name, fault))
}

/// The program's fault for an input of this name that was not read, checked, printed or made plain.
pub fn fault_of_report<'a>(name: &'a str, fault: ReportFault) -> Fault<'a>
    ensures { IsReportFault name.entry fault result }
{
    match fault {
        ReportFault::File(fault) => Fault::File(fault),
        ReportFault::Activity(fault) => Fault::Activity(fault),
        ReportFault::Output => Fault::Write("-"),
        ReportFault::Input(fault) => fault_of(name, fault),
        ReportFault::Plain(fault) => Fault::Plain(fault),
    }
}

// The program's fault for an input of this name that was not read.
fn fault_of<'a>(name: &'a str, fault: ReadFault) -> Fault<'a>
    ensures { result ≡ fault_of_read name.entry fault }
{
    match fault {
        ReadFault::Failed => Fault::Read(name),
        ReadFault::TooLarge => Fault::TooLarge,
        ReadFault::NoMemory => Fault::NoMemory,
    }
}

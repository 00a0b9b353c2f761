// The subcommand `shift`: a file with the same messages, and every time in them moved.

ghost use Rattle.std.specs.Prelude.{◌≡◌};
ghost use Rattle.fit_commands.specs.Reported.{transition_of};
ghost use Rattle.fit_commands.specs.Shifted.{fault_of_shift, ShiftsNamed};
ghost use Rattle.fit_commands.specs.Written.{IsCounted, WritesRun};

use crate::beside::write_counted;
use crate::fault::Fault;
use crate::input::read_file;
use fit_files::count_messages;
use fit_grammar::File;
use fit_places::NamedFiles;
use fit_shifting::{Shift, ShiftBy, ShiftFault, shift_bytes};
use fit_words::ShiftForm;
use jiff::Timestamp;
use std::io::Write;

// From 1970-01-01T00:00:00Z to 1989-12-31T00:00:00Z, in seconds.
const FIT_EPOCH: i64 = 631_065_600;

/// The word that does not say how times are moved.
#[derive(Clone, Copy)]
pub enum NotShift<'a> {
    /// It is no number of seconds.
    By(&'a str),
    /// It is no time.
    Start(&'a str),
}

/// How the words say that times are moved.
pub fn shift_by<'a>(form: &ShiftForm<'a>) -> Result<ShiftBy, NotShift<'a>> {
    if let Some(word) = form.start {
        let time = time_in(word).ok_or(NotShift::Start(word))?;
        return Ok(ShiftBy::Start(time));
    }
    let word = form.by.unwrap_or("");
    let shift = shift_in(word).ok_or(NotShift::By(word))?;
    Ok(ShiftBy::Seconds(shift))
}

// The shift by the seconds of this word, which may have a sign.
fn shift_in(word: &str) -> Option<Shift> {
    let seconds = word.parse::<i64>().ok()?;
    let count = valid(i64::try_from(seconds.unsigned_abs()).ok()?)?;
    if seconds < 0 {
        Some(Shift::Earlier(count))
    } else {
        Some(Shift::Later(count))
    }
}

// The time of this word: seconds since 1989-12-31T00:00:00Z, or a date and time of whole seconds with its zone.
fn time_in(word: &str) -> Option<u32> {
    if let Ok(seconds) = word.parse::<u32>() {
        return valid(i64::from(seconds));
    }
    let time = word.parse::<Timestamp>().ok()?;
    if time.subsec_nanosecond() != 0 {
        return None;
    }
    valid(time.as_second().checked_sub(FIT_EPOCH)?)
}

// The number of seconds, unless it is below 0, or 4,294,967,295 or more.
fn valid(seconds: i64) -> Option<u32> {
    match u32::try_from(seconds) {
        Ok(0xFFFF_FFFF) | Err(_) => None,
        Ok(seconds) => Some(seconds),
    }
}

/// Writes the file `name`, with every time in it moved and written out, to the file `to`, which may exist, and prints the number of its
/// messages. Both may be one file.
pub fn make_shifted<'a, F: NamedFiles + AllocGlobal, O: Write>(
    files: &mut F,
    name: &'a str,
    to: &'a str,
    by: ShiftBy,
    out: &mut O,
) -> Result<(), Fault<'a>>
    ensures { WritesRun (ShiftsNamed by (F.held files.old name.now) name.entry) IsCounted to.entry
        (transition_of F.held files.old files.new O.contents out.old out.new) result }
{
    let shifted = shifted_of(files, name, by)?;
    write_counted(files, to, &shifted, count_messages(&shifted), out)
}

// The file of this name with its times moved.
fn shifted_of<'a, F: NamedFiles + AllocGlobal>(
    files: &F,
    name: &'a str,
    by: ShiftBy,
) -> Result<File, Fault<'a>>
    ensures { ShiftsNamed by (F.held files.now name.now) name.entry result }
{
    let bytes = read_file(files, name)?;
    shift_bytes(files.alloc(), by, bytes.as_slice()).map_err(fault_of)
}

// The program's fault for a file whose times are not moved.
fn fault_of(fault: ShiftFault) -> Fault<'static>
    ensures { result ≡ fault_of_shift fault }
{
    match fault {
        ShiftFault::File(fault) => Fault::File(fault),
        ShiftFault::NoTime => Fault::NoTime,
        ShiftFault::Time(place) => Fault::TimeTooFar(place),
        ShiftFault::Plain(fault) => Fault::Plain(fault),
        ShiftFault::Memory => Fault::NoMemory,
    }
}

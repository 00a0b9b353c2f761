// The subcommand `save`: writes the ride of a recording to a plain file. Nothing is written to the recording.

ghost use Rattle.std.specs.Prelude.{◌≡◌, IfErr, IfOk};
ghost use Rattle.fit_commands.specs.Faults.{IsRideReported};
ghost use Rattle.fit_commands.specs.Reported.{AreCounted, IsSavedOut, IsSavedRide, SavesNamed, transition_of};
ghost use Rattle.fit_commands.specs.Written.{WritesRun};

use crate::beside::write_whole;
use crate::fault::Fault;
use crate::folder::read_recorded;
use crate::input::{print_end, reported};
use fit_disk::DATA_NAME;
use fit_files::{FrontRead, print_summary};
use fit_places::NamedFiles;
use fit_recorder::{RecFault, count_uncommitted, has_counted_bytes, leave_changed};
use fit_recordings::{Lack, SaveFault, SavedRide, save_ride};
use std::alloc::Global;
use std::io::Write;

/// Writes the plain form of the file that a repair of the folder `name` would make to the file `to`, which may exist, and prints its
/// summary. A folder without a name is not opened. With `earlier` the commit before the last is taken if the bytes that the last one
/// counts have changed. Lines on `err` say what that leaves out, which whole messages were not committed, and where the data file could
/// not be read.
pub fn save_folder<'a, F: NamedFiles + AllocGlobal, O: Write, E: Write>(
    files: &mut F,
    name: &'a str,
    to: &'a str,
    earlier: bool,
    out: &mut O,
    err: &mut E,
) -> Result<(), Fault<'a>>
    ensures { WritesRun
        (SavesNamed earlier (F.held_data files.old name.now) (F.held_journal files.old name.now) name.entry)
        IsSavedOut to.entry (transition_of F.held files.old files.new O.contents out.old out.new) result }
{
    if name.is_empty() {
        return Err(Fault::Open(name));
    }
    let (read, journal_bytes) = read_recorded(files, name)?;
    if !read.is_whole && !has_counted_bytes(read.bytes.as_slice(), journal_bytes.as_slice()) {
        return Err(Fault::BodyNotRead(read.bytes.len()));
    }
    let (saved, left) = saved_of(files.alloc(), read, journal_bytes, earlier)?;
    write_whole(files, to, &saved.file)?;
    print_left(left, err);
    reported(name, print_summary(saved.summary, out))
}

// What of a recording is not in the ride that was saved.
#[derive(Clone, Copy)]
struct Left {
    // Where the data file could not be read.
    unread_from: Option<usize>,
    // How many bytes of the last commit, if what it counts has changed.
    of_commit: Option<u32>,
    // How many bytes of whole messages after the last commit.
    uncommitted: Option<usize>,
}

// Prints a line for each.
fn print_left<E: Write>(left: Left, err: &mut E) {
    let _ = print_end(DATA_NAME, left.unread_from, err);
    if let Some(count) = left.of_commit {
        let _ = writeln!(
            err,
            "fitrec: {count} bytes of the last commit are left out, since what it counts has changed",
        );
    }
    if let Some(count) = left.uncommitted {
        let _ = writeln!(
            err,
            "fitrec: {count} bytes of whole messages after the last commit are left out; salvage --all keeps them",
        );
    }
}

// The ride of what was read of a data file, and of these bytes of a journal; and what is left out.
fn saved_of(
    alloc: Global,
    read: FrontRead,
    mut journal_bytes: Vec<u8>,
    earlier: bool,
) -> Result<(SavedRide, Left), Fault<'static>>
    ensures ride { IfOk result (λ found. IsSavedRide earlier
        (record { in_data = read.bytes.items; in_journal = journal_bytes.items }) found.0) }
    ensures reported { IfErr result (IsRideReported read) }
{
    let unread_from = read.unread_from();
    let data_bytes = read.bytes;
    let lack = match unread_from {
        Some(_) => Lack::of_journal(journal_bytes.as_slice()),
        None => Lack::of(data_bytes.as_slice(), journal_bytes.as_slice()),
    };
    let uncommitted = count_uncommitted(data_bytes.as_slice(), journal_bytes.as_slice());
    let of_commit = leave_out(earlier, data_bytes.as_slice(), &mut journal_bytes);
    let left = Left {
        unread_from,
        of_commit,
        uncommitted,
    };
    match save_ride(alloc, data_bytes, journal_bytes) {
        Ok(saved) => Ok((saved, left)),
        Err(SaveFault::Recorder(RecFault::NothingRecorded)) => Err(Fault::NothingSaved(lack)),
        Err(SaveFault::Recorder(fault)) => Err(Fault::Recorder(fault)),
        Err(SaveFault::Changed) => Err(Fault::Changed),
        Err(SaveFault::TooLarge) => Err(Fault::TooLarge),
        Err(SaveFault::NoMemory) => Err(Fault::NoMemory),
    }
}

// Takes the last commit from a journal if what it counts has changed, and the one before it may be taken. Returns how many bytes count no
// longer.
fn leave_out(earlier: bool, data_bytes: &[u8], journal_bytes: &mut Vec<u8>) -> Option<u32>
    ensures { AreCounted earlier
        (record { in_data = data_bytes.now; in_journal = journal_bytes.old.items })
        (record { in_data = data_bytes.now; in_journal = journal_bytes.new.items }) }
{
    if !earlier {
        return None;
    }
    leave_changed(data_bytes, journal_bytes.as_mut_slice())
}

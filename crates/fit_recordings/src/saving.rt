// Saves a ride from the bytes of the two files of its recording. The files themselves are not written.

ghost use Rattle.std.specs.Prelude.{◌≡◌, ◌+◌, ◌≤◌, ◌<◌, ◌^◌, IsErrOf, IfErr, Err, ◌⊎◌, OnOk};
ghost use Rattle.fit_disk.specs.Buffers.{story_in, counts_in, room_of};
ghost use Rattle.fit_disk.specs.Counts.{no_calls};
ghost use Rattle.fit_disk.specs.State.{seen_in};
ghost use Rattle.fit_disk.specs.declared.disk.Which.TheVariants.{Data, Journal};
ghost use Rattle.fit_recorder.specs.Calls.Recovery.{RecoveryAnswers, IsRecoveryFault};
ghost use Rattle.fit_recorder.specs.Files.Committed.{HasCounted};
ghost use Rattle.fit_recorder.specs.Files.Limits.{longest_end};
ghost use Rattle.fit_recorder.specs.Files.NothingRecorded.{IsNothing};
ghost use Rattle.fit_recorder.specs.Files.Settled.{IsDamaged, IsSettled};
ghost use Rattle.fit_recorder.specs.declared.fault.RecFault.TheVariants as recording;
ghost use Rattle.fit_recordings.specs.Saved.{FinishesRide, SavesRide, fault_of_plain};

use fit_activity::Summary;
use fit_disk::{Buffers, Which};
use fit_grammar::{File, Places, PlainFaultKind, decode_file, plain_file};
use fit_recorder::{CLOSING_ROOM, RecFault, has_changed, recover};
use std::alloc::Global;

/// Why a ride was not saved.
#[derive(Clone, Copy, Debug, PartialEq, Eq)]
pub enum SaveFault {
    /// The recording was not recovered: nothing is recorded, or the files are damaged.
    Recorder(RecFault),
    /// The files are damaged: the bytes that the journal counts have changed since they were committed.
    Changed,
    /// The plain form of its file would be too long.
    TooLarge,
    /// Memory was refused.
    NoMemory,
}

/// A ride that was saved: the plain form of its finished file, and the summary of that file.
#[derive(Drop)]
pub struct SavedRide {
    pub file: File,
    pub summary: Summary,
}

/// Recovers the ride of the two files of a recording in memory, and makes the plain form of its finished file. The bytes of the
/// recording are let go before that.
pub fn save_ride(
    alloc: Global,
    data_bytes: Vec<u8>,
    journal_bytes: Vec<u8>,
) -> Result<SavedRide, SaveFault>
    ensures saved { SavesRide
        (record { in_data = data_bytes.items; in_journal = journal_bytes.items }) result }
    // The body has the checksum that the journal states, if it states one.
    ensures checked { OnOk result (HasCounted journal_bytes.items data_bytes.items) }
{
    let (file, summary) = match finished_of(alloc, data_bytes, journal_bytes) {
        Ok(finished) => finished,
        Err(fault) => return Err(fault),
    };
    match plain_file(alloc, &file, &Places::new(alloc)) {
        Ok(plain) => Ok(SavedRide {
            file: plain,
            summary,
        }),
        Err(fault) => Err(fault_of_plain(fault.kind)),
    }
}

// The fault of a ride whose plain form was not made.
fn fault_of_plain(kind: PlainFaultKind) -> SaveFault
    ensures { result ≡ fault_of_plain kind }
{
    match kind {
        PlainFaultKind::TooLong => SaveFault::TooLarge,
        PlainFaultKind::Memory => SaveFault::NoMemory,
    }
}

// The finished file of the ride, and what its first session says. The bytes of both files are let go.
fn finished_of(
    alloc: Global,
    mut data_bytes: Vec<u8>,
    mut journal_bytes: Vec<u8>,
) -> Result<(File, Summary), SaveFault>
    ensures { FinishesRide
        (record { in_data = data_bytes.items; in_journal = journal_bytes.items }) result }
{
    let data_len = data_bytes.len();
    let journal_len = journal_bytes.len();
    let Ok(()) = data_bytes.extend_from_slice(&[0; CLOSING_ROOM]) else {
        return Err(SaveFault::NoMemory);
    };
    let mut disk = Buffers::new(
        data_bytes.as_mut_slice(),
        data_len,
        journal_bytes.as_mut_slice(),
        journal_len,
    );
    finished_in(alloc, &mut disk)
}

// The same over buffers with room for what closes the data file.
fn finished_in(alloc: Global, disk: &mut Buffers<'_, '_>) -> Result<(File, Summary), SaveFault>
    requires fresh { counts_in disk.old ≡ no_calls }
    requires data_room { (story_in disk.old).now.data_file.greatest
        + longest_end ≤ room_of Data disk.old }
    requires journal_room { (story_in disk.old).now.journal_file.greatest
        ≤ room_of Journal disk.old }
    ensures { FinishesRide (seen_in (story_in disk.old).now) result }
{
    let summary = match recover_in(disk) {
        Ok(summary) => summary,
        Err(fault) => return Err(fault_of(disk, fault)),
    };
    match decode_file(alloc, disk.content(Which::Data)) {
        Ok(file) => Ok((file, summary)),
        // They are a file, which is refused only for want of memory.
        Err(_) => Err(SaveFault::NoMemory),
    }
}

// Why the recording on this disk was not recovered, which stayed as it was.
fn fault_of(disk: &Buffers<'_, '_>, fault: RecFault) -> SaveFault
    requires known { fault ≡ recording.NothingRecorded
        → IsNothing (seen_in (story_in disk.now).now) }
    requires damaged { fault ≡ recording.Damaged → IsDamaged (seen_in (story_in disk.now).now) }
    requires others { (fault ≡ recording.NothingRecorded) ⊎ (fault ≡ recording.Damaged) }
    ensures { FinishesRide (seen_in (story_in disk.now).now) (Err result) }
{
    let has_changed = has_changed(disk.content(Which::Data), disk.content(Which::Journal));
    if fault == RecFault::Damaged && has_changed {
        SaveFault::Changed
    } else {
        SaveFault::Recorder(fault)
    }
}

// Recovers the recording. No call of the disk fails.
fn recover_in(disk: &mut Buffers<'_, '_>) -> Result<Summary, RecFault>
    requires fresh { counts_in disk.old ≡ no_calls }
    requires data_room { (story_in disk.old).now.data_file.greatest
        + longest_end ≤ room_of Data disk.old }
    requires journal_room { (story_in disk.old).now.journal_file.greatest
        ≤ room_of Journal disk.old }
    ensures decides { RecoveryAnswers (seen_in (story_in disk.old).now) (story_in disk.new) result }
    ensures no_device { IsErrOf result recording.Device → ⊥ }
    ensures settled { IfErr result
        (λ _. IsSettled (seen_in (story_in disk.old).now) (story_in disk.new)) }
    ensures known_fault { IfErr result IsRecoveryFault }
{
    let done = recover(disk);
    let _ = disk.content(Which::Data); // Its contract states that a call fails only if there is no room.
    done
}

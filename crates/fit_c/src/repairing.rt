// The two files of a recording, in two buffers.

ghost use Rattle.std.specs.Prelude.{◌≡◌, ◌≤◌, ◌<◌, ◌+◌, ◌⊎◌, length, take, Result, OnOk, IfErr, IsErrOf};
ghost use Rattle.fit_disk.specs.Buffers.{story_in, counts_in, room_of};
ghost use Rattle.fit_disk.specs.Counts.{no_calls};
ghost use Rattle.fit_disk.specs.State.{seen_in};
ghost use Rattle.fit_disk.specs.Story.{seen_of};
ghost use Rattle.fit_disk.specs.declared.disk.Which.TheVariants.{Data, Journal};
ghost use Rattle.fit_recorder.specs.Calls.FaultCode.{fault_code};
ghost use Rattle.fit_recorder.specs.Calls.Recovery.{RecoveryAnswers, IsRecoveryFault, KeepsJournal};
ghost use Rattle.fit_recorder.specs.Files.Changed.{HasChanged};
ghost use Rattle.fit_recorder.specs.Files.Committed.{HasCounted};
ghost use Rattle.fit_recorder.specs.Files.Limits.{longest_end};
ghost use Rattle.fit_recorder.specs.Files.Settled.{IsSettled};
ghost use Rattle.fit_recorder.specs.declared.fault.RecFault.TheVariants as faults;
ghost use Rattle.fit_c.specs.Repaired.{AreWithin, IsRefused, IsRepaired, IsRepairCode, contents_in, number_or, ride_summary_of};

use fit_activity::Summary;
use fit_disk::{Buffers, Which};
use fit_recorder::{CLOSING_ROOM, RecFault, has_changed, recover};

// A length is greater than its buffer.
const BAD_LENGTH: u8 = 9;

// The bytes that the journal counts have changed since they were committed.
const CHANGED: u8 = 16;

// The data buffer has less free room than the end of a ride needs.
const NO_ROOM: u8 = 10;

/// The totals of a finished ride. `start` is in seconds since 1989-12-31 00:00 UTC; times are in milliseconds, and the distance
/// is in centimetres. A missing number is 4294967295.
#[repr(C)]
#[derive(Clone, Copy)]
pub struct RideSummary {
    pub records: u32,
    pub laps: u32,
    pub sessions: u32,
    pub start: u32,
    pub elapsed_ms: u32,
    pub timer_ms: u32,
    pub distance_cm: u32,
}

/// Turns the data file into the finished file with everything that was committed, as `recover` of `fit_recorder` does. The
/// first `data_len` and `journal_len` bytes of the buffers are the files; both lengths are updated. Returns 0; 7 if nothing is
/// recorded; 8 if the two files are not those of one recording; 16 if the bytes that the journal counts
/// have changed since they were committed; 9 if a length is greater than its buffer; 10 if the data buffer
/// has fewer than 254 bytes after the data file. After another answer than 0 neither file has
/// changed.
#[unsafe(no_mangle)]
pub extern "C" fn fitrec_repair(
    data_bytes: &mut [u8],
    data_len: &mut u64,
    journal_bytes: &mut [u8],
    journal_len: &mut u64,
    summary: &mut RideSummary,
) -> u8
    ensures code { IsRepairCode result }
    ensures ok { result ≡ 0
        → IsRepaired (contents_in data_bytes.old data_len.old journal_bytes.old journal_len.old)
        (contents_in data_bytes.new data_len.new journal_bytes.new journal_len.new) summary.new }
    ensures checked { result ≡ 0
        → HasCounted (take journal_len.old journal_bytes.old) (take data_len.new data_bytes.new) }
    ensures within { result ≡ 0
        → AreWithin data_bytes.new data_len.new journal_bytes.new journal_len.new }
    ensures why { IsRefused result data_bytes.old data_len.old journal_bytes.old journal_len.old }
    ensures same { 7 ≤ result
        → contents_in data_bytes.new data_len.new journal_bytes.new journal_len.new
        ≡ contents_in data_bytes.old data_len.old journal_bytes.old journal_len.old }
    ensures unchanged { 7 ≤ result
        → (data_len.new ≡ data_len.old) × (journal_len.new ≡ journal_len.old)
        × (summary.new ≡ summary.old) }
{
    if *data_len > data_bytes.len() as u64 || *journal_len > journal_bytes.len() as u64 {
        return BAD_LENGTH;
    }
    if data_bytes.len() as u64 - *data_len < CLOSING_ROOM as u64 {
        return NO_ROOM;
    }
    let mut buffers = Buffers::new(
        data_bytes,
        *data_len as usize,
        journal_bytes,
        *journal_len as usize,
    );
    let answer = recovered(&mut buffers);
    *data_len = buffers.data_len as u64;
    *journal_len = buffers.journal_len as u64;
    match answer {
        Ok(found) => {
            *summary = numbers(&found);
            0
        }
        Err(fault) => code_of(&buffers, fault),
    }
}

// The code of why the recording in these two buffers was not recovered.
fn code_of(buffers: &Buffers<'_, '_>, fault: RecFault) -> u8
    ensures changed { result ≡ 16
        → (fault ≡ faults.Damaged) × HasChanged (seen_in (story_in buffers.now).now) }
    ensures others { (result ≡ 16 → ⊥) → (result ≡ fault_code fault)
        × (fault ≡ faults.Damaged → HasChanged (seen_in (story_in buffers.now).now) → ⊥) }
{
    let has_changed = has_changed(
        buffers.content(Which::Data),
        buffers.content(Which::Journal),
    );
    if fault == RecFault::Damaged && has_changed {
        CHANGED
    } else {
        fault.code()
    }
}

// Recovers over these two buffers, and leaves them the same two. No call of the disk fails.
fn recovered(buffers: &mut Buffers<'_, '_>) -> Result<Summary, RecFault>
    requires fresh { counts_in buffers.old ≡ no_calls }
    requires data_room { (story_in buffers.old).now.data_file.greatest + longest_end
        ≤ room_of Data buffers.old }
    requires journal_room { (story_in buffers.old).now.journal_file.greatest
        ≤ room_of Journal buffers.old }
    ensures decides { RecoveryAnswers (seen_in (story_in buffers.old).now)
        (story_in buffers.new) result }
    ensures checked { OnOk result
        (HasCounted (seen_of Journal (story_in buffers.old))
        (seen_of Data (story_in buffers.new))) }
    ensures no_device { IsErrOf result faults.Device → ⊥ }
    ensures settled { IfErr result
        (λ _. IsSettled (seen_in (story_in buffers.old).now) (story_in buffers.new)) }
    ensures journal { KeepsJournal (story_in buffers.old) (story_in buffers.new) }
    ensures known_fault { IfErr result IsRecoveryFault }
    ensures same_data { buffers.new.data_bytes.ghost_name ≡ buffers.old.data_bytes.ghost_name }
    ensures same_journal { buffers.new.journal_bytes.ghost_name
        ≡ buffers.old.journal_bytes.ghost_name }
{
    let done = recover(buffers);
    let _ = buffers.content(Which::Data); // Its contract: a call fails only for want of room.
    done
}

pub fn numbers(summary: &Summary) -> RideSummary
    ensures { result ≡ ride_summary_of summary.now }
{
    RideSummary {
        records: summary.records,
        laps: summary.laps,
        sessions: summary.sessions,
        start: or_absent(summary.start),
        elapsed_ms: or_absent(summary.elapsed_ms),
        timer_ms: or_absent(summary.timer_ms),
        distance_cm: or_absent(summary.distance_cm),
    }
}

fn or_absent(number: Option<u32>) -> u32
    ensures { result ≡ number_or 4294967295 number }
{
    match number {
        Some(number) => number,
        None => u32::MAX,
    }
}

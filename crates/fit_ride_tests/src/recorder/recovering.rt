// Recoveries on the memory disk. The bytes and the values are those of the description of what a recorder writes.

ghost use Rattle.std.specs.Prelude.{◌≡◌, ◌<◌, ◌≤◌, ◌^◌};

use super::bodies::{body_of, definition_of};
use super::stopping::FULL;
use super::{
    ALONE, EMPTY, SHORT, SHORT_RIDE, START_RECORDS, STOPPED, Step, TIME, after_a_cut, begun,
    begun_on, committed, copy_of, encodes, has, has_at, heart_rate, holding, is_found_damaged,
    recorded, recovers, ride, start_cut_at, sums_up, value_in,
};
use crate::equality::equal;
use fit_activity::{Entry, Sample, Summary};
use fit_disk::{Disk, Memory, Which};
use fit_grammar::{File, decode_file};
use fit_recorder::{RecFault, recover};
use std::alloc::Global;
use std::process::Abort;
use std::test::Fail;

// A field's number, and its value if it has exactly one and that is valid.
pub(super) type Reported = (u8, Option<u64>);

// The global number and the fields of the message at a place of a file.
pub(super) fn reported_at(
    alloc: Global,
    file: &File,
    place: usize,
) -> Result<(Option<u16>, Vec<Reported>), Fail> {
    let mut reported = Vec::new(alloc);
    let mut left = place;
    for message in file.messages() {
        if left == 0 {
            for field in message.fields() {
                reported.push((field.number, value_in(&field)))?;
            }
            return Ok((Some(message.global()), reported));
        }
        left -= 1;
    }
    Ok((None, reported))
}

#[test]
fn what_is_committed_is_recovered(rt: HostRuntime) -> Result<(), Fail> {
    let mut disk = committed(&rt)?;
    recovers(&rt, &mut disk, Ok(SHORT_RIDE));
    sums_up(&rt, rt.alloc(), &disk, SHORT_RIDE)?;
    encodes(&rt, rt.alloc(), &disk, &SHORT)
}

const BEGINNING: Option<u64> = Some(1_000_000_000);

const END: Option<u64> = Some(1_000_000_002);

static FIRST_LAP: [Reported; 15] = [
    (254, Some(0)),
    (253, END),
    (0, Some(9)),
    (1, Some(1)),
    (2, BEGINNING),
    (7, Some(2000)),
    (8, Some(2000)),
    (9, None),
    (13, None),
    (14, None),
    (15, Some(100)),
    (16, Some(101)),
    (19, None),
    (20, None),
    (24, Some(0)),
];

static LAST_RECORD: [Reported; 2] = [(253, END), (3, Some(110))];

static STOP: [Reported; 3] = [(253, END), (0, Some(0)), (1, Some(4))];

static LAST_LAP: [Reported; 15] = [
    (254, Some(1)),
    (253, END),
    (0, Some(9)),
    (1, Some(1)),
    (2, END),
    (7, Some(0)),
    (8, Some(0)),
    (9, None),
    (13, None),
    (14, None),
    (15, Some(110)),
    (16, Some(110)),
    (19, None),
    (20, None),
    (24, Some(7)),
];

static SESSION: [Reported; 19] = [
    (254, Some(0)),
    (253, END),
    (0, Some(8)),
    (1, Some(1)),
    (2, BEGINNING),
    (5, Some(1)),
    (6, Some(0)),
    (7, Some(2000)),
    (8, Some(2000)),
    (9, None),
    (14, None),
    (15, None),
    (16, Some(103)),
    (17, Some(110)),
    (20, None),
    (21, None),
    (25, Some(0)),
    (26, Some(2)),
    (28, Some(0)),
];

static ACTIVITY: [Reported; 6] = [
    (253, END),
    (0, Some(2000)),
    (1, Some(1)),
    (2, Some(0)),
    (3, Some(26)),
    (4, Some(1)),
];

// Asserts that the message at a place of a file has this global number and these fields.
fn reports(
    rt: &impl Abort,
    alloc: Global,
    file: &File,
    place: usize,
    global: u16,
    fields: &[Reported],
) -> Result<(), Fail> {
    let (answer, reported) = reported_at(alloc, file, place)?;
    assert_eq!(rt;
        (answer, reported.as_slice()),
        (Some(global), fields),
        "message {place}"
    );
    Ok(())
}

#[test]
fn a_recovered_file_reports_what_it_adds_up_to(rt: HostRuntime) -> Result<(), Fail> {
    let mut disk = committed(&rt)?;
    recovers(&rt, &mut disk, Ok(SHORT_RIDE));
    let file = decode_file(rt.alloc(), disk.content(Which::Data))?;
    let messages: [(u16, &[Reported]); 6] = [
        (19, &FIRST_LAP),
        (20, &LAST_RECORD),
        (21, &STOP),
        (19, &LAST_LAP),
        (18, &SESSION),
        (34, &ACTIVITY),
    ];
    for (i, (global, fields)) in messages.iter().enumerate() {
        reports(&rt, rt.alloc(), &file, 5 + i, *global, fields)?;
    }
    Ok(())
}

// The header of the finished file of a start alone.
static ALONE_HEADER: [u8; 14] = [
    0x0E, 0x10, 0x64, 0x00, 0x44, 0x01, 0x00, 0x00, 0x2E, 0x46, 0x49, 0x54, 0x34, 0xED,
];

// Asserts that a disk on which a start alone is committed is recovered.
pub(super) fn recovers_the_start(
    rt: &impl Abort,
    alloc: Global,
    mut disk: Memory,
) -> Result<(), Fail> {
    recovers(rt, &mut disk, Ok(ALONE));
    equal(rt, disk.content(Which::Data).len(), 340);
    has_at(rt, &disk, Which::Data, 0, &ALONE_HEADER);
    has_at(rt, &disk, Which::Data, 14, &START_RECORDS);
    sums_up(rt, alloc, &disk, ALONE)?;
    encodes(rt, alloc, &disk, &[])
}

#[test]
fn samples_without_a_commit_are_gone(rt: HostRuntime) -> Result<(), Fail> {
    let mut disk = ride(&rt, &[heart_rate(TIME, 100); 10])?;
    disk.cycle(&[]);
    recovers_the_start(&rt, rt.alloc(), disk)
}

#[test]
fn a_start_counts_from_its_open_gate_on(rt: HostRuntime) -> Result<(), Fail> {
    // The tenth call writes the gate.
    for k in [5, 10] {
        let (mut disk, fault) = start_cut_at(&rt, k);
        assert_eq!(rt; fault, Some(RecFault::Device), "call {k}");
        disk.cycle(&[]);
        assert_eq!(rt;
            recover(&mut disk),
            Err(RecFault::NothingRecorded),
            "call {k}"
        );
    }
    let (mut disk, _) = start_cut_at(&rt, 10);
    equal(&rt, disk.cycle(&[0, 0, 0, 0, 0, 0, 0, 0, 0xA5]), 9);
    recovers_the_start(&rt, rt.alloc(), disk)
}

// Asserts that a commit whose k-th call fails leaves the start alone.
fn keeps_the_start(rt: &impl Abort, alloc: Global, k: u32) -> Result<(), Fail>
    requires { 1 ≤ k }
{
    let mut recorder = begun_on(Memory::new(alloc))?;
    recorder.hand(&heart_rate(TIME, 100))?;
    recorder.fail_at(k);
    assert_eq!(rt; recorder.commit(), Err(RecFault::Device), "call {k}");
    let after = recorder.hand(&heart_rate(TIME, 100));
    assert_eq!(rt; after, Err(RecFault::Failed), "call {k}");
    recovers_the_start(rt, alloc, recorder.into_disk())
}

// The first call writes the page, and the second is the sync after it.
#[test]
fn a_failed_commit_leaves_what_was_committed(rt: HostRuntime) -> Result<(), Fail> {
    keeps_the_start(&rt, rt.alloc(), 1)?;
    keeps_the_start(&rt, rt.alloc(), 2)
}

#[test]
fn nothing_is_recorded_before_a_start_is_committed(rt: HostRuntime) -> Result<(), RecFault> {
    let mut empty = Memory::new(rt.alloc());
    equal(&rt, recover(&mut empty), Err(RecFault::NothingRecorded));
    let disk = begun(&rt)?.into_disk();
    let data = disk.content(Which::Data);
    let journal = disk.content(Which::Journal);
    let mut whole = copy_of(rt.alloc(), data, journal)?;
    equal(&rt, recover(&mut whole), Ok(ALONE));
    let mut short = copy_of(rt.alloc(), data, journal.get(..16).unwrap_or(&[]))?;
    equal(&rt, recover(&mut short), Err(RecFault::NothingRecorded));
    equal(&rt, short.content(Which::Data), data);
    let mut other = copy_of(rt.alloc(), &[], journal)?;
    equal(&rt, recover(&mut other), Err(RecFault::NothingRecorded));
    Ok(())
}

// The disk after a recovery, and an earlier recovery whose k-th call failed with the power gone.
fn recovered_again(mut disk: Memory, k: u32) -> Result<Memory, RecFault>
    requires { 1 ≤ k }
{
    disk.cut_at(k);
    let _ = recover(&mut disk);
    let mut disk = after_a_cut(disk);
    recover(&mut disk)?;
    Ok(disk)
}

#[test]
fn a_recovery_may_be_cut_off(rt: HostRuntime) -> Result<(), Fail> {
    let mut disk = committed(&rt)?;
    recover(&mut disk)?;
    let whole = disk.content(Which::Data);
    for k in 1..=40 {
        let again = recovered_again(committed(&rt)?, k)?;
        assert_eq!(rt; again.content(Which::Data), whole, "call {k}");
    }
    Ok(())
}

#[test]
fn a_stopped_recording_is_finished(rt: HostRuntime) -> Result<(), Fail> {
    let mut disk = ride(&rt, &STOPPED)?;
    let stopped = disk.content(Which::Data).to_vec(rt.alloc())?;
    recovers(&rt, &mut disk, Ok(SHORT_RIDE));
    equal(&rt, disk.content(Which::Data), stopped.as_slice());
    encodes(&rt, rt.alloc(), &disk, &STOPPED)
}

// A recording spelled in another way: other local numbers, high byte first, reserved bits and bytes that are set, a
// definition that is never used, and compressed timestamps.
pub(super) static OTHER_SPELLING: [u8; 216] = [
    // A definition that no message uses.
    0x53, 0xA7, 0x01, 0x00, 0x14, 0x01, 0xFD, 0x04, 0x86, // The start: its file_id,
    0x5C, 0x00, 0x01, 0x00, 0x00, 0x05, 0x00, 0x01, 0x00, 0x01, 0x02, 0x84, 0x02, 0x02, 0x84, 0x03,
    0x04, 0x8C, 0x04, 0x04, 0x86, 0x3C, 0x04, 0x00, 0xFF, 0x00, 0x01, 0x00, 0x00, 0x00, 0x07, 0x3B,
    0x9A, 0xCA, 0x00, // its sport,
    0x4B, 0x5A, 0x00, 0x0C, 0x00, 0x02, 0x00, 0x01, 0x00, 0x01, 0x01, 0x00, 0x0B, 0x01, 0x00, // and its event.
    0x42, 0x00, 0x01, 0x00, 0x15, 0x03, 0xFD, 0x04, 0x86, 0x00, 0x01, 0x00, 0x01, 0x01, 0x00, 0x02,
    0x3B, 0x9A, 0xCA, 0x00, 0x00, 0x00, // A sample a second later.
    0x40, 0xFF, 0x01, 0x00, 0x14, 0x03, 0xFD, 0x04, 0x86, 0x03, 0x01, 0x02, 0x07, 0x02, 0x84, 0x10,
    0x3B, 0x9A, 0xCA, 0x01, 0x64, 0x00, 0xC8, // A pause at five seconds, and its end at seven.
    0x41, 0x00, 0x00, 0x15, 0x00, 0x02, 0x00, 0x01, 0x00, 0x01, 0x01, 0x00, 0xA5, 0x00, 0x01, 0xA7,
    0x00, 0x00, // A sample without fields at nine.
    0x43, 0x00, 0x00, 0x14, 0x00, 0x00, 0xE9, // A lap at ten.
    0x4F, 0x00, 0x01, 0x00, 0x13, 0x0F, 0xFE, 0x02, 0x84, 0xFD, 0x04, 0x86, 0x00, 0x01, 0x00, 0x01,
    0x01, 0x00, 0x02, 0x04, 0x86, 0x07, 0x04, 0x86, 0x08, 0x04, 0x86, 0x09, 0x04, 0x86, 0x0D, 0x02,
    0x84, 0x0E, 0x02, 0x84, 0x0F, 0x01, 0x02, 0x10, 0x01, 0x02, 0x13, 0x02, 0x84, 0x14, 0x02, 0x84,
    0x18, 0x01, 0x00, 0x0F, 0x00, 0x00, 0x3B, 0x9A, 0xCA, 0x0A, 0x09, 0x01, 0x3B, 0x9A, 0xCA, 0x00,
    0x00, 0x00, 0x27, 0x10, 0x00, 0x00, 0x1F, 0x40, 0xFF, 0xFF, 0xFF, 0xFF, 0xFF, 0xFF, 0xFF, 0xFF,
    0x64, 0x64, 0x00, 0xC8, 0x00, 0xC8, 0x00,
];

static OTHER_ENTRIES: [Entry; 5] = [
    Entry::Sample(Sample {
        time: TIME + 1,
        heart_rate: Some(100),
        power: Some(200),
        ..EMPTY
    }),
    Entry::Pause(TIME + 5),
    Entry::Resume(TIME + 7),
    Entry::Sample(Sample {
        time: TIME + 9,
        ..EMPTY
    }),
    Entry::Lap(TIME + 10),
];

static OTHER_SUMMARY: Summary = Summary {
    records: 2,
    laps: 2,
    elapsed_ms: Some(10_000),
    timer_ms: Some(8000),
    ..ALONE
};

#[test]
fn another_spelling_is_recovered_as_it_stands(rt: HostRuntime) -> Result<(), Fail> {
    let mut disk = holding(rt.alloc(), &OTHER_SPELLING, 216)?;
    recovers(&rt, &mut disk, Ok(OTHER_SUMMARY));
    has_at(&rt, &disk, Which::Data, 14, &OTHER_SPELLING);
    sums_up(&rt, rt.alloc(), &disk, OTHER_SUMMARY)?;
    encodes(&rt, rt.alloc(), &disk, &OTHER_ENTRIES)
}

// The longest entry is a sample with each field: its definition, and its record 40 seconds after the start.
static LONGEST: [u8; 76] = [
    0x40, 0x00, 0x00, 0x14, 0x00, 0x0C, 0xFD, 0x04, 0x86, 0x00, 0x04, 0x85, 0x01, 0x04, 0x85, 0x02,
    0x02, 0x84, 0x03, 0x01, 0x02, 0x04, 0x01, 0x02, 0x05, 0x04, 0x86, 0x06, 0x02, 0x84, 0x07, 0x02,
    0x84, 0x0D, 0x01, 0x01, 0x49, 0x04, 0x86, 0x4E, 0x04, 0x86, 0x00, 0x28, 0xCA, 0x9A, 0x3B, 0xFF,
    0xFF, 0xFF, 0xFF, 0x02, 0x00, 0x00, 0x00, 0x28, 0x0A, 0x78, 0x5A, 0x05, 0x00, 0x00, 0x00, 0x40,
    0x1F, 0xFA, 0x00, 0xFD, 0x70, 0x11, 0x01, 0x00, 0xFE, 0xFF, 0xFF, 0xFF,
];

fn longest_sample(time: u32) -> Sample {
    Sample { time, ..FULLEST }
}

// A sample with each field.
const FULLEST: Sample = Sample {
    enhanced_speed: Some(70_000),
    enhanced_altitude: Some(0xFFFF_FFFE),
    ..FULL
};

static LONGEST_STEPS: [Step; 3] = [
    Step::Hand(
        Entry::Sample(Sample {
            time: TIME + 40,
            ..FULLEST
        }),
        Ok(()),
    ),
    Step::Size(72 + 76),
    Step::Commit(Ok(())),
];

// Recovers a disk on which only that sample is committed, so many seconds after the start.
fn recovers_the_longest(
    rt: &impl Abort,
    alloc: Global,
    mut disk: Memory,
    seconds: u32,
) -> Result<(), Fail>
    requires { seconds ≤ 1000 }
{
    let summary = Summary {
        records: 1,
        elapsed_ms: Some(1000 * seconds),
        timer_ms: Some(1000 * seconds),
        distance_cm: Some(5),
        ..ALONE
    };
    recovers(rt, &mut disk, Ok(summary));
    let sample = Entry::Sample(longest_sample(TIME + seconds));
    encodes(rt, alloc, &disk, &[sample])
}

#[test]
fn the_longest_entry_is_recovered(rt: HostRuntime) -> Result<(), Fail> {
    let disk = after_a_cut(recorded(&rt, rt.alloc(), &LONGEST_STEPS)?);
    has_at(&rt, &disk, Which::Data, 86, &LONGEST);
    recovers_the_longest(&rt, rt.alloc(), disk, 40)
}

// The same with a compressed timestamp five seconds after the start, and without a time field.
#[test]
fn the_longest_entry_with_a_compressed_timestamp_is_recovered(rt: HostRuntime) -> Result<(), Fail> {
    let mut records = START_RECORDS.to_vec(rt.alloc())?;
    records.extend_from_slice(&[0x40, 0x00, 0x00, 0x14, 0x00, 0x0B])?;
    records.extend_from_slice(&LONGEST[9..42])?;
    records.push(0x85)?;
    records.extend_from_slice(&LONGEST[47..])?;
    let disk = holding(rt.alloc(), &records, 72 + 69)?;
    recovers_the_longest(&rt, rt.alloc(), disk, 5)
}

// Whether a recovery of these records, so many bytes of which are committed, answers Damaged and changes nothing.
pub(super) fn is_damaged(alloc: Global, records: &[u8], len: u32) -> Result<bool, Fail> {
    let mut disk = holding(alloc, records, len)?;
    let data = disk.content(Which::Data).to_vec(alloc)?;
    let journal = disk.content(Which::Journal).to_vec(alloc)?;
    Ok(is_found_damaged(&mut disk) && has(&disk, &data, &journal))
}

// The records of the short ride, and more after them.
fn with_more(rt: &HostRuntime, more: &[u8]) -> Result<Vec<u8>, Fail> {
    let disk = committed(rt)?;
    let records = disk.content(Which::Data).get(14..).unwrap_or(&[]);
    body_of(rt.alloc(), records, more)
}

// Whether a recovery of the records of the short ride and more after them answers Damaged and changes nothing.
fn is_damaged_by(rt: &HostRuntime, more: &[u8]) -> Result<bool, Fail> {
    let records = with_more(rt, more)?;
    let len = u32::try_from(records.len()).unwrap_or(0);
    is_damaged(rt.alloc(), &records, len)
}

// What may come after the records of the short ride, and whether that is damaged.
static MORE: [(&[u8], bool); 5] = [
    (&[], false),
    // A record at the last time, after its definition.
    (
        &[
            0x41, 0x00, 0x00, 0x14, 0x00, 0x02, 0xFD, 0x04, 0x86, 0x03, 0x01, 0x02, 0x01, 0x02,
            0xCA, 0x9A, 0x3B, 0x65,
        ],
        false,
    ),
    // One that is earlier.
    (
        &[
            0x41, 0x00, 0x00, 0x14, 0x00, 0x02, 0xFD, 0x04, 0x86, 0x03, 0x01, 0x02, 0x01, 0x01,
            0xCA, 0x9A, 0x3B, 0x65,
        ],
        true,
    ),
    // A second start.
    (&START_RECORDS, true),
    // A record under a local number without a definition.
    (&[0x03, 0x02, 0xCA, 0x9A, 0x3B, 0x65], true),
];

#[test]
fn what_is_no_recording_is_damaged(rt: HostRuntime) -> Result<(), Fail> {
    for (more, is_wrong) in MORE {
        assert_eq!(rt; is_damaged_by(&rt, more)?, is_wrong, "{more:?}");
    }
    // No records at all.
    assert!(rt; is_damaged(rt.alloc(), &START_RECORDS, 0)?);
    Ok(())
}

#[test]
fn a_lap_with_another_value_is_damaged(rt: HostRuntime) -> Result<(), Fail> {
    let mut records = with_more(&rt, &[])?;
    // The elapsed time of its lap.
    equal(
        &rt,
        records.get(149..153),
        Some([0xD0, 0x07, 0x00, 0x00].as_slice()),
    );
    if let Some(byte) = records.get_mut(149) {
        *byte = 0xD1;
    }
    assert!(rt; is_damaged(rt.alloc(), &records, 174)?);
    Ok(())
}

#[test]
fn a_body_shorter_than_committed_is_damaged(rt: HostRuntime) -> Result<(), Fail> {
    let records = with_more(&rt, &[])?;
    equal(&rt, records.len(), 174);
    assert!(rt; is_damaged(rt.alloc(), records.get(..173).unwrap_or(&[]), 174)?);
    // The last item is cut in two.
    assert!(rt; is_damaged(rt.alloc(), &records, 173)?);
    assert!(rt; !is_damaged(rt.alloc(), &records, 172)?);
    Ok(())
}

#[test]
fn an_item_above_96_bytes_is_damaged(rt: HostRuntime) -> Result<(), Fail> {
    for (fields, is_wrong) in [(30, false), (31, true)] {
        let definition = definition_of(rt.alloc(), 0x43, fields, &[])?;
        assert_eq!(rt;
            is_damaged_by(&rt, &definition)?,
            is_wrong,
            "{fields} fields"
        );
    }
    Ok(())
}

// Records of so many bytes: the start, samples with a power of 300, of 7 bytes each, and definitions of 96 bytes that
// nothing uses.
fn filled(alloc: Global, len: usize) -> Result<Vec<u8>, Fail> {
    let sample = [0x00, 0x00, 0xCA, 0x9A, 0x3B, 0x2C, 0x01];
    let unused = definition_of(alloc, 0x43, 30, &[])?;
    let power = [0x40, 0, 0, 0x14, 0, 2, 0xFD, 4, 0x86, 7, 2, 0x84];
    let mut records = body_of(alloc, &START_RECORDS, &power)?;
    for _ in 0..96 {
        if len.saturating_sub(records.len()) % 96 != 0 {
            records.extend_from_slice(&sample)?;
        }
    }
    for _ in 0..len.saturating_sub(records.len()) / 96 {
        records.extend_from_slice(&unused)?;
    }
    Ok(records)
}

// Whether a body of so many bytes, of records and what ends it, is damaged.
fn is_too_long(rt: &impl Abort, alloc: Global, len: usize, end: &[u8]) -> Result<bool, Fail> {
    let mut records = filled(alloc, len.saturating_sub(end.len()))?;
    records.extend_from_slice(end)?;
    equal(rt, records.len(), len);
    is_damaged(alloc, &records, u32::try_from(len)?)
}

#[test]
fn a_body_has_room_for_its_end(rt: HostRuntime) -> Result<(), Fail> {
    equal(&rt, is_too_long(&rt, rt.alloc(), 16_776_704, &[])?, false);
    equal(&rt, is_too_long(&rt, rt.alloc(), 16_776_705, &[])?, true);
    Ok(())
}

#[test]
fn a_stopped_body_has_a_most(rt: HostRuntime) -> Result<(), Fail> {
    let stop = [0x06, 0x00, 0xCA, 0x9A, 0x3B, 0x00, 0x04];
    equal(&rt, is_too_long(&rt, rt.alloc(), 16_777_216, &stop)?, false);
    equal(&rt, is_too_long(&rt, rt.alloc(), 16_777_217, &stop)?, true);
    Ok(())
}

// The journal of a ride from an older program: a row of slots, with the lengths of its start and of its commit.
static ROW: [u8; 32] = [
    0x46, 0x52, 0x4A, 0x31, 0, 0, 0, 0, 0xA5, 0x48, 0, 0, 0, 0, 0, 0, 0xA5, 0xAE, 0, 0, 0, 0, 0, 0,
    0, 0, 0, 0, 0, 0, 0, 0,
];

#[test]
fn a_row_of_slots_is_recovered(rt: HostRuntime) -> Result<(), RecFault> {
    let disk = committed(&rt)?;
    let mut older = copy_of(rt.alloc(), disk.content(Which::Data), &ROW)?;
    equal(&rt, recover(&mut older), Ok(SHORT_RIDE));
    equal(&rt, older.content(Which::Journal), ROW.as_slice());
    // In its first sixteen bytes no slot is open: a slot is open only if the slot after it is whole.
    let mut short = copy_of(rt.alloc(), disk.content(Which::Data), &ROW[..16])?;
    equal(&rt, recover(&mut short), Err(RecFault::NothingRecorded));
    Ok(())
}

#[test]
fn a_journal_of_a_later_form_is_damaged(rt: HostRuntime) -> Result<(), RecFault> {
    let later = [0x46, 0x52, 0x4A, 0x33, 0, 0, 0, 0];
    let mut disk = copy_of(rt.alloc(), &[0x0E], &later)?;
    equal(&rt, recover(&mut disk), Err(RecFault::Damaged));
    Ok(())
}

#[test]
fn a_journal_of_no_form_is_damaged(rt: HostRuntime) -> Result<(), Fail> {
    let disk = begun(&rt)?.into_disk();
    let data = disk.content(Which::Data);
    let mut journal = disk.content(Which::Journal).to_vec(rt.alloc())?;
    if let Some(byte) = journal.get_mut(3) {
        *byte = 0x33;
    }
    let mut other = copy_of(rt.alloc(), data, &journal)?;
    equal(&rt, recover(&mut other), Err(RecFault::Damaged));
    equal(&rt, other.content(Which::Data), data);
    equal(&rt, other.content(Which::Journal), journal.as_slice());
    Ok(())
}

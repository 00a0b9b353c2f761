// Rides that are resumed on the memory disk. The bytes are those of the description of what a recorder writes.

ghost use Rattle.std.specs.Prelude.{◌≡◌, ◌≤◌, ◌<◌, true, false, IfOk};
ghost use Rattle.fit_activity.specs.Rides.Recording.{Added, is_stop};
ghost use Rattle.fit_disk.specs.Memory.{memory_story};
ghost use Rattle.fit_recorder.specs.Calls.Recorder.{GoesOn};

use super::recovering::{OTHER_SPELLING, Reported, reported_at};
use super::{
    ALONE, EMPTY, SHORT_RIDE, START_RECORDS, Step, TIME, after, after_a_cut, begun, committed,
    copy_of, encodes, has, has_at, heart_rate, holding, recorded, recovers, ride, sums_up,
};
use crate::equality::equal;
use fit_activity::{Entry, Refusal, Sample, Summary};
use fit_disk::{Memory, Which};
use fit_grammar::decode_file;
use fit_recorder::{RecFault, Recorder, recover, resume};
use std::alloc::Global;
use std::process::Abort;
use std::test::Fail;

// The resumed ride of this disk.
pub(super) fn resumed(disk: Memory) -> Result<Recorder<Memory>, RecFault>
    ensures { IfOk result (λ recorder. GoesOn true memory_story recorder) }
{
    match resume(disk) {
        Ok(recorder) => Ok(recorder),
        Err((_, fault)) => Err(fault),
    }
}

// The disk after a resume that is refused, and the reason.
fn refused(disk: Memory) -> Option<(Memory, RecFault)> {
    match resume(disk) {
        Ok(_) => None,
        Err(refused) => Some(refused),
    }
}

// Why a resume of this disk is refused. None if it is not refused, or if it changes anything.
pub(super) fn refusal_of(alloc: Global, disk: Memory) -> Result<Option<RecFault>, Fail> {
    let before = copy_of(
        alloc,
        disk.content(Which::Data),
        disk.content(Which::Journal),
    )?;
    let Some((disk, fault)) = refused(disk) else {
        return Ok(None);
    };
    let is_same = has(
        &disk,
        before.content(Which::Data),
        before.content(Which::Journal),
    );
    Ok(if is_same { Some(fault) } else { None })
}

// Asserts that a resume of this disk is refused for this reason and changes nothing.
fn is_refused(rt: &impl Abort, alloc: Global, disk: Memory, fault: RecFault) -> Result<(), Fail> {
    equal(rt, refusal_of(alloc, disk)?, Some(fault));
    Ok(())
}

// The disk after a resume and these steps.
pub(super) fn gone_on(rt: &impl Abort, disk: Memory, steps: &[Step]) -> Result<Memory, RecFault> {
    Ok(after(rt, resumed(disk)?, steps))
}

// A sample with its definition, since the earlier one is no longer in force, and a stop.
static GONE_ON: [u8; 33] = [
    0x40, 0x00, 0x00, 0x14, 0x00, 0x01, 0x03, 0x01, 0x02, 0x82, 0x6E, 0x46, 0x00, 0x00, 0x15, 0x00,
    0x03, 0xFD, 0x04, 0x86, 0x00, 0x01, 0x00, 0x01, 0x01, 0x00, 0x06, 0x02, 0xCA, 0x9A, 0x3B, 0x00,
    0x04,
];

static CUT_OFF_STEPS: [Step; 3] = [
    Step::Hand(rate!(0, 100), Ok(())),
    Step::Commit(Ok(())),
    Step::Hand(rate!(1, 101), Ok(())),
];

static GONE_ON_STEPS: [Step; 3] = [
    Step::Size(83),
    Step::Hand(rate!(2, 110), Ok(())),
    Step::Hand(Entry::Stop(TIME + 2), Ok(())),
];

static GONE_ON_SUMMARY: Summary = Summary {
    records: 2,
    elapsed_ms: Some(2000),
    timer_ms: Some(2000),
    ..ALONE
};

// Asserts the average and the greatest heart rate of the session, which is the message at place 7.
fn has_heart_rates(
    rt: &impl Abort,
    alloc: Global,
    disk: &Memory,
    rates: [Reported; 2],
) -> Result<(), Fail> {
    let file = decode_file(alloc, disk.content(Which::Data))?;
    let (global, reported) = reported_at(alloc, &file, 7)?;
    equal(rt, global, Some(18));
    equal(rt, reported.get(12..14), Some(rates.as_slice()));
    Ok(())
}

#[test]
fn a_ride_goes_on_after_what_was_committed(rt: HostRuntime) -> Result<(), Fail> {
    let disk = after_a_cut(recorded(&rt, rt.alloc(), &CUT_OFF_STEPS)?);
    let disk = gone_on(&rt, disk, &GONE_ON_STEPS)?;
    has_at(&rt, &disk, Which::Data, 14, &START_RECORDS);
    has_at(&rt, &disk, Which::Data, 97, &GONE_ON);
    sums_up(&rt, rt.alloc(), &disk, GONE_ON_SUMMARY)?;
    has_heart_rates(&rt, rt.alloc(), &disk, [(16, Some(105)), (17, Some(110))])?;
    is_refused(&rt, rt.alloc(), disk, STOPPED)
}

// The files of disks without a ride that can go on, and why it cannot.
static NO_RIDES: [(&[u8], &[u8], RecFault); 3] = [
    (&[], &[], RecFault::NothingRecorded),
    (&[0x0E], &[], RecFault::NothingRecorded),
    (
        &[0x0E],
        &[0x46, 0x52, 0x4A, 0x33, 0, 0, 0, 0],
        RecFault::Damaged,
    ),
];

#[test]
fn what_is_no_ride_does_not_go_on(rt: HostRuntime) -> Result<(), Fail> {
    is_refused(
        &rt,
        rt.alloc(),
        Memory::new(rt.alloc()),
        RecFault::NothingRecorded,
    )?;
    for (data, journal, fault) in NO_RIDES {
        is_refused(&rt, rt.alloc(), copy_of(rt.alloc(), data, journal)?, fault)?;
    }
    let cut = holding(rt.alloc(), &START_RECORDS, 71)?;
    is_refused(&rt, rt.alloc(), cut, RecFault::Damaged)
}

static ONE_MORE_STEPS: [Step; 3] = [
    Step::Size(174),
    Step::Hand(rate!(3, 120), Ok(())),
    Step::Hand(Entry::Stop(TIME + 3), Ok(())),
];

// The short ride, one more sample and a stop.
static ONE_MORE: [Entry; 6] = [
    rate!(0, 100),
    rate!(1, 101),
    Entry::Lap(TIME + 2),
    rate!(2, 110),
    rate!(3, 120),
    Entry::Stop(TIME + 3),
];

#[test]
fn a_recovered_ride_goes_on(rt: HostRuntime) -> Result<(), Fail> {
    let mut disk = committed(&rt)?;
    recovers(&rt, &mut disk, Ok(SHORT_RIDE));
    let disk = gone_on(&rt, disk, &ONE_MORE_STEPS)?;
    encodes(&rt, rt.alloc(), &disk, &ONE_MORE)
}

#[test]
fn what_closes_a_recovered_file_is_cut_off(rt: HostRuntime) -> Result<(), RecFault> {
    let mut disk = committed(&rt)?;
    recovers(&rt, &mut disk, Ok(SHORT_RIDE));
    let mut disk = gone_on(&rt, disk, &[])?;
    equal(&rt, disk.content(Which::Data).len(), 14 + 174);
    recovers(&rt, &mut disk, Ok(SHORT_RIDE));
    Ok(())
}

const STOPPED: RecFault = RecFault::Refused(Refusal::Stopped);

#[test]
fn a_stopped_ride_does_not_go_on(rt: HostRuntime) -> Result<(), Fail> {
    let disk = ride(&rt, &[Entry::Stop(TIME)])?;
    is_refused(&rt, rt.alloc(), disk, STOPPED)?;
    let mut again = ride(&rt, &[Entry::Stop(TIME)])?;
    recovers(&rt, &mut again, Ok(ALONE));
    is_refused(&rt, rt.alloc(), again, STOPPED)
}

// A journal of an older program, with the length of the short ride in so many open slots.
fn row_of(rt: &HostRuntime, slots: usize) -> Result<Vec<u8>, Fail> {
    let mut row = [0x46, 0x52, 0x4A, 0x31, 0, 0, 0, 0].to_vec(rt.alloc())?;
    for _ in 0..slots {
        row.extend_from_slice(&[0xA5, 0xAE, 0, 0, 0, 0, 0, 0])?;
    }
    row.extend_from_slice(&[0; 8])?;
    Ok(row)
}

// The short ride with such a journal.
pub(super) fn committed_in_a_row(rt: &HostRuntime, slots: usize) -> Result<Memory, Fail> {
    let disk = committed(rt)?;
    let row = row_of(rt, slots)?;
    Ok(copy_of(rt.alloc(), disk.content(Which::Data), &row)?)
}

static LAST_SLOT_STEPS: [Step; 3] = [
    Step::Commit(Err(RecFault::JournalFull)),
    Step::Hand(rate!(3, 120), Ok(())),
    Step::Hand(Entry::Stop(TIME + 4), Ok(())),
];

static LAST_SLOT_SUMMARY: Summary = Summary {
    records: 4,
    elapsed_ms: Some(4000),
    timer_ms: Some(4000),
    ..SHORT_RIDE
};

#[test]
fn a_row_of_slots_goes_on_while_one_is_left(rt: HostRuntime) -> Result<(), Fail> {
    let disk = gone_on(&rt, committed_in_a_row(&rt, 4095)?, &LAST_SLOT_STEPS)?;
    sums_up(&rt, rt.alloc(), &disk, LAST_SLOT_SUMMARY)?;
    let full = committed_in_a_row(&rt, 4096)?;
    is_refused(&rt, rt.alloc(), full, RecFault::JournalFull)
}

// Three rides in a row of slots, each of which commits a sample and hands in another before the power goes, with how many samples a
// recovery then finds, in how many ms.
static IN_A_ROW: [([Step; 3], u32, u32); 3] = [
    (
        [
            Step::Hand(rate!(3, 120), Ok(())),
            Step::Commit(Ok(())),
            Step::Hand(rate!(4, 121), Ok(())),
        ],
        4,
        3000,
    ),
    (
        [
            Step::Hand(rate!(4, 120), Ok(())),
            Step::Commit(Ok(())),
            Step::Hand(rate!(5, 121), Ok(())),
        ],
        5,
        4000,
    ),
    (
        [
            Step::Hand(rate!(5, 120), Ok(())),
            Step::Commit(Ok(())),
            Step::Hand(rate!(6, 121), Ok(())),
        ],
        6,
        5000,
    ),
];

// The disk after such a ride.
fn one_more_in_a_row(rt: &impl Abort, disk: Memory, steps: &[Step]) -> Result<Memory, RecFault> {
    let mut disk = gone_on(rt, disk, steps)?;
    disk.cycle(&[0xA5; 64]);
    Ok(disk)
}

// The disk after the three rides, with a recovery after each.
fn three_more_in_a_row(rt: &impl Abort, mut disk: Memory) -> Result<Memory, RecFault> {
    for (steps, records, ms) in IN_A_ROW {
        disk = one_more_in_a_row(rt, disk, &steps)?;
        let summary = Summary {
            records,
            elapsed_ms: Some(ms),
            timer_ms: Some(ms),
            ..SHORT_RIDE
        };
        recovers(rt, &mut disk, Ok(summary));
    }
    Ok(disk)
}

static NO_SLOT_STEPS: [Step; 2] = [
    Step::Commit(Err(RecFault::JournalFull)),
    Step::Hand(Entry::Stop(TIME + 6), Ok(())),
];

// What they record, with a stop.
static THREE_MORE: [Entry; 8] = [
    rate!(0, 100),
    rate!(1, 101),
    Entry::Lap(TIME + 2),
    rate!(2, 110),
    rate!(3, 120),
    rate!(4, 120),
    rate!(5, 120),
    Entry::Stop(TIME + 6),
];

// Each commit takes a slot, which a power cut and a recovery after it keep. The last slot is reserved for the stop.
#[test]
fn commits_go_on_in_a_row_until_one_slot_is_left(rt: HostRuntime) -> Result<(), Fail> {
    let disk = three_more_in_a_row(&rt, committed_in_a_row(&rt, 4092)?)?;
    let disk = gone_on(&rt, disk, &NO_SLOT_STEPS)?;
    encodes(&rt, rt.alloc(), &disk, &THREE_MORE)?;
    is_refused(&rt, rt.alloc(), disk, STOPPED)
}

static OTHER_STEPS: [Step; 4] = [
    Step::Size(216),
    Step::Hand(rate!(12, 120), Ok(())),
    Step::Hand(rate!(13, 121), Ok(())),
    Step::Hand(Entry::Stop(TIME + 13), Ok(())),
];

// The definitions of the other spelling are no longer in force, and the first new one takes local number 0.
static OTHER_SAMPLES: [u8; 13] = [
    0x40, 0x00, 0x00, 0x14, 0x00, 0x01, 0x03, 0x01, 0x02, 0x8C, 0x78, 0x8D, 0x79,
];

static OTHER_SUMMARY: Summary = Summary {
    records: 4,
    laps: 2,
    elapsed_ms: Some(13_000),
    timer_ms: Some(11_000),
    ..ALONE
};

#[test]
fn another_spelling_goes_on(rt: HostRuntime) -> Result<(), Fail> {
    let disk = holding(rt.alloc(), &OTHER_SPELLING, 216)?;
    let disk = gone_on(&rt, disk, &OTHER_STEPS)?;
    has_at(&rt, &disk, Which::Data, 14, &OTHER_SPELLING);
    has_at(&rt, &disk, Which::Data, 230, &OTHER_SAMPLES);
    sums_up(&rt, rt.alloc(), &disk, OTHER_SUMMARY)
}

// A sample with this distance alone, so many seconds after the start.
macro_rules! distance {
    ($seconds:expr, $distance:expr) => {
        Entry::Sample(Sample {
            time: TIME + $seconds,
            distance: Some($distance),
            ..EMPTY
        })
    };
}

static ADDED_UP_STEPS: [Step; 4] = [
    Step::Hand(distance!(1, 500), Ok(())),
    Step::Hand(Entry::Lap(TIME + 2), Ok(())),
    Step::Hand(Entry::Pause(TIME + 3), Ok(())),
    Step::Commit(Ok(())),
];

static MORE_STEPS: [Step; 6] = [
    Step::Hand(Entry::Lap(TIME + 2), Err(RecFault::Refused(Refusal::Time))),
    Step::Hand(rate!(4, 100), Err(RecFault::Refused(Refusal::TimerStopped))),
    Step::Hand(Entry::Resume(TIME + 5), Ok(())),
    Step::Hand(distance!(6, 499), Err(RecFault::Refused(Refusal::Distance))),
    Step::Hand(distance!(6, 600), Ok(())),
    Step::Hand(Entry::Stop(TIME + 7), Ok(())),
];

static ADDED_UP: Summary = Summary {
    records: 2,
    laps: 2,
    elapsed_ms: Some(7000),
    timer_ms: Some(5000),
    distance_cm: Some(600),
    ..ALONE
};

#[test]
fn what_was_added_up_goes_on(rt: HostRuntime) -> Result<(), Fail> {
    let disk = recorded(&rt, rt.alloc(), &ADDED_UP_STEPS)?;
    let disk = gone_on(&rt, disk, &MORE_STEPS)?;
    sums_up(&rt, rt.alloc(), &disk, ADDED_UP)
}

// How many calls of the device a resume of a short ride makes.
const RESUME_CALLS: u32 = 2 + 1 + 1 + 1 + 2;

// And with a commit after it at most.
const RESUME_AND_COMMIT_CALLS: u32 = RESUME_CALLS + 8;

// Resumes the short ride, hands in a sample and commits it. The power goes at the k-th call. Returns the disk, and whether the
// commit was answered.
fn goes_on_until(mut disk: Memory, k: u32) -> (Memory, bool)
    requires { 1 ≤ k }
{
    disk.cut_at(k);
    let mut recorder = match resume(disk) {
        Err((disk, _)) => return (disk, false),
        Ok(recorder) => recorder,
    };
    let handed = recorder.hand(&heart_rate(TIME + 3, 120));
    let is_committed = handed.is_ok() && recorder.commit().is_ok();
    (recorder.into_disk(), is_committed)
}

// The short ride with that sample.
static LONGER: Summary = Summary {
    records: 4,
    elapsed_ms: Some(3000),
    timer_ms: Some(3000),
    ..SHORT_RIDE
};

// Asserts what a recovery finds after a power cut at the k-th call that leaves this byte.
fn goes_on_or_not(rt: &impl Abort, disk: Memory, k: u32, choice: u8) -> Result<(), RecFault>
    requires { 1 ≤ k }
{
    let (mut disk, is_committed) = goes_on_until(disk, k);
    disk.cycle(&[choice; 256]);
    let summary = recover(&mut disk)?;
    assert!(rt;
        summary == LONGER || (!is_committed && summary == SHORT_RIDE),
        "call {k}"
    );
    assert!(rt; k > RESUME_CALLS || summary == SHORT_RIDE, "call {k}");
    assert!(rt; k <= RESUME_AND_COMMIT_CALLS || is_committed, "call {k}");
    Ok(())
}

#[test]
fn power_cuts_leave_what_was_committed_before_or_after(rt: HostRuntime) -> Result<(), RecFault> {
    for k in 1..=RESUME_AND_COMMIT_CALLS + 1 {
        for choice in [0x00, 0xA5, 0xFF] {
            goes_on_or_not(&rt, committed(&rt)?, k, choice)?;
        }
    }
    Ok(())
}

// A resume whose k-th call fails with the power gone.
fn cut_off_at(rt: &impl Abort, mut disk: Memory, k: u32) -> Result<Memory, Fail>
    requires { 1 ≤ k }
{
    disk.cut_at(k);
    match resume(disk) {
        Ok(recorder) => {
            assert!(rt; false, "call {k}");
            Ok(recorder.into_disk())
        }
        Err((mut disk, fault)) => {
            assert_eq!(rt; fault, RecFault::Device, "call {k}");
            disk.cycle(&[0xA5; 64]);
            Ok(disk)
        }
    }
}

// Resumes a ride and commits one more sample, after resumes that were cut off at each of their calls.
fn goes_on_by_one(rt: &impl Abort, mut disk: Memory, sample: &Entry) -> Result<Memory, Fail>
    requires { is_stop (Added sample.now) ≡ false }
{
    for k in 1..=RESUME_CALLS {
        disk = cut_off_at(rt, disk, k)?;
    }
    let mut recorder = resumed(disk)?;
    recorder.hand(sample)?;
    recorder.commit()?;
    Ok(recorder.into_disk())
}

#[test]
fn a_ride_goes_on_ten_times(rt: HostRuntime) -> Result<(), Fail> {
    let mut disk = begun(&rt)?.into_disk();
    let mut entries = Vec::new(rt.alloc());
    for second in 1..=10 {
        let sample = heart_rate(TIME + second, 100);
        disk = goes_on_by_one(&rt, disk, &sample)?;
        entries.push(sample)?;
    }
    let stop = Entry::Stop(TIME + 10);
    entries.push(stop)?;
    let disk = gone_on(&rt, disk, &[Step::Hand(stop, Ok(()))])?;
    encodes(&rt, rt.alloc(), &disk, &entries)
}

// Rides that end with a stop, and their finished files.

ghost use Rattle.std.specs.Prelude.{◌≡◌, ◌≤◌, IfOk, true, false};
ghost use Rattle.fit_activity.specs.Rides.Recording.{Added, is_stop};
ghost use Rattle.fit_disk.specs.Memory.{memory_story};
ghost use Rattle.fit_recorder.specs.Calls.Recorder.{GoesOn};

use super::{
    EMPTY, SHORT_RIDE, START_RECORDS, Step, TIME, after, begun, begun_on, has_at, one, recorded,
    ride, sums_up, value_in,
};
use crate::equality::equal;
use fit_activity::{Entry, Refusal, Sample, check_activity, entry_of};
use fit_disk::{Memory, Which};
use fit_grammar::{File, Message, decode_file};
use fit_recorder::{RecFault, Recorder};
use std::alloc::Global;
use std::process::Abort;
use std::test::Fail;

fn with_distance(time: u32, distance: u32) -> Entry {
    let mut sample = Sample::new(time);
    sample.distance = Some(distance);
    Entry::Sample(sample)
}

// The value of a field if it has exactly one and that is valid.
fn value_of(message: &Message, number: u8) -> Option<u64> {
    for field in message.fields() {
        if field.number == number {
            return value_in(&field);
        }
    }
    None
}

// Two fields of the lap with this index.
fn lap_values(
    file: &File,
    index: u64,
    first: u8,
    second: u8,
) -> Option<(Option<u64>, Option<u64>)> {
    for message in file.messages() {
        if message.global() == 19 && value_of(&message, 254) == Some(index) {
            return Some((value_of(&message, first), value_of(&message, second)));
        }
    }
    None
}

// Asserts that two fields of the lap with this index have these values.
fn laps_have(rt: &impl Abort, file: &File, index: u64, numbers: (u8, u8), values: (u64, u64)) {
    let (first, second) = numbers;
    assert_eq!(rt;
        lap_values(file, index, first, second),
        Some((Some(values.0), Some(values.1))),
        "lap {index}"
    );
}

const IS_STOPPED: Result<(), RecFault> = Err(RecFault::Refused(Refusal::Stopped));

static STOPPED_STEPS: [Step; 9] = [
    Step::Hand(rate!(0, 100), Ok(())),
    Step::Hand(rate!(1, 101), Ok(())),
    Step::Hand(Entry::Lap(TIME + 2), Ok(())),
    Step::Hand(rate!(2, 110), Ok(())),
    Step::Size(174),
    Step::Hand(Entry::Stop(TIME + 2), Ok(())),
    Step::Hand(Entry::Stop(TIME + 2), IS_STOPPED),
    Step::Commit(IS_STOPPED),
    Step::Hand(rate!(3, 90), IS_STOPPED),
];

static STOPPED_HEADER: [u8; 12] = [
    0x0E, 0x10, 0x64, 0x00, 0x9B, 0x01, 0x00, 0x00, 0x2E, 0x46, 0x49, 0x54,
];

#[test]
fn a_stop_closes_the_file(rt: HostRuntime) -> Result<(), Fail> {
    let disk = recorded(&rt, rt.alloc(), &STOPPED_STEPS)?;
    equal(&rt, disk.content(Which::Data).len(), 427);
    has_at(&rt, &disk, Which::Data, 0, &STOPPED_HEADER);
    has_at(&rt, &disk, Which::Data, 14, &START_RECORDS);
    sums_up(&rt, rt.alloc(), &disk, SHORT_RIDE)?;
    let file = decode_file(rt.alloc(), disk.content(Which::Data))?;
    laps_have(&rt, &file, 0, (15, 16), (100, 101));
    laps_have(&rt, &file, 1, (15, 16), (110, 110));
    Ok(())
}

static PAUSED_AT_ONCE: [Entry; 4] = [
    Entry::Pause(TIME + 5),
    Entry::Resume(TIME + 5),
    Entry::Lap(TIME + 5),
    Entry::Stop(TIME + 8),
];

static PAUSED_ACROSS: [Entry; 4] = [
    Entry::Pause(TIME + 5),
    Entry::Lap(TIME + 5),
    Entry::Resume(TIME + 7),
    Entry::Stop(TIME + 8),
];

// Elapsed time and timer time of the two laps, in ms.
#[test]
fn pauses_are_not_timed(rt: HostRuntime) -> Result<(), Fail> {
    for (entries, second_lap) in [
        (PAUSED_AT_ONCE, (3000, 3000)),
        (PAUSED_ACROSS, (3000, 1000)),
    ] {
        let disk = ride(&rt, &entries)?;
        let file = decode_file(rt.alloc(), disk.content(Which::Data))?;
        laps_have(&rt, &file, 0, (7, 8), (5000, 5000));
        laps_have(&rt, &file, 1, (7, 8), second_lap);
    }
    Ok(())
}

// The distance (cm) and the average speed (mm/s) of the only lap of a ride with two samples: at once without a distance, and at
// its end with this one.
fn distance_and_speed(
    rt: &HostRuntime,
    seconds: u32,
    distance: u32,
) -> Result<Option<(Option<u64>, Option<u64>)>, Fail>
    requires { seconds ≤ 10 }
{
    let end = TIME + seconds;
    let entries = [
        with_distance(TIME, 0),
        with_distance(end, distance),
        Entry::Stop(end),
    ];
    let disk = ride(rt, &entries)?;
    let file = decode_file(rt.alloc(), disk.content(Which::Data))?;
    Ok(lap_values(&file, 0, 9, 13))
}

#[test]
fn distances_and_average_speeds(rt: HostRuntime) -> Result<(), Fail> {
    let far = distance_and_speed(&rt, 10, 12345)?;
    equal(&rt, far, Some((Some(12345), Some(12345))));
    let slow = distance_and_speed(&rt, 7, 100)?;
    equal(&rt, slow, Some((Some(100), Some(142))));
    let fast = distance_and_speed(&rt, 1, 100_000)?;
    equal(&rt, fast, Some((Some(100_000), None)));
    Ok(())
}

// A sample with each field except the longer ones of newer devices.
pub(super) const FULL: Sample = Sample {
    lat: Some(-1),
    long: Some(2),
    altitude: Some(2600),
    heart_rate: Some(120),
    cadence: Some(90),
    distance: Some(5),
    speed: Some(8000),
    power: Some(250),
    temperature: Some(-3),
    ..EMPTY
};

// A recording that has taken so many such samples.
fn begun_full(rt: &HostRuntime, samples: u32) -> Result<Recorder<Memory>, RecFault>
    ensures { IfOk result (λ recorder. GoesOn true memory_story recorder) }
{
    let mut recorder = begun(rt)?;
    for _ in 0..samples {
        recorder.hand(&Entry::Sample(FULL))?;
    }
    Ok(recorder)
}

static FULL_STEPS: [Step; 10] = [
    Step::Hand(Entry::Pause(TIME), Ok(())),
    Step::Size(16_776_608),
    Step::Hand(Entry::Resume(TIME), Ok(())),
    Step::Size(16_776_615),
    Step::Hand(Entry::Sample(FULL), Err(RecFault::Full)),
    Step::Hand(Entry::Lap(TIME), Err(RecFault::Full)),
    Step::Size(16_776_615),
    Step::Commit(Ok(())),
    Step::Hand(Entry::Pause(TIME), Err(RecFault::Full)),
    Step::Hand(Entry::Stop(TIME), Ok(())),
];

// The first sample has its definition of 33 bytes. Each has 22 bytes of its own, and the pause and the resume 7.
#[test]
fn a_full_recording_takes_no_entry_more(rt: HostRuntime) -> Result<(), Fail> {
    let disk = after(&rt, begun_full(&rt, 762_568)?, &FULL_STEPS);
    let file = decode_file(rt.alloc(), disk.content(Which::Data))?;
    let summary = check_activity(&file.lend()).map(|summary| summary.records);
    equal(&rt, summary, Ok(762_568));
    Ok(())
}

// A sample with the fields that the bits of this number select.
pub(super) fn some_fields(time: u32, set: u8) -> Sample {
    let mut sample = Sample::new(time);
    if set & 1 != 0 {
        sample.heart_rate = Some(set);
    }
    if set & 2 != 0 {
        sample.cadence = Some(set);
    }
    if set & 4 != 0 {
        sample.power = Some(300);
    }
    if set & 8 != 0 {
        sample.lat = Some(-5);
    }
    if set & 16 != 0 {
        sample.temperature = Some(-20);
    }
    sample
}

// The bytes that a field of this size adds to such a sample with its definition, if it is set.
fn size_of_field(set: u8, bit: u8, bytes: u32) -> u32
    requires { bytes ≤ 4 }
    ensures { result ≤ 7 }
{
    if set & bit != 0 { 3 + bytes } else { 0 }
}

// The size of such a sample with its time and its definition. Each field has three bytes in the definition, and its own.
pub(super) fn size_with_definition(set: u8) -> u32
    ensures { result ≤ 100 }
{
    let time = 6 + 3 + 1 + 4;
    let sensors = size_of_field(set, 1, 1) + size_of_field(set, 2, 1) + size_of_field(set, 4, 2);
    time + sensors + size_of_field(set, 8, 4) + size_of_field(set, 16, 1)
}

// The sample of this number, from 1 on: each of the first seventeen has other fields, and the eighteenth those of the first.
fn numbered(number: u8) -> Entry
    requires { number ≤ 18 }
    ensures { is_stop (Added result) ≡ false }
{
    let set = if number <= 17 { number } else { 1 };
    Entry::Sample(some_fields(TIME + 32 * u32::from(number), set))
}

// The disk after the eighteen samples and a stop, and where the records end before the stop. Asserts that each sample takes as many
// bytes as it has with its definition.
fn in_turns(rt: &impl Abort, alloc: Global) -> Result<(Memory, usize), RecFault> {
    let mut recorder = begun_on(Memory::new(alloc))?;
    for set in 1..=18 {
        let before = recorder.data_len();
        recorder.hand(&numbered(set))?;
        let size = size_with_definition(if set <= 17 { set } else { 1 });
        assert_eq!(rt;
            recorder.data_len(),
            before.saturating_add(size),
            "fields {set}"
        );
    }
    let end = 14 + recorder.data_len() as usize;
    recorder.stop(TIME + 32 * 18)?;
    Ok((recorder.into_disk(), end))
}

// Asserts that the records of a file are the eighteen samples.
fn has_the_eighteen(rt: &impl Abort, file: &File) {
    let mut number = 1;
    for message in file.messages() {
        if message.global() == 20 && number <= 18 {
            assert_eq!(rt;
                entry_of(&message),
                Some(numbered(number)),
                "sample {number}"
            );
            number += 1;
        }
    }
    equal(rt, number, 19);
}

// The eighteenth definition takes local number 1.
static EIGHTEENTH: [u8; 18] = [
    0x41, 0, 0, 0x14, 0, 2, 0xFD, 4, 0x86, 3, 1, 2, 0x01, 0x40, 0xCC, 0x9A, 0x3B, 1,
];

#[test]
fn record_definitions_take_turns(rt: HostRuntime) -> Result<(), Fail> {
    let (disk, end) = in_turns(&rt, rt.alloc())?;
    has_at(&rt, &disk, Which::Data, end.saturating_sub(18), &EIGHTEENTH);
    let file = decode_file(rt.alloc(), disk.content(Which::Data))?;
    has_the_eighteen(&rt, &file);
    Ok(())
}

// A ride whose k-th call after the start fails: how many calls of the recorder came before the first that answered Device, and
// whether each one after it answered Failed.
fn ride_failing_at(rt: &HostRuntime, k: u32) -> Option<(u32, bool)>
    requires least { 1 ≤ k }
    requires most { k ≤ 100 }
{
    let mut disk = Memory::new(rt.alloc());
    disk.fail_at(11 + k);
    let Ok(mut recorder) = begun_on(disk) else {
        return None;
    };
    Some(gone(&answers(&mut recorder)))
}

// The answers of a sample, a commit, a lap and two stops.
fn answers(recorder: &mut Recorder<Memory>) -> [Result<(), RecFault>; 5]
    requires { GoesOn true memory_story recorder.old }
{
    [
        one(recorder, &rate!(0, 100)),
        recorder.commit(),
        one(recorder, &Entry::Lap(TIME + 1)),
        one(recorder, &Entry::Stop(TIME + 2)),
        one(recorder, &Entry::Stop(TIME + 2)),
    ]
}

// How many of these answers come before the first Device, and whether each one after it is Failed.
fn gone(answers: &[Result<(), RecFault>]) -> (u32, bool) {
    let mut went = 0;
    let mut failed = false;
    let mut only_failed = true;
    for answer in answers {
        if failed {
            only_failed = only_failed && *answer == Err(RecFault::Failed);
        } else if *answer == Err(RecFault::Device) {
            failed = true;
        } else if went < 5 {
            went += 1;
        }
    }
    (went, only_failed && failed)
}

#[test]
fn after_a_failed_call_all_fail(rt: HostRuntime) {
    // Six calls for the commit, eleven for the stop, and none for the sample and the lap, which wait in the page.
    let went = [1, 1, 1, 1, 1, 1, 3, 3, 3, 3, 3, 3, 3, 3, 3, 3, 3];
    for k in 0..17 {
        assert_eq!(rt;
            ride_failing_at(&rt, k + 1),
            Some((went[k as usize], true)),
            "call {k}"
        );
    }
    equal(&rt, ride_failing_at(&rt, 18), Some((5, false)));
}

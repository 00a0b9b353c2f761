// Why entries are refused: each cause alone, at its bound, and together with each later one.

use super::{EMPTY, Row, T, check_refusals, refusal, ride};
use crate::equality::equal;
use fit_activity::{Entry, Refusal, Sample};
use std::test::Fail;

const FAR: [Entry; 1] = [sample!(10, distance: 500)];

const PAUSED: [Entry; 2] = [sample!(10, distance: 500), Entry::Pause(T + 10)];

const RESUMED: [Entry; 3] = [
    sample!(10, distance: 500),
    Entry::Pause(T + 10),
    Entry::Resume(T + 12),
];

const STOPPED: [Entry; 2] = [sample!(10, distance: 500), Entry::Stop(T + 10)];

static KNOWN: [Row<'static>; 13] = [
    (&FAR, sample!(9), Some(Refusal::Time)),
    (&FAR, sample!(10, distance: 499), Some(Refusal::Distance)),
    (&FAR, sample!(10, distance: 500), None),
    (&FAR, sample!(10, heart_rate: 255), Some(Refusal::Value(3))),
    (&FAR, Entry::Pause(T + 10), None),
    (
        &PAUSED,
        sample!(10, heart_rate: 90),
        Some(Refusal::TimerStopped),
    ),
    (&PAUSED, Entry::Pause(T + 11), Some(Refusal::TimerStopped)),
    (&PAUSED, Entry::Lap(T + 11), None),
    (&PAUSED, Entry::Stop(T + 11), None),
    (&PAUSED, Entry::Resume(T + 12), None),
    (&RESUMED, Entry::Resume(T + 12), Some(Refusal::TimerRunning)),
    (&RESUMED, Entry::Lap(T + 4_000_001), Some(Refusal::TooLong)),
    (&RESUMED, Entry::Lap(T + 4_000_000), None),
];

#[test]
fn refuses_as_known(rt: HostRuntime) {
    check_refusals(&rt, &KNOWN);
}

static TIMES: [Row<'static>; 6] = [
    (&[], Entry::Lap(T - 1), Some(Refusal::Time)),
    (&[], Entry::Lap(T), None),
    (&[], Entry::Lap(0xFFFF_FFFF), Some(Refusal::Time)),
    (&[], Entry::Lap(0xFFFF_FFFE), Some(Refusal::TooLong)),
    (&[], Entry::Stop(T + 4_000_000), None),
    (&[], Entry::Stop(T + 4_000_001), Some(Refusal::TooLong)),
];

#[test]
fn refuses_times(rt: HostRuntime) {
    check_refusals(&rt, &TIMES);
}

// A sample in which each field from this number on has its invalid value.
fn invalid_from(number: u8) -> Entry {
    Entry::Sample(Sample {
        time: T,
        lat: (number < 1).then_some(0x7FFF_FFFF),
        long: (number < 2).then_some(0x7FFF_FFFF),
        altitude: (number < 3).then_some(0xFFFF),
        heart_rate: (number < 4).then_some(0xFF),
        cadence: (number < 5).then_some(0xFF),
        distance: (number < 6).then_some(0xFFFF_FFFF),
        speed: (number < 7).then_some(0xFFFF),
        power: (number < 8).then_some(0xFFFF),
        temperature: (number < 14).then_some(0x7F),
        enhanced_speed: (number < 74).then_some(0xFFFF_FFFF),
        enhanced_altitude: Some(0xFFFF_FFFF),
    })
}

// One field after another, from the last to the first, gets its invalid value. The refusal names the first invalid one.
#[test]
fn refuses_invalid_values(rt: HostRuntime) {
    for number in [78, 73, 13, 7, 6, 5, 4, 3, 2, 1, 0] {
        let refused = refusal(&rt, &[], invalid_from(number));
        equal(&rt, refused, Some(Refusal::Value(number)));
    }
}

// The greatest and the least valid values.
const MOST: Entry = Entry::Sample(Sample {
    time: T,
    lat: Some(0x7FFF_FFFE),
    long: Some(0x7FFF_FFFE),
    altitude: Some(0xFFFE),
    heart_rate: Some(0xFE),
    cadence: Some(0xFE),
    distance: Some(0xFFFF_FFFE),
    speed: Some(0xFFFE),
    power: Some(0xFFFE),
    temperature: Some(0x7E),
    enhanced_speed: Some(0xFFFF_FFFE),
    enhanced_altitude: Some(0xFFFF_FFFE),
});

const LEAST: Entry = sample!(0, lat: i32::MIN, long: -1, distance: 0, temperature: -128);

static EXTREME: [Row<'static>; 3] = [
    (&[], MOST, None),
    (&[], LEAST, None),
    (&[MOST], LEAST, Some(Refusal::Distance)),
];

#[test]
fn allows_extreme_values(rt: HostRuntime) {
    check_refusals(&rt, &EXTREME);
}

// A sample that is too late, with an invalid power.
const BAD: Entry = sample!(4_000_001, distance: 1, power: 0xFFFF);

const INVALID_TIME: Entry = Entry::Sample(Sample {
    time: 0xFFFF_FFFF,
    distance: Some(1),
    power: Some(0xFFFF),
    ..EMPTY
});

const IN_TIME: Entry = sample!(10, distance: 1, power: 0xFFFF);

static FIRST: [Row<'static>; 12] = [
    (&STOPPED, Entry::Stop(T + 10), Some(Refusal::Stopped)),
    (&STOPPED, Entry::Stop(T + 9), Some(Refusal::Stopped)),
    (&STOPPED, BAD, Some(Refusal::Stopped)),
    (&STOPPED, Entry::Resume(T + 10), Some(Refusal::Stopped)),
    (&PAUSED, INVALID_TIME, Some(Refusal::Time)),
    (&PAUSED, BAD, Some(Refusal::TooLong)),
    (&PAUSED, IN_TIME, Some(Refusal::TimerStopped)),
    (&FAR, Entry::Resume(T + 9), Some(Refusal::Time)),
    (&FAR, Entry::Resume(T + 4_000_001), Some(Refusal::TooLong)),
    (&FAR, Entry::Resume(T + 10), Some(Refusal::TimerRunning)),
    (&FAR, IN_TIME, Some(Refusal::Value(7))),
    (&FAR, sample!(10, distance: 1), Some(Refusal::Distance)),
];

// Each cause together with each later one that can hold with it.
#[test]
fn answers_the_first_cause(rt: HostRuntime) {
    check_refusals(&rt, &FIRST);
}

#[test]
fn counts_laps(rt: HostRuntime) -> Result<(), Fail> {
    let laps = vec![in rt.alloc(); Entry::Lap(T); 999]?;
    assert_eq!(rt; laps.len(), 999);
    equal(&rt, refusal(&rt, &laps[..998], Entry::Lap(T)), None);
    let totals = ride(&rt, &laps);
    equal(&rt, totals.check(&Entry::Lap(T)), Err(Refusal::TooManyLaps));
    equal(
        &rt,
        totals.check(&Entry::Lap(T + 4_000_001)),
        Err(Refusal::TooLong),
    );
    equal(&rt, totals.check(&Entry::Stop(T)), Ok(()));
    equal(&rt, totals.session().laps, 1000);
    Ok(())
}

#[test]
fn numbers_refusals(rt: HostRuntime) {
    let refusals = [
        Refusal::Time,
        Refusal::Distance,
        Refusal::Value(3),
        Refusal::TimerStopped,
        Refusal::TimerRunning,
        Refusal::TooLong,
        Refusal::TooManyLaps,
        Refusal::Stopped,
    ];
    for (i, refusal) in refusals.iter().enumerate() {
        equal(&rt, refusal.code() as usize, i + 1);
    }
}

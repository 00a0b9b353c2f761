// What rides add up to.

ghost use Rattle.std.specs.Prelude.{◌<◌, ◌^◌, length};

use super::{START, T, ride};
use crate::equality::equal;
use fit_activity::{Entry, LapSummary, Refusal, SessionSummary, Sport, Start, Stretch};
use std::process::Abort;

// The elapsed time and the timer time of the open lap of a ride, in ms.
fn lap_times(rt: &impl Abort, entries: &[Entry]) -> (u32, u32)
    requires { length entries.now < 2 ^ 31 }
{
    let lap = ride(rt, entries).lap().stretch;
    (lap.elapsed, lap.timer)
}

// Rides, and the times of their open laps.
static LAP_TIMES: [(&[Entry], (u32, u32)); 4] = [
    (&[Entry::Pause(T + 5), Entry::Resume(T + 5)], (5000, 5000)),
    (
        &[
            Entry::Pause(T + 5),
            Entry::Resume(T + 5),
            Entry::Lap(T + 5),
            Entry::Stop(T + 8),
        ],
        (3000, 3000),
    ),
    (&[Entry::Pause(T + 5)], (5000, 5000)),
    (
        &[
            Entry::Pause(T + 5),
            Entry::Lap(T + 5),
            Entry::Resume(T + 7),
            Entry::Stop(T + 8),
        ],
        (3000, 1000),
    ),
];

#[test]
fn times_laps(rt: HostRuntime) {
    for (entries, times) in &LAP_TIMES {
        assert!(rt; entries.len() < 1000);
        let reported = lap_times(&rt, *entries);
        equal(&rt, (*entries, reported), (*entries, *times));
    }
}

// The distance (cm) and the average speed (mm/s) of a ride.
fn distance_and_speed(rt: &impl Abort, entries: &[Entry]) -> (Option<u32>, Option<u16>)
    requires { length entries.now < 2 ^ 31 }
{
    let ride = ride(rt, entries).session().stretch;
    (ride.distance, ride.average_speed)
}

// A ride, its distance and its average speed.
type Way<'a> = (&'a [Entry], (Option<u32>, Option<u16>));

fn check_ways(rt: &impl Abort, ways: &[Way<'_>]) {
    for (entries, wanted) in ways {
        assert!(rt; entries.len() < 1000);
        let reported = distance_and_speed(rt, *entries);
        equal(rt, (*entries, reported), (*entries, *wanted));
    }
}

static WAYS: [Way<'static>; 7] = [
    (
        &[
            sample!(0, distance: 0),
            sample!(10, distance: 12345),
            Entry::Stop(T + 10),
        ],
        (Some(12345), Some(12345)),
    ),
    (
        &[sample!(7, distance: 100), Entry::Stop(T + 7)],
        (Some(100), Some(142)),
    ),
    (
        &[sample!(1, distance: 100_000), Entry::Stop(T + 1)],
        (Some(100_000), None),
    ),
    // The greatest speed that a field holds, and one mm/s more.
    (
        &[sample!(10, distance: 65534), Entry::Stop(T + 10)],
        (Some(65534), Some(65534)),
    ),
    (
        &[sample!(10, distance: 65535), Entry::Stop(T + 10)],
        (Some(65535), None),
    ),
    (&[sample!(0, distance: 5)], (Some(5), None)),
    (&[Entry::Stop(T + 3)], (None, None)),
];

#[test]
fn measures_distances(rt: HostRuntime) {
    check_ways(&rt, &WAYS);
}

// The index of the open lap of a ride, its distance, and that of the whole ride.
fn distances(rt: &impl Abort, entries: &[Entry]) -> (u16, Option<u32>, Option<u32>)
    requires { length entries.now < 2 ^ 31 }
{
    let totals = ride(rt, entries);
    let lap = totals.lap();
    (
        lap.index,
        lap.stretch.distance,
        totals.session().stretch.distance,
    )
}

static LATER: [Entry; 3] = [
    sample!(10, distance: 500),
    Entry::Lap(T + 10),
    sample!(20, distance: 800),
];

// No distance in this lap: 800 is already known at its start.
static KNOWN: [Entry; 2] = [sample!(10, distance: 800), Entry::Lap(T + 10)];

#[test]
fn measures_a_lap_from_its_beginning(rt: HostRuntime) {
    equal(&rt, distances(&rt, &LATER), (1, Some(300), Some(800)));
    equal(&rt, distances(&rt, &KNOWN), (1, Some(0), Some(800)));
}

// A ride of two laps, with heart rates 100 and 101 in the first and 110 in the second.
static TWO_LAPS: [Entry; 4] = [
    sample!(0, heart_rate: 100),
    sample!(1, heart_rate: 101),
    Entry::Lap(T + 2),
    sample!(2, heart_rate: 110),
];

const NOTHING: Stretch = Stretch {
    start: T,
    end: T,
    elapsed: 0,
    timer: 0,
    distance: None,
    average_speed: None,
    greatest_speed: None,
    average_heart_rate: None,
    greatest_heart_rate: None,
    average_power: None,
    greatest_power: None,
};

static FIRST_LAP: LapSummary = LapSummary {
    index: 0,
    stretch: Stretch {
        end: T + 1,
        elapsed: 1000,
        timer: 1000,
        average_heart_rate: Some(100),
        greatest_heart_rate: Some(101),
        ..NOTHING
    },
};

static SECOND_LAP: LapSummary = LapSummary {
    index: 1,
    stretch: Stretch {
        start: T + 2,
        end: T + 2,
        average_heart_rate: Some(110),
        greatest_heart_rate: Some(110),
        ..NOTHING
    },
};

static BOTH_LAPS: SessionSummary = SessionSummary {
    sport: Sport::Running,
    laps: 2,
    stretch: Stretch {
        end: T + 2,
        elapsed: 2000,
        timer: 2000,
        average_heart_rate: Some(103),
        greatest_heart_rate: Some(110),
        ..NOTHING
    },
};

#[test]
fn adds_up_a_ride_of_two_laps(rt: HostRuntime) {
    equal(&rt, ride(&rt, &TWO_LAPS[..2]).lap(), FIRST_LAP);
    let totals = ride(&rt, &TWO_LAPS);
    equal(&rt, totals.lap(), SECOND_LAP);
    equal(&rt, totals.session(), BOTH_LAPS);
    let activity = totals.activity();
    equal(&rt, (activity.time, activity.timer), (T + 2, 2000));
    equal(&rt, (totals.running(), totals.stopped()), (true, false));
    equal(&rt, totals.end_time(), T + 2);
}

static POWERFUL: [Entry; 5] = [
    sample!(0, speed: 9000, power: 400),
    sample!(1, speed: 8000, power: 101),
    Entry::Lap(T + 1),
    sample!(2, speed: 7000, power: 100),
    Entry::Pause(T + 4),
];

// The greatest speed, the average power and the greatest power.
fn speed_and_power(stretch: &Stretch) -> (Option<u16>, Option<u16>, Option<u16>) {
    (
        stretch.greatest_speed,
        stretch.average_power,
        stretch.greatest_power,
    )
}

// The greatest speed and power are in the first lap. Averages are rounded down.
#[test]
fn adds_up_speed_and_power(rt: HostRuntime) {
    let totals = ride(&rt, &POWERFUL);
    let whole = speed_and_power(&totals.session().stretch);
    equal(&rt, whole, (Some(9000), Some(200), Some(400)));
    let lap = speed_and_power(&totals.lap().stretch);
    equal(&rt, lap, (Some(7000), Some(100), Some(100)));
    assert!(rt; !totals.running());
}

// The greatest speed of the open lap of a ride, and of the whole ride.
fn greatest_speeds(rt: &impl Abort, entries: &[Entry]) -> (Option<u16>, Option<u16>)
    requires { length entries.now < 2 ^ 31 }
{
    let totals = ride(rt, entries);
    let lap = totals.lap().stretch.greatest_speed;
    (lap, totals.session().stretch.greatest_speed)
}

// A ride, the greatest speed of its open lap, and that of the whole ride.
type Speeds<'a> = (&'a [Entry], (Option<u16>, Option<u16>));

fn check_greatest(rt: &impl Abort, rows: &[Speeds<'_>]) {
    for (entries, wanted) in rows {
        assert!(rt; entries.len() < 1000);
        let reported = greatest_speeds(rt, *entries);
        equal(rt, (*entries, reported), (*entries, *wanted));
    }
}

static GREATER: [Speeds<'static>; 7] = [
    (
        &[
            sample!(0, speed: 5000, enhanced_speed: 6000),
            sample!(1, speed: 5500),
            Entry::Stop(T + 1),
        ],
        (Some(6000), Some(6000)),
    ),
    (
        &[
            sample!(0, speed: 5000, enhanced_speed: 6000),
            sample!(1, speed: 5500, enhanced_speed: 70_000),
            Entry::Stop(T + 1),
        ],
        (None, None),
    ),
    (
        &[sample!(0, enhanced_speed: 65_534)],
        (Some(65_534), Some(65_534)),
    ),
    (
        &[sample!(0, speed: 6000, enhanced_speed: 5000)],
        (Some(6000), Some(6000)),
    ),
    (
        &[sample!(0, speed: 6000, enhanced_speed: 6000)],
        (Some(6000), Some(6000)),
    ),
    (&[sample!(0, enhanced_speed: 0)], (Some(0), Some(0))),
    (&[sample!(0, distance: 5)], (None, None)),
];

// The speed of a sample is the greater of its two speeds, or the only one that it has.
#[test]
fn takes_the_greater_speed(rt: HostRuntime) {
    check_greatest(&rt, &GREATER);
}

// A lap whose greatest speed is more than its field holds, alone and before a lap whose greatest speed is not. Then speeds above that,
// which give none, however great: only 0xFFFF_FFFF, the invalid value, is refused.
static TOO_GREAT: [Speeds<'static>; 4] = [
    (
        &[sample!(0, speed: 65_534, enhanced_speed: 65_535)],
        (None, None),
    ),
    (
        &[
            sample!(0, speed: 65_534, enhanced_speed: 65_535),
            Entry::Lap(T + 1),
            sample!(1, speed: 300, enhanced_speed: 65_533),
        ],
        (Some(65_533), None),
    ),
    (
        &[sample!(0, speed: 1, enhanced_speed: 0xFFFF_FFFE)],
        (None, None),
    ),
    (&[sample!(0, enhanced_speed: 65_536 + 7)], (None, None)),
];

#[test]
fn reports_no_greatest_speed_above_65534(rt: HostRuntime) {
    check_greatest(&rt, &TOO_GREAT);
}

static WITH_SPEEDS: [Way<'static>; 2] = [
    (
        &[
            sample!(0, distance: 0, enhanced_speed: 9000),
            sample!(10, distance: 12345, enhanced_speed: 70_000),
        ],
        (Some(12345), Some(12345)),
    ),
    (
        &[sample!(1, speed: 5000, enhanced_speed: 6000)],
        (None, None),
    ),
];

// Average speeds are computed from distances, whatever the speeds are.
#[test]
fn averages_no_speeds(rt: HostRuntime) {
    check_ways(&rt, &WITH_SPEEDS);
}

#[test]
fn checks_starts(rt: HostRuntime) {
    let at = |time: u32| Start {
        time,
        serial: 0,
        sport: Sport::Generic,
    }
    .check();
    equal(&rt, START.check(), Ok(()));
    equal(&rt, at(0x1000_0000), Ok(()));
    equal(&rt, at(0x1000_0000 - 1), Err(Refusal::Time));
    equal(&rt, at(0xFFFF_FFFE), Ok(()));
    equal(&rt, at(0xFFFF_FFFF), Err(Refusal::Time));
    equal(
        &rt,
        (
            Sport::Generic.number(),
            Sport::Running.number(),
            Sport::Cycling.number(),
        ),
        (0, 1, 2),
    );
}

// What messages encode when they are heard again, and which ones are refused.

ghost use Rattle.std.specs.Prelude.{◌<◌, ◌^◌, length};

use super::files::{empty_file, finished, put, put_but, reported};
use super::{START, T, ride, spell};
use crate::equality::equal;
use fit_activity::{
    ActivitySummary, Entry, LapSummary, Replay, SessionSummary, Speech, SpokenMessage, Start,
    Summary, Totals, check_activity, speak_closing, speak_start,
};
use fit_grammar::{File, PutFault};
use std::alloc::Global;
use std::process::Abort;

// What the messages of a file encode, if all of them are accepted.
pub(super) fn replay(file: &File) -> Option<Replay> {
    // Every file has fewer than 2^32 messages.
    let _frame = file.frame();
    let mut replay = Replay::new();
    for message in file.messages() {
        match replay.apply(&message) {
            Ok(()) => {}
            Err(_) => return None,
        }
    }
    Some(replay)
}

// What the messages of a file encode. All of them are accepted.
fn recording(rt: &impl Abort, file: &File) -> Option<(Totals, Summary)> {
    let replay = replay(file).expect(rt, "each message is heard");
    replay.into_recording()
}

// All that totals add up to, and whether the timer runs, and whether the ride is stopped.
fn added_up(totals: &Totals) -> (SessionSummary, LapSummary, ActivitySummary, bool, bool) {
    (
        totals.session(),
        totals.lap(),
        totals.activity(),
        totals.running(),
        totals.stopped(),
    )
}

static RIDE: [Entry; 9] = [
    sample!(0, distance: 100),
    sample!(4, heart_rate: 120),
    Entry::Lap(T + 5),
    Entry::Pause(T + 6),
    Entry::Resume(T + 9),
    sample!(9, distance: 250),
    Entry::Lap(T + 9),
    Entry::Lap(T + 12),
    Entry::Stop(T + 12),
];

fn check_again(rt: &impl Abort, alloc: Global, entries: &[Entry]) -> Result<(), PutFault>
    requires { length entries.now < 2 ^ 31 }
{
    let reported = recording(rt, &reported(rt, alloc, entries)?);
    let (totals, _) = reported.expect(rt, "a start and entries");
    equal(rt, added_up(&totals), added_up(&ride(rt, entries)));
    Ok(())
}

#[test]
fn hears_a_ride_again(rt: HostRuntime) -> Result<(), PutFault> {
    for count in 0..10 {
        check_again(&rt, rt.alloc(), &RIDE[..count])?;
    }
    Ok(())
}

// The summary from a ride's messages before it is finished, and the summary of its finished file.
fn check_summaries(
    rt: &impl Abort,
    alloc: Global,
    entries: &[Entry],
    wanted: Summary,
) -> Result<(), PutFault>
    requires { length entries.now < 2 ^ 31 }
{
    let reported = recording(rt, &reported(rt, alloc, entries)?);
    let summary = reported.map(|(_, summary)| summary);
    let file = finished(rt, alloc, entries)?;
    equal(
        rt,
        (summary, check_activity(&file.lend())),
        (Some(wanted), Ok(wanted)),
    );
    Ok(())
}

static PAUSED: [Entry; 9] = [
    sample!(0, distance: 100),
    sample!(4, heart_rate: 120),
    Entry::Lap(T + 5),
    Entry::Pause(T + 6),
    Entry::Lap(T + 8),
    Entry::Resume(T + 9),
    sample!(9, distance: 250),
    Entry::Lap(T + 12),
    Entry::Stop(T + 12),
];

const WHOLE: Summary = Summary {
    records: 3,
    laps: 4,
    sessions: 1,
    start: Some(1_000_000_000),
    elapsed_ms: Some(12_000),
    timer_ms: Some(9_000),
    distance_cm: Some(250),
};

#[test]
fn sums_up_the_finished_file(rt: HostRuntime) -> Result<(), PutFault> {
    check_summaries(&rt, rt.alloc(), &PAUSED, WHOLE)?;

    // Cut off in its second lap, and right after its start.
    let paused = Summary {
        records: 2,
        laps: 2,
        elapsed_ms: Some(6_000),
        timer_ms: Some(6_000),
        distance_cm: Some(100),
        ..WHOLE
    };
    check_summaries(&rt, rt.alloc(), &PAUSED[..4], paused)?;
    let begun = Summary {
        records: 0,
        laps: 1,
        elapsed_ms: Some(0),
        timer_ms: Some(0),
        distance_cm: None,
        ..WHOLE
    };
    check_summaries(&rt, rt.alloc(), &[], begun)
}

// Adds a message with the byte at this place of its content changed.
fn put_changed(
    alloc: Global,
    file: &mut File,
    message: &SpokenMessage,
    place: usize,
) -> Result<(), PutFault> {
    let mut content = message.content().to_vec(alloc)?;
    if let Some(byte) = content.get_mut(place) {
        *byte ^= 1;
    }
    if message.local() < 16 {
        file.define(&message.definition())?;
        file.data(message.local(), None, &content)?;
    }
    Ok(())
}

static SAMPLES: [Entry; 2] = [sample!(0, heart_rate: 100), sample!(1, distance: 700)];

// A ride and a lap, in which the byte at this place is changed.
fn changed(
    rt: &impl Abort,
    alloc: Global,
    place: usize,
    speech: &mut Speech,
) -> Result<File, PutFault> {
    let mut file = reported(rt, alloc, &SAMPLES)?;
    spell(rt, &SAMPLES, Entry::Lap(T + 2), speech);
    for message in speech.messages() {
        put_changed(alloc, &mut file, message, place)?;
    }
    Ok(file)
}

#[test]
fn refuses_a_lap_with_another_value(rt: HostRuntime) -> Result<(), PutFault> {
    let mut speech = Speech::new();
    for place in 0..36usize {
        let heard = replay(&changed(&rt, rt.alloc(), place, &mut speech)?).is_some();
        // After the last byte of the content nothing is changed.
        equal(&rt, (place, heard), (place, place == 35));
    }
    Ok(())
}

// Adds the messages of a start, without those of these global numbers.
fn put_start(file: &mut File, start: &Start, left_out: &[u16]) -> Result<(), PutFault> {
    let mut speech = Speech::new();
    speak_start(start, &mut speech);
    put_but(file, &speech, left_out)
}

#[test]
fn hears_starts(rt: HostRuntime) -> Result<(), PutFault> {
    // The file_id is missing.
    let mut file = empty_file(rt.alloc());
    put_start(&mut file, &START, &[0])?;
    assert!(rt; replay(&file).is_none());

    // A file_id and a sport are not a recording yet.
    let mut file = empty_file(rt.alloc());
    put_start(&mut file, &START, &[21])?;
    assert!(rt; recording(&rt, &file).is_none());

    // The timer starts at another time.
    let later = Start {
        time: T + 1,
        ..START
    };
    put_start(&mut file, &later, &[0, 12])?;
    assert!(rt; replay(&file).is_none());

    // The start is before the first calendar time.
    let early = Start {
        time: 0x0FFF_FFFF,
        ..START
    };
    let mut file = empty_file(rt.alloc());
    put_start(&mut file, &early, &[])?;
    assert!(rt; replay(&file).is_none());
    Ok(())
}

// The messages of a ride are not heard if these follow.
fn check_refused(
    rt: &impl Abort,
    alloc: Global,
    entries: &[Entry],
    speech: &Speech,
) -> Result<(), PutFault>
    requires { length entries.now < 2 ^ 31 }
{
    let mut file = reported(rt, alloc, entries)?;
    put(&mut file, speech)?;
    assert!(rt; replay(&file).is_none(), "after {entries:?}");
    Ok(())
}

#[test]
fn refuses_what_may_not_come_next(rt: HostRuntime) -> Result<(), PutFault> {
    let mut speech = Speech::new();
    speak_start(&START, &mut speech);
    check_refused(&rt, rt.alloc(), &[], &speech)?;

    spell(&rt, &[], Entry::Pause(T + 6), &mut speech);
    check_refused(&rt, rt.alloc(), &[Entry::Pause(T + 5)], &speech)?;

    spell(&rt, &[], sample!(4), &mut speech);
    check_refused(&rt, rt.alloc(), &[sample!(5, distance: 100)], &speech)?;

    // The lap that closes a recording encodes no entry.
    let stopped = [Entry::Stop(T + 1)];
    speak_closing(&ride(&rt, &stopped), &mut speech);
    check_refused(&rt, rt.alloc(), &stopped, &speech)
}

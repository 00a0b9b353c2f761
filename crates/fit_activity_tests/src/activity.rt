// Rides that are known from outside: what they are refused for, what they add up to, and their messages.
//
// Tables are statics: a proof reads the values of a constant, which costs much in a long table, and not those of a static.

ghost use Rattle.std.specs.Prelude.{◌≡◌, ◌+◌, ◌≤◌, ◌<◌, ◌^◌, List, None, length};
ghost use Rattle.fit_activity.specs.Rides.Recording.{Recorded};
ghost use Rattle.fit_activity.specs.Rides.RunningTotals.{AreTotals};

// A sample so many seconds after T, with these values alone.
macro_rules! sample {
    ($seconds:expr $(, $field:ident: $value:expr)*) => {
        $crate::activity::Entry::Sample($crate::activity::Sample {
            time: $crate::activity::T + $seconds,
            $($field: Some($value),)*
            ..$crate::activity::EMPTY
        })
    };
}

// Definitions of fields. Each triple is number, size and base type.
macro_rules! fields {
    ($([$number:expr, $size:expr, $base:expr]),*) => {
        &[$(fit_grammar::FieldDefinition {
            number: $number,
            size: $size,
            base: $base,
        }),*]
    };
}

use crate::equality::equal;
use fit_activity::{Entry, Refusal, Sample, Speech, Sport, Start, Totals, speak, speak_compressed};
use std::process::Abort;

mod activities;
mod developer;
mod files;
mod messages;
mod refusals;
mod replays;
mod summaries;

// 2021-09-08T01:46:40Z.
const T: u32 = 1_000_000_000;

const START: Start = Start {
    time: T,
    serial: 7,
    sport: Sport::Running,
};

// A sample at T without values.
const EMPTY: Sample = Sample {
    time: T,
    lat: None,
    long: None,
    altitude: None,
    heart_rate: None,
    cadence: None,
    distance: None,
    speed: None,
    power: None,
    temperature: None,
    enhanced_speed: None,
    enhanced_altitude: None,
};

// The totals of a ride. Each of its entries is allowed.
fn ride(rt: &impl Abort, entries: &[Entry]) -> Totals
    requires { length entries.now < 2 ^ 31 }
    ensures { (list : List Recorded) × AreTotals result list × (length list < 2 ^ 32) }
{
    match START.check() {
        Ok(()) => {}
        Err(refusal) => panic!(rt; "refused: {refusal:?}"),
    }
    let mut totals = Totals::start(&START);
    for entry in entries {
        match totals.check(entry) {
            Ok(()) => totals.add(entry),
            Err(refusal) => panic!(rt; "refused: {refusal:?}"),
        }
    }
    totals
}

// Why this entry is refused after a ride.
fn refusal(rt: &impl Abort, entries: &[Entry], entry: Entry) -> Option<Refusal>
    requires { length entries.now < 2 ^ 31 }
{
    ride(rt, entries).check(&entry).err()
}

// A ride, an entry after it, and why it is refused.
type Row<'a> = (&'a [Entry], Entry, Option<Refusal>);

fn check_refusals(rt: &impl Abort, rows: &[Row<'_>]) {
    for (entries, entry, wanted) in rows {
        assert!(rt; entries.len() < 1000);
        let reported = refusal(rt, *entries, *entry);
        equal(
            rt,
            (*entries, *entry, reported),
            (*entries, *entry, *wanted),
        );
    }
}

// Makes the messages of this entry after a ride.
fn spell(rt: &impl Abort, entries: &[Entry], entry: Entry, speech: &mut Speech)
    requires { length entries.now < 2 ^ 31 }
{
    let totals = ride(rt, entries);
    match totals.check(&entry) {
        Ok(()) => speak(&entry, &totals, speech),
        Err(refusal) => panic!(rt; "refused: {refusal:?}"),
    }
}

// The same for a header that may have a compressed timestamp. Returns the time offset in that header.
fn spell_compressed(
    rt: &impl Abort,
    entries: &[Entry],
    entry: Entry,
    speech: &mut Speech,
) -> Option<u8>
    requires { length entries.now < 2 ^ 31 }
{
    let totals = ride(rt, entries);
    match totals.check(&entry) {
        Ok(()) => speak_compressed(&entry, &totals, speech),
        Err(refusal) => panic!(rt; "refused: {refusal:?}"),
    }
}

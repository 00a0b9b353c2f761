// Messages with developer fields. In a recording no message has one; in an activity they are ignored.

use super::files::{Row, empty_file, put_row};
use super::messages::RIDE_MESSAGES;
use super::replays::replay;
use crate::equality::equal;
use fit_activity::{Summary, check_activity, entry_of, file_id_of, sport_of};
use fit_base::Arch;
use fit_grammar::{DeveloperFieldDefinition, File};
use std::alloc::Global;
use std::test::Fail;

// Definitions of developer fields. Each triple is number, size and index.
macro_rules! developer {
    ($([$number:expr, $size:expr, $index:expr]),*) => {
        &[$(DeveloperFieldDefinition {
            number: $number,
            size: $size,
            index: $index,
        }),*]
    };
}

// Developer fields and their content.
type Developer<'a> = (&'a [DeveloperFieldDefinition], &'a [u8]);

const NONE: Developer<'static> = (&[], &[]);

// One field of no byte, and one of one byte.
static ONE: [Developer<'static>; 2] = [(developer!([0, 0, 0]), &[]), (developer!([0, 1, 0]), &[9])];

// How many of the messages encode a part of a ride.
fn reported(file: &File) -> usize {
    let mut reported = 0usize;
    for message in file.messages() {
        if file_id_of(&message).is_some()
            || sport_of(&message).is_some()
            || entry_of(&message).is_some()
        {
            reported = reported.saturating_add(1);
        }
    }
    reported
}

// The messages of a ride, of which the one at this place has these developer fields.
fn ride_with(alloc: Global, developer: &Developer<'_>, place: usize) -> Result<File, Fail> {
    let mut file = empty_file(alloc);
    for (at, row) in RIDE_MESSAGES.iter().enumerate() {
        let added = if at == place { developer } else { &NONE };
        put_added(alloc, &mut file, row, added)?;
    }
    Ok(file)
}

fn put_added(
    alloc: Global,
    file: &mut File,
    row: &Row<'_>,
    developer: &Developer<'_>,
) -> Result<(), Fail> {
    let (local, global, fields, content) = row;
    let mut bytes = content.to_vec(alloc)?;
    bytes.extend_from_slice(developer.1)?;
    let row = (*local, *global, *fields, bytes.as_slice());
    put_row(file, Arch::Little, &row, developer.0)
}

// After the last place no message has one.
#[test]
fn no_message_of_a_ride_has_one(rt: HostRuntime) -> Result<(), Fail> {
    for developer in &ONE {
        for place in 0..=RIDE_MESSAGES.len() {
            let file = ride_with(rt.alloc(), developer, place)?;
            let is_ride = place == RIDE_MESSAGES.len();
            let parts = if is_ride { 4 } else { 3 };
            let wanted = (*developer, place, is_ride, parts);
            equal(
                &rt,
                (*developer, place, replay(&file).is_some(), reported(&file)),
                wanted,
            );
        }
    }
    Ok(())
}

// Developer fields with the numbers of the fields that are read.
static ACTIVITY: [(Row<'static>, &[DeveloperFieldDefinition]); 5] = [
    ((0, 0, fields!([0, 1, 0]), &[4, 5]), developer!([0, 1, 0])),
    ((0, 20, &[], &[1, 2, 3, 4]), developer!([253, 4, 0x86])),
    ((0, 19, &[], &[]), developer!([0, 0, 0])),
    (
        (0, 18, fields!([2, 4, 0x86]), &[1, 0, 0, 0, 2, 0, 0, 0]),
        developer!([7, 4, 0x86]),
    ),
    ((0, 34, &[], &[]), &[]),
];

#[test]
fn an_activity_may_have_them(rt: HostRuntime) -> Result<(), Fail> {
    let mut file = empty_file(rt.alloc());
    for (row, developer) in &ACTIVITY {
        put_row(&mut file, Arch::Little, row, *developer)?;
    }
    let summary = Summary {
        records: 1,
        laps: 1,
        sessions: 1,
        start: Some(1),
        elapsed_ms: None,
        timer_ms: None,
        distance_cm: None,
    };
    equal(&rt, check_activity(&file.lend()), Ok(summary));
    Ok(())
}

// Rides as bytes, and as messages that are read again.

use super::files::{Row, empty_file, file_of, finished, put_after};
use super::{START, T, ride, spell, spell_compressed};
use crate::equality::equal;
use fit_activity::{
    Entry, Sample, Speech, SpokenMessage, Sport, Start, entry_of, file_id_of, speak_closing,
    speak_start, sport_of,
};
use fit_grammar::{File, Message, PutFault};
use std::alloc::{AllocError, Global};
use std::process::Abort;

fn check_messages(rt: &impl Abort, messages: &[SpokenMessage], wanted: &[Row<'_>]) {
    equal(rt, messages.len(), wanted.len());
    let mut rest = wanted.iter();
    for message in messages {
        check_message(rt, message, rest.next().expect(rt, "as many"));
    }
}

fn check_message(rt: &impl Abort, message: &SpokenMessage, wanted: &Row<'_>) {
    let definition = message.definition();
    let (local, global) = (message.local(), definition.global);
    let fields = definition.fields.as_slice();
    equal(rt, (local, global, fields, message.content()), *wanted);
}

// The messages of a start, and a sample at its time.
pub(super) static RIDE_MESSAGES: [Row<'static>; 4] = [
    (
        4,
        0,
        fields!(
            [0, 1, 0],
            [1, 2, 0x84],
            [2, 2, 0x84],
            [3, 4, 0x8C],
            [4, 4, 0x86]
        ),
        &[
            0x04, 0xFF, 0x00, 0x01, 0x00, 0x07, 0x00, 0x00, 0x00, 0x00, 0xCA, 0x9A, 0x3B,
        ],
    ),
    (5, 12, fields!([0, 1, 0], [1, 1, 0]), &[0x01, 0x00]),
    (
        6,
        21,
        fields!([253, 4, 0x86], [0, 1, 0], [1, 1, 0]),
        &[0x00, 0xCA, 0x9A, 0x3B, 0x00, 0x00],
    ),
    (
        0,
        20,
        fields!([253, 4, 0x86], [3, 1, 0x02]),
        &[0x00, 0xCA, 0x9A, 0x3B, 100],
    ),
];

#[test]
fn states_a_start(rt: HostRuntime) {
    let mut speech = Speech::new();
    speak_start(&START, &mut speech);
    check_messages(&rt, speech.messages(), &RIDE_MESSAGES[..3]);
}

// The values of the fields of a message.
fn values(alloc: Global, message: &Message) -> Result<Vec<u64>, AllocError> {
    let mut values = Vec::new(alloc);
    for field in message.fields() {
        if field.value.count() == 1 {
            values.push(field.value.unsigned(0))?;
        }
    }
    Ok(values)
}

const NO_U16: u64 = 0xFFFF;

const NO_U32: u64 = 0xFFFF_FFFF;

const AT: u64 = 1_000_000_000;

const AT_1: u64 = AT + 1;

const AT_2: u64 = AT + 2;

static RIDE: [Entry; 4] = [
    sample!(0, heart_rate: 100),
    sample!(1, heart_rate: 101),
    Entry::Lap(T + 2),
    sample!(2, heart_rate: 110),
];

// Its start and two samples, a lap, a sample, and the end: a stop, a lap, the session and the activity.
static RIDE_VALUES: [(u16, &[u64]); 11] = [
    (0, &[4, 255, 1, 7, AT]),
    (12, &[1, 0]),
    (21, &[AT, 0, 0]),
    (20, &[AT, 100]),
    (20, &[AT_1, 101]),
    (
        19,
        &[
            0, AT_2, 9, 1, AT, 2000, 2000, NO_U32, NO_U16, NO_U16, 100, 101, NO_U16, NO_U16, 0,
        ],
    ),
    (20, &[AT_2, 110]),
    (21, &[AT_2, 0, 4]),
    (
        19,
        &[
            1, AT_2, 9, 1, AT_2, 0, 0, NO_U32, NO_U16, NO_U16, 110, 110, NO_U16, NO_U16, 7,
        ],
    ),
    (
        18,
        &[
            0, AT_2, 8, 1, AT, 1, 0, 2000, 2000, NO_U32, NO_U16, NO_U16, 103, 110, NO_U16, NO_U16,
            0, 2, 0,
        ],
    ),
    (34, &[AT_2, 2000, 1, 0, 26, 1]),
];

fn check_values(
    rt: &impl Abort,
    alloc: Global,
    file: &File,
    wanted: &[(u16, &[u64])],
) -> Result<(), AllocError> {
    let mut rest = wanted.iter();
    for message in file.messages() {
        let values = values(alloc, &message)?;
        equal(
            rt,
            Some(&(message.global(), values.as_slice())),
            rest.next(),
        );
    }
    equal(rt, rest.next(), None);
    Ok(())
}

#[test]
fn states_a_lap_and_the_end(rt: HostRuntime) -> Result<(), PutFault> {
    let file = finished(&rt, rt.alloc(), &RIDE)?;
    check_values(&rt, rt.alloc(), &file, &RIDE_VALUES)?;
    Ok(())
}

// After a stop no event is added.
#[test]
fn states_the_end_after_a_stop(rt: HostRuntime) {
    let mut speech = Speech::new();
    speak_closing(&ride(&rt, &[Entry::Stop(T + 3)]), &mut speech);
    let messages = speech.messages();
    equal(&rt, messages.len(), 3);
    let mut heads = [(7, 19), (8, 18), (9, 34)].into_iter();
    for message in messages {
        let head = (message.local(), message.definition().global);
        equal(&rt, Some(head), heads.next());
    }
}

// All fields. A latitude and a temperature below zero are in two's complement.
const FULL: Entry = sample!(
    0,
    lat: -2,
    long: 1,
    altitude: 2600,
    heart_rate: 101,
    cadence: 90,
    distance: 12345,
    speed: 5000,
    power: 250,
    temperature: -5,
    enhanced_speed: 70_000,
    enhanced_altitude: 0xFFFF_FFFE
);

static FULL_RECORD: [Row<'static>; 1] = [(
    0,
    20,
    fields!(
        [253, 4, 0x86],
        [0, 4, 0x85],
        [1, 4, 0x85],
        [2, 2, 0x84],
        [3, 1, 0x02],
        [4, 1, 0x02],
        [5, 4, 0x86],
        [6, 2, 0x84],
        [7, 2, 0x84],
        [13, 1, 0x01],
        [73, 4, 0x86],
        [78, 4, 0x86]
    ),
    &[
        0x00, 0xCA, 0x9A, 0x3B, 0xFE, 0xFF, 0xFF, 0xFF, 0x01, 0x00, 0x00, 0x00, 0x28, 0x0A, 0x65,
        0x5A, 0x39, 0x30, 0x00, 0x00, 0x88, 0x13, 0xFA, 0x00, 0xFB, 0x70, 0x11, 0x01, 0x00, 0xFE,
        0xFF, 0xFF, 0xFF,
    ],
)];

static EMPTY_RECORD: [Row<'static>; 1] = [(
    0,
    20,
    fields!([253, 4, 0x86]),
    &[0x00, 0xCA, 0x9A, 0x3B],
)];

#[test]
fn states_a_sample(rt: HostRuntime) {
    let mut speech = Speech::new();
    spell(&rt, &[], FULL, &mut speech);
    check_messages(&rt, speech.messages(), &FULL_RECORD);
    spell(&rt, &[], Entry::Sample(Sample::new(T)), &mut speech);
    check_messages(&rt, speech.messages(), &EMPTY_RECORD);
}

// Entries after a lap one second after the start, the time offset in the header, and the message.
static CLOSE: [(Entry, Option<u8>, Row<'static>); 4] = [
    (
        sample!(32, heart_rate: 100),
        Some(0),
        (0, 20, fields!([3, 1, 0x02]), &[100]),
    ),
    (
        sample!(33, heart_rate: 100),
        None,
        (
            0,
            20,
            fields!([253, 4, 0x86], [3, 1, 0x02]),
            &[0x21, 0xCA, 0x9A, 0x3B, 100],
        ),
    ),
    (
        sample!(1),
        None,
        (0, 20, fields!([253, 4, 0x86]), &[0x01, 0xCA, 0x9A, 0x3B]),
    ),
    (
        Entry::Pause(T + 1),
        None,
        (
            6,
            21,
            fields!([253, 4, 0x86], [0, 1, 0], [1, 1, 0]),
            &[0x01, 0xCA, 0x9A, 0x3B, 0, 1],
        ),
    ),
];

// A sample with a field leaves out its time up to 31 seconds after the last entry.
#[test]
fn states_a_close_sample_without_its_time(rt: HostRuntime) {
    let mut speech = Speech::new();
    for (entry, offset, row) in &CLOSE {
        let reported = spell_compressed(&rt, &[Entry::Lap(T + 1)], *entry, &mut speech);
        equal(&rt, (*entry, reported), (*entry, *offset));
        check_messages(&rt, speech.messages(), &[*row]);
    }
}

// The entry of the only message of a file.
fn entry_in(file: &File) -> Option<Entry> {
    let mut entry = None;
    for message in file.messages() {
        entry = entry_of(&message);
    }
    entry
}

const LEAST: Entry = sample!(
    1,
    lat: i32::MIN,
    long: -1,
    altitude: 1,
    heart_rate: 2,
    cadence: 3,
    distance: 4,
    speed: 5,
    power: 6,
    temperature: -128,
    enhanced_speed: 0,
    enhanced_altitude: 0xFFFF_FFFE
);

// Rides, and entries after them.
static ENTRIES: [(&[Entry], Entry); 9] = [
    (&[], LEAST),
    (&[], sample!(2, lat: 7, power: 250, enhanced_altitude: 13)),
    (&[], sample!(2)),
    (&[], sample!(2, distance: 9)),
    (&[], sample!(2, enhanced_speed: 3100)),
    (&[], Entry::Lap(T + 3)),
    (&[], Entry::Pause(T + 4)),
    (&[], Entry::Stop(T + 5)),
    (&[Entry::Pause(T)], Entry::Resume(T + 1)),
];

#[test]
fn reads_entries_again(rt: HostRuntime) -> Result<(), PutFault> {
    let mut speech = Speech::new();
    for (entries, entry) in &ENTRIES {
        assert!(rt; entries.len() < 1000);
        let mut file = empty_file(rt.alloc());
        put_after(&rt, &mut file, *entries, *entry, &mut speech)?;
        equal(&rt, entry_in(&file), Some(*entry));
    }
    Ok(())
}

// What a message encodes: a file_id, a sport or an entry.
type Heard = (Option<(u32, u32)>, Option<Sport>, Option<Entry>);

fn heard(message: &Message) -> Heard {
    (file_id_of(message), sport_of(message), entry_of(message))
}

fn check_heard(rt: &impl Abort, file: &File, wanted: &[Heard]) {
    let mut rest = wanted.iter();
    for message in file.messages() {
        equal(rt, Some(&heard(&message)), rest.next());
    }
    equal(rt, rest.next(), None);
}

fn check_start(rt: &impl Abort, alloc: Global, sport: Sport) -> Result<(), PutFault> {
    let start = Start {
        time: T,
        serial: 0,
        sport,
    };
    let mut speech = Speech::new();
    speak_start(&start, &mut speech);
    let wanted = [
        (Some((T, 0)), None, None),
        (None, Some(sport), None),
        (None, None, Some(Entry::Resume(T))),
    ];
    check_heard(rt, &file_of(alloc, &speech)?, &wanted);
    Ok(())
}

#[test]
fn reads_starts_and_ends_again(rt: HostRuntime) -> Result<(), PutFault> {
    for sport in [Sport::Generic, Sport::Running, Sport::Cycling] {
        check_start(&rt, rt.alloc(), sport)?;
    }

    // The lap that closes a recording, the session and the activity encode no entry.
    let mut speech = Speech::new();
    speak_closing(&ride(&rt, &[Entry::Stop(T)]), &mut speech);
    let file = file_of(rt.alloc(), &speech)?;
    check_heard(&rt, &file, &[(None, None, None); 3]);
    Ok(())
}

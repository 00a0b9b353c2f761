// Samples soon after the last entry, which have compressed timestamps. The bytes are those that the FIT protocol gives
// such records.

ghost use Rattle.std.specs.Prelude.{◌≡◌, ◌≤◌, true};
ghost use Rattle.fit_disk.specs.Memory.{memory_story};
ghost use Rattle.fit_recorder.specs.Calls.Recorder.{GoesOn};

use super::stopping::{size_with_definition, some_fields};
use super::{
    ALONE, EMPTY, RUN, Step, TIME, after, begun, begun_as, committed_on, encodes, ends_at,
    entries_reported, has_at, recovers,
};
use crate::equality::equal;
use fit_activity::{Entry, Sample, Start, Summary};
use fit_disk::{Memory, Which};
use fit_grammar::decode_file;
use fit_recorder::{RecFault, Recorder, recover};
use std::alloc::Global;
use std::process::Abort;
use std::test::Fail;

// The records of these entries after those of the start. Asserts that a recovery leaves them as they are, and that its file encodes
// these entries.
fn recorded(rt: &impl Abort, alloc: Global, entries: &[Entry]) -> Result<Vec<u8>, Fail> {
    let mut disk = committed_on(Memory::new(alloc), entries)?;
    let records = records_of(alloc, &disk)?;
    recover(&mut disk)?;
    has_at(rt, &disk, Which::Data, 86, &records);
    encodes(rt, alloc, &disk, entries)?;
    Ok(records)
}

// What a data file has after the records of the start.
fn records_of(alloc: Global, disk: &Memory) -> Result<Vec<u8>, Fail> {
    let records = disk.content(Which::Data).get(86..).unwrap_or(&[]);
    Ok(records.to_vec(alloc)?)
}

// Entries, a place after the records of the start, and the records from there on.
type Case = (&'static [Entry], usize, &'static [u8]);

// Asserts that these entries have these records.
fn has_records(rt: &impl Abort, alloc: Global, case: Case) -> Result<(), Fail> {
    let (entries, place, expected) = case;
    let records = recorded(rt, alloc, entries)?;
    assert_eq!(rt; records.get(place..), Some(expected), "{entries:?}");
    Ok(())
}

static SOON: Case = (
    &[rate!(31, 100), rate!(63, 101), rate!(63, 102)],
    0,
    &[
        0x40, 0x00, 0x00, 0x14, 0x00, 0x01, 0x03, 0x01, 0x02, 0x9F, 0x64, 0x41, 0x00, 0x00, 0x14,
        0x00, 0x02, 0xFD, 0x04, 0x86, 0x03, 0x01, 0x02, 0x01, 0x3F, 0xCA, 0x9A, 0x3B, 0x65, 0x9F,
        0x66,
    ],
);

// Up to 31 seconds after the last entry, and 32.
#[test]
fn a_time_soon_after_is_compressed(rt: HostRuntime) -> Result<(), Fail> {
    has_records(&rt, rt.alloc(), SOON)
}

static LAST_TIMES: [Case; 4] = [
    (
        &[Entry::Lap(TIME + 2), rate!(2, 110)],
        87,
        &[
            0x40, 0x00, 0x00, 0x14, 0x00, 0x01, 0x03, 0x01, 0x02, 0x82, 0x6E,
        ],
    ),
    (
        &[
            Entry::Pause(TIME + 5),
            Entry::Resume(TIME + 10),
            rate!(41, 100),
        ],
        14,
        &[
            0x40, 0x00, 0x00, 0x14, 0x00, 0x01, 0x03, 0x01, 0x02, 0x89, 0x64,
        ],
    ),
    (
        &[
            Entry::Pause(TIME + 5),
            Entry::Resume(TIME + 10),
            rate!(42, 100),
        ],
        14,
        &[
            0x40, 0x00, 0x00, 0x14, 0x00, 0x02, 0xFD, 0x04, 0x86, 0x03, 0x01, 0x02, 0x00, 0x2A,
            0xCA, 0x9A, 0x3B, 0x64,
        ],
    ),
    (
        &[
            Entry::Sample(Sample {
                time: TIME + 1,
                ..EMPTY
            }),
            rate!(2, 100),
        ],
        0,
        &[
            0x40, 0x00, 0x00, 0x14, 0x00, 0x01, 0xFD, 0x04, 0x86, 0x00, 0x01, 0xCA, 0x9A, 0x3B,
            0x41, 0x00, 0x00, 0x14, 0x00, 0x01, 0x03, 0x01, 0x02, 0xA2, 0x64,
        ],
    ),
];

// After a lap, after the end of a pause, and after a sample without fields, which has its own time.
#[test]
fn each_entry_is_a_last_time(rt: HostRuntime) -> Result<(), Fail> {
    for case in LAST_TIMES {
        has_records(&rt, rt.alloc(), case)?;
    }
    Ok(())
}

static AROUND: Case = (
    &[
        rate!(30, 100),
        rate!(31, 100),
        rate!(32, 100),
        rate!(33, 100),
        rate!(64, 100),
        rate!(64, 100),
        rate!(96, 100),
    ],
    0,
    &[
        0x40, 0x00, 0x00, 0x14, 0x00, 0x01, 0x03, 0x01, 0x02, 0x9E, 0x64, 0x9F, 0x64, 0x80, 0x64,
        0x81, 0x64, 0x80, 0x64, 0x80, 0x64, 0x41, 0x00, 0x00, 0x14, 0x00, 0x02, 0xFD, 0x04, 0x86,
        0x03, 0x01, 0x02, 0x01, 0x60, 0xCA, 0x9A, 0x3B, 0x64,
    ],
);

// Around a multiple of 32, and 32 seconds later with the same low five bits.
#[test]
fn an_offset_below_the_last_is_32_seconds_on(rt: HostRuntime) -> Result<(), Fail> {
    has_records(&rt, rt.alloc(), AROUND)
}

// A start, and two samples up to the last time.
static LATE: Start = Start {
    time: 0xFFFF_FFD0,
    ..RUN
};

static LATE_STEPS: [Step; 3] = [
    Step::Hand(
        Entry::Sample(Sample {
            time: 0xFFFF_FFE0,
            heart_rate: Some(100),
            ..EMPTY
        }),
        Ok(()),
    ),
    Step::Hand(
        Entry::Sample(Sample {
            time: 0xFFFF_FFFE,
            heart_rate: Some(101),
            ..EMPTY
        }),
        Ok(()),
    ),
    Step::Commit(Ok(())),
];

static LATE_RECORDS: [u8; 13] = [
    0x40, 0x00, 0x00, 0x14, 0x00, 0x01, 0x03, 0x01, 0x02, 0x80, 0x64, 0x9E, 0x65,
];

static LATE_SUMMARY: Summary = Summary {
    records: 2,
    start: Some(0xFFFF_FFD0),
    elapsed_ms: Some(46_000),
    timer_ms: Some(46_000),
    ..ALONE
};

#[test]
fn the_last_times_are_compressed(rt: HostRuntime) -> Result<(), RecFault> {
    let recorder = begun_as(Memory::new(rt.alloc()), LATE)?;
    let mut disk = after(&rt, recorder, &LATE_STEPS);
    ends_at(&rt, &disk, Which::Data, 86, &LATE_RECORDS);
    recovers(&rt, &mut disk, Ok(LATE_SUMMARY));
    Ok(())
}

// Hands in a sample with the fields of this set. Returns whether it took so many bytes.
fn takes(recorder: &mut Recorder<Memory>, time: u32, set: u8, size: u32) -> Result<bool, RecFault>
    requires { GoesOn true memory_story recorder.old }
    ensures { GoesOn true memory_story recorder.new }
{
    let before = recorder.data_len();
    recorder.hand(&Entry::Sample(some_fields(time, set)))?;
    Ok(recorder.data_len() == before.saturating_add(size))
}

// Seventeen field lists, each with its time and then without it, which is three bytes less in the definition and four in the
// content. No definition is still in force when it is needed again, so they take the four local numbers in turn.
#[test]
fn both_kinds_of_definitions_take_turns(rt: HostRuntime) -> Result<(), Fail> {
    let mut recorder = begun(&rt)?;
    let mut entries = Vec::new(rt.alloc());
    for set in 1..=17 {
        let time = TIME + 64 * u32::from(set);
        let size = size_with_definition(set);
        assert!(rt; takes(&mut recorder, time, set, size)?, "{set}");
        entries.push(Entry::Sample(some_fields(time, set)))?;
        assert!(rt;
            takes(&mut recorder, time + 31, set, size.saturating_sub(7))?,
            "{set}"
        );
        entries.push(Entry::Sample(some_fields(time + 31, set)))?;
    }
    // The thirty-fifth definition takes local number 2. The three before it are in force then too.
    let time = TIME + 64 * 18;
    assert!(rt; takes(&mut recorder, time, 1, size_with_definition(1))?);
    entries.push(Entry::Sample(some_fields(time, 1)))?;
    assert!(rt; takes(&mut recorder, time + 1, 17, 3)?);
    entries.push(Entry::Sample(some_fields(time + 1, 17)))?;
    recorder.commit()?;
    let mut disk = recorder.into_disk();
    let last = [
        0x42, 0x00, 0x00, 0x14, 0x00, 0x02, 0xFD, 0x04, 0x86, 0x03, 0x01, 0x02, 0x02, 0x80, 0xCE,
        0x9A, 0x3B, 0x01, 0xA1, 0x11, 0xEC,
    ];
    assert!(rt; disk.content(Which::Data).ends_with(&last));
    recover(&mut disk)?;
    let file = decode_file(rt.alloc(), disk.content(Which::Data))?;
    equal(&rt, entries_reported(&file, &entries), Some(36));
    Ok(())
}

// One with a compressed timestamp, and two with their times in full, of which the first brings the definition.
static IN_FULL: [u8; 35] = [
    0x40, 0x00, 0x00, 0x14, 0x00, 0x01, 0x03, 0x01, 0x02, 0x81, 0x64, 0x41, 0x00, 0x00, 0x14, 0x00,
    0x02, 0xFD, 0x04, 0x86, 0x03, 0x01, 0x02, 0x01, 0x02, 0xCA, 0x9A, 0x3B, 0x65, 0x01, 0x03, 0xCA,
    0x9A, 0x3B, 0x66,
];

#[test]
fn times_are_in_full_where_that_is_asked_for(rt: HostRuntime) -> Result<(), Fail> {
    let entries = [rate!(1, 100), rate!(2, 101), rate!(3, 102)];
    let mut recorder = begun(&rt)?;
    recorder.hand(&entries[0])?;
    recorder.hand_with(&entries[1], true)?;
    recorder.hand_with(&entries[2], true)?;
    recorder.commit()?;
    let mut disk = recorder.into_disk();
    ends_at(&rt, &disk, Which::Data, 86, &IN_FULL);
    recover(&mut disk)?;
    encodes(&rt, rt.alloc(), &disk, &entries)
}

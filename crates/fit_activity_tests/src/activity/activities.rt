// Which files are activities.

use super::files::{Row, empty_file, put_but, put_rows};
use super::{START, ride};
use crate::equality::equal;
use fit_activity::{ActivityFault, Speech, Summary, check_activity, speak_closing, speak_start};
use fit_base::Arch;
use fit_grammar::{FieldDefinition, File, PutFault, decode_file};
use std::alloc::Global;
use std::process::Abort;
use std::test::Fail;

// The messages of a start at T and of its end, without those of these global numbers.
fn short_ride(rt: &impl Abort, alloc: Global, left_out: &[u16]) -> Result<File, PutFault> {
    let mut file = empty_file(alloc);
    let mut speech = Speech::new();
    speak_start(&START, &mut speech);
    put_but(&mut file, &speech, left_out)?;
    speak_closing(&ride(rt, &[]), &mut speech);
    put_but(&mut file, &speech, left_out)?;
    Ok(file)
}

// The summary of a file with a lap and a session without fields.
const NONE: Summary = Summary {
    records: 0,
    laps: 1,
    sessions: 1,
    start: None,
    elapsed_ms: None,
    timer_ms: None,
    distance_cm: None,
};

#[test]
fn accepts_a_short_ride(rt: HostRuntime) -> Result<(), PutFault> {
    let summary = Summary {
        start: Some(1_000_000_000),
        elapsed_ms: Some(0),
        timer_ms: Some(0),
        ..NONE
    };
    let file = short_ride(&rt, rt.alloc(), &[])?;
    equal(&rt, check_activity(&file.lend()), Ok(summary));
    Ok(())
}

static MISSING: [(&[u16], ActivityFault); 6] = [
    (&[0], ActivityFault::NoFileId),
    (&[0, 19, 18, 34], ActivityFault::NoFileId),
    (&[19, 18, 34], ActivityFault::NoLap),
    (&[18, 34], ActivityFault::NoSession),
    (&[18], ActivityFault::NoSession),
    (&[34], ActivityFault::NoActivity),
];

#[test]
fn reports_what_is_missing(rt: HostRuntime) -> Result<(), PutFault> {
    for (left_out, fault) in &MISSING {
        let file = short_ride(&rt, rt.alloc(), *left_out)?;
        let reported = check_activity(&file.lend());
        equal(&rt, (*left_out, reported), (*left_out, Err(*fault)));
    }
    Ok(())
}

// A file without messages, and one with a file_id message alone.
static KNOWN: [(&[u8], ActivityFault); 2] = [
    (
        &[
            0x0E, 0x10, 0x64, 0x00, 0x00, 0x00, 0x00, 0x00, 0x2E, 0x46, 0x49, 0x54, 0x21, 0xEE,
            0x00, 0x00,
        ],
        ActivityFault::NoFileId,
    ),
    (
        &[
            0x0E, 0x10, 0x64, 0x00, 0x12, 0x00, 0x00, 0x00, 0x2E, 0x46, 0x49, 0x54, 0xA1, 0x3B,
            0x40, 0x00, 0x00, 0x00, 0x00, 0x02, 0x00, 0x01, 0x00, 0x04, 0x04, 0x86, 0x00, 0x04,
            0x00, 0xCA, 0x9A, 0x3B, 0x38, 0x1C,
        ],
        ActivityFault::NoLap,
    ),
];

#[test]
fn judges_known_files(rt: HostRuntime) -> Result<(), Fail> {
    for (bytes, fault) in &KNOWN {
        let file = decode_file(rt.alloc(), *bytes)?;
        let reported = check_activity(&file.lend());
        equal(&rt, (*bytes, reported), (*bytes, Err(*fault)));
    }
    Ok(())
}

const WRONG: Result<Summary, ActivityFault> = Err(ActivityFault::NotActivity);

// The fields and the content of a file_id, and the answer for a file with it and a lap, a session and an activity without fields.
type FileId<'a> = (
    &'a [FieldDefinition],
    &'a [u8],
    Result<Summary, ActivityFault>,
);

// Of two fields with one number the first counts.
static FILE_IDS: [FileId<'static>; 10] = [
    (fields!([0, 1, 0]), &[4], Ok(NONE)),
    (fields!([0, 1, 0]), &[5], WRONG),
    (fields!([0, 1, 0]), &[0xFF], WRONG),
    (fields!([0, 1, 2]), &[4], WRONG),
    (fields!([0, 2, 0]), &[4, 4], WRONG),
    (fields!([1, 1, 0]), &[4], WRONG),
    (&[], &[], WRONG),
    (fields!([0, 1, 0], [0, 1, 0]), &[4, 5], Ok(NONE)),
    (fields!([0, 1, 0], [0, 1, 0]), &[5, 4], WRONG),
    (fields!([0, 1, 2], [0, 1, 0]), &[4, 4], WRONG),
];

static NO_FIELDS: [Row<'static>; 3] = [(0, 19, &[], &[]), (0, 18, &[], &[]), (0, 34, &[], &[])];

#[test]
fn wants_the_type_of_an_activity(rt: HostRuntime) -> Result<(), Fail> {
    for (fields, content, answer) in &FILE_IDS {
        let mut file = empty_file(rt.alloc());
        put_rows(&mut file, Arch::Big, &[(0, 0, *fields, *content)])?;
        put_rows(&mut file, Arch::Little, &NO_FIELDS)?;
        let reported = check_activity(&file.lend());
        equal(
            &rt,
            (*fields, *content, reported),
            (*fields, *content, *answer),
        );
    }
    Ok(())
}

static BEFORE: [Row<'static>; 6] = [
    (0, 0, fields!([0, 1, 0]), &[4]),
    (0, 20, &[], &[]),
    (0, 20, &[], &[]),
    (0, 19, &[], &[]),
    (0, 34, &[], &[]),
    (0, 99, &[], &[]),
];

static SESSION: [Row<'static>; 1] = [(
    1,
    18,
    fields!(
        [2, 4, 0x86],
        [7, 4, 0x86],
        [8, 2, 0x84],
        [8, 4, 0x86],
        [9, 4, 0x86],
        [2, 4, 0x86]
    ),
    &[
        0, 0, 0, 1, 0, 0, 0, 2, 0, 3, 0, 0, 0, 3, 0xFF, 0xFF, 0xFF, 0xFF, 0, 0, 0, 9,
    ],
)];

// The first session counts, and in it the first field with a number.
#[test]
fn reads_the_first_session(rt: HostRuntime) -> Result<(), Fail> {
    let mut file = empty_file(rt.alloc());
    put_rows(&mut file, Arch::Little, &BEFORE)?;
    put_rows(&mut file, Arch::Big, &SESSION)?;
    file.data(1, None, &[0; 22])?;
    let summary = Summary {
        records: 2,
        sessions: 2,
        start: Some(1),
        elapsed_ms: Some(2),
        ..NONE
    };
    equal(&rt, check_activity(&file.lend()), Ok(summary));
    Ok(())
}

#[test]
fn numbers_faults(rt: HostRuntime) {
    let faults = [
        ActivityFault::NoFileId,
        ActivityFault::NotActivity,
        ActivityFault::NoLap,
        ActivityFault::NoSession,
        ActivityFault::NoActivity,
    ];
    for (i, fault) in faults.iter().enumerate() {
        equal(&rt, fault.code() as usize, i + 1);
    }
}

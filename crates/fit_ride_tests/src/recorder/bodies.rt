// Bodies made by hand after a start. A recovery reads them from the device window by window.

ghost use Rattle.std.specs.Prelude.{◌≤◌};

use super::recovering::is_damaged;
use super::{ALONE, EMPTY, START_RECORDS, TIME, heart_rate, holding, reported_in};
use fit_activity::{Entry, Sample, Summary};
use fit_disk::Memory;
use fit_recorder::{RecFault, recover};
use std::alloc::Global;
use std::process::Abort;
use std::test::Fail;

// A record definition with a time and a heart rate, and two records.
static RECORDS: [u8; 24] = [
    0x40, 0, 0, 0x14, 0, 2, 0xFD, 4, 0x86, 3, 1, 2, 0x00, 0x00, 0xCA, 0x9A, 0x3B, 0x64, 0x00, 0x01,
    0xCA, 0x9A, 0x3B, 0x65,
];

// An event with a time, and three records with compressed timestamps.
static COMPRESSED: [u8; 37] = [
    0x46, 0x00, 0x00, 0x15, 0x00, 0x03, 0xFD, 0x04, 0x86, 0x00, 0x01, 0x00, 0x01, 0x01, 0x00, 0x06,
    0x00, 0xCA, 0x9A, 0x3B, 0x00, 0x00, 0x40, 0x00, 0x00, 0x14, 0x00, 0x01, 0x03, 0x01, 0x02, 0x80,
    0x64, 0x9F, 0x65, 0x80, 0x66,
];

// A record with the high byte first.
static HIGH_FIRST: [u8; 14] = [
    0x40, 0, 1, 0, 0x14, 0x01, 0xFD, 4, 0x86, 0x00, 0x3B, 0x9A, 0xCA, 0x00,
];

// A body of two parts.
pub(super) fn body_of(alloc: Global, beginning: &[u8], after: &[u8]) -> Result<Vec<u8>, Fail> {
    let mut body = beginning.to_vec(alloc)?;
    body.extend_from_slice(after)?;
    Ok(body)
}

// Asserts that a recovery of so many bytes of a body, which may be longer, finds these samples and nothing else. The last one is so
// many ms after the start.
pub(super) fn finds(
    rt: &impl Abort,
    alloc: Global,
    body: &[u8],
    len: usize,
    samples: &[Entry],
    elapsed: u32,
) -> Result<(), Fail> {
    let (disk, answer) = recovered(alloc, body, u32::try_from(len)?)?;
    let summary = Summary {
        records: u32::try_from(samples.len())?,
        elapsed_ms: Some(elapsed),
        timer_ms: Some(elapsed),
        ..ALONE
    };
    assert_eq!(rt; answer, Ok(summary), "of {len}");
    let reported = reported_in(alloc, &disk, samples)?;
    assert_eq!(rt; reported, Some(samples.len()), "of {len}");
    Ok(())
}

// The disk after a recovery of so many bytes of a body, and its answer.
fn recovered(
    alloc: Global,
    body: &[u8],
    len: u32,
) -> Result<(Memory, Result<Summary, RecFault>), Fail> {
    let mut disk = holding(alloc, body, len)?;
    let answer = recover(&mut disk);
    Ok((disk, answer))
}

#[test]
fn a_body_is_read_back(rt: HostRuntime) -> Result<(), Fail> {
    let body = body_of(rt.alloc(), &START_RECORDS, &RECORDS)?;
    let samples = [heart_rate(TIME, 100), heart_rate(TIME + 1, 101)];
    finds(&rt, rt.alloc(), &body, 72 + 24, &samples, 1000)
}

// The length after the start, the place of the item that it cuts, and the samples before that.
static BROKEN: [(u32, usize, &[Entry]); 3] = [
    (11, 0, &[]),
    (17, 12, &[]),
    (23, 18, &[rate!(0, 100)]),
];

#[test]
fn an_item_that_passes_the_end_is_broken(rt: HostRuntime) -> Result<(), Fail> {
    let body = body_of(rt.alloc(), &START_RECORDS, &RECORDS)?;
    for (len, front, samples) in BROKEN {
        finds(&rt, rt.alloc(), &body, 72 + front, samples, 0)?;
        assert!(rt; is_damaged(rt.alloc(), &body, 72 + len)?, "of {len}");
    }
    Ok(())
}

// A record definition that nothing uses: its first byte, so many fields of no number, and what is after them.
pub(super) fn definition_of(
    alloc: Global,
    first: u8,
    fields: u8,
    after: &[u8],
) -> Result<Vec<u8>, Fail> {
    let mut definition = [first, 0, 0, 0x14, 0, fields].to_vec(alloc)?;
    for _ in 0..fields {
        definition.extend_from_slice(&[0, 0, 0])?;
    }
    definition.extend_from_slice(after)?;
    Ok(definition)
}

// A record definition with a time, a heart rate and a cadence.
static DEFINITION: [u8; 15] = [0x40, 0, 0, 0x14, 0, 3, 0xFD, 4, 0x86, 3, 1, 2, 4, 1, 2];

// Two hundred samples, a second apart.
fn two_hundred(alloc: Global) -> Result<Vec<Entry>, Fail> {
    let mut samples = Vec::new(alloc);
    for second in 0..200 {
        samples.push(Entry::Sample(Sample {
            time: TIME + second,
            heart_rate: Some(100),
            cadence: Some(80),
            ..EMPTY
        }))?;
    }
    Ok(samples)
}

// Their records, of seven bytes, after their definition.
fn two_hundred_records(alloc: Global) -> Result<Vec<u8>, Fail> {
    let mut records = DEFINITION.to_vec(alloc)?;
    for second in 0..200 {
        let [first, next, third, last] = (TIME + second).to_le_bytes();
        records.extend_from_slice(&[0, first, next, third, last, 100, 80])?;
    }
    Ok(records)
}

// A definition that nothing uses moves the records, so that each of their bytes is at the end of a window.
#[test]
fn items_stand_across_two_windows(rt: HostRuntime) -> Result<(), Fail> {
    let samples = two_hundred(rt.alloc())?;
    let records = two_hundred_records(rt.alloc())?;
    for fields in 0..=6 {
        let items = definition_of(rt.alloc(), 0x43, fields, &records)?;
        let body = body_of(rt.alloc(), &START_RECORDS, &items)?;
        finds(&rt, rt.alloc(), &body, body.len(), &samples, 199_000)?;
    }
    Ok(())
}

// Asserts that this item after the start is passed, or that it is damaged.
pub(super) fn passes(
    rt: &impl Abort,
    alloc: Global,
    item: &[u8],
    is_passed: bool,
) -> Result<(), Fail> {
    let body = body_of(alloc, &START_RECORDS, item)?;
    if is_passed {
        finds(rt, alloc, &body, body.len(), &[], 0)?;
    }
    let len = u32::try_from(body.len())?;
    assert_eq!(rt; is_damaged(alloc, &body, len)?, !is_passed, "of {len}");
    Ok(())
}

// A message with one field of so many bytes, after its definition.
fn message_of(alloc: Global, size: u8) -> Result<Vec<u8>, Fail> {
    let mut message = [0x40, 0, 0, 0x14, 0, 1, 0, size, 0x0D].to_vec(alloc)?;
    for _ in 0..=size {
        message.push(0)?;
    }
    Ok(message)
}

// A message of a recording is far shorter. A definition that nothing uses may have 96 bytes. A message with a field of 95 bytes
// does not belong to a recording.
#[test]
fn an_item_has_at_most_96_bytes(rt: HostRuntime) -> Result<(), Fail> {
    for (fields, is_passed) in [(29, true), (30, true), (31, false)] {
        let definition = definition_of(rt.alloc(), 0x43, fields, &[])?;
        passes(&rt, rt.alloc(), &definition, is_passed)?;
    }
    for size in [95, 96] {
        let message = message_of(rt.alloc(), size)?;
        passes(&rt, rt.alloc(), &message, false)?;
    }
    Ok(())
}

#[test]
fn compressed_timestamps_follow_the_last_time(rt: HostRuntime) -> Result<(), Fail> {
    // The body has the event of the start.
    let body = body_of(rt.alloc(), &START_RECORDS[..50], &COMPRESSED)?;
    let samples = [
        heart_rate(TIME, 100),
        heart_rate(TIME + 31, 101),
        heart_rate(TIME + 32, 102),
    ];
    finds(&rt, rt.alloc(), &body, 50 + 37, &samples, 32_000)
}

#[test]
fn numbers_are_read_high_byte_first(rt: HostRuntime) -> Result<(), Fail> {
    let body = body_of(rt.alloc(), &START_RECORDS, &HIGH_FIRST)?;
    finds(
        &rt,
        rt.alloc(),
        &body,
        72 + 14,
        &[Entry::Sample(Sample::new(TIME))],
        0,
    )
}

// Output that fails, and memory that is refused, while a file is shown or checked.

use crate::equality::equal;
use crate::failing::Failing;
use crate::replays::stopped_ride;
use fit_activity::Summary;
use fit_base::Crc;
use fit_files::{ReportFault, check_bytes, print_summary, show_bytes};
use fit_grammar::{FaultKind, FileFault};
use std::alloc::{AllocError, Global};
use std::process::Abort;
use std::test::Fail;

// A file of one message: file_id with a type and a time.
pub const ONE_MESSAGE: [u8; 34] = [
    0x0E, 0x10, 0x64, 0x00, 0x12, 0x00, 0x00, 0x00, 0x2E, 0x46, 0x49, 0x54, 0xA1, 0x3B, 0x40, 0x00,
    0x00, 0x00, 0x00, 0x02, 0x00, 0x01, 0x00, 0x04, 0x04, 0x86, 0x00, 0x04, 0x00, 0xCA, 0x9A, 0x3B,
    0x38, 0x1C,
];

pub const ONE_MESSAGE_TEXT: &str =
    "header 14 protocol 1.0 profile 100 data 18\n0 file_id type=4 time_created=1000000000\nmessages 1\n";

// Adds the checksum of the bytes.
fn seal(bytes: &mut Vec<u8>) -> Result<(), AllocError> {
    let checksum = Crc::of(bytes.as_slice());
    bytes.extend_from_slice(&checksum.to_le_bytes())
}

// A file with these records and right checksums.
fn framed(alloc: Global, records: &[u8]) -> Result<Vec<u8>, AllocError> {
    let [first, second, third, fourth, ..] = (records.len() as u64).to_le_bytes();
    let front = [
        0x0E, 0x10, 0x64, 0x00, first, second, third, fourth, b'.', b'F', b'I', b'T',
    ];
    let mut bytes = Vec::from_slice(alloc, &front)?;
    seal(&mut bytes)?;
    bytes.extend_from_slice(records)?;
    seal(&mut bytes)?;
    Ok(bytes)
}

// A file of many messages without fields.
fn long_file(alloc: Global) -> Result<Vec<u8>, AllocError> {
    let mut records = [0; 2006];
    records[..6].copy_from_slice(&[0x40, 0, 0, 0xE8, 3, 0]);
    framed(alloc, &records)
}

// Its text, which is several buffers long.
fn long_text(alloc: Global) -> Result<Vec<u8>, AllocError> {
    let front = b"header 14 protocol 1.0 profile 100 data 2006\n";
    let mut text = Vec::from_slice(alloc, front)?;
    for number in 0..2000 {
        let line = format!(in alloc; "{number} message_1000\n")?;
        text.extend_from_slice(line.as_bytes())?;
    }
    text.extend_from_slice(b"messages 2000\n")?;
    Ok(text)
}

// Whether the answer reports the output truly: Ok if all of the text was written, else a fault and a prefix of the text.
fn is_reported(done: Result<(), ReportFault>, text: &[u8], out: &Failing) -> bool {
    match done {
        Ok(()) => out.held.as_slice() == text,
        Err(fault) => fault == ReportFault::Output && text.starts_with(&out.held),
    }
}

// Shows the bytes to an output that refuses one call, or all calls from it on. Asserts that this is reported truly. Nothing is
// written if the first call is refused, and all if there are no more than 19 calls.
fn fail_output(rt: &impl Abort, alloc: Global, bytes: &[u8], text: &[u8], mut out: Failing) {
    let calls = out.calls;
    let done = show_bytes(alloc, bytes, false, &mut out);
    assert!(rt; is_reported(done, text, &out), "{calls}");
    assert!(rt; calls > 0 || out.recovers || out.held.is_empty(), "{calls}");
    assert!(rt;
        calls < 19 || out.recovers || out.held.as_slice() == text,
        "{calls}"
    );
}

// Each call of the output fails in turn.
fn fail_each_call(rt: &impl Abort, alloc: Global, bytes: &[u8], text: &[u8], step: usize) {
    for calls in 0..20 {
        for recovers in [false, true] {
            let mut out = Failing::new(alloc, step, calls);
            out.recovers = recovers;
            fail_output(rt, alloc, bytes, text, out);
        }
    }
}

// For a text of one buffer and of several.
#[test]
fn states_where_output_fails(rt: HostRuntime) -> Result<(), AllocError> {
    let one = ONE_MESSAGE_TEXT.as_bytes();
    fail_each_call(&rt, rt.alloc(), &ONE_MESSAGE, one, 10);
    let bytes = long_file(rt.alloc())?;
    let text = long_text(rt.alloc())?;
    fail_each_call(&rt, rt.alloc(), bytes.as_slice(), text.as_slice(), 5000);
    Ok(())
}

// How many bytes an output takes a call, how many of its flushes come before the one that fails, what is reported, and whether all
// of the text is written. The output takes nothing; or it takes all and its flush fails; or it takes little at a time.
static OUTPUTS: [(usize, usize, Result<(), ReportFault>, bool); 6] = [
    (0, usize::MAX, Err(ReportFault::Output), false),
    (usize::MAX, 0, Err(ReportFault::Output), true),
    (1, usize::MAX, Ok(()), true),
    (3, usize::MAX, Ok(()), true),
    (8191, usize::MAX, Ok(()), true),
    (8193, usize::MAX, Ok(()), true),
];

// Asserts that this is reported of an output, and that it holds these bytes.
fn expect_output(
    rt: &impl Abort,
    alloc: Global,
    bytes: &[u8],
    mut out: Failing,
    reported: Result<(), ReportFault>,
    held: &[u8],
) {
    let step = out.step;
    let done = show_bytes(alloc, bytes, false, &mut out);
    assert_eq!(rt; done, reported, "{step}");
    assert_eq!(rt; out.held.as_slice(), held, "{step}");
}

#[test]
fn states_what_output_does(rt: HostRuntime) -> Result<(), AllocError> {
    let bytes = long_file(rt.alloc())?;
    let text = long_text(rt.alloc())?;
    for (step, flushes, reported, is_whole) in OUTPUTS {
        let mut out = Failing::new(rt.alloc(), step, usize::MAX);
        out.flushes = flushes;
        let held = if is_whole { text.as_slice() } else { &[] };
        expect_output(&rt, rt.alloc(), bytes.as_slice(), out, reported, held);
    }
    Ok(())
}

const CHECKED: &[u8] =
    b"ok records=0 laps=1 sessions=1 start=1000000000 elapsed_ms=1000 timer_ms=1000 distance_cm=-\n";

// Checks the bytes, and asserts that what becomes of this output is reported truly.
fn check_to(rt: &impl Abort, alloc: Global, bytes: &[u8], out: &mut Failing) {
    let calls = out.calls;
    let done = check_bytes(alloc, bytes, out);
    assert!(rt; is_reported(done, CHECKED, out), "{calls}");
}

// Each call of the output fails in turn. What was written is a prefix of the summary line.
#[test]
fn a_check_states_where_its_output_fails(rt: HostRuntime) -> Result<(), Fail> {
    let bytes = stopped_ride(&rt, rt.alloc(), &mut Vec::new(rt.alloc()))?;
    for calls in 0..12 {
        let mut out = Failing::new(rt.alloc(), 10, calls);
        check_to(&rt, rt.alloc(), bytes.as_slice(), &mut out);
        assert!(rt; calls > 0 || out.held.is_empty(), "{calls}");
        assert!(rt; calls < 11 || out.held.as_slice() == CHECKED, "{calls}");
    }
    let mut kept = Failing::new(rt.alloc(), usize::MAX, usize::MAX);
    kept.flushes = 0;
    check_to(&rt, rt.alloc(), bytes.as_slice(), &mut kept);
    Ok(())
}

// The greatest number of a place in a summary line of this length: together the seven numbers have as many digits as that takes.
fn number_at(place: usize, length: usize) -> u32 {
    match length.wrapping_add(place).wrapping_sub(70) / 7 {
        1 => 9,
        2 => 99,
        3 => 999,
        4 => 9_999,
        5 => 99_999,
        6 => 999_999,
        7 => 9_999_999,
        8 => 99_999_999,
        9 => 999_999_999,
        _ => 4_294_967_295,
    }
}

// With all its numbers, a summary line has from 77 to 140 bytes, its end among them. Each of these lengths is printed whole.
#[test]
fn a_summary_line_of_any_length_is_printed(rt: HostRuntime) -> Result<(), Fail> {
    for length in 77..141 {
        let records = number_at(0, length);
        let laps = number_at(1, length);
        let sessions = number_at(2, length);
        let start = number_at(3, length);
        let elapsed_ms = number_at(4, length);
        let timer_ms = number_at(5, length);
        let distance_cm = number_at(6, length);
        let summary = Summary {
            records,
            laps,
            sessions,
            start: Some(start),
            elapsed_ms: Some(elapsed_ms),
            timer_ms: Some(timer_ms),
            distance_cm: Some(distance_cm),
        };
        let line = format!(in rt.alloc();
            "ok records={records} laps={laps} sessions={sessions} start={start} elapsed_ms={elapsed_ms} timer_ms={timer_ms} distance_cm={distance_cm}\n"
        )?;
        assert_eq!(rt; line.len(), length);
        let mut out = Vec::new(rt.alloc());
        let printed = print_summary(summary, &mut out);
        assert_eq!(rt; printed, Ok(()), "{length}");
        assert!(rt; out.as_slice() == line.as_bytes(), "{length}");
    }
    Ok(())
}

// The want of memory at this place.
fn no_memory(place: usize) -> ReportFault {
    ReportFault::File(FileFault {
        kind: FaultKind::Memory,
        place,
    })
}

// Run with each allocation refused in turn: nothing is shown, and want of memory is reported at an item.
#[test]
fn states_that_memory_is_refused(rt: HostRuntime) -> Result<(), AllocError> {
    let mut out = Vec::with_capacity(rt.alloc(), 128)?;
    match show_bytes(rt.alloc(), &ONE_MESSAGE, false, &mut out) {
        Ok(()) => equal(&rt, out.as_slice(), ONE_MESSAGE_TEXT.as_bytes()),
        Err(fault) => {
            assert!(rt; fault == no_memory(14) || fault == no_memory(26));
            equal(&rt, out.len(), 0);
        }
    }
    Ok(())
}

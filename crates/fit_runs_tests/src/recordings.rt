// Recordings from lines over a disk in memory. The answers are from outside.

use crate::equality::equal;
use crate::failing::Failing;
use crate::reading::Pieces;
use crate::replays::records_left;
use fit_disk::{Disk, Memory, Which};
use fit_files::{ReadFault, ReportFault};
use fit_runs::{Rehearsal, Streams, record};
use std::alloc::{AllocError, Global};
use std::io::{self, ErrorKind, Read, Write};
use std::process::Abort;

const START: &[u8] = b"start 1000000000 7 running\n";

// A reader that gives all of these bytes.
fn all_of(lines: &[u8]) -> Pieces<'_> {
    Pieces {
        rest: lines,
        step: usize::MAX,
        calls: usize::MAX,
    }
}

// Records the lines of a reader.
fn record_from<D: Disk, T: Read + Drop, O: Write>(
    alloc: Global,
    disk: D,
    from: T,
    every: Option<u32>,
    out: &mut O,
) -> (D, Result<usize, ReportFault>) {
    record(alloc, disk, every, &mut Streams::new(from, out))
}

// Lines, every how many seconds of the ride they are committed, their answers, and how many of these are not ok.
type Case = (&'static [u8], Option<u32>, &'static str, usize);

// Whether lines have these answers, of which so many are not ok.
fn has_answers(
    alloc: Global,
    lines: &[u8],
    every: Option<u32>,
    text: &str,
    refused: usize,
) -> bool {
    let mut out = Vec::new(alloc);
    let disk = Memory::new(alloc);
    let (_, recorded) = record_from(alloc, disk, all_of(lines), every, &mut out);
    recorded == Ok(refused) && out.as_slice() == text.as_bytes()
}

// Asserts that the lines of each case have its answers.
fn expect_answers(rt: &impl Abort, alloc: Global, cases: &[Case]) {
    for (lines, every, text, refused) in cases {
        let is_answered = has_answers(alloc, lines, *every, text, *refused);
        assert!(rt; is_answered, "{lines:?} {every:?}");
    }
}

static LINES: [Case; 3] = [
    (
        b"start 1000000000 7 running\n\n# a comment\nsample 1000000001 hr=90\ncommit\nstop 1000000002\n",
        None,
        "1 start: ok\n4 sample: ok\n5 commit: ok\n6 stop: ok\n",
        0,
    ),
    (
        b"sample 1000000001\ncommit\n",
        None,
        "1 sample: NoRecorder\n2 commit: NoRecorder\n",
        2,
    ),
    (b"", None, "", 0),
];

#[test]
fn each_line_is_answered(rt: HostRuntime) {
    expect_answers(&rt, rt.alloc(), &LINES);
}

// A reader whose first calls are interrupted, so many of them, and which then gives one byte a call.
#[derive(Drop)]
struct Lagging<'a> {
    waits: usize,
    bytes: Pieces<'a>,
}

impl Read for Lagging<'_> {
    fn read(&mut self, buf: &mut [u8]) -> io::Result<usize> {
        if self.waits > 0 {
            self.waits -= 1;
            return Err(ErrorKind::Interrupted.into());
        }
        self.bytes.read(buf)
    }
}

// A ride of one sample with so many comments before it.
fn commented_ride(alloc: Global, comments: u32) -> Result<Vec<u8>, AllocError> {
    let mut lines = Vec::from_slice(alloc, START)?;
    for _ in 0..comments {
        lines.extend_from_slice(b"#\n")?;
    }
    lines.extend_from_slice(b"sample 1000000001\n")?;
    Ok(lines)
}

// Asserts that the lines of a reader have these answers, and that a recovery finds so many records.
fn expect_recorded(
    rt: &impl Abort,
    alloc: Global,
    from: impl Read + Drop,
    recorded: Result<usize, ReportFault>,
    text: &str,
    records: u32,
) {
    let mut out = Vec::new(alloc);
    let (disk, outcome) = record_from(alloc, Memory::new(alloc), from, None, &mut out);
    equal(rt, outcome, recorded);
    equal(rt, out.as_slice(), text.as_bytes());
    equal(rt, records_left(disk), Some(records));
}

// However many calls of its reader give nothing or little, a recording goes on.
#[test]
fn a_reader_that_lags_ends_no_recording(rt: HostRuntime) -> Result<(), AllocError> {
    let lines = commented_ride(rt.alloc(), 35_000)?;
    let bytes = Pieces {
        rest: lines.as_slice(),
        step: 1,
        calls: usize::MAX,
    };
    let from = Lagging {
        waits: 70_000,
        bytes,
    };
    let text = "1 start: ok\n35002 sample: ok\n35003 commit: ok\n";
    expect_recorded(&rt, rt.alloc(), from, Ok(0), text, 1);
    Ok(())
}

const ONE_SAMPLE_ANSWERS: &str = "1 start: ok\n2 sample: ok\n3 commit: ok\n";

static ENDS: [Case; 3] = [
    (
        b"start 1000000000 7 running\nsample 1000000001\n",
        None,
        ONE_SAMPLE_ANSWERS,
        0,
    ),
    (
        b"start 1000000000 7 running\r\nsample 1000000001\r\n",
        None,
        ONE_SAMPLE_ANSWERS,
        0,
    ),
    (
        b"start 1000000000 7 running\nsample 1000000001",
        None,
        ONE_SAMPLE_ANSWERS,
        0,
    ),
];

// A line may end with a carriage return, and the last one without a newline.
#[test]
fn lines_end_in_three_ways(rt: HostRuntime) {
    expect_answers(&rt, rt.alloc(), &ENDS);
}

const FAULTY: &[u8] =
    b"start 1000000000 7 running\nsample 1000000001 hr=9x\nsample 1000000002 hr=90\npower\nlap\n";

// The same lines without the faulty ones.
const PLAIN: &[u8] = b"start 1000000000 7 running\nsample 1000000002 hr=90\n";

// The disk that a recording of these lines leaves.
fn disk_of(alloc: Global, lines: &[u8]) -> Memory {
    let mut out = Vec::new(alloc);
    let disk = Memory::new(alloc);
    let (disk, _) = record_from(alloc, disk, all_of(lines), None, &mut out);
    disk
}

// The files are those of the same lines without the faulty ones.
#[test]
fn a_faulty_line_changes_nothing(rt: HostRuntime) {
    let text =
        "1 start: ok\n2 line: BadNumber\n3 sample: ok\n4 line: OnlySimulate\n5 line: MissingWord\n6 commit: ok\n";
    assert!(rt; has_answers(rt.alloc(), FAULTY, None, text, 3));
    let disk = disk_of(rt.alloc(), FAULTY);
    let same = disk_of(rt.alloc(), PLAIN);
    for which in [Which::Data, Which::Journal] {
        equal(&rt, disk.content(which), same.content(which));
    }
}

// A comment of so many bytes after a start, and this at its end.
fn with_comment(alloc: Global, len: usize, end: &[u8]) -> Result<Vec<u8>, AllocError> {
    let mut lines = Vec::from_slice(alloc, START)?;
    for _ in 0..len {
        lines.push(b'#')?;
    }
    lines.extend_from_slice(end)?;
    Ok(lines)
}

const TOO_LONG: &str = "1 start: ok\n2 line: TooLong\n3 commit: ok\n";

const NOT_TOO_LONG: &str = "1 start: ok\n3 commit: ok\n";

// The length of a line, its end, its answers, and how many of these are not ok.
static LONG_LINES: [(usize, &[u8], &str, usize); 6] = [
    (4097, b"", TOO_LONG, 1),
    (4096, b"", NOT_TOO_LONG, 0),
    (4097, b"\n", TOO_LONG, 1),
    (4096, b"\n", NOT_TOO_LONG, 0),
    (4097, b"\r\n", TOO_LONG, 1),
    (4096, b"\r\n", NOT_TOO_LONG, 0),
];

// A line of 4,097 bytes is too long, and one of 4,096 is not. A carriage return that ends it does not count.
#[test]
fn a_line_that_is_too_long(rt: HostRuntime) -> Result<(), AllocError> {
    for (len, end, text, refused) in LONG_LINES {
        let lines = with_comment(rt.alloc(), len, end)?;
        let is_answered = has_answers(rt.alloc(), lines.as_slice(), None, text, refused);
        assert!(rt; is_answered, "{len} {end:?}");
    }
    Ok(())
}

const COMMITTED: &[u8] = b"start 1000000000 7 running
sample 1000000004
sample 1000000005
lap 1000000009
sample 1000000003
commit
sample 1000000013
sample 1000000014
stop 1000000030
";

const EVERY_FIVE: &str =
    "1 start: ok\n2 sample: ok\n3 sample: ok\n3 commit: ok\n4 lap: ok\n5 sample: Refused(Time)\n6 commit: ok\n7 sample: ok\n8 sample: ok\n8 commit: ok\n9 stop: ok\n";

const NEVER: &str =
    "1 start: ok\n2 sample: ok\n3 sample: ok\n4 lap: ok\n5 sample: Refused(Time)\n6 commit: ok\n7 sample: ok\n8 sample: ok\n9 stop: ok\n";

static COMMITS: [Case; 3] = [
    (COMMITTED, Some(5), EVERY_FIVE, 1),
    (COMMITTED, None, NEVER, 1),
    (COMMITTED, Some(u32::MAX), NEVER, 1),
];

// Every five seconds of the ride: the start, a commit of its own and one by a line are counted from. A refused entry does not count.
#[test]
fn commits_by_itself(rt: HostRuntime) {
    expect_answers(&rt, rt.alloc(), &COMMITS);
}

const REOPENED: &[u8] = b"start 1000000000 7 running
restart
reopen
sample 1000000020
sample 1000000024
sample 1000000025
";

static COMMITS_AFTER_A_REOPENING: [Case; 2] = [
    (
        REOPENED,
        Some(5),
        "1 start: ok\n2 restart: ok\n3 reopen: ok\n4 sample: ok\n4 commit: ok\n5 sample: ok\n6 sample: ok\n6 commit: ok\n7 commit: ok\n",
        0,
    ),
    (
        REOPENED,
        Some(0),
        "1 start: ok\n2 restart: ok\n3 reopen: ok\n4 sample: ok\n4 commit: ok\n5 sample: ok\n5 commit: ok\n6 sample: ok\n6 commit: ok\n7 commit: ok\n",
        0,
    ),
];

// After a reopening the last entry of the ride is counted from, here its start. With 0 seconds each entry is committed.
#[test]
fn commits_by_itself_after_a_reopening(rt: HostRuntime) {
    expect_answers(&rt, rt.alloc(), &COMMITS_AFTER_A_REOPENING);
}

const TWO_SAMPLES: &[u8] = b"start 1000000000 7 running\nsample 1000000001\nsample 1000000002\n";

const TWO_SAMPLES_ANSWERS: &str =
    "1 start: ok\n2 sample: ok\n2 commit: ok\n3 sample: ok\n3 commit: ok\n4 commit: ok\n";

// How many bytes of the answers are printed if this one is refused, and how many records are left.
static KEPT: [(usize, u32); 7] = [(0, 0), (12, 0), (25, 1), (38, 1), (51, 2), (64, 2), (77, 2)];

// Whether the recording ends if this answer is refused, with so many bytes printed and so many records left.
fn ends(alloc: Global, answered: usize, printed: usize, records: u32) -> bool {
    let mut out = Failing::new(alloc, usize::MAX, answered);
    let disk = Memory::new(alloc);
    let (disk, recorded) = record_from(alloc, disk, all_of(TWO_SAMPLES), Some(1), &mut out);
    let outcome = if printed == TWO_SAMPLES_ANSWERS.len() {
        Ok(0)
    } else {
        Err(ReportFault::Output)
    };
    recorded == outcome
        && TWO_SAMPLES_ANSWERS.as_bytes().get(..printed) == Some(out.held.as_slice())
        && records_left(disk) == Some(records)
}

// Each answer is refused in turn. The command that it answers was done, and none after it: no commit that is due, and none at the end.
#[test]
fn a_recording_ends_where_its_output_fails(rt: HostRuntime) {
    for (answered, (printed, records)) in KEPT.into_iter().enumerate() {
        assert!(rt; ends(rt.alloc(), answered, printed, records), "{answered}");
    }
}

// The lines that had ended are done and committed, and a line that had not ended is not done.
#[test]
fn a_recording_ends_where_its_input_fails(rt: HostRuntime) {
    let from = Pieces {
        rest: TWO_SAMPLES,
        step: 31,
        calls: 2,
    };
    let failed = Err(ReportFault::Input(ReadFault::Failed));
    let text = ONE_SAMPLE_ANSWERS;
    expect_recorded(&rt, rt.alloc(), from, failed, text, 1);
}

// How many bytes are told before the read of this byte of two samples, or of the end.
fn told_before(byte: usize) -> usize {
    match byte {
        0..27 => 0,
        27..45 => 12,
        45..63 => 38,
        _ => 64,
    }
}

// The first line has 27 bytes, and the others have 18 each. Whatever a line has for answers is told before the next byte is read.
#[test]
fn each_line_is_answered_before_the_next_read(rt: HostRuntime) {
    let from = Pieces {
        rest: TWO_SAMPLES,
        step: 1,
        calls: usize::MAX,
    };
    let mut out = Vec::new(rt.alloc());
    let mut rehearsal = Rehearsal::new(rt.alloc(), from, &mut out);
    let (_, recorded) = record(rt.alloc(), Memory::new(rt.alloc()), Some(1), &mut rehearsal);
    equal(&rt, recorded, Ok(0));
    equal(&rt, rehearsal.told_before_reads.len(), 64);
    for (byte, told) in rehearsal.told_before_reads.iter().enumerate() {
        assert_eq!(rt; *told, told_before(byte), "{byte}");
    }
}

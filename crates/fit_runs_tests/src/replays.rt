// Scripts that are played over a disk in memory. The lines are from outside.

use crate::equality::equal;
use crate::failing::Failing;
use crate::reading::Pieces;
use fit_disk::{Memory, Which};
use fit_files::{ReportFault, check_bytes};
use fit_recorder::recover;
use fit_runs::{Streams, play, record};
use fit_scripts::{ReplayFault, ScriptFaultKind, read_script};
use std::alloc::{AllocError, Global};
use std::process::Abort;
use std::test::Fail;

// Five events. The third and the fifth each commit one more record.
const TWO_COMMITS: &str =
    "start 1000000000 7 running\nsample 1000000001\ncommit\nsample 1000000002\ncommit\n";

const TWO_COMMITS_ANSWERS: &str =
    "1 start: ok\n2 sample: ok\n3 commit: ok\n4 sample: ok\n5 commit: ok\n";

// Plays a script over an empty disk, and asserts that so many of its answers are not ok. Returns a file of the disk.
fn played(
    rt: &impl Abort,
    alloc: Global,
    script: &[u8],
    checked: bool,
    refused: usize,
    which: Which,
    out: &mut Vec<u8>,
) -> Result<Vec<u8>, Fail> {
    let events = read_script(alloc, script)?;
    let (disk, played) = play(Memory::new(alloc), events.as_slice(), checked, out);
    equal(rt, played, Ok(refused));
    Ok(Vec::from_slice(alloc, disk.content(which))?)
}

// The file of a ride that was started and stopped.
pub fn stopped_ride(rt: &impl Abort, alloc: Global, out: &mut Vec<u8>) -> Result<Vec<u8>, Fail> {
    let script = b"start 1000000000 7 running\nstop 1000000001\n";
    played(rt, alloc, script, false, 0, Which::Data, out)
}

#[test]
fn the_example_of_the_crate(rt: HostRuntime) -> Result<(), Fail> {
    let mut out = Vec::new(rt.alloc());
    let file = stopped_ride(&rt, rt.alloc(), &mut out)?;
    check_bytes(rt.alloc(), file.as_slice(), &mut out)?;
    let text =
        "1 start: ok\n2 stop: ok\nok records=0 laps=1 sessions=1 start=1000000000 elapsed_ms=1000 timer_ms=1000 distance_cm=-\n";
    equal(&rt, out.as_slice(), text.as_bytes());
    Ok(())
}

// The journal of a start alone; its 72 bytes have the checksum D7860579.
static CHECKED_START: [u8; 56] = [
    0x46, 0x52, 0x4A, 0x44, 0, 0, 0, 0, 0xA5, 0x48, 0, 0, 0, 0x79, 0x05, 0x86, 0xD7, 0, 0, 0, 0, 0,
    0, 0, 0, 0, 0, 0, 0, 0, 0, 0, 0, 0, 0, 0, 0, 0, 0, 0, 0, 0, 0, 0, 0, 0, 0, 0, 0, 0, 0, 0, 0, 0,
    0, 0,
];

static PLAIN_START: [u8; 24] = [
    0x46, 0x52, 0x4A, 0x32, 0, 0, 0, 0, 0xA5, 0x48, 0, 0, 0, 0, 0, 0, 0, 0, 0, 0, 0, 0, 0, 0,
];

const START: &[u8] = b"start 1000000000 7 running\n";

// The journal after a start, which is asked for as checked or plain.
fn journal_of_start(rt: &impl Abort, alloc: Global, checked: bool) -> Result<Vec<u8>, Fail> {
    let mut out = Vec::new(alloc);
    played(rt, alloc, START, checked, 0, Which::Journal, &mut out)
}

// The journal after a start that was recorded from its line.
fn recorded_start(alloc: Global) -> Result<Vec<u8>, AllocError> {
    let mut out = Vec::new(alloc);
    let line = Pieces {
        rest: START,
        step: usize::MAX,
        calls: usize::MAX,
    };
    let (disk, _) = record(
        alloc,
        Memory::new(alloc),
        None,
        &mut Streams::new(line, &mut out),
    );
    Vec::from_slice(alloc, disk.content(Which::Journal))
}

// A recording by lines is checked.
#[test]
fn a_start_makes_the_journal_that_is_asked_for(rt: HostRuntime) -> Result<(), Fail> {
    let plain = journal_of_start(&rt, rt.alloc(), false)?;
    equal(&rt, plain.as_slice(), PLAIN_START.as_slice());
    let checked = journal_of_start(&rt, rt.alloc(), true)?;
    equal(&rt, checked.as_slice(), CHECKED_START.as_slice());
    let recorded = recorded_start(rt.alloc())?;
    equal(&rt, recorded.get(..4), Some(&CHECKED_START[..4]));
    Ok(())
}

#[test]
fn a_stopped_ride_is_erased_and_another_begins(rt: HostRuntime) -> Result<(), Fail> {
    let script =
        b"start 1000000000 7 running\nstop 1000000001\nstart 1000000002 7 running\nerase\nrestart\nstart 1000000002 7 cycling\nsample 1000000003\nrecover\n";
    let text =
        "1 start: ok\n2 stop: ok\n3 start: NotEmpty\n4 erase: ok\n5 restart: ok\n6 start: ok\n7 sample: ok\n8 recover: ok records=0 laps=1 sessions=1 start=1000000002 elapsed_ms=0 timer_ms=0 distance_cm=-\n";
    let mut out = Vec::new(rt.alloc());
    played(&rt, rt.alloc(), script, false, 1, Which::Data, &mut out)?;
    equal(&rt, out.as_slice(), text.as_bytes());
    Ok(())
}

// The number of records that a recovery after a power cut finds.
pub fn records_left(mut disk: Memory) -> Option<u32> {
    disk.cycle(&[]);
    match recover(&mut disk) {
        Ok(summary) => Some(summary.records),
        Err(_) => None,
    }
}

// How many calls of an output come before the ones that fail, and how many flushes before the one that fails; how many bytes are
// then printed, and how many records a recovery finds. The event whose line fails was run.
static OUTPUTS: [(usize, usize, usize, u32); 8] = [
    (0, usize::MAX, 0, 0),
    (1, usize::MAX, 12, 0),
    (2, usize::MAX, 25, 1),
    (3, usize::MAX, 38, 1),
    (4, usize::MAX, 51, 2),
    (5, usize::MAX, 64, 2),
    (usize::MAX, 0, 12, 0),
    // Only the flush of the third line fails; later ones would succeed.
    (usize::MAX, 2, 38, 1),
];

// Whether a play to this output reports what became of it, prints so many bytes of the answers, and leaves so many records.
fn keeps(
    alloc: Global,
    calls: usize,
    flushes: usize,
    printed: usize,
    records: u32,
) -> Result<bool, Fail> {
    let mut out = Failing::new(alloc, usize::MAX, calls);
    out.flushes = flushes;
    let events = read_script(alloc, TWO_COMMITS.as_bytes())?;
    let (disk, played) = play(Memory::new(alloc), events.as_slice(), false, &mut out);
    let outcome = if printed == TWO_COMMITS_ANSWERS.len() {
        Ok(0)
    } else {
        Err(ReportFault::Output)
    };
    Ok(
        played == outcome
            && TWO_COMMITS_ANSWERS.as_bytes().get(..printed) == Some(out.held.as_slice())
            && records_left(disk) == Some(records),
    )
}

// No further event is run, and what was answered is kept.
#[test]
fn a_replay_ends_where_its_output_fails(rt: HostRuntime) -> Result<(), Fail> {
    for (calls, flushes, printed, records) in OUTPUTS {
        let is_kept = keeps(rt.alloc(), calls, flushes, printed, records)?;
        assert!(rt; is_kept, "{calls} {flushes}");
    }
    Ok(())
}

// The number of a fault and its line, or 0 for bytes that are not text.
static NOT_REPLAYED: [(&[u8], u8, usize); 6] = [
    (b"lap 5000000000\n\xFF", 1, 0),
    (b"lap 5000000000\n", 2, 1),
    (b"cut 1\nlap\n", 2, 2),
    (b"cut 1\n", 3, 1),
    (b"start 1000000000 7 running\nfail 1\npower\n", 3, 2),
    (b"\npower\n", 3, 2),
];

fn fault_of(alloc: Global, bytes: &[u8]) -> Option<(u8, usize)> {
    let fault = read_script(alloc, bytes).err()?;
    let line = match fault {
        ReplayFault::NoText => 0,
        ReplayFault::Script(fault) => fault.line,
        ReplayFault::OnlySimulate(line) => line,
    };
    Some((fault.code(), line))
}

// The bytes are not text, a line is not one of a script, or an event can only be simulated. The first of these faults is reported.
#[test]
fn a_script_that_is_not_replayed(rt: HostRuntime) {
    for (bytes, code, line) in NOT_REPLAYED {
        let fault = fault_of(rt.alloc(), bytes);
        assert_eq!(rt; fault, Some((code, line)), "{bytes:?}");
    }
}

// Run with each allocation refused in turn: want of memory is reported at a line, or the device of the disk failed.
#[test]
fn a_replay_states_that_memory_is_refused(rt: HostRuntime) -> Result<(), AllocError> {
    let mut out = Vec::with_capacity(rt.alloc(), 256)?;
    match read_script(rt.alloc(), TWO_COMMITS.as_bytes()) {
        Ok(events) => {
            let (disk, played) = play(Memory::new(rt.alloc()), events.as_slice(), false, &mut out);
            let all = out.as_slice() == TWO_COMMITS_ANSWERS.as_bytes();
            assert!(rt; disk.spent() != (played == Ok(0)) && disk.spent() != all);
        }
        Err(ReplayFault::Script(fault)) => {
            equal(&rt, fault.kind, ScriptFaultKind::Memory);
            equal(&rt, out.len(), 0);
        }
        Err(_) => assert!(rt; false),
    }
    Ok(())
}

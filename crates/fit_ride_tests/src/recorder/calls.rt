// The exact calls of the device, in their order. Their number is shown by power cuts at the last of them and at the call after it,
// and their order by what the files hold if one of them fails.

ghost use Rattle.std.specs.Prelude.{◌≤◌};

use super::resuming::{committed_in_a_row, resumed};
use super::{
    RUN, SHORT, SHORT_RIDE, TIME, after_a_cut, begun, committed, copy_of, ends_at, one, play,
    recovers, started,
};
use crate::equality::equal;
use fit_activity::{Entry, Summary};
use fit_disk::{Disk, Memory, Which};
use fit_recorder::{RecFault, erase, recover};
use std::process::Abort;
use std::test::Fail;

// The header while a ride is recorded: it counts no records.
static NO_RECORDS: [u8; 14] = [
    0x0E, 0x10, 0x64, 0x00, 0x00, 0x00, 0x00, 0x00, 0x2E, 0x46, 0x49, 0x54, 0x21, 0xEE,
];

// A recovery of the short ride after its commit: two syncs, the size, the journal with its two slots, one read of the body, and
// the four calls that close the file.
const RECOVERY: u32 = 2 + 1 + 1 + 1 + 4;

// The answer of a recovery whose power goes at the k-th call.
fn recovery_until(mut disk: Memory, k: u32) -> Result<Summary, RecFault>
    requires { 1 ≤ k }
{
    disk.cut_at(k);
    recover(&mut disk)
}

#[test]
fn a_recovery_makes_just_its_calls(rt: HostRuntime) -> Result<(), RecFault> {
    let cut = recovery_until(committed(&rt)?, RECOVERY);
    equal(&rt, cut, Err(RecFault::Device));
    let mut disk = committed(&rt)?;
    disk.cut_at(RECOVERY + 1);
    recovers(&rt, &mut disk, Ok(SHORT_RIDE));
    equal(&rt, disk.size(Which::Data).is_ok(), false);
    Ok(())
}

// A row of slots takes two more reads of the journal: its first 64 slots, and the last open slot.
const RECOVERY_OVER_A_ROW: u32 = RECOVERY + 2;

#[test]
fn a_recovery_over_a_row_makes_just_its_calls(rt: HostRuntime) -> Result<(), Fail> {
    for (k, expected) in [
        (RECOVERY_OVER_A_ROW, Err(RecFault::Device)),
        (RECOVERY_OVER_A_ROW + 1, Ok(SHORT_RIDE)),
    ] {
        let answer = recovery_until(committed_in_a_row(&rt, 2)?, k);
        equal(&rt, answer, expected);
    }
    Ok(())
}

// The calls of a recovery up to the read of the body, then the cut and its sync.
#[test]
fn a_resume_over_a_row_makes_just_its_calls(rt: HostRuntime) -> Result<(), Fail> {
    let calls = RECOVERY_OVER_A_ROW - 2;
    for (k, expected) in [(calls, Err(RecFault::Device)), (calls + 1, Ok(174))] {
        let mut disk = committed_in_a_row(&rt, 2)?;
        disk.cut_at(k);
        let len = match resumed(disk) {
            Ok(recorder) => Ok(recorder.data_len()),
            Err(fault) => Err(fault),
        };
        equal(&rt, len, expected);
    }
    Ok(())
}

#[test]
fn a_start_that_finds_a_ride_makes_two_calls(rt: HostRuntime) -> Result<(), RecFault> {
    for (k, expected) in [(2, RecFault::Device), (3, RecFault::NotEmpty)] {
        let mut disk = committed(&rt)?;
        disk.cut_at(k);
        equal(&rt, started(disk, RUN).1, Some(expected));
    }
    Ok(())
}

// The answer of an erasing whose power goes at the k-th call, and the disk after it.
fn erased_until(mut disk: Memory, k: u32) -> (Memory, Result<(), RecFault>)
    requires { 1 ≤ k }
{
    disk.cut_at(k);
    let answer = erase(&mut disk);
    (after_a_cut(disk), answer)
}

// If the data file is empty the journal is left as it is, with its mark.
#[test]
fn an_erasing_of_nothing_makes_three_calls(rt: HostRuntime) -> Result<(), RecFault> {
    for (k, expected) in [(3, Err(RecFault::Device)), (4, Ok(()))] {
        let mut disk = Memory::new(rt.alloc());
        disk.write(Which::Journal, 0, &[0x46, 0x52])?;
        let (disk, answer) = erased_until(disk, k);
        equal(&rt, answer, expected);
        ends_at(&rt, &disk, Which::Journal, 0, &[0x46, 0x52]);
    }
    Ok(())
}

// A recovery begins with two syncs. If it finds nothing, it ends with the size of an empty data file, or with the head of a journal
// that has none. If the head shows damage, it ends there too.
// Files, the call at which the power goes, and the fault.
static EARLY_ENDS: [(&[u8], &[u8], u32, RecFault); 6] = [
    (b"", b"FRJ1", 3, RecFault::Device),
    (b"", b"FRJ1", 4, RecFault::NothingRecorded),
    (b"data", b"FRJ1", 4, RecFault::Device),
    (b"data", b"FRJ1", 5, RecFault::NothingRecorded),
    (b"data", b"FRJ1....", 4, RecFault::Device),
    (b"data", b"FRJ1....", 5, RecFault::Damaged),
];

#[test]
fn a_recovery_that_finds_no_ride_ends_early(rt: HostRuntime) -> Result<(), RecFault> {
    for (data, journal, k, fault) in EARLY_ENDS {
        let answer = recovery_until(copy_of(rt.alloc(), data, journal)?, k);
        assert_eq!(rt; answer, Err(fault), "{data:?}, {journal:?}, call {k}");
    }
    Ok(())
}

// A start syncs the data file before it reads the size: if that fails, a power cut leaves what was written.
#[test]
fn a_start_keeps_the_data_first(rt: HostRuntime) -> Result<(), RecFault> {
    let mut disk = Memory::new(rt.alloc());
    disk.write(Which::Data, 0, b"data")?;
    disk.fail_at(2);
    let (disk, fault) = started(disk, RUN);
    equal(&rt, fault, Some(RecFault::Device));
    let disk = after_a_cut(disk);
    equal(&rt, disk.content(Which::Data), b"data".as_slice());
    Ok(())
}

// If the journal has no mark nothing is written there, and it is synced once more.
#[test]
fn an_erasing_without_a_mark_makes_seven_calls(rt: HostRuntime) -> Result<(), RecFault> {
    for (k, expected) in [(7, Err(RecFault::Device)), (8, Ok(()))] {
        let (_, answer) = erased_until(copy_of(rt.alloc(), b"data", b"")?, k);
        equal(&rt, answer, expected);
    }
    Ok(())
}

// A recovery syncs the data file before the journal: if the second sync fails, a power cut leaves the data as reads gave it.
#[test]
fn a_recovery_keeps_the_data_first(rt: HostRuntime) -> Result<(), Fail> {
    let mut disk = begun(&rt)?.into_disk();
    disk.write(Which::Data, 0, b"data")?;
    let data = disk.content(Which::Data).to_vec(rt.alloc())?;
    let disk = recovered_without_its_second_call(&rt, disk);
    equal(&rt, disk.content(Which::Data), data.as_slice());
    Ok(())
}

// The disk after a recovery whose second call fails, and a power cut.
fn recovered_without_its_second_call(rt: &impl Abort, mut disk: Memory) -> Memory {
    disk.fail_at(2);
    recovers(rt, &mut disk, Err(RecFault::Device));
    disk.cycle(&[0xFF; 400]);
    disk
}

// The size of the data file after a call that failed, if its header still counts no records.
fn unfinished(fault: Result<(), RecFault>, disk: &Memory) -> Option<usize> {
    let content = disk.content(Which::Data);
    if fault == Err(RecFault::Device) && content.starts_with(&NO_RECORDS) {
        Some(content.len())
    } else {
        None
    }
}

// The same if this call of a stop of the short ride fails.
fn stopped_until(rt: &HostRuntime, k: u32) -> Result<Option<usize>, RecFault>
    requires { 1 ≤ k }
{
    let mut recorder = begun(rt)?;
    play(&mut recorder, &SHORT)?;
    recorder.fail_at(k);
    let fault = one(&mut recorder, &Entry::Stop(TIME + 2));
    Ok(unfinished(fault, &recorder.into_disk()))
}

// The closing messages are written after the body before the header counts them: by the seventh and the eighth call of a stop.
#[test]
fn a_stop_writes_its_header_last(rt: HostRuntime) -> Result<(), RecFault> {
    let before = stopped_until(&rt, 7)?;
    assert!(rt; before.is_some() && before < stopped_until(&rt, 8)?);
    Ok(())
}

// The same if this call of a recovery of that ride fails.
fn recovered_until(rt: &HostRuntime, k: u32) -> Result<Option<usize>, RecFault>
    requires { 1 ≤ k }
{
    let mut disk = committed(rt)?;
    disk.fail_at(k);
    let fault = match recover(&mut disk) {
        Ok(_) => Ok(()),
        Err(fault) => Err(fault),
    };
    Ok(unfinished(fault, &disk))
}

// And by the last four calls of a recovery. The third of them writes the header.
#[test]
fn a_recovery_writes_its_header_last(rt: HostRuntime) -> Result<(), RecFault> {
    let before = recovered_until(&rt, RECOVERY - 3)?;
    let closed = recovered_until(&rt, RECOVERY - 2)?;
    assert!(rt; before.is_some() && before < closed);
    equal(&rt, recovered_until(&rt, RECOVERY - 1)?, closed);
    equal(&rt, recovered_until(&rt, RECOVERY)?, None);
    Ok(())
}

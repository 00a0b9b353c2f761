// Rides that are erased, also with a power cut or a failure at each call of the device.

ghost use Rattle.std.specs.Prelude.{◌≤◌};

use super::power_cuts::Trouble;
use super::{
    ALONE, SHORT, SHORT_RIDE, STOPPED, TIME, begun_on, committed, copy_of, encodes, recovers,
    reported_in, ride, ride_on, start_cut_at, sums_up,
};
use crate::equality::equal;
use fit_activity::{Entry, Summary};
use fit_disk::{Memory, Which};
use fit_recorder::{RecFault, erase, recover};
use std::alloc::Global;
use std::process::Abort;
use std::test::Fail;

// How many calls of the device an erasing of a ride makes. The fifth overwrites the journal's mark, the sixth syncs that, and the
// seventh cuts the data file.
const CALLS: u32 = 8;

static ANEW: [Entry; 2] = [rate!(5, 90), Entry::Stop(TIME + 9)];

static ANEW_SUMMARY: Summary = Summary {
    records: 1,
    elapsed_ms: Some(9000),
    timer_ms: Some(9000),
    ..ALONE
};

// Records a ride of one sample on a disk that was erased. The finished file encodes that ride alone.
fn rides_anew(rt: &impl Abort, alloc: Global, disk: Memory) -> Result<(), Fail> {
    equal(rt, disk.content(Which::Data).len(), 0);
    let disk = ride_on(disk, &ANEW)?;
    sums_up(rt, alloc, &disk, ANEW_SUMMARY)?;
    encodes(rt, alloc, &disk, &ANEW)
}

#[test]
fn an_erased_ride_makes_room_for_another(rt: HostRuntime) -> Result<(), Fail> {
    let mut disk = ride(&rt, &STOPPED)?;
    equal(&rt, disk.content(Which::Data).len(), 427);
    disk.cut_at(CALLS + 1);
    erases(&rt, &mut disk, Ok(()));
    equal(&rt, disk.content(Which::Data).len(), 0);
    disk.cycle(&[0xFF; 16]);
    recovers(&rt, &mut disk, Err(RecFault::NothingRecorded));
    rides_anew(&rt, rt.alloc(), disk)
}

// Asserts that an erasing of a disk gives this answer.
fn erases(rt: &impl Abort, disk: &mut Memory, answer: Result<(), RecFault>) {
    equal(rt, erase(disk), answer);
}

#[test]
fn a_start_that_was_cut_off_is_erased(rt: HostRuntime) -> Result<(), RecFault> {
    let (mut disk, fault) = start_cut_at(&rt, 5);
    equal(&rt, fault, Some(RecFault::Device));
    disk.cycle(&[]);
    recovers(&rt, &mut disk, Err(RecFault::NothingRecorded));
    erases(&rt, &mut disk, Ok(()));
    equal(&rt, begun_on(disk)?.data_len(), 72);
    Ok(())
}

#[test]
fn an_erasing_done_again_does_not_bring_the_ride_back(rt: HostRuntime) -> Result<(), RecFault> {
    let mut disk = committed(&rt)?;
    disk.fail_at(7);
    erases(&rt, &mut disk, Err(RecFault::Device));
    // The mark is gone, so the fifth call is the sync of the journal.
    disk.cut_at(5);
    erases(&rt, &mut disk, Err(RecFault::Device));
    disk.cycle(&[0, 0, 0, 0, 0, 0, 0, 0, 0x46]);
    equal(&rt, disk.content(Which::Data).len(), 188);
    recovers(&rt, &mut disk, Err(RecFault::NothingRecorded));
    Ok(())
}

// An erasing that does not complete.
#[derive(Clone, Copy, Debug)]
struct Attempt {
    // What happens to the k-th call.
    trouble: Trouble,
    k: u32,
    // What a power cut leaves: the length of the data file, and the value of each byte that is not sure.
    len: u32,
    byte: u8,
}

// Whether the ride is still found: before its mark is overwritten, and after that if the mark is left.
fn is_left(attempt: Attempt) -> bool {
    let is_marked = match attempt.trouble {
        Trouble::Cut => attempt.byte == 0x46,
        Trouble::Failure => attempt.k == 5,
    };
    attempt.k <= 4 || (attempt.k <= 6 && is_marked)
}

// A copy of a ride after the erasing.
fn erased(
    rt: &impl Abort,
    alloc: Global,
    ride: &Memory,
    attempt: Attempt,
) -> Result<Memory, RecFault>
    requires { 1 ≤ attempt.k }
{
    let mut disk = copy_of(
        alloc,
        ride.content(Which::Data),
        ride.content(Which::Journal),
    )?;
    attempt.trouble.befall(&mut disk, attempt.k);
    assert_eq!(rt; erase(&mut disk), Err(RecFault::Device), "{attempt:?}");
    if matches!(attempt.trouble, Trouble::Cut) {
        let mut choices = [attempt.byte; 600];
        choices[..4].copy_from_slice(&attempt.len.to_le_bytes());
        disk.cycle(&choices);
    }
    Ok(disk)
}

// Recovers what the erasing left: the ride, or nothing.
fn finds_it_or_nothing(
    rt: &impl Abort,
    alloc: Global,
    disk: &mut Memory,
    attempt: Attempt,
) -> Result<(), Fail> {
    let answer = recover(disk);
    if is_left(attempt) {
        assert_eq!(rt; answer, Ok(SHORT_RIDE), "{attempt:?}");
        let reported = reported_in(alloc, disk, &SHORT)?;
        assert_eq!(rt; reported, Some(4), "{attempt:?}");
    } else {
        assert_eq!(rt; answer, Err(RecFault::NothingRecorded), "{attempt:?}");
    }
    Ok(())
}

// Erases a ride, and then what is left of it: once directly, and once with a recovery between the two.
fn erases_again(rt: &impl Abort, alloc: Global, ride: &Memory, attempt: Attempt) -> Result<(), Fail>
    requires { 1 ≤ attempt.k }
{
    for is_recovered in [false, true] {
        let mut disk = erased(rt, alloc, ride, attempt)?;
        if is_recovered {
            finds_it_or_nothing(rt, alloc, &mut disk, attempt)?;
        }
        assert_eq!(rt; erase(&mut disk), Ok(()), "{attempt:?}");
        rides_anew(rt, alloc, disk)?;
    }
    Ok(())
}

// Tries trouble at each call of an erasing.
fn try_each_call(
    rt: &impl Abort,
    alloc: Global,
    ride: &Memory,
    trouble: Trouble,
    len: u32,
    byte: u8,
) -> Result<(), Fail> {
    for k in 1..=CALLS {
        let attempt = Attempt {
            trouble,
            k,
            len,
            byte,
        };
        erases_again(rt, alloc, ride, attempt)?;
    }
    Ok(())
}

// Tries a failure and power cuts at each call of the erasing of a ride.
fn leaves_it_or_nothing(rt: &impl Abort, alloc: Global, ride: &Memory) -> Result<(), Fail> {
    try_each_call(rt, alloc, ride, Trouble::Failure, 0, 0)?;
    // The two files have 188 and 427 bytes.
    for len in [0, 50, 188, 427] {
        for byte in [0x00, 0x46, 0x47, 0xA5, 0xFF] {
            try_each_call(rt, alloc, ride, Trouble::Cut, len, byte)?;
        }
    }
    Ok(())
}

#[test]
fn an_erasing_that_ends_early_leaves_a_committed_ride_or_nothing(
    rt: HostRuntime,
) -> Result<(), Fail> {
    let disk = committed(&rt)?;
    equal(&rt, disk.content(Which::Data).len(), 188);
    leaves_it_or_nothing(&rt, rt.alloc(), &disk)
}

#[test]
fn an_erasing_that_ends_early_leaves_a_stopped_ride_or_nothing(
    rt: HostRuntime,
) -> Result<(), Fail> {
    let disk = ride(&rt, &STOPPED)?;
    equal(&rt, disk.content(Which::Data).len(), 427);
    leaves_it_or_nothing(&rt, rt.alloc(), &disk)
}

// Reads, writes, cuts and syncs of the memory disk, and calls that fail by schedule or for want of memory.

use super::Call::{Cut, Read, Size, Sync, Write};
use super::Step::{Buffer, Cycle, Gives, Holds, Passes};
use super::{Call, Step, cycle, follow, follow_afresh, make, sync};
use crate::equality::equal;
use fit_disk::Which::{Data, Journal};
use fit_disk::{DeviceError, Memory};
use std::process::Abort;

static READS: [Step; 18] = [
    Gives(Size(Data), 0),
    Gives(Read(Data, 0, 6), 0),
    Passes(Write(Data, 0, b"abcd")),
    Gives(Size(Data), 4),
    Gives(Read(Data, 0, 6), 4),
    Buffer(*b"abcd.."),
    Gives(Read(Data, 2, 1), 1),
    Buffer(*b"cbcd.."),
    Gives(Read(Data, 4, 6), 0),
    Gives(Read(Data, 5, 6), 0),
    Gives(Read(Data, u64::MAX, 6), 0),
    // A write over the end, one at the end, and one of no bytes.
    Passes(Write(Data, 2, b"XYZ")),
    Passes(Write(Data, 5, b"!")),
    Passes(Write(Data, 6, b"")),
    Passes(Write(Data, 0, b"A")),
    Holds(Data, b"AbXYZ!"),
    Gives(Read(Data, 3, 6), 3),
    Holds(Journal, b""),
];

#[test]
fn reads_what_was_written(rt: HostRuntime) -> Result<(), DeviceError> {
    follow_afresh(&rt, rt.alloc(), &READS)
}

static CUTS: [Step; 13] = [
    Passes(Write(Journal, 0, b"abcdef")),
    Passes(Write(Data, 0, b"1")),
    Passes(Cut(Journal, 6)),
    Passes(Sync(Journal)),
    Passes(Cut(Journal, 2)),
    Holds(Journal, b"ab"),
    Passes(Write(Journal, 2, b"Z")),
    Passes(Sync(Journal)),
    Passes(Sync(Data)),
    Holds(Journal, b"abZ"),
    Passes(Cut(Journal, 0)),
    Holds(Journal, b""),
    Holds(Data, b"1"),
];

#[test]
fn cuts_and_syncs_change_no_other_byte(rt: HostRuntime) -> Result<(), DeviceError> {
    let mut disk = Memory::new(rt.alloc());
    follow(&rt, &mut disk, &CUTS)?;
    equal(&rt, disk.spent(), false);
    Ok(())
}

// A run of twelve calls.
static CALLS: [Call; 12] = [
    Write(Data, 0, b"ab"),
    Write(Journal, 0, b"cd"),
    Sync(Data),
    Sync(Journal),
    Size(Data),
    Read(Data, 0, 4),
    Write(Data, 2, b"ef"),
    Cut(Data, 3),
    Sync(Data),
    Size(Journal),
    Read(Journal, 0, 4),
    Cut(Journal, 1),
];

// Makes the twelve calls, and asserts that just those from the first to the last of these numbers fail, counted from 1.
fn expect_failures(rt: &impl Abort, disk: &mut Memory, first: u32, last: u32) {
    let mut number = 0_u32;
    for call in &CALLS {
        number = number.saturating_add(1);
        let failed = make(disk, &mut [0; 6], call).is_err();
        let expected = first <= number && number <= last;
        equal(rt, (first, number, failed), (first, number, expected));
    }
}

#[test]
fn just_the_call_that_was_scheduled_fails(rt: HostRuntime) {
    for scheduled in 1..=13 {
        let mut disk = Memory::new(rt.alloc());
        disk.fail_at(scheduled);
        expect_failures(&rt, &mut disk, scheduled, scheduled);
        equal(&rt, disk.spent(), false);
    }
}

#[test]
fn each_call_fails_once_the_power_is_gone(rt: HostRuntime) {
    for scheduled in 1..=13 {
        let mut disk = Memory::new(rt.alloc());
        disk.cut_at(scheduled);
        expect_failures(&rt, &mut disk, scheduled, 12);
        cycle(&rt, &mut disk, &[], 0);
        // No call fails any more.
        expect_failures(&rt, &mut disk, 13, 12);
    }
}

// Makes a sync for each of these, and asserts that just those fail that have to.
fn expect_syncs(rt: &impl Abort, disk: &mut Memory, fails: &[bool]) {
    for expected in fails {
        equal(rt, sync(disk, Data).is_err(), *expected);
    }
}

#[test]
fn a_schedule_replaces_the_pending_one(rt: HostRuntime) {
    let mut disk = Memory::new(rt.alloc());
    disk.fail_at(1);
    disk.fail_at(3);
    expect_syncs(&rt, &mut disk, &[false, false, true, false]);
    // Both kinds at one call: it fails, and from then on the power is gone.
    disk.fail_at(2);
    disk.cut_at(2);
    expect_syncs(&rt, &mut disk, &[false, true, true]);
    disk.cut_at(9);
    expect_syncs(&rt, &mut disk, &[true]);
    // A power cut drops both schedules.
    cycle(&rt, &mut disk, &[], 0);
    disk.fail_at(1);
    disk.cut_at(2);
    cycle(&rt, &mut disk, &[], 0);
    expect_syncs(&rt, &mut disk, &[false; 4]);
}

fn lengths(disk: &Memory) -> [usize; 2] {
    [disk.content(Data).len(), disk.content(Journal).len()]
}

// What the twelve calls leave, and a power cut after them.
static AFTER_CALLS: [Step; 5] = [
    Holds(Data, b"abe"),
    Holds(Journal, b"c"),
    Cycle(&[0, 0, 0, 0, 1, 0, 0, 0, 0xA5], 9),
    Holds(Data, b"abe"),
    Holds(Journal, b"c\xA5"),
];

// Run with each allocation refused in turn: the call that needed it fails and changes nothing, the disk reports
// that it is spent, and the same call succeeds when it is made again.
#[test]
fn a_refused_growth_changes_nothing(rt: HostRuntime) -> Result<(), DeviceError> {
    let mut disk = Memory::new(rt.alloc());
    let mut was_refused = false;
    for call in &CALLS {
        let before = lengths(&disk);
        if make(&mut disk, &mut [0; 6], call).is_err() {
            // No call was refused before. Now one was.
            equal(
                &rt,
                (was_refused, disk.spent(), lengths(&disk)),
                (false, true, before),
            );
            was_refused = true;
            make(&mut disk, &mut [0; 6], call)?;
        }
    }
    equal(&rt, disk.spent(), was_refused);
    follow(&rt, &mut disk, &AFTER_CALLS)
}

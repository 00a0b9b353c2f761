// Rides whose journal states the checksum of what is committed. The checksums are those that zlib computes of the bytes of the
// description.

ghost use Rattle.std.specs.Prelude.{true, IfOk};
ghost use Rattle.fit_disk.specs.Memory.{memory_story};
ghost use Rattle.fit_recorder.specs.Calls.Recorder.{GoesOn};

use super::resuming::{gone_on, refusal_of};
use super::{
    RUN, SHORT, START_RECORDS, Step, TIME, after_a_cut, copy_of, ends_at, has, heart_rate,
    is_found_damaged, play,
};
use crate::equality::equal;
use fit_activity::Entry;
use fit_disk::{Memory, Which};
use fit_recorder::{RecFault, Recorder};
use std::alloc::Global;
use std::test::Fail;

// A recording with that start and a journal with checksums, on a fresh disk.
fn begun_checked(alloc: Global) -> Result<Recorder<Memory>, RecFault>
    ensures { IfOk result (λ recorder. GoesOn true memory_story recorder) }
{
    match Recorder::start_with(Memory::new(alloc), RUN, true) {
        Ok(recorder) => Ok(recorder),
        Err((_, fault)) => Err(fault),
    }
}

// The disk after these entries and a commit.
fn committed(alloc: Global, entries: &[Entry]) -> Result<Memory, RecFault> {
    let mut recorder = begun_checked(alloc)?;
    play(&mut recorder, entries)?;
    recorder.commit()?;
    Ok(recorder.into_disk())
}

// The journal of a start.
static CHECKED_JOURNAL: [u8; 56] = [
    0x46, 0x52, 0x4A, 0x44, 0, 0, 0, 0, 0xA5, 0x48, 0, 0, 0, 0x79, 0x05, 0x86, 0xD7, 0, 0, 0, 0, 0,
    0, 0, 0, 0, 0, 0, 0, 0, 0, 0, 0, 0, 0, 0, 0, 0, 0, 0, 0, 0, 0, 0, 0, 0, 0, 0, 0, 0, 0, 0, 0, 0,
    0, 0,
];

#[test]
fn a_checked_start_is_committed(rt: HostRuntime) -> Result<(), RecFault> {
    let disk = begun_checked(rt.alloc())?.into_disk();
    ends_at(&rt, &disk, Which::Data, 14, &START_RECORDS);
    ends_at(&rt, &disk, Which::Journal, 0, &CHECKED_JOURNAL);
    Ok(())
}

// The slots of the short ride.
static SLOTS: [u8; 48] = [
    0xA5, 0x48, 0, 0, 0, 0x79, 0x05, 0x86, 0xD7, 0, 0, 0, 0, 0, 0, 0, 0xA5, 0xAE, 0, 0, 0, 0xAC,
    0x2D, 0xD0, 0xFE, 0, 0, 0, 0, 0, 0, 0, 0, 0, 0, 0, 0, 0, 0, 0, 0, 0, 0, 0, 0, 0, 0, 0,
];

#[test]
fn a_commit_states_the_checksum_of_the_body(rt: HostRuntime) -> Result<(), RecFault> {
    let disk = committed(rt.alloc(), &SHORT)?;
    ends_at(&rt, &disk, Which::Journal, 8, &SLOTS);
    Ok(())
}

// Whether a recovery and a resume of files with this content answer `Damaged` and change nothing.
fn is_damaged(alloc: Global, data: &[u8], journal: &[u8]) -> Result<bool, Fail> {
    let mut disk = copy_of(alloc, data, journal)?;
    let is_recovery = is_found_damaged(&mut disk) && has(&disk, data, journal);
    let refusal = refusal_of(alloc, copy_of(alloc, data, journal)?)?;
    Ok(is_recovery && refusal == Some(RecFault::Damaged))
}

static BITS: [u8; 8] = [1, 2, 4, 8, 16, 32, 64, 128];

// This content with one bit of it changed.
fn changed(alloc: Global, content: &[u8], place: usize, bit: u8) -> Result<Vec<u8>, Fail> {
    let mut bytes = content.to_vec(alloc)?;
    if let Some(byte) = bytes.get_mut(place) {
        *byte ^= bit;
    }
    Ok(bytes)
}

#[test]
fn a_changed_bit_of_the_body_is_damaged(rt: HostRuntime) -> Result<(), Fail> {
    let alloc = rt.alloc();
    let disk = committed(alloc, &SHORT)?;
    let (data, journal) = (disk.content(Which::Data), disk.content(Which::Journal));
    equal(&rt, data.len(), 188);
    for place in 14..188 {
        for bit in BITS {
            let other = changed(alloc, data, place, bit)?;
            assert!(rt;
                is_damaged(alloc, &other, journal)?,
                "byte {place}, bit {bit}"
            );
        }
    }
    // The room for the header is no part of it.
    let other = changed(alloc, data, 13, 1)?;
    equal(&rt, is_damaged(alloc, &other, journal)?, false);
    Ok(())
}

// The journal of the short ride with this checksum. The checksum of the earlier commit is another one, and the bytes after the
// checksums are not zeros: they do not count.
fn journal_with(checksum: [u8; 4]) -> [u8; 56] {
    let [first, second, third, fourth] = checksum;
    [
        0x46, 0x52, 0x4A, 0x44, 0, 0, 0, 0, 0xA5, 0x48, 0, 0, 0, 0x7F, 0x62, 0xFF, 0xFF, 0xFF, 0,
        0, 0, 0, 0, 0, 0xA5, 0xAE, 0, 0, 0, first, second, third, fourth, 0xFF, 0, 0, 0, 0, 0, 0,
        0, 0, 0, 0, 0, 0, 0, 0, 0, 0, 0, 0, 0, 0, 0, 0,
    ]
}

// Checksums, and whether they are damaged.
static CHECKSUMS: [([u8; 4], bool); 7] = [
    ([0xAC, 0x2D, 0xD0, 0xFE], false),
    ([0x00, 0x2D, 0xD0, 0xFE], true),
    ([0xAC, 0x00, 0xD0, 0xFE], true),
    ([0xAC, 0x2D, 0x00, 0xFE], true),
    ([0xAC, 0x2D, 0xD0, 0x00], true),
    ([0xFE, 0xD0, 0x2D, 0xAC], true), // The high byte first.
    ([0xE3, 0x89, 0x00, 0x00], true), // The checksum of a FIT file.
];

#[test]
fn a_changed_checksum_is_damaged(rt: HostRuntime) -> Result<(), Fail> {
    let disk = committed(rt.alloc(), &SHORT)?;
    let data = disk.content(Which::Data);
    for (checksum, is_wrong) in CHECKSUMS {
        let answer = is_damaged(rt.alloc(), data, &journal_with(checksum))?;
        assert_eq!(rt; answer, is_wrong, "checksum {checksum:?}");
    }
    for bit in BITS {
        let low = is_damaged(
            rt.alloc(),
            data,
            &journal_with([0xAC ^ bit, 0x2D, 0xD0, 0xFE]),
        )?;
        let high = is_damaged(
            rt.alloc(),
            data,
            &journal_with([0xAC, 0x2D, 0xD0, 0xFE ^ bit]),
        )?;
        assert_eq!(rt; (low, high), (true, true), "bit {bit}");
    }
    Ok(())
}

// Whether the data file of a ride with this heart rate and the journal of a ride with that one are damaged.
fn are_damaged(alloc: Global, rate: u8, other: u8) -> Result<bool, Fail> {
    let one = committed(alloc, &[heart_rate(TIME, rate)])?;
    let two = committed(alloc, &[heart_rate(TIME, other)])?;
    is_damaged(alloc, one.content(Which::Data), two.content(Which::Journal))
}

#[test]
fn files_of_two_rides_are_damaged(rt: HostRuntime) -> Result<(), Fail> {
    equal(&rt, are_damaged(rt.alloc(), 100, 101)?, true);
    equal(&rt, are_damaged(rt.alloc(), 100, 100)?, false);
    Ok(())
}

static RESUMED_STEPS: [Step; 2] = [Step::Hand(rate!(2, 110), Ok(())), Step::Commit(Ok(()))];

static RESUMED_JOURNAL: [u8; 56] = [
    0x46, 0x52, 0x4A, 0x44, 0, 0, 0, 0, 0, 0x48, 0, 0, 0, 0x79, 0x05, 0x86, 0xD7, 0, 0, 0, 0, 0, 0,
    0, 0xA5, 0x53, 0, 0, 0, 0x54, 0x11, 0x77, 0x79, 0, 0, 0, 0, 0, 0, 0, 0xA5, 0x5E, 0, 0, 0, 0xED,
    0x5B, 0x93, 0xF6, 0, 0, 0, 0, 0, 0, 0,
];

// A heart rate after the resume has its definition again, so the body has 94 bytes.
#[test]
fn a_resumed_ride_keeps_its_checksums(rt: HostRuntime) -> Result<(), RecFault> {
    let disk = after_a_cut(committed(rt.alloc(), &[heart_rate(TIME, 100)])?);
    let disk = gone_on(&rt, disk, &RESUMED_STEPS)?;
    ends_at(&rt, &disk, Which::Journal, 0, &RESUMED_JOURNAL);
    Ok(())
}

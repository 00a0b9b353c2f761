// Rides that are saved from the two files of their recording.

use crate::equality::equal;
use fit_disk::{Memory, Which};
use fit_files::plain_input;
use fit_grammar::encode_file;
use fit_recorder::RecFault;
use fit_recordings::{SaveFault, repair, save_ride};
use fit_runs::play;
use fit_scripts::read_script;
use std::alloc::Global;
use std::process::Abort;
use std::test::Fail;

// A ride that was cut off after its commit, with a sample 31 s after the first and one 32 s after that.
const RIDE: &[u8] =
    b"start 1000000000 7 running\nsample 1000000000 hr=100\nsample 1000000031 hr=101\nsample 1000000063 hr=102\ncommit\nsample 1000000064 hr=103\n";

// The disk that the ride leaves.
fn disk_of(alloc: Global) -> Result<Memory, Fail> {
    let events = read_script(alloc, RIDE)?;
    let mut out = Vec::new(alloc);
    let (disk, _) = play(Memory::new(alloc), events.as_slice(), false, &mut out);
    Ok(disk)
}

// The file that is saved from the two files of a disk. Asserts that it has three records.
fn saved_from(rt: &impl Abort, alloc: Global, disk: &Memory) -> Result<Vec<u8>, Fail> {
    let data_bytes = disk.content(Which::Data).to_vec(alloc)?;
    let journal_bytes = disk.content(Which::Journal).to_vec(alloc)?;
    let saved = save_ride(alloc, data_bytes, journal_bytes).expect(rt, "a ride");
    equal(rt, saved.summary.records, 3);
    let mut made = Vec::new(alloc);
    assert!(rt; encode_file(&saved.file, &mut made).is_ok());
    Ok(made)
}

// The plain form of the repaired ride.
fn plain_repair(rt: &impl Abort, alloc: Global, mut disk: Memory) -> Vec<u8> {
    let mut out = Vec::new(alloc);
    assert!(rt; repair(&mut disk, &mut out).is_ok());
    let mut from = disk.content(Which::Data);
    let plain = plain_input(alloc, &mut from, 4096).expect(rt, "a file");
    let mut made = Vec::new(alloc);
    assert!(rt; encode_file(&plain, &mut made).is_ok());
    made
}

#[test]
fn a_saved_ride_is_the_plain_form_of_a_repaired_one(rt: HostRuntime) -> Result<(), Fail> {
    let disk = disk_of(rt.alloc())?;
    let saved = saved_from(&rt, rt.alloc(), &disk)?;
    let plain = plain_repair(&rt, rt.alloc(), disk);
    equal(&rt, saved.as_slice(), plain.as_slice());
    Ok(())
}

// The bytes of two files, and why no ride is saved from them. The journal of the second has a form that is not read.
static NO_RIDES: [(&[u8], &[u8], RecFault); 2] = [
    (&[], &[], RecFault::NothingRecorded),
    (
        &[0x0E; 20],
        &[0x46, 0x52, 0x4A, 0x33, 0, 0, 0, 0],
        RecFault::Damaged,
    ),
];

#[test]
fn what_is_no_ride_is_not_saved(rt: HostRuntime) -> Result<(), Fail> {
    for (data_bytes, journal_bytes, fault) in NO_RIDES {
        let data_bytes = data_bytes.to_vec(rt.alloc())?;
        let journal_bytes = journal_bytes.to_vec(rt.alloc())?;
        let saved = save_ride(rt.alloc(), data_bytes, journal_bytes);
        equal(&rt, saved.err(), Some(SaveFault::Recorder(fault)));
    }
    Ok(())
}

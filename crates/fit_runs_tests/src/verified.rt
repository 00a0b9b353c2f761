// Rides over the real files of a folder, with each answer checked. The lines are from outside.

use crate::equality::equal;
use fit_base::Crc;
use fit_disk::{Files, Shadow};
use fit_recorder::RecFault;
use fit_recordings::{FileSums, RepairFault, repair, repair_and_read};
use fit_runs::play;
use fit_scripts::read_script;
use std::fs;
use std::process::Abort;
use std::test::Fail;

const RIDE: &[u8] =
    b"start 1000000000 7 running\nsample 1000000001\ncommit\nreopen\nsample 1000000002\ncommit\nsample 1000000003\n";

const ANSWERS: &str =
    "1 start: ok\n2 sample: ok\n3 commit: ok\n4 reopen: ok\n5 sample: ok\n6 commit: ok\n7 sample: ok\n";

const LINE: &str =
    "ok records=2 laps=1 sessions=1 start=1000000000 elapsed_ms=2000 timer_ms=2000 distance_cm=-\n";

// Plays the ride over a new folder. Its files stay open.
fn ridden(rt: &HostRuntime, folder: &str, out: &mut Vec<u8>) -> Result<Files<Shadow>, Fail> {
    let _ = fs::remove_dir_all(rt, folder);
    fs::create_dir(rt, folder)?;
    let files = Files::open(rt, folder, Shadow::holding(rt.alloc(), b"", b"")?)?;
    let events = read_script(rt.alloc(), RIDE)?;
    let (files, _) = play(files, events.as_slice(), false, out);
    Ok(files)
}

// The folder of the ride that is repaired, and of the one whose file is changed, with the files that are read and written.
const REPAIRED: &str = "fit_scripts_test_verified";

const REPAIRED_JOURNAL: &str = "fit_scripts_test_verified/activity.frj";

const CHANGED: &str = "fit_scripts_test_changed";

const CHANGED_DATA: &str = "fit_scripts_test_changed/activity.fit";

#[test]
fn a_ride_and_its_repair_agree_with_their_shadow(rt: HostRuntime) -> Result<(), Fail> {
    let mut out = Vec::new(rt.alloc());
    let mut files = ridden(&rt, REPAIRED, &mut out)?;
    equal(&rt, out.as_slice(), ANSWERS.as_bytes());
    out.clear();
    let repaired = repair_and_read(&mut files, &mut out);
    equal(&rt, out.as_slice(), LINE.as_bytes());
    // The last two bytes of a finished file make its checksum 0.
    let in_journal = Crc::of(fs::read(&rt, REPAIRED_JOURNAL)?.as_slice());
    let sums = FileSums {
        in_data: 0,
        in_journal,
    };
    equal(&rt, repaired, Ok(sums));
    drop(files);
    fs::remove_dir_all(&rt, REPAIRED)?;
    Ok(())
}

// Changes a byte of the data file. Returns the bytes before.
fn change(rt: &HostRuntime) -> Result<Vec<u8>, Fail> {
    let bytes = fs::read(rt, CHANGED_DATA)?;
    let mut changed = bytes.as_slice().to_vec(rt.alloc())?;
    if let Some(byte) = changed.get_mut(40) {
        *byte ^= 1;
    }
    fs::write(rt, CHANGED_DATA, changed.as_slice())?;
    Ok(bytes)
}

// Asserts that no repair of the files prints anything.
fn expect_no_repair(rt: &impl Abort, files: &mut Files<Shadow>, out: &mut Vec<u8>) {
    let device = RepairFault::Recorder(RecFault::Device);
    equal(rt, repair(files, out), Err(device));
    equal(rt, repair_and_read(files, out), Err(device));
    equal(rt, out.len(), 0);
}

// Once the file is as before, what was committed is repaired.
#[test]
fn a_file_that_another_program_changed_is_not_repaired(rt: HostRuntime) -> Result<(), Fail> {
    let mut out = Vec::new(rt.alloc());
    let mut files = ridden(&rt, CHANGED, &mut out)?;
    out.clear();
    let bytes = change(&rt)?;
    expect_no_repair(&rt, &mut files, &mut out);
    fs::write(&rt, CHANGED_DATA, bytes.as_slice())?;
    assert!(rt; repair_and_read(&mut files, &mut out).is_ok());
    equal(&rt, out.as_slice(), LINE.as_bytes());
    drop(files);
    fs::remove_dir_all(&rt, CHANGED)?;
    Ok(())
}

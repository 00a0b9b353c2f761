// Entries that wait in the page, and the calls that write it. Power cuts at one call or another show how many calls there are.

ghost use Rattle.std.specs.Prelude.{◌≡◌, ◌≤◌, IfOk, true, false};
ghost use Rattle.fit_activity.specs.Rides.Recording.{Added, is_stop};
ghost use Rattle.fit_disk.specs.Memory.{memory_story};
ghost use Rattle.fit_recorder.specs.Calls.Recorder.{GoesOn};

use super::recovering::recovers_the_start;
use super::{TIME, begun, heart_rate};
use crate::equality::equal;
use fit_activity::Entry;
use fit_disk::{Memory, Which};
use fit_recorder::{RecFault, Recorder};
use std::process::Abort;
use std::test::Fail;

// The bytes of the first sample with its definition, and of the sample after it.
static SAMPLES: [u8; 24] = [
    0x40, 0x00, 0x00, 0x14, 0x00, 0x02, 0xFD, 0x04, 0x86, 0x03, 0x01, 0x02, 0x00, 0x20, 0xCA, 0x9A,
    0x3B, 0x64, 0x00, 0x40, 0xCA, 0x9A, 0x3B, 0x64,
];

// The sample of this number, 32 seconds after the entry before it.
fn spaced(number: u32) -> Entry
    ensures { is_stop (Added result) ≡ false }
{
    heart_rate(TIME.saturating_add(number.saturating_mul(32)), 100)
}

// Hands in the samples from number 1 to this one. Returns the number of the last that was taken.
fn hand_until(recorder: &mut Recorder<Memory>, last: u32) -> u32
    requires { GoesOn true memory_story recorder.old }
    ensures { GoesOn true memory_story recorder.new }
{
    let mut taken = 0;
    for number in 1..=last {
        if recorder.hand(&spaced(number)).is_ok() {
            taken = number;
        }
    }
    taken
}

// A recording, with a commit after its start or without.
fn begun_with(rt: &HostRuntime, has_commit: bool) -> Result<Recorder<Memory>, RecFault>
    ensures { IfOk result (λ recorder. GoesOn true memory_story recorder) }
{
    let mut recorder = begun(rt)?;
    if !has_commit {
        return Ok(recorder);
    }
    recorder.commit()?;
    Ok(recorder)
}

// How many samples were taken, and the data file, after a start, so many samples and a commit. The power goes at the k-th call after
// the start.
fn written_until(rt: &HostRuntime, samples: u32, k: u32) -> Result<(u32, Vec<u8>), Fail>
    requires { 1 ≤ k }
{
    let mut recorder = begun(rt)?;
    recorder.cut_at(k);
    let taken = hand_until(&mut recorder, samples);
    let _ = recorder.commit();
    let disk = recorder.into_disk();
    Ok((taken, disk.content(Which::Data).to_vec(rt.alloc())?))
}

#[test]
fn each_sample_is_counted(rt: HostRuntime) -> Result<(), RecFault> {
    for samples in 1..=90 {
        let mut recorder = begun(&rt)?;
        hand_until(&mut recorder, samples);
        equal(&rt, recorder.data_len(), 72 + 12 + 6 * samples);
    }
    Ok(())
}

// The page is written when the next sample does not fit. Each case: the samples, the call at which the power goes, how many samples
// were taken, and the length of the file then.
#[test]
fn a_page_is_written_where_it_is_full(rt: HostRuntime) -> Result<(), Fail> {
    let cases = [
        (83, 1, 83, 86),
        (83, 2, 83, 86 + 510),
        (84, 1, 83, 86),
        (84, 2, 84, 86 + 510),
        (84, 3, 84, 86 + 510 + 6),
    ];
    for (samples, k, taken, len) in cases {
        let (went, written) = written_until(&rt, samples, k)?;
        assert_eq!(rt;
            (went, written.len()),
            (taken, len),
            "{samples} samples, call {k}"
        );
        let first = written.get(86..110).unwrap_or(&SAMPLES);
        assert_eq!(rt; first, SAMPLES.as_slice(), "{samples} samples, call {k}");
    }
    Ok(())
}

// Whether a commit of so many samples is answered if the power goes at its k-th call.
fn is_committed(rt: &HostRuntime, has_commit: bool, samples: u32, k: u32) -> Result<bool, RecFault>
    requires { 1 ≤ k }
{
    let mut recorder = begun_with(rt, has_commit)?;
    hand_until(&mut recorder, samples);
    recorder.cut_at(k);
    Ok(recorder.commit().is_ok())
}

// How many calls a commit makes if the page is empty, if it is not, and if a gate is closed too.
#[test]
fn a_commit_writes_its_page_first(rt: HostRuntime) -> Result<(), RecFault> {
    for (has_commit, samples, calls) in [(false, 0, 5), (false, 1, 6), (true, 0, 7), (true, 1, 8)] {
        assert!(rt; !is_committed(&rt, has_commit, samples, calls)?, "{calls}");
        assert!(rt;
            is_committed(&rt, has_commit, samples, calls + 1)?,
            "{calls}"
        );
    }
    Ok(())
}

// Whether a stop after a commit and so many samples is answered if the power goes at its k-th call.
fn is_stopped(rt: &HostRuntime, samples: u32, k: u32) -> Result<bool, RecFault>
    requires { 1 ≤ k }
{
    let mut recorder = begun_with(rt, true)?;
    hand_until(&mut recorder, samples);
    recorder.cut_at(k);
    Ok(recorder.stop(TIME + 3200).is_ok())
}

// The stop joins the page. If it does not fit, the page is written before it too.
#[test]
fn a_stop_joins_the_page(rt: HostRuntime) -> Result<(), RecFault> {
    for (samples, calls) in [(0, 11), (82, 11), (83, 12)] {
        assert!(rt; !is_stopped(&rt, samples, calls)?, "{samples}");
        assert!(rt; is_stopped(&rt, samples, calls + 1)?, "{samples}");
    }
    Ok(())
}

// A recovery cuts off pages that were written and not committed, whatever a power cut leaves of them.
#[test]
fn written_pages_without_a_commit_are_gone(rt: HostRuntime) -> Result<(), Fail> {
    for byte in [0x00, 0x40, 0xFF] {
        let mut recorder = begun(&rt)?;
        equal(&rt, hand_until(&mut recorder, 200), 200);
        let mut disk = recorder.into_disk();
        equal(&rt, disk.content(Which::Data).len(), 86 + 510 + 510);
        disk.cycle(&[byte; 1200]);
        recovers_the_start(&rt, rt.alloc(), disk)?;
    }
    Ok(())
}

// If a page cannot be written, the recorder does nothing more.
#[test]
fn a_page_that_is_not_written_is_reported(rt: HostRuntime) -> Result<(), Fail> {
    let mut recorder = begun(&rt)?;
    equal(&rt, hand_until(&mut recorder, 83), 83);
    recorder.fail_at(1);
    equal(&rt, recorder.hand(&spaced(84)), Err(RecFault::Device));
    equal(&rt, recorder.commit(), Err(RecFault::Failed));
    equal(&rt, recorder.stop(TIME + 3200), Err(RecFault::Failed));
    recovers_the_start(&rt, rt.alloc(), recorder.into_disk())
}

// Power cuts at each call of the device, in a commit and in a recovery. Each byte that a cut may change gets one value or another.

use crate::equality::equal;
use crate::histories::{answers_to, file_in};
use fit_histories::Answer;
use std::alloc::Global;
use std::process::Abort;
use std::test::Fail;

// How many calls of the device a commit makes. The first writes the page.
const COMMIT_CALLS: u32 = 6;

// More calls than the recovery of the ride makes.
const RECOVERY_CALLS: u32 = 60;

// The value of each byte that a power cut may change.
static NOISE: [u8; 2] = [0xA5, 0xFF];

// A ride of two samples, before its only commit.
const ONE_COMMIT: &str =
    "start 1000000000 7 running\nsample 1000000000 hr=100\nsample 1000000001 hr=101\n";

// A ride of two laps that was committed and then lost its power.
const TWO_LAPS: &str =
    "start 1000000000 7 running\nsample 1000000000 hr=100\nsample 1000000001 hr=101\nlap 1000000002\nsample 1000000002 hr=110\ncommit\npower\n";

// How many records the last event recovered.
fn records_in(answers: &[Answer]) -> Option<u32> {
    match answers.last() {
        Some(Answer::Recovered { summary, .. }) => Some(summary.records),
        _ => None,
    }
}

// So many zeros, and then this byte.
fn zeros_and(byte: u8, zeros: usize) -> [u8; 64] {
    let mut choices = [byte; 64];
    for choice in choices.iter_mut().take(zeros) {
        *choice = 0;
    }
    choices
}

// Whether the commit of a script is recovered. Asserts that all of it is, or nothing.
fn is_kept(
    rt: &impl Abort,
    alloc: Global,
    script: &str,
    byte: u8,
    zeros: usize,
) -> Result<bool, Fail> {
    let answers = answers_to(alloc, script, &zeros_and(byte, zeros))?;
    let records = records_in(answers.as_slice());
    assert!(rt;
        records == Some(0) || records == Some(2),
        "{script}{byte} after {zeros} zeros"
    );
    Ok(records == Some(2))
}

// A recovery keeps what was committed, or what the commit had begun to commit, whatever the cut left.
#[test]
fn a_power_cut_in_a_commit_leaves_a_length_that_was_begun(rt: HostRuntime) -> Result<(), Fail> {
    let mut kept = [false; 2];
    for k in 1..=COMMIT_CALLS {
        let script = format!(in rt.alloc(); "{ONE_COMMIT}cut {k}\ncommit\npower\nrecover\n")?;
        for byte in NOISE {
            for zeros in 0..=8 {
                let is_kept = is_kept(&rt, rt.alloc(), script.as_str(), byte, zeros)?;
                kept[usize::from(is_kept)] = true;
            }
        }
    }
    equal(&rt, kept, [true, true]);
    Ok(())
}

// A recovery that was cut off at the k-th call and is made again. Asserts that its answer is the wanted one.
fn cut_recovery(
    rt: &impl Abort,
    alloc: Global,
    k: u32,
    byte: u8,
    wanted: Option<&Answer>,
) -> Result<(), Fail> {
    let script = format!(in alloc; "{TWO_LAPS}cut {k}\nrecover\npower\nrecover\n")?;
    let answers = answers_to(alloc, script.as_str(), &[byte; 64])?;
    assert!(rt; answers.last() == wanted, "cut {k} leaving {byte}");
    Ok(())
}

// A recovery that was cut off anywhere and is made again leaves the same bytes as one that was not cut off.
#[test]
fn a_power_cut_in_a_recovery_changes_nothing(rt: HostRuntime) -> Result<(), Fail> {
    let whole = format!(in rt.alloc(); "{TWO_LAPS}recover\n")?;
    let wanted = answers_to(rt.alloc(), whole.as_str(), &[])?;
    for k in 1..=RECOVERY_CALLS {
        for byte in NOISE {
            cut_recovery(&rt, rt.alloc(), k, byte, wanted.last())?;
        }
    }
    Ok(())
}

#[test]
fn a_recovery_of_a_stopped_recording_changes_nothing(rt: HostRuntime) -> Result<(), Fail> {
    let script = "start 1000000000 7 running\nsample 1000000000 hr=100\nstop 1000000004\nrecover\n";
    let answers = answers_to(rt.alloc(), script, &[])?;
    let stopped = file_in(answers.get(2));
    assert!(rt; !stopped.is_empty());
    equal(&rt, file_in(answers.last()), stopped);
    Ok(())
}

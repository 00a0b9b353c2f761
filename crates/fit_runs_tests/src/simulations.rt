// Scripts that are simulated, with output that fails and memory that is refused. The lines are from outside.

use super::failing::Failing;
use crate::equality::equal;
use fit_runs::{SimulateFault, simulate};
use std::alloc::{AllocError, Global};
use std::process::Abort;
use std::test::Fail;

// The power goes at the write that makes the start count.
const CUT_OFF: &str = "cut 10\nstart 1000000000 7 running\npower\nrecover\n";

const CUT_OFF_ANSWERS: &str =
    "1 cut: ok\n2 start: Device\n3 power: ok\n4 recover: ok records=0 laps=1 sessions=1 start=1000000000 elapsed_ms=0 timer_ms=0 distance_cm=-\n";

// The choice bytes that leave what was written.
static CHOICES: [u8; 9] = [0, 0, 0, 0, 0, 0, 0, 0, 0xA5];

#[test]
fn a_simulation_is_reported(rt: HostRuntime) -> Result<(), Fail> {
    let mut out = Vec::new(rt.alloc());
    simulate(rt.alloc(), CUT_OFF.as_bytes(), &CHOICES, false, &mut out)?;
    equal(&rt, out.as_slice(), CUT_OFF_ANSWERS.as_bytes());
    Ok(())
}

// Asserts that a simulation reports what becomes of its output. What was written is a prefix of the answers.
fn fail_output(rt: &impl Abort, alloc: Global, mut out: Failing) {
    let calls = out.calls;
    let text = CUT_OFF_ANSWERS.as_bytes();
    match simulate(alloc, CUT_OFF.as_bytes(), &CHOICES, false, &mut out) {
        Ok(()) => assert_eq!(rt; out.held.as_slice(), text, "{calls}"),
        Err(fault) => {
            assert_eq!(rt; fault, SimulateFault::Output, "{calls}");
            assert!(rt; calls < 19 && text.starts_with(&out.held), "{calls}");
        }
    }
}

// Each call of the output fails in turn, and then its flush.
#[test]
fn a_simulation_states_where_its_output_fails(rt: HostRuntime) {
    for calls in 0..20 {
        fail_output(&rt, rt.alloc(), Failing::new(rt.alloc(), 10, calls));
    }
    let mut kept = Failing::new(rt.alloc(), usize::MAX, usize::MAX);
    kept.flushes = 0;
    let done = simulate(rt.alloc(), CUT_OFF.as_bytes(), &CHOICES, false, &mut kept);
    equal(&rt, done, Err(SimulateFault::Output));
    equal(&rt, kept.held.as_slice(), CUT_OFF_ANSWERS.as_bytes());
}

// The number of each fault.
static NO_SCRIPTS: [(&[u8], u8); 3] = [
    (b"lap 5000000000\n\xFF", 1),
    (b"lap 5000000000\n", 2),
    (b"cut 1\nlap\n", 2),
];

// The number of the fault of a simulation, and how many bytes were written before it.
fn fault_of(alloc: Global, bytes: &[u8]) -> (Option<u8>, usize) {
    let mut out = Vec::new(alloc);
    let done = simulate(alloc, bytes, &CHOICES, false, &mut out);
    (done.err().map(|fault| fault.code()), out.len())
}

// The bytes are not text, or a line is not one of a script. The first of these faults is reported.
#[test]
fn a_script_that_is_not_simulated(rt: HostRuntime) {
    for (bytes, code) in NO_SCRIPTS {
        let fault = fault_of(rt.alloc(), bytes);
        assert_eq!(rt; fault, (Some(code), 0), "{bytes:?}");
    }
}

// Run with each allocation refused in turn: nothing is reported but the want of memory.
#[test]
fn a_simulation_states_that_memory_is_refused(rt: HostRuntime) -> Result<(), AllocError> {
    let mut out = Vec::with_capacity(rt.alloc(), 256)?;
    match simulate(rt.alloc(), CUT_OFF.as_bytes(), &CHOICES, false, &mut out) {
        Ok(()) => equal(&rt, out.as_slice(), CUT_OFF_ANSWERS.as_bytes()),
        Err(fault) => {
            assert!(rt; fault.code() == 2 || fault == SimulateFault::NoMemory);
            equal(&rt, out.len(), 0);
        }
    }
    Ok(())
}

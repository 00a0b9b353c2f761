// Rides that are reopened. The answers and the contents of the files are from outside. The rows of the table are tried, each
// with a possible answer and with an impossible one.

use crate::direct::answer_of;
use crate::histories::{answers_to, expect_answers, expect_checked, expect_shown, last_file};
use crate::table::is_history;
use fit_activity::Refusal;
use fit_recorder::RecFault;
use fit_scripts::parse_script;
use std::alloc::Global;
use std::process::Abort;
use std::test::Fail;

// A ride that lost its power after its only commit, and is continued up to its stop.
const GONE_ON: &str =
    "start 1000000000 7 running\nsample 1000000000 hr=100\ncommit\nsample 1000000001 hr=101\npower\nreopen\nsample 1000000002 hr=110\nstop 1000000002\n";

// What is recorded after the bytes of the commit: a record under its own definition, and the stop under another one.
static AFTER: [u8; 33] = [
    0x40, 0x00, 0x00, 0x14, 0x00, 0x01, 0x03, 0x01, 0x02, 0x82, 0x6E, 0x46, 0x00, 0x00, 0x15, 0x00,
    0x03, 0xFD, 0x04, 0x86, 0x00, 0x01, 0x00, 0x01, 0x01, 0x00, 0x06, 0x02, 0xCA, 0x9A, 0x3B, 0x00,
    0x04,
];

// The last messages of its file.
const GONE_ON_TEXT: &str = "3 record timestamp=1000000000 heart_rate=100
4 record timestamp=1000000002 heart_rate=110
5 event timestamp=1000000002 event=0 event_type=4
6 lap message_index=0 timestamp=1000000002 event=9 event_type=1 start_time=1000000000 total_elapsed_time=2000 total_timer_time=2000 total_distance=- avg_speed=- max_speed=- avg_heart_rate=105 max_heart_rate=110 avg_power=- max_power=- lap_trigger=7
7 session message_index=0 timestamp=1000000002 event=8 event_type=1 start_time=1000000000 sport=1 sub_sport=0 total_elapsed_time=2000 total_timer_time=2000 total_distance=- avg_speed=- max_speed=- avg_heart_rate=105 max_heart_rate=110 avg_power=- max_power=- first_lap_index=0 num_laps=1 trigger=0
8 activity timestamp=1000000002 total_timer_time=2000 num_sessions=1 type=0 event=26 event_type=1
messages 9
";

#[test]
fn a_ride_goes_on_after_its_last_commit(rt: HostRuntime) -> Result<(), Fail> {
    let lines = "ok\nok\nok\nok\nok\nok\nok\nok\n";
    expect_answers(&rt, rt.alloc(), GONE_ON, &[], lines)?;
    let file = last_file(rt.alloc(), GONE_ON, &[])?;
    assert!(rt;
        file.get(14 + 83..)
            .is_some_and(|rest| rest.starts_with(&AFTER))
    );
    expect_shown(&rt, rt.alloc(), file.as_slice(), GONE_ON_TEXT)?;
    let line =
        "ok records=2 laps=1 sessions=1 start=1000000000 elapsed_ms=2000 timer_ms=2000 distance_cm=-\n";
    expect_checked(&rt, rt.alloc(), file.as_slice(), line)
}

#[test]
fn a_stopped_ride_and_one_that_is_not_there_do_not_go_on(rt: HostRuntime) -> Result<(), Fail> {
    let script = format!(in rt.alloc(); "{GONE_ON}reopen\nsample 1000000003\n")?;
    let lines = "ok\nok\nok\nok\nok\nok\nok\nok\nRefused(Stopped)\nNoRecorder\n";
    expect_answers(&rt, rt.alloc(), script.as_str(), &[], lines)?;
    expect_answers(&rt, rt.alloc(), NOTHING, &[], "NothingRecorded\n")
}

// A recorder that runs ends when its ride is reopened, and what was not committed is gone.
#[test]
fn a_recorder_that_runs_is_reopened(rt: HostRuntime) -> Result<(), Fail> {
    let script =
        "start 1000000000 7 running\nsample 1000000000 hr=100\ncommit\nsample 1000000009 hr=101\nreopen\nsample 1000000002 hr=110\nstop 1000000002\n";
    let file = last_file(rt.alloc(), script, &[])?;
    expect_shown(&rt, rt.alloc(), file.as_slice(), GONE_ON_TEXT)
}

// The closing messages of the recovery are gone, and those of the stop are present once.
#[test]
fn a_recovered_ride_goes_on(rt: HostRuntime) -> Result<(), Fail> {
    let script =
        "start 1000000000 7 running\nsample 1000000000 hr=100\ncommit\nrecover\nreopen\nsample 1000000002 hr=110\nstop 1000000002\n";
    let lines =
        "ok\nok\nok\nok records=1 laps=1 sessions=1 start=1000000000 elapsed_ms=0 timer_ms=0 distance_cm=-\nok\nok\nok\n";
    expect_answers(&rt, rt.alloc(), script, &[], lines)?;
    let file = last_file(rt.alloc(), script, &[])?;
    expect_shown(&rt, rt.alloc(), file.as_slice(), GONE_ON_TEXT)
}

// Whether the table allows the answers to a script, with this one in the place of the last.
fn may_end(alloc: Global, script: &str, last: Result<(), RecFault>) -> Result<bool, Fail> {
    let events = parse_script(alloc, script)?;
    let mut answers = answers_to(alloc, script, &[])?;
    answers.pop();
    answers.push(answer_of(last))?;
    Ok(is_history(alloc, &events, &answers)?)
}

// Asserts that the table allows the answers to a script.
fn expect_allowed(rt: &impl Abort, alloc: Global, script: &str) -> Result<(), Fail> {
    let events = parse_script(alloc, script)?;
    let answers = answers_to(alloc, script, &[])?;
    assert!(rt; is_history(alloc, &events, &answers)?, "{script}");
    Ok(())
}

// Asserts whether the table allows this last answer to a script.
fn expect_end(
    rt: &impl Abort,
    alloc: Global,
    script: &str,
    last: Result<(), RecFault>,
    wanted: bool,
) -> Result<(), Fail> {
    let allowed = may_end(alloc, script, last)?;
    assert_eq!(rt; allowed, wanted, "{script}{last:?}");
    Ok(())
}

// Asserts that of these faults a script may end with this one only, or with none.
fn expect_refusals(
    rt: &impl Abort,
    alloc: Global,
    script: &str,
    faults: &[RecFault],
    refusal: Option<RecFault>,
) -> Result<(), Fail> {
    for fault in faults {
        expect_end(rt, alloc, script, Err(*fault), refusal == Some(*fault))?;
    }
    Ok(())
}

// A ride without a stop, a ride with one, a ride whose reopening fails, no ride, and one that was erased.
const RIDING: &str = "start 1000000000 7 running\nreopen\n";

const STOPPED: &str = "start 1000000000 7 running\nstop 1000000001\nreopen\n";

const BROKEN: &str = "start 1000000000 7 running\nfail 1\nreopen\n";

const NOTHING: &str = "reopen\n";

const ERASED: &str = "start 1000000000 7 running\nerase\nreopen\n";

// A sample before one that was promised, and before one that was not.
const PROMISED: &str =
    "start 1000000000 7 running\nsample 1000000005\ncommit\nreopen\nsample 1000000004\n";

const HANDED: &str = "start 1000000000 7 running\nsample 1000000005\nreopen\nsample 1000000004\n";

static FAULTS: [RecFault; 9] = [
    RecFault::Refused(Refusal::Stopped),
    RecFault::Refused(Refusal::Time),
    RecFault::NotEmpty,
    RecFault::Full,
    RecFault::JournalFull,
    RecFault::Device,
    RecFault::Failed,
    RecFault::NothingRecorded,
    RecFault::Damaged,
];

// The only refusal of each reopening.
static REFUSALS: [(&str, Option<RecFault>); 4] = [
    (RIDING, None),
    (STOPPED, Some(RecFault::Refused(Refusal::Stopped))),
    (BROKEN, Some(RecFault::Device)),
    (NOTHING, Some(RecFault::NothingRecorded)),
];

#[test]
fn the_table_allows_a_reopening_one_refusal(rt: HostRuntime) -> Result<(), Fail> {
    for (script, refusal) in &REFUSALS {
        expect_allowed(&rt, rt.alloc(), script)?;
        expect_refusals(&rt, rt.alloc(), script, &FAULTS, *refusal)?;
    }
    Ok(())
}

// Whether each script may end with this answer. The ride goes on after what was promised; what was not may be recorded or not.
static ENDS: [(&str, Result<(), RecFault>, bool); 9] = [
    (RIDING, Ok(()), true),
    (BROKEN, Ok(()), true),
    (STOPPED, Ok(()), false),
    (NOTHING, Ok(()), false),
    (ERASED, Ok(()), false),
    (PROMISED, Err(RecFault::Refused(Refusal::Time)), true),
    (PROMISED, Ok(()), false),
    (HANDED, Err(RecFault::Refused(Refusal::Time)), true),
    (HANDED, Ok(()), true),
];

#[test]
fn the_table_allows_a_ride_to_go_on_where_it_may(rt: HostRuntime) -> Result<(), Fail> {
    for (script, last, wanted) in &ENDS {
        expect_end(&rt, rt.alloc(), script, *last, *wanted)?;
    }
    Ok(())
}

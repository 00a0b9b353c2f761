// Scripts that are run over a disk in memory. The answers, the files and the choice bytes are from outside.

use crate::equality::equal;
use fit_files::{check_bytes, show_bytes};
use fit_grammar::{decode_file, encode_file};
use fit_histories::Answer;
use fit_histories::world::run;
use fit_runs::ReplyText;
use fit_scripts::parse_script;
use std::alloc::{AllocError, Global};
use std::process::Abort;
use std::test::Fail;

// A start, ten samples and no commit.
const TEN_SAMPLES: &str =
    "start 1000000000 7 running\nsample 1000000000\nsample 1000000001\nsample 1000000002\nsample 1000000003\nsample 1000000004\nsample 1000000005\nsample 1000000006\nsample 1000000007\nsample 1000000008\nsample 1000000009\npower\nrecover\n";

// Two laps, the second with one sample, and a commit. Then the power goes, and the ride is recovered.
const TWO_LAPS: &str =
    "start 1000000000 7 running\nsample 1000000000 hr=100\nsample 1000000001 hr=101\nlap 1000000002\nsample 1000000002 hr=110\ncommit\npower\nrecover\n";

// The messages from the first lap on, as they are recovered.
const TWO_LAPS_TEXT: &str =
    "5 lap message_index=0 timestamp=1000000002 event=9 event_type=1 start_time=1000000000 total_elapsed_time=2000 total_timer_time=2000 total_distance=- avg_speed=- max_speed=- avg_heart_rate=100 max_heart_rate=101 avg_power=- max_power=- lap_trigger=0
6 record timestamp=1000000002 heart_rate=110
7 event timestamp=1000000002 event=0 event_type=4
8 lap message_index=1 timestamp=1000000002 event=9 event_type=1 start_time=1000000002 total_elapsed_time=0 total_timer_time=0 total_distance=- avg_speed=- max_speed=- avg_heart_rate=110 max_heart_rate=110 avg_power=- max_power=- lap_trigger=7
9 session message_index=0 timestamp=1000000002 event=8 event_type=1 start_time=1000000000 sport=1 sub_sport=0 total_elapsed_time=2000 total_timer_time=2000 total_distance=- avg_speed=- max_speed=- avg_heart_rate=103 max_heart_rate=110 avg_power=- max_power=- first_lap_index=0 num_laps=2 trigger=0
10 activity timestamp=1000000002 total_timer_time=2000 num_sessions=1 type=0 event=26 event_type=1
messages 11
";

// The answers to a start that lost its power at the write of its gate, and to a recovery after it that finds nothing.
const NOT_STARTED: &str = "ok\nDevice\nok\nNothingRecorded\n";

// The same if the start is recovered.
const STARTED: &str =
    "ok\nDevice\nok\nok records=0 laps=1 sessions=1 start=1000000000 elapsed_ms=0 timer_ms=0 distance_cm=-\n";

// The header of the file of a start alone, and the messages of the start.
static START_FRONT: [u8; 86] = [
    0x0E, 0x10, 0x64, 0x00, 0x44, 0x01, 0x00, 0x00, 0x2E, 0x46, 0x49, 0x54, 0x34, 0xED, 0x44, 0x00,
    0x00, 0x00, 0x00, 0x05, 0x00, 0x01, 0x00, 0x01, 0x02, 0x84, 0x02, 0x02, 0x84, 0x03, 0x04, 0x8C,
    0x04, 0x04, 0x86, 0x04, 0x04, 0xFF, 0x00, 0x01, 0x00, 0x07, 0x00, 0x00, 0x00, 0x00, 0xCA, 0x9A,
    0x3B, 0x45, 0x00, 0x00, 0x0C, 0x00, 0x02, 0x00, 0x01, 0x00, 0x01, 0x01, 0x00, 0x05, 0x01, 0x00,
    0x46, 0x00, 0x00, 0x15, 0x00, 0x03, 0xFD, 0x04, 0x86, 0x00, 0x01, 0x00, 0x01, 0x01, 0x00, 0x06,
    0x00, 0xCA, 0x9A, 0x3B, 0x00, 0x00,
];

// The choice bytes that leave the gate of a start, if the power goes at its write.
static GATE: [u8; 9] = [0, 0, 0, 0, 0, 0, 0, 0, 0xA5];

// The power goes at the write of a start's gate.
const CUT_START: &str = "cut 10\nstart 1000000000 7 running\npower\nrecover\n";

// The answers to a script.
pub fn answers_to(alloc: Global, script: &str, choices: &[u8]) -> Result<Vec<Answer>, Fail> {
    let events = parse_script(alloc, script)?;
    Ok(run(alloc, events.as_slice(), choices)?)
}

// The file of an answer.
pub fn file_in(answer: Option<&Answer>) -> &[u8] {
    match answer {
        Some(Answer::Stopped { file } | Answer::Recovered { file, .. }) => file.as_slice(),
        _ => &[],
    }
}

// The file of the last answer to a script.
pub fn last_file(alloc: Global, script: &str, choices: &[u8]) -> Result<Vec<u8>, Fail> {
    let answers = answers_to(alloc, script, choices)?;
    Ok(Vec::from_slice(alloc, file_in(answers.last()))?)
}

// The lines of the answers to a script.
fn text_of(alloc: Global, script: &str, choices: &[u8]) -> Result<String, Fail> {
    let answers = answers_to(alloc, script, choices)?;
    let mut text = String::new(alloc);
    for answer in &answers {
        let line = format!(in alloc; "{}\n", ReplyText(answer.reply()))?;
        text.push_str(line.as_str())?;
    }
    Ok(text)
}

// Asserts that the answers to a script have these lines.
pub fn expect_answers(
    rt: &impl Abort,
    alloc: Global,
    script: &str,
    choices: &[u8],
    lines: &str,
) -> Result<(), Fail> {
    let found = text_of(alloc, script, choices)?;
    assert_eq!(rt; found.as_str(), lines, "{script}{choices:?}");
    Ok(())
}

// Asserts that a file is shown as a text with this end.
pub fn expect_shown(rt: &impl Abort, alloc: Global, file: &[u8], end: &str) -> Result<(), Fail> {
    let mut out = Vec::new(alloc);
    show_bytes(alloc, file, false, &mut out)?;
    assert!(rt; out.as_slice().ends_with(end.as_bytes()), "{end}");
    Ok(())
}

// Asserts that the check of a file prints this line.
pub fn expect_checked(rt: &impl Abort, alloc: Global, file: &[u8], line: &str) -> Result<(), Fail> {
    let mut out = Vec::new(alloc);
    check_bytes(alloc, file, &mut out)?;
    equal(rt, out.as_slice(), line.as_bytes());
    Ok(())
}

#[test]
fn a_start_that_lost_its_power_leaves_nothing(rt: HostRuntime) -> Result<(), Fail> {
    let script =
        "cut 5\nstart 1000000000 7 running\npower\nrecover\nerase\nstart 1000000000 7 running\n";
    let lines = "ok\nDevice\nok\nNothingRecorded\nok\nok\n";
    expect_answers(&rt, rt.alloc(), script, &[], lines)
}

// The choice bytes decide whether the start is recovered.
#[test]
fn the_choices_decide_what_a_power_cut_leaves(rt: HostRuntime) -> Result<(), Fail> {
    expect_answers(&rt, rt.alloc(), CUT_START, &[], NOT_STARTED)?;
    expect_answers(&rt, rt.alloc(), CUT_START, &GATE, STARTED)?;
    let file = last_file(rt.alloc(), CUT_START, &GATE)?;
    let other = last_file(rt.alloc(), TEN_SAMPLES, &[])?;
    equal(&rt, file.as_slice(), other.as_slice());
    Ok(())
}

// The choice bytes of two power cuts, each at the write of a gate, and the answers.
static TWO_CUTS: [([u8; 18], &str); 2] = [
    (
        [0, 0, 0, 0, 0, 0, 0, 0, 0xA5, 0, 0, 0, 0, 0, 0, 0, 0, 0],
        "ok\nDevice\nok\nok records=0 laps=1 sessions=1 start=1000000000 elapsed_ms=0 timer_ms=0 distance_cm=-\nok\nok\nDevice\nok\nNothingRecorded\n",
    ),
    (
        [0, 0, 0, 0, 0, 0, 0, 0, 0, 0, 0, 0, 0, 0, 0, 0, 0, 0xA5],
        "ok\nDevice\nok\nNothingRecorded\nok\nok\nDevice\nok\nok records=0 laps=1 sessions=1 start=1000000000 elapsed_ms=0 timer_ms=0 distance_cm=-\n",
    ),
];

// Each power cut takes the choice bytes after those of the one before.
#[test]
fn the_choices_go_on(rt: HostRuntime) -> Result<(), Fail> {
    let script =
        "cut 10\nstart 1000000000 7 running\npower\nrecover\nerase\ncut 10\nstart 1000000000 7 running\npower\nrecover\n";
    for (choices, lines) in TWO_CUTS {
        expect_answers(&rt, rt.alloc(), script, &choices, lines)?;
    }
    Ok(())
}

#[test]
fn what_was_not_committed_is_gone(rt: HostRuntime) -> Result<(), Fail> {
    let lines =
        "ok\nok\nok\nok\nok\nok\nok\nok\nok\nok\nok\nok\nok records=0 laps=1 sessions=1 start=1000000000 elapsed_ms=0 timer_ms=0 distance_cm=-\n";
    expect_answers(&rt, rt.alloc(), TEN_SAMPLES, &[], lines)?;
    let file = last_file(rt.alloc(), TEN_SAMPLES, &[])?;
    equal(&rt, file.len(), 340);
    assert!(rt; file.starts_with(&START_FRONT));
    Ok(())
}

#[test]
fn what_was_committed_is_recovered(rt: HostRuntime) -> Result<(), Fail> {
    let lines =
        "ok\nok\nok\nok\nok\nok\nok\nok records=3 laps=2 sessions=1 start=1000000000 elapsed_ms=2000 timer_ms=2000 distance_cm=-\n";
    expect_answers(&rt, rt.alloc(), TWO_LAPS, &[], lines)?;
    let file = last_file(rt.alloc(), TWO_LAPS, &[])?;
    expect_shown(&rt, rt.alloc(), file.as_slice(), TWO_LAPS_TEXT)
}

#[test]
fn a_call_that_fails_ends_the_recording(rt: HostRuntime) -> Result<(), Fail> {
    let script =
        "start 1000000000 7 running\nsample 1000000000 hr=100\nfail 1\ncommit\nsample 1000000001\nrecover\n";
    let lines =
        "ok\nok\nok\nDevice\nFailed\nok records=0 laps=1 sessions=1 start=1000000000 elapsed_ms=0 timer_ms=0 distance_cm=-\n";
    expect_answers(&rt, rt.alloc(), script, &[], lines)
}

#[test]
fn an_entry_needs_a_recorder(rt: HostRuntime) -> Result<(), Fail> {
    expect_answers(&rt, rt.alloc(), "sample 1000000000\n", &[], "NoRecorder\n")
}

// A ride of three hundred samples and a stop, with a commit each minute.
fn long_ride(alloc: Global) -> Result<String, AllocError> {
    let mut script = format!(in alloc; "start 1000000000 7 running\n")?;
    for second in 1..=300u32 {
        let commit = if second % 60 == 0 { "commit\n" } else { "" };
        let line = format!(in alloc; "sample {}\n{commit}", 1_000_000_000 + second)?;
        script.push_str(line.as_str())?;
    }
    script.push_str("stop 1000000301\n")?;
    Ok(script)
}

fn count_done(answers: &[Answer]) -> usize {
    answers
        .iter()
        .filter(|answer| **answer == Answer::Done)
        .count()
}

// Asserts that a file is decoded, and written again with the same bytes.
fn expect_same_again(rt: &impl Abort, alloc: Global, file: &[u8]) -> Result<(), Fail> {
    let read = decode_file(alloc, file)?;
    let mut written = Vec::new(alloc);
    encode_file(&read, &mut written)?;
    assert!(rt; written.as_slice() == file);
    Ok(())
}

// With ample memory each event is done, and none is left out. The file is checked, decoded, written again, and shown.
#[test]
fn ample_memory_succeeds(rt: HostRuntime) -> Result<(), Fail> {
    let script = long_ride(rt.alloc())?;
    let answers = answers_to(rt.alloc(), script.as_str(), &[])?;
    equal(&rt, answers.len(), 307);
    equal(&rt, count_done(&answers), 306);
    let file = file_in(answers.last());
    let line =
        "ok records=300 laps=1 sessions=1 start=1000000000 elapsed_ms=301000 timer_ms=301000 distance_cm=-\n";
    expect_checked(&rt, rt.alloc(), file, line)?;
    expect_same_again(&rt, rt.alloc(), file)?;
    expect_shown(&rt, rt.alloc(), file, "\nmessages 307\n")
}

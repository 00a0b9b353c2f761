// A ride in which each call of the device fails in turn, or the power goes at it; a recovery and a resumed ride in which the power
// goes; by `world::run`, and again by direct calls. The numbers of calls are those of the description.

use crate::direct;
use crate::equality::equal;
use crate::histories::file_in;
use crate::table::is_history;
use fit_activity::Summary;
use fit_histories::Answer;
use fit_histories::world::run;
use fit_scripts::parse_script;
use std::alloc::Global;
use std::process::Abort;
use std::test::Fail;

const RIDE: &str =
    "start 1000000000 7 running\nsample 1000000000 hr=100\ncommit\nsample 1000000001 hr=101\nlap 1000000002\ncommit\n";

const STOP: &str = "stop 1000000003\n";

// The start, two commits, and the stop. The second commit closes a gate. The entries wait in the page.
const RIDE_CALLS: u32 = 11 + (6 + 8) + 11;

// A recovery of the ride without its stop: two syncs, the size, the journal with its two slots, one read of the body, and the four calls
// that close the file.
const RECOVERY_CALLS: u32 = 2 + 1 + 1 + 1 + 4;

// A reopening: two syncs, the size, the journal with its two slots, one read of the body, and the cut with its sync. Then a
// commit of eight calls, which writes the page, syncs it, and closes a gate first.
const GOING_ON_CALLS: u32 = 2 + 1 + 1 + 1 + 2 + 8;

// The choice bytes of a power cut: none, all open gates, and all FF.
static CHOICES: [&[u8]; 3] = [&[], &[0xA5; 600], &[0xFF; 600]];

// The summary of the ride without its stop.
const UNSTOPPED: Summary = Summary {
    records: 2,
    laps: 2,
    sessions: 1,
    start: Some(1_000_000_000),
    elapsed_ms: Some(2000),
    timer_ms: Some(2000),
    distance_cm: None,
};

// The same with one more entry.
static GONE_ON: Summary = Summary {
    records: 3,
    ..UNSTOPPED
};

// The answers to the script. Asserts that direct calls give the same answers, and that these are a history. If the last answer has a
// file, direct calls leave it on the disk.
fn answers_to(
    rt: &impl Abort,
    alloc: Global,
    script: &str,
    choices: &[u8],
) -> Result<Vec<Answer>, Fail> {
    let events = parse_script(alloc, script)?;
    let answers = run(alloc, events.as_slice(), choices)?;
    let (file, others) = direct::play(alloc, events.as_slice(), choices)?;
    assert!(rt; answers.as_slice() == others.as_slice(), "{script}");
    assert!(rt; is_history(alloc, &events, &answers)?, "{script}");
    let outcome = file_in(answers.last());
    assert!(rt;
        outcome.is_empty() || outcome == file.as_slice(),
        "{script}"
    );
    Ok(answers)
}

fn is_ok(answer: &Answer) -> bool {
    !matches!(answer, Answer::Refused(_) | Answer::NoRecorder)
}

// The summary of a recovery.
fn summary_in(answer: Option<&Answer>) -> Option<Summary> {
    match answer {
        Some(Answer::Recovered { summary, .. }) => Some(*summary),
        _ => None,
    }
}

// Whether each answer of the ride and its stop, after a first event, is ok.
fn went_well(answers: &[Answer]) -> bool {
    answers.iter().take(8).all(|answer| is_ok(answer))
}

// A call of the ride fails once, and then the ride is recovered.
fn fail_call(rt: &impl Abort, alloc: Global, k: u32) -> Result<(), Fail> {
    let script = format!(in alloc; "fail {k}\n{RIDE}{STOP}recover\n")?;
    let answers = answers_to(rt, alloc, script.as_str(), &[])?;
    assert_eq!(rt; went_well(&answers), k > RIDE_CALLS, "{k}");
    Ok(())
}

// The power goes at a call of the ride, and then the ride is recovered.
fn cut_call(rt: &impl Abort, alloc: Global, k: u32, choices: &[u8]) -> Result<(), Fail> {
    let script = format!(in alloc; "cut {k}\n{RIDE}{STOP}power\nrecover\n")?;
    let answers = answers_to(rt, alloc, script.as_str(), choices)?;
    assert_eq!(rt; went_well(&answers), k > RIDE_CALLS, "{k}");
    Ok(())
}

// The answer to a recovery that is not cut off, with the summary and the file of the ride without its stop.
fn whole_recovery(rt: &impl Abort, alloc: Global) -> Result<Option<Answer>, Fail> {
    let script = format!(in alloc; "{RIDE}recover\n")?;
    let mut answers = answers_to(rt, alloc, script.as_str(), &[])?;
    equal(
        rt,
        file_in(answers.last()).len(),
        14 + 72 + 11 + 2 + 87 + 252 + 2,
    );
    equal(rt, summary_in(answers.last()), Some(UNSTOPPED));
    Ok(answers.pop())
}

// The power goes at a call of the recovery. The next recovery has the same answer as one that was not cut off.
fn cut_call_of_a_recovery(
    rt: &impl Abort,
    alloc: Global,
    k: u32,
    choices: &[u8],
    wanted: Option<&Answer>,
) -> Result<(), Fail> {
    let script = format!(in alloc; "{RIDE}cut {k}\nrecover\npower\nrecover\n")?;
    let answers = answers_to(rt, alloc, script.as_str(), choices)?;
    let is_whole = answers.get(7).is_some_and(is_ok);
    assert_eq!(rt; is_whole, k > RECOVERY_CALLS, "{k}");
    assert!(rt; answers.last() == wanted, "{k}");
    Ok(())
}

// The ride is reopened, and the power goes at a call from there on. The next recovery keeps what was promised.
fn cut_call_of_a_ride_that_goes_on(
    rt: &impl Abort,
    alloc: Global,
    k: u32,
    choices: &[u8],
) -> Result<(), Fail> {
    let script = format!(in alloc;
        "{RIDE}cut {k}\nreopen\nsample 1000000002 hr=110\ncommit\npower\nrecover\n"
    )?;
    let answers = answers_to(rt, alloc, script.as_str(), choices)?;
    let went_on = answers.iter().skip(7).take(3).all(|answer| is_ok(answer));
    assert_eq!(rt; went_on, k > GOING_ON_CALLS, "{k}");
    let summary = summary_in(answers.last());
    let is_promised = summary == Some(GONE_ON) || !went_on && summary == Some(UNSTOPPED);
    assert!(rt; is_promised, "{k}");
    Ok(())
}

#[test]
fn world_equals_direct_calls(rt: HostRuntime) -> Result<(), Fail> {
    for k in 1..=RIDE_CALLS + 1 {
        fail_call(&rt, rt.alloc(), k)?;
    }
    let whole = whole_recovery(&rt, rt.alloc())?;
    for choices in CHOICES {
        for k in 1..=RIDE_CALLS + 1 {
            cut_call(&rt, rt.alloc(), k, choices)?;
        }
        for k in 1..=RECOVERY_CALLS + 1 {
            cut_call_of_a_recovery(&rt, rt.alloc(), k, choices, whole.as_ref())?;
        }
        for k in 1..=GOING_ON_CALLS + 1 {
            cut_call_of_a_ride_that_goes_on(&rt, rt.alloc(), k, choices)?;
        }
    }
    Ok(())
}

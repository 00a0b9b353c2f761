// Scripts whose events and faults are known from outside.

use crate::equality::equal;
use fit_activity::{Entry, Sample, Sport, Start};
use fit_histories::{Command, Event};
use fit_scripts::ScriptFaultKind::{
    BadNumber, ExtraWord, MissingWord, RepeatedKey, UnknownKey, UnknownWord,
};
use fit_scripts::{ScriptFault, ScriptFaultKind, parse_script};
use std::alloc::Global;
use std::process::Abort;

// The fault of a text that is not a script, and its line.
fn fault_of(alloc: Global, text: &str) -> Option<(ScriptFaultKind, usize)> {
    match parse_script(alloc, text) {
        Ok(_) => None,
        Err(ScriptFault { kind, line }) => Some((kind, line)),
    }
}

// Asserts that a text has this fault at this line, or none.
fn expect_fault(
    rt: &impl Abort,
    alloc: Global,
    text: &str,
    fault: Option<(ScriptFaultKind, usize)>,
) {
    assert_eq!(rt; fault_of(alloc, text), fault, "{text}");
}

// Whether the events of a text are these.
fn has_events(alloc: Global, text: &str, events: &[Event]) -> bool {
    match parse_script(alloc, text) {
        Ok(found) => found.as_slice() == events,
        Err(_) => false,
    }
}

// Asserts that a text has these events.
fn expect_events(rt: &impl Abort, alloc: Global, text: &str, events: &[Event]) {
    assert!(rt; has_events(alloc, text, events), "{text:?}");
}

// Asserts that a text of one line is this command.
fn expect_command(rt: &impl Abort, alloc: Global, text: &str, command: Command) {
    expect_events(rt, alloc, text, &[Event { line: 1, command }]);
}

// Asserts that these texts of one line have these faults.
fn expect_faults(rt: &impl Abort, alloc: Global, cases: &[(&str, ScriptFaultKind)]) {
    for (text, kind) in cases {
        expect_fault(rt, alloc, text, Some((*kind, 1)));
    }
}

// Asserts that each of these texts has this fault at this line, or none.
fn expect_each(
    rt: &impl Abort,
    alloc: Global,
    texts: &[&str],
    fault: Option<(ScriptFaultKind, usize)>,
) {
    for text in texts {
        expect_fault(rt, alloc, text, fault);
    }
}

static REFUSED: [(&str, ScriptFaultKind); 51] = [
    ("sample 1000000000 hr=1 hr=2", RepeatedKey),
    ("sample 1000000000 hr", UnknownKey),
    ("sample 1000000000 hr=x hr=2", BadNumber),
    ("commit now", ExtraWord),
    ("lap", MissingWord),
    ("fail 0", BadNumber),
    ("start 1 2 walking", UnknownWord),
    ("lap 5000000000", BadNumber),
    ("reopen now", ExtraWord),
    ("Reopen", UnknownWord),
    ("reopened", UnknownWord),
    ("LAP 1", UnknownWord),
    ("cut 0", BadNumber),
    ("cut", MissingWord),
    ("fail 1 2", ExtraWord),
    ("start", MissingWord),
    ("start 1", MissingWord),
    ("start 1 2", MissingWord),
    ("start 1 2 running 3", ExtraWord),
    ("sample", MissingWord),
    ("sample hr=1", BadNumber),
    // The words are judged from the left, and a missing word last.
    ("start x", BadNumber),
    ("start 1 x", BadNumber),
    ("lap x y", BadNumber),
    ("lap 1 y", ExtraWord),
    ("start 1 2 walking more", UnknownWord),
    ("fail 0 1", BadNumber),
    ("sample x hr", BadNumber),
    // The key of a setting is judged before its number.
    ("sample 1 hr=1 hr=x", RepeatedKey),
    ("sample 1 hr=1 hr", UnknownKey),
    ("sample 1 hr=1 cad=2 hr=1", RepeatedKey),
    ("sample 1 bpm=1 bpm=2", UnknownKey),
    ("sample 1 HR=1", UnknownKey),
    ("sample 1 =5", UnknownKey),
    ("sample 1 hr=", BadNumber),
    ("sample 1 hr=1=2", BadNumber),
    ("lap +1", BadNumber),
    ("sample 1 hr=+1", BadNumber),
    ("sample 1 lat=+1", BadNumber),
    ("sample 1 lat=-", BadNumber),
    ("sample 1 lat=--1", BadNumber),
    ("sample 1 hr=1.5", BadNumber),
    // Only one carriage return is dropped, right before the end of a line.
    ("lap 1\r", BadNumber),
    ("lap 1\r\r\n", BadNumber),
    ("commit\rcommit", UnknownWord),
    // Only spaces and tabs separate words, and digits are those of ASCII.
    ("lap\u{b}1", UnknownWord),
    ("lap\u{a0}1", UnknownWord),
    ("\u{feff}commit", UnknownWord),
    ("lap 1\0", BadNumber),
    ("lap \u{661}", BadNumber),
    ("commit # now", ExtraWord),
];

#[test]
fn refuses_lines(rt: HostRuntime) {
    expect_faults(&rt, rt.alloc(), &REFUSED);
}

// The greatest and the least number in each place.
static FITTING: [&str; 6] = [
    "start 4294967295 4294967295 generic",
    "lap 4294967295",
    "fail 4294967295",
    "cut 1",
    "sample 0 lat=2147483647 long=2147483647 alt=65535 hr=255 cad=255 dist=4294967295 speed=65535 power=65535 temp=127 espeed=4294967295 ealt=4294967295",
    "sample 0 lat=-2147483648 long=-2147483648 alt=0 hr=0 cad=0 dist=0 speed=0 power=0 temp=-128 espeed=0 ealt=0",
];

// The number after it, which does not fit.
static TOO_GREAT: [&str; 30] = [
    "start 4294967296 1 generic",
    "start 1 4294967296 generic",
    "lap 4294967296",
    "fail 4294967296",
    "cut 4294967296",
    "sample 4294967296",
    "sample 0 lat=2147483648",
    "sample 0 lat=-2147483649",
    "sample 0 long=2147483648",
    "sample 0 long=-2147483649",
    "sample 0 alt=65536",
    "sample 0 hr=256",
    "sample 0 cad=256",
    "sample 0 dist=4294967296",
    "sample 0 speed=65536",
    "sample 0 power=65536",
    "sample 0 temp=128",
    "sample 0 temp=-129",
    "sample 0 espeed=4294967296",
    "sample 0 ealt=4294967296",
    "sample 0 alt=-0",
    "sample 0 hr=-0",
    "sample 0 cad=-1",
    "sample 0 dist=-1",
    "sample 0 speed=-1",
    "sample 0 power=-1",
    "sample 0 espeed=-1",
    "sample 0 ealt=-0",
    "lap -1",
    "lap 100000000000000000000000000000000000001",
];

#[test]
fn refuses_numbers_that_do_not_fit(rt: HostRuntime) {
    expect_each(&rt, rt.alloc(), &FITTING, None);
    expect_each(&rt, rt.alloc(), &TOO_GREAT, Some((BadNumber, 1)));
}

// Asserts that these texts of one line are these commands.
fn expect_commands(rt: &impl Abort, alloc: Global, cases: &[(&str, Command)]) {
    for (text, command) in cases {
        expect_command(rt, alloc, text, *command);
    }
}

static COMMANDS: [(&str, Command); 15] = [
    (
        "start 1000000000 7 running",
        Command::Start(Start {
            time: 1_000_000_000,
            serial: 7,
            sport: Sport::Running,
        }),
    ),
    (
        "start 0 0 generic",
        Command::Start(Start {
            time: 0,
            serial: 0,
            sport: Sport::Generic,
        }),
    ),
    (
        "start 1 2 cycling",
        Command::Start(Start {
            time: 1,
            serial: 2,
            sport: Sport::Cycling,
        }),
    ),
    ("lap 1", Command::Entry(Entry::Lap(1))),
    ("pause 2", Command::Entry(Entry::Pause(2))),
    ("resume 3", Command::Entry(Entry::Resume(3))),
    ("stop 4", Command::Entry(Entry::Stop(4))),
    ("commit", Command::Commit),
    ("restart", Command::Restart),
    ("recover", Command::Recover),
    ("reopen", Command::Reopen),
    ("erase", Command::Erase),
    ("fail 5", Command::Fail(5)),
    ("cut 6", Command::Cut(6)),
    ("power", Command::Power),
];

#[test]
fn reads_commands(rt: HostRuntime) {
    expect_commands(&rt, rt.alloc(), &COMMANDS);
}

const WHOLE: Sample = Sample {
    time: 10,
    lat: Some(-1),
    long: Some(2),
    altitude: Some(3),
    heart_rate: Some(4),
    cadence: Some(5),
    distance: Some(6),
    speed: Some(7),
    power: Some(8),
    temperature: Some(-9),
    enhanced_speed: Some(10),
    enhanced_altitude: Some(11),
};

// The whole sample, with its settings in several orders.
static ORDERS: [&str; 3] = [
    "sample 10 lat=-1 long=2 alt=3 hr=4 cad=5 dist=6 speed=7 power=8 temp=-9 espeed=10 ealt=11",
    "sample 10 ealt=11 espeed=10 temp=-9 power=8 speed=7 dist=6 cad=5 hr=4 alt=3 long=2 lat=-1",
    "\t sample\t10 hr=0000000000000000000000000000000004  lat=-01 dist=6 temp=-9\tlong=2 alt=3 cad=5 ealt=0011 power=8 speed=7 espeed=10 ",
];

// Asserts that a text of one line is this sample.
fn expect_sample(rt: &impl Abort, alloc: Global, text: &str, sample: Sample) {
    expect_command(rt, alloc, text, Command::Entry(Entry::Sample(sample)));
}

#[test]
fn reads_samples(rt: HostRuntime) {
    let plain = Sample::new(1_000_000_000);
    expect_sample(&rt, rt.alloc(), "sample 1000000000", plain);
    for text in ORDERS {
        expect_sample(&rt, rt.alloc(), text, WHOLE);
    }
    let zero = Sample {
        lat: Some(0),
        ..Sample::new(1)
    };
    expect_sample(&rt, rt.alloc(), "sample 1 lat=-0", zero);
}

// Empty lines and comments are not events.
static NO_EVENTS: [&str; 6] = ["", "\n", "\r\n", " \t\n\n", "# a ride", "  #lap x\n"];

static TWO_EVENTS: [&str; 2] = [
    "# a ride\n\nlap 9\n \n#\ncommit",
    "# a ride\r\n\r\nlap 9\r\n\t\r\n#\r\ncommit\r\n",
];

static LAP_AND_COMMIT: [Event; 2] = [
    Event {
        line: 3,
        command: Command::Entry(Entry::Lap(9)),
    },
    Event {
        line: 6,
        command: Command::Commit,
    },
];

// Each event has the number of its line.
#[test]
fn counts_lines(rt: HostRuntime) {
    for text in NO_EVENTS {
        expect_events(&rt, rt.alloc(), text, &[]);
    }
    for text in TWO_EVENTS {
        expect_events(&rt, rt.alloc(), text, &LAP_AND_COMMIT);
    }
    let fourth = Some((MissingWord, 4));
    expect_fault(&rt, rt.alloc(), "lap 1\n\n# x\nlap\nstop", fourth);
    expect_fault(&rt, rt.alloc(), "stop\nlap", Some((MissingWord, 1)));
}

// By their numbers.
static KINDS: [ScriptFaultKind; 7] = [
    UnknownWord,
    MissingWord,
    ExtraWord,
    BadNumber,
    UnknownKey,
    RepeatedKey,
    ScriptFaultKind::Memory,
];

#[test]
fn numbers_of_faults(rt: HostRuntime) {
    for (place, kind) in KINDS.iter().enumerate() {
        equal(&rt, usize::from(kind.code()), place + 1);
    }
}

static COMMITS: [Event; 2] = [
    Event {
        line: 1,
        command: Command::Commit,
    },
    Event {
        line: 2,
        command: Command::Commit,
    },
];

// Run with each allocation refused in turn: all events are returned, or want of memory is reported at a line.
#[test]
fn a_script_reports_want_of_memory(rt: HostRuntime) {
    match parse_script(rt.alloc(), "commit\ncommit") {
        Ok(events) => equal(&rt, events.as_slice(), COMMITS.as_slice()),
        Err(fault) => {
            equal(&rt, fault.kind, ScriptFaultKind::Memory);
            assert!(rt; fault.line == 1 || fault.line == 2);
        }
    }
}

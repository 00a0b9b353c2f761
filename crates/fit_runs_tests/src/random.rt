// Scripts of up to forty pseudorandom events, with pseudorandom choice bytes. Each is run, and its answers are checked with the table.

ghost use Rattle.std.specs.Prelude.{◌≤◌};

use crate::direct;
use crate::table::is_history;
use fit_activity::{FIELDS, SAMPLE_FIELDS};
use fit_disk::{Memory, Which};
use fit_histories::world::run;
use fit_histories::{Answer, Command};
use fit_recorder::RecFault;
use fit_runs::{play, simulate};
use fit_scripts::{parse_script, read_script};
use std::alloc::{AllocError, Global};
use std::process::Abort;
use std::test::Fail;

// How many histories are tried. A hundred times as many take a minute, which is more than a test has in the gate.
const HISTORIES: u32 = 10_000;

// How many scripts are replayed.
const REPLAYS: u32 = 2_000;

// The most choice bytes.
const MOST: usize = 256;

// A setting: its key with what stands before the digits, and its number.
type Setting = (&'static str, u32);

fn one(alloc: Global, (key, number): Setting) -> Result<String, AllocError> {
    format!(in alloc; " {key}{number}")
}

fn pair(
    alloc: Global,
    (key, number): Setting,
    (other, second): Setting,
) -> Result<String, AllocError> {
    format!(in alloc; " {key}{number} {other}{second}")
}

// The line of a word and a number.
fn numbered(alloc: Global, word: &str, number: u32) -> Result<String, AllocError> {
    format!(in alloc; "{word} {number}\n")
}

// A pseudorandom sequence, the same in each run.
#[derive(Drop)]
struct Noise {
    last: u32,
    // The time of the last start, and of the last entry that was meant to fit.
    start: u32,
    now: u32,
    // Whether a recorder runs, if no call fails.
    rides: bool,
}

impl Noise {
    fn new(last: u32) -> Noise {
        Noise {
            last,
            start: 0,
            now: 0,
            rides: false,
        }
    }

    fn next(&mut self) -> u32 {
        let first = self.last ^ (self.last << 13);
        let second = first ^ (first >> 17);
        self.last = second ^ (second << 5);
        self.last
    }

    // A number below this one, or 0 if there is none.
    fn below(&mut self, end: u32) -> u32 {
        let drawn = self.next() >> 7;
        if end == 0 { 0 } else { drawn % end }
    }

    fn one_in(&mut self, count: u32) -> bool {
        self.below(count) == 0
    }

    // A time that often fits.
    fn time(&mut self) -> u32 {
        let limit = self.start.saturating_add(4_000_000);
        match self.below(60) {
            0 => self.now.saturating_sub(1),
            1 => limit.saturating_add(1),
            2 => u32::MAX,
            3 => 5,
            4 if self.one_in(4) => limit,
            _ => {
                self.now = self.now.saturating_add(self.below(4));
                self.now
            }
        }
    }

    // One or two settings of a sample, or none.
    fn setting(&mut self, alloc: Global) -> Result<String, AllocError> {
        match self.below(16) {
            0 => pair(alloc, ("lat=", self.below(9)), ("long=-", self.below(9))),
            1 => one(alloc, ("alt=", self.below(65_537).min(65_535))),
            2..5 => one(alloc, ("hr=", self.below(240))),
            5 => pair(alloc, ("hr=", 255), ("cad=", 255)),
            6 => pair(alloc, ("cad=", self.below(200)), ("temp=-", self.below(20))),
            7..11 => one(alloc, ("dist=", self.next() >> 12)),
            11 => pair(
                alloc,
                ("speed=", self.below(9000)),
                ("power=", self.below(900)),
            ),
            12 if self.one_in(3) => one(alloc, ("temp=", 127)),
            13 | 14 => self.any_setting(alloc),
            _ => Ok(String::new(alloc)),
        }
    }

    // A setting of any field of a sample, sometimes with its invalid value.
    fn any_setting(&mut self, alloc: Global) -> Result<String, AllocError> {
        let place = self.below(FIELDS as u32) as usize;
        let (_, base, key) = SAMPLE_FIELDS[place.min(FIELDS - 1)];
        let invalid = base.invalid();
        let number = if self.one_in(6) {
            invalid
        } else {
            u64::from(self.next()) % (invalid / 2).max(1)
        };
        format!(in alloc; " {key}={number}")
    }

    // The line of a start.
    fn start(&mut self, alloc: Global) -> Result<String, AllocError> {
        let time = self.time();
        self.start = time;
        self.rides = true;
        let sport = match self.below(3) {
            0 => "generic",
            1 => "running",
            _ => "cycling",
        };
        format!(in alloc; "start {time} {} {sport}\n", self.below(1000))
    }

    // The number of a call that will fail.
    fn call(&mut self) -> u32 {
        let most = if self.one_in(2) { 12 } else { 40 };
        self.below(most).saturating_add(1)
    }

    // The line of a sample.
    fn sample(&mut self, alloc: Global) -> Result<String, AllocError> {
        let setting = self.setting(alloc)?;
        format!(in alloc; "sample {}{setting}\n", self.time())
    }

    // The line of an event that is likely while a recorder runs.
    fn line_of_a_ride(&mut self, alloc: Global) -> Result<String, AllocError> {
        match self.below(40) {
            0..19 => self.sample(alloc),
            19..22 => numbered(alloc, "lap", self.time()),
            22..25 => numbered(alloc, "pause", self.time()),
            25..29 => numbered(alloc, "resume", self.time()),
            29..38 => format!(in alloc; "commit\n"),
            _ => {
                self.rides = false;
                numbered(alloc, "stop", self.time())
            }
        }
    }

    // The line of an event that is likely while none runs. Each ends a recorder that runs.
    fn line_between(&mut self, alloc: Global) -> Result<String, AllocError> {
        let drawn = self.below(24);
        if drawn < 6 {
            return self.start(alloc);
        }
        self.rides = matches!(drawn, 16..20);
        let word = match drawn {
            6..8 => "restart",
            8..12 => "recover",
            12..16 => "erase",
            16..20 => "reopen",
            _ => "power",
        };
        format!(in alloc; "{word}\n")
    }

    // The line of any event.
    fn line(&mut self, alloc: Global) -> Result<String, AllocError> {
        match self.below(20) {
            0 => numbered(alloc, "fail", self.call()),
            1 => numbered(alloc, "cut", self.call()),
            2 if self.rides => self.line_between(alloc),
            2 => self.line_of_a_ride(alloc),
            _ if self.rides => self.line_of_a_ride(alloc),
            _ => self.line_between(alloc),
        }
    }

    // A script, which mostly begins with a start.
    fn script(&mut self, alloc: Global) -> Result<String, AllocError> {
        self.now = 1_000_000_000;
        self.start = self.now;
        self.rides = false;
        let mut script = String::new(alloc);
        if !self.one_in(8) {
            script.push_str(self.start(alloc)?.as_str())?;
        }
        for _ in 0..self.below(40) {
            script.push_str(self.line(alloc)?.as_str())?;
        }
        Ok(script)
    }

    // Fills some of the choices: all open gates, all FF, noise, or noise with many open gates and zeros in it. Returns how many.
    fn choose(&mut self, choices: &mut [u8; MOST]) -> usize
        ensures { result ≤ 256 }
    {
        let kind = self.below(5);
        let given = (self.below(257) as usize).min(MOST);
        for choice in &mut choices[..given] {
            let [first, second, _, _] = self.next().to_le_bytes();
            *choice = match kind {
                0 => 0xA5,
                1 => 0xFF,
                2 => first,
                _ if second % 4 == 0 => 0xA5,
                _ if second % 4 == 1 => 0,
                _ => first,
            };
        }
        given
    }
}

// How often each answer was seen, so that none is left out, and the least number of calls of the device that they take.
#[derive(Clone, Copy, Debug)]
struct Seen {
    done: u32,
    stopped: u32,
    recovered: u32,
    reopened: u32,
    no_recorder: u32,
    // By their numbers.
    faults: [u32; 9],
    refusals: [u32; 9],
    calls: u64,
}

const NOTHING: Seen = Seen {
    done: 0,
    stopped: 0,
    recovered: 0,
    reopened: 0,
    no_recorder: 0,
    faults: [0; 9],
    refusals: [0; 9],
    calls: 0,
};

// Counts one more of this number.
fn count_one(counts: &mut [u32; 9], number: u8) {
    if let Some(count) = counts.get_mut(usize::from(number)) {
        *count = count.saturating_add(1);
    }
}

// The least number of calls of the device for this answer. The numbers are those of the description; of a recovery those without the
// slots and the items; of a call that failed one.
fn least_calls(command: &Command, answer: &Answer) -> u64 {
    match (command, answer) {
        (Command::Start(_), Answer::Done) => 11,
        (Command::Start(_), Answer::Refused(RecFault::NotEmpty)) => 2,
        (Command::Entry(_), Answer::Done) => 1,
        (Command::Commit, Answer::Done) => 5,
        (Command::Reopen, Answer::Done) => 8,
        (Command::Erase, Answer::Done) => 3,
        (_, Answer::Stopped { .. }) => 9,
        (_, Answer::Recovered { .. }) => 8,
        (_, Answer::Refused(RecFault::NothingRecorded)) => 3,
        (_, Answer::Refused(RecFault::Device)) => 1,
        _ => 0,
    }
}

impl Seen {
    fn see(&mut self, command: &Command, answer: &Answer) {
        match answer {
            Answer::Done if *command == Command::Reopen => self.reopened = self
                .reopened
                .saturating_add(1),
            Answer::Done => self.done = self.done.saturating_add(1),
            Answer::Stopped { .. } => self.stopped = self.stopped.saturating_add(1),
            Answer::Recovered { .. } => self.recovered = self.recovered.saturating_add(1),
            Answer::NoRecorder => self.no_recorder = self.no_recorder.saturating_add(1),
            Answer::Refused(fault) => {
                count_one(&mut self.faults, fault.code());
                if let RecFault::Refused(refusal) = fault {
                    count_one(&mut self.refusals, refusal.code());
                }
            }
        }
        self.calls = self.calls.saturating_add(least_calls(command, answer));
    }

    // Whether each answer was seen that is possible with so few events, and no other: there is room, and nothing is damaged.
    fn has_all(&self) -> bool {
        let [
            _,
            not_empty,
            refused,
            full,
            journal_full,
            device,
            failed,
            nothing,
            damaged,
        ] = self.faults;
        let [
            _,
            time,
            distance,
            value,
            stopped,
            running,
            too_long,
            laps,
            ended,
        ] = self.refusals;
        let few = [
            not_empty, refused, device, failed, nothing, time, distance, value,
        ];
        let more = [
            stopped,
            running,
            too_long,
            ended,
            self.done,
            self.stopped,
            self.recovered,
            self.reopened,
            self.no_recorder,
        ];
        few.iter().all(|count| *count > 0)
            && more.iter().all(|count| *count > 0)
            && full == 0
            && journal_full == 0
            && damaged == 0
            && laps == 0
    }
}

// Runs a script by `world::run` and by direct calls, and checks the answers with the table.
fn try_script(
    rt: &impl Abort,
    alloc: Global,
    script: &str,
    choices: &[u8],
    seen: &mut Seen,
) -> Result<(), Fail> {
    let events = parse_script(alloc, script)?;
    let answers = run(alloc, events.as_slice(), choices)?;
    let (_, others) = direct::play(alloc, events.as_slice(), choices)?;
    assert!(rt;
        answers.as_slice() == others.as_slice(),
        "{script}{choices:?}"
    );
    assert!(rt;
        is_history(alloc, &events, &answers)?,
        "{script}{choices:?}"
    );
    for (event, answer) in events.iter().zip(&answers) {
        seen.see(&event.command, answer);
    }
    Ok(())
}

#[test]
fn random_histories_go_by_the_table(rt: HostRuntime) -> Result<(), Fail> {
    let mut noise = Noise::new(0x2545_F491);
    let mut choices = [0; MOST];
    let mut seen = NOTHING;
    for _ in 0..HISTORIES {
        let script = noise.script(rt.alloc())?;
        let given = noise.choose(&mut choices);
        let choices = &choices[..given];
        try_script(&rt, rt.alloc(), script.as_str(), choices, &mut seen)?;
    }
    assert!(rt; seen.has_all(), "{seen:?}");
    assert!(rt; seen.calls > 100_000, "{seen:?}");
    Ok(())
}

// The lines of a script without those that only a simulated disk can run.
fn replayed_lines(alloc: Global, script: &str) -> Result<String, AllocError> {
    let mut text = String::new(alloc);
    for line in script.lines() {
        let is_simulated = line.starts_with("fail")
            || line.starts_with("cut")
            || line.starts_with("power");
        if !is_simulated {
            text.push_str(line)?;
            text.push_str("\n")?;
        }
    }
    Ok(text)
}

// Asserts that a replay of a script prints these lines, so many of them refusals, and leaves this file.
fn expect_replay(
    rt: &impl Abort,
    alloc: Global,
    script: &str,
    lines: &[u8],
    refused: usize,
    file: &[u8],
) -> Result<(), Fail> {
    let events = read_script(alloc, script.as_bytes())?;
    let mut out = Vec::new(alloc);
    let (disk, played) = play(Memory::new(alloc), events.as_slice(), false, &mut out);
    assert_eq!(rt; played, Ok(refused), "{script}");
    assert!(rt; out.as_slice() == lines, "{script}");
    assert!(rt; disk.content(Which::Data) == file, "{script}");
    Ok(())
}

fn count_refused(answers: &[Answer]) -> usize {
    answers
        .iter()
        .filter(|answer| !answer.reply().is_ok())
        .count()
}

// Replays a script, and runs it by `world::run` and by direct calls: the lines, the refusals and the files are the same.
fn try_replay(rt: &impl Abort, alloc: Global, script: &str) -> Result<(), Fail> {
    let mut lines = Vec::new(alloc);
    simulate(alloc, script.as_bytes(), &[], false, &mut lines)?;
    let events = parse_script(alloc, script)?;
    let (file, answers) = direct::play(alloc, events.as_slice(), &[])?;
    let refused = count_refused(&answers);
    expect_replay(
        rt,
        alloc,
        script,
        lines.as_slice(),
        refused,
        file.as_slice(),
    )
}

#[test]
fn random_replays_answer_and_leave_what_a_run_does(rt: HostRuntime) -> Result<(), Fail> {
    let mut noise = Noise::new(0x9E37_79B9);
    for _ in 0..REPLAYS {
        let script = noise.script(rt.alloc())?;
        let lines = replayed_lines(rt.alloc(), script.as_str())?;
        try_replay(&rt, rt.alloc(), lines.as_str())?;
    }
    Ok(())
}

// The table of histories, stated once more and slowly: the state of a recording is a set of claims. Each claim is a plain list of
// what may be recorded, and how many of its entries are promised. Nothing here is taken from the code that is tested.

pub mod list;
pub mod outcome_kind;

use fit_activity::{Entry, Refusal, Start, Summary};
use fit_histories::{Answer, Command, Event};
use fit_recorder::RecFault;
use list::{Recorded, has_stopped, refusal_of, start_fits, sums_of};
use outcome_kind::{outcome_by, outcome_of};
use std::alloc::{AllocError, Global};
use std::test::Fail;

// A prefix of the list may be recorded, no shorter than the promise.
#[derive(Debug, Drop)]
struct Claim {
    list: Vec<Recorded>,
    promise: usize,
}

// All of this list is recorded.
fn whole(alloc: Global, list: &[Recorded]) -> Result<Claim, AllocError> {
    Ok(Claim {
        list: Vec::from_slice(alloc, list)?,
        promise: list.len(),
    })
}

/// The state of a recording. While a recorder runs, each claim is a list that it may have been handed. There is one such list, unless
/// the ride was reopened: a reopening does not report what it found.
#[derive(Drop)]
pub struct Table {
    alloc: Global,
    claims: Vec<Claim>,
    riding: bool,
    // The device failed in the recorder that runs.
    broken: bool,
    // A start was begun since the last erasing.
    begun: bool,
    // A power cut was scheduled since the power last came back; a failure was scheduled and no call was broken off since.
    cut: bool,
    fail: bool,
}

// Whether a call was broken off by the device.
fn is_device(answer: &Answer) -> bool {
    *answer == Answer::Refused(RecFault::Device)
}

impl Table {
    /// Two empty files. The only claim is that nothing is recorded.
    pub fn new(alloc: Global) -> Result<Table, AllocError> {
        let mut claims = Vec::new(alloc);
        claims.push(whole(alloc, &[])?)?;
        Ok(Table {
            alloc,
            claims,
            riding: false,
            broken: false,
            begun: false,
            cut: false,
            fail: false,
        })
    }

    /// Whether the answer to the command is possible. Afterwards the table has the state after that answer.
    pub fn allows(&mut self, command: &Command, answer: &Answer) -> Result<bool, AllocError> {
        if is_device(answer) && !self.cut && !self.fail {
            return Ok(false);
        }
        let allowed = match command {
            Command::Start(start) => self.start(start, answer)?,
            Command::Entry(Entry::Stop(time)) => self.stop(*time, answer)?,
            Command::Entry(entry) => self.hand(entry, answer)?,
            Command::Commit => self.commit(answer),
            Command::Restart => self.restart(answer),
            Command::Recover => self.recover(answer)?,
            Command::Reopen => self.reopen(answer)?,
            Command::Erase => self.erase(answer)?,
            Command::Fail(_) | Command::Cut(_) | Command::Power => self.arrange(command, answer),
        };
        if is_device(answer) {
            self.fail = false;
        }
        Ok(allowed)
    }

    // Whether it is possible that nothing is recorded.
    fn has_none(&self) -> bool {
        self.claims.iter().any(|claim| claim.list.is_empty())
    }

    // From here on all of this list is recorded, and nothing else.
    fn keep(&mut self, list: &[Recorded]) -> Result<(), AllocError> {
        let mut claims = Vec::new(self.alloc);
        claims.push(whole(self.alloc, list)?)?;
        self.claims = claims;
        Ok(())
    }

    // The recorder that runs ends.
    fn end(&mut self) {
        self.riding = false;
        self.broken = false;
    }

    fn restart(&mut self, answer: &Answer) -> bool {
        self.end();
        *answer == Answer::Done
    }

    fn arrange(&mut self, command: &Command, answer: &Answer) -> bool {
        match command {
            Command::Fail(_) => self.fail = true,
            Command::Cut(_) => self.cut = true,
            _ => {
                self.end();
                self.fail = false;
                self.cut = false;
            }
        }
        *answer == Answer::Done
    }

    fn start(&mut self, start: &Start, answer: &Answer) -> Result<bool, AllocError> {
        self.end();
        let fits = start_fits(start);
        match answer {
            Answer::Done => {
                let allowed = fits && self.has_none();
                self.keep(&[Recorded::Started(*start)])?;
                self.riding = true;
                self.begun = true;
                Ok(allowed)
            }
            Answer::Refused(RecFault::Refused(refusal)) => Ok(!fits && *refusal == Refusal::Time),
            Answer::Refused(RecFault::NotEmpty) => Ok(fits && self.begun),
            Answer::Refused(RecFault::Device) => {
                if self.has_none() {
                    let claim = whole(self.alloc, &[Recorded::Started(*start)])?;
                    self.claims.push(claim)?;
                }
                self.begun = true;
                Ok(fits)
            }
            _ => Ok(false),
        }
    }

    // An entry that is no stop. No history here is so long that there is no room.
    fn hand(&mut self, entry: &Entry, answer: &Answer) -> Result<bool, AllocError> {
        if !self.riding || self.broken {
            return Ok(self.is_idle(answer));
        }
        match answer {
            Answer::Done => {
                self.keep_refusing(entry, None);
                self.add(entry)?;
            }
            Answer::Refused(RecFault::Refused(outcome)) => self.keep_refusing(
                entry,
                Some(*outcome),
            ),
            Answer::Refused(RecFault::Device) => {
                self.keep_refusing(entry, None);
                self.broken = true;
            }
            _ => return Ok(false),
        }
        Ok(!self.claims.is_empty())
    }

    // Keeps the lists after which the entry is refused for this reason, or is not refused.
    fn keep_refusing(&mut self, entry: &Entry, refusal: Option<Refusal>) {
        self.claims
            .retain(|claim| refusal_of(&claim.list, entry) == refusal);
    }

    // Adds the entry to each list.
    fn add(&mut self, entry: &Entry) -> Result<(), AllocError> {
        for claim in &mut self.claims {
            claim.list.push(Recorded::Added(*entry))?;
        }
        Ok(())
    }

    // Promises all that was handed in.
    fn promise_all(&mut self) {
        for claim in &mut self.claims {
            claim.promise = claim.list.len();
        }
    }

    // No history here has so many commits that the journal is full.
    fn commit(&mut self, answer: &Answer) -> bool {
        if !self.riding || self.broken {
            return self.is_idle(answer);
        }
        match answer {
            Answer::Done => {
                self.promise_all();
                true
            }
            Answer::Refused(RecFault::Device) => {
                self.broken = true;
                true
            }
            _ => false,
        }
    }

    fn stop(&mut self, time: u32, answer: &Answer) -> Result<bool, AllocError> {
        if !self.riding || self.broken {
            return Ok(self.is_idle(answer));
        }
        let stop = Entry::Stop(time);
        match answer {
            Answer::Refused(RecFault::Refused(outcome)) => self.keep_refusing(
                &stop,
                Some(*outcome),
            ),
            Answer::Stopped { file } => {
                self.keep_refusing(&stop, None);
                self.add(&stop)?;
                self.promise_all();
                self.keep_outcome(file)?;
                self.end();
            }
            Answer::Refused(RecFault::Device) => {
                self.keep_refusing(&stop, None);
                self.add(&stop)?;
                self.broken = true;
            }
            _ => return Ok(false),
        }
        Ok(!self.claims.is_empty())
    }

    // Keeps the lists whose finished file this is.
    fn keep_outcome(&mut self, file: &[u8]) -> Result<(), AllocError> {
        let mut kept = Vec::new(self.alloc);
        if let Some(outcome) = outcome_by(self.alloc, file)? {
            for claim in &self.claims {
                if outcome == outcome_of(self.alloc, &claim.list)? {
                    kept.push(whole(self.alloc, &claim.list)?)?;
                }
            }
        }
        self.claims = kept;
        Ok(())
    }

    // The only possible answer if no recorder runs, or if the device failed in it.
    fn is_idle(&self, answer: &Answer) -> bool {
        match self.riding {
            false => *answer == Answer::NoRecorder,
            true => *answer == Answer::Refused(RecFault::Failed),
        }
    }

    fn recover(&mut self, answer: &Answer) -> Result<bool, AllocError> {
        self.end();
        match answer {
            Answer::Recovered { summary, file } => self.recovered(summary, file),
            Answer::Refused(RecFault::NothingRecorded) => {
                let allowed = self.has_none();
                self.keep(&[])?;
                Ok(allowed)
            }
            Answer::Refused(RecFault::Device) => Ok(true),
            _ => Ok(false),
        }
    }

    // The file is that of a prefix of some claim, no shorter than it promises and not empty. Two prefixes may have the same file:
    // the longer one may end with a stop at the time of the entry before it.
    fn recovered(&mut self, summary: &Summary, file: &[u8]) -> Result<bool, AllocError> {
        let Some(outcome) = outcome_by(self.alloc, file)? else {
            return Ok(false);
        };
        let mut kept = Vec::new(self.alloc);
        for claim in &self.claims {
            for len in claim.promise.max(1)..claim.list.len().saturating_add(1) {
                if let Some(beginning) = claim.list.as_slice().get(..len) {
                    if sums_of(beginning) == *summary
                        && outcome == outcome_of(self.alloc, beginning)?
                    {
                        kept.push(whole(self.alloc, beginning)?)?;
                    }
                }
            }
        }
        self.claims = kept;
        Ok(!self.claims.is_empty())
    }

    // A ride that has no stop is continued.
    fn reopen(&mut self, answer: &Answer) -> Result<bool, AllocError> {
        self.end();
        match answer {
            Answer::Done => {
                self.keep_beginnings()?;
                self.riding = true;
                Ok(!self.claims.is_empty())
            }
            Answer::Refused(RecFault::Refused(Refusal::Stopped)) => Ok(
                self.claims.iter().any(|claim| has_stopped(&claim.list)),
            ),
            Answer::Refused(RecFault::NothingRecorded) => {
                let allowed = self.has_none();
                self.keep(&[])?;
                Ok(allowed)
            }
            Answer::Refused(RecFault::Device) => Ok(true),
            _ => Ok(false),
        }
    }

    // What may be recorded and has no stop: the prefixes of each claim, no shorter than it promises and not empty.
    fn keep_beginnings(&mut self) -> Result<(), AllocError> {
        let mut kept: Vec<Claim> = Vec::new(self.alloc);
        for claim in &self.claims {
            for len in claim.promise.max(1)..claim.list.len().saturating_add(1) {
                if let Some(beginning) = claim.list.as_slice().get(..len) {
                    let known = kept.iter().any(|other| other.list.as_slice() == beginning);
                    if !known && !has_stopped(beginning) {
                        kept.push(whole(self.alloc, beginning)?)?;
                    }
                }
            }
        }
        self.claims = kept;
        Ok(())
    }

    fn erase(&mut self, answer: &Answer) -> Result<bool, AllocError> {
        self.end();
        match answer {
            Answer::Done => {
                self.keep(&[])?;
                self.begun = false;
                Ok(true)
            }
            Answer::Refused(RecFault::Device) => {
                let nothing = whole(self.alloc, &[])?;
                self.claims.push(nothing)?;
                Ok(true)
            }
            _ => Ok(false),
        }
    }
}

/// Whether these are possible answers to these events over two empty files.
pub fn is_history(alloc: Global, events: &[Event], answers: &[Answer]) -> Result<bool, AllocError> {
    if events.len() != answers.len() {
        return Ok(false);
    }
    let mut table = Table::new(alloc)?;
    for (event, answer) in events.iter().zip(answers) {
        if !table.allows(&event.command, answer)? {
            return Ok(false);
        }
    }
    Ok(true)
}

// Lists of what is recorded: which entry may come after a list, and what a list adds up to. Each rule is stated over the whole list.

use fit_activity::{Entry, Refusal, SAMPLE_FIELDS, Sample, Start, Summary};

/// The start of a recording, or an entry after it.
#[derive(Clone, Copy, Debug, PartialEq, Eq)]
pub enum Recorded {
    Started(Start),
    Added(Entry),
}

impl Recorded {
    fn time(&self) -> u32 {
        match self {
            Recorded::Started(start) => start.time,
            Recorded::Added(entry) => entry.time(),
        }
    }
}

/// Whether a recording may start at this time: the first calendar time or later, and not the invalid value.
pub fn start_fits(start: &Start) -> bool {
    start.time >= 0x1000_0000 && start.time != u32::MAX
}

// The time of the start, and of the last entry.
fn start_time(list: &[Recorded]) -> u32 {
    list.first().map_or(0, |one| one.time())
}

pub fn end_time(list: &[Recorded]) -> u32 {
    list.last().map_or(0, |one| one.time())
}

/// Whether the list ends with a stop.
pub fn has_stopped(list: &[Recorded]) -> bool {
    matches!(list.last(), Some(Recorded::Added(Entry::Stop(_))))
}

// Whether the timer runs after this entry, if it ran before it or not.
fn runs_after(ran: bool, one: &Recorded) -> bool {
    match one {
        Recorded::Started(_) | Recorded::Added(Entry::Resume(_)) => true,
        Recorded::Added(Entry::Pause(_) | Entry::Stop(_)) => false,
        Recorded::Added(Entry::Sample(_) | Entry::Lap(_)) => ran,
    }
}

fn runs(list: &[Recorded]) -> bool {
    let mut running = false;
    for one in list {
        running = runs_after(running, one);
    }
    running
}

// The distance of the last sample that has one.
fn known_distance(list: &[Recorded]) -> Option<u32> {
    let mut known = None;
    for one in list {
        if let Recorded::Added(Entry::Sample(sample)) = one {
            if sample.distance.is_some() {
                known = sample.distance;
            }
        }
    }
    known
}

// The number of the first field that holds the invalid value of its type.
fn invalid_field(sample: &Sample) -> Option<u8> {
    for (row, value) in SAMPLE_FIELDS.iter().zip(sample.raw_values()) {
        if value.map(u64::from) == Some(row.1.invalid()) {
            return Some(row.0);
        }
    }
    None
}

// Why a sample is refused for its values.
fn refusal_of_values(list: &[Recorded], sample: &Sample) -> Option<Refusal> {
    if let Some(number) = invalid_field(sample) {
        return Some(Refusal::Value(number));
    }
    match (sample.distance, known_distance(list)) {
        (Some(distance), Some(known)) if distance < known => Some(Refusal::Distance),
        _ => None,
    }
}

/// Why the entry may not come after the list, if so. No list here has 999 laps.
pub fn refusal_of(list: &[Recorded], entry: &Entry) -> Option<Refusal> {
    let time = entry.time();
    if has_stopped(list) {
        return Some(Refusal::Stopped);
    }
    if time < end_time(list) || time == u32::MAX {
        return Some(Refusal::Time);
    }
    if time.saturating_sub(start_time(list)) > 4_000_000 {
        return Some(Refusal::TooLong);
    }
    match entry {
        Entry::Sample(_) | Entry::Pause(_) if !runs(list) => Some(Refusal::TimerStopped),
        Entry::Resume(_) if runs(list) => Some(Refusal::TimerRunning),
        Entry::Sample(sample) => refusal_of_values(list, sample),
        _ => None,
    }
}

// For how many seconds the timer ran. A second counts if the timer runs after all that is recorded at that second or before.
fn timer(list: &[Recorded]) -> u32 {
    let mut seconds: u32 = 0;
    let mut since = start_time(list);
    let mut running = false;
    for one in list {
        if running {
            seconds = seconds.saturating_add(one.time().saturating_sub(since));
        }
        since = one.time();
        running = runs_after(running, one);
    }
    seconds
}

/// The summary of the finished file of the list.
pub fn sums_of(list: &[Recorded]) -> Summary {
    let mut records: u32 = 0;
    let mut laps: u32 = 1;
    for one in list {
        match one {
            Recorded::Added(Entry::Sample(_)) => records = records.saturating_add(1),
            Recorded::Added(Entry::Lap(_)) => laps = laps.saturating_add(1),
            _ => {}
        }
    }
    let elapsed = end_time(list).saturating_sub(start_time(list));
    Summary {
        records,
        laps,
        sessions: 1,
        start: Some(start_time(list)),
        elapsed_ms: Some(elapsed.saturating_mul(1000)),
        timer_ms: Some(timer(list).saturating_mul(1000)),
        distance_cm: known_distance(list),
    }
}

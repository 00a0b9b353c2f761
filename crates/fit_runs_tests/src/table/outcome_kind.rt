// What the messages of a file encode, in their order, and what those of the finished file of a list have to encode.

use super::list::{Recorded, end_time, has_stopped, sums_of};
use fit_activity::{Entry, Sport, Summary, check_activity, entry_of, file_id_of, sport_of};
use fit_grammar::{Message, decode_file};
use std::alloc::{AllocError, Global};

/// What one message encodes. For a message that closes a file this is only its global number.
#[derive(Clone, Copy, Debug, PartialEq, Eq)]
pub enum OutcomeKind {
    FileId(u32, u32),
    Sport(Sport),
    Entry(Entry),
    Other(u16),
}

/// What a file encodes.
#[derive(Debug, Drop, PartialEq, Eq)]
pub struct Outcome {
    pub summary: Summary,
    messages: Vec<OutcomeKind>,
}

fn outcome_kind_of(message: &Message) -> OutcomeKind {
    if let Some((time, serial)) = file_id_of(message) {
        return OutcomeKind::FileId(time, serial);
    }
    if let Some(sport) = sport_of(message) {
        return OutcomeKind::Sport(sport);
    }
    match entry_of(message) {
        Some(entry) => OutcomeKind::Entry(entry),
        None => OutcomeKind::Other(message.global()),
    }
}

/// What the bytes encode. None if they are not a valid file, or not an activity.
pub fn outcome_by(alloc: Global, bytes: &[u8]) -> Result<Option<Outcome>, AllocError> {
    let Ok(file) = decode_file(alloc, bytes) else {
        return Ok(None);
    };
    let Ok(summary) = check_activity(&file.lend()) else {
        return Ok(None);
    };
    let mut messages = Vec::new(alloc);
    for message in file.messages() {
        messages.push(outcome_kind_of(&message))?;
    }
    Ok(Some(Outcome { summary, messages }))
}

/// What the finished file of the list encodes: its messages, a stop if it has none, the last lap, the session and the activity.
pub fn outcome_of(alloc: Global, list: &[Recorded]) -> Result<Outcome, AllocError> {
    let mut messages = Vec::new(alloc);
    for one in list {
        match one {
            Recorded::Started(start) => {
                messages.push(OutcomeKind::FileId(start.time, start.serial))?;
                messages.push(OutcomeKind::Sport(start.sport))?;
                messages.push(OutcomeKind::Entry(Entry::Resume(start.time)))?;
            }
            Recorded::Added(entry) => messages.push(OutcomeKind::Entry(*entry))?,
        }
    }
    if !has_stopped(list) {
        messages.push(OutcomeKind::Entry(Entry::Stop(end_time(list))))?;
    }
    for global in [19, 18, 34] {
        messages.push(OutcomeKind::Other(global))?;
    }
    Ok(Outcome {
        summary: sums_of(list),
        messages,
    })
}

// What a pass over messages keeps of the messages that it has seen.

ghost use Rattle.std.specs.Prelude.{◌≡◌, ◌+◌, ◌<◌, ◌^◌, []};
ghost use Rattle.fit_activity.specs.Private.Seen.{session_values as values_of_session};

use crate::activity::{ActivityFault, Summary};
use crate::speaking::numbers::{ACTIVITY, ACTIVITY_FILE, FILE_ID, LAP, RECORD, SESSION};
use fit_base::BaseType;
use fit_grammar::Message;

// What the messages so far state.
#[derive(Drop)]
pub(crate) struct Seen {
    // Whether there was a message, whether the first one is a file_id, and whether it is that of an activity.
    begun: bool,
    file_id: bool,
    activity_file: bool,
    records: u32,
    laps: u32,
    sessions: u32,
    activities: u32,
    // The values of the first session.
    session: SessionValues,
}

// The values of a session that go into a summary.
#[derive(Clone, Copy)]
pub(crate) struct SessionValues {
    start: Option<u32>,
    elapsed_ms: Option<u32>,
    timer_ms: Option<u32>,
    distance_cm: Option<u32>,
}

impl Seen {
    ghost use Rattle.fit_activity.specs.Private.Seen.{seen_in_messages, seen_with, first_seen, session_seen, counted, activity_seen};

    // No messages.
    pub(crate) fn new() -> Seen
        ensures { result ≡ seen_in_messages [] }
    {
        Seen {
            begun: false,
            file_id: false,
            activity_file: false,
            records: 0,
            laps: 0,
            sessions: 0,
            activities: 0,
            session: SessionValues {
                start: None,
                elapsed_ms: None,
                timer_ms: None,
                distance_cm: None,
            },
        }
    }

    // Takes one more message.
    pub(crate) fn take(&mut self, message: &Message)
        requires records { self.old.records + 1 < 2 ^ 32 }
        requires laps { self.old.laps + 1 < 2 ^ 32 }
        requires sessions { self.old.sessions + 1 < 2 ^ 32 }
        requires activities { self.old.activities + 1 < 2 ^ 32 }
        ensures { self.new ≡ seen_with self.old message.now.message }
    {
        self.see_first(message);
        self.see_session(message);
        self.count(message.global());
    }

    // Keeps what the first message states.
    fn see_first(&mut self, message: &Message)
        ensures { self.new ≡ first_seen self.old message.now.message }
    {
        if !self.begun {
            self.begun = true;
            self.file_id = message.global() == FILE_ID;
            self.activity_file = message.value_of(0, BaseType::Enum)
                == Some(u32::from(ACTIVITY_FILE));
        }
    }

    // Keeps what the first session states.
    fn see_session(&mut self, message: &Message)
        ensures { self.new ≡ session_seen self.old message.now.message }
    {
        if self.sessions == 0 && message.global() == SESSION {
            self.session = session_values(message);
        }
    }

    // Counts one more message of this global number.
    fn count(&mut self, global: u16)
        requires records { self.old.records + 1 < 2 ^ 32 }
        requires laps { self.old.laps + 1 < 2 ^ 32 }
        requires sessions { self.old.sessions + 1 < 2 ^ 32 }
        requires activities { self.old.activities + 1 < 2 ^ 32 }
        ensures { self.new ≡ counted self.old global }
    {
        match global {
            SESSION => self.sessions += 1,
            LAP => self.laps += 1,
            RECORD => self.records += 1,
            ACTIVITY => self.activities += 1,
            _ => {}
        }
    }

    // The first fault of the messages, else their summary.
    pub(crate) fn verdict(&self) -> Result<Summary, ActivityFault>
        ensures { result ≡ activity_seen self.now }
    {
        if !self.file_id {
            return Err(ActivityFault::NoFileId);
        }
        if !self.activity_file {
            return Err(ActivityFault::NotActivity);
        }
        if self.laps == 0 {
            return Err(ActivityFault::NoLap);
        }
        if self.sessions == 0 {
            return Err(ActivityFault::NoSession);
        }
        if self.activities == 0 {
            return Err(ActivityFault::NoActivity);
        }
        Ok(Summary {
            records: self.records,
            laps: self.laps,
            sessions: self.sessions,
            start: self.session.start,
            elapsed_ms: self.session.elapsed_ms,
            timer_ms: self.session.timer_ms,
            distance_cm: self.session.distance_cm,
        })
    }
}

// The values of a session.
fn session_values(message: &Message) -> SessionValues
    ensures { result ≡ values_of_session message.now.message }
{
    SessionValues {
        start: message.value_of(2, BaseType::Uint32),
        elapsed_ms: message.value_of(7, BaseType::Uint32),
        timer_ms: message.value_of(8, BaseType::Uint32),
        distance_cm: message.value_of(9, BaseType::Uint32),
    }
}

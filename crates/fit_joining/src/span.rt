// The first and the last entry of a part, and its timer there.

ghost use Rattle.std.specs.Prelude.{◌≡◌};
ghost use Rattle.fit_grammar.specs.Format.Message.{messages_of};
ghost use Rattle.fit_joining.specs.Timer.{entry_time, kind_by, span_after, span_of as span_of_messages, start_due, stop_due, timer_event, timer_kind};

use fit_base::BaseType;
use fit_grammar::{LentFile, Message};

// Whether the first event of the timer starts it, and the last one; and the times of the first and the last entry.
#[derive(Clone, Copy)]
pub(crate) struct Span {
    pub(crate) begins: Option<bool>,
    pub(crate) ends: Option<bool>,
    pub(crate) first: Option<u32>,
    pub(crate) last: Option<u32>,
}

// The span of a file's entries. Laps count if they stay.
pub(crate) fn span_of(keeps_laps: bool, file: &LentFile<'_>) -> Span
    ensures { result ≡ span_of_messages keeps_laps (messages_of file.now.items) }
{
    let mut span = Span {
        begins: None,
        ends: None,
        first: None,
        last: None,
    };
    for message in file.messages() {
        span = span.after(keeps_laps, &message);
    }
    span
}

impl Span {
    // The time at which this part has to start the timer, if it follows another and does not.
    pub(crate) fn start_due(self, follows: bool) -> Option<u32>
        ensures { result ≡ start_due follows self }
    {
        if !follows {
            return None;
        }
        match self.begins {
            Some(true) => None,
            _ => self.first,
        }
    }

    // The time at which this part has to stop the timer, if another follows and it does not.
    pub(crate) fn stop_due(self, is_followed: bool) -> Option<u32>
        ensures { result ≡ stop_due is_followed self }
    {
        if !is_followed {
            return None;
        }
        match self.ends {
            Some(false) => None,
            _ => self.last,
        }
    }

    // With one more message.
    fn after(self, keeps_laps: bool, message: &Message<'_>) -> Span
        ensures { result ≡ span_after keeps_laps self message.now.message }
    {
        let event = timer_event(message);
        let time = entry_time(keeps_laps, message);
        Span {
            begins: self.begins.or(event),
            ends: event.or(self.ends),
            first: self.first.or(time),
            last: time.or(self.last),
        }
    }
}

// The time of a record, of an event, and of a lap, if laps stay.
fn entry_time(keeps_laps: bool, message: &Message<'_>) -> Option<u32>
    ensures { result ≡ entry_time keeps_laps message.now.message }
{
    match message.global() {
        20 | 21 => message.value_of(253, BaseType::Uint32),
        19 if keeps_laps => message.value_of(253, BaseType::Uint32),
        _ => None,
    }
}

// Whether an event starts the timer or stops it.
fn timer_event(message: &Message<'_>) -> Option<bool>
    ensures { result ≡ timer_event message.now.message }
{
    match message.global() {
        21 => kind_by(
            message.value_of(0, BaseType::Enum),
            message.value_of(1, BaseType::Enum),
        ),
        _ => None,
    }
}

fn kind_by(event: Option<u32>, event_type: Option<u32>) -> Option<bool>
    ensures { result ≡ kind_by event event_type }
{
    match (event, event_type) {
        (Some(0), Some(event_type)) => timer_kind(event_type),
        _ => None,
    }
}

fn timer_kind(event_type: u32) -> Option<bool>
    ensures { result ≡ timer_kind event_type }
{
    match event_type {
        0 => Some(true),
        1 | 4 | 8 | 9 => Some(false),
        _ => None,
    }
}

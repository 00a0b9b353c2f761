// The messages that a file lacks at its beginning and its end.

ghost use Rattle.std.specs.Prelude.{◌≡◌, ◌+◌, List};
ghost use Rattle.fit_grammar.specs.Format.Message.{messages_of};
ghost use Rattle.fit_activity.specs.Rides.Recording.{Recorded};
ghost use Rattle.fit_activity.specs.Rides.RunningTotals.{AreTotals};
ghost use Rattle.fit_activity.specs.Files.Activity.{begins_with_file_id as file_id_begins, messages_counted};
ghost use Rattle.fit_activity.specs.Messages.MessageBytes.{message_stated};
ghost use Rattle.fit_finishing.specs.Lacking.{added_one, goes_on, lacks_in as lacks_of, lacks_lap as open_lap_lacks, is_lacking, laps_finished, number_stated, sessions_finished};

use fit_activity::{SpokenMessage, Totals};
use fit_grammar::LentFile;

// Which messages a file lacks: the file_id, the event that stops the timer, the open lap, the session, the activity message.
#[derive(Clone, Copy)]
pub(crate) struct Lacks {
    pub(crate) file_id: bool,
    stop: bool,
    lap: bool,
    session: bool,
    activity: bool,
}

// What a file lacks whose messages are heard as a ride with these totals.
pub(crate) fn lacks_in(file: &LentFile<'_>, totals: &Totals) -> Lacks
    ensures { (list : List Recorded) → AreTotals totals.now list
        → result ≡ lacks_of (messages_of file.now.items) list }
{
    let sessions = count_of(file, 18);
    Lacks {
        file_id: !begins_with_file_id(file),
        stop: totals.running() && sessions == 0,
        lap: lacks_lap(
            count_of(file, 19),
            sessions,
            u32::from(totals.lap().index),
            went_on(totals),
        ),
        session: sessions == 0,
        activity: count_of(file, 34) == 0,
    }
}

// Whether the first message of a file is a file_id.
fn begins_with_file_id(file: &LentFile<'_>) -> bool
    ensures { result ≡ file_id_begins (messages_of file.now.items) }
{
    match file.messages().next() {
        Some(message) => message.global() == 0,
        None => false,
    }
}

// How many laps the finished file has, as its session states it.
pub(crate) fn laps_of(file: &LentFile<'_>, lacks: Lacks) -> u16
    ensures { result ≡ number_stated (laps_finished lacks (messages_of file.now.items)) }
{
    stated(count_of(file, 19), lacks.lap)
}

// How many sessions it has, as its activity message states them.
pub(crate) fn sessions_of(file: &LentFile<'_>, lacks: Lacks) -> u16
    ensures { result ≡ number_stated (sessions_finished lacks (messages_of file.now.items)) }
{
    stated(count_of(file, 18), lacks.session)
}

// The number of so many and of one that is added, in two bytes.
fn stated(own: u32, added: bool) -> u16
    ensures { result ≡ number_stated (own + added_one added) }
{
    let own = own.min(65_535) as u16;
    if added { own.saturating_add(1) } else { own }
}

// Whether the ride went on after its last lap.
fn went_on(totals: &Totals) -> bool
    ensures { (list : List Recorded) → AreTotals totals.now list → result ≡ goes_on list }
{
    totals.running() || totals.lap().stretch.elapsed > 0
}

// Whether a file lacks the open lap, if it has so many laps and sessions, and so many of its laps were heard.
fn lacks_lap(laps: u32, sessions: u32, heard: u32, went_on: bool) -> bool
    ensures { result ≡ open_lap_lacks laps sessions heard went_on }
{
    laps == 0 || sessions == 0 && laps <= heard && went_on
}

// How many messages of this global number a file has.
fn count_of(file: &LentFile<'_>, global: u16) -> u32
    ensures { result ≡ messages_counted global (messages_of file.now.items) }
{
    // Every file has fewer than 2^32 messages.
    let _frame = file.frame();
    let mut count = 0;
    for message in file.messages() {
        if message.global() == global {
            count += 1;
        }
    }
    count
}

impl Lacks {
    // Whether this message is one of them.
    pub(crate) fn has(self, message: &SpokenMessage) -> bool
        ensures { result ≡ is_lacking self (message_stated message.now) }
    {
        match message.definition().global {
            0 => self.file_id,
            21 => self.stop,
            19 => self.lap,
            18 => self.session,
            34 => self.activity,
            _ => false,
        }
    }
}

// The messages of a file, heard one after another.

ghost use Rattle.std.specs.Prelude.{◌≡◌, ◌<◌, ◌+◌, ◌^◌};
ghost use Rattle.fit_grammar.specs.Format.Message.{messages_of};
ghost use Rattle.fit_finishing.specs.Heard.{Heard as AnyHeard, started_by, entry_heard, heard_as};
ghost use Rattle.fit_finishing.specs.Private.Ride.{IsHearing, before_start, held};

use crate::entries::entry_in;
use crate::ride::Ride;
use fit_activity::{Entry, Sport};
use fit_grammar::LentFile;

// What was heard: before the start how many entries were left out, then the ride.
#[derive(Drop)]
pub(crate) enum Hearing {
    Before(u32),
    Riding(Ride),
}

// Hears all messages of a file as a ride of this sport.
pub(crate) fn hear(file: &LentFile<'_>, sport: Sport) -> Hearing
    ensures { IsHearing result (heard_as sport (messages_of file.now.items)) }
{
    // Every file has fewer than 2^32 messages.
    let _frame = file.frame();
    let mut hearing = Hearing::Before(0);
    for message in file.messages() {
        if let Some(entry) = entry_in(&message) {
            hearing.hear_entry(sport, &entry);
        }
    }
    hearing
}

impl Hearing {
    // Hears one more entry.
    fn hear_entry(&mut self, sport: Sport, entry: &Entry)
        requires { (h : AnyHeard) × IsHearing self.old h × (held h < 2 ^ 32) }
        ensures { (h : AnyHeard) → IsHearing self.old h
            → IsHearing self.new (entry_heard sport entry.now h) }
    {
        match self {
            Hearing::Riding(ride) => ride.follow(entry),
            Hearing::Before(left_out) => *self = start(sport, entry, *left_out),
        }
    }
}

// Hears the entry that may start a ride, after so many that were left out.
fn start(sport: Sport, entry: &Entry, left_out: u32) -> Hearing
    requires { left_out + 1 < 2 ^ 32 }
    ensures { IsHearing result (started_by sport entry.now (before_start left_out)) }
{
    match Ride::start(sport, entry, left_out) {
        Some(mut ride) => {
            ride.follow(entry);
            Hearing::Riding(ride)
        }
        None => Hearing::Before(left_out + 1),
    }
}

// Judges items by their form, their times and their values.

ghost use Rattle.std.specs.Prelude.{◌≡◌, ◌-◌, nat_lt, is_some, option_map};
ghost use Rattle.fit_grammar.specs.Calls.LentMessage.{message_lent};
ghost use Rattle.fit_mending.specs.Judged.{anew as anew_of, judged, judged_with, moved, nothing, sign_by as sign_by_of, values_beside};

use crate::clock::{Clock, NO_TIMES, RECORD, Sign};
use crate::form::{is_blank, is_compressed, is_reserved};
use crate::layout::is_plausible;
use crate::values::{Change, NO_VALUES, Values};
use fit_grammar::{Item, Message, message_of};

// The number of the message that names a file, which has one, before its records.
const FILE_ID: u16 = 0;

// The numbers of the messages that end a leg of several sports.
const SESSION: u16 = 18;

const LAP: u16 = 19;

// Before so many records times may fall, and the ride is what follows.
const FEW: u32 = 64;

/// How far the items so far have come: their times, and the distances and positions of the records.
#[derive(Clone, Copy)]
pub struct Progress {
    pub clock: Clock,
    pub values: Values,
    /// How many records there were.
    pub records: u32,
    /// Whether definitions of another file are in force, which may be those of another device.
    pub is_guessed: bool,
}

impl Progress {
    // Before any item.
    pub(crate) fn new() -> Progress
        ensures { result ≡ nothing }
    {
        Progress {
            clock: NO_TIMES,
            values: NO_VALUES,
            records: 0,
            is_guessed: false,
        }
    }

    // What is left of it where a ride begins anew: distances and positions do, and times leap. They fall only after few records, as where
    // a clock was set, or else it is another ride.
    pub(crate) fn anew(&self) -> Progress
        ensures { result ≡ anew_of self.now }
    {
        let mut progress = *self;
        progress.values = NO_VALUES;
        if self.has_few() {
            progress.clock = NO_TIMES;
            progress.records = 0;
        } else {
            progress.clock.may_leap = true;
        }
        progress
    }

    // By how many seconds the last time is later than that after other items.
    pub(crate) fn seconds_after(&self, other: &Progress) -> u32
        ensures { result ≡ self.now.clock.last - other.now.clock.last }
    {
        self.clock.last.saturating_sub(other.clock.last)
    }

    // Whether a time is known that an item could contradict.
    pub(crate) fn is_timed(&self) -> bool
        ensures { result ≡ is_some self.now.clock.latest }
    {
        self.clock.latest.is_some()
    }

    // Whether there were so few records that the ride may be what follows.
    pub(crate) fn has_few(&self) -> bool
        ensures { result ≡ nat_lt self.now.records 64 }
    {
        self.records < FEW
    }

    // What an item says of whether these bytes are no noise, or none if it is a fault: a definition that no device writes, a reserved bit,
    // an erased stretch, a file_id after a record, or a time, a distance or a position that falls or leaps. From here on its times and
    // values are the last ones.
    pub(crate) fn judge(&mut self, item: &Item<'_>, bytes: &[u8]) -> Option<Sign>
        ensures { judged self.old (message_lent item.now self.old.clock.last) bytes.now
            ≡ option_map (λ sign. judged_with sign self.new) result }
    {
        let Some(message) = message_of(item, self.clock.last) else {
            return if is_plausible(bytes) {
                Some(Sign::Nothing)
            } else {
                None
            };
        };
        if is_reserved(bytes)
            || is_blank(bytes)
            || (message.global() == FILE_ID && self.records > 0)
        {
            return None;
        }
        let sign = self.clock.hear(&message, is_compressed(bytes))?;
        if message.global() != RECORD {
            self.pass_by(message.global());
            return Some(sign);
        }
        self.move_to(&message, sign)
    }

    // Takes notice of a message of this number that is no record: after one that may end a leg the distance may begin anew.
    fn pass_by(&mut self, global: u16)
        ensures { self.new ≡ (record self.old { values = values_beside self.old.values global }) }
    {
        if global == SESSION || global == LAP {
            self.values.distance = None;
        }
    }

    // The same of a record whose time says this.
    fn move_to(&mut self, ride: &Message<'_>, sign: Sign) -> Option<Sign>
        ensures { moved self.old ride.now.message.fields sign
            ≡ option_map (λ sign. judged_with sign self.new) result }
    {
        self.records = self.records.saturating_add(1);
        let change = self.values.follow(ride, self.clock.last);
        sign_by(change, sign)
    }
}

// What a record says if its values change so. A compressed timestamp counts as a stated time if they go on as usual.
fn sign_by(change: Change, sign: Sign) -> Option<Sign>
    ensures { result ≡ sign_by_of change sign }
{
    match change {
        Change::Unknown => Some(sign),
        Change::Usual => match sign {
            Sign::Weak => Some(Sign::Strong),
            _ => Some(sign),
        },
        Change::Large => Some(Sign::Doubtful),
        Change::Impossible => None,
    }
}

// Judges messages by their times.

ghost use Rattle.std.specs.Prelude.{◌≡◌, option_map};
ghost use Rattle.fit_mending.specs.Times.{before_of, heard, heard_compressed, heard_stated, heard_with, may_follow as may_follow_at, set_to, stated_sign as stated_sign_of, states_twice};

use fit_grammar::Message;

// The number of record messages, which have the values of one moment.
pub(crate) const RECORD: u16 = 20;

// The number of the field that states a time.
const TIME: u8 = 253;

// How far two times of a ride are apart at most, in seconds.
pub(crate) const DAY: u32 = 86_400;

// A record whose time is later by more seconds than this is no sign until the next one follows it, and another message is worth less.
const LEAP: u32 = 120;

/// What an item says of whether its bytes are no noise.
#[derive(Clone, Copy)]
pub enum Sign {
    /// Its time or a value leaps, as after a pause or a gap.
    Doubtful,
    Nothing,
    /// It has a compressed timestamp, which noise has more easily, or is no record and leaps.
    Weak,
    /// It states a later time than the one before it.
    Strong,
}

/// The times of the items so far, in seconds since 1989-12-31 00:00 UTC.
#[derive(Clone, Copy)]
pub struct Clock {
    /// The last time, from which a compressed timestamp counts.
    pub last: u32,
    /// The last time of a record.
    pub of_record: Option<u32>,
    /// The latest time.
    pub latest: Option<u32>,
    /// Whether the next time that is stated may be later by any number of seconds.
    pub may_leap: bool,
}

// Before any item.
pub(crate) const NO_TIMES: Clock = Clock {
    last: 0,
    of_record: None,
    latest: None,
    may_leap: false,
};

impl Clock {
    // What the time of a message says, or none if it falls or leaps by more than a day. From here on the clock has it.
    pub(crate) fn hear(&mut self, message: &Message<'_>, is_compressed: bool) -> Option<Sign>
        ensures { heard self.old message.now is_compressed
            ≡ option_map (λ sign. heard_with sign self.new) result }
    {
        let Some(time) = message.time() else {
            return Some(Sign::Nothing);
        };
        let is_record = message.global() == RECORD;
        if !is_compressed {
            return self.hear_stated(time, is_record);
        }
        if has_time_twice(message) {
            return None;
        }
        self.hear_compressed(time, is_record)
    }

    // The same of a message that states this time in a field.
    fn hear_stated(&mut self, time: u32, is_record: bool) -> Option<Sign>
        ensures { heard_stated self.old time is_record
            ≡ option_map (λ sign. heard_with sign self.new) result }
    {
        let sign = self.stated_sign(time, is_record);
        if !self.may_follow(time, is_record) {
            return None;
        }
        self.set(time, is_record);
        self.may_leap = false;
        Some(sign)
    }

    // The same of a message with a compressed timestamp.
    fn hear_compressed(&mut self, time: u32, is_record: bool) -> Option<Sign>
        ensures { heard_compressed self.old time is_record
            ≡ option_map (λ sign. heard_with sign self.new) result }
    {
        if self.latest.is_none() {
            return Some(Sign::Nothing);
        }
        if !is_record {
            return Some(Sign::Doubtful);
        }
        let sign = if time > self.last {
            Sign::Weak
        } else {
            Sign::Nothing
        };
        if !self.may_follow(time, true) {
            return None;
        }
        self.set(time, true);
        Some(sign)
    }

    // What a message says that states this time.
    fn stated_sign(&self, time: u32, is_record: bool) -> Sign
        ensures { result ≡ stated_sign_of self.now time is_record }
    {
        let Some(latest) = self.latest else {
            return Sign::Strong;
        };
        let before = self.before(latest, is_record);
        if !self.may_leap && time.saturating_sub(before) > LEAP {
            return if is_record {
                Sign::Doubtful
            } else {
                Sign::Weak
            };
        }
        if time > self.last {
            Sign::Strong
        } else {
            Sign::Nothing
        }
    }

    // The time before a message: for a record that of the last one, if there is one, or else the latest time.
    fn before(&self, latest: u32, is_record: bool) -> u32
        ensures { result ≡ before_of self.now latest is_record }
    {
        match self.of_record {
            Some(record) if is_record => record,
            _ => latest,
        }
    }

    // Sets the clock to the time of a message.
    fn set(&mut self, time: u32, is_record: bool)
        ensures { self.new ≡ set_to self.old time is_record }
    {
        self.last = time;
        self.latest = Some(self.latest.unwrap_or(time).max(time));
        if is_record {
            self.of_record = Some(time);
        }
    }

    // Whether a message may have this time: a record's does not fall, and no time leaps.
    fn may_follow(&self, time: u32, is_record: bool) -> bool
        ensures { result ≡ may_follow_at self.now time is_record }
    {
        let latest = self.latest.unwrap_or(time);
        if !self.may_leap && time.saturating_sub(latest) > DAY {
            return false;
        }
        match self.of_record {
            Some(record) if is_record => time >= record,
            _ => latest.saturating_sub(time) <= DAY,
        }
    }
}

// Whether a message with a compressed timestamp has a field for the time beside it.
fn has_time_twice(message: &Message<'_>) -> bool
    ensures { result ≡ states_twice message.now.message.fields }
{
    let mut found = false;
    for field in message.fields() {
        if field.number == TIME {
            if found {
                return true;
            }
            found = true;
        }
    }
    false
}

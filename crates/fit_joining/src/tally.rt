// What is counted of the parts of an activity so far.

ghost use Rattle.std.specs.Prelude.{◌≡◌};
ghost use Rattle.fit_grammar.specs.Format.Message.{messages_of};
ghost use Rattle.fit_joining.specs.Part.{distance_of, first_distance, further, goes_on_at, reached_by, stays, tally_after, tally_before};
ghost use Rattle.fit_joining.specs.Joined.{first_tally, next_tally};

use fit_base::BaseType;
use fit_grammar::{LentFile, Message};

// How far the parts before have to go for an odometer to go on from them, 100 m: a part that begins at 0 may have such a first distance.
const LEAST_BEFORE: u32 = 10_000;

// By how much further the first distance of a part is then, at most: 1 km.
const MOST_FURTHER: u32 = 100_000;

// Distances are in centimetres.
#[derive(Clone, Copy, Debug, PartialEq, Eq)]
pub(crate) struct Tally {
    // Whether this part follows another.
    pub(crate) follows: bool,
    // Whether laps stay.
    pub(crate) keeps_laps: bool,
    // How far the parts before went, and how far the last record went.
    pub(crate) begun_at: u32,
    pub(crate) reached: u32,
    // How many laps there are so far, at most 65535.
    pub(crate) laps: u16,
}

impl Tally {
    // Before the first part.
    pub(crate) fn first(keeps_laps: bool) -> Tally
        ensures { result ≡ first_tally keeps_laps }
    {
        Tally {
            follows: false,
            keeps_laps,
            begun_at: 0,
            reached: 0,
            laps: 0,
        }
    }

    // Before the part after the one that was counted.
    pub(crate) fn next(self) -> Tally
        ensures { result ≡ next_tally self }
    {
        Tally {
            follows: true,
            keeps_laps: self.keeps_laps,
            begun_at: self.reached,
            reached: self.reached,
            laps: self.laps,
        }
    }

    // Before this part. Its distances stay as they are if its odometer went on from the parts before.
    pub(crate) fn before(self, part: &LentFile<'_>) -> Tally
        ensures { result ≡ tally_before self (messages_of part.now.items) }
    {
        match first_distance(part) {
            Some(distance) if self.goes_on_at(distance) => Tally {
                follows: self.follows,
                keeps_laps: self.keeps_laps,
                begun_at: 0,
                reached: self.reached,
                laps: self.laps,
            },
            _ => self,
        }
    }

    // Whether a part whose first distance this is goes on where those before it ended, or soon after.
    fn goes_on_at(self, distance: u32) -> bool
        ensures { result ≡ goes_on_at self.reached distance }
    {
        LEAST_BEFORE <= self.reached
            && self.reached <= distance
            && distance - self.reached <= MOST_FURTHER
    }

    // A distance of this part, so much further; the greatest number is invalid.
    pub(crate) fn further(self, distance: u32) -> u32
        ensures { result ≡ further self.begun_at distance }
    {
        distance.saturating_add(self.begun_at)
    }

    // Whether a message of this part stays.
    pub(crate) fn keeps(self, message: &Message<'_>) -> bool
        ensures { result ≡ stays self message.now.message }
    {
        match message.global() {
            0 => !self.follows,
            18 | 34 => false,
            19 => self.keeps_laps,
            _ => true,
        }
    }

    // After a message of this part that stays.
    pub(crate) fn after(self, message: &Message<'_>) -> Tally
        ensures { result ≡ tally_after self message.now.message }
    {
        match message.global() {
            19 => Tally {
                follows: self.follows,
                keeps_laps: self.keeps_laps,
                begun_at: self.begun_at,
                reached: self.reached,
                laps: self.laps.saturating_add(1),
            },
            20 => Tally {
                follows: self.follows,
                keeps_laps: self.keeps_laps,
                begun_at: self.begun_at,
                reached: self.reached_by(distance_of(message)),
                laps: self.laps,
            },
            _ => self,
        }
    }

    // How far a record went that has this distance.
    fn reached_by(self, distance: Option<u32>) -> u32
        ensures { result ≡ reached_by self distance }
    {
        match distance {
            Some(distance) => self.further(distance),
            None => self.reached,
        }
    }
}

// The first distance that a record of this part has.
fn first_distance(part: &LentFile<'_>) -> Option<u32>
    ensures { result ≡ first_distance (messages_of part.now.items) }
{
    for message in part.messages() {
        let distance = distance_of(&message);
        if distance.is_some() {
            return distance;
        }
    }
    None
}

// The distance of a record.
fn distance_of(message: &Message<'_>) -> Option<u32>
    ensures { result ≡ distance_of message.now.message }
{
    match message.global() {
        20 => message.value_of(5, BaseType::Uint32),
        _ => None,
    }
}

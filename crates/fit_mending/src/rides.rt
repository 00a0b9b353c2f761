// Rides that begin in bytes that are left out.

ghost use Rattle.std.specs.Prelude.{◌≡◌, ◌<◌, ◌≤◌, ◌+◌, ◌↔◌, ◌++◌, ℕ, List, [], None, take, IfOk, IfSome, IsTrue};
ghost use Rattle.fit_grammar.specs.Format.Item.{Item as AnyItem};
ghost use Rattle.fit_grammar.specs.Format.Records.{in_force};
ghost use Rattle.fit_grammar.specs.Calls.LentMessage.{message_lent};
ghost use Rattle.fit_grammar.specs.Calls.Table.{definition_in};
ghost use Rattle.fit_mending.specs.Pieces.{AreItems, ArePieces, AreWithin};
ghost use Rattle.fit_mending.specs.Others.{AreOthers, GoesOn, IsFirstRide, IsOther, IsRide, followed_message, followed_other, followed_record, if_earlier as if_earlier_by, own_front};

use crate::clock::{DAY, RECORD};
use crate::pieces::Piece;
use crate::row::pass_row;
use fit_grammar::{Item, Latest, Step, message_of, step_after, take_over};
use std::alloc::{AllocError, Global};

// How many items at most show that a ride begins.
const MOST_ITEMS: u32 = 24;

// How many records it has at least, and by how many seconds the last time is later than that of the first one.
const RECORDS: u32 = 8;

const SECONDS: u32 = 8;

// The least time that is a date. Less is a time since a device was switched on.
const DATE: u32 = 0x1000_0000;

// How many seconds another ride starts at most before one's own. Bytes that are read shifted have any times.
const TEN_YEARS: u32 = 315_576_000;

// In how many bytes of what is kept one's own ride begins. What comes before its first record is shorter.
const FRONT: usize = 65_536;

/// The messages that were followed so far.
#[derive(Clone, Copy)]
pub struct Followed {
    /// The time of the first record.
    pub start: u32,
    /// The last time.
    pub time: u32,
    /// How many records there were.
    pub records: u32,
}

const NOTHING: Followed = Followed {
    start: 0,
    time: 0,
    records: 0,
};

impl Followed {
    // Whether these are a ride.
    fn is_ride(&self) -> bool
        ensures { IsTrue result ↔ IsRide self.now }
    {
        self.records >= RECORDS && self.time >= self.start && self.time - self.start >= SECONDS
    }

    // The messages with that of one more item, if it goes on with them.
    fn with(&self, item: &Item<'_>) -> Option<Followed>
        requires { self.now.records < 24 }
        ensures { result ≡ followed_message self.now (message_lent item.now self.now.time) }
    {
        let Some(message) = message_of(item, self.time) else {
            return Some(*self);
        };
        match message.time() {
            Some(time) if message.global() == RECORD => self.with_record(time),
            time => self.with_other(time),
        }
    }

    // The same of another message, which has this time or none.
    fn with_other(&self, time: Option<u32>) -> Option<Followed>
        ensures { result ≡ followed_other self.now time }
    {
        if self.records == 0 {
            return None;
        }
        let time = time.unwrap_or(self.time);
        if time.saturating_sub(self.time) > DAY || self.time.saturating_sub(time) > DAY {
            return None;
        }
        Some(Followed {
            start: self.start,
            time,
            records: self.records,
        })
    }

    // The same of a record of this time.
    fn with_record(&self, time: u32) -> Option<Followed>
        requires { self.now.records < 24 }
        ensures { result ≡ followed_record self.now time }
    {
        if time < DATE {
            return None;
        }
        if self.records == 0 {
            return Some(Followed {
                start: time,
                time,
                records: 1,
            });
        }
        if time < self.time || time - self.time > DAY {
            return None;
        }
        Some(Followed {
            start: self.start,
            time,
            records: self.records + 1,
        })
    }
}

// When the ride starts that begins at the front, after these messages, if at most so many more items show it.
fn ride_after<'a>(bytes: &'a [u8], latest: &Latest<'a>, so_far: Followed, most: u32) -> Option<u32>
    requires { so_far.records + most ≤ 24 }
    ensures some { IfSome result (GoesOn most (definition_in latest.now) so_far bytes.now) }
    ensures none { result ≡ None → (time : ℕ)
        → GoesOn most (definition_in latest.now) so_far bytes.now time → ⊥ }
{
    if so_far.is_ride() {
        return Some(so_far.start);
    }
    if most == 0 {
        return None;
    }
    let Step::Item(item, used) = step_after(bytes, latest) else {
        return None;
    };
    let more = so_far.with(&item)?;
    let (_, others) = bytes.split_at(used);
    match &item {
        Item::Data(_) => ride_after(others, latest, more, most - 1),
        Item::Definition(_) => {
            let mut own = latest.again();
            take_over(&mut own, &item);
            ride_after(others, &own, more, most - 1)
        }
    }
}

// When the first ride in the bytes starts.
fn first_ride<'a>(bytes: &'a [u8], latest: &Latest<'a>) -> Option<u32>
    ensures { IsFirstRide (definition_in latest.now) bytes.now result }
{
    let mut at = 0;
    while at < bytes.len() {
        let (_, rest) = bytes.split_at(at);
        if let Some(time) = ride_after(rest, latest, NOTHING, MOST_ITEMS) {
            return Some(time);
        }
        at += 1;
    }
    None
}

/// When the first ride in the front of a row of items starts.
pub(crate) fn own_ride(row: &[u8]) -> Option<u32>
    ensures { IsFirstRide (in_force []) (take own_front row.now) result }
{
    first_ride(&row[..row.len().min(FRONT)], &Latest::new())
}

/// When other rides start in the pieces that are left out, if they start more than a day before one's own. These definitions are known before the bytes.
pub(crate) fn other_rides<'a>(
    alloc: Global,
    bytes: &'a [u8],
    known: &Latest<'a>,
    pieces: &[Piece],
    own: Option<u32>,
) -> Result<Vec<Option<u32>>, AllocError>
    requires { AreWithin bytes.now pieces.now }
    ensures { IfOk result (λ others. (before : List AnyItem) (from to : ℕ) (items : List AnyItem)
        → definition_in known.now ≡ in_force before
        → ArePieces bytes.now from to before pieces.now items
        → AreOthers bytes.now own before pieces.now others.items) }
{
    let mut others = Vec::new(alloc);
    let mut latest = known.again();
    let mut rest = pieces;
    while let [piece, more @ ..] = rest {
        others.push(other_in(&bytes[piece.start..piece.end], piece.kept, own, &mut latest))?;
        rest = more;
    }
    Ok(others)
}

// What is said of a piece of these bytes. The latest definitions are then those after it.
fn other_in<'a>(
    bytes: &'a [u8],
    kept: bool,
    own: Option<u32>,
    latest: &mut Latest<'a>,
) -> Option<u32>
    ensures { (before items : List AnyItem) → definition_in latest.old ≡ in_force before
        → AreItems kept before bytes.now items
        → IsOther kept before own bytes.now result
        × (definition_in latest.new ≡ in_force (before ++ items)) }
{
    if kept {
        pass_row(bytes, latest);
        return None;
    }
    if_earlier(own, first_ride(bytes, latest))
}

// The time of a ride that starts more than a day before one's own.
fn if_earlier(own: Option<u32>, first: Option<u32>) -> Option<u32>
    ensures { result ≡ if_earlier_by own first }
{
    let (Some(own), Some(time)) = (own, first) else {
        return None;
    };
    let earlier = own.saturating_sub(time);
    if earlier > DAY && earlier <= TEN_YEARS {
        Some(time)
    } else {
        None
    }
}

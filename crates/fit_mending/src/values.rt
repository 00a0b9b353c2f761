// The values of a record that change little from one to the next: its distance and its position.

ghost use Rattle.std.specs.Prelude.{◌≡◌};
ghost use Rattle.fit_grammar.specs.Calls.LentField.{field_view};
ghost use Rattle.fit_mending.specs.declared.values.Change.TheVariants.{Unknown};
ghost use Rattle.fit_mending.specs.Moves.{angle_change, apart as apart_by, change_in, change_of, changed_from, distance_change, greater as greater_of, last_value, values_after, values_with};

use fit_base::BaseType;
use fit_grammar::{Field, Message};

// The numbers of these fields, which are in cm, and in semicircles, of which one has about 0.9 cm.
const DISTANCE: u8 = 5;

const LATITUDE: u8 = 0;

const LONGITUDE: u8 = 1;

// The angles of a circle, but one, and half of them.
const FULL: u32 = 0xFFFF_FFFF;

const HALF: u32 = 0x8000_0000;

// A ride goes on as usual if a value changes by at most so much, and so much for each second.
const USUAL: u64 = 5_000;

const USUAL_EACH_SECOND: u64 = 3_000;

// What it can change by at most, as where a part of a ride is missing.
const MOST: u64 = 1_000_000;

const MOST_EACH_SECOND: u64 = 10_000;

/// How the values of a record follow those before them.
#[derive(Clone, Copy)]
pub enum Change {
    /// There are none, or none were before.
    Unknown,
    Usual,
    Large,
    /// No vehicle moves like this, or a distance falls.
    Impossible,
}

/// A value, and the time at which it was stated.
#[derive(Clone, Copy)]
pub struct Stated {
    pub number: u32,
    pub time: u32,
}

/// The values of the records so far.
#[derive(Clone, Copy)]
pub struct Values {
    pub distance: Option<Stated>,
    pub latitude: Option<Stated>,
    pub longitude: Option<Stated>,
}

// Before any record.
pub(crate) const NO_VALUES: Values = Values {
    distance: None,
    latitude: None,
    longitude: None,
};

impl Values {
    // How the values of a record at this time follow. From here on they are the last ones.
    pub(crate) fn follow(&mut self, ride: &Message<'_>, time: u32) -> Change
        ensures change { result ≡ changed_from Unknown self.old time ride.now.message.fields }
        ensures values { self.new ≡ values_after self.old time ride.now.message.fields }
    {
        let mut change = Change::Unknown;
        for field in ride.fields() {
            change = greater(change, self.take(&field, time));
        }
        change
    }

    // How the value of a field follows.
    fn take(&mut self, field: &Field<'_>, time: u32) -> Change
        ensures change { result ≡ change_of self.old time (field_view field.now) }
        ensures values { self.new ≡ values_with self.old time (field_view field.now) }
    {
        // Most fields are none of these.
        if field.number > DISTANCE {
            return Change::Unknown;
        }
        match field.number {
            DISTANCE => take_distance(&mut self.distance, field.value_as(BaseType::Uint32), time),
            LATITUDE => take_angle(&mut self.latitude, field.value_as(BaseType::Sint32), time),
            LONGITUDE => take_angle(&mut self.longitude, field.value_as(BaseType::Sint32), time),
            _ => Change::Unknown,
        }
    }
}

// How a distance follows the last one, which it replaces if it is valid.
fn take_distance(last: &mut Option<Stated>, number: Option<u32>, time: u32) -> Change
    ensures change { result ≡ distance_change last.old number time }
    ensures last { last.new ≡ last_value last.old number time }
{
    let Some(number) = number else {
        return Change::Unknown;
    };
    let old = *last;
    *last = Some(Stated { number, time });
    match old {
        None => Change::Unknown,
        Some(old) => {
            if number < old.number {
                Change::Impossible
            } else {
                change_by(number - old.number, time.saturating_sub(old.time))
            }
        }
    }
}

// The same of a latitude or a longitude, which go round the globe.
fn take_angle(last: &mut Option<Stated>, number: Option<u32>, time: u32) -> Change
    ensures change { result ≡ angle_change last.old number time }
    ensures last { last.new ≡ last_value last.old number time }
{
    let Some(number) = number else {
        return Change::Unknown;
    };
    let old = *last;
    *last = Some(Stated { number, time });
    match old {
        None => Change::Unknown,
        Some(old) => change_by(apart(old.number, number), time.saturating_sub(old.time)),
    }
}

// How far two angles are apart, the shorter way round.
fn apart(one: u32, other: u32) -> u32
    ensures { result ≡ apart_by one other }
{
    let much = one.saturating_sub(other) + other.saturating_sub(one);
    if much > HALF { FULL - much + 1 } else { much }
}

// A change by so much in so many seconds.
fn change_by(much: u32, seconds: u32) -> Change
    ensures { result ≡ change_in much seconds }
{
    let (much, seconds) = (u64::from(much), u64::from(seconds));
    if much > MOST + MOST_EACH_SECOND * seconds {
        Change::Impossible
    } else if much > USUAL + USUAL_EACH_SECOND * seconds {
        Change::Large
    } else {
        Change::Usual
    }
}

// The change of a record of which two values change so.
fn greater(one: Change, other: Change) -> Change
    ensures { result ≡ greater_of one other }
{
    match (one, other) {
        (Change::Impossible, _) | (_, Change::Impossible) => Change::Impossible,
        (Change::Large, _) | (_, Change::Large) => Change::Large,
        (Change::Usual, _) | (_, Change::Usual) => Change::Usual,
        (Change::Unknown, Change::Unknown) => Change::Unknown,
    }
}

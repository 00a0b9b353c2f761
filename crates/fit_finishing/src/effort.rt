// What the samples of a ride say of cadence and ascent.

ghost use Rattle.std.specs.Prelude.{◌≡◌, ◌<◌, ◌≤◌, ◌+◌, ◌*◌, ◌^◌, ◌++◌, ◌∷◌, [], List, Some, IfSome, length, option_map};
ghost use Rattle.std.specs.Option.{option_or};
ghost use Rattle.fit_activity.specs.Rides.Recording.{Recorded, Added};
ghost use Rattle.fit_activity.specs.Rides.Stretch.{greater_of};
ghost use Rattle.fit_activity.specs.Messages.ProfileField.{ProfileMessageFits, as_definition, as_content};
ghost use Rattle.fit_finishing.specs.Effort.{stated_ascent, effort_of, effort_message};
ghost use Rattle.fit_finishing.specs.Private.Effort.{IsEffort, average_of, cadence_with, risen_in};

use crate::climb::{Climb, climbed_by};
use fit_activity::{Entry, Sample};
use fit_base::BaseType;
use fit_grammar::FieldDefinition;

// What the cadences of samples add up to.
#[derive(Clone, Copy)]
pub(crate) struct Cadence {
    // The sum of those above 0, and how many there are.
    total: u64,
    turning: u64,
    // The greatest of all.
    greatest: Option<u8>,
}

// What the samples of a ride add up to, beside its totals.
#[derive(Clone, Copy)]
pub(crate) struct Effort {
    cadence: Cadence,
    climb: Option<Climb>,
}

// The same as a session states it. The ascent is in metres.
#[derive(Clone, Copy)]
pub(crate) struct EffortSummary {
    average_cadence: Option<u8>,
    greatest_cadence: Option<u8>,
    ascent: Option<u16>,
}

impl Cadence {
    // With one more cadence, if there is one.
    fn with(self, cadence: Option<u8>) -> Cadence
        requires total { self.total < 2 ^ 60 }
        requires turning { self.turning < 2 ^ 60 }
        ensures value { result ≡ cadence_with self cadence }
        // This follows from its type.
        ensures fits { IfSome cadence (λ n. n ≤ 255) }
    {
        match cadence {
            None => self,
            Some(cadence) => Cadence {
                total: self.total + u64::from(cadence),
                turning: self.turning + if cadence > 0 { 1 } else { 0 },
                greatest: greater(self.greatest, cadence),
            },
        }
    }

    // The average of those above 0, rounded down, if there are any.
    fn average(self) -> Option<u8>
        requires { self.total ≤ 255 * self.turning }
        ensures { result ≡ average_of self }
    {
        if self.turning == 0 {
            return None;
        }
        Some((self.total / self.turning) as u8)
    }
}

impl Effort {
    // No samples.
    pub(crate) const NONE: Effort = Effort {
        cadence: Cadence {
            total: 0,
            turning: 0,
            greatest: None,
        },
        climb: None,
    };

    // Adds an entry.
    pub(crate) fn add(&mut self, entry: &Entry)
        requires { (list : List Recorded) × IsEffort self.old list × (length list < 2 ^ 32) }
        ensures { (list : List Recorded) → IsEffort self.old list
            → IsEffort self.new (list ++ Added entry.now ∷ []) }
    {
        if let Entry::Sample(sample) = entry {
            self.cadence = self.cadence.with(sample.cadence);
            self.climb = climbed_by(self.climb, altitude_of(sample));
        }
    }

    // What a session states of it.
    pub(crate) fn summary(&self) -> EffortSummary
        requires { (list : List Recorded) × IsEffort self.now list × (length list ≤ 2 ^ 32) }
        ensures value { (list : List Recorded) → IsEffort self.now list → result ≡ effort_of list }
        ensures fits { ProfileMessageFits (effort_message result) }
    {
        EffortSummary {
            average_cadence: self.cadence.average(),
            greatest_cadence: self.cadence.greatest,
            ascent: stated(self.climb),
        }
        .in_fields()
    }
}

impl EffortSummary {
    // The same. Its values fit into their fields, as its type guarantees.
    fn in_fields(self) -> EffortSummary
        ensures same { result ≡ self }
        ensures fits { ProfileMessageFits (effort_message result) }
    {
        self
    }

    // The definitions of its fields in a session: avg_cadence, max_cadence, total_ascent.
    pub(crate) fn definitions(self) -> [FieldDefinition; 3]
        ensures { result ≡ (as_definition (effort_message self)).fields.items }
    {
        [
            FieldDefinition {
                number: 18,
                size: 1,
                base: BaseType::Uint8.code(),
            },
            FieldDefinition {
                number: 19,
                size: 1,
                base: BaseType::Uint8.code(),
            },
            FieldDefinition {
                number: 22,
                size: 2,
                base: BaseType::Uint16.code(),
            },
        ]
    }

    // The bytes of these fields, little-endian.
    pub(crate) fn content(self) -> [u8; 4]
        ensures { result ≡ as_content (effort_message self) }
    {
        let [low, high] = self.ascent.unwrap_or(u16::MAX).to_le_bytes();
        [
            self.average_cadence.unwrap_or(u8::MAX),
            self.greatest_cadence.unwrap_or(u8::MAX),
            low,
            high,
        ]
    }
}

// The greater of a cadence and the greatest one before it.
fn greater(greatest: Option<u8>, cadence: u8) -> Option<u8>
    ensures { result ≡ greater_of greatest (Some cadence) }
{
    match greatest {
        None => Some(cadence),
        Some(greatest) => Some(greatest.max(cadence)),
    }
}

// The altitude of a sample, by the longer field if it has that.
fn altitude_of(sample: &Sample) -> Option<u32>
    ensures { result ≡ option_or sample.now.enhanced_altitude sample.now.altitude }
{
    sample.enhanced_altitude.or(sample.altitude.map(u32::from))
}

// The ascent of a climb, as a session states it.
fn stated(climb: Option<Climb>) -> Option<u16>
    requires { risen_in climb + 2 ^ 32 ≤ 2 ^ 64 }
    ensures { result ≡ option_map stated_ascent climb }
{
    Some(climb?.stated())
}

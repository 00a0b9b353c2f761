// What the samples of a stretch add up to.

ghost use Rattle.std.specs.Prelude.{◌≡◌, ◌+◌, ◌≤◌, ◌<◌, ◌^◌};
ghost use Rattle.fit_activity.specs.Rides.Stretch.{greater_of, stated_speed, speed_over};
ghost use Rattle.fit_activity.specs.Private.Step.{sums_at, sums_with, SumsHaveRoom, stretch_by, in_one_byte as small};

use crate::recording::entry::Sample;
use crate::totals::summary::Stretch;
use crate::totals::tally::Tally;

// What the samples of a stretch add up to, and the last distance known where it begins, in cm (0 if none is).
#[derive(Clone, Copy, Debug)]
pub(crate) struct Sums {
    pub(crate) known: u32,
    // The greatest speed, in mm/s.
    pub(crate) speed: Option<u32>,
    pub(crate) heart_rate: Tally,
    pub(crate) power: Tally,
}

impl Sums {
    // No samples. The distance is the last one known here.
    pub(crate) fn at(distance: Option<u32>) -> Sums
        ensures { result ≡ sums_at distance }
    {
        Sums {
            known: distance.unwrap_or(0),
            speed: None,
            heart_rate: Tally::NONE,
            power: Tally::NONE,
        }
    }

    // Adds a sample.
    pub(crate) fn add(&mut self, sample: &Sample)
        requires { SumsHaveRoom self.old }
        ensures { self.new ≡ sums_with self.old sample.now }
    {
        self.speed = greater(self.speed, speed_of(sample));
        self.heart_rate = self.heart_rate.with(sample.heart_rate.map(u16::from));
        self.power = self.power.with(sample.power);
    }

    // The summary of the stretch from one second to another. The timer ran for so many seconds in it, and
    // this distance is known at its end.
    pub(crate) fn stretch(&self, start: u32, end: u32, timer: u32, distance: Option<u32>) -> Stretch
        requires in_order { start ≤ end }
        requires short { end ≤ start + 4000000 }
        requires timed { timer ≤ 4000000 }
        ensures { result ≡ stretch_by self.now start end timer distance }
    {
        let distance = distance.map(|distance| distance.saturating_sub(self.known));
        Stretch {
            start,
            end,
            elapsed: 1000 * (end - start),
            timer: 1000 * timer,
            distance,
            average_speed: average_speed(distance, timer),
            greatest_speed: reported(self.speed.map(u64::from)),
            average_heart_rate: in_one_byte(self.heart_rate.average()),
            greatest_heart_rate: in_one_byte(self.heart_rate.greatest),
            average_power: self.power.average(),
            greatest_power: self.power.greatest,
        }
    }
}

// The greater of a sample's two speeds, or the only one.
fn speed_of(sample: &Sample) -> Option<u32>
    ensures { result ≡ greater_of sample.now.speed sample.now.enhanced_speed }
{
    greater(sample.speed.map(u32::from), sample.enhanced_speed)
}

// The greater of two speeds, or the only one.
fn greater(one: Option<u32>, other: Option<u32>) -> Option<u32>
    ensures { result ≡ greater_of one other }
{
    match (one, other) {
        (Some(one), Some(other)) => Some(one.max(other)),
        (one, None) => one,
        (None, other) => other,
    }
}

// A speed in mm/s, if it is not above 65534.
fn reported(speed: Option<u64>) -> Option<u16>
    ensures { result ≡ stated_speed speed }
{
    let speed = speed?;
    if speed > 65534 {
        return None;
    }
    Some(speed as u16)
}

// The value, if it is below 256.
fn in_one_byte(value: Option<u16>) -> Option<u8>
    ensures { result ≡ small value }
{
    u8::try_from(value?).ok()
}

// In mm/s, from a distance in cm and seconds. `None` if there is no distance or the seconds are 0.
fn average_speed(distance: Option<u32>, seconds: u32) -> Option<u16>
    ensures { result ≡ speed_over distance seconds }
{
    let distance = distance?;
    if seconds == 0 {
        return None;
    }
    reported(Some(10 * u64::from(distance) / u64::from(seconds)))
}

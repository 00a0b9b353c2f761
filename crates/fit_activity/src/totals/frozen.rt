// Running totals as plain numbers, which C can keep.

ghost use Rattle.std.specs.Prelude.{◌≡◌, ◌↔◌, IsTrue, IfSome, IsSome};
ghost use Rattle.fit_activity.specs.Rides.Frozen.{if_set, sport_in, tally_in, sums_in, clock_in, totals_in, ArePossibleTotals};
ghost use Rattle.fit_activity.specs.Rides.RunningTotals.{KeepsTime};

use crate::recording::start::{Sport, Start};
use crate::totals::Totals;
use crate::totals::clock::Clock;
use crate::totals::sums::Sums;
use crate::totals::tally::Tally;

/// The sum, the count and the greatest of some values. The flag is 1 if there is a greatest one.
#[repr(C)]
#[derive(Clone, Copy, Debug, PartialEq, Eq)]
pub struct FrozenTally {
    pub total: u64,
    pub count: u64,
    pub greatest: u16,
    pub has_greatest: u8,
}

/// What the samples of a stretch add up to. The flag is 1 if a sample has a speed.
#[repr(C)]
#[derive(Clone, Copy, Debug, PartialEq, Eq)]
pub struct FrozenSums {
    pub heart_rate: FrozenTally,
    pub power: FrozenTally,
    pub known: u32,
    pub speed: u32,
    pub has_speed: u8,
}

/// The times of a recording. The flag `running` is 1 if the timer runs.
#[repr(C)]
#[derive(Clone, Copy, Debug, PartialEq, Eq)]
pub struct FrozenClock {
    pub start: u32,
    pub end: u32,
    pub lap: u32,
    pub timer: u32,
    pub lap_timer: u32,
    pub running: u8,
}

/// Running totals as plain numbers. A flag is 1 if it is set.
#[repr(C)]
#[derive(Clone, Copy, Debug, PartialEq, Eq)]
pub struct FrozenTotals {
    pub whole: FrozenSums,
    pub lap: FrozenSums,
    pub clock: FrozenClock,
    pub time: u32,
    pub serial: u32,
    pub distance: u32,
    pub laps: u16,
    pub sport: u8,
    pub stopped: u8,
    pub has_distance: u8,
}

impl Totals {
    /// The totals as plain numbers.
    pub fn freeze(&self) -> FrozenTotals
        ensures numbers { totals_in result ≡ self.now }
        ensures possible { ArePossibleTotals result }
    {
        FrozenTotals {
            whole: frozen_sums(&self.whole),
            lap: frozen_sums(&self.lap),
            clock: frozen_clock(&self.clock),
            time: self.start.time,
            serial: self.start.serial,
            distance: self.distance.unwrap_or(0),
            laps: self.laps,
            sport: sport_number(self.start.sport),
            stopped: u8::from(self.stopped),
            has_distance: u8::from(self.distance.is_some()),
        }
    }

    /// The totals with these numbers, or `None` if no totals have them.
    pub fn thaw(numbers: &FrozenTotals) -> Option<Totals>
        ensures some { IfSome result (λ totals. totals ≡ totals_in numbers.now) }
        ensures possible { IsSome result ↔ ArePossibleTotals numbers.now }
    {
        let clock = thawed_clock(&numbers.clock);
        if !keeps_time(&clock) || numbers.laps > 999 {
            return None;
        }
        Some(Totals {
            start: Start {
                time: numbers.time,
                serial: numbers.serial,
                sport: thawed_sport(numbers.sport),
            },
            clock,
            stopped: numbers.stopped == 1,
            laps: numbers.laps,
            distance: number_if(numbers.has_distance, numbers.distance),
            whole: thawed_sums(&numbers.whole),
            lap: thawed_sums(&numbers.lap),
        })
    }
}

fn frozen_tally(tally: &Tally) -> FrozenTally
    ensures { tally_in result ≡ tally.now }
{
    FrozenTally {
        total: tally.total,
        count: tally.count,
        greatest: tally.greatest.unwrap_or(0),
        has_greatest: u8::from(tally.greatest.is_some()),
    }
}

fn thawed_tally(numbers: &FrozenTally) -> Tally
    ensures { result ≡ tally_in numbers.now }
{
    Tally {
        total: numbers.total,
        count: numbers.count,
        greatest: if numbers.has_greatest == 1 {
            Some(numbers.greatest)
        } else {
            None
        },
    }
}

fn frozen_sums(sums: &Sums) -> FrozenSums
    ensures { sums_in result ≡ sums.now }
{
    FrozenSums {
        heart_rate: frozen_tally(&sums.heart_rate),
        power: frozen_tally(&sums.power),
        known: sums.known,
        speed: sums.speed.unwrap_or(0),
        has_speed: u8::from(sums.speed.is_some()),
    }
}

fn thawed_sums(numbers: &FrozenSums) -> Sums
    ensures { result ≡ sums_in numbers.now }
{
    Sums {
        known: numbers.known,
        speed: number_if(numbers.has_speed, numbers.speed),
        heart_rate: thawed_tally(&numbers.heart_rate),
        power: thawed_tally(&numbers.power),
    }
}

fn frozen_clock(clock: &Clock) -> FrozenClock
    ensures { clock_in result ≡ clock.now }
{
    FrozenClock {
        start: clock.start,
        end: clock.end,
        lap: clock.lap,
        timer: clock.timer,
        lap_timer: clock.lap_timer,
        running: u8::from(clock.running),
    }
}

fn thawed_clock(numbers: &FrozenClock) -> Clock
    ensures { result ≡ clock_in numbers.now }
{
    Clock {
        start: numbers.start,
        end: numbers.end,
        lap: numbers.lap,
        running: numbers.running == 1,
        timer: numbers.timer,
        lap_timer: numbers.lap_timer,
    }
}

fn keeps_time(clock: &Clock) -> bool
    ensures { IsTrue result ↔ KeepsTime clock.now }
{
    let (start, end) = (u64::from(clock.start), u64::from(clock.end));
    end <= start + 4_000_000
        && start <= u64::from(clock.lap)
        && start + u64::from(clock.timer) <= end
        && u64::from(clock.lap) + u64::from(clock.lap_timer) <= end
}

pub(crate) fn sport_number(sport: Sport) -> u8
    ensures { sport_in result ≡ sport }
{
    match sport {
        Sport::Generic => 0,
        Sport::Running => 1,
        Sport::Cycling => 2,
    }
}

pub(crate) fn thawed_sport(number: u8) -> Sport
    ensures { result ≡ sport_in number }
{
    match number {
        0 => Sport::Generic,
        1 => Sport::Running,
        _ => Sport::Cycling,
    }
}

fn number_if(flag: u8, number: u32) -> Option<u32>
    ensures { result ≡ if_set flag number }
{
    if flag == 1 { Some(number) } else { None }
}

// The running totals of a recording.

ghost use Rattle.std.specs.Prelude.{◌≡◌, ◌+◌, ◌*◌, ◌≤◌, ◌<◌, ◌^◌, ◌++◌, ◌∷◌, [], List, None, length, IsTrue, if◌then◌else◌};
ghost use Rattle.std.specs.Result.{result_err};

pub(crate) mod clock;
pub(crate) mod frozen;
pub(crate) mod summary;
pub(crate) mod sums;
pub(crate) mod tally;

use crate::recording::entry::{Entry, Sample};
use crate::recording::refusal::Refusal;
use crate::recording::rules::{in_range, invalid_field, start_in_range};
use crate::recording::start::Start;
use crate::totals::clock::Clock;
use crate::totals::summary::{ActivitySummary, LapSummary, SessionSummary};
use crate::totals::sums::Sums;
use std::marker::Model;

/// What a recording adds up to so far, in a fixed size. Contracts state for which list of entries.
#[derive(Debug, Drop)]
pub struct Totals {
    start: Start,
    clock: Clock,
    stopped: bool,
    // How many laps were added.
    laps: u16,
    // The last distance known.
    distance: Option<u32>,
    // What the samples add up to, in the whole recording and in the open lap.
    whole: Sums,
    lap: Sums,
}

impl Model for Totals {
    ghost use Rattle.std.specs.Prelude.{◌≤◌};
    ghost use Rattle.fit_activity.specs.Rides.RunningTotals.{TotalsState, KeepsTime};

    ghost Value = { TotalsState };

    ghost view = { λ t. record {
      start = t.start;
      clock = t.clock;
      stopped = t.stopped;
      laps = t.laps;
      distance = t.distance;
      whole = t.whole;
      lap = t.lap;
    } };

    ghost invariant = { λ t. KeepsTime t.clock × (t.laps ≤ 999) };
}

impl Totals {
    ghost use Rattle.fit_activity.specs.Rides.Recording.{Recorded, Started, Added, EntryFits, entry_time, is_lap};
    ghost use Rattle.fit_activity.specs.Rides.Timer.{runs_now};
    ghost use Rattle.fit_activity.specs.Rides.Stretch.{end_time, lap_of, lap_at, session_of, activity_of};
    ghost use Rattle.fit_activity.specs.Rides.Refusal.{start_refusal, refusal_of, has_stopped};
    ghost use Rattle.fit_activity.specs.Rides.RunningTotals.{AreTotals, KeepsTime};
    ghost use Rattle.fit_activity.specs.Private.Step.{totals_after, lap_by, SumsHaveRoom, refusal_by, refusal_by_kind, refusal_by_values};

    /// The totals of a start. Its `check` must have been Ok.
    pub fn start(start: &Start) -> Totals
        requires { start_refusal start.now ≡ None }
        ensures { AreTotals result (Started start.now ∷ []) }
    {
        let start = start_in_range(*start);
        Totals {
            start,
            clock: Clock::at(start.time),
            stopped: false,
            laps: 0,
            distance: None,
            whole: Sums::at(None),
            lap: Sums::at(None),
        }
    }

    /// Whether the entry may follow the recording so far; else why not.
    pub fn check(&self, entry: &Entry) -> Result<(), Refusal>
        ensures first { (list : List Recorded) → AreTotals self.now list
            → result_err result ≡ refusal_of list entry.now }
        // This follows from its types.
        ensures fits { EntryFits entry.now }
    {
        self.judge(in_range(entry))
    }

    // The first cause that applies, by the numbers that are kept.
    fn judge(&self, entry: &Entry) -> Result<(), Refusal>
        ensures { result_err result ≡ refusal_by self.now entry.now }
    {
        let time = entry.time();
        if self.stopped {
            return Err(Refusal::Stopped);
        }
        if time < self.clock.end || time == u32::MAX {
            return Err(Refusal::Time);
        }
        if time - self.clock.start > 4_000_000 {
            return Err(Refusal::TooLong);
        }
        self.judge_kind(entry)
    }

    // The first cause that applies, apart from those of the time and the end.
    fn judge_kind(&self, entry: &Entry) -> Result<(), Refusal>
        ensures { result_err result ≡ refusal_by_kind self.now entry.now }
    {
        match entry {
            Entry::Sample(_) | Entry::Pause(_) if !self.clock.running => Err(Refusal::TimerStopped),
            Entry::Resume(_) if self.clock.running => Err(Refusal::TimerRunning),
            Entry::Lap(_) if self.laps >= 999 => Err(Refusal::TooManyLaps),
            Entry::Sample(sample) => self.judge_values(sample),
            _ => Ok(()),
        }
    }

    // Whether no field of a sample is invalid, and its distance is not less than the last one known.
    fn judge_values(&self, sample: &Sample) -> Result<(), Refusal>
        ensures { result_err result ≡ refusal_by_values self.now sample.now }
    {
        if let Some(field) = invalid_field(sample) {
            return Err(Refusal::Value(field));
        }
        match (sample.distance, self.distance) {
            (Some(distance), Some(known)) if distance < known => Err(Refusal::Distance),
            _ => Ok(()),
        }
    }

    /// Adds an entry. Its `check` must have been Ok. A recording has fewer than 4,294,967,296 entries, including its start.
    pub fn add(&mut self, entry: &Entry)
        requires { (list : List Recorded) × AreTotals self.old list
            × (refusal_of list entry.now ≡ None)
            × (length list < 2 ^ 32) }
        ensures { (list : List Recorded) → AreTotals self.old list
            → AreTotals self.new (list ++ Added entry.now ∷ []) }
    {
        self.step(in_range(entry));
    }

    // The numbers that are kept, with one more entry.
    fn step(&mut self, entry: &Entry)
        requires later { self.old.clock.end ≤ entry_time entry.now }
        requires not_late { entry_time entry.now ≤ self.old.clock.start + 4000000 }
        requires lap_left { IsTrue (is_lap (Added entry.now)) → self.old.laps < 999 }
        requires whole { SumsHaveRoom self.old.whole }
        requires lap { SumsHaveRoom self.old.lap }
        ensures step { self.new ≡ totals_after self.old entry.now }
        // This holds for all totals.
        ensures kept { KeepsTime self.old.clock }
    {
        let clock = self.clock.until(entry.time());
        match entry {
            Entry::Sample(sample) => {
                self.clock = clock;
                self.distance = sample.distance.or(self.distance);
                self.whole.add(sample);
                self.lap.add(sample);
            }
            Entry::Lap(_) => {
                self.clock = clock.lapped();
                self.laps += 1;
                self.lap = Sums::at(self.distance);
            }
            Entry::Pause(_) => self.clock = clock.switched(false),
            Entry::Resume(_) => self.clock = clock.switched(true),
            Entry::Stop(_) => {
                self.clock = clock.switched(false);
                self.stopped = true;
            }
        }
    }

    /// The time of the last entry, in seconds since 1989-12-31T00:00:00Z.
    pub fn end_time(&self) -> u32
        ensures { (list : List Recorded) → AreTotals self.now list → result ≡ end_time list }
    {
        self.clock.end
    }

    /// Whether the timer runs after the last entry.
    pub fn running(&self) -> bool
        ensures { (list : List Recorded) → AreTotals self.now list → result ≡ runs_now list }
    {
        self.clock.running
    }

    /// Whether the recording has ended with a stop.
    pub fn stopped(&self) -> bool
        ensures { (list : List Recorded) → AreTotals self.now list → result ≡ has_stopped list }
    {
        self.stopped
    }

    // The time of the last entry, unless that is a stop.
    pub(crate) fn open_end(&self) -> Option<u32>
        ensures { result ≡ (if self.now.stopped then None else Some self.now.clock.end) }
    {
        if self.stopped {
            None
        } else {
            Some(self.clock.end)
        }
    }

    /// The open lap, which begins at the last lap or at the start, as if it ended with the last entry.
    pub fn lap(&self) -> LapSummary
        ensures { (list : List Recorded) → AreTotals self.now list → result ≡ lap_of list }
    {
        self.lap_by(self.clock)
    }

    // The open lap, if it ends at a time that a lap may have.
    pub(crate) fn lap_at(&self, time: u32) -> LapSummary
        requires later { self.now.clock.end ≤ time }
        requires not_late { time ≤ self.now.clock.start + 4000000 }
        ensures { (list : List Recorded) → AreTotals self.now list → result ≡ lap_at list time }
    {
        self.lap_by(self.clock.until(time))
    }

    // The open lap, by the clock at its end.
    fn lap_by(&self, clock: Clock) -> LapSummary
        requires { KeepsTime clock }
        ensures { result ≡ lap_by self.now clock }
    {
        LapSummary {
            index: self.laps,
            stretch: self
                .lap
                .stretch(clock.lap, clock.end, clock.lap_timer, self.distance),
        }
    }

    /// The whole recording so far. The open lap is one of its laps.
    pub fn session(&self) -> SessionSummary
        ensures { (list : List Recorded) → AreTotals self.now list → result ≡ session_of list }
    {
        let clock = &self.clock;
        SessionSummary {
            sport: self.start.sport,
            laps: self.laps + 1,
            stretch: self
                .whole
                .stretch(clock.start, clock.end, clock.timer, self.distance),
        }
    }

    /// The activity. This recording is its only session.
    pub fn activity(&self) -> ActivitySummary
        ensures { (list : List Recorded) → AreTotals self.now list → result ≡ activity_of list }
    {
        ActivitySummary {
            time: self.clock.end,
            timer: 1000 * self.clock.timer,
        }
    }
}

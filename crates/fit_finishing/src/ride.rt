// A ride as it is heard, entry by entry, after its start.

ghost use Rattle.std.specs.Prelude.{◌≡◌, ◌<◌, ◌+◌, ◌^◌, ◌∷◌, [], None, IsTrue, ◌↔◌, IfSome, IfNone, length};
ghost use Rattle.fit_finishing.specs.Heard.{Heard as AnyHeard, added, settled, followed_by, is_idle, start_by, starts};
ghost use Rattle.fit_finishing.specs.Private.Ride.{IsRide, HasRoom, started_after};

use crate::effort::Effort;
use fit_activity::{Entry, Sport, Start, Totals};

// What was heard of a ride.
#[derive(Drop)]
pub(crate) struct Ride {
    pub(crate) totals: Totals,
    pub(crate) effort: Effort,
    // The end of a lap that no entry followed yet.
    pub(crate) lap: Option<u32>,
    // How many entries were taken after the start, and how many were left out.
    pub(crate) taken: u32,
    pub(crate) left_out: u32,
    // Whether a sample was taken.
    pub(crate) sampled: bool,
}

impl Ride {
    // The ride that starts with this entry, after so many that were left out. A lap starts none.
    pub(crate) fn start(sport: Sport, entry: &Entry, left_out: u32) -> Option<Ride>
        ensures starts { IfSome result (λ ride. IsTrue (starts sport entry.now)
            × IsRide ride (started_after (start_by sport entry.now) left_out)) }
        ensures none { IfNone result (IsTrue (starts sport entry.now) → ⊥) }
    {
        if let Entry::Lap(_) = entry {
            return None;
        }
        let start = Start {
            time: entry.time(),
            serial: 0,
            sport,
        };
        if start.check().is_err() {
            return None;
        }
        Some(Ride {
            totals: Totals::start(&start),
            effort: Effort::NONE,
            lap: None,
            taken: 0,
            left_out,
            sampled: false,
        })
    }

    // Hears one more entry.
    pub(crate) fn follow(&mut self, entry: &Entry)
        requires { (h : AnyHeard) × IsRide self.old h × HasRoom h }
        ensures { (h : AnyHeard) → IsRide self.old h → IsRide self.new (followed_by entry.now h) }
    {
        if self.is_idle(entry) {
            return;
        }
        self.settle();
        match entry {
            Entry::Lap(time) => self.lap = Some(*time),
            _ => self.add(entry),
        }
    }

    // Whether an event of the timer leaves the ride as it is.
    fn is_idle(&self, entry: &Entry) -> bool
        ensures { (h : AnyHeard) → IsRide self.now h → result ≡ is_idle h.list entry.now }
    {
        match entry {
            Entry::Pause(_) => !self.totals.running(),
            Entry::Resume(_) => self.totals.running(),
            _ => false,
        }
    }

    // Takes the lap that waits.
    fn settle(&mut self)
        requires { (h : AnyHeard) × IsRide self.old h × HasRoom h }
        ensures { (h : AnyHeard) → IsRide self.old h → IsRide self.new (settled h) }
    {
        if let Some(time) = self.lap.take() {
            self.add(&Entry::Lap(time));
        }
    }

    // Takes an entry, unless a rule refuses it.
    fn add(&mut self, entry: &Entry)
        requires { (h : AnyHeard) × IsRide self.old h
            × (length h.list + h.left_out < 2 ^ 32) }
        ensures { (h : AnyHeard) → IsRide self.old h → IsRide self.new (added entry.now h) }
    {
        if self.totals.check(entry).is_err() {
            self.left_out += 1;
            return;
        }
        self.totals.add(entry);
        self.effort.add(entry);
        self.taken += 1;
        if let Entry::Sample(_) = entry {
            self.sampled = true;
        }
    }
}

// The times of a recording, and how long the timer ran.

ghost use Rattle.std.specs.Prelude.{◌≡◌, ◌+◌, ◌≤◌};

// The times of a recording so far, and for how many seconds the timer ran.
#[derive(Clone, Copy, Debug)]
pub(crate) struct Clock {
    pub(crate) start: u32,
    // The time of the last entry.
    pub(crate) end: u32,
    // The time at which the open lap begins.
    pub(crate) lap: u32,
    pub(crate) running: bool,
    // For how many seconds the timer ran since the start, and since the open lap began.
    pub(crate) timer: u32,
    pub(crate) lap_timer: u32,
}

impl Clock {
    ghost use Rattle.fit_activity.specs.Rides.RunningTotals.{KeepsTime};
    ghost use Rattle.fit_activity.specs.Private.Step.{clock_at, clock_until, clock_switched, clock_lapped};

    // The clock at a start.
    pub(crate) fn at(time: u32) -> Clock
        ensures { result ≡ clock_at time }
    {
        Clock {
            start: time,
            end: time,
            lap: time,
            running: true,
            timer: 0,
            lap_timer: 0,
        }
    }

    // The clock at a later time.
    pub(crate) fn until(&self, time: u32) -> Clock
        requires kept { KeepsTime self.now }
        requires later { self.now.end ≤ time }
        requires not_late { time ≤ self.now.start + 4000000 }
        ensures clock { result ≡ clock_until self.now time }
        ensures kept { KeepsTime result }
    {
        let more = if self.running { time - self.end } else { 0 };
        Clock {
            start: self.start,
            end: time,
            lap: self.lap,
            running: self.running,
            timer: self.timer + more,
            lap_timer: self.lap_timer + more,
        }
    }

    // The clock with the timer running or stopped from now on.
    pub(crate) fn switched(&self, running: bool) -> Clock
        requires { KeepsTime self.now }
        ensures clock { result ≡ clock_switched self.now running }
        ensures kept { KeepsTime result }
    {
        Clock {
            start: self.start,
            end: self.end,
            lap: self.lap,
            running,
            timer: self.timer,
            lap_timer: self.lap_timer,
        }
    }

    // The clock if a lap begins now.
    pub(crate) fn lapped(&self) -> Clock
        requires { KeepsTime self.now }
        ensures clock { result ≡ clock_lapped self.now }
        ensures kept { KeepsTime result }
    {
        Clock {
            start: self.start,
            end: self.end,
            lap: self.end,
            running: self.running,
            timer: self.timer,
            lap_timer: 0,
        }
    }
}

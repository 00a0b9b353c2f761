// How far altitudes climb.

ghost use Rattle.std.specs.Prelude.{◌≡◌, ◌≤◌, ◌+◌, ◌^◌};
ghost use Rattle.fit_finishing.specs.Effort.{ascended as fifths_ascended, climb_from, climbed, stated_ascent};
ghost use Rattle.fit_finishing.specs.Private.Effort.{climb_with, risen_in};

// Two metres, in the unit of altitudes.
const LEAST_RISE: u32 = 10;

// What altitudes climb, in fifths of a metre.
#[derive(Clone, Copy)]
pub(crate) struct Climb {
    // What the rises that ended add up to.
    risen: u64,
    // The lowest and the highest altitude since.
    low: u32,
    high: u32,
}

// A climb with one more altitude, if there is one.
pub(crate) fn climbed_by(climb: Option<Climb>, altitude: Option<u32>) -> Option<Climb>
    requires { risen_in climb + 2 ^ 32 ≤ 2 ^ 64 }
    ensures value { result ≡ climb_with climb altitude }
    ensures bounded { risen_in result ≤ risen_in climb + 2 ^ 32 }
{
    let Some(altitude) = altitude else {
        return climb;
    };
    match climb {
        None => Some(Climb::from(0, altitude)),
        Some(climb) => Some(climb.with(altitude)),
    }
}

impl Climb {
    // A climb from this altitude on, after rises that ended.
    fn from(risen: u64, altitude: u32) -> Climb
        ensures { result ≡ climb_from risen altitude }
    {
        Climb {
            risen,
            low: altitude,
            high: altitude,
        }
    }

    // With one more altitude.
    fn with(self, altitude: u32) -> Climb
        requires { self.risen + 2 ^ 32 ≤ 2 ^ 64 }
        ensures value { result ≡ climbed self altitude }
        ensures bounded { result.risen ≤ self.risen + 2 ^ 32 }
    {
        if altitude < self.low || self.high.saturating_sub(altitude) >= LEAST_RISE {
            return Climb::from(self.ascended(), altitude);
        }
        Climb {
            high: self.high.max(altitude),
            ..self
        }
    }

    // What it adds up to. A rise that has not ended counts too.
    fn ascended(self) -> u64
        requires { self.risen + 2 ^ 32 ≤ 2 ^ 64 }
        ensures value { result ≡ fifths_ascended self }
        ensures bounded { result ≤ self.risen + 2 ^ 32 }
    {
        let rise = self.high.saturating_sub(self.low);
        if rise < LEAST_RISE {
            self.risen
        } else {
            self.risen + u64::from(rise)
        }
    }

    // The same in metres, as a session states it.
    pub(crate) fn stated(self) -> u16
        requires { self.risen + 2 ^ 32 ≤ 2 ^ 64 }
        ensures { result ≡ stated_ascent self }
    {
        (self.ascended() / 5).min(65_534) as u16
    }
}

// The start of a recording.

ghost use Rattle.std.specs.Prelude.{◌≡◌};

use crate::recording::refusal::Refusal;

/// The sport of a ride, by the numbers of the profile.
#[derive(Clone, Copy, Debug, PartialEq, Eq)]
pub enum Sport {
    Generic,
    Running,
    Cycling,
}

impl Sport {
    ghost use Rattle.fit_activity.specs.Messages.ProfileMessage.{sport_number};

    /// The number of the sport in the profile: 0, 1 or 2.
    pub fn number(self) -> u8
        ensures { result ≡ sport_number self }
    {
        match self {
            Sport::Generic => 0,
            Sport::Running => 1,
            Sport::Cycling => 2,
        }
    }
}

/// The start of a recording.
#[derive(Clone, Copy, Debug, PartialEq, Eq)]
pub struct Start {
    /// Seconds since 1989-12-31T00:00:00Z.
    pub time: u32,
    /// The device's serial number; 0 if none is given.
    pub serial: u32,
    pub sport: Sport,
}

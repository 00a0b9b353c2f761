// Why a start or an entry is refused.

ghost use Rattle.std.specs.Prelude.{◌≡◌, Some};
ghost use Rattle.fit_activity.specs.Rides.RefusalName.{refusal_name};

use std::error::Error;
use std::fmt::{self, Formatter, Write};

/// Why a start or an entry is not recorded. If several apply, the first in this order is returned.
#[derive(Clone, Copy, Debug, PartialEq, Eq)]
pub enum Refusal {
    /// The recording has ended.
    Stopped,
    /// The time is below that of the last entry, or is the invalid 0xFFFFFFFF. For a start, it is below 0x10000000 or invalid.
    Time,
    /// The time is more than 4,000,000 seconds after the start.
    TooLong,
    /// A sample or a pause while the timer is stopped.
    TimerStopped,
    /// A resume while the timer runs.
    TimerRunning,
    /// A lap after 999 others.
    TooManyLaps,
    /// The field of this number holds its invalid value, and no field of a lower number does.
    Value(u8),
    /// The distance is less than the last known one.
    Distance,
}

impl Refusal {
    ghost use Rattle.fit_activity.specs.Rides.Refusal.{refusal_code};

    /// The number of the refusal, 1 to 8. It does not follow the order above.
    pub fn code(&self) -> u8
        ensures { result ≡ refusal_code self.now }
    {
        match self {
            Refusal::Time => 1,
            Refusal::Distance => 2,
            Refusal::Value(_) => 3,
            Refusal::TimerStopped => 4,
            Refusal::TimerRunning => 5,
            Refusal::TooLong => 6,
            Refusal::TooManyLaps => 7,
            Refusal::Stopped => 8,
        }
    }
}

// Its name.
impl fmt::Display for Refusal {
    ghost output = { λ refusal. Some (refusal_name refusal) };

    fn fmt<W: Write>(&self, f: &mut Formatter<W>) -> fmt::Result {
        match self {
            Refusal::Stopped => f.write_str("Stopped"),
            Refusal::Time => f.write_str("Time"),
            Refusal::TooLong => f.write_str("TooLong"),
            Refusal::TimerStopped => f.write_str("TimerStopped"),
            Refusal::TimerRunning => f.write_str("TimerRunning"),
            Refusal::TooManyLaps => f.write_str("TooManyLaps"),
            Refusal::Value(field) => write!(f, "Value({field})"),
            Refusal::Distance => f.write_str("Distance"),
        }
    }
}

impl Error for Refusal {}

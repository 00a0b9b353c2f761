// The sum, the count and the greatest of some values.

ghost use Rattle.std.specs.Prelude.{◌≡◌, ◌<◌, ◌+◌, ◌^◌, Some};
ghost use Rattle.fit_activity.specs.Rides.Stretch.{greater_of};
ghost use Rattle.fit_activity.specs.Private.Step.{tally_with, average_of};

#[derive(Clone, Copy, Debug, PartialEq, Eq)]
pub(crate) struct Tally {
    pub(crate) total: u64,
    pub(crate) count: u64,
    pub(crate) greatest: Option<u16>,
}

impl Tally {
    // The tally of no values.
    pub(crate) const NONE: Tally = Tally {
        total: 0,
        count: 0,
        greatest: None,
    };

    // The tally with one more value, if there is one.
    pub(crate) fn with(self, value: Option<u16>) -> Tally
        requires total { self.total < 2 ^ 60 }
        requires count { self.count < 2 ^ 60 }
        ensures { result ≡ tally_with self value }
    {
        match value {
            None => self,
            Some(value) => Tally {
                total: self.total + u64::from(value),
                count: self.count + 1,
                greatest: greater(self.greatest, value),
            },
        }
    }

    // The average, rounded down, if there are values and it is below 65536.
    pub(crate) fn average(&self) -> Option<u16>
        ensures { result ≡ average_of self.now }
    {
        if self.count == 0 {
            return None;
        }
        u16::try_from(self.total / self.count).ok()
    }
}

// The greater of a value and the greatest one before it.
fn greater(greatest: Option<u16>, value: u16) -> Option<u16>
    ensures { result ≡ greater_of greatest (Some value) }
{
    match greatest {
        None => Some(value),
        Some(greatest) => Some(greatest.max(value)),
    }
}

// The rules that do not depend on the totals: what a field may hold, and when a recording may start.

ghost use Rattle.std.specs.Prelude.{◌≡◌};
ghost use Rattle.std.specs.Result.{result_err};
ghost use Rattle.fit_activity.specs.Rides.Recording.{StartFits, EntryFits};
ghost use Rattle.fit_activity.specs.Rides.Refusal.{start_refusal, first_invalid_in, invalid_field_of};

use crate::recording::entry::{Entry, Sample};
use crate::recording::refusal::Refusal;
use crate::recording::start::Start;
use crate::recording::table::sample_fields;
use crate::speaking::profile_field::ProfileField;

impl Start {
    /// Whether a recording may have this start. Its time must be at least 0x10000000, the first calendar
    /// time, and not 0xFFFFFFFF. Else it returns `Time`.
    pub fn check(&self) -> Result<(), Refusal>
        ensures first { result_err result ≡ start_refusal self.now }
        // This follows from its types.
        ensures fits { StartFits self.now }
    {
        let time = self.time;
        let _serial = self.serial;
        if time < 0x1000_0000 || time == u32::MAX {
            return Err(Refusal::Time);
        }
        Ok(())
    }
}

// The least number of a field that holds its invalid value.
pub(crate) fn invalid_field(sample: &Sample) -> Option<u8>
    ensures { result ≡ invalid_field_of sample.now }
{
    first_invalid(&sample_fields(sample))
}

// The number of the first field that holds its invalid value.
fn first_invalid(fields: &[Option<ProfileField>]) -> Option<u8>
    ensures { result ≡ first_invalid_in fields.now }
{
    let mut rest = fields;
    while let [field, others @ ..] = rest {
        if let Some(field) = field {
            if field.is_invalid() {
                return Some(field.number);
            }
        }
        rest = others;
    }
    None
}

// Returns the entry. Its types keep each number in its range.
pub(crate) fn in_range(entry: &Entry) -> &Entry
    ensures same { result.now ≡ entry.now }
    ensures fits { EntryFits entry.now }
{
    let _time = entry.time();
    if let Entry::Sample(sample) = entry {
        let _values = sample.raw_values();
    }
    entry
}

// Returns the start. Its types keep each number in its range.
pub(crate) fn start_in_range(start: Start) -> Start
    ensures same { result ≡ start }
    ensures fits { StartFits start }
{
    start
}

// A replay as plain numbers, which C can keep.

ghost use Rattle.std.specs.Prelude.{◌≡◌, true};
ghost use Rattle.fit_activity.specs.Messages.FrozenReplay.{replay_in, IsPossibleReplay};

use crate::recording::start::Start;
use crate::replay::{Heard, Replay};
use crate::totals::Totals;
use crate::totals::frozen::{FrozenTotals, sport_number, thawed_sport};

/// A replay as plain numbers. It heard nothing (`kind` 0), a file_id (1), a sport after it (2), or the messages of a recording (3), of which
/// `records` are records. Of a file_id and a sport the totals have the start.
#[repr(C)]
#[derive(Clone, Copy, Debug, PartialEq, Eq)]
pub struct FrozenReplay {
    pub totals: FrozenTotals,
    pub records: u32,
    pub kind: u8,
}

impl Replay {
    /// Writes the replay as plain numbers.
    pub fn freeze(&self, numbers: &mut FrozenReplay)
        ensures replay { replay_in numbers.new ≡ self.now }
        ensures possible { IsPossibleReplay numbers.new }
    {
        match &self.heard {
            Heard::Nothing => numbers.kind = 0,
            Heard::FileId(time, serial) => {
                numbers.kind = 1;
                numbers.totals.time = *time;
                numbers.totals.serial = *serial;
            }
            Heard::Sport(start) => {
                numbers.kind = 2;
                numbers.totals.time = start.time;
                numbers.totals.serial = start.serial;
                numbers.totals.sport = sport_number(start.sport);
            }
            Heard::Recording(totals, records) => {
                numbers.kind = 3;
                numbers.totals = totals.freeze();
                numbers.records = *records;
            }
        }
    }

    /// Makes this the replay with these numbers. Reports `false` if no replay has them.
    pub fn thaw(&mut self, numbers: &FrozenReplay) -> bool
        ensures replay { result ≡ true → self.new ≡ replay_in numbers.now }
        ensures possible { IsPossibleReplay numbers.now → result ≡ true }
    {
        let FrozenTotals { time, serial, .. } = numbers.totals;
        self.heard = match numbers.kind {
            0 => Heard::Nothing,
            1 => Heard::FileId(time, serial),
            2 => Heard::Sport(Start {
                time,
                serial,
                sport: thawed_sport(numbers.totals.sport),
            }),
            _ => {
                let Some(totals) = Totals::thaw(&numbers.totals) else {
                    return false;
                };
                Heard::Recording(totals, numbers.records)
            }
        };
        true
    }
}

// A recovery by windows as plain numbers, which C can keep between two of them.

ghost use Rattle.std.specs.Prelude.{◌≡◌, true};
ghost use Rattle.fit_recorder.specs.Private.BodyRead.{reading_of};

use crate::checksums::Checksums;
use crate::recovery::windows::Recovery;
use fit_activity::FrozenReplay;
use fit_base::{Crc, Crc32};
use fit_grammar::FrozenShort;
use fit_journal::{FrozenJournal, Journal};

/// A recovery by windows as plain numbers. Of what was read `checksum` is that of a FIT file, and `crc32` the one that a commit states.
#[repr(C)]
#[derive(Clone, Copy)]
pub struct FrozenRecovery {
    pub heard: FrozenReplay,
    pub journal: FrozenJournal,
    pub time: u32,
    pub at: u32,
    pub len: u32,
    pub crc32: u32,
    pub checksum: u16,
    pub definitions: [FrozenShort; 16],
}

impl Recovery {
    ghost use Rattle.fit_recorder.specs.Calls.FrozenRecovery.{reading_in, replay_of, journal_of, IsPossibleRecovery};

    /// Writes the recovery as plain numbers.
    pub fn freeze(&self, numbers: &mut FrozenRecovery)
        ensures reading { reading_in numbers.new ≡ reading_of self.now.reader }
        ensures replay { replay_of numbers.new ≡ self.now.replay }
        ensures journal { journal_of numbers.new ≡ self.now.journal }
        ensures possible { IsPossibleRecovery numbers.new }
    {
        numbers.time = self.reader.time;
        numbers.at = self.reader.at;
        numbers.len = self.reader.len;
        let checksums = self.reader.checksums();
        numbers.checksum = checksums.file.value();
        numbers.crc32 = checksums.stated.value();
        self.reader.table.freeze(&mut numbers.definitions);
        self.replay.freeze(&mut numbers.heard);
        numbers.journal = self.journal.freeze();
    }

    /// Makes this the recovery with these numbers. Reports `false` if no recovery has them.
    pub fn thaw(&mut self, numbers: &FrozenRecovery) -> bool
        ensures reading { result ≡ true → reading_of self.new.reader ≡ reading_in numbers.now }
        ensures replay { result ≡ true → self.new.replay ≡ replay_of numbers.now }
        ensures journal { result ≡ true → self.new.journal ≡ journal_of numbers.now }
        ensures possible { IsPossibleRecovery numbers.now → result ≡ true }
    {
        let Some(journal) = Journal::thaw(&numbers.journal) else {
            return false;
        };
        if numbers.at > numbers.len {
            return false;
        }
        self.journal = journal;
        self.reader.forget_window();
        self.reader.time = numbers.time;
        self.reader.at = 0; // At each moment the place is within the body.
        self.reader.len = numbers.len;
        self.reader.at = numbers.at;
        self.reader.summed = Checksums {
            file: Crc::with_value(numbers.checksum),
            stated: Crc32::with_value(numbers.crc32),
        };
        self.reader.table.thaw(&numbers.definitions) && self.replay.thaw(&numbers.heard)
    }
}

// A recorder as plain numbers, which C can keep between two calls.

ghost use Rattle.std.specs.Prelude.{◌≡◌, ◌↔◌, true, false, IsTrue, take};
ghost use Rattle.fit_recorder.specs.Calls.Recorder.{IsIdle, state_of, has_failed, disk_of};
ghost use Rattle.fit_recorder.specs.Calls.Frozen.{definition_bytes_in, definitions_in, state_in, has_failed_in, IsPossibleRecorder};

use crate::checksums::Checksums;
use crate::limits::{LONGEST_ITEM, PAGE};
use crate::recorder::Recorder;
use crate::recording_files::RecordingFiles;
use crate::spelling::Spelling;
use arrayvec::ArrayVec;
use fit_activity::{FrozenTotals, Sport, Start, Totals};
use fit_base::{Crc, Crc32};
use fit_disk::Disk;
use fit_journal::{FrozenJournal, Journal};
use std::mem;

/// A definition in force: the first so many bytes spell it.
#[repr(C)]
#[derive(Clone, Copy)]
pub struct FrozenDefinition {
    pub len: u8,
    pub bytes: [u8; LONGEST_ITEM],
}

/// A recorder without its disk, as plain numbers. A flag is 1 if it is set. The first `page_len` bytes of `page` wait there. Of the body
/// so far `checksum` is that of a FIT file, and `crc32` the one that a commit states.
#[repr(C)]
#[derive(Clone, Copy)]
pub struct FrozenRecorder {
    pub totals: FrozenTotals,
    pub journal: FrozenJournal,
    pub len: u32,
    pub crc32: u32,
    pub checksum: u16,
    pub page_len: u16,
    pub turn: u8,
    pub failed: u8,
    pub definitions: [FrozenDefinition; 8],
    pub page: [u8; PAGE],
}

impl<D: Disk> Recorder<D> {
    /// A recorder of no ride over a disk, which every call refuses with `Failed`.
    pub fn idle(disk: D) -> Recorder<D>
        ensures disk { disk_of result ≡ disk }
        ensures idle { IsIdle result }
        ensures failed { has_failed result ≡ true }
    {
        Recorder {
            files: RecordingFiles {
                disk,
                journal: Journal::unused(),
                page: ArrayVec::new(),
                len: 0,
                checksums: Checksums::new(),
            },
            totals: Totals::start(&NO_RIDE),
            spelling: Spelling::new(),
            failed: true,
        }
    }

    /// The disk of the recorder.
    pub fn disk(&self) -> &D
        ensures { result.now ≡ disk_of self.now }
    {
        &self.files.disk
    }

    /// Swaps the disk of the recorder and this one.
    pub fn swap_disk(&mut self, disk: &mut D)
        ensures disk { disk_of self.new ≡ disk.old }
        ensures old { disk.new ≡ disk_of self.old }
        ensures state { state_of self.new ≡ state_of self.old }
        ensures failed { has_failed self.new ≡ has_failed self.old }
    {
        mem::swap(&mut self.files.disk, disk);
    }

    /// Writes the recorder as plain numbers, without its disk.
    pub fn freeze(&self, numbers: &mut FrozenRecorder)
        ensures state { state_in numbers.new ≡ state_of self.now }
        ensures failed { has_failed_in numbers.new ≡ has_failed self.now }
        ensures possible { IsPossibleRecorder numbers.new }
    {
        numbers.totals = self.totals.freeze();
        numbers.journal = self.files.journal.freeze();
        numbers.len = self.files.len;
        numbers.checksum = self.files.checksums.file.value();
        numbers.crc32 = self.files.checksums.stated.value();
        numbers.turn = self.spelling.turn;
        numbers.failed = u8::from(self.failed);
        numbers.page_len = freeze_page(&self.files.page, &mut numbers.page);
        freeze_definitions(&self.spelling.slots, &mut numbers.definitions);
    }

    /// Makes this the recorder with these numbers, and keeps its disk. If no recorder has such numbers, it reports `false` and
    /// changes nothing.
    pub fn thaw(&mut self, numbers: &FrozenRecorder) -> bool
        ensures possible { IsTrue result ↔ IsPossibleRecorder numbers.now }
        ensures state { result ≡ true → state_of self.new ≡ state_in numbers.now }
        ensures failed { result ≡ true → has_failed self.new ≡ has_failed_in numbers.now }
        ensures disk { disk_of self.new ≡ disk_of self.old }
        ensures same { result ≡ false → self.new ≡ self.old }
    {
        let (Some(totals), Some(journal)) = (
            Totals::thaw(&numbers.totals),
            Journal::thaw(&numbers.journal),
        ) else {
            return false;
        };
        self.totals = totals;
        self.files.journal = journal;
        self.files.len = numbers.len;
        self.files.checksums = Checksums {
            file: Crc::with_value(numbers.checksum),
            stated: Crc32::with_value(numbers.crc32),
        };
        self.spelling.turn = numbers.turn;
        self.failed = numbers.failed == 1;
        thaw_page(&numbers.page, numbers.page_len, &mut self.files.page);
        thaw_definitions(&numbers.definitions, &mut self.spelling.slots);
        true
    }
}

// Begins the totals of a recorder that has no ride.
const NO_RIDE: Start = Start {
    time: 0x1000_0000,
    serial: 1,
    sport: Sport::Generic,
};

fn freeze_page(page: &ArrayVec<u8, PAGE>, bytes: &mut [u8; PAGE]) -> u16
    ensures { take result bytes.new ≡ page.now.items }
{
    bytes[..page.len()].copy_from_slice(page.as_slice());
    page.len() as u16
}

fn thaw_page(bytes: &[u8; PAGE], len: u16, page: &mut ArrayVec<u8, PAGE>)
    ensures { page.new.items ≡ take len bytes.now }
{
    page.clear();
    page.try_extend_from_slice(&bytes[..usize::from(len).min(PAGE)])
        .unwrap();
}

fn freeze_definition(definition: &ArrayVec<u8, LONGEST_ITEM>, numbers: &mut FrozenDefinition)
    ensures { definition_bytes_in numbers.new ≡ definition.now }
{
    numbers.len = definition.len() as u8;
    numbers.bytes[..definition.len()].copy_from_slice(definition.as_slice());
}

fn thaw_definition(numbers: &FrozenDefinition, definition: &mut ArrayVec<u8, LONGEST_ITEM>)
    ensures { definition.new ≡ definition_bytes_in numbers.now }
{
    definition.clear();
    definition
        .try_extend_from_slice(&numbers.bytes[..usize::from(numbers.len).min(LONGEST_ITEM)])
        .unwrap();
}

fn freeze_definitions(slots: &[ArrayVec<u8, LONGEST_ITEM>; 8], numbers: &mut [FrozenDefinition; 8])
    ensures { definitions_in numbers.new ≡ slots.now }
{
    for k in 0..8 {
        freeze_definition(&slots[k], &mut numbers[k]);
    }
}

fn thaw_definitions(numbers: &[FrozenDefinition; 8], slots: &mut [ArrayVec<u8, LONGEST_ITEM>; 8])
    ensures { slots.new ≡ definitions_in numbers.now }
{
    for k in 0..8 {
        thaw_definition(&numbers[k], &mut slots[k]);
    }
}

// A recovery by windows in the memory of C.

ghost use Rattle.std.specs.Prelude.{◌≡◌, ◌↔◌, ◌-◌, ◌<◌, ◌≤◌, true, false, min, length, take, IsTrue};
ghost use Rattle.fit_disk.specs.Calls.{IsSound};
ghost use Rattle.fit_disk.specs.Story.{seen_of};
ghost use Rattle.fit_plan.specs.Carried.{which_of};
ghost use Rattle.fit_disk.specs.State.{seen_in};
ghost use Rattle.fit_recorder.specs.Files.Settled.{IsSettled};
ghost use Rattle.fit_recorder.specs.Calls.FrozenRecovery.{ReadsOnIn};
ghost use Rattle.fit_recorder.specs.Calls.Windows.{AreAt};
ghost use Rattle.fit_device.specs.Asking.{IsAsking, IsPlaced, asked_numbers, file_in_phase, finding_phase, ReadsBy};
ghost use Rattle.fit_disk.specs.Counts.{no_calls};
ghost use Rattle.fit_disk.specs.declared.disk.Which.TheVariants.{Data, Journal};
ghost use Rattle.fit_plan.specs.Lent.{IsLentWhole, lent_story};
ghost use Rattle.fit_plan.specs.Plan.{plan_story, plan_since, plan_counts, room_in, whole_room};

use crate::believed::Believed;
use crate::files::Files;
use crate::seal::{ASKED, seal_of_recovery};
use fit_disk::Notes;
use fit_plan::{LentJournal, Plan};
use fit_recorder::{FrozenRecovery, Recovery};
use std::mem;

// Stands in each recovery that asks for a window: the bytes "fitw", low byte first.
const MARK: u32 = 0x7774_6966;

// The most bytes that are asked for.
const WINDOW: usize = 512;

// The journal is asked for first, and then the body of the data file.
pub(crate) const FINDS: u8 = 1;

const READS: u8 = 2;

/// A recovery that asks for `count` bytes of a file from `at` on: of the data file (0) or the journal (1).
///
/// C owes what the ghost facts say: the sizes are those of the files, the first `filled` bytes of the window are those that were asked
/// for, and only a call of this library makes numbers with the mark and their check code.
#[repr(C)]
pub struct RecoveryHandle {
    pub data_size: u64,
    pub journal_size: u64,
    pub at: u64,
    pub file: u8,
    pub phase: u8,
    pub count: u16,
    pub filled: u16,
    pub window: [u8; WINDOW],
    pub reading: FrozenRecovery,
    pub mark: u32,
    pub seal: u16,
    pub notes: Notes,
    ghost sound: { IsSound notes.story.now },
    ghost sized: { data_size ≡ length notes.story.now.data_file.seen },
    ghost journal_sized: { journal_size ≡ length notes.story.now.journal_file.seen },
    ghost part: { IsAsking mark seal reading
        (asked_numbers data_size journal_size at file phase count) → filled ≤ 512
        → AreAt at (take filled window) (seen_of (which_of file) notes.story) },
    ghost placed: { IsAsking mark seal reading
        (asked_numbers data_size journal_size at file phase count)
        → IsPlaced reading journal_size at file phase count },
    ghost settled: { IsAsking mark seal reading
        (asked_numbers data_size journal_size at file phase count) → phase ≡ finding_phase
        → IsSettled (seen_in notes.story.now) notes.story },
    ghost believed: { IsAsking mark seal reading
        (asked_numbers data_size journal_size at file phase count) → (phase ≡ finding_phase → ⊥)
        → ∥ ReadsOnIn reading notes.story ∥₁ },
}

impl RecoveryHandle {
    ghost use Rattle.fit_device.specs.Windowed.{recovery_story, asked_of, IsRecovery, IsShort, AsksForBody, AsksForJournal};
    ghost use Rattle.fit_recorder.specs.Calls.Windows.{CanReadOn, ReadsBodyOn, place_of};

    // Whether it asks for a window.
    pub(crate) fn is_recovery(&self) -> bool
        ensures { IsTrue result ↔ IsRecovery self.now }
    {
        self.mark == MARK
            && self.seal == seal_of_recovery(&self.reading, &self.asked())
            && usize::from(self.filled) <= WINDOW
    }

    // Whether it asks for the journal, and nothing was read yet.
    pub(crate) fn asks_for_journal(&self) -> bool
        ensures { IsTrue result ↔ AsksForJournal self.now }
    {
        self.is_recovery() && self.phase == FINDS
    }

    fn asked(&self) -> [u64; ASKED]
        ensures { result ≡ asked_of self.now }
    {
        [
            self.data_size,
            self.journal_size,
            self.at,
            u64::from(self.file),
            u64::from(self.phase),
            u64::from(self.count),
        ]
    }

    // Takes the two files out of the handle, which asks for nothing then.
    pub(crate) fn take_files(&mut self) -> Plan
        ensures story { plan_story result ≡ recovery_story self.old }
        ensures since { plan_since result ≡ recovery_story self.old }
        ensures none { (plan_counts result ≡ no_calls) × (room_in result ≡ whole_room) }
        ensures window { (self.new.filled ≡ self.old.filled) × (self.new.window ≡ self.old.window) }
        ensures reading { self.new.reading ≡ self.old.reading }
        ensures ended { IsRecovery self.new → ⊥ }
    {
        let plan = Plan::over(self.data_size, mem::replace(&mut self.notes, Notes::new()));
        self.data_size = 0;
        self.journal_size = 0;
        self.mark = 0;
        plan
    }

    // Makes this recovery the one that reads on, and takes the two files out of the handle into these.
    // Not inlined: its copy of them is off the stack while the body is read. A value that it returned would have room there twice.
    #[inline(never)]
    pub(crate) fn take_reading(&mut self, recovery: &mut Recovery, files: &mut Plan)
        requires asks { IsRecovery self.old }
        requires reads { self.old.phase ≡ finding_phase → ⊥ }
        ensures reads { CanReadOn recovery.new × ReadsBodyOn (plan_story files.new) recovery.new }
        ensures window { (self.new.filled ≡ self.old.filled) × (self.new.window ≡ self.old.window) }
        ensures given { (self.old.filled ≤ 512) × AreAt (place_of recovery.new)
            (take self.old.filled self.old.window) (seen_of Data (plan_story files.new)) }
        ensures placed { (self.old.at ≡ place_of recovery.new)
            × (self.old.count ≡ min 512 (recovery.new.reader.len - recovery.new.reader.at)) }
        ensures story { plan_story files.new ≡ recovery_story self.old }
        ensures since { plan_since files.new ≡ recovery_story self.old }
        ensures none { (plan_counts files.new ≡ no_calls) × (room_in files.new ≡ whole_room) }
        ensures ended { IsRecovery self.new → ⊥ }
    {
        recovery.thaw(&self.reading); // There is one with these numbers, which carry their check code.
        *files = self.take_files();
        Believed {
            recovery: &*recovery,
            files: &*files,
        }
        .reveal();
    }

    // What C has filled of the window.
    pub(crate) fn given(&self) -> &[u8]
        requires { self.now.filled ≤ 512 }
        ensures bytes { result.now ≡ take self.now.filled self.now.window }
        ensures long { length result.now ≡ self.now.filled }
    {
        &self.window[..usize::from(self.filled)]
    }

    // Whether it has no byte of a file that is not empty, if it asks for the journal.
    pub(crate) fn lacks_front(&self) -> bool
        ensures yes { result ≡ true → (self.now.filled ≡ 0) × (0 < self.now.journal_size) }
        ensures no { result ≡ false → self.now.filled ≡ 0 → self.now.journal_size ≡ 0 }
    {
        self.filled == 0 && self.journal_size > 0
    }

    // Whether its window has less than it asks for.
    pub(crate) fn is_short(&self) -> bool
        ensures { IsTrue result ↔ IsShort self.now }
    {
        self.filled < self.count
    }

    // Asks for nothing.
    pub(crate) fn leave(&mut self)
        ensures ended { IsRecovery self.new → ⊥ }
        ensures story { recovery_story self.new ≡ recovery_story self.old }
    {
        self.mark = 0;
    }

    // The journal of these files, as far as the window has it.
    pub(crate) fn lend(&self, files: &Plan, journal_size: u64) -> LentJournal<'_>
        requires few { self.now.filled ≤ 512 }
        requires front { AreAt 0 (take self.now.filled self.now.window)
            (seen_of Journal (plan_story files.now)) }
        requires size { journal_size ≡ length (seen_of Journal (plan_story files.now)) }
        ensures story { lent_story result ≡ plan_story files.now }
        ensures whole { self.now.filled ≡ journal_size → IsLentWhole result }
    {
        let is_whole = u64::from(self.filled) == journal_size;
        LentJournal::over(files.size, files.notes.same(), self.given(), is_whole)
    }

    // Puts the two files into the handle, which asks for nothing.
    pub(crate) fn put_files(&mut self, files: Files, journal_size: u64)
        requires { journal_size ≡ length files.notes.story.now.journal_file.seen }
        ensures ended { IsRecovery self.new → ⊥ }
        ensures story { recovery_story self.new ≡ files.notes.story }
    {
        self.mark = 0;
        self.data_size = files.size;
        self.journal_size = journal_size;
        self.notes = files.notes;
    }

    // Asks for the next window of the body of these files.
    pub(crate) fn ask_for_body(&mut self, files: Files, journal_size: u64, recovery: &Recovery)
        requires size { journal_size ≡ length files.notes.story.now.journal_file.seen }
        requires reads { CanReadOn recovery.now × ReadsBodyOn files.notes.story recovery.now }
        ensures asks { AsksForBody self.new }
        ensures at { self.new.at ≡ place_of recovery.now }
        ensures story { recovery_story self.new ≡ files.notes.story }
    {
        self.mark = 0;
        recovery.freeze(&mut self.reading);
        let count = recovery.left().min(WINDOW as u32) as u16;
        self.ask(files, journal_size, READS, recovery.place(), count);
    }

    // Asks for so many bytes of a file, from a place in it on.
    pub(crate) fn ask(&mut self, files: Files, journal_size: u64, phase: u8, at: u64, count: u16)
        requires size { journal_size ≡ length files.notes.story.now.journal_file.seen }
        requires reads { ReadsBy phase self.old.reading files.notes.story }
        requires placed { IsPlaced self.old.reading journal_size at (file_in_phase phase)
            phase count }
        ensures asks { IsRecovery self.new }
        ensures window { (self.new.file ≡ file_in_phase phase) × (self.new.at ≡ at)
            × (self.new.count ≡ count) × (self.new.phase ≡ phase) }
        ensures story { recovery_story self.new ≡ files.notes.story }
    {
        self.mark = 0;
        self.data_size = files.size;
        self.journal_size = journal_size;
        self.notes = files.notes;
        self.at = at;
        self.file = u8::from(phase == FINDS);
        self.phase = phase;
        self.count = count;
        self.filled = 0;
        self.seal = seal_of_recovery(&self.reading, &self.asked());
        self.mark = MARK;
    }
}

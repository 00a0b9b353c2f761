// The journal that a host lends.

ghost use Rattle.std.specs.Prelude.{◌≡◌, ◌+◌, ◌<◌, ◌≤◌, ◌^◌, true, false, length, IfOk, IsErr, IsTrue};
ghost use Rattle.fit_disk.specs.CallSchedule.{counts_of};
ghost use Rattle.fit_disk.specs.Calls.{ReadsAt, Wrote, Shortened, Synced, IsSound};
ghost use Rattle.fit_disk.specs.Counts.{CountsCall, CountsRead, last_count, no_calls, with_failure};
ghost use Rattle.fit_disk.specs.Runs.{TakesRoom};
ghost use Rattle.fit_disk.specs.Story.{seen_of};
ghost use Rattle.fit_disk.specs.declared.disk.Which.TheVariants.{Data, Journal};
ghost use Rattle.fit_plan.specs.Part.{HasFront};

use fit_disk::{CallCounts, DeviceError, Disk, Note, Notes, Which, copy_from};

/// Two files, of which the host lends the first bytes of the journal, and says how long the data file is. It is to be read, and not
/// to be changed: a change is only noted, and reads after it fail.
#[derive(Drop)]
pub struct LentJournal<'a> {
    size: u64,
    bytes: &'a [u8],
    // Whether these are all bytes of the journal.
    is_whole: bool,
    // Whether a file was written or cut.
    has_changed: bool,
    counts: CallCounts,
    notes: Notes,
    ghost sound: { IsSound notes.story.now },
    ghost sized: { has_changed ≡ false → size ≡ length notes.story.now.data_file.seen },
    ghost front: { has_changed ≡ false
        → HasFront notes.story.now.journal_file.seen bytes.now is_whole },
    ghost longer: { length notes.since.past ≤ length notes.story.past },
    ghost noted: { has_changed ≡ true → length notes.since.past < length notes.story.past },
    // A whole journal gives all reads until it is changed.
    ghost went: { has_changed ≡ false → is_whole ≡ true → (counts_of counts).data_reads ≡ 0
        → (counts_of counts).calls < last_count → (counts_of counts).failed ≡ 0 },
}

impl<'a> LentJournal<'a> {
    ghost use Rattle.fit_plan.specs.Lent.{lent_story, lent_since, lent_counts, IsLentWhole};

    /// Two files with this story, of which the data file has this length in bytes, and the journal begins with these bytes.
    /// `is_whole` says that it has no others.
    pub fn over(size: u64, mut notes: Notes, bytes: &'a [u8], is_whole: bool) -> LentJournal<'a>
        requires sound { IsSound notes.story.now }
        requires sized { size ≡ length notes.story.now.data_file.seen }
        requires front { HasFront notes.story.now.journal_file.seen bytes.now is_whole }
        ensures story { lent_story result ≡ notes.story }
        ensures since { lent_since result ≡ notes.story }
        ensures counts { lent_counts result ≡ no_calls }
        ensures whole { is_whole ≡ true → IsLentWhole result }
    {
        notes.note(&Note::Mark, &[]);
        LentJournal {
            size,
            bytes,
            is_whole,
            has_changed: false,
            counts: CallCounts::new(),
            notes,
        }
    }

    // Whether what is lent has all bytes that a read of a file may give.
    fn has_all(&self, which: Which, at: u64, room: usize) -> bool
        ensures journal { IsTrue result → (which ≡ Journal) × (self.now.has_changed ≡ false) }
        ensures within { IsTrue result → self.now.is_whole ≡ false
            → at + room ≤ length self.now.bytes.now }
        ensures no { result ≡ false → which ≡ Journal → self.now.has_changed ≡ false
            → self.now.is_whole ≡ false }
    {
        if which == Which::Data || self.has_changed {
            return false;
        }
        let end = at.saturating_add(room as u64);
        self.is_whole || end <= self.bytes.len() as u64
    }

    // Lets the last call fail.
    fn failed<T>(&mut self) -> Result<T, DeviceError>
        requires counted { (lent_counts self.old).failed < (lent_counts self.old).calls }
        requires cause { self.old.has_changed ≡ false → self.old.is_whole ≡ true
            → (lent_counts self.old).data_reads ≡ 0 → last_count ≤ (lent_counts self.old).calls }
        ensures err { IsErr result }
        ensures counts { lent_counts self.new ≡ with_failure (lent_counts self.old) }
        ensures story { lent_story self.new ≡ lent_story self.old }
        ensures since { lent_since self.new ≡ lent_since self.old }
        ensures whole { self.new.is_whole ≡ self.old.is_whole }
    {
        self.counts.fail();
        Err(DeviceError)
    }
}

impl Disk for LentJournal<'_> {
    ghost use Rattle.fit_plan.specs.Lent.{lent_story, lent_counts, lent_log};

    ghost honest = { true };

    ghost story = { lent_story };

    ghost log = { lent_log };

    ghost sound = { λ l _. l.sound };

    fn size(&mut self, which: Which) -> Result<u64, DeviceError>
        ensures size { IfOk result (λ size. size ≡ length (seen_of which (lent_story self.old))) }
        ensures same { lent_story self.new ≡ lent_story self.old }
        ensures counted { CountsCall result (lent_counts self.old) (lent_counts self.new) }
        ensures reads { (lent_counts self.new).data_reads ≡ (lent_counts self.old).data_reads }
        ensures memory { (lent_log self.new).memory ≡ (lent_log self.old).memory }
        ensures room { TakesRoom 1 0 (IsErr result
            × (which ≡ Data)) (lent_log self.old) (lent_log self.new) }
    {
        self.counts.call()?;
        if self.has_changed {
            return self.failed();
        }
        match which {
            Which::Data => Ok(self.size),
            Which::Journal => {
                if self.is_whole {
                    Ok(self.bytes.len() as u64)
                } else {
                    self.failed()
                }
            }
        }
    }

    fn read(&mut self, which: Which, at: u64, buffer: &mut [u8]) -> Result<usize, DeviceError>
        ensures within { IfOk result (λ count. count ≤ length buffer.old) }
        ensures bytes { IfOk result
            (ReadsAt (seen_of which (lent_story self.old)) at (length buffer.old) buffer.new) }
        ensures same { lent_story self.new ≡ lent_story self.old }
        ensures counted { CountsCall result (lent_counts self.old) (lent_counts self.new) }
        ensures reads { CountsRead which (lent_counts self.old) (lent_counts self.new) }
        ensures memory { (lent_log self.new).memory ≡ (lent_log self.old).memory }
    {
        self.counts.read(which)?;
        if !self.has_all(which, at, buffer.len()) {
            return self.failed();
        }
        Ok(copy_from(self.bytes, at, buffer))
    }

    fn write(&mut self, which: Which, at: u64, bytes: &[u8]) -> Result<(), DeviceError>
        requires { at ≤ length (seen_of which (lent_story self.old)) }
        ensures wrote { Wrote which at bytes.now result (lent_story self.old)
            (lent_story self.new) }
        ensures counted { CountsCall result (lent_counts self.old) (lent_counts self.new) }
        ensures reads { (lent_counts self.new).data_reads ≡ (lent_counts self.old).data_reads }
        ensures memory { (lent_log self.new).memory ≡ (lent_log self.old).memory }
        ensures room { TakesRoom 1 (length bytes.now) (IsErr result
            × (at + length bytes.now < 2 ^ 64))
            (lent_log self.old) (lent_log self.new) }
    {
        self.counts.call()?;
        self.has_changed = true;
        self.notes.note(&Note::Written(which, at), bytes);
        Ok(())
    }

    fn cut(&mut self, which: Which, len: u64) -> Result<(), DeviceError>
        requires { len ≤ length (seen_of which (lent_story self.old)) }
        ensures shortened { Shortened which len result (lent_story self.old) (lent_story self.new) }
        ensures counted { CountsCall result (lent_counts self.old) (lent_counts self.new) }
        ensures reads { (lent_counts self.new).data_reads ≡ (lent_counts self.old).data_reads }
        ensures memory { (lent_log self.new).memory ≡ (lent_log self.old).memory }
        ensures room { TakesRoom 1 0 (IsErr result) (lent_log self.old) (lent_log self.new) }
    {
        self.counts.call()?;
        self.has_changed = true;
        self.notes.note(&Note::Cut(which, len), &[]);
        Ok(())
    }

    fn sync(&mut self, which: Which) -> Result<(), DeviceError>
        ensures synced { Synced which result (lent_story self.old) (lent_story self.new) }
        ensures counted { CountsCall result (lent_counts self.old) (lent_counts self.new) }
        ensures reads { (lent_counts self.new).data_reads ≡ (lent_counts self.old).data_reads }
        ensures memory { (lent_log self.new).memory ≡ (lent_log self.old).memory }
        ensures room { TakesRoom 1 0 (IsErr result) (lent_log self.old) (lent_log self.new) }
    {
        self.counts.call()?;
        self.notes.note(&Note::Synced(which), &[]);
        Ok(())
    }
}

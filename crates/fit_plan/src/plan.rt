// A plan as a disk.

ghost use Rattle.std.specs.Prelude.{◌≡◌, ◌+◌, ◌<◌, ◌≤◌, ◌^◌, true, length, IfOk, IsErr, OnOk, OnErr};
ghost use Rattle.fit_disk.specs.Calls.{ReadsAt, Wrote, Shortened, Synced, IsSound};
ghost use Rattle.fit_disk.specs.Counts.{CountsCall, CountsRead, no_calls, with_read, with_failure, with_uncounted, last_count};
ghost use Rattle.fit_disk.specs.Runs.{TakesRoom};
ghost use Rattle.fit_disk.specs.Story.{seen_of};
ghost use Rattle.fit_disk.specs.declared.disk.Which.TheVariants.{Data};
ghost use Rattle.fit_plan.specs.Planned.{planned, AreInside};

use crate::calls::Calls;
use fit_disk::{CallCounts, DeviceError, Disk, Note, Notes, Which};

// The kinds of calls for a host.
const WRITE: u8 = 1;

const CUT: u8 = 2;

const SYNC: u8 = 3;

/// Two files that are elsewhere, and the calls that a host is to carry out on them.
#[derive(Drop)]
pub struct Plan {
    pub calls: Calls,
    /// The length of the data file in bytes, once the calls are carried out.
    pub size: u64,
    counts: CallCounts,
    pub notes: Notes,
    pub ghost sound: { IsSound notes.story.now },
    pub ghost sized: { size ≡ length notes.story.now.data_file.seen },
    pub ghost written: { notes.story ≡ planned calls notes.since },
    pub ghost inside: { AreInside calls notes.since },
}

impl Plan {
    ghost use Rattle.fit_plan.specs.Plan.{plan_story, plan_since, plan_counts, room_in, whole_room};

    /// No calls yet, over two files with this story, of which the data file has this length in bytes.
    pub fn over(size: u64, mut notes: Notes) -> Plan
        requires sound { IsSound notes.story.now }
        requires sized { size ≡ length notes.story.now.data_file.seen }
        ensures story { plan_story result ≡ notes.story }
        ensures since { plan_since result ≡ notes.story }
        ensures counts { plan_counts result ≡ no_calls }
        ensures room { room_in result ≡ whole_room }
    {
        notes.note(&Note::Mark, &[]);
        Plan {
            calls: Calls::new(),
            size,
            counts: CallCounts::new(),
            notes,
        }
    }

    // Counts a read, which plans nothing.
    pub(crate) fn count_read(&mut self, which: Which) -> Result<(), DeviceError>
        ensures ok { OnOk result (plan_counts self.new ≡ with_read which (plan_counts self.old)) }
        ensures err { OnErr result (((plan_counts self.old).calls ≡ last_count)
            × (plan_counts self.new ≡ with_uncounted (plan_counts self.old))) }
        ensures story { plan_story self.new ≡ plan_story self.old }
        ensures since { plan_since self.new ≡ plan_since self.old }
        ensures room { room_in self.new ≡ room_in self.old }
    {
        self.counts.read(which)
    }

    // Lets the last call fail.
    fn failed<T>(&mut self) -> Result<T, DeviceError>
        requires { (plan_counts self.old).failed < (plan_counts self.old).calls }
        ensures err { IsErr result }
        ensures counts { plan_counts self.new ≡ with_failure (plan_counts self.old) }
        ensures story { plan_story self.new ≡ plan_story self.old }
        ensures since { plan_since self.new ≡ plan_since self.old }
        ensures room { room_in self.new ≡ room_in self.old }
    {
        self.counts.fail();
        Err(DeviceError)
    }
}

impl Disk for Plan {
    ghost use Rattle.fit_plan.specs.Plan.{plan_story, plan_since, plan_counts, room_in, plan_log};

    ghost honest = { true };

    ghost story = { plan_story };

    ghost log = { plan_log };

    ghost sound = { λ p _. p.sound };

    fn size(&mut self, which: Which) -> Result<u64, DeviceError>
        ensures size { IfOk result (λ size. size ≡ length (seen_of which (plan_story self.old))) }
        ensures same { plan_story self.new ≡ plan_story self.old }
        ensures since { plan_since self.new ≡ plan_since self.old }
        ensures counted { CountsCall result (plan_counts self.old) (plan_counts self.new) }
        ensures reads { (plan_counts self.new).data_reads ≡ (plan_counts self.old).data_reads }
        ensures room { TakesRoom 1 0 (IsErr result
            × (which ≡ Data)) (plan_log self.old) (plan_log self.new) }
    {
        self.counts.call()?;
        match which {
            Which::Data => Ok(self.size),
            Which::Journal => self.failed(),
        }
    }

    fn read(&mut self, which: Which, at: u64, buffer: &mut [u8]) -> Result<usize, DeviceError>
        ensures within { IfOk result (λ count. count ≤ length buffer.old) }
        ensures bytes { IfOk result
            (ReadsAt (seen_of which (plan_story self.old)) at (length buffer.old) buffer.new) }
        ensures same { plan_story self.new ≡ plan_story self.old }
        ensures since { plan_since self.new ≡ plan_since self.old }
        ensures counted { CountsCall result (plan_counts self.old) (plan_counts self.new) }
        ensures reads { CountsRead which (plan_counts self.old) (plan_counts self.new) }
        ensures room { room_in self.new ≡ room_in self.old }
    {
        self.count_read(which)?;
        self.failed()
    }

    fn write(&mut self, which: Which, at: u64, bytes: &[u8]) -> Result<(), DeviceError>
        requires { at ≤ length (seen_of which (plan_story self.old)) }
        ensures wrote { Wrote which at bytes.now result (plan_story self.old)
            (plan_story self.new) }
        ensures since { plan_since self.new ≡ plan_since self.old }
        ensures counted { CountsCall result (plan_counts self.old) (plan_counts self.new) }
        ensures reads { (plan_counts self.new).data_reads ≡ (plan_counts self.old).data_reads }
        ensures room { TakesRoom 1 (length bytes.now) (IsErr result
            × (at + length bytes.now < 2 ^ 64))
            (plan_log self.old) (plan_log self.new) }
    {
        self.counts.call()?;
        let Some(end) = at.checked_add(bytes.len() as u64) else {
            return self.failed();
        };
        let Ok(()) = self.calls.add(WRITE, which, at, bytes) else {
            return self.failed();
        };
        self.size = match which {
            Which::Data => self.size.max(end),
            Which::Journal => self.size,
        };
        self.notes.note(&Note::Written(which, at), bytes);
        Ok(())
    }

    fn cut(&mut self, which: Which, len: u64) -> Result<(), DeviceError>
        requires { len ≤ length (seen_of which (plan_story self.old)) }
        ensures shortened { Shortened which len result (plan_story self.old) (plan_story self.new) }
        ensures since { plan_since self.new ≡ plan_since self.old }
        ensures counted { CountsCall result (plan_counts self.old) (plan_counts self.new) }
        ensures reads { (plan_counts self.new).data_reads ≡ (plan_counts self.old).data_reads }
        ensures room { TakesRoom 1 0 (IsErr result) (plan_log self.old) (plan_log self.new) }
    {
        self.counts.call()?;
        let Ok(()) = self.calls.add(CUT, which, len, &[]) else {
            return self.failed();
        };
        self.size = match which {
            Which::Data => len,
            Which::Journal => self.size,
        };
        self.notes.note(&Note::Cut(which, len), &[]);
        Ok(())
    }

    fn sync(&mut self, which: Which) -> Result<(), DeviceError>
        ensures synced { Synced which result (plan_story self.old) (plan_story self.new) }
        ensures since { plan_since self.new ≡ plan_since self.old }
        ensures counted { CountsCall result (plan_counts self.old) (plan_counts self.new) }
        ensures reads { (plan_counts self.new).data_reads ≡ (plan_counts self.old).data_reads }
        ensures room { TakesRoom 1 0 (IsErr result) (plan_log self.old) (plan_log self.new) }
    {
        self.counts.call()?;
        let Ok(()) = self.calls.add(SYNC, which, 0, &[]) else {
            return self.failed();
        };
        self.notes.note(&Note::Synced(which), &[]);
        Ok(())
    }
}

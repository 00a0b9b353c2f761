// The disk over two buffers.

ghost use Rattle.std.specs.Prelude.{◌≡◌, ◌↔◌, ◌+◌, ◌<◌, ◌≤◌, ◌^◌, false, true, IsTrue, length, take, IfOk, IsErr};
ghost use Rattle.fit_disk.specs.Changes.{after_write};
ghost use Rattle.fit_disk.specs.Calls.{ReadsAt, Wrote, Shortened, Synced, IsSound};
ghost use Rattle.fit_disk.specs.CallSchedule.{counts_of};
ghost use Rattle.fit_disk.specs.Content.{over};
ghost use Rattle.fit_disk.specs.Counts.{CountsCall, CountsRead, no_calls, with_failure, last_count};
ghost use Rattle.fit_disk.specs.Runs.{TakesRoom};
ghost use Rattle.fit_disk.specs.Stored.{at_rest};
ghost use Rattle.fit_disk.specs.Story.{seen_of};
ghost use Rattle.fit_disk.specs.declared.disk.Which.TheVariants.{Data, Journal};

use crate::{CallCounts, DeviceError, Disk, Note, Notes, Which, copy_from};

/// The two files of a recording, each in the front of a buffer. A write for which the buffer has no room
/// fails, and reads give what they gave before it.
#[derive(Drop)]
pub struct Buffers<'a, 'b> {
    pub data_bytes: &'a mut [u8],
    /// How many bytes of its buffer the data file has.
    pub data_len: usize,
    pub journal_bytes: &'b mut [u8],
    /// How many bytes of its buffer the journal has.
    pub journal_len: usize,
    counts: CallCounts,
    notes: Notes,
    pub ghost data_fits: { data_len ≤ length data_bytes.now },
    pub ghost journal_fits: { journal_len ≤ length journal_bytes.now },
    pub ghost in_data: { notes.story.now.data_file.seen ≡ take data_len data_bytes.now },
    pub ghost in_journal: { notes.story.now.journal_file.seen
        ≡ take journal_len journal_bytes.now },
    ghost sound: { IsSound notes.story.now },
    // Only a write without room fails, and it counts as begun.
    ghost room: { (counts_of counts).last_failed ≡ true → (counts_of counts).calls < last_count
        → notes.story.now.data_file.greatest ≤ length data_bytes.now
        → length journal_bytes.now < notes.story.now.journal_file.greatest },
}

impl<'a, 'b> Buffers<'a, 'b> {
    ghost use Rattle.fit_disk.specs.Buffers.{story_in, counts_in, room_of, memory_of, FailsForRoom};

    /// The files are the first bytes of the two buffers, as many as the two lengths give.
    pub fn new(
        data_bytes: &'a mut [u8],
        data_len: usize,
        journal_bytes: &'b mut [u8],
        journal_len: usize,
    ) -> Buffers<'a, 'b>
        requires data_fits { data_len ≤ length data_bytes.old }
        requires journal_fits { journal_len ≤ length journal_bytes.old }
        ensures data_rests { (story_in result).now.data_file
            ≡ at_rest (take data_len data_bytes.old) }
        ensures journal_rests { (story_in result).now.journal_file
            ≡ at_rest (take journal_len journal_bytes.old) }
        ensures data_room { room_of Data result ≡ length data_bytes.old }
        ensures journal_room { room_of Journal result ≡ length journal_bytes.old }
        ensures counts { counts_in result ≡ no_calls }
        ensures same_data { result.data_bytes.ghost_name ≡ data_bytes.entry.ghost_name }
        ensures same_journal { result.journal_bytes.ghost_name ≡ journal_bytes.entry.ghost_name }
    {
        let mut notes = Notes::new();
        notes.note(&Note::Found(Which::Data), &data_bytes[..data_len]);
        notes.note(&Note::Found(Which::Journal), &journal_bytes[..journal_len]);
        Buffers {
            data_bytes,
            data_len,
            journal_bytes,
            journal_len,
            counts: CallCounts::new(),
            notes,
        }
    }

    /// The content of a file.
    pub fn content(&self, which: Which) -> &[u8]
        ensures content { result.now ≡ seen_of which (story_in self.now) }
        ensures room { FailsForRoom self.now }
    {
        match which {
            Which::Data => &self.data_bytes[..self.data_len],
            Which::Journal => &self.journal_bytes[..self.journal_len],
        }
    }

    fn has_room(&self, which: Which, at: usize, count: usize) -> bool
        ensures { IsTrue result ↔ (at + count ≤ room_of which self.now) }
    {
        let room = match which {
            Which::Data => self.data_bytes.len(),
            Which::Journal => self.journal_bytes.len(),
        };
        at <= room && count <= room - at
    }

    // Lets the last call, a write, fail because there is no room.
    fn refuse(&mut self, which: Which, at: u64, bytes: &[u8]) -> Result<(), DeviceError>
        requires counted { (counts_in self.old).failed < (counts_in self.old).calls }
        requires within { at ≤ length (seen_of which (story_in self.old)) }
        requires lacks { room_of which self.old < at + length bytes.now }
        ensures err { IsErr result }
        ensures counts { counts_in self.new ≡ with_failure (counts_in self.old) }
        ensures story { story_in self.new
            ≡ after_write false which at bytes.now (story_in self.old) }
        ensures memory { memory_of self.new ≡ memory_of self.old }
    {
        self.notes.note(&Note::Refused(which, at), bytes);
        self.counts.fail();
        Err(DeviceError)
    }
}

impl Disk for Buffers<'_, '_> {
    ghost use Rattle.fit_disk.specs.Buffers.{story_in, counts_in, memory_of, log_in};

    ghost honest = { true };

    ghost story = { story_in };

    ghost log = { log_in };

    ghost sound = { λ b _. b.sound };

    fn size(&mut self, which: Which) -> Result<u64, DeviceError>
        ensures size { IfOk result (λ size. size ≡ length (seen_of which (story_in self.old))) }
        ensures same { story_in self.new ≡ story_in self.old }
        ensures counted { CountsCall result (counts_in self.old) (counts_in self.new) }
        ensures reads { (counts_in self.new).data_reads ≡ (counts_in self.old).data_reads }
        ensures memory { memory_of self.new ≡ memory_of self.old }
        ensures room { TakesRoom 1 0 (IsErr result
            × (which ≡ Data)) (log_in self.old) (log_in self.new) }
    {
        self.counts.call()?;
        Ok(self.content(which).len() as u64)
    }

    fn read(&mut self, which: Which, at: u64, buffer: &mut [u8]) -> Result<usize, DeviceError>
        ensures within { IfOk result (λ count. count ≤ length buffer.old) }
        ensures bytes { IfOk result
            (ReadsAt (seen_of which (story_in self.old)) at (length buffer.old) buffer.new) }
        ensures same { story_in self.new ≡ story_in self.old }
        ensures counted { CountsCall result (counts_in self.old) (counts_in self.new) }
        ensures reads { CountsRead which (counts_in self.old) (counts_in self.new) }
        ensures memory { memory_of self.new ≡ memory_of self.old }
    {
        self.counts.read(which)?;
        Ok(copy_from(self.content(which), at, buffer))
    }

    fn write(&mut self, which: Which, at: u64, bytes: &[u8]) -> Result<(), DeviceError>
        requires { at ≤ length (seen_of which (story_in self.old)) }
        ensures wrote { Wrote which at bytes.now result (story_in self.old) (story_in self.new) }
        ensures counted { CountsCall result (counts_in self.old) (counts_in self.new) }
        ensures reads { (counts_in self.new).data_reads ≡ (counts_in self.old).data_reads }
        ensures memory { memory_of self.new ≡ memory_of self.old }
        ensures room { TakesRoom 1 (length bytes.now) (IsErr result
            × (at + length bytes.now < 2 ^ 64))
            (log_in self.old) (log_in self.new) }
    {
        self.counts.call()?;
        if !self.has_room(which, at as usize, bytes.len()) {
            return self.refuse(which, at, bytes);
        }
        match which {
            Which::Data => put(self.data_bytes, &mut self.data_len, at as usize, bytes),
            Which::Journal => put(
                self.journal_bytes,
                &mut self.journal_len,
                at as usize,
                bytes,
            ),
        }
        self.notes.note(&Note::Written(which, at), bytes);
        Ok(())
    }

    fn cut(&mut self, which: Which, len: u64) -> Result<(), DeviceError>
        requires { len ≤ length (seen_of which (story_in self.old)) }
        ensures shortened { Shortened which len result (story_in self.old) (story_in self.new) }
        ensures counted { CountsCall result (counts_in self.old) (counts_in self.new) }
        ensures reads { (counts_in self.new).data_reads ≡ (counts_in self.old).data_reads }
        ensures memory { memory_of self.new ≡ memory_of self.old }
        ensures room { TakesRoom 1 0 (IsErr result) (log_in self.old) (log_in self.new) }
    {
        self.counts.call()?;
        match which {
            Which::Data => self.data_len = len as usize,
            Which::Journal => self.journal_len = len as usize,
        }
        self.notes.note(&Note::Cut(which, len), &[]);
        Ok(())
    }

    fn sync(&mut self, which: Which) -> Result<(), DeviceError>
        ensures synced { Synced which result (story_in self.old) (story_in self.new) }
        ensures counted { CountsCall result (counts_in self.old) (counts_in self.new) }
        ensures reads { (counts_in self.new).data_reads ≡ (counts_in self.old).data_reads }
        ensures memory { memory_of self.new ≡ memory_of self.old }
        ensures room { TakesRoom 1 0 (IsErr result) (log_in self.old) (log_in self.new) }
    {
        self.counts.call()?;
        self.notes.note(&Note::Synced(which), &[]);
        Ok(())
    }
}

// Writes over what is there, and past the end of a file of this length.
fn put(room: &mut [u8], len: &mut usize, at: usize, bytes: &[u8])
    requires fits { len.old ≤ length room.old }
    requires within { at ≤ len.old }
    requires room { at + length bytes.now ≤ length room.old }
    ensures content { take len.new room.new ≡ over at bytes.now (take len.old room.old) }
    ensures fits { len.new ≤ length room.new }
{
    put_in(room, at, bytes);
    *len = (*len).max(at + bytes.len());
}

// Writes over what is there.
fn put_in(room: &mut [u8], at: usize, bytes: &[u8])
    requires { at + length bytes.now ≤ length room.old }
    ensures content { room.new ≡ over at bytes.now room.old }
    ensures long { length room.new ≡ length room.old }
{
    room[at..at + bytes.len()].copy_from_slice(bytes);
}

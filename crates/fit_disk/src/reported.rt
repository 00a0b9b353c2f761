// The two real files. Each call of the system is made here, and reported to a witness.

ghost use Rattle.std.specs.Prelude.{◌≡◌, ◌≤◌, is_ok, IsTrue, IfOk, IfSome, length, take};
ghost use Rattle.fit_disk.specs.Calls.{ReadsAt, Wrote, Shortened, Synced};
ghost use Rattle.fit_disk.specs.Story.{seen_of};
ghost use Rattle.fit_disk.specs.Witness.{IsPart};

use crate::{DeviceError, Which, Witness};
use std::fs::File;
use std::io::{self, ErrorKind};
use std::os::unix::fs::FileExt;

// Both files, and the witness of their answers.
#[derive(Drop)]
pub(crate) struct Reported<W> {
    pub(crate) data: File,
    pub(crate) journal: File,
    pub(crate) witness: W,
}

impl<W: Witness> Reported<W> {
    fn file(&self, which: Which) -> &File {
        match which {
            Which::Data => &self.data,
            Which::Journal => &self.journal,
        }
    }

    pub(crate) fn size(&self, which: Which) -> Result<u64, DeviceError>
        ensures { IsTrue W.honest → IfOk result
            (λ size. size ≡ length (seen_of which (W.story self.now.witness))) }
    {
        let size = answer_of(self.file(which).metadata())?.len();
        self.witness.sized(which, size)?;
        Ok(size)
    }

    // One read, or `None` if it was interrupted.
    fn read_part(
        &self,
        which: Which,
        at: u64,
        buffer: &mut [u8],
    ) -> Result<Option<usize>, DeviceError>
        ensures within { IfOk result (λ part. IfSome part (λ count. count ≤ length buffer.old)) }
        ensures bytes { IsTrue W.honest → IfOk result (λ part. IfSome part (λ count.
            IsPart (seen_of which (W.story self.now.witness)) at (length buffer.old)
            (take count buffer.new))) }
    {
        match self.file(which).read_at(buffer, at) {
            Ok(count) => {
                let room = buffer.len();
                self.witness.gave(which, at, room, &buffer[..count])?;
                Ok(Some(count))
            }
            Err(error) if error.kind() == ErrorKind::Interrupted => Ok(None),
            Err(_) => Err(DeviceError),
        }
    }

    // Reads from a place on until the buffer is full or the file ends, and returns the number of bytes.
    pub(crate) fn read(
        &self,
        which: Which,
        at: u64,
        buffer: &mut [u8],
    ) -> Result<usize, DeviceError>
        ensures within { IfOk result (λ count. count ≤ length buffer.old) }
        ensures bytes { IsTrue W.honest → IfOk result
            (ReadsAt (seen_of which (W.story self.now.witness)) at (length buffer.old) buffer.new) }
    {
        let mut count = 0;
        for _ in 0..u64::MAX {
            if count == buffer.len() {
                return Ok(count);
            }
            let Some(place) = at.checked_add(count as u64) else {
                return Err(DeviceError);
            };
            match self.read_part(which, place, &mut buffer[count..])? {
                Some(0) => return Ok(count),
                Some(more) => count += more,
                None => {}
            }
        }
        Err(DeviceError)
    }

    pub(crate) fn write(&mut self, which: Which, at: u64, bytes: &[u8]) -> Result<(), DeviceError>
        requires { IsTrue W.honest → at ≤ length (seen_of which (W.story self.old.witness)) }
        ensures { IsTrue W.honest
            → Wrote which at bytes.now result (W.story self.old.witness)
            (W.story self.new.witness) }
    {
        let answer = answer_of(self.file(which).write_all_at(bytes, at));
        self.witness.wrote(which, at, bytes, answer)
    }

    pub(crate) fn cut(&mut self, which: Which, len: u64) -> Result<(), DeviceError>
        requires { IsTrue W.honest → len ≤ length (seen_of which (W.story self.old.witness)) }
        ensures { IsTrue W.honest
            → Shortened which len result (W.story self.old.witness) (W.story self.new.witness) }
    {
        let answer = answer_of(self.file(which).set_len(len));
        self.witness.shortened(which, len, answer)
    }

    pub(crate) fn sync(&mut self, which: Which) -> Result<(), DeviceError>
        ensures { IsTrue W.honest
            → Synced which result (W.story self.old.witness) (W.story self.new.witness) }
    {
        let answer = answer_of(self.file(which).sync_data());
        self.witness.synced(which, answer)
    }
}

// The answer of the system. All of its errors are one.
fn answer_of<T: Drop>(done: io::Result<T>) -> Result<T, DeviceError>
    ensures { is_ok result ≡ is_ok done }
{
    match done {
        Ok(found) => Ok(found),
        Err(_) => Err(DeviceError),
    }
}

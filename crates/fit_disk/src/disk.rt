// The trait over which recorder and recovery are proved.

ghost use Rattle.std.specs.Prelude.{◌≡◌, ◌+◌, ◌<◌, ◌≤◌, ◌^◌, Bool, IsTrue, IfOk, IsErr, length};
ghost use Rattle.fit_disk.specs.Counts.{Log, CountsCall, CountsRead};
ghost use Rattle.fit_disk.specs.Runs.{TakesRoom};

/// One of the two files of a recording.
#[derive(Clone, Copy, Debug, PartialEq, Eq)]
pub enum Which {
    Data,
    Journal,
}

/// A call of the device failed. It is the only fault of a disk. The disk counts it, up to the last value of its counts.
#[derive(Clone, Copy, Debug, PartialEq, Eq)]
pub struct DeviceError;

/// A disk with two files, as contracts see it: what reads give, what a power cut may leave now and might have
/// left since an earlier call, how many calls were made and how many failed, and whether the last one did.
pub trait Disk {
    ghost use Rattle.fit_disk.specs.Story.{Story, seen_of};
    ghost use Rattle.fit_disk.specs.Calls.{ReadsAt, Wrote, Shortened, Synced, IsSound};
    ghost use Rattle.fit_disk.specs.declared.disk.Which.TheVariants.{Data};

    /// Reads give what was written or left, and a successful sync keeps it. Of a disk that is not honest only its log is known.
    ghost honest: { Bool };

    /// The state of both files now, and the earlier states.
    ghost story: { Self → Story };

    /// The number of calls, of reads of the data file among them and of failed calls; whether the last call
    /// failed; which calls are scheduled to fail; and for how many calls there is room. No call of the trait changes the
    /// schedule.
    ghost log: { Self → Log };

    /// The length of a file in bytes.
    fn size(&mut self, which: Which) -> Result<u64, DeviceError>
        ensures size { IsTrue honest
            → IfOk result (λ size. size ≡ length (seen_of which (story self.old))) }
        ensures same { IsTrue honest → story self.new ≡ story self.old }
        ensures counted { CountsCall result (log self.old).counts (log self.new).counts }
        ensures reads { (log self.new).counts.data_reads ≡ (log self.old).counts.data_reads }
        ensures planned { (log self.new).schedule ≡ (log self.old).schedule }
        ensures memory { (log self.new).memory ≡ (log self.old).memory }
        ensures room { TakesRoom 1 0 (IsErr result
            × (which ≡ Data)) (log self.old) (log self.new) };

    /// Reads from a place on into the front of the buffer, and returns the number of bytes. On an honest disk
    /// it is as many as both the buffer and the file have, and 0 from the end of the file on.
    fn read(&mut self, which: Which, at: u64, buffer: &mut [u8]) -> Result<usize, DeviceError>
        ensures within { IfOk result (λ count. count ≤ length buffer.old) }
        ensures bytes { IsTrue honest
            → IfOk result (ReadsAt (seen_of which (story self.old)) at
            (length buffer.old) buffer.new) }
        ensures same { IsTrue honest → story self.new ≡ story self.old }
        ensures counted { CountsCall result (log self.old).counts (log self.new).counts }
        ensures reads { CountsRead which (log self.old).counts (log self.new).counts }
        ensures planned { (log self.new).schedule ≡ (log self.old).schedule }
        ensures memory { (log self.new).memory ≡ (log self.old).memory }
        ensures room { (log self.new).room ≡ (log self.old).room };

    /// Writes bytes at a place, which is at most the file's length, over what is there and past the end.
    /// Until a sync a crash may leave any bytes in that range. A failed write may have been done in part.
    fn write(&mut self, which: Which, at: u64, bytes: &[u8]) -> Result<(), DeviceError>
        requires { IsTrue honest → at ≤ length (seen_of which (story self.old)) }
        ensures wrote { IsTrue honest
            → Wrote which at bytes.now result (story self.old) (story self.new) }
        ensures counted { CountsCall result (log self.old).counts (log self.new).counts }
        ensures reads { (log self.new).counts.data_reads ≡ (log self.old).counts.data_reads }
        ensures planned { (log self.new).schedule ≡ (log self.old).schedule }
        ensures memory { (log self.new).memory ≡ (log self.old).memory }
        ensures room { TakesRoom 1 (length bytes.now) (IsErr result
            × (at + length bytes.now < 2 ^ 64))
            (log self.old) (log self.new) };

    /// Cuts a file to a length in bytes, at most its own. A failed cut may have been done in part.
    fn cut(&mut self, which: Which, len: u64) -> Result<(), DeviceError>
        requires { IsTrue honest → len ≤ length (seen_of which (story self.old)) }
        ensures shortened { IsTrue honest
            → Shortened which len result (story self.old) (story self.new) }
        ensures counted { CountsCall result (log self.old).counts (log self.new).counts }
        ensures reads { (log self.new).counts.data_reads ≡ (log self.old).counts.data_reads }
        ensures planned { (log self.new).schedule ≡ (log self.old).schedule }
        ensures memory { (log self.new).memory ≡ (log self.old).memory }
        ensures room { TakesRoom 1 0 (IsErr result) (log self.old) (log self.new) };

    /// Waits until all that reads give of the file is kept. A failed sync keeps nothing new and loses nothing.
    fn sync(&mut self, which: Which) -> Result<(), DeviceError>
        ensures synced { IsTrue honest → Synced which result (story self.old) (story self.new) }
        ensures counted { CountsCall result (log self.old).counts (log self.new).counts }
        ensures reads { (log self.new).counts.data_reads ≡ (log self.old).counts.data_reads }
        ensures planned { (log self.new).schedule ≡ (log self.old).schedule }
        ensures memory { (log self.new).memory ≡ (log self.old).memory }
        ensures room { TakesRoom 1 0 (IsErr result) (log self.old) (log self.new) };

    /// What reads give may itself be left.
    ghost sound: { (disk : Self) → IsTrue honest → IsSound (story disk).now };
}

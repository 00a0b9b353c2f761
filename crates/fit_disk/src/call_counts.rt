// The counts of a disk's calls, for the memory disk and the real files.

ghost use Rattle.std.specs.Prelude.{◌≡◌, ◌+◌, ◌<◌, ◌≤◌, ◌^◌, OnOk, OnErr};
ghost use Rattle.fit_disk.specs.Counts.{no_calls, with_call, with_read, with_failure, with_uncounted, last_count};

use crate::{DeviceError, Which};

/// The number of calls, of reads of the data file among them and of failed calls, and whether the last call
/// failed. Each disk keeps one, and counts a call before it does anything else.
#[derive(Clone, Copy)]
pub struct CallCounts {
    pub(crate) calls: u64,
    pub(crate) data_reads: u64,
    pub(crate) failed: u64,
    pub(crate) last_failed: bool,
    ghost fits: { calls < 2 ^ 64 },
    ghost order: { failed ≤ calls },
    ghost reads: { data_reads ≤ calls },
}

impl CallCounts {
    ghost use Rattle.fit_disk.specs.CallSchedule.{counts_of};

    /// All counts are 0.
    pub fn new() -> CallCounts
        ensures { counts_of result ≡ no_calls }
    {
        CallCounts {
            calls: 0,
            data_reads: 0,
            failed: 0,
            last_failed: false,
        }
    }

    /// Counts a call. At the last value, 2^64 - 1 calls, the numbers stay and the call fails.
    pub fn call(&mut self) -> Result<(), DeviceError>
        ensures ok { OnOk result (counts_of self.new ≡ with_call (counts_of self.old)) }
        ensures err { OnErr result (((counts_of self.old).calls ≡ last_count)
            × (counts_of self.new ≡ with_uncounted (counts_of self.old))) }
    {
        self.last_failed = self.calls == u64::MAX;
        if self.last_failed {
            return Err(DeviceError);
        }
        self.calls += 1;
        Ok(())
    }

    /// Counts a read, as `call` does.
    pub fn read(&mut self, which: Which) -> Result<(), DeviceError>
        ensures ok { OnOk result (counts_of self.new ≡ with_read which (counts_of self.old)) }
        ensures err { OnErr result (((counts_of self.old).calls ≡ last_count)
            × (counts_of self.new ≡ with_uncounted (counts_of self.old))) }
    {
        self.call()?;
        match which {
            Which::Data => self.data_reads += 1,
            Which::Journal => {}
        }
        Ok(())
    }

    /// Counts the last counted call as failed.
    pub fn fail(&mut self)
        requires { (counts_of self.old).failed < (counts_of self.old).calls }
        ensures { counts_of self.new ≡ with_failure (counts_of self.old) }
    {
        self.failed += 1;
        self.last_failed = true;
    }
}

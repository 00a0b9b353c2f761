// The calls of the memory disk by number: how many were made, and which of them are to fail.

ghost use Rattle.std.specs.Prelude.{IsOk, is_ok, is_err, if◌then◌else◌, ◌≡◌, ◌<◌, true, false, IsErr, ◌||◌, ◌==◌};
ghost use Rattle.fit_disk.specs.Counts.{CountsCall, CountsRead, FailedAsPlanned, is_at, is_from, failing_at, cut_off_at, unplanned, no_calls, last_count, with_failure, must_fail};
ghost use Rattle.fit_disk.specs.CallSchedule.{counts_of, schedule_by};

use crate::call_counts::CallCounts;
use crate::{DeviceError, Which};

// Which calls are to fail, by their numbers, and the counts when this was scheduled.
#[derive(Drop)]
pub(crate) struct CallSchedule {
    counts: CallCounts,
    fail: Option<u64>,
    cut: Option<u64>,
    since: CallCounts,
    growth_was_refused: bool,
    // Memory was refused in the last call.
    last_growth_was_refused: bool,
    ghost planned: { growth_was_refused ≡ false
        → FailedAsPlanned (counts_of counts) (schedule_by fail cut since) },
}

impl CallSchedule {
    ghost use Rattle.fit_disk.specs.Memory.{schedule_counts, schedule_value};

    pub(crate) fn new() -> CallSchedule
        ensures counts { schedule_counts result ≡ no_calls }
        ensures schedule { schedule_value result ≡ unplanned no_calls }
        ensures refused { result.growth_was_refused ≡ false }
        ensures last { result.last_growth_was_refused ≡ false }
    {
        let none = CallCounts::new();
        CallSchedule {
            counts: none,
            fail: None,
            cut: None,
            since: none,
            growth_was_refused: false,
            last_growth_was_refused: false,
        }
    }

    // Whether memory was refused, or the counts are at their last value.
    pub(crate) fn is_spent(&self) -> bool
        ensures { result ≡ (self.now.growth_was_refused || (self.now.counts.calls == last_count)) }
    {
        self.growth_was_refused || self.counts.calls == u64::MAX
    }

    // Counts a call. It fails if it is scheduled to, or if the counts are at their last value.
    pub(crate) fn call(&mut self) -> Result<(), DeviceError>
        ensures counted { CountsCall result (schedule_counts self.old) (schedule_counts self.new) }
        ensures reads { self.new.counts.data_reads ≡ self.old.counts.data_reads }
        ensures schedule { schedule_value self.new ≡ schedule_value self.old }
        ensures fails { is_err result
            ≡ must_fail (schedule_counts self.old) (schedule_value self.old) }
        ensures refused { self.new.growth_was_refused ≡ self.old.growth_was_refused }
        ensures last { self.new.last_growth_was_refused ≡ false }
    {
        self.last_growth_was_refused = false;
        self.counts.call()?;
        if is_due(self.fail, self.cut, self.counts.calls) {
            self.counts.fail();
            return Err(DeviceError);
        }
        Ok(())
    }

    // Counts a read, which fails as a call does.
    pub(crate) fn read(&mut self, which: Which) -> Result<(), DeviceError>
        ensures counted { CountsCall result (schedule_counts self.old) (schedule_counts self.new) }
        ensures reads { CountsRead which (schedule_counts self.old) (schedule_counts self.new) }
        ensures schedule { schedule_value self.new ≡ schedule_value self.old }
        ensures fails { is_err result
            ≡ must_fail (schedule_counts self.old) (schedule_value self.old) }
        ensures refused { self.new.growth_was_refused ≡ self.old.growth_was_refused }
        ensures last { self.new.last_growth_was_refused ≡ false }
    {
        self.last_growth_was_refused = false;
        self.counts.read(which)?;
        if is_due(self.fail, self.cut, self.counts.calls) {
            self.counts.fail();
            return Err(DeviceError);
        }
        Ok(())
    }

    // Lets the last call fail, because memory was refused in it.
    pub(crate) fn refuse(&mut self, answer: Result<(), DeviceError>) -> Result<(), DeviceError>
        requires { IsOk answer → self.old.counts.failed < self.old.counts.calls }
        ensures err { IsErr result }
        ensures counts { schedule_counts self.new
            ≡ (if is_ok answer
            then with_failure (schedule_counts self.old) else schedule_counts self.old) }
        ensures schedule { schedule_value self.new ≡ schedule_value self.old }
        ensures refused { self.new.growth_was_refused ≡ true }
        ensures last { self.new.last_growth_was_refused ≡ true }
    {
        self.growth_was_refused = true;
        self.last_growth_was_refused = true;
        match answer {
            Ok(()) => self.counts.fail(),
            Err(_) => {}
        }
        Err(DeviceError)
    }

    // Lets the k-th call from now fail.
    pub(crate) fn fail_at(&mut self, k: u32)
        ensures counts { schedule_counts self.new ≡ schedule_counts self.old }
        ensures schedule { schedule_value self.new
            ≡ failing_at k (schedule_counts self.old) (schedule_value self.old) }
        ensures refused { self.new.growth_was_refused ≡ self.old.growth_was_refused }
        ensures last { self.new.last_growth_was_refused ≡ self.old.last_growth_was_refused }
    {
        self.fail = self.counts.calls.checked_add(u64::from(k));
        self.since = self.counts;
    }

    // Lets the power go off at the k-th call from now, unless it is off already.
    pub(crate) fn cut_at(&mut self, k: u32)
        ensures counts { schedule_counts self.new ≡ schedule_counts self.old }
        ensures schedule { schedule_value self.new
            ≡ cut_off_at k (schedule_counts self.old) (schedule_value self.old) }
        ensures refused { self.new.growth_was_refused ≡ self.old.growth_was_refused }
        ensures last { self.new.last_growth_was_refused ≡ self.old.last_growth_was_refused }
    {
        if !is_from_number(self.cut, self.counts.calls) {
            self.cut = self.counts.calls.checked_add(u64::from(k));
        }
        self.since = self.counts;
    }

    // Drops the schedule.
    pub(crate) fn drop_plans(&mut self)
        ensures counts { schedule_counts self.new ≡ schedule_counts self.old }
        ensures schedule { schedule_value self.new ≡ unplanned (schedule_counts self.old) }
        ensures refused { self.new.growth_was_refused ≡ self.old.growth_was_refused }
        ensures last { self.new.last_growth_was_refused ≡ self.old.last_growth_was_refused }
    {
        self.fail = None;
        self.cut = None;
        self.since = self.counts;
    }
}

// Whether the call of this number is to fail.
fn is_due(fail: Option<u64>, cut: Option<u64>, number: u64) -> bool
    ensures { result ≡ (is_at fail number || is_from cut number) }
{
    is_at_number(fail, number) || is_from_number(cut, number)
}

// Whether the scheduled number is this one.
fn is_at_number(planned: Option<u64>, number: u64) -> bool
    ensures { result ≡ is_at planned number }
{
    match planned {
        Some(planned) => number == planned,
        None => false,
    }
}

// Whether the scheduled number is this one or below it.
fn is_from_number(planned: Option<u64>, number: u64) -> bool
    ensures { result ≡ is_from planned number }
{
    match planned {
        Some(planned) => planned <= number,
        None => false,
    }
}

// The disk in memory: an honest disk whose failures and power cuts are scheduled.

ghost use Rattle.std.specs.Prelude.{◌≡◌, ◌⊎◌, ◌<◌, ◌≤◌, true, false, min, length, IfOk, OnErr};
ghost use Rattle.fit_disk.specs.State.{BothLeft, seen_in};
ghost use Rattle.fit_disk.specs.Story.{state_then, seen_of};
ghost use Rattle.fit_disk.specs.Changes.{after_write, after_cut};
ghost use Rattle.fit_disk.specs.Cycle.{cycled, taken_in};
ghost use Rattle.fit_disk.specs.Events.{fresh};
ghost use Rattle.fit_disk.specs.Calls.{ReadsAt, Wrote, Shortened, Synced};
ghost use Rattle.fit_disk.specs.Counts.{FailedAsPlanned, CountsCall, CountsRead, failing_at, cut_off_at, unplanned, no_calls, last_count};
ghost use Rattle.fit_disk.specs.CallSchedule.{counts_of, schedule_by};

use crate::call_schedule::CallSchedule;
use crate::store::Store;
use crate::{DeviceError, Disk, Which, copy_from};
use std::alloc::Global;

/// An honest disk in memory. A call fails if and only if it is scheduled to, memory was refused in it, or the
/// counts are at their last value. A failed write or cut changes nothing that reads give.
#[derive(Drop)]
pub struct Memory {
    store: Store,
    call_schedule: CallSchedule,
    /// Unless memory was refused, as many calls have failed since the schedule was made as it gives.
    pub ghost planned: { call_schedule.growth_was_refused ≡ false
        → FailedAsPlanned (counts_of call_schedule.counts)
        (schedule_by call_schedule.fail call_schedule.cut call_schedule.since) },
}

impl Memory {
    ghost use Rattle.fit_disk.specs.Memory.{memory_story, memory_counts, memory_schedule, growth_was_refused, last_growth_was_refused, is_spent};

    /// Two empty files. Memory is taken only as they grow.
    pub fn new(alloc: Global) -> Memory
        ensures story { memory_story result ≡ fresh }
        ensures counts { memory_counts result ≡ no_calls }
        ensures schedule { memory_schedule result ≡ unplanned no_calls }
        ensures refused { growth_was_refused result ≡ false }
        ensures last { last_growth_was_refused result ≡ false }
    {
        Memory {
            store: Store::new(alloc),
            call_schedule: CallSchedule::new(),
        }
    }

    /// What reads of a file would give, without a call of the disk.
    pub fn content(&self, which: Which) -> &[u8]
        ensures { result.now ≡ seen_of which (memory_story self.now) }
    {
        self.store.content(which)
    }

    /// Whether memory was refused in a call so far, or the counts are at their last value.
    pub fn spent(&self) -> bool
        ensures spent { result ≡ is_spent self.now }
        ensures below { result ≡ false → (memory_counts self.now).calls < last_count }
    {
        self.call_schedule.is_spent()
    }

    /// Lets only the k-th call from now fail, counted from 1. It replaces what an earlier `fail_at` scheduled.
    pub fn fail_at(&mut self, k: u32)
        requires { 1 ≤ k }
        ensures story { memory_story self.new ≡ memory_story self.old }
        ensures counts { memory_counts self.new ≡ memory_counts self.old }
        ensures schedule { memory_schedule self.new
            ≡ failing_at k (memory_counts self.old) (memory_schedule self.old) }
        ensures refused { growth_was_refused self.new ≡ growth_was_refused self.old }
        ensures last { last_growth_was_refused self.new ≡ last_growth_was_refused self.old }
    {
        self.call_schedule.fail_at(k);
    }

    /// Lets the power go off at the k-th call from now, counted from 1. That call and all later ones fail
    /// until `cycle`. It changes nothing while the power is off.
    pub fn cut_at(&mut self, k: u32)
        requires { 1 ≤ k }
        ensures story { memory_story self.new ≡ memory_story self.old }
        ensures counts { memory_counts self.new ≡ memory_counts self.old }
        ensures schedule { memory_schedule self.new
            ≡ cut_off_at k (memory_counts self.old) (memory_schedule self.old) }
        ensures refused { growth_was_refused self.new ≡ growth_was_refused self.old }
        ensures last { last_growth_was_refused self.new ≡ last_growth_was_refused self.old }
    {
        self.call_schedule.cut_at(k);
    }

    /// Leaves of both files what a power cut does for these choice bytes, turns the power on, and drops the
    /// schedule. It returns how many of the choice bytes it took, and takes no memory.
    pub fn cycle(&mut self, choices: &[u8]) -> usize
        ensures now { (memory_story self.new).now ≡ cycled choices.now (memory_story self.old).now }
        ensures story { (memory_story self.new ≡ memory_story self.old)
            ⊎ (memory_story self.new
            ≡ state_then (cycled choices.now (memory_story self.old).now) (memory_story self.old)) }
        ensures left { BothLeft (memory_story self.old).now (seen_in (memory_story self.new).now) }
        ensures taken { result
            ≡ min (taken_in choices.now (memory_story self.old).now) (length choices.now) }
        ensures counts { memory_counts self.new ≡ memory_counts self.old }
        ensures schedule { memory_schedule self.new ≡ unplanned (memory_counts self.old) }
        ensures refused { growth_was_refused self.new ≡ growth_was_refused self.old }
        ensures last { last_growth_was_refused self.new ≡ last_growth_was_refused self.old }
    {
        self.call_schedule.drop_plans();
        self.store.cycle(choices)
    }
}

impl Disk for Memory {
    ghost use Rattle.fit_disk.specs.Memory.{memory_story, memory_counts, memory_schedule, memory_log, growth_was_refused, last_growth_was_refused, FailsByCause, FailsCleanly};

    ghost honest = { true };

    ghost story = { memory_story };

    ghost log = { memory_log };

    ghost sound = { λ m _.
        record { data_left = m.store.in_data.sound; journal_left = m.store.in_journal.sound } };

    fn size(&mut self, which: Which) -> Result<u64, DeviceError>
        ensures size { IfOk result (λ size. size ≡ length (seen_of which (memory_story self.old))) }
        ensures same { memory_story self.new ≡ memory_story self.old }
        ensures counted { CountsCall result (memory_counts self.old) (memory_counts self.new) }
        ensures reads { (memory_counts self.new).data_reads ≡ (memory_counts self.old).data_reads }
        ensures planned { memory_schedule self.new ≡ memory_schedule self.old }
        ensures cause { FailsByCause result self.old self.new }
        ensures refused { growth_was_refused self.new ≡ growth_was_refused self.old }
        ensures last { last_growth_was_refused self.new ≡ false }
    {
        self.call_schedule.call()?;
        Ok(self.store.content(which).len() as u64)
    }

    fn read(&mut self, which: Which, at: u64, buffer: &mut [u8]) -> Result<usize, DeviceError>
        ensures within { IfOk result (λ count. count ≤ length buffer.old) }
        ensures bytes { IfOk result
            (ReadsAt (seen_of which (memory_story self.old)) at (length buffer.old) buffer.new) }
        ensures same { memory_story self.new ≡ memory_story self.old }
        ensures counted { CountsCall result (memory_counts self.old) (memory_counts self.new) }
        ensures reads { CountsRead which (memory_counts self.old) (memory_counts self.new) }
        ensures planned { memory_schedule self.new ≡ memory_schedule self.old }
        ensures cause { FailsByCause result self.old self.new }
        ensures refused { growth_was_refused self.new ≡ growth_was_refused self.old }
        ensures last { last_growth_was_refused self.new ≡ false }
    {
        self.call_schedule.read(which)?;
        Ok(copy_from(self.store.content(which), at, buffer))
    }

    fn write(&mut self, which: Which, at: u64, bytes: &[u8]) -> Result<(), DeviceError>
        requires { at ≤ length (seen_of which (memory_story self.old)) }
        ensures wrote { Wrote which at bytes.now result (memory_story self.old)
            (memory_story self.new) }
        ensures begun { last_growth_was_refused self.new ≡ false
            → OnErr result (memory_story self.new
            ≡ after_write false which at bytes.now (memory_story self.old)) }
        ensures cause { FailsByCause result self.old self.new }
        ensures clean { FailsCleanly result self.old self.new }
        ensures counted { CountsCall result (memory_counts self.old) (memory_counts self.new) }
        ensures reads { (memory_counts self.new).data_reads ≡ (memory_counts self.old).data_reads }
        ensures planned { memory_schedule self.new ≡ memory_schedule self.old }
    {
        let answer = self.call_schedule.call();
        match self.store.write(which, at as usize, bytes, answer.is_ok()) {
            Ok(()) => answer,
            Err(_) => self.call_schedule.refuse(answer),
        }
    }

    fn cut(&mut self, which: Which, len: u64) -> Result<(), DeviceError>
        requires { len ≤ length (seen_of which (memory_story self.old)) }
        ensures shortened { Shortened which len result (memory_story self.old)
            (memory_story self.new) }
        ensures begun { last_growth_was_refused self.new ≡ false
            → OnErr result (memory_story self.new
            ≡ after_cut false which len (memory_story self.old)) }
        ensures cause { FailsByCause result self.old self.new }
        ensures clean { FailsCleanly result self.old self.new }
        ensures counted { CountsCall result (memory_counts self.old) (memory_counts self.new) }
        ensures reads { (memory_counts self.new).data_reads ≡ (memory_counts self.old).data_reads }
        ensures planned { memory_schedule self.new ≡ memory_schedule self.old }
    {
        let answer = self.call_schedule.call();
        match self.store.cut(which, len as usize, answer.is_ok()) {
            Ok(()) => answer,
            Err(_) => self.call_schedule.refuse(answer),
        }
    }

    fn sync(&mut self, which: Which) -> Result<(), DeviceError>
        ensures synced { Synced which result (memory_story self.old) (memory_story self.new) }
        ensures cause { FailsByCause result self.old self.new }
        ensures clean { FailsCleanly result self.old self.new }
        ensures counted { CountsCall result (memory_counts self.old) (memory_counts self.new) }
        ensures reads { (memory_counts self.new).data_reads ≡ (memory_counts self.old).data_reads }
        ensures planned { memory_schedule self.new ≡ memory_schedule self.old }
    {
        let answer = self.call_schedule.call();
        if answer.is_ok() && self.store.sync(which).is_err() {
            return self.call_schedule.refuse(answer);
        }
        answer
    }
}

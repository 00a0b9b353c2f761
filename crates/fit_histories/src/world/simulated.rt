// A ride over the memory disk. Failures and power cuts can be arranged.

ghost use Rattle.std.specs.Prelude.{Bool, ◌≡◌, ◌≤◌, true, false, min, length};
ghost use Rattle.fit_histories.specs.declared.command.Command.TheVariants as commands;
ghost use Rattle.fit_histories.specs.declared.reply.Reply.TheVariants as replies;

use crate::ride::Ride;
use fit_disk::{Memory, Which};

impl Ride<Memory> {
    ghost use Rattle.fit_disk.specs.Counts.{failing_at, cut_off_at, unplanned};
    ghost use Rattle.fit_disk.specs.Cycle.{cycled, taken_in};
    ghost use Rattle.fit_disk.specs.Memory.{memory_story, memory_counts, memory_schedule, is_spent};
    ghost use Rattle.fit_histories.specs.Histories.Table.{History};
    ghost use Rattle.fit_histories.specs.Rides.Ride.{CanGoOn, disk_in, is_riding};
    ghost use Rattle.fit_histories.specs.Rides.NeverFull.{NeverFull, StaysNeverFull};
    ghost use Rattle.fit_histories.specs.Rides.Standing.{StandsIn, TakesStepFrom, content_of};
    ghost use Rattle.fit_histories.specs.Rides.Begun.{LeavesForm};

    /// Makes the k-th call of the disk from now on fail, counted from 1. The ride stays as it is.
    pub(crate) fn fail_at(&mut self, k: u32)
        requires { 1 ≤ k }
        ensures goes_on { CanGoOn true memory_story self.old → CanGoOn true memory_story self.new }
        ensures stands { (history : History) → StandsIn true memory_story self.old history
            → StandsIn true memory_story self.new history }
        ensures never_full { NeverFull memory_story self.old → NeverFull memory_story self.new }
        ensures story { memory_story (disk_in self.new) ≡ memory_story (disk_in self.old) }
        ensures counts { memory_counts (disk_in self.new) ≡ memory_counts (disk_in self.old) }
        ensures schedule { memory_schedule (disk_in self.new)
            ≡ failing_at k (memory_counts (disk_in self.old)) (memory_schedule (disk_in self.old)) }
    {
        match self {
            Ride::Idle(disk) => disk.fail_at(k),
            Ride::Riding(recorder) => recorder.fail_at(k),
        }
    }

    /// Cuts the power at the k-th call of the disk from now on, counted from 1. The ride stays as it is.
    pub(crate) fn cut_at(&mut self, k: u32)
        requires { 1 ≤ k }
        ensures goes_on { CanGoOn true memory_story self.old → CanGoOn true memory_story self.new }
        ensures stands { (history : History) → StandsIn true memory_story self.old history
            → StandsIn true memory_story self.new history }
        ensures never_full { NeverFull memory_story self.old → NeverFull memory_story self.new }
        ensures story { memory_story (disk_in self.new) ≡ memory_story (disk_in self.old) }
        ensures counts { memory_counts (disk_in self.new) ≡ memory_counts (disk_in self.old) }
        ensures schedule { memory_schedule (disk_in self.new)
            ≡ cut_off_at k (memory_counts (disk_in self.old)) (memory_schedule (disk_in self.old)) }
    {
        match self {
            Ride::Idle(disk) => disk.cut_at(k),
            Ride::Riding(recorder) => recorder.cut_at(k),
        }
    }

    /// Ends the recorder that runs, if one does, cuts the power, and brings it back. The choice bytes decide what is left of both
    /// files. Returns how many of them were taken.
    pub(crate) fn power(self, choices: &[u8]) -> (Ride<Memory>, usize)
        ensures ended { is_riding result.0 ≡ false }
        ensures step { (before : History) → StandsIn true memory_story self before
            → TakesStepFrom true memory_story before commands.Power replies.Done result.0 }
        ensures never_full { StaysNeverFull true memory_story self replies.Done result.0 }
        ensures form { (checked : Bool) → LeavesForm checked (memory_story (disk_in self))
            → LeavesForm checked (memory_story (disk_in result.0)) }
        ensures left { (memory_story (disk_in result.0)).now
            ≡ cycled choices.now (memory_story (disk_in self)).now }
        ensures taken { result.1
            ≡ min (taken_in choices.now (memory_story (disk_in self)).now) (length choices.now) }
        ensures counts { memory_counts (disk_in result.0) ≡ memory_counts (disk_in self) }
        ensures schedule { memory_schedule (disk_in result.0)
            ≡ unplanned (memory_counts (disk_in self)) }
    {
        let mut disk = self.into_disk();
        let taken = disk.cycle(choices);
        (Ride::Idle(disk), taken)
    }

    /// Whether the disk was refused memory so far, or its counts of calls are at their greatest value.
    pub(crate) fn spent(&self) -> bool
        ensures { result ≡ is_spent (disk_in self.now) }
    {
        match self {
            Ride::Idle(disk) => disk.spent(),
            Ride::Riding(recorder) => recorder.spent(),
        }
    }

    /// The content of the data file if no recorder runs, and otherwise no bytes.
    pub(crate) fn file(&self) -> &[u8]
        ensures { result.now ≡ content_of memory_story self.now }
    {
        match self {
            Ride::Idle(disk) => disk.content(Which::Data),
            Ride::Riding(_) => &[],
        }
    }
}

// A recorder over the memory disk, whose failures can be arranged.

ghost use Rattle.std.specs.Prelude.{◌≡◌, ◌≤◌};

use crate::recorder::Recorder;
use fit_disk::Memory;

impl Recorder<Memory> {
    ghost use Rattle.fit_disk.specs.Counts.{failing_at, cut_off_at};
    ghost use Rattle.fit_disk.specs.Memory.{memory_counts, memory_schedule, is_spent};
    ghost use Rattle.fit_recorder.specs.Calls.OnMemory.{StandsAsBefore};
    ghost use Rattle.fit_recorder.specs.Calls.Recorder.{disk_of};

    /// Makes the k-th disk call from now fail; the next call is the first. Changes no content and no promise.
    pub fn fail_at(&mut self, k: u32)
        requires { 1 ≤ k }
        ensures same { StandsAsBefore self.old self.new }
        ensures schedule { memory_schedule (disk_of self.new)
            ≡ failing_at k (memory_counts (disk_of self.old)) (memory_schedule (disk_of self.old)) }
    {
        self.files.disk.fail_at(k);
    }

    /// Cuts the power at the k-th disk call from now; the next call is the first. Changes no content and no promise.
    pub fn cut_at(&mut self, k: u32)
        requires { 1 ≤ k }
        ensures same { StandsAsBefore self.old self.new }
        ensures schedule { memory_schedule (disk_of self.new)
            ≡ cut_off_at k (memory_counts (disk_of self.old)) (memory_schedule (disk_of self.old)) }
    {
        self.files.disk.cut_at(k);
    }

    /// Whether the disk was ever refused memory, or the counts of calls have reached their last value.
    pub fn spent(&self) -> bool
        ensures { result ≡ is_spent (disk_of self.now) }
    {
        self.files.disk.spent()
    }
}

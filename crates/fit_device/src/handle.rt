// A recorder in the memory of C.

ghost use Rattle.std.specs.Prelude.{◌≡◌, ◌↔◌, true, false, length, IsTrue, Ok};
ghost use Rattle.fit_disk.specs.Calls.{IsSound};
ghost use Rattle.fit_device.specs.Sealed.{IsSealed, GoesOnIn};
ghost use Rattle.fit_disk.specs.Counts.{no_calls};
ghost use Rattle.fit_plan.specs.Plan.{plan_story, plan_since, plan_counts, room_in, whole_room};
ghost use Rattle.fit_recorder.specs.Calls.Recorder.{GoesOn, has_failed};

use crate::files::Files;
use crate::plan::DevicePlan;
use crate::seal::seal_of;
use crate::thawed::Thawed;
use fit_disk::Notes;
use fit_plan::Plan;
use fit_recorder::{FoundRide, FrozenRecorder, Recorder, continue_with};
use std::mem;

// Stands in each handle of a recorder: the bytes "fitr", low byte first.
const MARK: u32 = 0x7274_6966;

/// A recorder as plain numbers. C keeps it where it likes, and changes nothing in it.
///
/// C owes what the ghost facts say: only a call of this library makes numbers with the mark and their check code.
#[repr(C)]
pub struct Handle {
    /// The length of the data file in bytes.
    pub data_size: u64,
    pub recorder: FrozenRecorder,
    pub mark: u32,
    pub seal: u16,
    pub notes: Notes,
    ghost sound: { IsSound notes.story.now },
    ghost sized: { data_size ≡ length notes.story.now.data_file.seen },
    ghost believed: { IsSealed mark seal recorder data_size → ∥ GoesOnIn recorder notes.story ∥₁ },
}

impl Handle {
    ghost use Rattle.fit_device.specs.Handle.{handle_story, IsRecorder};
    ghost use Rattle.fit_device.specs.Recovering.{GoesOnWith};
    ghost use Rattle.fit_disk.specs.State.{Contents};
    ghost use Rattle.fit_recorder.specs.Calls.Ride.{MayGoOn, TakesUp};
    ghost use Rattle.fit_device.specs.Taken.{IsTaken, IsPut};

    pub(crate) fn is_recorder(&self) -> bool
        ensures { IsTrue result ↔ IsRecorder self.now }
    {
        self.mark == MARK && self.seal == seal_of(&self.recorder, self.data_size)
    }

    // Takes the two files out of the handle, which is none of a recorder then.
    pub(crate) fn take_files(&mut self) -> Plan
        ensures story { plan_story result ≡ handle_story self.old }
        ensures since { plan_since result ≡ handle_story self.old }
        ensures recorder { self.new.recorder ≡ self.old.recorder }
        ensures none { (plan_counts result ≡ no_calls) × (room_in result ≡ whole_room) }
    {
        let plan = Plan::over(self.data_size, mem::replace(&mut self.notes, Notes::new()));
        self.data_size = 0;
        self.mark = 0;
        plan
    }

    // Leaves no recorder in the handle.
    pub(crate) fn leave(&mut self)
        ensures { IsRecorder self.new → ⊥ }
    {
        self.mark = 0;
    }

    // Makes this recorder the one in the handle, which is none of a recorder then. Reports whether it was one before.
    pub(crate) fn take(&mut self, recorder: &mut Recorder<Plan>) -> bool
        ensures was { IsTrue result ↔ IsRecorder self.old }
        ensures none { result ≡ false → self.new ≡ self.old }
        ensures taken { result ≡ true → IsTaken self.old recorder.new }
        ensures goes_on { result ≡ true
            → GoesOn true plan_story recorder.new × (has_failed recorder.new ≡ false) }
    {
        if !self.is_recorder() {
            return false;
        }
        let mut files = self.take_files();
        recorder.swap_disk(&mut files);
        if !recorder.thaw(&self.recorder) {
            return false;
        }
        Thawed {
            recorder: &*recorder,
        }
        .reveal();
        true
    }

    // Puts a recorder into the handle, and its calls into the plan.
    pub(crate) fn put(&mut self, recorder: &Recorder<Plan>, plan: &mut DevicePlan)
        requires goes_on { GoesOn true plan_story recorder.now }
        requires going { has_failed recorder.now ≡ false }
        ensures { IsPut self.new plan.new recorder.now }
    {
        self.mark = 0;
        recorder.freeze(&mut self.recorder);
        self.seal_with(Files::after(recorder.disk(), plan));
    }

    // Puts a recorder into the handle that continues a ride over these files.
    // Not inlined: so its recorder is not on the stack while the ride is read.
    #[inline(never)]
    pub(crate) fn put_ride(&mut self, ride: FoundRide, files: Files)
        requires goes_on { MayGoOn ride }
        requires taken { (contents : Contents) × TakesUp contents files.notes.story (Ok ride) }
        ensures goes_on { (contents : Contents) → TakesUp contents files.notes.story (Ok ride)
            → GoesOnWith contents self.new }
        ensures story { handle_story self.new ≡ files.notes.story }
    {
        let disk = Plan::over(files.size, files.notes.same());
        let mut recorder = Recorder::idle(disk);
        continue_with(&mut recorder, ride);
        self.mark = 0;
        recorder.freeze(&mut self.recorder);
        self.seal_with(files);
    }

    // Puts the two files of the recorder with these numbers into the handle.
    fn seal_with(&mut self, files: Files)
        requires { GoesOnIn self.old.recorder files.notes.story }
        ensures recorder { IsRecorder self.new }
        ensures same { self.new.recorder ≡ self.old.recorder }
        ensures story { handle_story self.new ≡ files.notes.story }
    {
        self.seal = seal_of(&self.recorder, files.size);
        self.mark = MARK;
        self.data_size = files.size;
        self.notes = files.notes;
    }
}

// Two empty files, for a recorder that has none yet.
pub(crate) fn no_files() -> Plan {
    Plan::over(0, Notes::new())
}

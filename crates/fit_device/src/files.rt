// The two files of a handle, without planned calls.

ghost use Rattle.std.specs.Prelude.{◌≡◌, length};
ghost use Rattle.fit_disk.specs.Calls.{IsSound};
ghost use Rattle.fit_device.specs.Planned.{Leads};
ghost use Rattle.fit_plan.specs.Plan.{plan_story, plan_since};

use crate::plan::DevicePlan;
use fit_disk::Notes;
use fit_plan::Plan;

/// Two files of which C has the calls in its plan.
#[derive(Drop)]
pub struct Files {
    pub(crate) size: u64,
    pub(crate) notes: Notes,
    pub(crate) ghost sound: { IsSound notes.story.now },
    pub(crate) ghost sized: { size ≡ length notes.story.now.data_file.seen },
}

impl Files {
    // Puts the calls that are planned into the plan of C, and returns the files.
    // By reference: a plan is large, and each copy takes stack.
    pub(crate) fn after(files: &Plan, plan: &mut DevicePlan) -> Files
        ensures story { result.notes.story ≡ plan_story files.now }
        ensures planned { Leads plan.new (plan_since files.now) (plan_story files.now) }
    {
        plan.fill(files);
        Files {
            size: files.size,
            notes: files.notes.same(),
        }
    }
}

// A recovery by windows of which a handle says only that it reads on, and not what it has read.

ghost use Rattle.fit_plan.specs.Plan.{plan_story};
ghost use Rattle.fit_recorder.specs.Calls.Windows.{CanReadOn, ReadsBodyOn};

use fit_plan::Plan;
use fit_recorder::Recovery;

#[derive(Drop)]
pub(crate) struct Believed<'a, 'b> {
    pub(crate) recovery: &'a Recovery,
    pub(crate) files: &'b Plan,
    pub(crate) ghost reads_on: { ∥ CanReadOn recovery.now × ReadsBodyOn (plan_story files.now) recovery.now ∥₁ },
}

impl Believed<'_, '_> {
    // What is known of the recovery. It does nothing.
    pub(crate) fn reveal(&self)
        ensures { CanReadOn self.now.recovery.now
            × ReadsBodyOn (plan_story self.now.files.now) self.now.recovery.now }
    {}
}

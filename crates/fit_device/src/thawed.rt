// A recorder of which a handle says only that it goes on and has not failed, and not at which list.

ghost use Rattle.std.specs.Prelude.{◌≡◌, true, false};
ghost use Rattle.fit_plan.specs.Plan.{plan_story};
ghost use Rattle.fit_recorder.specs.Calls.Recorder.{GoesOn, has_failed};

use fit_plan::Plan;
use fit_recorder::Recorder;

#[derive(Drop)]
pub(crate) struct Thawed<'a> {
    pub(crate) recorder: &'a Recorder<Plan>,
    pub(crate) ghost goes_on: { ∥ GoesOn true plan_story recorder.now × (has_failed recorder.now ≡ false) ∥₁ },
}

impl Thawed<'_> {
    // What is known of the recorder. It does nothing.
    pub(crate) fn reveal(&self)
        ensures { GoesOn true plan_story self.now.recorder.now
            × (has_failed self.now.recorder.now ≡ false) }
    {}
}

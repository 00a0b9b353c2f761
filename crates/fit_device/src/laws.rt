//! What follows from a plan for its host. Each law is the contract of a function that does nothing.

ghost use Rattle.fit_device.specs.Planned.{Leads, IsCutOffIn};
ghost use Rattle.fit_device.specs.declared.plan.DevicePlan.{DevicePlan};
ghost use Rattle.fit_disk.specs.State.{Contents, BothLeft};
ghost use Rattle.fit_disk.specs.Story.{Story};
ghost use Rattle.fit_plan.specs.Between.{IsLeftBetween};

/// A host is cut off after some calls of a plan, or inside the next one. Whatever a crash leaves then, it might have left at some
/// moment of the whole plan. So what the clause `any_moment` of a step says of every moment is true of it (`left_between` of
/// `fit_plan/proofs/Prefix`).
pub fn prefix()
    ensures { (plan : DevicePlan) (old cut new : Story) (contents : Contents)
        → Leads plan old new → IsCutOffIn plan old cut → BothLeft cut.now contents
        → IsLeftBetween old new contents }
{}

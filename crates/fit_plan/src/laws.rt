//! What follows from a plan for its host. Each law is the contract of a function that does nothing.

ghost use Rattle.std.specs.Prelude.{◌≡◌, ◌<◌, ◌≤◌, ℕ, Result, IsErr};
ghost use Rattle.fit_disk.specs.Counts.{last_count, no_calls};
ghost use Rattle.fit_disk.specs.Runs.{MakesAtMost, TakesRoom};
ghost use Rattle.fit_disk.specs.declared.disk.DeviceError.{DeviceError};
ghost use Rattle.fit_plan.specs.Lent.{IsLentWhole, lent_log as log_of, lent_story as story_of};
ghost use Rattle.fit_plan.specs.declared.journal.LentJournal.{LentJournal};
ghost use Rattle.fit_plan.specs.declared.plan.Plan.{Plan};
ghost use Rattle.fit_plan.specs.Plan.{plan_counts, room_in, whole_room, plan_log, most_planned_calls, most_planned_bytes};

/// Over a plan without calls no run of calls fails that takes at most twelve calls and 896 bytes. Each call of a recorder says how
/// many it takes (`Made` of `fit_recorder`), and none takes more.
pub fn no_device()
    ensures { (calls bytes : ℕ) (old new : Plan) (result : Result (Unit {0}) DeviceError)
        → plan_counts old ≡ no_calls → room_in old ≡ whole_room → calls ≤ most_planned_calls
        → bytes ≤ most_planned_bytes
        → TakesRoom calls bytes (IsErr result) (plan_log old) (plan_log new) → IsErr result → ⊥ }
{}

/// Over a journal that is lent whole no run of calls fails that changes nothing and reads nothing of the data file.
pub fn what_is_lent_is_read()
    ensures { (most : ℕ) (old new : LentJournal) (result : Result (Unit {0}) DeviceError)
        → IsLentWhole old
        → most < last_count → MakesAtMost most 0 (IsErr result) (log_of old) (log_of new)
        → story_of new ≡ story_of old → IsErr result → ⊥ }
{}

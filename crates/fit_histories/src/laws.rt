//! Laws of the definitions in `specs/`. Each is the contract of a function that does nothing.

ghost use Rattle.std.specs.Prelude.{Bool, List, ℕ};
ghost use Rattle.fit_histories.specs.declared.event.Event.{Event};
ghost use Rattle.fit_histories.specs.Histories.Plain.{RidesGoWell};
ghost use Rattle.fit_histories.specs.Histories.Runs.{IsHistory};
ghost use Rattle.fit_histories.specs.Histories.Table.{Outcome};
ghost use Rattle.fit_histories.specs.Simulation.Failing.{FailsAsArranged};
ghost use Rattle.fit_histories.specs.Simulation.Following.{FollowsChoices};

/// Over two empty files, a ride goes well if no failure is arranged and there is room: each entry and each commit is done, and
/// the stop leaves a valid file of the whole ride.
pub fn rides_without_failures_go_well()
    ensures { RidesGoWell }
{}

/// Over two empty files, a start of which one call is arranged to fail is answered by `Device`.
pub fn an_arranged_failure_comes()
    ensures { FailsAsArranged }
{}

/// Answers that follow choice bytes are a history.
pub fn what_follows_choices_is_a_history()
    ensures { (checked : Bool) (choices : List ℕ) (events : List Event) (outcomes : List Outcome)
        → FollowsChoices checked choices events outcomes → IsHistory events outcomes }
{}

//! Laws of the definitions in `specs/`. Each is the contract of a function that does nothing.

ghost use Rattle.std.specs.Prelude.{◌≡◌, ◌++◌, List, Ok};
ghost use Rattle.fit_activity.specs.Rides.Fields.{sample_rows, profile_rows};
ghost use Rattle.fit_activity.specs.Rides.Recording.{Recorded};
ghost use Rattle.fit_activity.specs.Rides.Refusal.{Allowed};
ghost use Rattle.fit_activity.specs.Messages.RideMessages.{spoken, closing};
ghost use Rattle.fit_activity.specs.Files.Activity.{activity_in};
ghost use Rattle.fit_activity.specs.Files.Finished.{summary_of_list};

/// The table of a sample's fields has the rows of the profile.
pub fn samples_have_the_fields_of_the_profile()
    ensures { sample_rows ≡ profile_rows }
{}

/// No two recordings have the same messages.
pub fn messages_have_one_list()
    ensures { (list other : List Recorded) → Allowed list → Allowed other
        → spoken list ≡ spoken other
        → list ≡ other }
{}

/// The finished file of a recording is an activity, and its summary is what the recording adds up to.
pub fn recordings_are_activities()
    ensures { (list : List Recorded) → Allowed list
        → activity_in (spoken list ++ closing list) ≡ Ok (summary_of_list list) }
{}

//! Laws of the definitions in `specs/`. Each is the contract of a function that does nothing.

ghost use Rattle.std.specs.Prelude.{◌≡◌, ℕ, List, Ok};
ghost use Rattle.fit_disk.specs.State.{Contents};
ghost use Rattle.fit_grammar.specs.Calls.PlainForm.{plain_of};
ghost use Rattle.fit_grammar.specs.Format.File.{FileValue, FileOf};
ghost use Rattle.fit_recorder.specs.Files.Finished.{HaveFinished};
ghost use Rattle.fit_recordings.specs.declared.saving.SavedRide.{SavedRide};
ghost use Rattle.fit_recordings.specs.Saved.{SavesRide};

/// The two files of a recording are saved as one file: the plain form of the finished file that a recovery of them leaves.
pub fn rides_are_saved_as_one_file()
    ensures { (contents : Contents) (bytes : List ℕ) (v : FileValue) (saved : SavedRide)
        → HaveFinished contents bytes → FileOf bytes v → SavesRide contents (Ok saved)
        → saved.file ≡ plain_of v }
{}

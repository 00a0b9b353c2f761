//! Laws of the definitions in `specs/`. Each is the contract of a function that does nothing.

ghost use Rattle.std.specs.Prelude.{◌≡◌, ℕ, List};
ghost use Rattle.fit_disk.specs.State.{Contents};
ghost use Rattle.fit_grammar.specs.Calls.PlainForm.{plain_of};
ghost use Rattle.fit_grammar.specs.Format.Encoding.{encoded};
ghost use Rattle.fit_grammar.specs.Format.File.{FileValue, FileOf};
ghost use Rattle.fit_recorder.specs.Files.Finished.{HaveFinished};
ghost use Rattle.fit_c.specs.Repaired.{IsRepaired};
ghost use Rattle.fit_c.specs.Saved.{IsSaved};
ghost use Rattle.fit_c.specs.declared.repairing.RideSummary.{RideSummary};

/// A repair in memory leaves the finished file that a recovery of the two files leaves, and a save writes its plain form.
pub fn calls_have_one_finished_file()
    ensures repaired { (before after : Contents) (numbers : RideSummary)
        → IsRepaired before after numbers → HaveFinished before after.in_data }
    ensures saved { (before : Contents) (bytes out : List ℕ) (v : FileValue)
        (numbers : RideSummary)
        → HaveFinished before bytes → FileOf bytes v → IsSaved before out numbers
        → out ≡ encoded (plain_of v) }
{}

//! Laws of the definitions in `specs/`. Each is the contract of a function that does nothing.

ghost use Rattle.std.specs.Prelude.{◌≡◌, ◌⊎◌, ℕ, IsTrue, List, Result, Ok, Err};
ghost use Rattle.fit_activity.specs.declared.activity.Summary.{Summary};
ghost use Rattle.fit_activity.specs.Rides.Recording.{Recorded};
ghost use Rattle.fit_disk.specs.State.{Contents, LeavesOnly};
ghost use Rattle.fit_disk.specs.Story.{Story, seen_of};
ghost use Rattle.fit_disk.specs.declared.disk.Which.TheVariants.{Data};
ghost use Rattle.fit_recorder.specs.Files.NothingRecorded.{IsNothing};
ghost use Rattle.fit_recorder.specs.Files.Body.{StandsFor};
ghost use Rattle.fit_recorder.specs.Files.Committed.{HasCounted};
ghost use Rattle.fit_recorder.specs.Files.Finished.{HaveFinished};
ghost use Rattle.fit_recorder.specs.Calls.Recorder.{StandsAt, disk_of};
ghost use Rattle.fit_recorder.specs.Calls.Recovery.{RecoveryAnswers, RecoversList};
ghost use Rattle.fit_recorder.specs.declared.fault.RecFault.{RecFault};
ghost use Rattle.fit_recorder.specs.declared.fault.RecFault.TheVariants.{Device};
ghost use Rattle.fit_recorder.specs.declared.recorder.Recorder.{Recorder};

use fit_disk::Disk;

/// Files stand for at most one recording, and not also for nothing recorded.
pub fn files_stand_for_one_list()
    ensures one { (list other : List Recorded) (contents : Contents) → StandsFor list contents
        → StandsFor other contents → list ≡ other }
    ensures not_nothing { (list : List Recorded) (contents : Contents) → StandsFor list contents
        → IsNothing contents → ⊥ }
{}

/// Two files have at most one finished file. A recovery that answers `Ok` leaves it, so all recoveries leave the same bytes.
pub fn files_have_one_finished_file()
    ensures one { (contents : Contents) (bytes others : List ℕ) → HaveFinished contents bytes
        → HaveFinished contents others → bytes ≡ others }
    ensures recovered { (contents : Contents) (story : Story) (summary : Summary)
        → RecoveryAnswers contents story (Ok summary)
        → HaveFinished contents (seen_of Data story) }
{}

/// If the files stand for a recording and no device call fails, a recovery answers `Ok` with the finished file of exactly
/// that recording.
pub fn what_stands_is_recovered()
    ensures { (list : List Recorded) (contents : Contents) (story : Story)
        (result : Result Summary RecFault)
        → StandsFor list contents
        → RecoveryAnswers contents story result
        → (result ≡ Err Device) ⊎ RecoversList list story result }
{}

/// If the files stand for a recording, its body has the checksum that the journal states, if it states one.
pub fn what_stands_has_its_checksum()
    ensures { (list : List Recorded) (contents : Contents) → StandsFor list contents
        → HasCounted contents.in_journal contents.in_data }
{}

/// Whatever a power cut leaves of a recorder's disk stands for the committed entries.
pub fn what_is_committed_stands<D: Disk>()
    ensures { IsTrue D.honest → (recorder : Recorder D) (list committed : List Recorded)
        → StandsAt D.honest D.story recorder list committed
        → LeavesOnly (StandsFor committed) (D.story (disk_of recorder)).now }
{}

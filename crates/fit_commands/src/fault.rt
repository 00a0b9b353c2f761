// The faults of the program.

ghost use Rattle.std.specs.Prelude.{◌≡◌, ◌<◌, IfErr, OnOk};
ghost use Rattle.fit_commands.specs.declared.fault.Fault.TheVariants.{NoMemory, Refused};

use fit_activity::ActivityFault;
use fit_grammar::{FileFault, PlainFault};
use fit_recorder::RecFault;
use fit_recordings::Lack;
use fit_scripts::ScriptFault;
use fit_words::ShownWord;
use std::alloc::AllocError;
use thiserror::Error;

/// A fault of the program. Its text follows `fitrec: ` on standard error.
#[derive(Debug, Drop, Error)]
pub enum Fault<'a> {
    /// A file or folder of this name was not opened.
    #[error("cannot open {}", ShownWord(.0))]
    Open(&'a str),
    /// A file of this name was not read, or is a script that is not UTF-8.
    #[error("cannot read {}", ShownWord(.0))]
    Read(&'a str),
    /// A file of this name was not written. The name of standard output is `-`.
    #[error("cannot write {}", ShownWord(.0))]
    Write(&'a str),
    /// A file has more than 256 MiB, or the plain form of a ride would be too long.
    #[error("TooLarge")]
    TooLarge,
    /// Memory was refused.
    #[error("NoMemory")]
    NoMemory,
    /// The bytes are not a FIT file that the program reads, or memory was refused.
    #[error("{} at {}", .0.kind, .0.place)]
    File(FileFault),
    /// The file of this name, whose definitions were to be taken, is not a FIT file that the program reads.
    #[error("{}: {} at {}", ShownWord(.0), .1.kind, .1.place)]
    NotLike(&'a str, FileFault),
    /// The file of this name, a part of an activity, is not a FIT file that the program reads. A second line says what can be done.
    #[error("{}: {} at {}\nfitrec: salvage --skip --plain --finish makes a whole file of what is readable of a torn one", ShownWord(.0), .1.kind, .1.place)]
    NotPart(&'a str, FileFault),
    /// The file of this name, a part of an activity, has another sport than those before it. A second line says what can be done.
    #[error("{}: OtherSport\nfitrec: the parts before it have another sport; join --as-given takes the parts as they are given", ShownWord(.0))]
    OtherSport(&'a str),
    /// The file of this name, a part of an activity, begins before one of those before it ends. A second line says what can be done.
    #[error("{}: Overlap\nfitrec: it begins before a part before it ends; join --as-given takes the parts as they are given", ShownWord(.0))]
    Overlap(&'a str),
    /// The plain form of a file would be too long, or memory was refused.
    #[error("{} at {}", .0.kind, .0.place)]
    Plain(PlainFault),
    /// No message of a file has a time, so its ride has no beginning.
    #[error("NoTime")]
    NoTime,
    /// A time of the message at this place would be below 0, or 4,294,967,295 or more.
    #[error("TimeTooFar at {0}")]
    TimeTooFar(usize),
    /// The file is not an activity.
    #[error("{0}")]
    Activity(ActivityFault),
    /// No sample of the activity was taken, so it is not finished.
    #[error("NoSample")]
    NoSample,
    /// A line of the script is wrong, or memory was refused.
    #[error("line {}: {}", .0.line, .0.kind)]
    Script(ScriptFault),
    /// Only `simulate` runs the event of this line.
    #[error("line {0}: OnlySimulate")]
    OnlySimulate(usize),
    /// The recording was not recovered or saved.
    #[error("{0}")]
    Recorder(RecFault),
    /// Nothing is recorded in a folder in which one of the two files is there. A second line says what it lacks.
    #[error("NothingRecorded\nfitrec: {0}")]
    NothingSaved(Lack),
    /// The bytes that the last commit of a recording counts have changed. A second line says what can be done.
    #[error("Damaged\nfitrec: bytes of the recording have changed since they were committed; salvage copies what is readable of activity.fit, and save --earlier what the commit before counts")]
    Changed,
    /// The data file of a recording could not be read from this byte on, and the journal counts bytes after it. A second line says what
    /// can be done.
    #[error("cannot read activity.fit\nfitrec: activity.fit could not be read from byte {0} on, and the journal counts bytes after that; repair the file system, such as by fsck.vfat -a, or let salvage copy what is readable of activity.fit")]
    BodyNotRead(usize),
    /// No file is chained in the file of this name, or stands in it.
    #[error("no FIT file in {}", ShownWord(.0))]
    NoFile(&'a str),
    /// More files are chained in a file than are written: their number.
    #[error("TooManyFiles({0})")]
    TooManyFiles(usize),
    /// So much of the image of a card looks like the beginning of a file that it would take too long to read it all.
    #[error("TooManyHeaders")]
    TooManyHeaders,
    /// The number of replies to a script that were not ok.
    #[error("{0} refused")]
    Refused(usize),
}

impl From<AllocError> for Fault<'_> {
    ghost from_gives = { λ _ fault. fault ≡ NoMemory };

    fn from(_: AllocError) -> Self {
        Fault::NoMemory
    }
}

/// The fault if so many were refused, unless none was.
pub(crate) fn none_refused(refused: usize) -> Result<(), Fault<'static>>
    ensures none { OnOk result (refused ≡ 0) }
    ensures number { IfErr result (λ fault. (fault ≡ Refused refused) × (0 < refused)) }
{
    if refused == 0 {
        Ok(())
    } else {
        Err(Fault::Refused(refused))
    }
}

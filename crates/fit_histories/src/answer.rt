// The answer of a ride over the memory disk to an event.

ghost use Rattle.std.specs.Prelude.{◌≡◌};

use crate::reply::Reply;
use fit_activity::Summary;
use fit_recorder::RecFault;

/// The answer to an event, with the file if one was finished.
#[derive(Debug, Drop, PartialEq, Eq)]
pub enum Answer {
    /// The command was done.
    Done,
    /// The recording ended with its stop. `file` is the finished file.
    Stopped { file: Vec<u8> },
    /// The recording was recovered. `file` is the finished file, and `summary` is its summary.
    Recovered { summary: Summary, file: Vec<u8> },
    /// The command was refused, or the device failed.
    Refused(RecFault),
    /// The command needs a recorder, and none runs.
    NoRecorder,
}

impl Answer {
    ghost use Rattle.fit_histories.specs.Histories.Runs.{outcome_in};
    ghost use Rattle.fit_histories.specs.Rides.Standing.{reply_in};

    /// The answer without its file.
    pub fn reply(&self) -> Reply
        ensures { result ≡ reply_in (outcome_in self.now) }
    {
        match self {
            Answer::Done => Reply::Done,
            Answer::Stopped { .. } => Reply::Stopped,
            Answer::Recovered { summary, .. } => Reply::Recovered(*summary),
            Answer::Refused(fault) => Reply::Refused(*fault),
            Answer::NoRecorder => Reply::NoRecorder,
        }
    }
}

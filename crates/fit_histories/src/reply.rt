// The reply of a ride to a command.

ghost use Rattle.std.specs.Prelude.{◌≡◌};

use fit_activity::Summary;
use fit_recorder::RecFault;

/// The reply to a command.
#[derive(Clone, Copy, Debug, PartialEq, Eq)]
pub enum Reply {
    /// The command was done.
    Done,
    /// The recording ended with its stop, and its file is finished.
    Stopped,
    /// The recording was recovered, and this is the summary of its file.
    Recovered(Summary),
    /// The command was refused, or the device failed.
    Refused(RecFault),
    /// The command needs a recorder, and none runs.
    NoRecorder,
}

impl Reply {
    ghost use Rattle.fit_histories.specs.Rides.Replies.{is_ok};

    /// Whether the command was done.
    pub fn is_ok(&self) -> bool
        ensures { result ≡ is_ok self.now }
    {
        match self {
            Reply::Done | Reply::Stopped | Reply::Recovered(_) => true,
            Reply::Refused(_) | Reply::NoRecorder => false,
        }
    }
}

impl From<Result<(), RecFault>> for Reply {
    ghost use Rattle.fit_histories.specs.Rides.Replies.{reply_of};

    ghost from_gives = { λ done reply. reply ≡ reply_of done };

    fn from(done: Result<(), RecFault>) -> Reply {
        match done {
            Ok(()) => Reply::Done,
            Err(fault) => Reply::Refused(fault),
        }
    }
}

impl From<Result<Summary, RecFault>> for Reply {
    ghost use Rattle.fit_histories.specs.Rides.Replies.{recovered_of};

    ghost from_gives = { λ done reply. reply ≡ recovered_of done };

    fn from(done: Result<Summary, RecFault>) -> Reply {
        match done {
            Ok(summary) => Reply::Recovered(summary),
            Err(fault) => Reply::Refused(fault),
        }
    }
}

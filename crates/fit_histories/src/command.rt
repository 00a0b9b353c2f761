// The commands to a recording.

ghost use Rattle.std.specs.Prelude.{◌≡◌};
ghost use Rattle.fit_histories.specs.Commands.{is_simulated, word_of};

use fit_activity::{Entry, Start};

/// A command to a recording. One line of a script states one command.
#[derive(Clone, Copy, Debug, PartialEq, Eq)]
pub enum Command {
    /// Begins a recording.
    Start(Start),
    /// Hands in an entry, or stops the recording.
    Entry(Entry),
    /// Commits what was handed in.
    Commit,
    /// Ends the recorder without a stop.
    Restart,
    /// Recovers the recording.
    Recover,
    /// Continues the ride after what is recorded of it.
    Reopen,
    /// Erases the recording.
    Erase,
    /// Makes the device call with this number fail, counted from this command on, from 1.
    Fail(u32),
    /// Cuts the power at the device call with this number, counted from this command on, from 1.
    Cut(u32),
    /// Ends the recorder, cuts the power, and brings it back.
    Power,
}

impl Command {
    /// Whether it needs a disk whose failures are arranged: `Fail`, `Cut` and `Power`.
    pub fn is_simulated(&self) -> bool
        ensures { result ≡ is_simulated self.now }
    {
        matches!(self, Command::Fail(_) | Command::Cut(_) | Command::Power)
    }

    /// Its word in a script.
    pub fn word(&self) -> &'static str
        ensures { result.now ≡ word_of self.now }
    {
        match self {
            Command::Start(_) => "start",
            Command::Entry(Entry::Sample(_)) => "sample",
            Command::Entry(Entry::Lap(_)) => "lap",
            Command::Entry(Entry::Pause(_)) => "pause",
            Command::Entry(Entry::Resume(_)) => "resume",
            Command::Entry(Entry::Stop(_)) => "stop",
            Command::Commit => "commit",
            Command::Restart => "restart",
            Command::Recover => "recover",
            Command::Reopen => "reopen",
            Command::Erase => "erase",
            Command::Fail(_) => "fail",
            Command::Cut(_) => "cut",
            Command::Power => "power",
        }
    }
}

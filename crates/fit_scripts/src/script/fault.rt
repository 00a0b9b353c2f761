// Faults of scripts.

ghost use Rattle.std.specs.Prelude.{◌≡◌, Some};
ghost use Rattle.fit_scripts.specs.Scripts.FaultName.{script_fault_name};

use std::error::Error;
use std::fmt::{self, Formatter, Write};

/// What is wrong with a line of a script. Its words are judged from left to right, and the first fault is reported.
#[derive(Clone, Copy, Debug, PartialEq, Eq)]
pub enum ScriptFaultKind {
    /// A word is not a command, or not a sport.
    UnknownWord,
    /// The line ends before a word that it needs.
    MissingWord,
    /// A word follows the last one that belongs there.
    ExtraWord,
    /// A word or a value is not a number, or is out of range.
    BadNumber,
    /// A word does not begin with a key and `=`.
    UnknownKey,
    /// A key appears twice.
    RepeatedKey,
    /// Memory was refused.
    Memory,
}

impl ScriptFaultKind {
    ghost use Rattle.fit_scripts.specs.Scripts.FaultCode.{script_code};

    /// The number of the kind, 1 to 7.
    pub fn code(&self) -> u8
        ensures { result ≡ script_code self.now }
    {
        match self {
            ScriptFaultKind::UnknownWord => 1,
            ScriptFaultKind::MissingWord => 2,
            ScriptFaultKind::ExtraWord => 3,
            ScriptFaultKind::BadNumber => 4,
            ScriptFaultKind::UnknownKey => 5,
            ScriptFaultKind::RepeatedKey => 6,
            ScriptFaultKind::Memory => 7,
        }
    }
}

// Its name.
impl fmt::Display for ScriptFaultKind {
    ghost output = { λ kind. Some (script_fault_name kind) };

    fn fmt<W: Write>(&self, f: &mut Formatter<W>) -> fmt::Result {
        f.write_str(match self {
            ScriptFaultKind::UnknownWord => "UnknownWord",
            ScriptFaultKind::MissingWord => "MissingWord",
            ScriptFaultKind::ExtraWord => "ExtraWord",
            ScriptFaultKind::BadNumber => "BadNumber",
            ScriptFaultKind::UnknownKey => "UnknownKey",
            ScriptFaultKind::RepeatedKey => "RepeatedKey",
            ScriptFaultKind::Memory => "Memory",
        })
    }
}

impl Error for ScriptFaultKind {}

/// Why a text is not a script: what is wrong, and the number of the line, counted from 1. The number is 1 if there is no memory
/// for the list of lines.
#[derive(Clone, Copy, Debug, PartialEq, Eq)]
pub struct ScriptFault {
    pub kind: ScriptFaultKind,
    pub line: usize,
}

/// Why bytes are not a script that can be replayed.
#[derive(Clone, Copy, Debug, PartialEq, Eq)]
pub enum ReplayFault {
    /// They are not UTF-8.
    NoText,
    /// A line is not one of a script, or memory was refused.
    Script(ScriptFault),
    /// Only `simulate` runs the event of this line.
    OnlySimulate(usize),
}

impl ReplayFault {
    ghost use Rattle.fit_scripts.specs.Scripts.FaultCode.{replay_code};

    /// The number of the fault, 1 to 3. The first one that holds is reported.
    pub fn code(&self) -> u8
        ensures { result ≡ replay_code self.now }
    {
        match self {
            ReplayFault::NoText => 1,
            ReplayFault::Script(_) => 2,
            ReplayFault::OnlySimulate(_) => 3,
        }
    }
}

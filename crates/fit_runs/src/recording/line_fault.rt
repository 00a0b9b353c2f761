// What is wrong with a line that cannot be done.

use fit_scripts::ScriptFaultKind;
use std::fmt::{self, Formatter, Write};

/// What is wrong with a line that cannot be done.
#[derive(Clone, Copy, Debug, PartialEq, Eq)]
pub enum LineFault {
    /// It is not a line of a script, or memory was refused.
    Script(ScriptFaultKind),
    /// Only `simulate` runs its command.
    OnlySimulate,
    /// It has more than 4,096 bytes.
    TooLong,
}

/// A line that cannot be done, printed as its number, the word `line` and its fault.
#[derive(Drop)]
pub struct FaultyLine {
    pub line: usize,
    pub fault: LineFault,
}

impl fmt::Display for FaultyLine {
    ghost use Rattle.std.specs.Prelude.{Some};
    ghost use Rattle.fit_runs.specs.Printed.FaultyLines.{faulty_text};

    ghost output = { λ line. Some (faulty_text line.line line.fault) };

    fn fmt<W: Write>(&self, f: &mut Formatter<W>) -> fmt::Result {
        write!(f, "{} line: {}", self.line, self.fault)
    }
}

impl fmt::Display for LineFault {
    ghost use Rattle.std.specs.Prelude.{Some};
    ghost use Rattle.fit_runs.specs.Printed.FaultyLines.{fault_text};

    ghost output = { λ fault. Some (fault_text fault) };

    fn fmt<W: Write>(&self, f: &mut Formatter<W>) -> fmt::Result {
        match self {
            LineFault::Script(kind) => write!(f, "{kind}"),
            LineFault::OnlySimulate => f.write_str("OnlySimulate"),
            LineFault::TooLong => f.write_str("TooLong"),
        }
    }
}

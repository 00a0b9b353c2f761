// Faults of reading, checking, printing and making files plain.

ghost use Rattle.std.specs.Prelude.{◌≡◌};

use crate::reading::ReadFault;
use fit_activity::ActivityFault;
use fit_grammar::{FileFault, PlainFault};

/// Why a file was not read, checked, printed or made plain.
#[derive(Clone, Copy, Debug, PartialEq, Eq)]
pub enum ReportFault {
    /// The bytes are not a FIT file that this library reads, or memory was refused.
    File(FileFault),
    /// The file is not an activity.
    Activity(ActivityFault),
    /// The output failed. A prefix of the text may be written.
    Output,
    /// The input was not read to its end.
    Input(ReadFault),
    /// The plain form would be too long, or memory was refused.
    Plain(PlainFault),
}

impl ReportFault {
    ghost use Rattle.fit_files.specs.Calls.FaultCode.{fault_number};

    /// The number of the fault, 1 to 5.
    pub fn code(&self) -> u8
        ensures { result ≡ fault_number self.now }
    {
        match self {
            ReportFault::File(_) => 1,
            ReportFault::Activity(_) => 2,
            ReportFault::Output => 3,
            ReportFault::Input(_) => 4,
            ReportFault::Plain(_) => 5,
        }
    }
}

// Why a call of a recorder was refused.

ghost use Rattle.std.specs.Prelude.{◌≡◌, Some};
ghost use Rattle.fit_recorder.specs.Calls.FaultName.{fault_name};
ghost use Rattle.fit_recorder.specs.declared.fault.RecFault.TheVariants as faults;

use fit_activity::Refusal;
use fit_disk::DeviceError;
use std::error::Error;
use std::fmt::{self, Formatter, Write};

/// Why a call was refused. A recorder checks for `Failed` first, then `Refused`, then `Full` or `JournalFull`, before it makes
/// a device call.
#[derive(Clone, Copy, Debug, PartialEq, Eq)]
pub enum RecFault {
    /// A start on a data file that is not empty. Both files read as before.
    NotEmpty,
    /// The rules refuse the start or the entry. Nothing changed.
    Refused(Refusal),
    /// There is no room for one more entry: the records might pass 16,776,704 bytes. Nothing changed. A commit and a stop are
    /// still possible.
    Full,
    /// The journal is a row with too few free slots: one or none for a commit, since the last is kept for the stop; none for
    /// a resume. Nothing changed.
    JournalFull,
    /// The device failed in this call. The recording can continue only by a recovery or a resume.
    Device,
    /// The device failed in an earlier call of this recorder.
    Failed,
    /// No start is committed.
    NothingRecorded,
    /// The files stand neither for a recording nor for nothing recorded.
    Damaged,
}

impl RecFault {
    ghost use Rattle.fit_recorder.specs.Calls.FaultCode.{fault_code};

    /// Its number, 1 to 8.
    pub fn code(&self) -> u8
        ensures { result ≡ fault_code self.now }
    {
        match self {
            RecFault::NotEmpty => 1,
            RecFault::Refused(_) => 2,
            RecFault::Full => 3,
            RecFault::JournalFull => 4,
            RecFault::Device => 5,
            RecFault::Failed => 6,
            RecFault::NothingRecorded => 7,
            RecFault::Damaged => 8,
        }
    }
}

// Its name.
impl fmt::Display for RecFault {
    ghost output = { λ fault. Some (fault_name fault) };

    fn fmt<W: Write>(&self, f: &mut Formatter<W>) -> fmt::Result {
        match self {
            RecFault::NotEmpty => f.write_str("NotEmpty"),
            RecFault::Refused(refusal) => write!(f, "Refused({refusal})"),
            RecFault::Full => f.write_str("Full"),
            RecFault::JournalFull => f.write_str("JournalFull"),
            RecFault::Device => f.write_str("Device"),
            RecFault::Failed => f.write_str("Failed"),
            RecFault::NothingRecorded => f.write_str("NothingRecorded"),
            RecFault::Damaged => f.write_str("Damaged"),
        }
    }
}

impl Error for RecFault {}

impl From<DeviceError> for RecFault {
    ghost from_gives = { λ _ fault. fault ≡ faults.Device };

    fn from(_: DeviceError) -> Self {
        RecFault::Device
    }
}

// Whether a file is an activity, and what its first session states.

ghost use Rattle.std.specs.Prelude.{◌≡◌, Some};

use fit_grammar::File;
use std::error::Error;
use std::fmt::{self, Formatter, Write};

pub(crate) mod checking;
pub(crate) mod seen;

/// The summary of an activity file.
#[derive(Clone, Copy, Debug, PartialEq, Eq)]
pub struct Summary {
    /// The number of record messages.
    pub records: u32,
    /// The number of lap messages.
    pub laps: u32,
    /// The number of session messages.
    pub sessions: u32,
    /// The start time of the first session, in seconds since 1989-12-31T00:00:00Z. This and the next three
    /// are `None` if the session has no such field, or if its first one is invalid or is not one uint32.
    pub start: Option<u32>,
    /// Its total elapsed time, in ms.
    pub elapsed_ms: Option<u32>,
    /// Its total timer time, in ms.
    pub timer_ms: Option<u32>,
    /// Its total distance, in cm.
    pub distance_cm: Option<u32>,
}

/// Why a file is not an activity. If several apply, the first in this order is returned.
#[derive(Clone, Copy, Debug, PartialEq, Eq)]
pub enum ActivityFault {
    /// The first message is not a file_id.
    NoFileId,
    /// The first field `type` of the file_id is not the enum value 4, activity.
    NotActivity,
    /// There is no lap.
    NoLap,
    /// There is no session.
    NoSession,
    /// There is no activity message.
    NoActivity,
}

impl ActivityFault {
    ghost use Rattle.fit_activity.specs.Files.Activity.{activity_fault_code};

    /// The number of the fault, 1 to 5.
    pub fn code(&self) -> u8
        ensures { result ≡ activity_fault_code self.now }
    {
        match self {
            ActivityFault::NoFileId => 1,
            ActivityFault::NotActivity => 2,
            ActivityFault::NoLap => 3,
            ActivityFault::NoSession => 4,
            ActivityFault::NoActivity => 5,
        }
    }
}

// Its name.
impl fmt::Display for ActivityFault {
    ghost use Rattle.fit_activity.specs.Files.FaultName.{activity_fault_name};

    ghost output = { λ fault. Some (activity_fault_name fault) };

    fn fmt<W: Write>(&self, f: &mut Formatter<W>) -> fmt::Result {
        f.write_str(match self {
            ActivityFault::NoFileId => "NoFileId",
            ActivityFault::NotActivity => "NotActivity",
            ActivityFault::NoLap => "NoLap",
            ActivityFault::NoSession => "NoSession",
            ActivityFault::NoActivity => "NoActivity",
        })
    }
}

impl Error for ActivityFault {}

// Repairs a recording, and prints its summary.

ghost use Rattle.std.specs.Io.KnownBytes.{Appends};
ghost use Rattle.std.specs.Prelude.{◌≡◌, ◌⊎◌, ◌+◌, ◌++◌, codes, Err, IsTrue, IfOk, IfErr, OnOk, IsErr, IsErrOf};
ghost use Rattle.fit_activity.specs.declared.activity.Summary.{Summary as AnySummary};
ghost use Rattle.fit_disk.specs.Runs.{MakesAtMost};
ghost use Rattle.fit_disk.specs.State.{seen_in};
ghost use Rattle.fit_disk.specs.Story.{seen_of};
ghost use Rattle.fit_disk.specs.declared.disk.Which.TheVariants.{Data};
ghost use Rattle.fit_journal.specs.Moments.{journal_in};
ghost use Rattle.fit_recorder.specs.Calls.Recovery.{InRecovery, IsRecovered, IsRecoveryFault, RecoveryAnswers};
ghost use Rattle.fit_recorder.specs.Calls.Counts.{recovery_calls, most_body_reads};
ghost use Rattle.fit_recorder.specs.Files.Committed.{HasCounted};
ghost use Rattle.fit_recorder.specs.Files.Settled.{IsSettled};
ghost use Rattle.fit_recorder.specs.declared.fault.RecFault.TheVariants as recording;
ghost use Rattle.fit_recorder.specs.declared.fault.RecFault.{RecFault as AnyRecFault};
ghost use Rattle.fit_recordings.specs.Rereading.{AreSumsOf, FailsOnlyIf, IsSumOf};
ghost use Rattle.fit_recordings.specs.Repaired.{Repairs, ReportsRecovered, IsRepairFault};
ghost use Rattle.fit_files.specs.Printed.Summary.{summary_text};
ghost use Rattle.fit_recordings.specs.declared.repairing.RepairFault.TheVariants as faults;

use fit_activity::Summary;
use fit_base::Crc;
use fit_disk::{DeviceError, Disk, Which};
use fit_files::print_summary;
use fit_recorder::{RecFault, recover};
use std::io::Write;

// The number of bytes of one read.
const WINDOW: usize = 4096;

/// Why a recording was not repaired, or its summary not printed.
#[derive(Clone, Copy, Debug, PartialEq, Eq)]
pub enum RepairFault {
    /// The recording was not recovered.
    Recorder(RecFault),
    /// The recording was recovered, and then the output failed.
    Output,
}

impl RepairFault {
    ghost use Rattle.fit_recordings.specs.Repaired.{repair_code};

    /// The number of the fault, 1 or 2.
    pub fn code(&self) -> u8
        ensures { result ≡ repair_code self.now }
    {
        match self {
            RepairFault::Recorder(_) => 1,
            RepairFault::Output => 2,
        }
    }
}

/// The checksums of both files, each over all its bytes as they were read after the last sync.
#[derive(Clone, Copy, Debug, PartialEq, Eq)]
pub struct FileSums {
    pub in_data: u16,
    pub in_journal: u16,
}

/// Recovers the recording of a disk, and prints its summary. If it was not recovered, nothing is printed.
pub fn repair<D: Disk, O: Write>(disk: &mut D, out: &mut O) -> Result<(), RepairFault>
    ensures repaired { IsTrue D.honest
        → Repairs (seen_in (D.story disk.old).now) (D.story disk.new) (O.contents out.old)
        (O.contents out.new) result }
    // Whatever bytes the files had: the body has the checksum that the journal states, if it states one.
    ensures checked { IsTrue D.honest
        → OnOk result (HasCounted (journal_in (D.story disk.old))
        (seen_of Data (D.story disk.new))) }
    ensures fault { IfErr result IsRepairFault }
    // At each moment, and if it was not recovered, the files are as a recovery leaves them.
    ensures any_moment { IsTrue D.honest → InRecovery (D.story disk.old) (D.story disk.new) }
    ensures settled { IsTrue D.honest → (why : AnyRecFault) → result ≡ Err (faults.Recorder why)
        → (why ≡ recording.Device) ⊎ IsSettled (seen_in (D.story disk.old).now) (D.story disk.new) }
    // Over any disk.
    ensures outcome { OnOk result ((summary : AnySummary)
        × Appends (O.contents out.old) (O.contents out.new) (summary_text summary ++ codes "\n")) }
    ensures quiet { (why : AnyRecFault) → result ≡ Err (faults.Recorder why)
        → O.contents out.new ≡ O.contents out.old }
    ensures ran { MakesAtMost (recovery_calls + most_body_reads) most_body_reads
        (IsErrOf result (faults.Recorder recording.Device)) (D.log disk.old) (D.log disk.new) }
{
    report(recover(disk), out)
}

/// The same, but both files are read again from start to end before anything is printed, and the checksums of what was read are
/// returned. A read that fails is `Device`.
pub fn repair_and_read<D: Disk, O: Write>(
    disk: &mut D,
    out: &mut O,
) -> Result<FileSums, RepairFault>
    ensures repaired { IsTrue D.honest
        → Repairs (seen_in (D.story disk.old).now) (D.story disk.new) (O.contents out.old)
        (O.contents out.new) result }
    // Whatever bytes the files had: the body has the checksum that the journal states, if it states one.
    ensures checked { IsTrue D.honest
        → OnOk result (HasCounted (journal_in (D.story disk.old))
        (seen_of Data (D.story disk.new))) }
    ensures read { IsTrue D.honest → IfOk result (AreSumsOf (seen_in (D.story disk.new).now)) }
    ensures fault { IfErr result IsRepairFault }
    // At each moment, and if it was not recovered, the files are as a recovery leaves them.
    ensures any_moment { IsTrue D.honest → InRecovery (D.story disk.old) (D.story disk.new) }
    ensures settled { IsTrue D.honest → (why : AnyRecFault) → result ≡ Err (faults.Recorder why)
        → (why ≡ recording.Device) ⊎ IsSettled (seen_in (D.story disk.old).now) (D.story disk.new) }
    // Over any disk.
    ensures outcome { OnOk result ((summary : AnySummary)
        × Appends (O.contents out.old) (O.contents out.new) (summary_text summary ++ codes "\n")) }
    ensures quiet { (why : AnyRecFault) → result ≡ Err (faults.Recorder why)
        → O.contents out.new ≡ O.contents out.old }
    ensures failed { FailsOnlyIf (IsErrOf result (faults.Recorder recording.Device))
        (D.log disk.old).counts (D.log disk.new).counts }
{
    match recover_and_read(disk) {
        Ok((summary, sums)) => match print_summary(summary, out) {
            Ok(()) => Ok(sums),
            Err(_) => Err(RepairFault::Output),
        },
        Err(fault) => Err(RepairFault::Recorder(fault)),
    }
}

// Recovers the recording of a disk, and reads both files again.
fn recover_and_read<D: Disk>(disk: &mut D) -> Result<(Summary, FileSums), RecFault>
    ensures recovered { IsTrue D.honest → IfOk result
        (λ done. IsRecovered (seen_in (D.story disk.old).now) (D.story disk.new) done.0) }
    ensures checked { IsTrue D.honest
        → OnOk result (HasCounted (journal_in (D.story disk.old))
        (seen_of Data (D.story disk.new))) }
    ensures read { IsTrue D.honest
        → IfOk result (λ done. AreSumsOf (seen_in (D.story disk.new).now) done.1) }
    ensures any_moment { IsTrue D.honest → InRecovery (D.story disk.old) (D.story disk.new) }
    ensures refused { IsTrue D.honest → IfErr result
        (λ fault. RecoveryAnswers (seen_in (D.story disk.old).now) (D.story disk.new) (Err fault)) }
    ensures settled { IsTrue D.honest → IfErr result (λ fault. (fault ≡ recording.Device)
        ⊎ IsSettled (seen_in (D.story disk.old).now) (D.story disk.new)) }
    ensures fault { IfErr result IsRecoveryFault }
    ensures failed { FailsOnlyIf (IsErrOf result recording.Device)
        (D.log disk.old).counts (D.log disk.new).counts }
{
    let summary = recover(disk)?;
    let sums = FileSums {
        in_data: read_through(disk, Which::Data)?,
        in_journal: read_through(disk, Which::Journal)?,
    };
    Ok((summary, sums))
}

// Reads a file from start to end, and returns the checksum of its bytes.
fn read_through<D: Disk>(disk: &mut D, which: Which) -> Result<u16, DeviceError>
    ensures same { IsTrue D.honest → D.story disk.new ≡ D.story disk.old }
    ensures sum { IsTrue D.honest → IfOk result (IsSumOf (seen_of which (D.story disk.old))) }
    ensures failed { FailsOnlyIf (IsErr result) (D.log disk.old).counts (D.log disk.new).counts }
{
    let mut buffer = [0; WINDOW];
    let mut checksum = Crc::new();
    let mut at = 0;
    for _ in 0..u64::MAX {
        let count = disk.read(which, at, &mut buffer)?;
        checksum.add(&buffer[..count]);
        if count < WINDOW {
            return Ok(checksum.value());
        }
        at = at.saturating_add(WINDOW as u64);
    }
    Ok(checksum.value())
}

// Prints the summary of a recovery, if that went well.
fn report<O: Write>(recovered: Result<Summary, RecFault>, out: &mut O) -> Result<(), RepairFault>
    ensures { ReportsRecovered recovered (O.contents out.old) (O.contents out.new) result }
{
    match recovered {
        Ok(summary) => match print_summary(summary, out) {
            Ok(()) => Ok(()),
            Err(_) => Err(RepairFault::Output),
        },
        Err(fault) => Err(RepairFault::Recorder(fault)),
    }
}

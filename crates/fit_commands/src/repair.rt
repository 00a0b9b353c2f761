// The subcommand `repair`: finishes the recording of a folder.

ghost use Rattle.std.specs.Prelude.{◌≡◌, IsTrue, IfErr, IfOk, OnOk, None};
ghost use Rattle.fit_disk.specs.Shadow.{shadow_story};
ghost use Rattle.fit_disk.specs.State.{seen_in};
ghost use Rattle.fit_disk.specs.Story.{seen_of};
ghost use Rattle.fit_disk.specs.declared.disk.Which.TheVariants.{Data, Journal};
ghost use Rattle.fit_recorder.specs.Files.Committed.{HasCounted};
ghost use Rattle.fit_recordings.specs.Rereading.{AreSumsOf};
ghost use Rattle.fit_recordings.specs.Repaired.{Repairs, IsRepairFault};
ghost use Rattle.fit_commands.specs.Faults.{AnswersRepair, IsFolderFault, IsOpenReported};
ghost use Rattle.fit_commands.specs.Reported.{ReadsBoth, ReportsRepair, PrintsSummary, PrintsNothing, VerifiesFolder};

use crate::fault::Fault;
use crate::folder::{fault_of_open, open_recorded};
use crate::input::read_input;
use fit_disk::{DATA_NAME, JOURNAL_NAME, Shadow, Trusting, Witness, open_to_read};
use fit_recorder::RecFault;
use fit_recordings::{FileSums, RepairFault, repair, repair_and_read};
use std::io::{Read, Write};

/// Recovers the recording of this folder, and prints its summary. If a file is missing, none is created, and the fault is
/// `NothingRecorded`.
pub fn repair_folder<'a, O: Write>(
    rt: &HostRuntime,
    name: &'a str,
    out: &mut O,
) -> Result<(), Fault<'a>>
    ensures reported { IfErr result (IsFolderFault name.entry) }
    ensures repaired { OnOk result (PrintsSummary (O.contents out.old) (O.contents out.new)) }
    ensures quiet { IfErr result (PrintsNothing (O.contents out.old) (O.contents out.new)) }
{
    let (_, repaired) = repair_files(rt, name, Trusting, out)?;
    stated_of(repaired)
}

/// Repairs the recording under any witness, and returns the witness. Under an honest witness the files are those of its story, before
/// and after.
pub fn repair_files<'a, W: Witness, O: Write>(
    rt: &HostRuntime,
    name: &'a str,
    witness: W,
    out: &mut O,
) -> Result<(W, Result<(), RepairFault>), Fault<'a>>
    ensures repaired { IsTrue W.honest → IfOk result (λ done.
        Repairs (seen_in (W.story witness).now) (W.story done.0)
        (O.contents out.old) (O.contents out.new) done.1) }
    ensures checked { IsTrue W.honest → IfOk result (λ done. OnOk done.1
        (HasCounted (seen_of Journal (W.story witness)) (seen_of Data (W.story done.0)))) }
    ensures fault { IfOk result (λ done. IfErr done.1 IsRepairFault) }
    ensures printed { IfOk result
        (λ done. ReportsRepair (O.contents out.old) (O.contents out.new) done.1) }
    ensures reported { IfErr result (IsOpenReported name.entry) }
    ensures quiet { IfErr result (λ _. O.contents out.new ≡ O.contents out.old) }
{
    let mut files = open_recorded(rt, name, witness)?;
    let repaired = repair(&mut files, out);
    Ok((files.into_witness(), repaired))
}

/// The same as `repair_folder`, but both files are read first. Each later answer of the system has to agree with what they held and with
/// what was written since. The first one that does not is a failed call. Both files are read once more before anything is printed.
/// Returns the checksums of what was read then.
pub fn verify_folder<'a, O: Write>(
    rt: &HostRuntime,
    name: &'a str,
    out: &mut O,
) -> Result<FileSums, Fault<'a>>
    ensures { VerifiesFolder name.entry (ReadsBoth None None) (O.contents out.old)
        (O.contents out.new) result }
{
    let opened = open_to_read(rt, name).map_err(|fault| fault_of_open(name, fault))?;
    let (Some(data_file), Some(journal_file)) = opened else {
        return Err(Fault::Recorder(RecFault::NothingRecorded));
    };
    verify_read(rt, name, data_file, journal_file, out)
}

/// The same for a folder whose two files are read from these inputs.
pub fn verify_read<'a, D: Read + Drop, J: Read + Drop, O: Write>(
    rt: &HostRuntime,
    name: &'a str,
    mut data_file: D,
    mut journal_file: J,
    out: &mut O,
) -> Result<FileSums, Fault<'a>>
    ensures { VerifiesFolder name.entry
        (ReadsBoth (D.remaining data_file) (J.remaining journal_file))
        (O.contents out.old) (O.contents out.new) result }
{
    let in_data = read_input(rt.alloc(), DATA_NAME, &mut data_file)?;
    let in_journal = read_input(rt.alloc(), JOURNAL_NAME, &mut journal_file)?;
    // While they are open, they cannot be opened to be written.
    drop(data_file);
    drop(journal_file);
    let (_, repaired) = repair_holding(rt, name, in_data.as_slice(), in_journal.as_slice(), out)?;
    stated_of(repaired)
}

/// The same if the two files have to hold these bytes. The returned shadow has the story of both files.
pub fn repair_holding<'a, O: Write>(
    rt: &HostRuntime,
    name: &'a str,
    in_data: &[u8],
    in_journal: &[u8],
    out: &mut O,
) -> Result<(Shadow, Result<FileSums, RepairFault>), Fault<'a>>
    ensures repaired { IfOk result (λ done.
        Repairs (record {
          in_data =
              in_data.now;
          in_journal = in_journal.now;
        }) (shadow_story done.0)
        (O.contents out.old) (O.contents out.new) done.1) }
    // The body has the checksum that the journal states, if it states one.
    ensures checked { IfOk result (λ done. OnOk done.1
        (HasCounted in_journal.now (seen_of Data (shadow_story done.0)))) }
    ensures read { IfOk result
        (λ done. IfOk done.1 (AreSumsOf (seen_in (shadow_story done.0).now))) }
    ensures reported { IfErr result (IsOpenReported name.entry) }
    ensures quiet { IfErr result (λ _. O.contents out.new ≡ O.contents out.old) }
{
    let shadow = Shadow::holding(rt.alloc(), in_data, in_journal)?;
    let mut files = open_recorded(rt, name, shadow)?;
    let repaired = repair_and_read(&mut files, out);
    Ok((files.into_witness(), repaired))
}

// The program's result of a repair.
fn stated_of<T: Drop>(repaired: Result<T, RepairFault>) -> Result<T, Fault<'static>>
    ensures { AnswersRepair repaired result }
{
    match repaired {
        Ok(found) => Ok(found),
        Err(RepairFault::Recorder(fault)) => Err(Fault::Recorder(fault)),
        Err(RepairFault::Output) => Err(Fault::Write("-")),
    }
}

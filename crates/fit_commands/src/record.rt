// The subcommand `record`: records into the files of a folder what the lines of an input state.

ghost use Rattle.std.specs.Prelude.{◌≡◌, ℕ, Err, IfOk, IfErr, OnOk};
ghost use Rattle.fit_disk.specs.declared.files.OpenFault.{OpenFault as WhyNotOpen};
ghost use Rattle.fit_runs.specs.Rides.InTurn.{RecordsInTurn};
ghost use Rattle.fit_runs.specs.Rides.Turns.{RecordsBytes};
ghost use Rattle.fit_commands.specs.declared.fault.Fault.TheVariants.{Refused};
ghost use Rattle.fit_commands.specs.Faults.{fault_of_open};
ghost use Rattle.fit_commands.specs.Scripts.Faults.{IsRecordReported};
ghost use Rattle.fit_commands.specs.Scripts.Reported.{RecordsLines};

use crate::fault::Fault;
use crate::folder::open_folder;
use crate::input::fault_of_report;
use fit_disk::{Trusting, Witness};
use fit_files::ReportFault;
use fit_runs::{Dialogue, Streams, record};
use std::io::Write;

/// Does the lines of standard input over the files of a folder, each as it comes, and prints the answers. If answers were not ok, the fault
/// is `Refused` with their number. A folder without a name is not opened.
pub fn record_folder<'a, O: Write>(
    rt: &HostRuntime,
    folder: &'a str,
    every: Option<u32>,
    out: &mut O,
) -> Result<(), Fault<'a>>
    ensures reported { IfErr result (IsRecordReported folder.entry) }
    ensures done { OnOk result (RecordsLines every (O.contents out.old) (O.contents out.new) 0) }
    ensures refused { (count : ℕ) → result ≡ Err (Refused count)
        → RecordsLines every (O.contents out.old) (O.contents out.new) count }
{
    if folder.is_empty() {
        return Err(Fault::Open(folder));
    }
    let mut streams = Streams::new(rt.stdin(), out);
    let (_, recorded) = record_files(rt, folder, Trusting, every, &mut streams)?;
    let _ = streams.into_writer();
    match recorded {
        Ok(0) => Ok(()),
        Ok(refused) => Err(Fault::Refused(refused)),
        Err(fault) => Err(fault_of_report("-", fault)),
    }
}

/// Does the lines of a dialogue over the files of this folder under any witness. Returns the witness, and the number of answers that were
/// not ok. Under an honest witness the files are those of its story, before and after.
pub fn record_files<'a, W: Witness, P: Dialogue>(
    rt: &HostRuntime,
    folder: &'a str,
    witness: W,
    every: Option<u32>,
    dialogue: &mut P,
) -> Result<(W, Result<usize, ReportFault>), Fault<'a>>
    ensures recorded { IfOk result (λ done.
        RecordsBytes W.honest (W.story witness) (W.story done.0) every
        (P.sides dialogue.old).left (P.sides dialogue.new).left (P.sides dialogue.old).held
        (P.sides dialogue.new).held done.1) }
    ensures in_turn { IfOk result (λ done.
        RecordsInTurn W.honest (W.story witness) (W.story done.0) every (P.story dialogue.old)
        (P.story dialogue.new) done.1) }
    ensures name { (P.sides dialogue.new).name ≡ (P.sides dialogue.old).name }
    ensures reported { IfErr result
        (λ reported. (why : WhyNotOpen) × (reported ≡ fault_of_open folder.entry why)) }
    ensures quiet { IfErr result (λ _. P.sides dialogue.new ≡ P.sides dialogue.old) }
    ensures silent { IfErr result (λ _. P.story dialogue.new ≡ P.story dialogue.old) }
{
    let files = open_folder(rt, folder, witness)?;
    let (files, recorded) = record(rt.alloc(), files, every, dialogue);
    Ok((files.into_witness(), recorded))
}

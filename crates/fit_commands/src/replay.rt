// The subcommand `replay`: runs the events of a script over the files of a folder.

ghost use Rattle.std.specs.Prelude.{◌≡◌, ℕ, All, Err, IfOk, IfErr, OnOk};
ghost use Rattle.fit_disk.specs.declared.files.OpenFault.{OpenFault as WhyNotOpen};
ghost use Rattle.fit_runs.specs.Printed.ReplyLines.{AreReported};
ghost use Rattle.fit_files.specs.Printed.Shown.{IsOutputFault};
ghost use Rattle.fit_runs.specs.Rides.Played.{LeavesAfter, BreaksOff};
ghost use Rattle.fit_scripts.specs.Scripts.Replayed.{IsReplayed};
ghost use Rattle.fit_commands.specs.declared.fault.Fault.TheVariants.{Refused};
ghost use Rattle.fit_commands.specs.Faults.{fault_of_open};
ghost use Rattle.fit_commands.specs.Scripts.Faults.{fault_of_replay, IsScriptReported, IsReplayReported};
ghost use Rattle.fit_commands.specs.Scripts.Reported.{IsScriptOf, Replays, PrintsNoLine};

use crate::fault::{Fault, none_refused};
use crate::folder::open_folder;
use crate::input::{read_file, reported};
use fit_disk::{Trusting, Witness};
use fit_files::ReportFault;
use fit_histories::Event;
use fit_places::NamedFiles;
use fit_runs::play;
use fit_scripts::{ReplayFault, read_script};
use std::io::Write;

/// Runs the script of this name over the files of a folder, and prints a line for each event. If a line is wrong, or has an event
/// that only `simulate` runs, no file of the folder is opened. If replies were not ok, the fault is `Refused` with their number. A
/// start makes a checked journal or another.
pub fn replay_script<'a, F: NamedFiles + AllocGlobal, O: Write>(
    rt: &HostRuntime,
    files: &F,
    script: &'a str,
    folder: &'a str,
    checked: bool,
    out: &mut O,
) -> Result<(), Fault<'a>>
    ensures reported { IfErr result (IsReplayReported script.entry folder.entry) }
    ensures done { OnOk result
        (Replays (F.held files.now script.now) (O.contents out.old) (O.contents out.new) 0) }
    ensures refused { (count : ℕ) → result ≡ Err (Refused count)
        → Replays (F.held files.now script.now) (O.contents out.old) (O.contents out.new) count }
    ensures quiet { IfErr result (PrintsNoLine (O.contents out.old) (O.contents out.new)) }
{
    let events = events_of(files, script)?;
    let (_, played) = replay_files(rt, folder, Trusting, events.as_slice(), checked, out)?;
    none_refused(reported(script, played)?)
}

/// Runs the events over the files of this folder under any witness. Returns the witness, and the number of replies that were not ok.
/// Under an honest witness the files are those of its story, before and after.
pub fn replay_files<'a, W: Witness, O: Write>(
    rt: &HostRuntime,
    folder: &'a str,
    witness: W,
    events: &[Event],
    checked: bool,
    out: &mut O,
) -> Result<(W, Result<usize, ReportFault>), Fault<'a>>
    requires { All IsReplayed events.now }
    ensures printed { IfOk result (λ done. IfOk done.1 (λ refused.
        AreReported events.now
        (LeavesAfter checked W.honest (W.story witness) (W.story done.0) events.now) refused
        (O.contents out.old) (O.contents out.new))) }
    ensures broken_off { IfOk result (λ done. IfErr done.1 (λ _.
        BreaksOff checked W.honest (W.story witness) (W.story done.0) events.now (O.contents out.old)
        (O.contents out.new))) }
    ensures fault { IfOk result (λ done. IfErr done.1 IsOutputFault) }
    ensures reported { IfErr result
        (λ reported. (why : WhyNotOpen) × (reported ≡ fault_of_open folder.entry why)) }
    ensures quiet { IfErr result (λ _. O.contents out.new ≡ O.contents out.old) }
{
    let files = open_folder(rt, folder, witness)?;
    let (files, played) = play(files, events, checked, out);
    Ok((files.into_witness(), played))
}

// Reads the events of the script of this name. All of them can be replayed.
fn events_of<'a, F: NamedFiles + AllocGlobal>(
    files: &F,
    name: &'a str,
) -> Result<Vec<Event>, Fault<'a>>
    ensures script { IfOk result (λ events. IsScriptOf (F.held files.now name.now) events.items) }
    ensures replayed { IfOk result (λ events. All IsReplayed events.items) }
    ensures reported { IfErr result (IsScriptReported name.entry) }
{
    let bytes = read_file(files, name)?;
    read_script(files.alloc(), bytes.as_slice()).map_err(|fault| fault_of(name, fault))
}

// The program's fault for a script of this name that cannot be replayed.
fn fault_of<'a>(name: &'a str, fault: ReplayFault) -> Fault<'a>
    ensures { result ≡ fault_of_replay name.entry fault }
{
    match fault {
        ReplayFault::NoText => Fault::Read(name),
        ReplayFault::Script(fault) => Fault::Script(fault),
        ReplayFault::OnlySimulate(line) => Fault::OnlySimulate(line),
    }
}

// The subcommand `simulate`: runs the events of a script over a disk in memory.

ghost use Rattle.fit_runs.specs.Printed.Simulation.{Simulates};
ghost use Rattle.fit_commands.specs.Scripts.Faults.{IsSimulateFault};
ghost use Rattle.fit_commands.specs.Reported.{ReportsRun};

use crate::fault::Fault;
use crate::input::read_file;
use fit_places::NamedFiles;
use fit_runs::{SimulateFault, simulate};
use std::io::Write;

/// Runs the script of this name over a disk in memory, and prints a line for each event. The choice bytes decide what a power cut
/// leaves. A start makes a checked journal or another.
pub fn simulate_script<'a, F: NamedFiles + AllocGlobal, O: Write>(
    files: &F,
    name: &'a str,
    choices: &[u8],
    checked: bool,
    out: &mut O,
) -> Result<(), Fault<'a>>
    ensures { ReportsRun (F.held files.now name.now) name.entry (O.contents out.old) (O.contents out.new)
        (IsSimulateFault name.entry)
        (Simulates checked choices.now (O.contents out.old) (O.contents out.new)) result }
{
    let bytes = read_file(files, name)?;
    match simulate(files.alloc(), bytes.as_slice(), choices, checked, out) {
        Ok(()) => Ok(()),
        Err(fault) => Err(fault_of(name, fault)),
    }
}

// The program's fault for a script of this name that was not simulated, or not all its lines were printed.
fn fault_of<'a>(name: &'a str, fault: SimulateFault) -> Fault<'a>
    ensures { IsSimulateFault name.entry fault result }
{
    match fault {
        SimulateFault::NoText => Fault::Read(name),
        SimulateFault::Script(fault) => Fault::Script(fault),
        SimulateFault::NoMemory => Fault::NoMemory,
        SimulateFault::Output => Fault::Write("-"),
    }
}

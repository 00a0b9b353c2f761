// Finishes a file for the subcommand `salvage --finish`: it gets the messages that it lacks.

ghost use Rattle.std.specs.Prelude.{◌≡◌, IfOk, IfErr};
ghost use Rattle.fit_finishing.specs.Finished.{IsFinishing};
ghost use Rattle.fit_commands.specs.Faults.{IsNotFinishedReported, fault_of_finish};
ghost use Rattle.fit_commands.specs.Reported.{heard_of};

use crate::content::FinishedFile;
use crate::fault::Fault;
use fit_activity::ActivityFault;
use fit_files::Heard;
use fit_finishing::{FinishFault, Finishing};
use fit_grammar::File;

/// The file with the messages that it lacks.
pub(crate) fn finish_file(file: File) -> Result<FinishedFile, Fault<'static>>
    ensures finished { IfOk result (λ finished. (finished.file ≡ file)
        × IsFinishing file finished.finishing) }
    ensures reported { IfErr result IsNotFinishedReported }
{
    match Finishing::of(&file.lend()) {
        Ok(finishing) => Ok(FinishedFile { file, finishing }),
        Err(fault) => Err(fault_of(fault)),
    }
}

/// What was heard in a file that is finished so.
pub(crate) fn heard_in(finishing: &Finishing) -> Heard
    ensures { result ≡ heard_of finishing.now }
{
    Heard {
        taken: finishing.taken,
        left_out: finishing.left_out,
        has_new_file_id: finishing.adds_file_id(),
    }
}

// The program's fault for an activity that is not finished.
fn fault_of(fault: FinishFault) -> Fault<'static>
    ensures value { result ≡ fault_of_finish fault }
    ensures reported { IsNotFinishedReported result }
{
    match fault {
        FinishFault::NotActivity => Fault::Activity(ActivityFault::NotActivity),
        FinishFault::NoSample => Fault::NoSample,
        FinishFault::TooLong => Fault::TooLarge,
    }
}

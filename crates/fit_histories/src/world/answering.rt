// Makes the answer of a reply, with the file if one was finished.

ghost use Rattle.std.specs.Prelude.{◌≡◌, IfOk};
ghost use Rattle.fit_histories.specs.Histories.Runs.{outcome_in};
ghost use Rattle.fit_histories.specs.Rides.Standing.{outcome};

use super::NoMemory;
use crate::answer::Answer;
use crate::reply::Reply;
use std::alloc::Global;

// The answer with this reply, and with a copy of the data file if the recording was finished.
pub fn answer_of(alloc: Global, reply: Reply, file: &[u8]) -> Result<Answer, NoMemory>
    ensures { IfOk result (λ answer. outcome_in answer ≡ outcome reply file.now) }
{
    match reply {
        Reply::Done => Ok(Answer::Done),
        Reply::Stopped => Ok(Answer::Stopped {
            file: copy(alloc, file)?,
        }),
        Reply::Recovered(summary) => Ok(Answer::Recovered {
            summary,
            file: copy(alloc, file)?,
        }),
        Reply::Refused(fault) => Ok(Answer::Refused(fault)),
        Reply::NoRecorder => Ok(Answer::NoRecorder),
    }
}

fn copy(alloc: Global, bytes: &[u8]) -> Result<Vec<u8>, NoMemory>
    ensures { IfOk result (λ copied. copied.items ≡ bytes.now) }
{
    match Vec::from_slice(alloc, bytes) {
        Ok(copied) => Ok(copied),
        Err(_) => Err(NoMemory),
    }
}

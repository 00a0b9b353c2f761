// Runs the events of a script over a disk in memory. The script arranges which calls fail and when the power is cut.

ghost use Rattle.std.specs.Prelude.{◌≡◌, [], OnOk};
ghost use Rattle.fit_grammar.specs.Calls.Output.{WritesText};
ghost use Rattle.fit_text.specs.Pen.{Puts};
ghost use Rattle.fit_runs.specs.Printed.ReplyLines.{lines_text};
ghost use Rattle.fit_runs.specs.Printed.Simulation.{Simulates};

use crate::reply_line::ReplyLine;
use fit_files::{ReportFault, flush, put_line};
use fit_histories::world::run_for_replies;
use fit_histories::{Event, Reply};
use fit_scripts::{ScriptFault, parse_script};
use fit_text::Pen;
use std::alloc::Global;
use std::io::Write;
use std::str;

/// Why a script was not simulated, or not all its lines were printed.
#[derive(Clone, Copy, Debug, PartialEq, Eq)]
pub enum SimulateFault {
    /// The bytes are not UTF-8.
    NoText,
    /// A line is not one of a script, or memory was refused while the script was read.
    Script(ScriptFault),
    /// Memory was refused while the events ran, or the disk's counts of calls are at their greatest value.
    NoMemory,
    /// The output failed.
    Output,
}

impl SimulateFault {
    ghost use Rattle.fit_runs.specs.Printed.Simulation.{simulate_code};

    /// The number of the fault, 1 to 4. The first one that holds is reported.
    pub fn code(&self) -> u8
        ensures { result ≡ simulate_code self.now }
    {
        match self {
            SimulateFault::NoText => 1,
            SimulateFault::Script(_) => 2,
            SimulateFault::NoMemory => 3,
            SimulateFault::Output => 4,
        }
    }
}

/// Runs the events of a script over two empty files, and then prints the reply to each. The choice bytes decide what a power cut
/// leaves of the files. Each power cut takes the bytes after those of the one before it. Missing bytes are 0. A start begins a
/// journal with checksums if `checked` is true, else without.
pub fn simulate<O: Write>(
    alloc: Global,
    bytes: &[u8],
    choices: &[u8],
    checked: bool,
    out: &mut O,
) -> Result<(), SimulateFault>
    ensures { Simulates checked choices.now (O.contents out.old) (O.contents out.new) bytes.now result }
{
    let Ok(text) = str::from_utf8(bytes) else {
        return Err(SimulateFault::NoText);
    };
    let events = match parse_script(alloc, text) {
        Ok(events) => events,
        Err(fault) => return Err(SimulateFault::Script(fault)),
    };
    let Ok(replies) = run_for_replies(alloc, events.as_slice(), choices, checked) else {
        return Err(SimulateFault::NoMemory);
    };
    match print_replies(events.as_slice(), replies.as_slice(), out) {
        Ok(()) => Ok(()),
        Err(_) => Err(SimulateFault::Output),
    }
}

// Prints a line for each event.
// Not inlined: its pen would take stack in every caller.
#[inline(never)]
fn print_replies<O: Write>(
    events: &[Event],
    replies: &[Reply],
    out: &mut O,
) -> Result<(), ReportFault>
    ensures lines { WritesText (O.contents out.old) (O.contents out.new) result
        (lines_text events.now replies.now) }
{
    let mut pen = Pen::new(out);
    let done = put_replies(events, replies, &mut pen);
    let _ = pen.into_writer();
    done
}

// Puts a line for each event, and hands all of them to the writer.
fn put_replies<O: Write>(
    events: &[Event],
    replies: &[Reply],
    pen: &mut Pen<'_, O>,
) -> Result<(), ReportFault>
    ensures none { OnOk result (pen.new.waiting ≡ []) }
    ensures lines { Puts pen.old pen.new result (lines_text events.now replies.now) }
{
    for (index, event) in events.iter().enumerate() {
        let Some(reply) = replies.get(index) else {
            break;
        };
        let reply = *reply;
        put_line(&ReplyLine { event, reply }, pen)?;
    }
    flush(pen)
}

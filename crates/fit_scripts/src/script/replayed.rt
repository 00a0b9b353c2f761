// Reads a script that can be replayed.

ghost use Rattle.std.specs.Prelude.{◌≡◌, All, IfOk, IfErr, IfNone};
ghost use Rattle.std.specs.Str.Lines.{lines};
ghost use Rattle.fit_scripts.specs.Scripts.Script.{events_of};
ghost use Rattle.fit_scripts.specs.Scripts.Replayed.{IsReplayed, first_simulated, IsReplayFault};

use crate::script::fault::ReplayFault;
use crate::script::parse::parse_script;
use fit_histories::Event;
use std::alloc::Global;
use std::str;

/// Reads the events of a script. All of them can be replayed.
pub fn read_script(alloc: Global, bytes: &[u8]) -> Result<Vec<Event>, ReplayFault>
    ensures events { IfOk result (λ events. events.items ≡ events_of 1 (lines bytes.now)) }
    ensures replayed { IfOk result (λ events. All IsReplayed events.items) }
    ensures fault { IfErr result (IsReplayFault bytes.now) }
{
    let Ok(text) = str::from_utf8(bytes) else {
        return Err(ReplayFault::NoText);
    };
    let events = match parse_script(alloc, text) {
        Ok(events) => events,
        Err(fault) => return Err(ReplayFault::Script(fault)),
    };
    match first_simulated(events.as_slice()) {
        Some(line) => Err(ReplayFault::OnlySimulate(line)),
        None => Ok(events),
    }
}

// The line of the first event that only `simulate` runs.
fn first_simulated(events: &[Event]) -> Option<usize>
    ensures line { result ≡ first_simulated events.now }
    ensures none { IfNone result (All IsReplayed events.now) }
{
    for event in events {
        if event.command.is_simulated() {
            return Some(event.line);
        }
    }
    None
}

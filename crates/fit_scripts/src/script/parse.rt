// Reads a whole script.

ghost use Rattle.std.specs.Prelude.{◌≡◌, ◌≢◌, ◌++◌, [], Some, All, map, IfOk, OnOk, IfErr};
ghost use Rattle.std.specs.List.{cons_option};
ghost use Rattle.std.specs.Str.Lines.{lines};
ghost use Rattle.fit_scripts.specs.Scripts.Faults.{IsScriptFaultOf, IsWrong};
ghost use Rattle.fit_scripts.specs.Scripts.Script.{IsLine, is_silent, meaning_of, event_of, events_of};
ghost use Rattle.fit_histories.specs.Commands.{CanRun};
ghost use Rattle.fit_scripts.specs.declared.script.fault.ScriptFaultKind.TheVariants as kinds;

use crate::script::command::command_of;
use crate::script::fault::{ScriptFault, ScriptFaultKind};
use crate::script::words::{lines_of, words_of};
use fit_histories::{Command, Event};
use std::alloc::Global;

/// The events of a script, each with the number of its line, counted from 1. A line without words is no event, nor is one whose
/// first word begins with `#`. The fault is that of the first line that is not one of a script, or `Memory` at a line that was
/// reached.
pub fn parse_script(alloc: Global, text: &str) -> Result<Vec<Event>, ScriptFault>
    ensures lines { IfOk result (λ _. All IsLine (lines text.now)) }
    ensures events { IfOk result (λ events. events.items ≡ events_of 1 (lines text.now)) }
    ensures counts { IfOk result (λ events. All (λ event. CanRun event.command) events.items) }
    ensures fault { IfErr result (IsScriptFaultOf (lines text.now)) }
{
    let Ok(lines) = lines_of(alloc, text) else {
        return Err(out_of_memory(1));
    };
    let mut events = Vec::new(alloc);
    for (index, line) in lines.iter().enumerate() {
        add_event(alloc, &mut events, index + 1, line)?;
    }
    Ok(events)
}

// Adds the event of a line, if it states one.
fn add_event(
    alloc: Global,
    events: &mut Vec<Event>,
    number: usize,
    line: &str,
) -> Result<(), ScriptFault>
    ensures line { OnOk result (IsLine line.now) }
    ensures events { OnOk result
        (events.new.items ≡ events.old.items ++ cons_option (event_of number line.now) []) }
    ensures number { IfErr result (λ fault. fault.line ≡ number) }
    ensures fault { IfErr result (λ fault. fault.kind ≢ kinds.Memory
        → IsWrong line.now fault.kind) }
{
    match event_at(alloc, number, line) {
        Ok(Some(event)) => match events.push(event) {
            Ok(()) => Ok(()),
            Err(_) => Err(out_of_memory(number)),
        },
        Ok(None) => Ok(()),
        Err(fault) => Err(fault),
    }
}

// The event of a line, if it states one.
fn event_at(alloc: Global, number: usize, line: &str) -> Result<Option<Event>, ScriptFault>
    ensures line { IfOk result (λ _. IsLine line.now) }
    ensures event { IfOk result (λ event. event ≡ event_of number line.now) }
    ensures number { IfErr result (λ fault. fault.line ≡ number) }
    ensures fault { IfErr result (λ fault. fault.kind ≢ kinds.Memory
        → IsWrong line.now fault.kind) }
{
    match command_at(alloc, line.as_bytes()) {
        Ok(Some(command)) => Ok(Some(Event {
            line: number,
            command,
        })),
        Ok(None) => Ok(None),
        Err(kind) => Err(ScriptFault { kind, line: number }),
    }
}

/// The command of a line, if it states one.
pub fn command_at(alloc: Global, line: &[u8]) -> Result<Option<Command>, ScriptFaultKind>
    ensures meaning { IfOk result (λ found. meaning_of line.now ≡ Some found) }
    ensures fault { IfErr result (λ kind. kind ≢ kinds.Memory → IsWrong line.now kind) }
{
    let Ok(words) = words_of(alloc, line) else {
        return Err(ScriptFaultKind::Memory);
    };
    if is_silent(words.as_slice()) {
        return Ok(None);
    }
    match command_of(words.as_slice()) {
        Ok(command) => Ok(Some(command)),
        Err(kind) => Err(kind),
    }
}

// Whether there is no word, or the first begins with `#`.
fn is_silent(words: &[&[u8]]) -> bool
    ensures { result ≡ is_silent (map (λ word. word.now) words.now) }
{
    match words {
        [] => true,
        [word, ..] => word.first() == Some(&b'#'),
    }
}

fn out_of_memory(line: usize) -> ScriptFault
    ensures kind { result.kind ≡ kinds.Memory }
    ensures line { result.line ≡ line }
{
    ScriptFault {
        kind: ScriptFaultKind::Memory,
        line,
    }
}

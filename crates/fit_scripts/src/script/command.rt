// The command that the words of a line state.

ghost use Rattle.std.specs.Prelude.{◌≡◌, map, if◌then◌else◌, IfErr};
ghost use Rattle.std.specs.Result.{result_ok};
ghost use Rattle.fit_scripts.specs.Scripts.Faults.{only_fault, start_fault, sample_fault, arranged_fault, called_fault, timed_fault, command_fault};
ghost use Rattle.fit_scripts.specs.Scripts.Script.{number32, count, sport_named, alone, only, start_line, sample_line, arranged_of, called_of, timed_of, command_of};
ghost use Rattle.fit_histories.specs.declared.command.Command.TheVariants as commands;
ghost use Rattle.fit_scripts.specs.declared.script.fault.ScriptFaultKind.TheVariants as kinds;

use crate::script::fault::ScriptFaultKind;
use crate::script::number::number;
use crate::script::sample::sample_at;
use fit_activity::{Entry, Sport, Start};
use fit_histories::Command;

/// The command that the words of a line state. Words are judged from left to right, and the first fault is reported.
pub fn command_of(words: &[&[u8]]) -> Result<Command, ScriptFaultKind>
    ensures value { result_ok result ≡ command_of (map (λ word. word.now) words.now) }
    ensures fault { IfErr result (λ kind. kind ≡ command_fault (map (λ word. word.now) words.now)) }
{
    let [name, arguments @ ..] = words else {
        return Err(ScriptFaultKind::MissingWord);
    };
    if *name == b"start".as_slice() {
        Ok(Command::Start(start_of(arguments)?))
    } else if *name == b"sample".as_slice() {
        Ok(Command::Entry(sample_of(arguments)?))
    } else {
        timed_of(name, arguments)
    }
}

// An entry that is a time, or one of the commands below.
fn timed_of(name: &[u8], arguments: &[&[u8]]) -> Result<Command, ScriptFaultKind>
    ensures value { result_ok result ≡ timed_of name.now (map (λ word. word.now) arguments.now) }
    ensures fault { IfErr result (λ kind. kind
        ≡ timed_fault name.now (map (λ word. word.now) arguments.now)) }
{
    if name == b"lap".as_slice() {
        Ok(Command::Entry(Entry::Lap(only_number(arguments)?)))
    } else if name == b"pause".as_slice() {
        Ok(Command::Entry(Entry::Pause(only_number(arguments)?)))
    } else if name == b"resume".as_slice() {
        Ok(Command::Entry(Entry::Resume(only_number(arguments)?)))
    } else if name == b"stop".as_slice() {
        Ok(Command::Entry(Entry::Stop(only_number(arguments)?)))
    } else {
        called_of(name, arguments)
    }
}

// A call of the recorder, or one of the commands below.
fn called_of(name: &[u8], arguments: &[&[u8]]) -> Result<Command, ScriptFaultKind>
    ensures value { result_ok result ≡ called_of name.now (map (λ word. word.now) arguments.now) }
    ensures fault { IfErr result (λ kind. kind
        ≡ called_fault name.now (map (λ word. word.now) arguments.now)) }
{
    if name == b"commit".as_slice() {
        alone(Command::Commit, arguments)
    } else if name == b"restart".as_slice() {
        alone(Command::Restart, arguments)
    } else if name == b"recover".as_slice() {
        alone(Command::Recover, arguments)
    } else if name == b"reopen".as_slice() {
        alone(Command::Reopen, arguments)
    } else if name == b"erase".as_slice() {
        alone(Command::Erase, arguments)
    } else {
        arranged_of(name, arguments)
    }
}

// A call that is to fail, or a power cut.
fn arranged_of(name: &[u8], arguments: &[&[u8]]) -> Result<Command, ScriptFaultKind>
    ensures value { result_ok result ≡ arranged_of name.now (map (λ word. word.now) arguments.now) }
    ensures fault { IfErr result (λ kind. kind
        ≡ arranged_fault name.now (map (λ word. word.now) arguments.now)) }
{
    if name == b"fail".as_slice() {
        Ok(Command::Fail(only_count(arguments)?))
    } else if name == b"cut".as_slice() {
        Ok(Command::Cut(only_count(arguments)?))
    } else if name == b"power".as_slice() {
        alone(Command::Power, arguments)
    } else {
        Err(ScriptFaultKind::UnknownWord)
    }
}

// TIME SERIAL SPORT
fn start_of(arguments: &[&[u8]]) -> Result<Start, ScriptFaultKind>
    ensures value { result_ok result ≡ start_line (map (λ word. word.now) arguments.now) }
    ensures fault { IfErr result (λ kind. kind
        ≡ start_fault (map (λ word. word.now) arguments.now)) }
{
    let [time, arguments @ ..] = arguments else {
        return Err(ScriptFaultKind::MissingWord);
    };
    let time = number32(time)?;
    let [serial, arguments @ ..] = arguments else {
        return Err(ScriptFaultKind::MissingWord);
    };
    let serial = number32(serial)?;
    let [sport, rest @ ..] = arguments else {
        return Err(ScriptFaultKind::MissingWord);
    };
    let sport = sport_named(sport)?;
    if !rest.is_empty() {
        return Err(ScriptFaultKind::ExtraWord);
    }
    Ok(Start {
        time,
        serial,
        sport,
    })
}

fn sport_named(word: &[u8]) -> Result<Sport, ScriptFaultKind>
    ensures value { result_ok result ≡ sport_named word.now }
    ensures fault { IfErr result (λ kind. kind ≡ kinds.UnknownWord) }
{
    if word == b"generic".as_slice() {
        Ok(Sport::Generic)
    } else if word == b"running".as_slice() {
        Ok(Sport::Running)
    } else if word == b"cycling".as_slice() {
        Ok(Sport::Cycling)
    } else {
        Err(ScriptFaultKind::UnknownWord)
    }
}

// TIME KEY=NUMBER ..
fn sample_of(arguments: &[&[u8]]) -> Result<Entry, ScriptFaultKind>
    ensures value { result_ok result ≡ sample_line (map (λ word. word.now) arguments.now) }
    ensures fault { IfErr result (λ kind. kind
        ≡ sample_fault (map (λ word. word.now) arguments.now)) }
{
    let [time, settings @ ..] = arguments else {
        return Err(ScriptFaultKind::MissingWord);
    };
    let time = number32(time)?;
    Ok(Entry::Sample(sample_at(time, settings)?))
}

// A command that takes no further words.
fn alone(command: Command, arguments: &[&[u8]]) -> Result<Command, ScriptFaultKind>
    ensures value { result_ok result ≡ alone command (map (λ word. word.now) arguments.now) }
    ensures fault { IfErr result (λ kind. kind ≡ kinds.ExtraWord) }
{
    if arguments.is_empty() {
        Ok(command)
    } else {
        Err(ScriptFaultKind::ExtraWord)
    }
}

// A number, and no further word.
fn only_number(arguments: &[&[u8]]) -> Result<u32, ScriptFaultKind>
    ensures value { result_ok result ≡ only number32 (map (λ word. word.now) arguments.now) }
    ensures fault { IfErr result (λ kind. kind
        ≡ only_fault number32 (map (λ word. word.now) arguments.now)) }
{
    let [word, rest @ ..] = arguments else {
        return Err(ScriptFaultKind::MissingWord);
    };
    let number = number32(word)?;
    if rest.is_empty() {
        Ok(number)
    } else {
        Err(ScriptFaultKind::ExtraWord)
    }
}

// A number of 1 or more, and no further word.
fn only_count(arguments: &[&[u8]]) -> Result<u32, ScriptFaultKind>
    ensures value { result_ok result ≡ only count (map (λ word. word.now) arguments.now) }
    ensures fault { IfErr result (λ kind. kind
        ≡ only_fault count (map (λ word. word.now) arguments.now)) }
{
    let [word, rest @ ..] = arguments else {
        return Err(ScriptFaultKind::MissingWord);
    };
    let number = number32(word)?;
    if number == 0 {
        Err(ScriptFaultKind::BadNumber)
    } else if rest.is_empty() {
        Ok(number)
    } else {
        Err(ScriptFaultKind::ExtraWord)
    }
}

fn number32(word: &[u8]) -> Result<u32, ScriptFaultKind>
    ensures value { result_ok result ≡ number32 word.now }
    ensures fault { IfErr result (λ kind. kind ≡ kinds.BadNumber) }
{
    number(word, u32::MAX)
}

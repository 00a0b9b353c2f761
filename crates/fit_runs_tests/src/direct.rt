// Events by direct calls of a memory disk, and of a recorder over it while one runs.

ghost use Rattle.std.specs.Prelude.{◌≤◌, true, IfOk};
ghost use Rattle.fit_disk.specs.Memory.{memory_story};
ghost use Rattle.fit_recorder.specs.Calls.Recorder.{GoesOn};

use fit_activity::{Entry, Start};
use fit_disk::{Memory, Which};
use fit_histories::{Answer, Command, Event};
use fit_recorder::{RecFault, Recorder, erase, recover, resume};
use std::alloc::{AllocError, Global};
use std::test::Fail;

// The recorder that runs, or the disk alone.
type Played = Result<Recorder<Memory>, Memory>;

// The disk, after the recorder that runs has ended.
fn disk_of(played: Played) -> Memory {
    match played {
        Ok(recorder) => recorder.into_disk(),
        Err(disk) => disk,
    }
}

pub fn answer_of(done: Result<(), RecFault>) -> Answer {
    match done {
        Ok(()) => Answer::Done,
        Err(fault) => Answer::Refused(fault),
    }
}

fn start(disk: Memory, start: Start) -> (Played, Answer)
    ensures { IfOk result.0 (GoesOn true memory_story) }
{
    match Recorder::start(disk, start) {
        Ok(recorder) => (Ok(recorder), Answer::Done),
        Err((disk, fault)) => (Err(disk), Answer::Refused(fault)),
    }
}

fn reopen(disk: Memory) -> (Played, Answer)
    ensures { IfOk result.0 (GoesOn true memory_story) }
{
    match resume(disk) {
        Ok(recorder) => (Ok(recorder), Answer::Done),
        Err((disk, fault)) => (Err(disk), Answer::Refused(fault)),
    }
}

fn hand(recorder: &mut Recorder<Memory>, entry: &Entry) -> Answer
    requires { GoesOn true memory_story recorder.old }
    ensures { GoesOn true memory_story recorder.new }
{
    match entry {
        Entry::Stop(_) => Answer::NoRecorder,
        Entry::Sample(_) | Entry::Lap(_) | Entry::Pause(_) | Entry::Resume(_) => answer_of(
            recorder.hand(entry),
        ),
    }
}

fn stop(
    alloc: Global,
    mut recorder: Recorder<Memory>,
    time: u32,
) -> Result<(Played, Answer), AllocError>
    requires { GoesOn true memory_story recorder }
    ensures { IfOk result (λ done. IfOk done.0 (GoesOn true memory_story)) }
{
    if let Err(fault) = recorder.stop(time) {
        return Ok((Ok(recorder), Answer::Refused(fault)));
    }
    let disk = recorder.into_disk();
    let file = Vec::from_slice(alloc, disk.content(Which::Data))?;
    Ok((Err(disk), Answer::Stopped { file }))
}

fn repair(alloc: Global, disk: &mut Memory) -> Result<Answer, AllocError> {
    match recover(disk) {
        Ok(summary) => Ok(Answer::Recovered {
            summary,
            file: Vec::from_slice(alloc, disk.content(Which::Data))?,
        }),
        Err(fault) => Ok(Answer::Refused(fault)),
    }
}

// An entry, a stop or a commit while a recorder runs.
fn ride_on(
    alloc: Global,
    mut recorder: Recorder<Memory>,
    command: &Command,
) -> Result<(Played, Answer), Fail>
    requires { GoesOn true memory_story recorder }
    ensures { IfOk result (λ done. IfOk done.0 (GoesOn true memory_story)) }
{
    match command {
        Command::Entry(Entry::Stop(time)) => Ok(stop(alloc, recorder, *time)?),
        Command::Entry(entry) => {
            let answer = hand(&mut recorder, entry);
            Ok((Ok(recorder), answer))
        }
        _ => {
            let answer = answer_of(recorder.commit());
            Ok((Ok(recorder), answer))
        }
    }
}

// Schedules a failure or a power cut at the k-th call.
fn arrange(played: Played, k: u32, is_cut: bool) -> Played
    requires k { 1 ≤ k }
    requires goes_on { IfOk played (GoesOn true memory_story) }
    ensures { IfOk result (GoesOn true memory_story) }
{
    match played {
        Ok(mut recorder) if is_cut => {
            recorder.cut_at(k);
            Ok(recorder)
        }
        Ok(mut recorder) => {
            recorder.fail_at(k);
            Ok(recorder)
        }
        Err(mut disk) if is_cut => {
            disk.cut_at(k);
            Err(disk)
        }
        Err(mut disk) => {
            disk.fail_at(k);
            Err(disk)
        }
    }
}

// A command that ends the recorder that runs. Also returns how many of the choice bytes a power cut took.
fn rest(
    alloc: Global,
    mut disk: Memory,
    command: &Command,
    choices: &[u8],
) -> Result<(Memory, Answer, usize), AllocError> {
    let mut taken = 0;
    let answer = match command {
        Command::Recover => repair(alloc, &mut disk)?,
        Command::Erase => answer_of(erase(&mut disk)),
        Command::Power => {
            taken = disk.cycle(choices);
            Answer::Done
        }
        _ => Answer::Done,
    };
    Ok((disk, answer, taken))
}

fn step(
    alloc: Global,
    played: Played,
    command: &Command,
    choices: &[u8],
) -> Result<(Played, Answer, usize), Fail>
    requires { IfOk played (GoesOn true memory_story) }
    ensures { IfOk result (λ done. IfOk done.0 (GoesOn true memory_story)) }
{
    match command {
        Command::Start(with) => {
            let (played, answer) = start(disk_of(played), *with);
            Ok((played, answer, 0))
        }
        Command::Reopen => {
            let (played, answer) = reopen(disk_of(played));
            Ok((played, answer, 0))
        }
        Command::Entry(_) | Command::Commit => match played {
            Ok(recorder) => {
                let (played, answer) = ride_on(alloc, recorder, command)?;
                Ok((played, answer, 0))
            }
            Err(disk) => Ok((Err(disk), Answer::NoRecorder, 0)),
        },
        Command::Fail(k) => Ok((arrange(played, (*k).max(1), false), Answer::Done, 0)),
        Command::Cut(k) => Ok((arrange(played, (*k).max(1), true), Answer::Done, 0)),
        Command::Restart | Command::Recover | Command::Erase | Command::Power => {
            let (disk, answer, taken) = rest(alloc, disk_of(played), command, choices)?;
            Ok((Err(disk), answer, taken))
        }
    }
}

/// The content of the data file after these events over two empty files, and the answers to them.
pub fn play(
    alloc: Global,
    events: &[Event],
    mut choices: &[u8],
) -> Result<(Vec<u8>, Vec<Answer>), Fail> {
    let mut played: Played = Err(Memory::new(alloc));
    let mut answers = Vec::new(alloc);
    for event in events {
        let (next, answer, taken) = step(alloc, played, &event.command, choices)?;
        played = next;
        choices = choices.get(taken..).unwrap_or(&[]);
        answers.push(answer)?;
    }
    let disk = disk_of(played);
    Ok((Vec::from_slice(alloc, disk.content(Which::Data))?, answers))
}

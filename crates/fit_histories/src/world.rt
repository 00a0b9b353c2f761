//! A recording over a disk in memory. Commands arrange which calls fail and when the power is cut.

ghost use Rattle.std.specs.Prelude.{◌≡◌, [], List, All, map, IfOk, OnOk, false};
ghost use Rattle.fit_histories.specs.Histories.Runs.{IsHistory, NoneFull, outcome_in};
ghost use Rattle.fit_histories.specs.Commands.{CanRun};
ghost use Rattle.fit_histories.specs.Histories.Table.{Outcome};
ghost use Rattle.fit_histories.specs.Rides.Standing.{reply_in};
ghost use Rattle.fit_histories.specs.Simulation.Following.{FollowsChoices};

mod answering;
mod keeping;
mod simulated;
mod stepping;

use crate::Event;
use crate::answer::Answer;
use crate::reply::Reply;
use crate::ride::Ride;
use fit_disk::Memory;
use keeping::{Answers, Keeper, Replies};
use std::alloc::Global;
use stepping::step;

/// Memory was refused, or the disk's counts of calls are at their greatest value.
#[derive(Clone, Copy, Debug, PartialEq, Eq)]
pub struct NoMemory;

/// Runs the events over two empty files, and returns the answer to each. The choice bytes decide what a power cut leaves of the
/// files. Each power cut takes the bytes after those of the one before it. Missing bytes are 0. A start begins a journal without
/// checksums.
pub fn run(alloc: Global, events: &[Event], choices: &[u8]) -> Result<Vec<Answer>, NoMemory>
    requires { All (λ event. CanRun event.command) events.now }
    ensures history { IfOk result (λ answers. IsHistory events.now (map outcome_in answers.items)) }
    ensures follows { IfOk result (λ answers.
        FollowsChoices false choices.now events.now (map outcome_in answers.items)) }
    ensures never_full { IfOk result (λ answers. NoneFull (map outcome_in answers.items)) }
{
    run_with(alloc, events, choices, false)
}

/// The same, but a start begins a journal with checksums if `checked` is true.
pub fn run_with(
    alloc: Global,
    events: &[Event],
    choices: &[u8],
    checked: bool,
) -> Result<Vec<Answer>, NoMemory>
    requires { All (λ event. CanRun event.command) events.now }
    ensures history { IfOk result (λ answers. IsHistory events.now (map outcome_in answers.items)) }
    ensures follows { IfOk result (λ answers.
        FollowsChoices checked choices.now events.now (map outcome_in answers.items)) }
    ensures never_full { IfOk result (λ answers. NoneFull (map outcome_in answers.items)) }
{
    let kept = Vec::new(alloc);
    let mut answers = Answers { alloc, kept };
    run_for(alloc, events, choices, checked, &mut answers)?;
    Ok(answers.kept)
}

/// The same, but returns the replies of the answers. No copy of a finished file is made.
pub fn run_for_replies(
    alloc: Global,
    events: &[Event],
    choices: &[u8],
    checked: bool,
) -> Result<Vec<Reply>, NoMemory>
    requires { All (λ event. CanRun event.command) events.now }
    ensures { IfOk result (λ replies. (outcomes : List Outcome)
        × FollowsChoices checked choices.now events.now outcomes
        × NoneFull outcomes × (replies.items ≡ map reply_in outcomes)) }
{
    let kept = Vec::new(alloc);
    let mut replies = Replies { kept };
    run_for(alloc, events, choices, checked, &mut replies)?;
    Ok(replies.kept)
}

// The same, for any keeper of answers.
fn run_for<K: Keeper>(
    alloc: Global,
    events: &[Event],
    mut choices: &[u8],
    checked: bool,
    keeper: &mut K,
) -> Result<(), NoMemory>
    requires can { All (λ event. CanRun event.command) events.now }
    requires first { K.WasReported keeper.old [] }
    ensures { OnOk result ((outcomes : List Outcome)
        × FollowsChoices checked choices.entry.now events.now outcomes
        × NoneFull outcomes × K.WasReported keeper.new outcomes) }
{
    let mut ride = Ride::Idle(Memory::new(alloc));
    for event in events {
        let (next, reply, taken) = step(ride, &event.command, choices, checked);
        ride = next;
        choices = &choices[taken..];
        if ride.spent() {
            return Err(NoMemory);
        }
        keeper.keep(reply, ride.file())?;
    }
    Ok(())
}

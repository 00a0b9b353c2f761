// Runs one event of a ride over the memory disk.

ghost use Rattle.std.specs.Prelude.{◌≡◌, ◌≤◌, true, length};
ghost use Rattle.fit_disk.specs.Memory.{memory_story, memory_counts, memory_schedule};
ghost use Rattle.fit_histories.specs.Simulation.Arranging.{Moves};
ghost use Rattle.fit_histories.specs.Simulation.Choices.{takes, IsLeftBy};
ghost use Rattle.fit_histories.specs.Commands.{CanRun};
ghost use Rattle.fit_histories.specs.Histories.Table.{History};
ghost use Rattle.fit_histories.specs.Rides.Ride.{CanGoOn, disk_in};
ghost use Rattle.fit_histories.specs.Rides.NeverFull.{StaysNeverFull};
ghost use Rattle.fit_histories.specs.Rides.Standing.{StandsIn, TakesStepFrom};
ghost use Rattle.fit_histories.specs.Rides.Begun.{RideBeginsForm};

use crate::Command;
use crate::reply::Reply;
use crate::ride::Ride;
use fit_disk::Memory;

// Runs a command; a start makes a checked journal or another. Returns the ride after it, the reply, and the number of choice
// bytes taken.
pub fn step(
    mut ride: Ride<Memory>,
    command: &Command,
    choices: &[u8],
    checked: bool,
) -> (Ride<Memory>, Reply, usize)
    requires goes_on { CanGoOn true memory_story ride }
    requires can { CanRun command.now }
    ensures goes_on { CanGoOn true memory_story result.0 }
    ensures step { (before : History) → StandsIn true memory_story ride before
        → TakesStepFrom true memory_story before command.now result.1 result.0 }
    ensures form { RideBeginsForm true memory_story checked command.now result.1 ride result.0 }
    ensures never_full { StaysNeverFull true memory_story ride result.1 result.0 }
    ensures moves { Moves command.now result.1 (memory_counts (disk_in ride))
        (memory_schedule (disk_in ride))
        (memory_counts (disk_in result.0)) (memory_schedule (disk_in result.0)) }
    ensures taken { result.2 ≡ takes command.now choices.now (memory_story (disk_in ride)).now }
    ensures within { result.2 ≤ length choices.now }
    ensures left { IsLeftBy command.now choices.now result.1 (memory_story (disk_in ride))
        (memory_story (disk_in result.0)) }
{
    match command {
        Command::Fail(k) => {
            ride.fail_at(*k);
            (ride, Reply::Done, 0)
        }
        Command::Cut(k) => {
            ride.cut_at(*k);
            (ride, Reply::Done, 0)
        }
        Command::Power => {
            let (ride, taken) = ride.power(choices);
            (ride, Reply::Done, taken)
        }
        _ => {
            let (ride, reply) = ride.ask(command, checked);
            (ride, reply, 0)
        }
    }
}

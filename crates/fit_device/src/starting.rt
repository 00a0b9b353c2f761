// Start, commit and stop of a recorder in the memory of C.

ghost use Rattle.std.specs.Prelude.{◌≡◌, ◌≤◌, ◌<◌, ◌↔◌, true, length, IfSome, IsSome};
ghost use Rattle.fit_disk.specs.Calls.{IsSound};
ghost use Rattle.fit_disk.specs.Story.{Story, seen_of};
ghost use Rattle.fit_disk.specs.declared.disk.Which.TheVariants.{Data};
ghost use Rattle.fit_plan.specs.Plan.{plan_story};
ghost use Rattle.fit_device.specs.Lending.{Begun};
ghost use Rattle.fit_device.specs.Recovering.{SoundFiles};
ghost use Rattle.fit_activity.specs.Rides.Frozen.{sport_in};
ghost use Rattle.fit_device.specs.Answer.{no_sport};
ghost use Rattle.fit_device.specs.Starts.{Starts};
ghost use Rattle.fit_device.specs.Steps.{CommitsEntries, EndsRide};
ghost use Rattle.fit_journal.specs.Turn.{are_checked};
ghost use Rattle.fit_recorder.specs.Calls.Frozen.{state_in};

use crate::answer::{NO_RECORDER, NO_SPORT, code_of, code_of_fault};
use crate::handle::{Handle, no_files};
use crate::plan::DevicePlan;
use fit_activity::{Sport, Start};
use fit_disk::Notes;
use fit_plan::Plan;
use fit_recorder::Recorder;

/// Begins a recording over two files, of which the data file has `data_size` bytes, and plans at most eleven calls. Whatever the handle
/// held is forgotten.
#[unsafe(no_mangle)]
pub extern "C" fn fitrec_start(
    handle: &mut Handle,
    data_size: usize,
    time: u32,
    serial: u32,
    sport: u8,
    plan: &mut DevicePlan,
) -> u8
    ghost before: { SoundFiles }
    ensures starts { data_size ≡ length (seen_of Data before.story) → sport ≤ 2
        → Starts (record { time = time; serial = serial; sport = sport_in sport })
        before.story handle.new plan.new result }
    // The journal has checksums.
    ensures checked { result ≡ 0 → are_checked (state_in handle.new.recorder).journal_slots ≡ true }
    ensures no_sport { 2 < sport
        → (result ≡ no_sport) × (handle.new ≡ handle.old) × (plan.new.count ≡ 0) }
{
    let Some(sport) = sport_of(sport) else {
        plan.clear();
        return NO_SPORT;
    };
    let start = Start {
        time,
        serial,
        sport,
    };
    let mut recorder = Recorder::idle(over(data_size as u64));
    match recorder.begin(&start, true) {
        Ok(()) => {
            handle.put(&recorder, plan);
            0
        }
        Err(fault) => {
            handle.leave();
            plan.clear(); // A sync may be planned by then.
            code_of_fault(&fault)
        }
    }
}

/// Commits all entries so far, and plans at most eight calls. Once these are carried out, every recovery keeps the entries.
#[unsafe(no_mangle)]
pub extern "C" fn fitrec_commit(handle: &mut Handle, plan: &mut DevicePlan) -> u8
    ensures { CommitsEntries handle.old handle.new plan.new result }
{
    let mut recorder = Recorder::idle(no_files());
    if !handle.take(&mut recorder) {
        plan.clear();
        return NO_RECORDER;
    }
    let answer = recorder.commit();
    handle.put(&recorder, plan);
    code_of(&answer)
}

/// Ends the recording with a stop, and plans at most twelve calls. Once these are carried out, the data file is the finished
/// one.
#[unsafe(no_mangle)]
pub extern "C" fn fitrec_stop(handle: &mut Handle, time: u32, plan: &mut DevicePlan) -> u8
    ensures { EndsRide time handle.old handle.new plan.new result }
{
    let mut recorder = Recorder::idle(no_files());
    if !handle.take(&mut recorder) {
        plan.clear();
        return NO_RECORDER;
    }
    let answer = recorder.stop(time);
    handle.put(&recorder, plan);
    code_of(&answer)
}

// No calls yet, over two files, of which the data file has this length.
fn over(data_size: u64) -> Plan
    ghost before: { Story }
    requires sound { IsSound before.now }
    requires sized { length (seen_of Data before) ≡ data_size }
    ensures story { plan_story result ≡ before }
    ensures begun { Begun result }
{
    Plan::over(data_size, Notes::over())
}

// The sport of a number of the profile.
fn sport_of(number: u8) -> Option<Sport>
    ensures some { IfSome result (λ sport. sport ≡ sport_in number) }
    ensures known { IsSome result ↔ (number ≤ 2) }
{
    match number {
        0 => Some(Sport::Generic),
        1 => Some(Sport::Running),
        2 => Some(Sport::Cycling),
        _ => None,
    }
}

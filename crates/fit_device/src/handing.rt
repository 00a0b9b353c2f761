// Entries that C hands to a recorder.

ghost use Rattle.std.specs.Prelude.{◌≡◌, false, true};
ghost use Rattle.fit_activity.specs.declared.recording.entry.Entry.TheVariants.{Sample, Lap, Pause, Resume};
ghost use Rattle.fit_activity.specs.Rides.Recording.{Added, is_stop};
ghost use Rattle.fit_device.specs.Sampled.{has_plain_time, sample_given as sample_in};
ghost use Rattle.fit_device.specs.Steps.{HandsEntry, HasTime};

use crate::answer::{NO_RECORDER, code_of};
use crate::handle::{Handle, no_files};
use crate::plan::DevicePlan;
use crate::sample::{DeviceSample, has_plain_time, sample_of};
use fit_activity::Entry;
use fit_recorder::Recorder;

/// Hands a sample to the recorder, and plans at most one call. A crash loses the sample unless it is committed. It has its time in full
/// if its bit says so.
#[unsafe(no_mangle)]
pub extern "C" fn fitrec_add_sample(
    handle: &mut Handle,
    sample: &DeviceSample,
    plan: &mut DevicePlan,
) -> u8
    ensures hands { HandsEntry (Sample (sample_in sample.now)) handle.old handle.new plan.new result }
    ensures times { has_plain_time sample.now ≡ true
        → HasTime (Sample (sample_in sample.now)) handle.old handle.new result }
{
    let entry = Entry::Sample(sample_of(sample));
    hand(handle, &entry, has_plain_time(sample), plan)
}

/// Hands a lap to the recorder: at this time one lap ends and the next begins.
#[unsafe(no_mangle)]
pub extern "C" fn fitrec_add_lap(handle: &mut Handle, time: u32, plan: &mut DevicePlan) -> u8
    ensures { HandsEntry (Lap time) handle.old handle.new plan.new result }
{
    hand(handle, &Entry::Lap(time), false, plan)
}

/// Hands a pause to the recorder: at this time the timer stops.
#[unsafe(no_mangle)]
pub extern "C" fn fitrec_pause_timer(handle: &mut Handle, time: u32, plan: &mut DevicePlan) -> u8
    ensures { HandsEntry (Pause time) handle.old handle.new plan.new result }
{
    hand(handle, &Entry::Pause(time), false, plan)
}

/// Hands a resume to the recorder: at this time the timer starts again.
#[unsafe(no_mangle)]
pub extern "C" fn fitrec_resume_timer(handle: &mut Handle, time: u32, plan: &mut DevicePlan) -> u8
    ensures { HandsEntry (Resume time) handle.old handle.new plan.new result }
{
    hand(handle, &Entry::Resume(time), false, plan)
}

fn hand(handle: &mut Handle, entry: &Entry, plain_times: bool, plan: &mut DevicePlan) -> u8
    requires { is_stop (Added entry.now) ≡ false }
    ensures hands { HandsEntry entry.now handle.old handle.new plan.new result }
    ensures times { plain_times ≡ true → HasTime entry.now handle.old handle.new result }
{
    let mut recorder = Recorder::idle(no_files());
    if !handle.take(&mut recorder) {
        plan.clear();
        return NO_RECORDER;
    }
    let answer = recorder.hand_with(entry, plain_times);
    handle.put(&recorder, plan);
    code_of(&answer)
}

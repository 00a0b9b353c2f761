// Where the ride of a recorder in the memory of C stands.

ghost use Rattle.std.specs.Prelude.{◌≡◌};
ghost use Rattle.fit_device.specs.State.{ReportsState};

use crate::answer::NO_RECORDER;
use crate::handle::Handle;

/// What the next entry of a ride has to follow.
#[repr(C)]
#[derive(Clone, Copy)]
pub struct DeviceState {
    /// The time of the last entry, in seconds since 1989-12-31T00:00:00Z.
    pub time: u32,
    /// The last distance, in centimetres since the start, or 0 if there is none.
    pub distance: u32,
    /// How many laps were handed.
    pub laps: u16,
    /// 1 while the timer runs.
    pub running: u8,
    /// 1 after the stop.
    pub stopped: u8,
}

/// Reports where the ride of a recorder stands, such as after a reopening.
#[unsafe(no_mangle)]
pub extern "C" fn fitrec_state_of(handle: &Handle, state: &mut DeviceState) -> u8
    ensures { ReportsState handle.now state.old state.new result }
{
    if !handle.is_recorder() {
        return NO_RECORDER;
    }
    let totals = &handle.recorder.totals;
    state.time = totals.clock.end;
    state.distance = if totals.has_distance == 1 {
        totals.distance
    } else {
        0
    };
    state.laps = totals.laps;
    state.running = u8::from(totals.clock.running == 1);
    state.stopped = u8::from(totals.stopped == 1);
    0
}

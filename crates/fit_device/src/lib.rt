//! A recorder in a device whose program is written in C. `include/fitrec_device.h` documents the same calls for C.
//!
//! The device keeps the recorder as plain numbers (`handle`), and carries out the calls of its two files itself, from a plan
//! (`plan`). Nothing here takes memory, keeps state between two calls, or makes a system call.
//!
//! Proved: a step over the plan is the same step of the recorder, the numbers that C keeps are those of the recorder, and a recovery by
//! windows is a recovery. Trusted beside the kit is what C does: it keeps the numbers as they are and carries out each plan.
#![tactic(auto)]

mod answer;
mod believed;
mod by_windows;
mod files;
mod handing;
mod handle;
pub mod laws;
mod plan;
mod recovering;
mod sample;
mod seal;
mod session;
mod starting;
mod state;
mod thawed;
mod windowed;

pub use by_windows::{
    fitrec_erase_next, fitrec_recover_begin, fitrec_recover_next, fitrec_reopen_next,
};
pub use handing::{fitrec_add_lap, fitrec_add_sample, fitrec_pause_timer, fitrec_resume_timer};
pub use handle::Handle;
pub use plan::DevicePlan;
pub use recovering::{fitrec_erase, fitrec_recover, fitrec_reopen};
pub use sample::DeviceSample;
pub use session::{fitrec_session_base, fitrec_session_may, fitrec_session_offset};
pub use starting::{fitrec_commit, fitrec_start, fitrec_stop};
pub use state::{DeviceState, fitrec_state_of};
pub use windowed::RecoveryHandle;

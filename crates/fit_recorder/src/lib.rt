//! The recorder: it records a ride on a disk, and recovers what was committed after a power cut.
//!
//! `Recorder::start` begins a ride on a disk whose data file is empty. `hand` takes an entry, `commit` makes all entries so far
//! safe, and `stop` ends the ride and leaves a finished FIT file. After an answer `Device` the recorder makes no more calls.
//! Take its disk from `into_disk`, or open it again. `recover` turns the data file into a finished file of what was
//! committed. `resume` returns a recorder that continues the ride. `erase` empties the data file for another ride:
//!
//!     let mut recorder = Recorder::start(disk, Start { time, serial: 7, sport: Sport::Running })?;
//!     recorder.hand(&Entry::Lap(time + 60))?;
//!     recorder.commit()?;
//!     let mut disk = recorder.into_disk();
//!     disk.cycle(&[]); // The power goes, and comes back.
//!     let summary = recover(&mut disk)?;
//!     assert_eq!(rt; summary.laps, 2);
//!
//! This is the test `the_example_of_the_crate` of `fit_ride_tests`. The promises hold over every disk that keeps what it
//! synced. Their definitions are in `specs/`: `Files` defines what the two files stand for and what a finished file is, `Calls`
//! what each call answers and what a crash inside it may leave. `laws` has what follows from the definitions alone.
//!
//! Proved: what a recovery leaves is the finished file of a prefix of the accepted entries, with all that was committed, whatever failed
//! and whenever the power went. Trusted beside the kit is that the disk is honest.
#![tactic(auto)]

mod body;
mod changed;
mod checksums;
mod closing;
mod erasing;
mod fault;
mod finishing;
mod frozen;
mod header;
pub mod laws;
mod limits;
mod recorder;
mod recording_files;
mod recovery;
mod resuming;
mod spelling;
mod uncommitted;

pub use changed::{has_changed, has_counted_bytes, leave_changed};
pub use erasing::erase;
pub use erasing::known::erase_known;
pub use fault::RecFault;
pub use frozen::{FrozenDefinition, FrozenRecorder};
pub use limits::CLOSING_ROOM;
pub use recorder::Recorder;
pub use recovery::frozen::FrozenRecovery;
pub use recovery::windows::Recovery;
pub use recovery::{recover, settle};
pub use resuming::{FoundRide, continue_with, resume, take_up};
pub use uncommitted::count_uncommitted;

//! Scripts as they are run. `play` runs the events of a script over any `Disk`, by a `Ride`, and prints the reply to each; `record` does
//! the same with lines that come one by one. `simulate` runs a script over the memory disk, whose failures and power cuts the script
//! arranges. For example,
//!
//!     let events = read_script(alloc, b"start 1000000000 7 running\nstop 1000000001\n")?;
//!     let (disk, played) = play(Memory::new(alloc), events.as_slice(), false, &mut out);
//!     assert_eq!(rt; played, Ok(0));
//!     check_bytes(alloc, disk.content(Which::Data), &mut out)?;
//!
//! writes
//!
//!     1 start: ok
//!     2 stop: ok
//!     ok records=0 laps=1 sessions=1 start=1000000000 elapsed_ms=1000 timer_ms=1000 distance_cm=-
//!
//! (The test `the_example_of_the_crate` of `fit_runs_tests`.)
//!
//! Contracts use the definitions of `specs/`. `Rides` has what events leave of the disk, when a recording commits by itself, and what a
//! power cut may lose then (`Lost`). `Printed` has the lines of the replies.
//!
//! Proved: each line that is printed is the reply to its event, and over an honest disk what a power cut leaves at each moment of the run
//! is as a history of these replies allows. Trusted beside the kit is that the disk is honest.
#![tactic(auto)]

mod dialogue;
pub mod laws;
mod minute;
mod minutes;
mod playing;
mod recording;
mod rehearsal;
mod reply_line;
mod simulating;
mod streams;

pub use dialogue::Dialogue;
pub use minute::Minute;
pub use minutes::Minutes;
pub use playing::play;
pub use recording::{LineFault, record};
pub use rehearsal::Rehearsal;
pub use reply_line::ReplyText;
pub use simulating::{SimulateFault, simulate};
pub use streams::Streams;

//! Histories of a recording. A `Ride` runs each command over any `Disk` and replies to it; `world::run` runs events over a disk in
//! memory. The events arrange which calls fail and when the power is cut. Its contract covers all histories: whatever fails, what was
//! confirmed is recovered.
//!
//! Contracts use the definitions of `specs/`. `Histories` is the page to believe: `Table` has the states of a recording and the
//! answers that each allows, and `Runs` has whole histories. `Rides` has what is known of a ride over any disk, and its state in a
//! history. `Simulation` has what is arranged of the memory disk.
//!
//! Proved: the headline, over every list of commands, failed calls and power cuts (`world::run`). Trusted is the kit alone: the disk in
//! memory is proved to be honest, and to leave whatever a power cut can leave.
#![tactic(auto)]

mod answer;
mod asking;
mod command;
mod event;
pub mod laws;
mod reply;
mod ride;
pub mod world;

pub use answer::Answer;
pub use command::Command;
pub use event::Event;
pub use reply::Reply;
pub use ride::Ride;

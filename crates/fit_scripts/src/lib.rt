//! Scripts of a recording: text that states a command on each line.
//!
//! `parse_script` reads the events of a script, `read_script` those of one that can be replayed, and `command_at` the command of one
//! line. `read_choices` reads the bytes that decide what a simulated power cut leaves.
//!
//! Contracts use the definitions of `specs/Scripts`: `Script` has the lines and the command of each, and `Faults`
//! what is wrong with a line.
//!
//! Proved: a line states a command exactly by the definitions, and any other line is refused with the first fault of its words. Trusted is
//! the kit alone.
#![tactic(auto)]

mod choices;
mod script;

pub use choices::read_choices;
pub use script::{
    ReplayFault, ScriptFault, ScriptFaultKind, command_at, parse_script, read_script,
};

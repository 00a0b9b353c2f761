// Scripts: the commands to a recording, one on each line.

mod command;
mod fault;
mod number;
mod parse;
mod replayed;
mod sample;
mod words;

pub use fault::{ReplayFault, ScriptFault, ScriptFaultKind};
pub use parse::{command_at, parse_script};
pub use replayed::read_script;

// An event of a script.

use crate::command::Command;

/// A command, and the number of its line, from 1.
#[derive(Clone, Copy, Debug, PartialEq, Eq)]
pub struct Event {
    pub line: usize,
    pub command: Command,
}

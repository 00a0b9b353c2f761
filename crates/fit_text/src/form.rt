// The lines of a file.

pub(crate) mod column;
mod developer;
pub(crate) mod file;
pub(crate) mod header;
mod message;
pub(crate) mod plan;
mod plans;

//! A file whose clock was wrong: every time in it moved by the same number of seconds.
//!
//! `shift_bytes` reads a file, makes its plain form, and moves its times by a `Shift`: field 253 of each message, and the fields that hold a
//! time by the Profile, in UTC or of the place. A file with a time that cannot be moved is refused with the place of its message.
//! `ShiftBy` says by how many seconds, or at which time the ride is to begin; `start_of` finds when it does. `find_stuck` and
//! `shift_plain` do the same in buffers, without memory.
//!
//! Contracts use the definitions of `specs/`: `Times` has the fields that hold times, `Moved` a message whose times are moved, `Stuck` the
//! message that cannot be, `Start` the beginning, and `Shifted` what becomes of the bytes of a file.
//!
//! Proved: the messages of the result are those of the file with exactly these fields moved by exactly this number, or the refusal names
//! the first message that cannot be. Trusted is the kit alone.
#![tactic(auto)]

mod bytes;
mod checking;
mod content;
mod file;
mod plain;
mod shift;
mod start;
mod times;

pub use bytes::{ShiftBy, shift_bytes};
pub use checking::find_stuck;
pub use file::ShiftFault;
pub use plain::shift_plain;
pub use shift::Shift;
pub use start::start_of;

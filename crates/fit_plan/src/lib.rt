//! A disk that writes its calls down, for a host that carries them out.
//!
//! The two files are elsewhere, such as in the flash of a watch. A recorder over a `Plan` makes its calls of the disk as ever. The
//! plan answers them at once and keeps writes, cuts and syncs, with their bytes, in order. A host in C carries them out before it
//! makes the next step (`Calls`). The plan is an honest disk: its story is that of the files after each planned call was carried
//! out (`specs/Planned`). `laws` says what a host leaves that was cut off in between.
//!
//! It knows the length of the data file, and no content. So every read fails, and so does the length of the journal. A recovery reads
//! the journal first, over a `LentJournal`, which plans nothing.
//!
//! Proved: the plan is an honest disk, and a host that is cut off inside it leaves what a disk may leave after a power cut. Trusted is that
//! a host carries out a plan in order and syncs what it says.
#![tactic(auto)]

mod calls;
mod journal;
pub mod laws;
mod plan;

pub use calls::{Call, Calls, MOST_BYTES, MOST_CALLS};
pub use journal::LentJournal;
pub use plan::Plan;

//! What is done with the two files of a recording: its ride is saved as a FIT file, or they are repaired where they are.
//!
//! `save_ride` makes the plain form of the ride's finished file of both files in memory, and `Lack` says what they lack if nothing is
//! recorded. `repair` finishes the recording of a disk, and `repair_and_read` reads it once more.
//!
//! Proved: what is saved is the plain form of the file that a recovery leaves, and it has the checksum that the journal states
//! (`specs/Saved`). A repair leaves what a recovery leaves, at each moment, over any disk that is honest, and prints its summary
//! (`specs/Repaired`). `laws` has what follows from the definitions alone. Trusted is nothing beyond the crates below.
#![tactic(auto)]

mod lack;
pub mod laws;
mod repairing;
mod saving;

pub use lack::Lack;
pub use repairing::{FileSums, RepairFault, repair, repair_and_read};
pub use saving::{SaveFault, SavedRide, save_ride};

//! The disk under a recording: two files, what reads of them give, and what a power cut may leave.
//!
//! `Disk` is the trait: an honest disk keeps what it has synced (`specs/Calls`, `Stored`). `Memory` is one whose failures and power cuts
//! are scheduled, `Files` the two files of a folder, whose answers a `Witness` judges, and `Buffers` two buffers of the caller, which take
//! no memory and open no files: a page in a browser and a C program recover a ride in them.
//!
//!     let mut disk = Buffers::new(&mut data, data_len, &mut journal, journal_len);
//!     let summary = recover(&mut disk)?;
//!     let finished = disk.content(Which::Data);
//!
//! A disk whose files contracts do not see keeps a `Notes`: the story of both files, to which it notes each call once it is done
//! (`specs/Noted`).
//!
//! Proved: memory and buffers are honest, and no cut leaves what `Left` does not allow. Trusted beside the kit: what the system's calls do
//! to real files, as far as a witness does not see it.
#![tactic(auto)]

mod buffers;
mod call_counts;
mod call_schedule;
mod content;
mod disk;
mod event;
mod files;
mod memory;
mod memory_file;
mod note;
mod notes;
mod ranges;
mod recorded;
mod reported;
mod shadow;
mod store;
mod witness;

pub use buffers::Buffers;
pub use call_counts::CallCounts;
pub use content::copy_from;
pub use disk::{DeviceError, Disk, Which};
pub use files::{DATA_NAME, Files, JOURNAL_NAME, OpenFault, is_one_missing, lock};
pub use memory::Memory;
pub use note::Note;
pub use notes::Notes;
pub use recorded::{CAPITAL_DATA_NAME, CAPITAL_JOURNAL_NAME, open_to_read};
pub use shadow::Shadow;
pub use witness::{Trusting, Witness};

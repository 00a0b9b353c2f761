//! Files by name, and one file of a folder replaced whole or not at all, over any place for files.
//!
//! `Place` is the trait: what its calls do to the names of a folder and to the files behind them, and what a power cut may leave of both
//! (`specs/Folder`, `FolderStory`, `Calls`). `RealPlace` is one over the system, `MemoryPlace` one in memory, whose failures and power cuts
//! are planned. `replace` writes a `Content` beside a file and moves it there. `NamedFiles` is the trait over which commands are proved: what
//! the file of each name holds, how it is opened, and how it is replaced (`specs/NamedFiles`). `SystemFiles` are those of the system;
//! `MemoryPlace` is one too.
//!
//! Proved, over any honest place: at every moment, and after a power cut at any of them, the name has all of what it had or all of the new
//! content (`specs/Replaced`). The place in memory is honest. Its story is kept as notes (`specs/Noted`). Trusted beside the kit: what the
//! system's calls do.
#![tactic(auto)]

mod call_plan;
mod content;
mod folder_note;
mod folder_notes;
mod memory;
mod memory_folder;
mod named;
mod place;
mod real;
mod replacing;
mod stored_thing;

pub use content::Content;
pub use memory::{Left, MemoryPlace};
pub use named::{NamedFiles, SystemFiles};
pub use place::{Kind, Place, PlaceFault};
pub use real::RealPlace;
pub use replacing::replace;

//! What the subcommands of the program do with files and folders.
//!
//! Each has a file, which opens what it needs and leaves the bytes to `fit_files`. They share `input`, which opens and reads a file,
//! `folder`, which opens the files of a recording, and `beside`, which writes a file whole or not at all. `chosen` has what words
//! choose for a table, `each` what is done with several files, and `fault` the line that reports an error.
//!
//! Contracts use the definitions of `specs/`: `Reading` has what is read of a file and the faults of one that is not read, `Faults` has
//! those of each library call and subcommand, `Reported` has what a subcommand makes and prints, `Written` has how it writes that and which
//! fault comes first, and `Shifted` and `JoinedFile` have all of `shift` and `join`.
//!
//! Proved over any `NamedFiles`: what each subcommand prints of the bytes of the files that are named, what the file OUT then holds, and
//! which fault it reports. `repair`, `replay` and `record` work on the system, under a witness; which calls they make on a folder is not
//! proved, and `compare/` checks it. Trusted is the system: that `SystemFiles` opens and writes the files of the names.
#![tactic(auto)]

mod beside;
mod check;
mod chosen;
mod content;
mod each;
mod export;
mod fault;
mod finish;
mod folder;
mod input;
mod join;
mod like;
mod plain;
mod record;
mod repair;
mod replay;
mod salvage;
mod save;
mod shift;
mod show;
mod simulate;
mod split;
mod table;
mod version;

pub use check::check_file;
pub use chosen::{Chosen, NotChosen};
pub use each::{check_each, table_each};
pub use export::export_file;
pub use fault::Fault;
pub use folder::open_folder;
pub use input::{fault_of_report, read_file};
pub use join::join_parts;
pub use like::Like;
pub use plain::make_plain;
pub use record::{record_files, record_folder};
pub use repair::{repair_files, repair_folder, repair_holding, verify_folder, verify_read};
pub use replay::{replay_files, replay_script};
pub use salvage::salvage_file;
pub use save::save_folder;
pub use shift::{NotShift, make_shifted, shift_by};
pub use show::show_file;
pub use simulate::simulate_script;
pub use split::split_file;
pub use table::{table_file, table_of_all};
pub use version::print_version;

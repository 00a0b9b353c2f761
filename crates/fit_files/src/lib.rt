//! What is done with a FIT file: it is shown, exported, checked, made plain or salvaged.
//!
//! `decode_input` reads a file from an input. `show_input` and `check_input` print its text or its summary; `show_bytes` and
//! `check_bytes` take its bytes, and `sum_up_input` gives the summary without printing it. `export_input` prints it as JSON or its track
//! as GPX, `table_input` its table, and `print_checked` what is said of one of several files. `plain_input` makes the plain form.
//! `read_all` reads a whole input, and `read_front` what can be read of it. `salvage_bytes` finds the readable part of a file that has no
//! journal; `skip_bytes` goes on after its faults, in the bytes that `look_at` finds, and `Kept` is what either keeps, and prints its
//! lines. `print_part` prints the line of a file that was chained with others.
//!
//! Proved: what is printed of which bytes (`specs/Printed`, `specs/Exports`), what is read of an input, and which number a fault has
//! (`specs/Calls`). Trusted is that an input and an output keep the contracts of `Read` and `Write`.
#![tactic(auto)]

mod checking;
mod decoding;
mod export;
mod fault;
mod kept;
mod looking;
mod mended;
mod mended_lines;
mod parts;
mod plain;
mod printing;
mod reading;
mod salvage;
mod salvaging;
mod showing;
mod skipping;
mod summary;

pub use checking::{check_bytes, check_input, sum_up_input};
pub use decoding::decode_input;
pub use export::{
    ExportForm, Held, export_input, print_checked, table_head, table_held_input, table_input,
};
pub use fault::ReportFault;
pub use kept::{Heard, Kept};
pub use looking::{Looked, look_at};
pub use mended::Mended;
pub use parts::print_part;
pub use plain::{count_messages, plain_input, print_messages};
pub use printing::{flush, print, print_summary, put_line};
pub use reading::{CHUNK, FrontRead, ReadFault, read_all, read_front, read_piece};
pub use salvage::Salvage;
pub use salvaging::salvage_bytes;
pub use showing::{show_bytes, show_input};
pub use skipping::skip_bytes;
pub use summary::SummaryLine;

//! The values of fields in units: those of the messages of one number as lines of comma-separated values (CSV, RFC 4180), and all as JSON.
//!
//! A `Layout` says which messages are lines, and which fields and developer fields are columns. `write_table` writes the first line, which
//! names the columns, and a line for each message. `write_head` and `write_lines` write them apart, for a table of many files. `Unit` is
//! what a number counts; its digits come from whole numbers, and those of a float from `ryu`. `message_of_word` and `field_of_word` find
//! what a word names. `show_profile_json` writes a whole file as JSON, each field as its column is, and `write_gpx` the track of its
//! records as GPX.
//!
//! Proved: each line is that of its message, each cell the value in its unit, and JSON and GPX those of the file; a float reads back as
//! itself. Trusted is the kit, also that its `ryu` writes the shortest digits.
#![tactic(auto)]

mod array;
mod cell;
mod commas;
mod described;
mod float;
mod gpx;
mod json;
mod layout;
mod lookup;
mod named;
mod number;
mod stated;
mod string;
mod table;
mod unit;
mod walk;
mod wide;
mod words;

pub use float::{put_float32, put_float64};
pub use gpx::write_gpx;
pub use json::show_profile_json;
pub use layout::{DeveloperColumns, Layout};
pub use named::MOST_NAMES;
pub use table::{write_head, write_lines, write_table};
pub use unit::Unit;
pub use words::{field_of_word, message_of_word};

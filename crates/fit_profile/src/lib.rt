//! The public FIT Profile: the messages and fields that the format's own kit names, with units and scales.
//!
//! `message_name`, `fields_of` and `row_by` look a message and its fields up. What is marked as known without `--profile` stands apart, so
//! that a program can have it without the rest: `known_name`, `known_row`, `usual_fields` and `times_of` look it up. The tables (`table`
//! with `specs/Table`, `known` with `specs/Known`) are made by `make` from python/fitrec/profile.txt, which says where its facts come from.
//! `parts_of` says how the numbers of a scale are written.
//!
//! Proved: each call answers what its table has. Trusted beside the kit is that the table has the facts of the Profile;
//! `compare/profiles.py` compares it with its source.
#![tactic(auto)]

mod known;
mod row;
mod scale;
mod table;

pub use known::{known_name, times_of, usual_fields};
pub use row::{FieldRow, known_row, row_by};
pub use scale::{Parts, Scale, parts_of};
pub use table::{fields_of, message_name};

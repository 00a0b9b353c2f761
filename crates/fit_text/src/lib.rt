//! The messages of a FIT file as text: a line for its header, a line for each message, and a line that counts them.
//!
//! `show` writes the text of a file, in one pass and without allocation. Times are numbers, or dates on request:
//!
//!     let mut file = File::new(alloc, frame);
//!     file.define(&Definition { local: 0, arch: Arch::Little, global: 0, fields, developer: ArrayVec::new() })?;
//!     file.data(0, None, &[4, 0x00, 0xCA, 0x9A, 0x3B])?;
//!     show(&file.lend(), true, &mut out)?;
//!
//! writes
//!
//!     header 14 protocol 1.0 profile 100 data 18
//!     0 file_id type=4 time_created=2021-09-08T01:46:40Z
//!     messages 1
//!
//! (The test `the_example_of_the_crate` of `fit_format_tests`.) The names of messages and fields are those that `fit_profile` marks as
//! known. The text goes through the buffer of a `Pen` (`writing`).
//!
//! A `Form` says how messages and fields are written, and a `Notation` in which words; `write_file` is the one walk over a file, and
//! `put_values` the one way to write the values of a field. `show_json` is a second form. Contracts use the definitions in `specs/`:
//! `Notation` and `Values` have how values are written, `Form` the lines of a file, `Text` and `Json` the two forms, `Date` the dates, and
//! `Pen` what a pen puts. `Plan` is only for private functions, proofs, and forms.
//!
//! Proved: the text of a file is exactly that of its messages, each value as `Values` has it. Trusted is the kit alone.
#![tactic(auto)]

mod form;
mod json;
mod notation;
mod text;
mod value;
mod writing;

pub use form::file::{Form, ShowFault, write_file};
pub use form::plan::{Column, Plan};
pub use json::{put_developer_bytes, put_developer_key, put_json_head, put_json_string, show_json};
pub use notation::{Notation, json_notation};
pub use text::show;
pub use value::date::{put_date, put_marked_date};
pub use value::number::Numbers;
pub use value::put_values;
pub use writing::Pen;

//! One activity of several files: the halves of a ride whose device stopped and began a new file.
//!
//! `put_in_order` puts the parts in the order of their times, and `first_misfit` finds the first that has another sport than those before
//! it, or begins before one of them ends. `write_joined` takes files without compressed timestamps, in their order, and writes one file of
//! their messages, without the sessions, activity messages and laps that only sum up one of them. Distances go on from file to file, laps
//! are numbered in turn, and between two files the timer stands. Developer data of two makers has two indices. Where only sessions and laps state
//! the sport, a sport message does so at the end. It takes no memory, and is given the size of the records, which `write_joined_records` writes
//! alone. What the whole activity then lacks at its end, `fit_finishing` adds.
//!
//! Contracts use the definitions of `specs/`: `Order` has the order of the parts, `Compared` what is compared of them, `Makers` the indices
//! of developer data, `Part` what becomes of the messages of one file, `Timer` what stands between two, `Joined` the messages of all, and
//! `JoinedItems` the items that they are written as.
#![tactic(auto)]

mod content;
mod join;
mod laps;
mod maker;
mod makers;
mod misfit;
mod order;
mod part;
mod span;
mod sport;
mod tally;
mod timer;

pub use join::{write_joined, write_joined_records};
pub use misfit::{Misfit, MisfitKind, first_misfit};
pub use order::{first_time, put_in_order};
pub use part::{Part, is_plain};

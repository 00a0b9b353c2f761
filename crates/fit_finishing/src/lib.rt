//! What an activity of any maker lacks: a file_id, and the messages that a recorder would close it with.
//!
//! `Finishing` takes a file whose file_id, laps, session or activity message are missing. It hears the entries of a ride from the messages,
//! whoever wrote them: samples by the table of fields, the events of the timer, and laps. An entry that a rule refuses is left out and
//! counted. The totals are those of the list so heard, and the messages those that a recorder writes, with the sport of the file, cadence and
//! ascent in the session, and the number of sessions in the activity message; what the file has is not written again.
//!
//! Contracts use the definitions of `specs/`: `Entries` has the entry of a message, `Heard` the list of all of them, `Effort` their cadence
//! and ascent, `Sports` the sport of a file, `Details` how messages state these, and `Finished` the messages that are added.
//!
//! Proved: the messages that are added are those that a recorder writes for the list so heard, but for these details. Which message of
//! another maker is an entry is a definition to believe (`Entries`). Trusted is the kit alone.
#![tactic(auto)]

mod adding;
mod climb;
mod closing;
mod details;
mod effort;
mod entries;
mod finishing;
mod hearing;
mod ride;
mod sport;

pub use finishing::{FinishFault, Finishing};
pub use sport::{SportStated, first_sport, stated_sport};

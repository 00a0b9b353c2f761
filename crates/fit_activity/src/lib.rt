//! Activities: the entries of a recording, the rules for them, what they add up to, and their messages.
//!
//! `Totals` takes a start and entries, refuses those that break a rule, and keeps what they add up to. `speak` and `speak_compressed` make
//! the message of an entry, `entry_of` and `Replay` hear it again, and `closing_messages` makes those that end a ride. `check_activity`
//! sums a file up.
//!
//! Proved: an entry is refused exactly by the rules of `specs/Rides/Refusal`; the totals are those of the list; a message that was spoken
//! is heard as the entry that it states, and messages come from one list at most. Trusted is the kit alone.
#![tactic(auto)]

mod activity;
mod fields;
mod hearing;
pub mod laws;
mod recording;
mod replay;
mod speaking;
mod totals;

pub use activity::checking::check_activity;
pub use activity::{ActivityFault, Summary};
pub use fields::{FIELDS, SAMPLE_FIELDS, SampleField};
pub use hearing::{entry_of, file_id_of, sport_of};
pub use recording::entry::{Entry, Sample};
pub use recording::refusal::Refusal;
pub use recording::start::{Sport, Start};
pub use replay::frozen::FrozenReplay;
pub use replay::{NotNext, Replay};
pub use speaking::speech::{Speech, SpokenMessage};
pub use speaking::{
    speak, speak_closing, speak_closing_with, speak_compressed, speak_file_id, speak_start,
    speak_with,
};
pub use totals::Totals;
pub use totals::frozen::{FrozenClock, FrozenSums, FrozenTally, FrozenTotals};
pub use totals::summary::{ActivitySummary, LapSummary, SessionSummary, Stretch};

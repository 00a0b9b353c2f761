// A file as JSON in the names and the units of the Profile.

mod developer;
mod file;
mod known;
mod member;
mod number;
mod units;

pub use file::show_profile_json;

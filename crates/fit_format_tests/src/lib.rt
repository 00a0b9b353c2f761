//! Tests of the base types, the grammar, the moved times and the text of files, by the public calls of their crates. They are in a crate
//! above those, so that no library is proved again with its tests.
#![tactic(auto)]

#[cfg(test)]
mod base;
#[cfg(test)]
mod definitions;
#[cfg(test)]
mod equality;
#[cfg(test)]
mod grammar;
#[cfg(test)]
mod known_files;
#[cfg(test)]
mod shifting;
#[cfg(test)]
mod slow;
#[cfg(test)]
mod text;

//! Tests of the disk, of the disk over two buffers, and of the journal, by their public calls. They are in a crate above those, so that
//! no library is proved again with its tests.
#![tactic(auto)]

#[cfg(test)]
mod buffers;
#[cfg(test)]
mod disk;
#[cfg(test)]
mod equality;
#[cfg(test)]
mod journal;
#[cfg(test)]
mod journal_adopted;
#[cfg(test)]
mod journal_checked;

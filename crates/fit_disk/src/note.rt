// What is noted of a disk's calls.

use crate::Which;

/// What a call of a disk did to a file, at a place or with a length.
#[derive(Clone, Copy, Debug, PartialEq, Eq)]
pub enum Note {
    /// The file was found with these bytes, and all of them are kept.
    Found(Which),
    /// The bytes were written at this place.
    Written(Which, u64),
    /// There was no room for the bytes at this place. The write counts as begun.
    Refused(Which, u64),
    /// The file was cut to this length.
    Cut(Which, u64),
    /// All that reads give of the file is kept.
    Synced(Which),
    /// Nothing was done. The story so far is remembered.
    Mark,
}

// The sizes of a recording and its parts, in bytes.

// The header of the data file.
pub(crate) const HEADER: usize = 14;

// The most bytes of a body, and the most without its stop. The difference leaves room for the stop and the closing messages.
pub(crate) const MOST_RECORDS: u32 = 16_777_216;

pub(crate) const MOST_BEFORE_STOP: u32 = 16_776_704;

// The longest entry with its definition, and so the longest item.
pub(crate) const LONGEST_ITEM: usize = 96;

// The longest header and messages of a start.
pub(crate) const LONGEST_FRONT: usize = 86;

/// The most bytes that a recovery writes after the body: 252 for the closing messages with their definitions, and 2 for the
/// checksum.
pub const CLOSING_ROOM: usize = 254;

// The page: the last records, which a recorder keeps in memory before it writes them.
pub(crate) const PAGE: usize = 512;

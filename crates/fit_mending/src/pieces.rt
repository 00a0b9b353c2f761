// What is kept of damaged bytes, and what is left out.

/// Bytes from one place to another, which are kept or left out.
#[derive(Clone, Copy, Debug, PartialEq, Eq)]
pub struct Piece {
    /// The place of the first byte.
    pub start: usize,
    /// The place after the last byte.
    pub end: usize,
    /// Whether the bytes are kept, as a row of whole items.
    pub kept: bool,
}

/// What is kept of damaged bytes.
#[derive(Drop)]
pub struct Skipped {
    /// The definitions that are known before the bytes, and then the bytes of the kept pieces, one after another.
    pub row: Vec<u8>,
    /// How many bytes of the row were known before.
    pub known: usize,
    /// The pieces of all bytes, one after another.
    pub pieces: Vec<Piece>,
    /// Of each piece that is left out and has another ride, when that starts, in seconds since 1989-12-31 00:00 UTC.
    pub others: Vec<Option<u32>>,
    /// At how many items it looked ahead.
    pub looks: u64,
}

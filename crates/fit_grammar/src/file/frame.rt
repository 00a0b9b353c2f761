/// What a file's header gives beside the length of its records.
#[derive(Clone, Copy, Debug, PartialEq, Eq)]
pub struct Frame {
    /// The number of bytes of the header: 12, or 14 with a checksum of the header.
    pub header_size: u8,
    /// The protocol version: the major number, 1 or 2, in the high four bits, and the minor number in the low four.
    pub protocol: u8,
    /// The profile version: the major number times 100, plus the minor number.
    pub profile: u16,
}

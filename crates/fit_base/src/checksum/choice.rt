// How large the tables of the checksums are.

// With all tables, of 8 KiB and 16 KiB, they take sixteen bytes at a time. Else a file's checksum takes one byte with its first table,
// of 512 bytes, and CRC-32 half a byte with one of 64.
pub(crate) const HAS_ALL_TABLES: bool = true;

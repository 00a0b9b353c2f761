// What was read of a file so far, between two pieces.

use crate::file::{File, Places};
use arrayvec::ArrayVec;
use fit_base::Crc;

// A file after its header.
#[derive(Drop)]
pub(crate) struct Reading {
    pub(crate) file: File,
    // The places of its items.
    pub(crate) places: Places,
    // The place after the items so far, and the place after all the records.
    pub(crate) at: usize,
    pub(crate) end: usize,
    // The checksum of the header and the records so far.
    pub(crate) checksum: Crc,
    // The bytes of an unfinished item.
    pub(crate) carry: Vec<u8>,
    // The bytes of the closing checksum so far.
    pub(crate) closing: ArrayVec<u8, 2>,
}

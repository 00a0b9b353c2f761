// Files, and bytes that are not files, with faults and places from outside. The checksums were computed by another
// program, bit by bit.

use crate::equality::equal;
use crate::grammar::pieces::written;
use crate::known_files::{EMPTY, FILE_ID};
use fit_grammar::{FaultKind, FileFault, decode_file};
use std::alloc::{AllocError, Global};
use std::test::*;

// A header of 12 bytes, with protocol 2.0.
const SHORT_HEADER: [u8; 14] = [
    0x0C, 0x20, 0x64, 0x00, 0x00, 0x00, 0x00, 0x00, 0x2E, 0x46, 0x49, 0x54, 0x27, 0x29,
];

// A local number that is defined twice.
pub(crate) const REDEFINED: [u8; 39] = [
    0x0E, 0x10, 0x64, 0x00, 0x17, 0x00, 0x00, 0x00, 0x2E, 0x46, 0x49, 0x54, 0x61, 0x04, 0x40, 0x00,
    0x00, 0x14, 0x00, 0x01, 0x03, 0x01, 0x02, 0x00, 0x64, 0x40, 0x00, 0x00, 0x14, 0x00, 0x01, 0x07,
    0x02, 0x84, 0x00, 0xC8, 0x00, 0x83, 0x25,
];

// Messages with compressed timestamps.
pub(crate) const COMPRESSED: [u8; 53] = [
    0x0E, 0x10, 0x64, 0x00, 0x25, 0x00, 0x00, 0x00, 0x2E, 0x46, 0x49, 0x54, 0xE3, 0xC9, 0x46, 0x00,
    0x00, 0x15, 0x00, 0x03, 0xFD, 0x04, 0x86, 0x00, 0x01, 0x00, 0x01, 0x01, 0x00, 0x06, 0x00, 0xCA,
    0x9A, 0x3B, 0x00, 0x00, 0x40, 0x00, 0x00, 0x14, 0x00, 0x01, 0x03, 0x01, 0x02, 0x80, 0x64, 0x9F,
    0x65, 0x80, 0x66, 0x18, 0xCC,
];

pub(crate) fn outcome(alloc: Global, bytes: &[u8]) -> Option<(FaultKind, usize)> {
    match decode_file(alloc, bytes) {
        Ok(_) => None,
        Err(fault) => Some((fault.kind, fault.place)),
    }
}

// The file with these bytes at these places.
pub(crate) fn edited(alloc: Global, edits: &[(usize, u8)]) -> Result<Vec<u8>, AllocError> {
    let mut bytes = FILE_ID.to_vec(alloc)?;
    for (at, byte) in edits {
        if let Some(cell) = bytes.get_mut(*at) {
            *cell = *byte;
        }
    }
    Ok(bytes)
}

pub(crate) fn after_header(alloc: Global, size: u8, records: &[u8]) -> Result<Vec<u8>, AllocError> {
    let mut bytes = [
        0x0C, 0x10, 0x64, 0x00, size, 0x00, 0x00, 0x00, 0x2E, 0x46, 0x49, 0x54,
    ]
    .to_vec(alloc)?;
    bytes.extend_from_slice(records)?;
    Ok(bytes)
}

// Files, each with the size of its data.
static FILES: [(&'static [u8], u32); 5] = [
    (&EMPTY, 0),
    (&SHORT_HEADER, 0),
    (&FILE_ID, 18),
    (&REDEFINED, 23),
    (&COMPRESSED, 37),
];

#[test]
fn files_are_read(rt: HostRuntime) -> Result<(), FileFault> {
    for (bytes, size) in FILES {
        let file = decode_file(rt.alloc(), bytes)?;
        equal(&rt, file.data_size(), size);
    }
    Ok(())
}

#[test]
fn what_is_read_is_written_again(rt: HostRuntime) -> Result<(), Fail> {
    for (bytes, _) in FILES {
        let file = decode_file(rt.alloc(), bytes)?;
        equal(&rt, written(rt.alloc(), &file)?.as_slice(), bytes);
    }
    Ok(())
}

#[test]
fn a_beginning_is_cut_short(rt: HostRuntime) {
    for len in 0..FILE_ID.len() {
        let fault = outcome(rt.alloc(), &FILE_ID[..len]);
        equal(&rt, fault, Some((FaultKind::Truncated, len)));
    }
}

// A byte of a file, what stands there instead, and why the file is refused.
static WRONG: [((usize, u8), (FaultKind, usize)); 3] = [
    ((27, 0x05), (FaultKind::FileCrc, 32)),
    ((12, 0xA0), (FaultKind::HeaderCrc, 12)),
    ((9, 0x00), (FaultKind::Magic, 8)),
];

// A file with one byte more.
pub(crate) fn longer(alloc: Global) -> Result<Vec<u8>, AllocError> {
    let mut bytes = FILE_ID.to_vec(alloc)?;
    bytes.push(0)?;
    Ok(bytes)
}

#[test]
fn one_byte_is_wrong(rt: HostRuntime) -> Result<(), AllocError> {
    for (edit, fault) in WRONG {
        let bytes = edited(rt.alloc(), &[edit])?;
        equal(
            &rt,
            (edit, outcome(rt.alloc(), &bytes)),
            (edit, Some(fault)),
        );
    }
    let fault = outcome(rt.alloc(), &longer(rt.alloc())?);
    equal(&rt, fault, Some((FaultKind::TrailingBytes, 34)));
    Ok(())
}

#[test]
fn a_header_without_its_checksum(rt: HostRuntime) -> Result<(), AllocError> {
    let alloc = rt.alloc();
    let old = edited(alloc, &[(12, 0), (13, 0)])?;
    equal(&rt, outcome(alloc, &old), Some((FaultKind::FileCrc, 32)));
    let right = edited(alloc, &[(12, 0), (13, 0), (32, 0x74), (33, 0x55)])?;
    equal(&rt, outcome(alloc, &right), None);
    Ok(())
}

// The size of the data, the bytes after the header, and why they are refused.
static RECORDS: [(u8, &[u8], (FaultKind, usize)); 6] = [
    (1, &[0x05, 0x00, 0x00], (FaultKind::UndefinedLocal(5), 12)),
    (1, &[0x40], (FaultKind::SplitMessage, 12)),
    (9, &[0x40], (FaultKind::Truncated, 13)),
    (7, &[0x60], (FaultKind::Truncated, 13)),
    (8, &[0x40, 0, 0, 0, 0, 1], (FaultKind::SplitMessage, 12)),
    (9, &[0x40, 0, 0, 0, 0, 1], (FaultKind::Truncated, 18)),
];

// The beginnings of headers, and why they are refused.
static HEADERS: [(&[u8], (FaultKind, usize)); 3] = [
    (&[], (FaultKind::Truncated, 0)),
    (&[0x0D], (FaultKind::HeaderSize, 0)),
    (&[0x0E, 0x30], (FaultKind::Protocol, 1)),
];

#[test]
fn refused_at_the_first_byte_that_shows_it(rt: HostRuntime) -> Result<(), AllocError> {
    for (bytes, fault) in HEADERS {
        let reported = outcome(rt.alloc(), bytes);
        equal(&rt, (bytes, reported), (bytes, Some(fault)));
    }
    for (size, records, fault) in RECORDS {
        let bytes = after_header(rt.alloc(), size, records)?;
        let reported = outcome(rt.alloc(), &bytes);
        equal(&rt, (records, size, reported), (records, size, Some(fault)));
    }
    Ok(())
}

// A header that promises much.
pub(crate) static PROMISED: [u8; 12] = [
    0x0C, 0x10, 0x64, 0x00, 0xFF, 0xFF, 0xFF, 0xFF, 0x2E, 0x46, 0x49, 0x54,
];

// Run with each allocation refused in turn: the fault is at the item that needed it. A header that promises much
// makes no request.
#[test]
fn reports_which_item_wants_memory(rt: HostRuntime) {
    for _ in 0..8 {
        if let Some((kind, place)) = outcome(rt.alloc(), &FILE_ID) {
            equal(&rt, kind, FaultKind::Memory);
            assert!(rt; place == 14 || place == 26, "{place}");
        }
        let fault = outcome(rt.alloc(), &PROMISED);
        equal(&rt, fault, Some((FaultKind::Truncated, 12)));
    }
}

// Files with each compressed timestamp written out. The bytes are from outside.

use crate::equality::equal;
use crate::grammar::pieces::written;
use crate::slow::Slow;
use arrayvec::ArrayVec;
use fit_base::{Arch, Crc};
use fit_grammar::{
    Decoder, Definition, DeveloperFieldDefinition, EncodeFault, FaultKind, FieldDefinition, File,
    FileFault, Frame, LentFile, Places, PlainFault, PlainFaultKind, plain_file,
    write_plain_records,
};
use std::alloc::{AllocError, Global};
use std::process::Abort;
use std::test::Fail;

// A message with a full time, and two messages of another local number with offsets 30 and 1.
const COMPRESSED: [u8; 47] = [
    0x0E, 0x10, 0x64, 0x00, 0x1F, 0x00, 0x00, 0x00, 0x2E, 0x46, 0x49, 0x54, 0x60, 0xA2, 0x40, 0x00,
    0x00, 0x14, 0x00, 0x02, 0xFD, 0x04, 0x86, 0x03, 0x01, 0x02, 0x00, 0x00, 0xCA, 0x9A, 0x3B, 0x64,
    0x41, 0x00, 0x00, 0x14, 0x00, 0x01, 0x03, 0x01, 0x02, 0xBE, 0x65, 0xA1, 0x66, 0xA9, 0xA1,
];

// The same messages, the last two under a definition that has field 253.
const PLAIN: [u8; 67] = [
    0x0E, 0x10, 0x64, 0x00, 0x33, 0x00, 0x00, 0x00, 0x2E, 0x46, 0x49, 0x54, 0x62, 0xEF, 0x40, 0x00,
    0x00, 0x14, 0x00, 0x02, 0xFD, 0x04, 0x86, 0x03, 0x01, 0x02, 0x00, 0x00, 0xCA, 0x9A, 0x3B, 0x64,
    0x41, 0x00, 0x00, 0x14, 0x00, 0x01, 0x03, 0x01, 0x02, 0x41, 0x00, 0x00, 0x14, 0x00, 0x02, 0xFD,
    0x04, 0x86, 0x03, 0x01, 0x02, 0x01, 0x1E, 0xCA, 0x9A, 0x3B, 0x65, 0x01, 0x21, 0xCA, 0x9A, 0x3B,
    0x66, 0xC8, 0x43,
];

// An offset of 3 in a message with a developer field, and a definition that announces developer fields and has none.
const DEVELOPER: [u8; 41] = [
    0x0E, 0x10, 0x64, 0x00, 0x19, 0x00, 0x00, 0x00, 0x2E, 0x46, 0x49, 0x54, 0xE0, 0x88, 0x60, 0x00,
    0x00, 0x14, 0x00, 0x01, 0x03, 0x01, 0x02, 0x01, 0x00, 0x02, 0x00, 0x83, 0x64, 0xAB, 0xCD, 0x61,
    0x00, 0x00, 0x14, 0x00, 0x00, 0x00, 0x01, 0x46, 0x84,
];

// The same messages. The first is under a definition that has field 253; the second definition announces nothing.
const PLAIN_DEVELOPER: [u8; 60] = [
    0x0E, 0x10, 0x64, 0x00, 0x2C, 0x00, 0x00, 0x00, 0x2E, 0x46, 0x49, 0x54, 0x23, 0xA3, 0x60, 0x00,
    0x00, 0x14, 0x00, 0x01, 0x03, 0x01, 0x02, 0x01, 0x00, 0x02, 0x00, 0x60, 0x00, 0x00, 0x14, 0x00,
    0x02, 0xFD, 0x04, 0x86, 0x03, 0x01, 0x02, 0x01, 0x00, 0x02, 0x00, 0x00, 0x03, 0x00, 0x00, 0x00,
    0x64, 0xAB, 0xCD, 0x41, 0x00, 0x00, 0x14, 0x00, 0x00, 0x01, 0x36, 0x8F,
];

// The plain form of these bytes, or its fault; None if the bytes are not a file.
fn made(alloc: Global, bytes: &[u8]) -> Option<Result<File, PlainFault>> {
    let mut decoder = Decoder::new(alloc);
    let _ = decoder.feed(bytes);
    match decoder.finish_with_places() {
        Ok((file, places)) => Some(plain_file(alloc, &file, &places)),
        Err(_) => None,
    }
}

// Files, and the same messages with their times written out.
static FILES: [(&'static [u8], &'static [u8]); 3] = [
    (&COMPRESSED, &PLAIN),
    (&PLAIN, &PLAIN),
    (&DEVELOPER, &PLAIN_DEVELOPER),
];

#[test]
fn times_are_written_out(rt: HostRuntime) -> Result<(), EncodeFault> {
    for (bytes, wanted) in FILES {
        let plain = made(rt.alloc(), bytes).expect(&rt, "a file");
        let plain = plain.ok().expect(&rt, "a plain form");
        equal(&rt, written(rt.alloc(), &plain)?.as_slice(), wanted);
    }
    Ok(())
}

// Asserts that the plain records of this file, without a header and checksums, are those of another.
fn check_records(rt: &impl Abort, alloc: Global, bytes: &[u8], wanted: &[u8]) -> Result<(), Fail> {
    let file = LentFile::read(bytes).ok().expect(rt, "a file");
    let mut out = Slow::new(alloc, 128, 128);
    write_plain_records(&file, &mut out)?;
    let end = wanted.len().saturating_sub(2);
    equal(rt, Some(out.written()), wanted.get(14..end));
    Ok(())
}

// The plain form of the first file, with its last byte changed.
fn with_wrong_checksum() -> [u8; 67] {
    let mut wrong = PLAIN;
    wrong[66] = 0;
    wrong
}

#[test]
fn times_are_written_out_of_a_lent_file(rt: HostRuntime) -> Result<(), Fail> {
    check_records(&rt, rt.alloc(), &COMPRESSED, &PLAIN)?;
    check_records(&rt, rt.alloc(), &DEVELOPER, &PLAIN_DEVELOPER)?;
    let refused = LentFile::read(&with_wrong_checksum()).err();
    let fault = FileFault {
        kind: FaultKind::FileCrc,
        place: 65,
    };
    assert!(rt; refused == Some(fault));
    Ok(())
}

// A file with a compressed timestamp under a definition of so many fields of no bytes and 255 developer fields.
fn widest(alloc: Global, count: usize) -> File {
    let mut file = File::new(
        alloc,
        Frame {
            header_size: 14,
            protocol: 0x10,
            profile: 100,
        },
    );
    let mut fields = ArrayVec::new();
    for _ in 0..count {
        let _ = fields.try_push(FieldDefinition {
            number: 3,
            size: 0,
            base: 0x02,
        });
    }
    let mut developer = ArrayVec::new();
    for number in 0..255u8 {
        let _ = developer.try_push(DeveloperFieldDefinition {
            number,
            size: 0,
            index: 0,
        });
    }
    let definition = Definition {
        local: 3,
        arch: Arch::Little,
        global: 20,
        fields,
        developer,
    };
    let _ = file.define(&definition);
    let _ = file.data(3, Some(5), &[]);
    file
}

// The place is after a header of 14 bytes and a definition of 7 + 3 * 510 bytes.
#[test]
fn a_definition_of_256_fields_is_too_long(rt: HostRuntime) {
    let here = Places::new(rt.alloc());
    assert!(rt; plain_file(rt.alloc(), &widest(rt.alloc(), 254), &here).is_ok());
    let fault = PlainFault {
        kind: PlainFaultKind::TooLong,
        place: 1551,
    };
    let refused = plain_file(rt.alloc(), &widest(rt.alloc(), 255), &here);
    equal(&rt, refused.err(), Some(fault));
    equal(&rt, fault.code(), 1);
}

// A header of 14 bytes, a definition of 7 that announces developer fields and has none, and the front of one of 255 fields.
static BEFORE: [u8; 27] = [
    0x0E, 0x10, 0x64, 0x00, 0x0B, 0x03, 0x00, 0x00, 0x2E, 0x46, 0x49, 0x54, 0x00, 0x00, 0x61, 0x00,
    0x00, 0x14, 0x00, 0x00, 0x00, 0x42, 0x00, 0x00, 0x14, 0x00, 0xFF,
];

// A file of those bytes, the 255 fields, and at 792 a message with an offset.
fn announced(alloc: Global) -> Result<Vec<u8>, AllocError> {
    let mut bytes = BEFORE.to_vec(alloc)?;
    for _ in 0..255 {
        bytes.extend_from_slice(&[0x03, 0x00, 0x02])?;
    }
    bytes.push(0xC5)?;
    let checksum = Crc::of(&bytes).to_le_bytes();
    bytes.extend_from_slice(&checksum)?;
    Ok(bytes)
}

// The first definition is written in 6 bytes, so the message would be written at 791.
#[test]
fn the_place_is_that_of_the_bytes_that_were_read(rt: HostRuntime) -> Result<(), AllocError> {
    let bytes = announced(rt.alloc())?;
    let refused = made(rt.alloc(), &bytes).expect(&rt, "a file").err();
    let fault = PlainFault {
        kind: PlainFaultKind::TooLong,
        place: 792,
    };
    equal(&rt, refused, Some(fault));
    Ok(())
}

// Run with each allocation refused in turn: the fault is at the item that needed it.
#[test]
fn reports_where_memory_is_refused(rt: HostRuntime) {
    for _ in 0..8 {
        if let Some(Err(fault)) = made(rt.alloc(), &COMPRESSED) {
            equal(&rt, fault.kind, PlainFaultKind::Memory);
            equal(&rt, fault.code(), 2);
            let places = [14, 26, 32, 41, 43];
            assert!(rt; places.contains(&fault.place), "{}", fault.place);
        }
    }
}

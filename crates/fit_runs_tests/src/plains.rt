// The plain form of files, with bytes from outside.

use crate::equality::equal;
use crate::failing::Failing;
use crate::output::ONE_MESSAGE;
use fit_files::{ReportFault, count_messages, plain_input, print_messages};
use fit_grammar::{EncodeFault, FaultKind, FileFault, PlainFault, PlainFaultKind, encode_file};
use std::alloc::Global;
use std::process::Abort;
use std::test::Fail;

// A message with a full time, and two messages of another local number with offsets 30 and 1.
const COMPRESSED: [u8; 47] = [
    0x0E, 0x10, 0x64, 0x00, 0x1F, 0x00, 0x00, 0x00, 0x2E, 0x46, 0x49, 0x54, 0x60, 0xA2, 0x40, 0x00,
    0x00, 0x14, 0x00, 0x02, 0xFD, 0x04, 0x86, 0x03, 0x01, 0x02, 0x00, 0x00, 0xCA, 0x9A, 0x3B, 0x64,
    0x41, 0x00, 0x00, 0x14, 0x00, 0x01, 0x03, 0x01, 0x02, 0xBE, 0x65, 0xA1, 0x66, 0xA9, 0xA1,
];

// The same messages, the last two under a definition that has field 253.
const PLAIN: [u8; 67] = [
    0x0E, 0x10, 0x64, 0x00, 0x33, 0x00, 0x00, 0x00, 0x2E, 0x46, 0x49, 0x54, 0x62, 0xEF, 0x40, 0x00,
    0x00, 0x14, 0x00, 0x02, 0xFD, 0x04, 0x86, 0x03, 0x01, 0x02, 0x00, 0x00, 0xCA, 0x9A, 0x3B, 0x64,
    0x41, 0x00, 0x00, 0x14, 0x00, 0x01, 0x03, 0x01, 0x02, 0x41, 0x00, 0x00, 0x14, 0x00, 0x02, 0xFD,
    0x04, 0x86, 0x03, 0x01, 0x02, 0x01, 0x1E, 0xCA, 0x9A, 0x3B, 0x65, 0x01, 0x21, 0xCA, 0x9A, 0x3B,
    0x66, 0xC8, 0x43,
];

// Files, their plain forms, and how many messages these have.
static FILES: [(&[u8], &[u8], usize); 3] = [
    (&COMPRESSED, &PLAIN, 3),
    (&PLAIN, &PLAIN, 3),
    (&ONE_MESSAGE, &ONE_MESSAGE, 1),
];

// Asserts that a file has this plain form, with so many messages.
fn expect_plain(rt: &impl Abort, alloc: Global, bytes: &[u8], made: &[u8], messages: usize) {
    let mut from = bytes;
    let plain = plain_input(alloc, &mut from, 128).expect(rt, "a file");
    equal(rt, count_messages(&plain), messages);
    let mut out = Vec::new(alloc);
    assert!(rt; encode_file(&plain, &mut out).is_ok());
    equal(rt, out.as_slice(), made);
}

#[test]
fn a_file_is_made_plain(rt: HostRuntime) {
    for (bytes, made, messages) in FILES {
        expect_plain(&rt, rt.alloc(), bytes, made, messages);
    }
}

#[test]
fn what_is_no_file_is_not_made_plain(rt: HostRuntime) -> Result<(), Fail> {
    let mut from = &COMPRESSED[..40];
    let fault = FileFault {
        kind: FaultKind::Truncated,
        place: 40,
    };
    let done = plain_input(rt.alloc(), &mut from, 128).err();
    equal(&rt, done, Some(ReportFault::File(fault)));
    let fault = PlainFault {
        kind: PlainFaultKind::Memory,
        place: 14,
    };
    equal(&rt, ReportFault::Plain(fault).code(), 5);
    Ok(())
}

// Each call of the output fails in turn. What was written is a prefix of the file.
#[test]
fn an_output_of_a_plain_file_that_fails_is_reported(rt: HostRuntime) -> Result<(), Fail> {
    let mut from = COMPRESSED.as_slice();
    let plain = plain_input(rt.alloc(), &mut from, 128).expect(&rt, "a file");
    for calls in 0..12 {
        let mut out = Failing::new(rt.alloc(), 3, calls);
        let done = encode_file(&plain, &mut out);
        assert_eq!(rt; done, Err(EncodeFault::Write), "{calls}");
        assert!(rt; PLAIN.starts_with(&out.held), "{calls}");
    }
    Ok(())
}

#[test]
fn so_many_messages_are_reported(rt: HostRuntime) -> Result<(), Fail> {
    let mut out = Vec::new(rt.alloc());
    assert!(rt; print_messages(41, &mut out).is_ok());
    equal(&rt, out.as_slice(), b"messages 41\n".as_slice());
    Ok(())
}

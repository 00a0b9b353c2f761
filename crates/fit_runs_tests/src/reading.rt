// Inputs that are read to their end, and inputs that fail before it.

use crate::equality::equal;
use crate::output::{ONE_MESSAGE, ONE_MESSAGE_TEXT};
use fit_files::{ReadFault, ReportFault, read_all, read_front, show_input};
use fit_grammar::{FaultKind, FileFault};
use std::alloc::Global;
use std::io::{self, Read};
use std::process::Abort;

// A reader that gives at most so many bytes a call, and refuses each call after so many calls.
#[derive(Drop)]
pub struct Pieces<'a> {
    pub rest: &'a [u8],
    pub step: usize,
    pub calls: usize,
}

impl Read for Pieces<'_> {
    fn read(&mut self, buf: &mut [u8]) -> io::Result<usize> {
        if self.calls == 0 {
            return Err(io::Error::from(io::ErrorKind::BrokenPipe));
        }
        self.calls -= 1;
        let given = self.rest.len().min(self.step).min(buf.len());
        let (now, rest) = self.rest.split_at(given);
        buf[..given].copy_from_slice(now);
        self.rest = rest;
        Ok(given)
    }
}

const TEXT: &[u8] = b"abcdefghijkl";

// The outcome of reading so many bytes of the text with a limit of ten bytes.
fn outcome(alloc: Global, len: usize, step: usize, calls: usize) -> Result<Vec<u8>, ReadFault> {
    let rest = TEXT.get(..len).unwrap_or(TEXT);
    read_all(alloc, &mut Pieces { rest, step, calls }, 10)
}

fn is_all(read: &Result<Vec<u8>, ReadFault>, len: usize) -> bool {
    match read {
        Ok(bytes) => TEXT.get(..len) == Some(bytes.as_slice()),
        Err(_) => false,
    }
}

// Whether so many bytes in pieces of this size are read, or are too many.
fn reads_pieces(alloc: Global, len: usize, step: usize) -> bool {
    let read = outcome(alloc, len, step, usize::MAX);
    if len <= 10 {
        is_all(&read, len)
    } else {
        read.err() == Some(ReadFault::TooLarge)
    }
}

// Ten bytes are read, and eleven are too many, in whatever pieces they come.
#[test]
fn reads_to_the_most(rt: HostRuntime) {
    for step in [1, 3, 10, 11, 65_536] {
        for len in 0..=12 {
            assert!(rt; reads_pieces(rt.alloc(), len, step), "{len} {step}");
        }
    }
}

// Whether nine bytes are read with so many calls, three bytes each, or the read failed.
fn reads_nine(alloc: Global, calls: usize) -> bool {
    let read = outcome(alloc, 9, 3, calls);
    if calls < 4 {
        read.err() == Some(ReadFault::Failed)
    } else {
        is_all(&read, 9)
    }
}

// Nine bytes, three at a time, are four calls; the last gives no byte. With twelve bytes the fourth call is too much.
#[test]
fn reports_a_failed_read_from_too_much(rt: HostRuntime) {
    for calls in 0..6 {
        assert!(rt; reads_nine(rt.alloc(), calls), "{calls}");
        let fault = if calls < 4 {
            ReadFault::Failed
        } else {
            ReadFault::TooLarge
        };
        let twelve = outcome(rt.alloc(), 12, 3, calls);
        assert_eq!(rt; twelve.err(), Some(fault), "{calls}");
    }
}

// The bytes that are read before a failure, and where it was.
static FRONTS: [(&[u8], Option<usize>); 6] = [
    (b"", Some(0)),
    (b"abc", Some(3)),
    (b"abcdef", Some(6)),
    (b"abcdefghi", Some(9)),
    (b"abcdefghi", None),
    (b"abcdefghi", None),
];

// Whether this front of nine bytes is read with so many calls.
fn has_front(alloc: Global, calls: usize, front: &[u8], unread: Option<usize>) -> bool {
    let rest = TEXT.get(..9).unwrap_or(TEXT);
    let mut from = Pieces {
        rest,
        step: 3,
        calls,
    };
    match read_front(alloc, &mut from, 10) {
        Ok(read) => read.bytes.as_slice() == front && read.unread_from() == unread,
        Err(_) => false,
    }
}

// What comes before a read that fails is kept. Nine bytes are known to be all once the read after them gives none.
#[test]
fn keeps_what_was_read_before_a_failure(rt: HostRuntime) {
    for (calls, (front, unread)) in FRONTS.iter().enumerate() {
        assert!(rt; has_front(rt.alloc(), calls, front, *unread), "{calls}");
    }
}

// Run with each allocation refused in turn: all is read, or want of memory is reported as such.
#[test]
fn reports_want_of_memory(rt: HostRuntime) {
    let read = outcome(rt.alloc(), 10, 3, usize::MAX);
    if !is_all(&read, 10) {
        equal(&rt, read.err(), Some(ReadFault::NoMemory));
    }
}

// The outcome of showing a file that is read like this, with a limit of 34 bytes, and the text.
fn shown(
    alloc: Global,
    rest: &[u8],
    step: usize,
    calls: usize,
) -> (Result<(), ReportFault>, Vec<u8>) {
    let mut text = Vec::new(alloc);
    let done = show_input(
        alloc,
        &mut Pieces { rest, step, calls },
        34,
        false,
        &mut text,
    );
    (done, text)
}

// In whatever pieces it comes, a file is shown with the same text.
#[test]
fn shows_a_file_in_pieces(rt: HostRuntime) {
    for step in 1..=35 {
        let (done, text) = shown(rt.alloc(), &ONE_MESSAGE, step, usize::MAX);
        assert!(rt;
            done == Ok(()) && text.as_slice() == ONE_MESSAGE_TEXT.as_bytes(),
            "{step}"
        );
    }
}

// The file with a wrong size of its header, and a byte after its end.
static NO_FILE: [u8; 35] = [
    0x0D, 0x10, 0x64, 0x00, 0x12, 0x00, 0x00, 0x00, 0x2E, 0x46, 0x49, 0x54, 0xA1, 0x3B, 0x40, 0x00,
    0x00, 0x00, 0x00, 0x02, 0x00, 0x01, 0x00, 0x04, 0x04, 0x86, 0x00, 0x04, 0x00, 0xCA, 0x9A, 0x3B,
    0x38, 0x1C, 0x00,
];

const HEADER_SIZE: FileFault = FileFault {
    kind: FaultKind::HeaderSize,
    place: 0,
};

// How many of these bytes there are, how many calls read them, and the fault.
static NO_FILES: [(usize, usize, ReportFault); 3] = [
    (34, 35, ReportFault::File(HEADER_SIZE)),
    (34, 34, ReportFault::Input(ReadFault::Failed)),
    (35, 35, ReportFault::Input(ReadFault::TooLarge)),
];

// Asserts that these bytes have this fault, and that none of them is shown.
fn expect_fault(rt: &impl Abort, alloc: Global, bytes: &[u8], calls: usize, fault: ReportFault) {
    let (done, text) = shown(alloc, bytes, 1, calls);
    assert_eq!(rt; done, Err(fault), "{bytes:?} {calls}");
    assert!(rt; text.is_empty(), "{bytes:?} {calls}");
}

// Bytes that are not a file are read to their end. A failed read or a byte too many is reported first, then the fault of the file.
#[test]
fn reads_what_is_no_file_to_its_end(rt: HostRuntime) {
    for (len, calls, fault) in NO_FILES {
        let bytes = NO_FILE.get(..len).unwrap_or(&[]);
        expect_fault(&rt, rt.alloc(), bytes, calls, fault);
    }
}

// Files that are read in pieces.

ghost use Rattle.std.specs.Prelude.{◌<◌};

use crate::equality::equal;
use crate::grammar::decoding::{PROMISED, after_header, edited, longer};
use crate::grammar::sizes::{content_of, definition_of};
use crate::known_files::{FILE_ID, empty_file};
use fit_grammar::{Decoder, EncodeFault, FaultKind, File, FileFault, encode_file};
use std::alloc::{AllocError, Global};
use std::process::Abort;
use std::test::*;

// Reads the bytes in pieces of this size.
fn read_in_pieces(alloc: Global, bytes: &[u8], size: usize) -> Result<File, FileFault>
    requires { 0 < size }
{
    let mut decoder = Decoder::new(alloc);
    for piece in bytes.chunks(size) {
        decoder.feed(piece)?;
    }
    decoder.finish()
}

// Reads the bytes in two pieces, with an empty piece between them.
pub(super) fn read_in_two(alloc: Global, front: &[u8], back: &[u8]) -> Result<File, FileFault> {
    let mut decoder = Decoder::new(alloc);
    decoder.feed(front)?;
    decoder.feed(&[])?;
    decoder.feed(back)?;
    decoder.finish()
}

pub fn written(alloc: Global, file: &File) -> Result<Vec<u8>, EncodeFault> {
    let mut bytes = Vec::new(alloc);
    encode_file(file, &mut bytes)?;
    Ok(bytes)
}

// Asserts that the file is written as these bytes. It was cut at this place, or into pieces of this size.
fn check_again(
    rt: &impl Abort,
    alloc: Global,
    file: &File,
    bytes: &[u8],
    cut: usize,
) -> Result<(), EncodeFault> {
    let again = written(alloc, file)?;
    assert!(rt; again.as_slice() == bytes, "{cut}");
    Ok(())
}

// Asserts that the bytes, cut at this place, are a file that is written as they are.
fn check_cut(rt: &impl Abort, alloc: Global, bytes: &[u8], cut: usize) -> Result<(), Fail> {
    let front = bytes.get(..cut).unwrap_or(&[]);
    let back = bytes.get(cut..).unwrap_or(&[]);
    let file = read_in_two(alloc, front, back)?;
    check_again(rt, alloc, &file, bytes, cut)?;
    Ok(())
}

// Asserts that the bytes, read in pieces of this size, are a file that is written as they are.
fn check_pieces(rt: &impl Abort, alloc: Global, bytes: &[u8], size: usize) -> Result<(), Fail>
    requires { 0 < size }
{
    let file = read_in_pieces(alloc, bytes, size)?;
    check_again(rt, alloc, &file, bytes, size)?;
    Ok(())
}

fn fault_of<T: Drop>(answer: Result<T, FileFault>) -> Option<(FaultKind, usize)> {
    match answer {
        Ok(_) => None,
        Err(fault) => Some((fault.kind, fault.place)),
    }
}

// Asserts that each later call returns this fault.
fn check_for_good(rt: &impl Abort, mut decoder: Decoder, fault: Option<(FaultKind, usize)>) {
    for piece in [[].as_slice(), &[0x40], &FILE_ID] {
        equal(rt, fault_of(decoder.feed(piece)), fault);
    }
    equal(rt, fault_of(decoder.finish()), fault);
}

#[test]
fn every_cut_gives_one_file(rt: HostRuntime) -> Result<(), Fail> {
    for cut in 0..=FILE_ID.len() {
        check_cut(&rt, rt.alloc(), &FILE_ID, cut)?;
    }
    for size in 1..=FILE_ID.len() {
        check_pieces(&rt, rt.alloc(), &FILE_ID, size)?;
    }
    Ok(())
}

#[test]
fn an_unfinished_file_is_cut_short(rt: HostRuntime) {
    for len in 0..FILE_ID.len() {
        let answer = read_in_pieces(rt.alloc(), &FILE_ID[..len], 1);
        equal(&rt, fault_of(answer), Some((FaultKind::Truncated, len)));
    }
}

// Asserts that the last byte shows the fault, and no byte before it does.
pub(super) fn check_shown_by_last(
    rt: &impl Abort,
    alloc: Global,
    bytes: &[u8],
    fault: (FaultKind, usize),
) {
    let mut decoder = Decoder::new(alloc);
    for at in 0..bytes.len() {
        let answer = fault_of(decoder.feed(&bytes[at..at + 1]));
        let shown = if at + 1 == bytes.len() {
            Some(fault)
        } else {
            None
        };
        assert_eq!(rt; answer, shown, "{at}");
    }
    check_for_good(rt, decoder, Some(fault));
}

// The first so many bytes of a file, one of them with another value, and the fault that the last one shows.
static BEGINNINGS: [(usize, (usize, u8), (FaultKind, usize)); 5] = [
    (34, (27, 0x05), (FaultKind::FileCrc, 32)),
    (1, (0, 0x0D), (FaultKind::HeaderSize, 0)),
    (2, (1, 0x30), (FaultKind::Protocol, 1)),
    (12, (9, 0x00), (FaultKind::Magic, 8)),
    (14, (12, 0xA0), (FaultKind::HeaderCrc, 12)),
];

#[test]
fn refused_with_the_byte_that_shows_it(rt: HostRuntime) -> Result<(), AllocError> {
    let alloc = rt.alloc();
    for (size, edit, fault) in BEGINNINGS {
        let mut bytes = edited(alloc, &[edit])?;
        bytes.truncate(size);
        check_shown_by_last(&rt, alloc, &bytes, fault);
    }
    check_shown_by_last(&rt, alloc, &longer(alloc)?, (FaultKind::TrailingBytes, 34));
    let undefined = after_header(alloc, 1, &[0x05])?;
    check_shown_by_last(&rt, alloc, &undefined, (FaultKind::UndefinedLocal(5), 12));
    Ok(())
}

// The bytes of a file with a definition of 255 fields and 255 developer fields and a message with 130,050 bytes of content.
fn long_file(rt: &impl Abort, alloc: Global) -> Result<Vec<u8>, Fail> {
    let mut file = empty_file(alloc);
    file.define(&definition_of(rt, 130_050))?;
    let content = content_of(alloc, 130_050)?;
    file.data(3, Some(31), content.as_slice())?;
    Ok(written(alloc, &file)?)
}

static CUTS: [usize; 14] = [
    14, 15, 19, 20, 784, 785, 786, 1_550, 1_551, 1_552, 40_000, 131_601, 131_602, 131_603,
];

// Cut at one place or into pieces.
#[test]
fn long_items_are_cut(rt: HostRuntime) -> Result<(), Fail> {
    let bytes = long_file(&rt, rt.alloc())?;
    equal(&rt, bytes.len(), 131_604);
    for cut in CUTS {
        check_cut(&rt, rt.alloc(), bytes.as_slice(), cut)?;
    }
    for size in [1, 19, 650, 4_096, 65_536] {
        check_pieces(&rt, rt.alloc(), bytes.as_slice(), size)?;
    }
    Ok(())
}

// The fault of the first byte of a file that shows one, if the file is read byte by byte.
fn first_fault(decoder: &mut Decoder) -> Option<(FaultKind, usize)> {
    for byte in FILE_ID {
        let fault = fault_of(decoder.feed(&[byte]));
        if fault.is_some() {
            return fault;
        }
    }
    None
}

// Run with each allocation refused in turn: the fault is at the item that needed it, and stays.
#[test]
fn reports_for_good_which_item_wants_memory(rt: HostRuntime) {
    for _ in 0..8 {
        let mut decoder = Decoder::new(rt.alloc());
        let fault = first_fault(&mut decoder);
        if let Some((kind, place)) = fault {
            equal(&rt, kind, FaultKind::Memory);
            assert!(rt; place == 14 || place == 26, "{place}");
            check_for_good(&rt, decoder, fault);
        }
    }
}

// Run with the first request for memory refused: no request is made.
#[test]
fn a_promise_of_much_takes_no_memory(rt: HostRuntime) {
    for size in 1..13 {
        let answer = read_in_pieces(rt.alloc(), &PROMISED, size);
        equal(&rt, fault_of(answer), Some((FaultKind::Truncated, 12)));
    }
}

// Definitions and messages with developer fields that are cut short or pass the end of the data.

use super::{FILE, RECORD};
use crate::equality::equal;
use crate::grammar::decoding::{after_header, outcome};
use crate::grammar::pieces::check_shown_by_last;
use fit_grammar::FaultKind;
use std::alloc::AllocError;
use std::test::*;

// How many bytes of a definition of sixteen show that it passes the end of data of this size: its first byte, the bytes up to the
// number of its fields, or those up to the number of its developer fields. 17 if it fits.
fn shown_by(size: u8) -> usize {
    if size < 6 {
        1
    } else if size < 10 {
        6
    } else if size < 16 {
        10
    } else {
        17
    }
}

#[test]
fn a_definition_is_cut_at_each_byte(rt: HostRuntime) -> Result<(), AllocError> {
    let definition = [0x60, 0, 0, 20, 0, 1, 3, 1, 2, 2, 0, 2, 0, 1, 1, 0];
    for size in 1..=16u8 {
        let shows = shown_by(size);
        for len in 0..=definition.len() {
            let bytes = after_header(rt.alloc(), size, &definition[..len])?;
            let reported = if len >= shows {
                (FaultKind::SplitMessage, 12)
            } else {
                (FaultKind::Truncated, 12 + len)
            };
            assert_eq!(rt; outcome(rt.alloc(), &bytes), Some(reported), "{size} {len}");
        }
    }
    Ok(())
}

#[test]
fn refused_with_the_byte_that_shows_it(rt: HostRuntime) -> Result<(), AllocError> {
    let alloc = rt.alloc();
    for (size, records) in [
        (5, [0x60].as_slice()),
        (6, [0x60, 0, 0, 20, 0, 0].as_slice()),
        (9, [0x60, 0, 0, 20, 0, 1].as_slice()),
        (9, [0x60, 0, 0, 20, 0, 0, 1].as_slice()),
        (12, [0x60, 0, 0, 20, 0, 1, 3, 1, 2, 1].as_slice()),
    ] {
        let bytes = after_header(alloc, size, records)?;
        check_shown_by_last(&rt, alloc, &bytes, (FaultKind::SplitMessage, 12));
    }
    Ok(())
}

// A message of four bytes after its definition. The data has room for three of them.
#[test]
fn a_message_passes_the_end(rt: HostRuntime) -> Result<(), AllocError> {
    let mut records = RECORD.to_vec(rt.alloc())?;
    records.push(0x00)?;
    let bytes = after_header(rt.alloc(), 16, &records)?;
    check_shown_by_last(&rt, rt.alloc(), &bytes, (FaultKind::SplitMessage, 25));
    Ok(())
}

#[test]
fn a_beginning_of_a_file_is_cut_short(rt: HostRuntime) {
    for len in 0..FILE.len() {
        let fault = outcome(rt.alloc(), &FILE[..len]);
        equal(&rt, fault, Some((FaultKind::Truncated, len)));
    }
}

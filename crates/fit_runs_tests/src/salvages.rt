// Files that are salvaged, with bytes and numbers from outside.

ghost use Rattle.std.specs.Prelude.{◌<◌, ◌^◌, length};

use crate::equality::equal;
use crate::failing::Failing;
use fit_files::{Kept, Salvage, salvage_bytes};
use fit_grammar::{FaultKind, FileFault, WriteFailed, encode_file};
use std::alloc::Global;
use std::process::Abort;

// A file of one message, and what is salvaged of it if its last three bytes are missing.
const WHOLE: [u8; 34] = [
    0x0E, 0x10, 0x64, 0x00, 0x12, 0x00, 0x00, 0x00, 0x2E, 0x46, 0x49, 0x54, 0xA1, 0x3B, 0x40, 0x00,
    0x00, 0x00, 0x00, 0x02, 0x00, 0x01, 0x00, 0x04, 0x04, 0x86, 0x00, 0x04, 0x00, 0xCA, 0x9A, 0x3B,
    0x38, 0x1C,
];

const SAVED: [u8; 28] = [
    0x0E, 0x10, 0x64, 0x00, 0x0C, 0x00, 0x00, 0x00, 0x2E, 0x46, 0x49, 0x54, 0x21, 0xBB, 0x40, 0x00,
    0x00, 0x00, 0x00, 0x02, 0x00, 0x01, 0x00, 0x04, 0x04, 0x86, 0xDD, 0x9C,
];

// A message with a developer field, a definition that announces some and has none, and a prefix of a message; and what is
// salvaged of them.
const DEVELOPER: [u8; 37] = [
    0x0C, 0x20, 0x64, 0x00, 0x00, 0x00, 0x00, 0x00, 0x2E, 0x46, 0x49, 0x54, 0x60, 0x00, 0x00, 0x14,
    0x00, 0x01, 0x03, 0x01, 0x02, 0x01, 0x00, 0x02, 0x00, 0x00, 0x64, 0xAB, 0xCD, 0x61, 0x00, 0x00,
    0x14, 0x00, 0x00, 0x00, 0x00,
];

const SAVED_DEVELOPER: [u8; 40] = [
    0x0E, 0x20, 0x64, 0x00, 0x18, 0x00, 0x00, 0x00, 0x2E, 0x46, 0x49, 0x54, 0xDE, 0x44, 0x60, 0x00,
    0x00, 0x14, 0x00, 0x01, 0x03, 0x01, 0x02, 0x01, 0x00, 0x02, 0x00, 0x00, 0x64, 0xAB, 0xCD, 0x61,
    0x00, 0x00, 0x14, 0x00, 0x00, 0x00, 0x56, 0x01,
];

// Messages with compressed timestamps, the last one cut short, and the plain form of what is saved of them.
const COMPRESSED: [u8; 44] = [
    0x0C, 0x10, 0x64, 0x00, 0x00, 0x00, 0x00, 0x00, 0x2E, 0x46, 0x49, 0x54, 0x40, 0x00, 0x00, 0x14,
    0x00, 0x02, 0xFD, 0x04, 0x86, 0x03, 0x01, 0x02, 0x00, 0x00, 0xCA, 0x9A, 0x3B, 0x64, 0x41, 0x00,
    0x00, 0x14, 0x00, 0x01, 0x03, 0x01, 0x02, 0xBE, 0x65, 0xA1, 0x66, 0xA2,
];

static SAVED_PLAIN: [u8; 67] = [
    0x0E, 0x10, 0x64, 0x00, 0x33, 0x00, 0x00, 0x00, 0x2E, 0x46, 0x49, 0x54, 0x62, 0xEF, 0x40, 0x00,
    0x00, 0x14, 0x00, 0x02, 0xFD, 0x04, 0x86, 0x03, 0x01, 0x02, 0x00, 0x00, 0xCA, 0x9A, 0x3B, 0x64,
    0x41, 0x00, 0x00, 0x14, 0x00, 0x01, 0x03, 0x01, 0x02, 0x41, 0x00, 0x00, 0x14, 0x00, 0x02, 0xFD,
    0x04, 0x86, 0x03, 0x01, 0x02, 0x01, 0x1E, 0xCA, 0x9A, 0x3B, 0x65, 0x01, 0x21, 0xCA, 0x9A, 0x3B,
    0x66, 0xC8, 0x43,
];

// A file without records.
const EMPTY: [u8; 16] = [
    0x0E, 0x10, 0x64, 0x00, 0x00, 0x00, 0x00, 0x00, 0x2E, 0x46, 0x49, 0x54, 0x21, 0xEE, 0x00, 0x00,
];

// Asserts that these bytes are salvaged of a file: how many of its records are kept, how many are looked at, and how many after those
// are not.
fn expect_saved(
    rt: &impl Abort,
    alloc: Global,
    bytes: &[u8],
    all: bool,
    saved: &[u8],
    counts: (usize, usize, usize),
)
    requires { length bytes.now < 2 ^ 32 }
{
    let salvage = salvage_bytes(bytes, all).expect(rt, "a header");
    let mut out = Vec::new(alloc);
    assert!(rt; salvage.write(&mut out).is_ok());
    equal(
        rt,
        (salvage.row.len(), salvage.looked_at, salvage.not_looked_at),
        counts,
    );
    equal(rt, out.as_slice(), saved);
}

// The whole file with one byte changed.
fn changed(place: usize, byte: u8) -> [u8; 34] {
    let mut bytes = WHOLE;
    if let Some(changed) = bytes.get_mut(place) {
        *changed = byte;
    }
    bytes
}

// Files, what is salvaged of them, and the counts.
static ROWS: [(&[u8], &[u8], (usize, usize, usize)); 4] = [
    (&SAVED, &SAVED, (12, 12, 0)),
    (&WHOLE, &WHOLE, (18, 18, 0)),
    (&EMPTY, &EMPTY, (0, 2, 0)),
    (&DEVELOPER, &SAVED_DEVELOPER, (24, 25, 0)),
];

#[test]
fn the_longest_row_is_saved(rt: HostRuntime) {
    for (bytes, saved, counts) in ROWS {
        expect_saved(&rt, rt.alloc(), bytes, false, saved, counts);
    }
    expect_saved(&rt, rt.alloc(), &WHOLE[..31], false, &SAVED, (12, 17, 0));
    let wrong = changed(12, 0xA0);
    expect_saved(&rt, rt.alloc(), &wrong, false, &WHOLE, (18, 18, 0));
}

// The header gives the size of the definition alone. The message after it is looked at only if everything is.
#[test]
fn what_stands_after_the_size_is_looked_at_where_all_is(rt: HostRuntime) {
    let short = changed(4, 12);
    expect_saved(&rt, rt.alloc(), &short, false, &SAVED, (12, 12, 6));
    expect_saved(&rt, rt.alloc(), &short, true, &WHOLE, (18, 20, 0));
}

// Asserts that what is salvaged has this plain form.
fn expect_plain(rt: &impl Abort, alloc: Global, bytes: &[u8], plain: &[u8])
    requires { length bytes.now < 2 ^ 32 }
{
    let salvage = salvage_bytes(bytes, false).expect(rt, "a header");
    let file = salvage.plain(alloc).expect(rt, "a plain form");
    let mut out = Vec::new(alloc);
    assert!(rt; encode_file(&file, &mut out).is_ok());
    equal(rt, out.as_slice(), plain);
}

#[test]
fn what_is_saved_has_a_plain_form(rt: HostRuntime) {
    expect_plain(&rt, rt.alloc(), &COMPRESSED, &SAVED_PLAIN);
    expect_plain(&rt, rt.alloc(), &WHOLE[..31], &SAVED);
}

// Fronts of files, and the kind and the place of their faults.
static NO_HEADERS: [(&[u8], FaultKind, usize); 5] = [
    (&[], FaultKind::Truncated, 0),
    (&[0x0D], FaultKind::HeaderSize, 0),
    (&[0x0E, 0x30], FaultKind::Protocol, 1),
    (
        &[
            0x0E, 0x10, 0x64, 0x00, 0x00, 0x00, 0x00, 0x00, 0x2E, 0x46, 0x49,
        ],
        FaultKind::Truncated,
        11,
    ),
    (
        &[
            0x0E, 0x10, 0x64, 0x00, 0x00, 0x00, 0x00, 0x00, 0x2E, 0x46, 0x49, 0x54, 0x21,
        ],
        FaultKind::Truncated,
        13,
    ),
];

#[test]
fn what_begins_with_no_header_is_refused(rt: HostRuntime) {
    for (bytes, kind, place) in NO_HEADERS {
        let fault = salvage_bytes(bytes, false).err();
        equal(&rt, fault, Some(FileFault { kind, place }));
    }
}

// Asserts that an output that fails is reported. What was written is a prefix of the file.
fn fail_output(rt: &impl Abort, salvage: &Salvage<'_>, mut out: Failing) {
    let calls = out.calls;
    assert_eq!(rt; salvage.write(&mut out), Err(WriteFailed), "{calls}");
    assert!(rt; WHOLE.starts_with(&out.held), "{calls}");
}

// Each call of the output fails in turn.
#[test]
fn an_output_that_fails_is_reported(rt: HostRuntime) {
    let salvage = salvage_bytes(&WHOLE, false).expect(&rt, "a header");
    for calls in 0..12 {
        fail_output(&rt, &salvage, Failing::new(rt.alloc(), 3, calls));
    }
    let mut out = Failing::new(rt.alloc(), 3, 20);
    assert!(rt; salvage.write(&mut out).is_ok());
    equal(&rt, out.held.as_slice(), WHOLE.as_slice());
}

// Asserts what is printed about a salvage, and about what was not looked at.
fn expect_printed(rt: &impl Abort, alloc: Global, bytes: &[u8], kept: &[u8], left: &[u8])
    requires { length bytes.now < 2 ^ 32 }
{
    let salvage = salvage_bytes(bytes, false).expect(rt, "a header");
    let mut out = Vec::new(alloc);
    assert!(rt; Kept::Front(salvage).print(None, &mut out).is_ok());
    equal(rt, out.as_slice(), kept);
    out.clear();
    assert!(rt; salvage.print_left(&mut out).is_ok());
    equal(rt, out.as_slice(), left);
}

#[test]
fn so_many_bytes_are_reported(rt: HostRuntime) {
    expect_printed(&rt, rt.alloc(), &WHOLE[..31], b"kept 12 of 17\n", b"");
    let left =
        b"fitrec: 6 bytes after the end that the header gives were not read; salvage --all reads them\n";
    expect_printed(&rt, rt.alloc(), &changed(4, 12), b"kept 12 of 12\n", left);
}

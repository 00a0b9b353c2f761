// What power cuts leave for given choice bytes. The expected contents are worked out by hand from the disk model.

use super::Call::{Cut, Sync, Write};
use super::Step::{Cycle, Holds, Passes};
use super::{Step, cycle, expect, follow, follow_afresh};
use fit_disk::Which::{Data, Journal};
use fit_disk::{DeviceError, Memory};
use std::alloc::Global;
use std::process::Abort;

// The data file is synced as `abcd`, then its two middle bytes are overwritten.
const TORN: [Step; 3] = [
    Passes(Write(Data, 0, b"abcd")),
    Passes(Sync(Data)),
    Passes(Write(Data, 1, b"XY")),
];

// Choice bytes, how many of them a power cut takes, and the data file that it leaves.
type Left = (&'static [u8], usize, &'static [u8]);

// What is done before the power cut, and what it leaves then.
static CASES: [(&[Step], &[Left]); 3] = [
    // Only the written middle varies.
    (
        &TORN,
        &[
            (&[], 0, b"a\0\0d"),
            (&[0, 0, 0, 0, 0xA5], 5, b"a\xA5\0d"),
            (
                &[0, 0, 0, 0, 0xA5, 0xFF, 0, 0, 0, 0, 7, 7],
                10,
                b"a\xA5\xFFd",
            ),
            (&[0xA5; 12], 10, b"a\xA5\xA5d"),
            (&[0xFF; 12], 10, b"a\xFF\xFFd"),
        ],
    ),
    // The length of what was not synced varies.
    (
        &[Passes(Write(Data, 0, b"abc"))],
        &[
            (&[], 0, b""),
            (&[2, 0, 0, 0, 0xA5, 0xFF], 6, b"\xA5\xFF"),
            (&[7, 0, 0, 0, 1, 2, 3], 7, b"\x01\x02\x03"),
            (&[0, 1, 0, 0, 9], 5, b""),
            // A5A5A5A5 leaves a length of 1, its remainder modulo 4; FFFFFFFF leaves 3.
            (&[0xA5; 20], 9, b"\xA5"),
            (&[0xFF; 20], 11, b"\xFF\xFF\xFF"),
        ],
    ),
    // What was cut off may come back as any bytes.
    (
        &[
            Passes(Write(Data, 0, b"abcdef")),
            Passes(Sync(Data)),
            Passes(Cut(Data, 2)),
            Passes(Write(Data, 2, b"Z")),
        ],
        &[
            (&[], 0, b"ab"),
            (
                &[4, 0, 0, 0, 0xA5, 0xA5, 0xA5, 0xA5],
                8,
                b"ab\xA5\xA5\xA5\xA5",
            ),
            (&[1, 0, 0, 0, 0xFF], 5, b"ab\xFF"),
            // FFFFFFFF leaves 0 more bytes, its remainder modulo 5.
            (&[0xFF; 9], 8, b"ab"),
        ],
    ),
];

// Asserts what power cuts leave after these steps, each on a disk of its own. The journal is empty.
fn expect_left(
    rt: &impl Abort,
    alloc: Global,
    before: &[Step],
    leaves: &[Left],
) -> Result<(), DeviceError> {
    for (choices, taken, content) in leaves {
        let mut disk = Memory::new(alloc);
        follow(rt, &mut disk, before)?;
        cycle(rt, &mut disk, choices, *taken);
        expect(rt, &disk, Data, content);
        expect(rt, &disk, Journal, b"");
    }
    Ok(())
}

fn expect_each(
    rt: &impl Abort,
    alloc: Global,
    cases: &[(&[Step], &[Left])],
) -> Result<(), DeviceError> {
    for (before, leaves) in cases {
        expect_left(rt, alloc, before, leaves)?;
    }
    Ok(())
}

#[test]
fn what_was_not_synced_varies(rt: HostRuntime) -> Result<(), DeviceError> {
    expect_each(&rt, rt.alloc(), &CASES)
}

// Each of the two files takes a choice byte for its one byte.
static BOTH: [Step; 5] = [
    Passes(Write(Journal, 0, b"j")),
    Passes(Write(Data, 0, b"d")),
    Cycle(&[1, 0, 0, 0, 0x11, 1, 0, 0, 0, 0x22, 0x33], 10),
    Holds(Data, b"\x11"),
    Holds(Journal, b"\x22"),
];

#[test]
fn the_data_file_takes_its_choices_first(rt: HostRuntime) -> Result<(), DeviceError> {
    follow_afresh(&rt, rt.alloc(), &BOTH)
}

// Power cuts one after another, from `TORN` on.
static CUTS_IN_TURN: [Step; 7] = [
    Cycle(&[0, 0, 0, 0, 0xA5, 0xFF], 6),
    Cycle(&[7, 7, 7], 3),
    Cycle(&[7; 10], 8),
    Holds(Data, b"a\xA5\xFFd"),
    // The next write is torn against that content.
    Passes(Write(Data, 3, b"Z")),
    Cycle(&[0, 0, 0, 0, 0x5A], 5),
    Holds(Data, b"a\xA5\xFF\x5A"),
];

#[test]
fn what_was_left_is_kept_from_then_on(rt: HostRuntime) -> Result<(), DeviceError> {
    let mut disk = Memory::new(rt.alloc());
    follow(&rt, &mut disk, &TORN)?;
    follow(&rt, &mut disk, &CUTS_IN_TURN)
}

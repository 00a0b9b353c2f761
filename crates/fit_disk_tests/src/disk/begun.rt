// Power cuts after calls that failed. The expected contents are worked out by hand.

use super::Call::{Cut, Sync, Write};
use super::Step::{Cycle, Fails, Holds, Passes};
use super::{Step, follow_each};
use fit_disk::DeviceError;
use fit_disk::Which::{Data, Journal};

static CASES: [&[Step]; 5] = [
    // A failed write at place 0 was begun.
    &[
        Passes(Write(Data, 0, b"abcd")),
        Passes(Sync(Data)),
        Fails(Write(Data, 0, b"XY")),
        Holds(Data, b"abcd"),
        Cycle(&[0, 0, 0, 0, 0xA5, 0xFF], 6),
        Holds(Data, b"\xA5\xFFcd"),
    ],
    // So was one over the end.
    &[
        Passes(Write(Data, 0, b"abcd")),
        Passes(Sync(Data)),
        Passes(Write(Data, 1, b"XY")),
        Passes(Sync(Data)),
        Fails(Write(Data, 3, b"ZZ")),
        Holds(Data, b"aXYd"),
        Cycle(&[1, 0, 0, 0, 0xA5, 0xFF], 6),
        Holds(Data, b"aXY\xA5\xFF"),
    ],
    // A failed cut of the journal was begun. The data file takes four choice bytes. The journal comes back with 2 to 6 bytes.
    &[
        Passes(Write(Journal, 0, b"abcdef")),
        Passes(Sync(Journal)),
        Fails(Cut(Journal, 2)),
        Holds(Journal, b"abcdef"),
        Cycle(&[0, 0, 0, 0, 1, 0, 0, 0, 0xA5], 9),
        Holds(Journal, b"ab\xA5"),
    ],
    // So was one of the data file.
    &[
        Passes(Write(Data, 0, b"abcd")),
        Passes(Sync(Data)),
        Passes(Write(Data, 1, b"XY")),
        Passes(Sync(Data)),
        Fails(Cut(Data, 1)),
        Holds(Data, b"aXYd"),
        Cycle(&[1, 0, 0, 0, 0xA5], 5),
        Holds(Data, b"a\xA5"),
    ],
    // A failed sync keeps nothing new and loses nothing.
    &[
        Passes(Write(Data, 0, b"abcd")),
        Passes(Sync(Data)),
        Passes(Write(Data, 1, b"XY")),
        Fails(Sync(Data)),
        Holds(Data, b"aXYd"),
        Cycle(&[], 0),
        Holds(Data, b"a\0\0d"),
    ],
];

#[test]
fn a_call_that_failed_was_begun(rt: HostRuntime) -> Result<(), DeviceError> {
    follow_each(&rt, rt.alloc(), &CASES)
}

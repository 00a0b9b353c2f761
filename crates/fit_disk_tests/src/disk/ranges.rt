// Which bytes vary if written ranges touch, overlap or leave a gap. The expected contents are worked out by hand.

use super::Call::{Sync, Write};
use super::Step::{Cycle, Holds, Passes};
use super::{Step, follow_each};
use fit_disk::DeviceError;
use fit_disk::Which::Data;

// Ten bytes, which are kept, two writes over them at these places, and the data file after a power cut.
macro_rules! written {
    ($first:expr, $one:expr, $second:expr, $other:expr, $content:expr) => {
        &[
            Passes(Write(Data, 0, b"abcdefghij")),
            Passes(Sync(Data)),
            Passes(Write(Data, $first, $one)),
            Passes(Write(Data, $second, $other)),
            Cycle(
                &[0, 0, 0, 0, 0xA5, 0xA5, 0xA5, 0xA5, 0xA5, 0xA5],
                10,
            ),
            Holds(Data, $content),
        ]
    };
}

static CASES: [&[Step]; 8] = [
    // One right after the other, and with a gap of one byte.
    written!(2, b"ZZ", 4, b"ZZ", b"ab\xA5\xA5\xA5\xA5ghij"),
    written!(2, b"ZZ", 5, b"ZZ", b"ab\xA5\xA5e\xA5\xA5hij"),
    // The second begins within the first. It ends within it, at its end, and past it.
    written!(2, b"ZZZZ", 3, b"ZZ", b"ab\xA5\xA5\xA5\xA5ghij"),
    written!(2, b"ZZZZ", 4, b"ZZ", b"ab\xA5\xA5\xA5\xA5ghij"),
    written!(2, b"ZZZZ", 5, b"ZZZ", b"ab\xA5\xA5\xA5\xA5\xA5\xA5ij"),
    // The second begins before the first.
    written!(4, b"ZZ", 2, b"ZZ", b"ab\xA5\xA5\xA5\xA5ghij"),
    // One of them has no bytes.
    written!(2, b"", 2, b"ZZ", b"ab\xA5\xA5efghij"),
    written!(2, b"ZZ", 4, b"", b"ab\xA5\xA5efghij"),
];

#[test]
fn just_the_written_places_vary(rt: HostRuntime) -> Result<(), DeviceError> {
    follow_each(&rt, rt.alloc(), &CASES)
}

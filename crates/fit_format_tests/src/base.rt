// The base types and the checksums. They are known ones, and the rows are those of the protocol's table.

use crate::equality::equal;
use fit_base::{Arch, BaseType, Crc, Crc32, FieldValue, put};
use std::process::Abort;

// Three values of one type, in both byte orders.
#[derive(Drop)]
struct Case<'a> {
    code: u8,
    little: &'a [u8],
    big: &'a [u8],
    numbers: [u64; 3],
    invalid: [bool; 3],
}

#[test]
fn the_example_of_the_crate(rt: HostRuntime) {
    let field = FieldValue::new(0x84, Arch::Little, &[0xC8, 0x00, 0xFF, 0xFF]);
    assert_eq!(rt; field.count(), 2);
    equal(&rt, (field.unsigned(0), field.is_invalid(1)), (200, true));
    equal(&rt, Crc::of(b"123456789"), 0xBB3D);
}

#[test]
fn checksums(rt: HostRuntime) {
    let header = [
        0x0E, 0x10, 0x64, 0x00, 0x12, 0x00, 0x00, 0x00, 0x2E, 0x46, 0x49, 0x54,
    ];
    equal(&rt, Crc::of(&[]), 0);
    equal(&rt, Crc::of(b"123456789"), 0xBB3D);
    equal(&rt, Crc::of(&header), 0x3BA1);
    let mut pieces = Crc::new();
    pieces.add(&header[..5]);
    pieces.add(&header[5..]);
    equal(&rt, pieces.value(), 0x3BA1);
    pieces.add(&[0xA1, 0x3B]);
    equal(&rt, pieces.value(), 0);
}

// CRC-32 of these bytes in one piece, and in two that meet at each place.
fn in_pieces(rt: &impl Abort, bytes: &[u8], checksum: u32) {
    equal(rt, Crc32::of(bytes), checksum);
    for end in 0..=bytes.len() {
        let mut pieces = Crc32::new();
        pieces.add(&bytes[..end]);
        let mut rest = Crc32::with_value(pieces.value());
        rest.add(&bytes[end..]);
        equal(rt, rest.value(), checksum);
    }
}

// The checksums are those that zlib computes.
#[test]
fn checksums_of_32_bits(rt: HostRuntime) {
    in_pieces(&rt, &[], 0);
    in_pieces(&rt, b"123456789", 0xCBF43926);
    in_pieces(&rt, &[0; 16], 0xECBB4B55);
    in_pieces(&rt, &[0xFF; 33], 0x682DB523);
    let text = b"The quick brown fox jumps over the lazy dog";
    in_pieces(&rt, text, 0x414FA339);
}

#[test]
fn types_by_their_bytes(rt: HostRuntime) {
    let rows: [(u8, usize, bool); 17] = [
        (0x00, 1, false),
        (0x01, 1, true),
        (0x02, 1, false),
        (0x07, 1, false),
        (0x0A, 1, false),
        (0x0D, 1, false),
        (0x83, 2, true),
        (0x84, 2, false),
        (0x85, 4, true),
        (0x86, 4, false),
        (0x88, 4, false),
        (0x89, 8, false),
        (0x8B, 2, false),
        (0x8C, 4, false),
        (0x8E, 8, true),
        (0x8F, 8, false),
        (0x90, 8, false),
    ];
    // No other byte is a type.
    for code in 0..=255u8 {
        let mut wanted = None;
        for (known, size, signed) in rows {
            if known == code {
                wanted = Some((code, size, signed));
            }
        }
        let found = match BaseType::of(code) {
            Some(base) => Some((base.code(), base.size(), base.is_signed())),
            None => None,
        };
        equal(&rt, found, wanted);
    }
}

// Each type at 0, at its greatest value and at its invalid value; if 0 is the invalid value, the third is another one.
static CASES: [Case<'static>; 18] = [
    Case {
        code: 0x00,
        little: &[0x00, 0xFE, 0xFF],
        big: &[0x00, 0xFE, 0xFF],
        numbers: [0, 0xFE, 0xFF],
        invalid: [false, false, true],
    },
    Case {
        code: 0x01,
        little: &[0x00, 0x7E, 0x7F],
        big: &[0x00, 0x7E, 0x7F],
        numbers: [0, 0x7E, 0x7F],
        invalid: [false, false, true],
    },
    Case {
        code: 0x02,
        little: &[0x00, 0xFE, 0xFF],
        big: &[0x00, 0xFE, 0xFF],
        numbers: [0, 0xFE, 0xFF],
        invalid: [false, false, true],
    },
    Case {
        code: 0x83,
        little: &[0x00, 0x00, 0xFE, 0x7F, 0xFF, 0x7F],
        big: &[0x00, 0x00, 0x7F, 0xFE, 0x7F, 0xFF],
        numbers: [0, 0x7FFE, 0x7FFF],
        invalid: [false, false, true],
    },
    Case {
        code: 0x84,
        little: &[0x00, 0x00, 0xFE, 0xFF, 0xFF, 0xFF],
        big: &[0x00, 0x00, 0xFF, 0xFE, 0xFF, 0xFF],
        numbers: [0, 0xFFFE, 0xFFFF],
        invalid: [false, false, true],
    },
    Case {
        code: 0x85,
        little: &[
            0x00, 0x00, 0x00, 0x00, 0xFE, 0xFF, 0xFF, 0x7F, 0xFF, 0xFF, 0xFF, 0x7F,
        ],
        big: &[
            0x00, 0x00, 0x00, 0x00, 0x7F, 0xFF, 0xFF, 0xFE, 0x7F, 0xFF, 0xFF, 0xFF,
        ],
        numbers: [0, 0x7FFF_FFFE, 0x7FFF_FFFF],
        invalid: [false, false, true],
    },
    Case {
        code: 0x86,
        little: &[
            0x00, 0x00, 0x00, 0x00, 0xFE, 0xFF, 0xFF, 0xFF, 0xFF, 0xFF, 0xFF, 0xFF,
        ],
        big: &[
            0x00, 0x00, 0x00, 0x00, 0xFF, 0xFF, 0xFF, 0xFE, 0xFF, 0xFF, 0xFF, 0xFF,
        ],
        numbers: [0, 0xFFFF_FFFE, 0xFFFF_FFFF],
        invalid: [false, false, true],
    },
    Case {
        code: 0x07,
        little: &[0x00, 0xFF, 0x61],
        big: &[0x00, 0xFF, 0x61],
        numbers: [0, 0xFF, 0x61],
        invalid: [true, false, false],
    },
    Case {
        code: 0x88,
        little: &[
            0x00, 0x00, 0x00, 0x00, 0xFF, 0xFF, 0x7F, 0x7F, 0xFF, 0xFF, 0xFF, 0xFF,
        ],
        big: &[
            0x00, 0x00, 0x00, 0x00, 0x7F, 0x7F, 0xFF, 0xFF, 0xFF, 0xFF, 0xFF, 0xFF,
        ],
        numbers: [0, 0x7F7F_FFFF, 0xFFFF_FFFF],
        invalid: [false, false, true],
    },
    Case {
        code: 0x89,
        little: &[
            0x00, 0x00, 0x00, 0x00, 0x00, 0x00, 0x00, 0x00, 0xFF, 0xFF, 0xFF, 0xFF, 0xFF, 0xFF,
            0xEF, 0x7F, 0xFF, 0xFF, 0xFF, 0xFF, 0xFF, 0xFF, 0xFF, 0xFF,
        ],
        big: &[
            0x00, 0x00, 0x00, 0x00, 0x00, 0x00, 0x00, 0x00, 0x7F, 0xEF, 0xFF, 0xFF, 0xFF, 0xFF,
            0xFF, 0xFF, 0xFF, 0xFF, 0xFF, 0xFF, 0xFF, 0xFF, 0xFF, 0xFF,
        ],
        numbers: [0, 0x7FEF_FFFF_FFFF_FFFF, 0xFFFF_FFFF_FFFF_FFFF],
        invalid: [false, false, true],
    },
    Case {
        code: 0x0A,
        little: &[0x00, 0xFF, 0x01],
        big: &[0x00, 0xFF, 0x01],
        numbers: [0, 0xFF, 1],
        invalid: [true, false, false],
    },
    Case {
        code: 0x8B,
        little: &[0x00, 0x00, 0xFF, 0xFF, 0x00, 0x01],
        big: &[0x00, 0x00, 0xFF, 0xFF, 0x01, 0x00],
        numbers: [0, 0xFFFF, 0x0100],
        invalid: [true, false, false],
    },
    Case {
        code: 0x8C,
        little: &[
            0x00, 0x00, 0x00, 0x00, 0xFF, 0xFF, 0xFF, 0xFF, 0x04, 0x03, 0x02, 0x01,
        ],
        big: &[
            0x00, 0x00, 0x00, 0x00, 0xFF, 0xFF, 0xFF, 0xFF, 0x01, 0x02, 0x03, 0x04,
        ],
        numbers: [0, 0xFFFF_FFFF, 0x0102_0304],
        invalid: [true, false, false],
    },
    Case {
        code: 0x8E,
        little: &[
            0x00, 0x00, 0x00, 0x00, 0x00, 0x00, 0x00, 0x00, 0xFE, 0xFF, 0xFF, 0xFF, 0xFF, 0xFF,
            0xFF, 0x7F, 0xFF, 0xFF, 0xFF, 0xFF, 0xFF, 0xFF, 0xFF, 0x7F,
        ],
        big: &[
            0x00, 0x00, 0x00, 0x00, 0x00, 0x00, 0x00, 0x00, 0x7F, 0xFF, 0xFF, 0xFF, 0xFF, 0xFF,
            0xFF, 0xFE, 0x7F, 0xFF, 0xFF, 0xFF, 0xFF, 0xFF, 0xFF, 0xFF,
        ],
        numbers: [0, 0x7FFF_FFFF_FFFF_FFFE, 0x7FFF_FFFF_FFFF_FFFF],
        invalid: [false, false, true],
    },
    Case {
        code: 0x8F,
        little: &[
            0x00, 0x00, 0x00, 0x00, 0x00, 0x00, 0x00, 0x00, 0xFE, 0xFF, 0xFF, 0xFF, 0xFF, 0xFF,
            0xFF, 0xFF, 0xFF, 0xFF, 0xFF, 0xFF, 0xFF, 0xFF, 0xFF, 0xFF,
        ],
        big: &[
            0x00, 0x00, 0x00, 0x00, 0x00, 0x00, 0x00, 0x00, 0xFF, 0xFF, 0xFF, 0xFF, 0xFF, 0xFF,
            0xFF, 0xFE, 0xFF, 0xFF, 0xFF, 0xFF, 0xFF, 0xFF, 0xFF, 0xFF,
        ],
        numbers: [0, 0xFFFF_FFFF_FFFF_FFFE, 0xFFFF_FFFF_FFFF_FFFF],
        invalid: [false, false, true],
    },
    Case {
        code: 0x90,
        little: &[
            0x00, 0x00, 0x00, 0x00, 0x00, 0x00, 0x00, 0x00, 0xFF, 0xFF, 0xFF, 0xFF, 0xFF, 0xFF,
            0xFF, 0xFF, 0x08, 0x07, 0x06, 0x05, 0x04, 0x03, 0x02, 0x01,
        ],
        big: &[
            0x00, 0x00, 0x00, 0x00, 0x00, 0x00, 0x00, 0x00, 0xFF, 0xFF, 0xFF, 0xFF, 0xFF, 0xFF,
            0xFF, 0xFF, 0x01, 0x02, 0x03, 0x04, 0x05, 0x06, 0x07, 0x08,
        ],
        numbers: [0, 0xFFFF_FFFF_FFFF_FFFF, 0x0102_0304_0506_0708],
        invalid: [true, false, false],
    },
    Case {
        code: 0x0D,
        little: &[0x00, 0xFE, 0xFF],
        big: &[0x00, 0xFE, 0xFF],
        numbers: [0, 0xFE, 0xFF],
        invalid: [false, false, false],
    },
    Case {
        code: 0x0D,
        little: &[0xFF, 0xFF, 0xFF],
        big: &[0xFF, 0xFF, 0xFF],
        numbers: [0xFF, 0xFF, 0xFF],
        invalid: [true, true, true],
    },
];

#[test]
fn values_of_each_type(rt: HostRuntime) {
    for case in &CASES {
        check(&rt, case, Arch::Little, case.little);
        check(&rt, case, Arch::Big, case.big);
    }
}

// The value at this place and whether it is invalid, if there is a value.
fn value_at(field: &FieldValue, at: usize) -> Option<(u64, bool)> {
    if at < field.count() {
        Some((field.unsigned(at), field.is_invalid(at)))
    } else {
        None
    }
}

// Asserts that the field has so many of the values of the case, and no others.
fn check_values(rt: &impl Abort, case: &Case, field: &FieldValue, count: usize) {
    let code = case.code;
    equal(rt, (code, field.count()), (code, count));
    for i in 0..3 {
        let wanted = if i < count {
            Some((case.numbers[i], case.invalid[i]))
        } else {
            None
        };
        equal(rt, (code, i, value_at(field, i)), (code, i, wanted));
    }
}

// Asserts that the bytes are no whole number of values.
fn check_ragged(rt: &impl Abort, code: u8, arch: Arch, bytes: &[u8]) {
    let ragged = FieldValue::new(code, arch, bytes);
    let is_ragged = ragged.is_raw() && ragged.count() == 0;
    assert!(rt; is_ragged && ragged.raw() == bytes, "of {code}");
}

// Three values, one value, no value, and bytes that are no whole number of values.
fn check(rt: &impl Abort, case: &Case, arch: Arch, bytes: &[u8]) {
    let size = bytes.len() / 3;
    check_values(rt, case, &FieldValue::new(case.code, arch, bytes), 3);
    let one = FieldValue::new(case.code, arch, &bytes[..size]);
    check_values(rt, case, &one, 1);
    check_values(rt, case, &FieldValue::new(case.code, arch, &[]), 0);
    if size > 1 {
        check_ragged(rt, case.code, arch, &bytes[1..]);
    }
}

#[test]
fn a_byte_field_that_is_all_ff(rt: HostRuntime) {
    let one = FieldValue::new(0x0D, Arch::Little, &[0xFF]);
    // All its bytes are FF.
    equal(
        &rt,
        (one.count(), value_at(&one, 0)),
        (1, Some((0xFF, true))),
    );
    let unknown = FieldValue::new(0x91, Arch::Big, &[0xFF, 0xFF]);
    equal(&rt, (unknown.is_raw(), unknown.count()), (true, 0));
    equal(&rt, (unknown.base(), unknown.arch()), (0x91, Arch::Big));
}

const BYTES: [u8; 8] = [0x80, 0x00, 0x00, 0x00, 0x7F, 0xFF, 0xFF, 0xFE];

// A type, a byte order, bytes, and their values.
static SIGNED: [(u8, Arch, &[u8], &[i64]); 8] = [
    (0x01, Arch::Big, &[0x80, 0x00, 0x00, 0x00], &[-128, 0, 0, 0]),
    (
        0x01,
        Arch::Big,
        &[0x7F, 0xFF, 0xFF, 0xFE],
        &[127, -1, -1, -2],
    ),
    (0x83, Arch::Big, &BYTES, &[-32768, 0, 32767, -2]),
    (0x83, Arch::Little, &BYTES, &[128, 0, -129, -257]),
    (0x85, Arch::Big, &BYTES, &[-2_147_483_648, 2_147_483_646]),
    (0x85, Arch::Little, &BYTES, &[128, -16_777_345]),
    (0x8E, Arch::Big, &BYTES, &[-9_223_372_034_707_292_162]),
    (0x8E, Arch::Little, &BYTES, &[-72_058_148_088_708_992]),
];

#[test]
fn values_with_a_sign(rt: HostRuntime) {
    for (code, arch, bytes, wanted) in SIGNED {
        check_signed(&rt, &FieldValue::new(code, arch, bytes), wanted);
    }
}

fn check_signed(rt: &impl Abort, field: &FieldValue, wanted: &[i64]) {
    let code = field.base();
    equal(rt, (code, field.count()), (code, wanted.len()));
    for (i, value) in wanted.iter().enumerate() {
        equal(rt, (code, i, signed_at(field, i)), (code, i, Some(*value)));
    }
}

// The value at this place, if there is one and its type has a sign.
fn signed_at(field: &FieldValue, at: usize) -> Option<i64> {
    match field.base_type() {
        Some(base) if base.is_signed() && at < field.count() => Some(field.signed(at)),
        _ => None,
    }
}

#[test]
fn text_ends_at_a_zero_byte(rt: HostRuntime) {
    equal(&rt, text_of(b"ride\0\0"), Some("ride"));
    equal(&rt, text_of(b"ride"), Some("ride"));
    equal(&rt, text_of(b"\0ride"), Some(""));
    equal(&rt, text_of(&[0x61, 0x00, 0xFF]), Some("a"));
    equal(&rt, text_of(&[0x61, 0xFF, 0x00]), None);
}

fn text_of(bytes: &[u8]) -> Option<&str> {
    FieldValue::new(0x07, Arch::Little, bytes).text()
}

#[test]
fn puts_and_reads_back(rt: HostRuntime) {
    put_one_byte(&rt);
    put_two_bytes(&rt);
    put_four_bytes(&rt);
    put_eight_bytes(&rt);
}

fn put_one_byte(rt: &impl Abort) {
    let mut one = [0];
    put(BaseType::Sint8, Arch::Little, -128, &mut one);
    equal(rt, one, [0x80]);
    put(BaseType::Byte, Arch::Big, 255, &mut one);
    equal(rt, one, [0xFF]);
}

fn put_two_bytes(rt: &impl Abort) {
    let mut two = [0, 0];
    put(BaseType::Sint16, Arch::Big, -2, &mut two);
    equal(rt, two, [0xFF, 0xFE]);
    equal(rt, FieldValue::new(0x83, Arch::Big, &two).signed(0), -2);
    put(BaseType::Uint16z, Arch::Little, 1, &mut two);
    equal(rt, two, [0x01, 0x00]);
}

fn put_four_bytes(rt: &impl Abort) {
    let mut four = [0, 0, 0, 0];
    put(BaseType::Uint32, Arch::Little, 0x1234_5678, &mut four);
    equal(rt, four, [0x78, 0x56, 0x34, 0x12]);
    put(BaseType::Sint32, Arch::Big, 2_147_483_647, &mut four);
    equal(rt, four, [0x7F, 0xFF, 0xFF, 0xFF]);
}

fn put_eight_bytes(rt: &impl Abort) {
    let mut eight = [0, 0, 0, 0, 0, 0, 0, 0];
    put(
        BaseType::Float64,
        Arch::Big,
        0x3FF0_0000_0000_0000,
        &mut eight,
    );
    equal(rt, eight, [0x3F, 0xF0, 0, 0, 0, 0, 0, 0]);
    let back = FieldValue::new(0x89, Arch::Big, &eight);
    equal(rt, back.unsigned(0), 0x3FF0_0000_0000_0000);
    put(BaseType::Sint64, Arch::Little, -2, &mut eight);
    equal(rt, eight, [0xFE, 0xFF, 0xFF, 0xFF, 0xFF, 0xFF, 0xFF, 0xFF]);
    equal(
        rt,
        FieldValue::new(0x8E, Arch::Little, &eight).signed(0),
        -2,
    );
}

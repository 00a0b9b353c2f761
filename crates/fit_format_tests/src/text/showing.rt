// How values, dates and the names of messages and fields are shown, each in the text of a whole file.

use super::assert_shown;
use crate::definitions::{Put, define, file_of, put_data};
use crate::known_files::empty_file;
use arrayvec::ArrayVec;
use fit_base::Arch;
use fit_grammar::{Definition, FieldDefinition, File, Frame, PutFault};
use std::alloc::{AllocError, Global};
use std::process::Abort;
use std::test::Fail;

// The text of a file of one message with one field of so many bytes. The definition has nine bytes; the message has one byte and its
// field.
fn whole(
    alloc: Global,
    global: u16,
    name: &str,
    length: usize,
    text: &str,
) -> Result<String, AllocError> {
    let message = match global {
        0 => "file_id",
        18 => "session",
        19 => "lap",
        20 => "record",
        _ => "message_1000",
    };
    let size = length.saturating_add(10);
    format!(in alloc;
        "header 14 protocol 1.0 profile 100 data {size}\n0 {message} {name}={text}\nmessages 1\n"
    )
}

// Asserts that a field with these bytes is shown as this text, in a file of one message. The field is the global number of its
// message, its own number, its name and its base type. Times are shown as dates or as numbers.
fn check_shown(
    rt: &impl Abort,
    alloc: Global,
    utc: bool,
    arch: Arch,
    field: (u16, u8, &str, u8),
    bytes: &[u8],
    text: &str,
) -> Result<(), Fail> {
    let (global, number, name, base) = field;
    let fields = [(number, u8::try_from(bytes.len())?, base)];
    let items = [
        Put::Definition(0, arch, global, &fields, &[]),
        Put::Data(0, None, bytes),
    ];
    let text = whole(alloc, global, name, bytes.len(), text)?;
    assert_shown(rt, alloc, &file_of(alloc, &items)?, utc, &text)
}

// A base type, bytes, and how they are shown.
static VALUES: [(u8, &[u8], &str); 43] = [
    (0x00, &[4], "4"),
    (0x00, &[0xFF], "-"),
    (0x00, &[], ""),
    (0x01, &[0xFF, 0x80, 0x7F], "-1,-128,-"),
    (0x02, &[0x64, 0xFF, 0], "100,-,0"),
    (0x83, &[0xFE, 0xFF], "-2"),
    (0x83, &[0xFF, 0x7F], "-"),
    (0x84, &[1, 0, 0xFF, 0xFF, 3, 0], "1,-,3"),
    (0x84, &[1, 2, 3], "0x010203"),
    (0x85, &[0, 0, 0, 0x80], "-2147483648"),
    (0x85, &[0xFF, 0xFF, 0xFF, 0x7F], "-"),
    (0x86, &[0, 0xCA, 0x9A, 0x3B], "1000000000"),
    (0x86, &[0xFF, 0xFF, 0xFF, 0xFF], "-"),
    (0x07, &[0x46, 0x49, 0x54, 0, 0x41], "\"FIT\""),
    (0x07, &[0x46, 0x49], "\"FI\""),
    (0x07, &[0], "\"\""),
    (0x07, &[], ""),
    (
        0x07,
        &[0x22, 0x5C, 0x0A, 0x20, 0x7E, 0x7F, 0xE2],
        "\"\\x22\\x5C\\x0A ~\\x7F\\xE2\"",
    ),
    (0x88, &[0, 0, 0x80, 0x3F], "0x3F800000"),
    (0x88, &[0xFF, 0xFF, 0xFF, 0xFF, 1, 0, 0, 0], "-,0x00000001"),
    (0x89, &[0, 0, 0, 0, 0, 0, 0xF0, 0x3F], "0x3FF0000000000000"),
    (0x89, &[0xFF; 8], "-"),
    (0x0A, &[0, 0xFF], "-,255"),
    (0x8B, &[0, 0, 1, 0], "-,1"),
    (0x8C, &[7, 0, 0, 0], "7"),
    (0x8C, &[0, 0, 0, 0], "-"),
    (0x0D, &[0, 0xFF], "0x00FF"),
    (0x0D, &[0xFF, 0xFF], "-"),
    (0x0D, &[], ""),
    (0x0F, &[1, 2, 0xAB], "0x0102AB"),
    (0x0F, &[0xFF], "0xFF"),
    (0x0F, &[], ""),
    (0x8E, &[1, 0, 0, 0, 0, 0, 0, 0], "1"),
    (0x8E, &[0xFF; 8], "-1"),
    (0x8E, &[0, 0, 0, 0, 0, 0, 0, 0x80], "-9223372036854775808"),
    (0x8E, &[0xFF, 0xFF, 0xFF, 0xFF, 0xFF, 0xFF, 0xFF, 0x7F], "-"),
    (0x8E, &[1, 0, 0, 0], "0x01000000"),
    (
        0x8F,
        &[0xFE, 0xFF, 0xFF, 0xFF, 0xFF, 0xFF, 0xFF, 0xFF],
        "18446744073709551614",
    ),
    (0x8F, &[0xFF; 8], "-"),
    (
        0x8F,
        &[2, 0, 0, 0, 0, 0, 0, 0, 0, 0, 0, 0, 1, 0, 0, 0],
        "2,4294967296",
    ),
    (0x90, &[0, 0, 0, 0, 0, 0, 0, 0], "-"),
    (0x91, &[1, 0, 0, 0, 0, 0, 0, 0], "0x0100000000000000"),
    (0x06, &[1, 0], "0x0100"),
];

#[test]
fn shows_values(rt: HostRuntime) -> Result<(), Fail> {
    for (base, bytes, text) in VALUES {
        let field = (20, 99, "field_99", base);
        check_shown(&rt, rt.alloc(), false, Arch::Little, field, bytes, text)?;
    }
    let (field, bytes) = ((20, 99, "field_99", 0x86), [0, 0, 1, 2]);
    check_shown(&rt, rt.alloc(), false, Arch::Big, field, &bytes, "258")
}

// Times, and how they are shown.
static TIMES: [(u32, &str); 13] = [
    (1_000_000_000, "2021-09-08T01:46:40Z"),
    (0x1000_0000, "1998-07-03T21:24:16Z"),
    (0x0FFF_FFFF, "268435455"),
    (0, "0"),
    (315_619_199, "1999-12-31T23:59:59Z"),
    (315_619_200, "2000-01-01T00:00:00Z"),
    (320_803_199, "2000-02-29T23:59:59Z"),
    (320_803_200, "2000-03-01T00:00:00Z"),
    (347_198_400, "2000-12-31T12:00:00Z"),
    (3_476_476_799, "2100-02-28T23:59:59Z"),
    (3_476_476_800, "2100-03-01T00:00:00Z"),
    (0xFFFF_FFFE, "2126-02-06T06:28:14Z"),
    (0xFFFF_FFFF, "-"),
];

// A time in a message without a name, and in a record.
static TIMESTAMPS: [(u16, u8, &str, u8); 2] = [
    (1000, 253, "timestamp", 0x86),
    (20, 253, "timestamp", 0x86),
];

#[test]
fn shows_dates(rt: HostRuntime) -> Result<(), Fail> {
    let [unnamed, record] = TIMESTAMPS;
    for (time, text) in TIMES {
        let (little, big) = (time.to_le_bytes(), time.to_be_bytes());
        check_shown(&rt, rt.alloc(), true, Arch::Little, unnamed, &little, text)?;
        check_shown(&rt, rt.alloc(), true, Arch::Big, record, &big, text)?;
    }
    Ok(())
}

const TIME: [u8; 4] = [0, 0xCA, 0x9A, 0x3B];

const DATE: &str = "2021-09-08T01:46:40Z";

const NUMBER: &str = "1000000000";

// Whether times are shown as dates, the field, its bytes and their text.
static FIELDS: [(bool, (u16, u8, &str, u8), &[u8], &str); 13] = [
    (true, (0, 4, "time_created", 0x86), &TIME, DATE),
    (true, (18, 2, "start_time", 0x86), &TIME, DATE),
    (true, (19, 2, "start_time", 0x86), &TIME, DATE),
    (false, (0, 4, "time_created", 0x86), &TIME, NUMBER),
    (false, (20, 253, "timestamp", 0x86), &TIME, NUMBER),
    (true, (0, 2, "product", 0x86), &TIME, NUMBER),
    (true, (19, 4, "field_4", 0x86), &TIME, NUMBER),
    (true, (20, 5, "distance", 0x86), &TIME, NUMBER),
    (true, (0, 3, "serial_number", 0x86), &TIME, NUMBER),
    (true, (20, 253, "timestamp", 0x8C), &TIME, NUMBER),
    (true, (20, 253, "timestamp", 0x85), &TIME, NUMBER),
    (
        true,
        (20, 253, "timestamp", 0x86),
        &[0, 0xCA, 0x9A, 0x3B, 0, 0xCA, 0x9A, 0x3B],
        "1000000000,1000000000",
    ),
    (true, (20, 253, "timestamp", 0x86), &[], ""),
];

// Which fields are dates, and what they have to hold.
#[test]
fn shows_other_numbers_as_they_are(rt: HostRuntime) -> Result<(), Fail> {
    for (utc, field, bytes, text) in FIELDS {
        check_shown(&rt, rt.alloc(), utc, Arch::Little, field, bytes, text)?;
    }
    Ok(())
}

// A definition of one field of one byte, then fields of no bytes, numbered from 100 to below `last`.
fn definition(local: u8, global: u16, number: u8, last: u8) -> Result<Definition, Fail> {
    let mut fields = ArrayVec::new();
    fields.try_push(FieldDefinition {
        number,
        size: 1,
        base: 2,
    })?;
    for number in 100..last {
        fields.try_push(FieldDefinition {
            number,
            size: 0,
            base: 2,
        })?;
    }
    Ok(Definition {
        local,
        arch: Arch::Little,
        global,
        fields,
        developer: ArrayVec::new(),
    })
}

// A file with a file_id message of two fields.
fn example(alloc: Global) -> Result<File, PutFault> {
    let frame = Frame {
        header_size: 14,
        protocol: 0x10,
        profile: 100,
    };
    let mut fields = ArrayVec::new();
    fields.push(FieldDefinition {
        number: 0,
        size: 1,
        base: 0x00,
    });
    fields.push(FieldDefinition {
        number: 4,
        size: 4,
        base: 0x86,
    });
    let mut file = File::new(alloc, frame);
    file.define(&Definition {
        local: 0,
        arch: Arch::Little,
        global: 0,
        fields,
        developer: ArrayVec::new(),
    })?;
    file.data(0, None, &[4, 0x00, 0xCA, 0x9A, 0x3B])?;
    Ok(file)
}

#[test]
fn the_example_of_the_crate(rt: HostRuntime) -> Result<(), Fail> {
    let text =
        "header 14 protocol 1.0 profile 100 data 18\n0 file_id type=4 time_created=2021-09-08T01:46:40Z\nmessages 1\n";
    assert_shown(&rt, rt.alloc(), &example(rt.alloc())?, true, text)
}

// The definitions of sixteen local numbers, and of two of them again. Each begins with the number of the message that it comes
// before; then come its local number, its global number, the number of its first field, and the names of both.
static MANY: [(u8, u8, u16, u8, &'static str); 18] = [
    (0, 0, 0, 0, "file_id type"),
    (0, 1, 12, 0, "sport sport"),
    (0, 2, 18, 5, "session sport"),
    (0, 3, 19, 24, "lap lap_trigger"),
    (0, 4, 20, 3, "record heart_rate"),
    (0, 5, 21, 1, "event event_type"),
    (0, 6, 34, 2, "activity type"),
    (0, 7, 100, 3, "message_100 field_3"),
    (0, 8, 20, 4, "record cadence"),
    (0, 9, 20, 13, "record temperature"),
    (0, 10, 18, 16, "session avg_heart_rate"),
    (0, 11, 19, 15, "lap avg_heart_rate"),
    (0, 12, 0, 2, "file_id product"),
    (0, 13, 0, 253, "file_id timestamp"),
    (0, 14, 65534, 254, "message_65534 message_index"),
    (0, 15, 12, 1, "sport sub_sport"),
    (32, 3, 34, 4, "activity event_type"),
    (40, 12, 20, 7, "record power"),
];

// The names that a message has: those of the last definition of its local number before it.
fn names_of(message: u8) -> &'static str {
    let mut names = "";
    for (before, local, _, _, last) in MANY {
        if before <= message && local == message % 16 {
            names = last;
        }
    }
    names
}

// Adds a message that holds its own number, after the definitions that come before it.
fn put_message(file: &mut File, message: u8, last: u8) -> Result<(), Fail> {
    for (before, local, global, number, _) in MANY {
        if before == message {
            define(file, &definition(local, global, number, last)?)?;
        }
    }
    put_data(file, message % 16, None, &[message])?;
    Ok(())
}

// The text of the fields of no bytes.
fn empty_fields(alloc: Global, last: u8) -> Result<String, AllocError> {
    let mut text = String::new(alloc);
    for number in 100..last {
        text.push_str(&format!(in alloc; " field_{number}=")?)?;
    }
    Ok(text)
}

// Asserts how 64 messages with fields numbered to below `last` are shown. The data has this size.
fn check_many(rt: &impl Abort, alloc: Global, last: u8, size: u32) -> Result<(), Fail> {
    let empty = empty_fields(alloc, last)?;
    let mut file = empty_file(alloc);
    let mut text = format!(in alloc; "header 14 protocol 1.0 profile 100 data {size}\n")?;
    for message in 0..64_u8 {
        put_message(&mut file, message, last)?;
        let names = names_of(message);
        text.push_str(&format!(in alloc; "{message} {names}={message}{empty}\n")?)?;
    }
    text.push_str("messages 64\n")?;
    assert_shown(rt, alloc, &file, false, &text)
}

// Sixteen local numbers take turns, and two of them are defined again on the way. The columns of sixteen plans have room if each
// plan has one, and no room if each has 41 or 151.
#[test]
fn shows_many_definitions(rt: HostRuntime) -> Result<(), Fail> {
    for (last, size) in [(100, 290), (140, 2450), (250, 8390)] {
        check_many(&rt, rt.alloc(), last, size)?;
    }
    Ok(())
}

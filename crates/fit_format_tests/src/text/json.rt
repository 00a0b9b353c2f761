// Files as JSON. What a line has to be follows from RFC 8259 and from the table of `docs/PROGRAM.md`.

use super::joined;
use crate::definitions::{Put, file_of};
use crate::equality::equal;
use crate::slow::Slow;
use fit_base::Arch;
use fit_grammar::File;
use fit_text::show_json;
use std::alloc::{AllocError, Global};
use std::process::Abort;
use std::test::Fail;

// The JSON of the file. Times are dates or numbers.
fn json(alloc: Global, file: &File, utc: bool) -> Result<Vec<u8>, Fail> {
    let mut out = Vec::new(alloc);
    show_json(&file.lend(), utc, &mut out)?;
    Ok(out)
}

// The JSON of a file of one message with one field. The message is its global number and its name; the field has so many bytes, this
// name and this value. The definition has nine bytes; the message has one byte and its field.
fn whole(
    alloc: Global,
    message: (u16, &str),
    length: usize,
    key: &str,
    value: &str,
) -> Result<String, AllocError> {
    let (global, name) = message;
    let size = length.saturating_add(10);
    format!(in alloc;
        "{{\"header\":14,\"protocol\":\"1.0\",\"profile\":100,\"data\":{size}}}\n{{\"number\":0,\"message\":{global},\"name\":{name},\"fields\":{{\"{key}\":{value}}},\"developer\":[]}}\n{{\"messages\":1}}\n"
    )
}

// Asserts that a field with these bytes has this value, in a file of one message. The message is its global number and its name;
// the field is its number, its name and its base type.
fn check_written(
    rt: &impl Abort,
    alloc: Global,
    utc: bool,
    message: (u16, &str),
    field: (u8, &str, u8),
    bytes: &[u8],
    value: &str,
) -> Result<(), Fail> {
    let (number, key, base) = field;
    let fields = [(number, u8::try_from(bytes.len())?, base)];
    let items = [
        Put::Definition(0, Arch::Little, message.0, &fields, &[]),
        Put::Data(0, None, bytes),
    ];
    let out = json(alloc, &file_of(alloc, &items)?, utc)?;
    let text = whole(alloc, message, bytes.len(), key, value)?;
    equal(rt, out.as_slice(), text.as_bytes());
    Ok(())
}

// A base type, bytes, and their value.
static VALUES: [(u8, &[u8], &str); 29] = [
    (0x00, &[4], "4"),
    (0x00, &[0xFF], "null"),
    (0x01, &[0x80], "-128"),
    (0x01, &[0x7F], "null"),
    (0x01, &[0xFF, 0x80, 0x7F], "[-1,-128,null]"),
    (0x02, &[0xFF, 0xFF], "[null,null]"),
    (0x83, &[0xFE, 0xFF], "-2"),
    (0x84, &[1, 0, 0xFF, 0xFF, 3, 0], "[1,null,3]"),
    (0x84, &[1, 2, 3], "\"0x010203\""),
    (0x85, &[0xFF, 0xFF, 0xFF, 0x7F], "null"),
    (0x86, &[0, 0xCA, 0x9A, 0x3B], "1000000000"),
    (0x8C, &[0, 0, 0, 0], "null"),
    // Of 64 bits, past 2^53 and below -2^53.
    (0x8F, &[1, 0, 0, 0, 0, 0, 0x20, 0], "9007199254740993"),
    (
        0x8F,
        &[0xFE, 0xFF, 0xFF, 0xFF, 0xFF, 0xFF, 0xFF, 0xFF],
        "18446744073709551614",
    ),
    (
        0x8E,
        &[0xFF, 0xFF, 0xFF, 0xFF, 0xFF, 0xFF, 0xDF, 0xFF],
        "-9007199254740993",
    ),
    (0x8F, &[0xFF; 8], "null"),
    // 1.0 and the invalid value, of 32 bits and of 64.
    (0x88, &[0, 0, 0x80, 0x3F], "\"0x3F800000\""),
    (0x88, &[0xFF, 0xFF, 0xFF, 0xFF], "null"),
    (
        0x88,
        &[0, 0, 0x80, 0x3F, 0xFF, 0xFF, 0xFF, 0xFF],
        "[\"0x3F800000\",null]",
    ),
    (
        0x89,
        &[0, 0, 0, 0, 0, 0, 0xF0, 0x3F],
        "\"0x3FF0000000000000\"",
    ),
    (0x0D, &[0, 0xFF], "\"0x00FF\""),
    (0x0D, &[0xFF, 0xFF], "null"),
    // A type that is not known.
    (0x0F, &[1, 0xAB], "\"0x01AB\""),
    (0x07, &[0x46, 0x49, 0x54, 0, 0x41], "\"FIT\""),
    (0x07, &[0], "\"\""),
    // A quotation mark, a backslash, a line feed and a delete.
    (
        0x07,
        &[0x22, 0x5C, 0x0A, 0x20, 0x7E, 0x7F],
        "\"\\u0022\\u005C\\u000A ~\\u007F\"",
    ),
    // UTF-8 of two bytes and of three.
    (
        0x07,
        &[0x43, 0xC3, 0xA9, 0xE2, 0x98, 0x83],
        "\"C\u{E9}\u{2603}\"",
    ),
    // No UTF-8: a byte of Latin-1, and a surrogate.
    (0x07, &[0x43, 0xE9, 0x41], "\"C\\u00E9A\""),
    (0x07, &[0xED, 0xA0, 0x80], "\"\\u00ED\\u00A0\\u0080\""),
];

#[test]
fn writes_values(rt: HostRuntime) -> Result<(), Fail> {
    let record = (20, "\"record\"");
    for (base, bytes, value) in VALUES {
        let field = (99, "field_99", base);
        check_written(&rt, rt.alloc(), false, record, field, bytes, value)?;
    }
    Ok(())
}

const TIME: [u8; 4] = [0, 0xCA, 0x9A, 0x3B];

const DATE: &str = "\"2021-09-08T01:46:40Z\"";

const NUMBER: &str = "1000000000";

// Whether times are dates, the message, the field, and its value.
static DATES: [(bool, (u16, &str), (u8, &str, u8), &str); 5] = [
    (true, (20, "\"record\""), (253, "timestamp", 0x86), DATE),
    (false, (20, "\"record\""), (253, "timestamp", 0x86), NUMBER),
    (true, (0, "\"file_id\""), (4, "time_created", 0x86), DATE),
    (true, (20, "\"record\""), (5, "distance", 0x86), NUMBER),
    (true, (65534, "null"), (17, "field_17", 0x86), NUMBER),
];

#[test]
fn writes_dates_and_names(rt: HostRuntime) -> Result<(), Fail> {
    for (utc, message, field, value) in DATES {
        check_written(&rt, rt.alloc(), utc, message, field, &TIME, value)?;
    }
    Ok(())
}

// A record with a heart rate and two developer fields. With a compressed timestamp its time comes first. After it one without fields,
// and one whose field is there twice.
static ITEMS: [Put<'static>; 8] = [
    Put::Definition(
        0,
        Arch::Little,
        20,
        &[(3, 1, 0x02)],
        &[(0, 2, 0), (7, 0, 250)],
    ),
    Put::Data(0, None, &[0x64, 0xAB, 0x0C]),
    Put::Data(0, Some(3), &[0xFF, 0xFF, 0xFF]),
    Put::Definition(0, Arch::Little, 21, &[], &[]),
    Put::Data(0, None, &[]),
    Put::Data(0, Some(4), &[]),
    Put::Definition(
        0,
        Arch::Little,
        20,
        &[(4, 1, 0x02), (9, 0, 0x02), (4, 1, 0x01)],
        &[],
    ),
    Put::Data(0, None, &[0x50, 0x80]),
];

// Fields of size 0 are left out. Definitions of 16, 6 and 15 bytes, and messages of 4, 4, 1, 1 and 3.
static LINES: [&'static str; 7] = [
    "{\"header\":14,\"protocol\":\"1.0\",\"profile\":100,\"data\":50}\n",
    "{\"number\":0,\"message\":20,\"name\":\"record\",\"fields\":{\"heart_rate\":100},\"developer\":[{\"index\":0,\"number\":0,\"bytes\":\"0xAB0C\"}]}\n",
    "{\"number\":1,\"message\":20,\"name\":\"record\",\"fields\":{\"timestamp\":3,\"heart_rate\":null},\"developer\":[{\"index\":0,\"number\":0,\"bytes\":\"0xFFFF\"}]}\n",
    "{\"number\":2,\"message\":21,\"name\":\"event\",\"fields\":{},\"developer\":[]}\n",
    "{\"number\":3,\"message\":21,\"name\":\"event\",\"fields\":{\"timestamp\":4},\"developer\":[]}\n",
    "{\"number\":4,\"message\":20,\"name\":\"record\",\"fields\":{\"cadence\":80,\"cadence\":-128},\"developer\":[]}\n",
    "{\"messages\":5}\n",
];

#[test]
fn writes_a_line_for_each_message(rt: HostRuntime) -> Result<(), Fail> {
    let text = joined(rt.alloc(), &LINES)?;
    let out = json(rt.alloc(), &file_of(rt.alloc(), &ITEMS)?, true)?;
    equal(&rt, out.as_slice(), text.as_bytes());
    Ok(())
}

// A writer that takes seven bytes a call, and so many calls.
#[test]
fn a_writer_that_fails_has_a_prefix(rt: HostRuntime) -> Result<(), Fail> {
    let file = file_of(rt.alloc(), &ITEMS)?;
    let text = joined(rt.alloc(), &LINES)?;
    for calls in 0..120 {
        let mut out = Slow::new(rt.alloc(), 7, calls);
        let is_whole = show_json(&file.lend(), true, &mut out).is_ok();
        let taken = text.len().min(7 * calls);
        equal(&rt, out.written(), &text.as_bytes()[..taken]);
        equal(&rt, (calls, is_whole), (calls, taken == text.len()));
    }
    Ok(())
}

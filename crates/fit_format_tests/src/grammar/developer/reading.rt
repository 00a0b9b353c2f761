// The developer fields of a definition and of its messages, in every window.

use super::RECORD;
use crate::equality::equal;
use crate::grammar::items::{Read, Stated, define, read_items};
use fit_grammar::{Item, Step, Table, least_length, next_item};

static AFTER_FIELDS: [Read<'static>; 2] = [
    Read::Definition(&RECORD),
    Read::Message(
        &[0x00, 0x64, 0xAB, 0xCD],
        0,
        Stated {
            global: 20,
            time: None,
            fields: &[(3, 0x02, 100)],
            developer: &[(0, 0, &[0xAB, 0xCD])],
        },
    ),
];

#[test]
fn they_stand_after_the_fields(rt: HostRuntime) {
    read_items(&rt, &AFTER_FIELDS);
}

// The definition has both bits that are reserved in other headers, and the high byte first.
static SOME_EMPTY: [Read<'static>; 2] = [
    Read::Definition(&[0x71, 7, 0xFF, 0, 20, 0, 3, 5, 0, 9, 6, 1, 9, 7, 0, 250]),
    Read::Message(
        &[0x01, 0xEE],
        0,
        Stated {
            global: 20,
            time: None,
            fields: &[],
            developer: &[(9, 5, &[]), (9, 6, &[0xEE]), (250, 7, &[])],
        },
    ),
];

#[test]
fn some_have_no_byte(rt: HostRuntime) {
    read_items(&rt, &SOME_EMPTY);
}

// A definition that announces developer fields and has none.
const ANNOUNCED: [u8; 10] = [0x60, 0, 0, 20, 0, 1, 3, 1, 2, 0];

static NONE: [Read<'static>; 2] = [
    Read::Definition(&ANNOUNCED),
    Read::Message(
        &[0x00, 0x64],
        0,
        Stated {
            global: 20,
            time: None,
            fields: &[(3, 0x02, 100)],
            developer: &[],
        },
    ),
];

// How many bytes the definition at the front of this window has, its size when it is written, and its number of developer fields.
fn definition_in(window: &[u8]) -> Option<(usize, usize, usize)> {
    let table = Table::new();
    let Step::Item(item, used) = next_item(window, &table) else {
        return None;
    };
    let size = item.size();
    match item {
        Item::Definition(message) => Some((used, size, message.read().developer.len())),
        Item::Data(_) => None,
    }
}

#[test]
fn none_may_be_announced(rt: HostRuntime) {
    equal(&rt, definition_in(&ANNOUNCED), Some((10, 9, 0)));
    read_items(&rt, &NONE);
}

static AFTER_TIMESTAMP: [Read<'static>; 2] = [
    Read::Definition(&RECORD),
    Read::Message(
        &[0x85, 0x64, 0xAB, 0xCD],
        0,
        Stated {
            global: 20,
            time: Some(5),
            fields: &[(253, 0x86, 5), (3, 0x02, 100)],
            developer: &[(0, 0, &[0xAB, 0xCD])],
        },
    ),
];

#[test]
fn a_compressed_timestamp_stands_before_them(rt: HostRuntime) {
    read_items(&rt, &AFTER_TIMESTAMP);
}

// A developer field with the number of a time.
static NUMBER_OF_TIME: [Read<'static>; 2] = [
    Read::Definition(&[0x60, 0, 0, 20, 0, 0, 1, 253, 4, 0x86]),
    Read::Message(
        &[0, 0x00, 0xCA, 0x9A, 0x3B],
        9,
        Stated {
            global: 20,
            time: None,
            fields: &[],
            developer: &[(0x86, 253, &[0x00, 0xCA, 0x9A, 0x3B])],
        },
    ),
];

#[test]
fn none_of_them_is_a_time(rt: HostRuntime) {
    read_items(&rt, &NUMBER_OF_TIME);
}

static LATER: [Read<'static>; 3] = [
    Read::Definition(&RECORD),
    Read::Definition(&[0x40, 0, 0, 20, 0, 1, 3, 1, 2]),
    Read::Message(
        &[0x00, 0x65],
        0,
        Stated {
            global: 20,
            time: None,
            fields: &[(3, 0x02, 101)],
            developer: &[],
        },
    ),
];

#[test]
fn a_later_definition_has_none(rt: HostRuntime) {
    read_items(&rt, &LATER);
}

static LONG: [u8; 16] = [0x60, 0, 0, 20, 0, 1, 3, 1, 2, 2, 0, 2, 0, 1, 1, 0];

// The least length that so many of its first bytes show.
fn least_by(len: usize) -> usize {
    if len < 6 {
        6
    } else if len < 10 {
        10
    } else {
        16
    }
}

// Six bytes until the number of fields is known, then the bytes up to the number of developer fields, then all.
#[test]
fn as_long_as_the_bytes_state(rt: HostRuntime) {
    let mut table = Table::new();
    for len in 1..=LONG.len() {
        let reported = least_length(&LONG[..len], &table).ok();
        equal(&rt, (len, reported), (len, Some(least_by(len))));
    }
    define(&rt, &LONG, &mut table);
    // Its first byte, a field of one byte, and developer fields of two bytes and one.
    equal(&rt, least_length(&[0x00], &table).ok(), Some(5));
}

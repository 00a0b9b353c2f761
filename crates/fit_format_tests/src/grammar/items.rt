// Items as other writers write them, in every window.
use crate::equality::equal;
use arrayvec::ArrayVec;
use fit_base::Arch;
use fit_grammar::*;
use std::process::Abort;
use std::test::*;

// What a message has to state: its global number, its time, its fields (number, base type and value, one value each), and its
// developer fields (index, number and bytes).
#[derive(Drop)]
pub(super) struct Stated<'a> {
    pub(super) global: u16,
    pub(super) time: Option<u32>,
    pub(super) fields: &'a [(u8, u8, u64)],
    pub(super) developer: &'a [(u8, u8, &'a [u8])],
}

// The bytes of a definition; or those of a message, with the time before it and what it has to state.
#[derive(Drop)]
pub(super) enum Read<'a> {
    Definition(&'a [u8]),
    Message(&'a [u8], u32, Stated<'a>),
}

// Reads these items, one after the other.
pub(super) fn read_items(rt: &impl Abort, items: &[Read<'_>]) {
    let mut table = Table::new();
    for item in items {
        match item {
            Read::Definition(bytes) => define(rt, *bytes, &mut table),
            Read::Message(bytes, before, stated) => {
                let message = read_message(rt, *bytes, &table, *before);
                assert_stated(rt, &message, stated);
            }
        }
    }
}

fn assert_stated(rt: &impl Abort, message: &Message, stated: &Stated<'_>) {
    equal(rt, message.global(), stated.global);
    equal(rt, message.time(), stated.time);
    assert_fields(rt, message, stated.fields);
    assert_developer(rt, message, stated.developer);
}

fn needs_more(window: &[u8], table: &Table) -> bool {
    matches!(next_item(window, table), Step::NeedMore)
}

// Asserts that each shorter window needs more bytes.
fn assert_begun(rt: &impl Abort, bytes: &[u8], table: &Table) {
    for count in 0..bytes.len() {
        assert!(rt; needs_more(&bytes[..count], table), "{bytes:?} {count}");
    }
}

// Reads these bytes as a definition and puts it in force.
pub(super) fn define(rt: &impl Abort, bytes: &[u8], table: &mut Table) {
    assert_begun(rt, bytes, table);
    match next_item(bytes, table) {
        Step::Item(item, used) => match item {
            Item::Definition(message) => {
                equal(rt, used, bytes.len());
                let definition = message.read();
                table.take(&definition);
            }
            Item::Data(_) => panic!(rt; "a definition was expected"),
        },
        _ => panic!(rt; "an item was expected"),
    }
}

// Reads these bytes as a message.
fn read_message<'a>(
    rt: &impl Abort,
    bytes: &'a [u8],
    table: &'a Table,
    before: u32,
) -> Message<'a> {
    assert_begun(rt, bytes, table);
    match next_item(bytes, table) {
        Step::Item(item, used) => {
            equal(rt, used, bytes.len());
            message_of(&item, before).expect(rt, "a data message was expected")
        }
        _ => panic!(rt; "an item was expected"),
    }
}

// The number, the base type and the value of a field of one value.
fn row_of(field: &Field<'_>) -> Option<(u8, u8, u64)> {
    let value = &field.value;
    if value.count() == 1 {
        Some((field.number, value.base(), value.unsigned(0)))
    } else {
        None
    }
}

// Asserts that the fields have these numbers, base types and values, one value each.
fn assert_fields(rt: &impl Abort, message: &Message, rows: &[(u8, u8, u64)]) {
    let mut seen = 0usize;
    for field in message.fields() {
        let row = row_of(&field).expect(rt, "one value");
        equal(rt, Some(row), rows.get(seen).copied());
        seen = seen.saturating_add(1);
    }
    equal(rt, seen, rows.len());
}

// Asserts that the developer fields have these indexes, numbers and bytes.
fn assert_developer(rt: &impl Abort, message: &Message, rows: &[(u8, u8, &[u8])]) {
    let mut seen = 0usize;
    for field in message.developer_fields() {
        let row = (field.index, field.number, field.bytes);
        equal(rt, Some(row), rows.get(seen).copied());
        seen = seen.saturating_add(1);
    }
    equal(rt, seen, rows.len());
}

const REDEFINED: [Read<'static>; 4] = [
    Read::Definition(&[0x40, 0x00, 0x00, 0x14, 0x00, 0x01, 0x03, 0x01, 0x02]),
    Read::Message(
        &[0x00, 0x64],
        0,
        Stated {
            global: 20,
            time: None,
            fields: &[(3, 0x02, 100)],
            developer: &[],
        },
    ),
    Read::Definition(&[0x40, 0x00, 0x00, 0x14, 0x00, 0x01, 0x07, 0x02, 0x84]),
    Read::Message(
        &[0x00, 0xC8, 0x00],
        0,
        Stated {
            global: 20,
            time: None,
            fields: &[(7, 0x84, 200)],
            developer: &[],
        },
    ),
];

#[test]
fn a_second_definition_of_a_local_number(rt: HostRuntime) {
    read_items(&rt, &REDEFINED);
}

// An event with a full time, then records with offsets 0, 31 and 0.
const COMPRESSED: [Read<'static>; 6] = [
    Read::Definition(&[
        0x46, 0x00, 0x00, 0x15, 0x00, 0x03, 0xFD, 0x04, 0x86, 0x00, 0x01, 0x00, 0x01, 0x01, 0x00,
    ]),
    Read::Message(
        &[0x06, 0x00, 0xCA, 0x9A, 0x3B, 0x00, 0x00],
        0,
        Stated {
            global: 21,
            time: Some(1_000_000_000),
            fields: &[(253, 0x86, 1_000_000_000), (0, 0x00, 0), (1, 0x00, 0)],
            developer: &[],
        },
    ),
    Read::Definition(&[0x40, 0x00, 0x00, 0x14, 0x00, 0x01, 0x03, 0x01, 0x02]),
    Read::Message(
        &[0x80, 0x64],
        1_000_000_000,
        Stated {
            global: 20,
            time: Some(1_000_000_000),
            fields: &[(253, 0x86, 1_000_000_000), (3, 0x02, 100)],
            developer: &[],
        },
    ),
    Read::Message(
        &[0x9F, 0x65],
        1_000_000_000,
        Stated {
            global: 20,
            time: Some(1_000_000_031),
            fields: &[(253, 0x86, 1_000_000_031), (3, 0x02, 101)],
            developer: &[],
        },
    ),
    Read::Message(
        &[0x80, 0x66],
        1_000_000_031,
        Stated {
            global: 20,
            time: Some(1_000_000_032),
            fields: &[(253, 0x86, 1_000_000_032), (3, 0x02, 102)],
            developer: &[],
        },
    ),
];

#[test]
fn compressed_timestamps(rt: HostRuntime) {
    read_items(&rt, &COMPRESSED);
}

#[test]
fn a_time_that_is_invalid_states_nothing(rt: HostRuntime) {
    let mut table = Table::new();
    define(
        &rt,
        &[
            0x40, 0, 0, 20, 0, 3, 253, 2, 0x84, 253, 4, 0x86, 253, 4, 0x86,
        ],
        &mut table,
    );
    let bytes = [0, 5, 0, 0xFF, 0xFF, 0xFF, 0xFF, 7, 0, 0, 0];
    equal(&rt, read_message(&rt, &bytes, &table, 9).time(), Some(7));
    let bytes = [0, 5, 0, 0xFF, 0xFF, 0xFF, 0xFF, 0xFF, 0xFF, 0xFF, 0xFF];
    equal(&rt, read_message(&rt, &bytes, &table, 9).time(), None);
}

// The number and the two values of a field.
fn pair_of(field: &Field<'_>) -> Option<(u8, u64, u64)> {
    let value = &field.value;
    if value.count() == 2 {
        Some((field.number, value.unsigned(0), value.unsigned(1)))
    } else {
        None
    }
}

#[test]
fn high_byte_first(rt: HostRuntime) {
    let mut table = Table::new();
    let definition = [0x40, 0x00, 0x01, 0x00, 0x14, 0x01, 0x63, 0x04, 0x84];
    define(&rt, &definition, &mut table);
    let message = read_message(&rt, &[0x00, 0x00, 0x01, 0x00, 0x02], &table, 0);
    equal(&rt, message.global(), 20);
    for field in message.fields() {
        equal(&rt, pair_of(&field), Some((99, 1, 2)));
    }
}

// A definition of 255 fields and 255 developer fields of 255 bytes each.
fn largest_definition(rt: &impl Abort) -> Definition {
    let mut fields = ArrayVec::new();
    let mut developer = ArrayVec::new();
    for number in 0..255u8 {
        let added = fields.try_push(FieldDefinition {
            number,
            size: 255,
            base: 0x0D,
        });
        assert!(rt; added.is_ok());
        let added = developer.try_push(DeveloperFieldDefinition {
            number,
            size: 255,
            index: 254,
        });
        assert!(rt; added.is_ok());
    }
    Definition {
        local: 15,
        arch: Arch::Big,
        global: 0xFF00,
        fields,
        developer,
    }
}

// Asserts that the bytes are the largest data message, and that one byte less needs more.
fn assert_largest(rt: &impl Abort, bytes: &[u8], table: &Table) {
    assert_eq!(rt; bytes.len(), 130_051);
    equal(rt, least_length(&bytes[..1], table).ok(), Some(130_051));
    let front = bytes.len() - 1;
    assert!(rt; matches!(next_item(&bytes[..front], table), Step::NeedMore));
    match next_item(bytes, table) {
        Step::Item(Item::Data(data), _) => {
            equal(rt, data.local, 15);
            equal(rt, data.content.len(), 130_050);
            equal(rt, data.definition.global(), 0xFF00);
        }
        _ => panic!(rt; "a data message was expected"),
    }
}

#[test]
fn the_largest_definition_and_its_data(rt: HostRuntime) {
    let definition = largest_definition(&rt);
    assert!(rt; definition.local == 15 && definition.fields.len() == 255);
    assert!(rt; definition.developer.len() == 255);
    let mut bytes = [0u8; 1537];
    equal(&rt, write_definition(&definition, &mut bytes), 1537);
    let mut table = Table::new();
    define(&rt, &bytes, &mut table);
    let content = [1u8; 130_050];
    let mut item = [0u8; 130_051];
    equal(&rt, write_data(15, None, &content, &mut item), 130_051);
    assert_largest(&rt, &item, &table);
}

#[test]
fn each_local_number(rt: HostRuntime) {
    let mut table = Table::new();
    for local in 0..16u8 {
        define(&rt, &[0x40 + local, 0, 0, local, 0, 0], &mut table);
    }
    for local in 0..16u8 {
        let bytes = [local];
        let message = read_message(&rt, &bytes, &table, 0);
        equal(&rt, message.global(), u16::from(local));
    }
}

#[test]
fn each_first_byte(rt: HostRuntime) {
    let table = Table::new();
    for first in 0..=255u8 {
        let window = [first, 0, 0, 0, 0, 0, 0];
        match next_item(&window, &table) {
            Step::Item(item, used) => {
                assert!(rt; 0x40 <= first && first < 0x80);
                // A definition that announces developer fields has a byte for their number.
                let wanted = if first & 0x20 == 0 { 6 } else { 7 };
                equal(&rt, used, wanted);
                match item {
                    Item::Definition(message) => equal(&rt, message.local(), first & 0x0F),
                    Item::Data(_) => panic!(rt; "there is no definition"),
                }
            }
            Step::Refused(ItemFault::UndefinedLocal(local)) if first < 0x40 => {
                equal(&rt, local, first & 0x0F);
            }
            Step::Refused(ItemFault::UndefinedLocal(local)) => {
                assert!(rt; 0x80 <= first);
                equal(&rt, local, (first >> 5) & 3);
            }
            _ => panic!(rt; "the window has a whole item"),
        }
    }
}

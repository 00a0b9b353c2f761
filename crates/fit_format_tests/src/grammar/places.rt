// The items of a file, in their order.

use super::decoding::{COMPRESSED, REDEFINED};
use crate::known_files::{FILE_ID, empty_file};
use fit_grammar::{FileItem, decode_file};
use std::alloc::Global;
use std::test::*;

// What an item encodes: its local number, the global number of its definition, the offset and the time of a compressed
// timestamp, and its content.
#[derive(Clone, Copy, Debug, PartialEq, Eq)]
struct Reported<'a> {
    local: u8,
    global: u16,
    offset: Option<u8>,
    time: Option<u32>,
    content: Option<&'a [u8]>,
}

fn defined<'a>(local: u8, global: u16) -> Reported<'a> {
    Reported {
        local,
        global,
        offset: None,
        time: None,
        content: None,
    }
}

fn whole<'a>(local: u8, global: u16, content: &'a [u8]) -> Reported<'a> {
    Reported {
        local,
        global,
        offset: None,
        time: None,
        content: Some(content),
    }
}

fn short<'a>(local: u8, global: u16, offset: u8, time: u32, content: &'a [u8]) -> Reported<'a> {
    Reported {
        local,
        global,
        offset: Some(offset),
        time: Some(time),
        content: Some(content),
    }
}

fn reported_by<'a>(item: &FileItem<'a>) -> Reported<'a> {
    match item {
        FileItem::Definition(definition) => defined(definition.local(), definition.global()),
        FileItem::Data(data, time) => Reported {
            local: data.local,
            global: data.definition.global(),
            offset: data.offset,
            time: *time,
            content: Some(data.content),
        },
    }
}

// Whether these are the items of the bytes.
fn are_items(alloc: Global, bytes: &[u8], wanted: &[Reported<'_>]) -> bool {
    let Ok(file) = decode_file(alloc, bytes) else {
        return false;
    };
    let mut count = 0;
    for item in file.items() {
        if wanted.get(count) != Some(&reported_by(&item)) {
            return false;
        }
        count += 1;
    }
    count == wanted.len()
}

#[test]
fn lends_a_definition_and_its_data(rt: HostRuntime) {
    let content = [0x04, 0x00, 0xCA, 0x9A, 0x3B];
    assert!(rt;
        are_items(
            rt.alloc(),
            &FILE_ID,
            &[defined(0, 0), whole(0, 0, &content)]
        )
    );
}

#[test]
fn lends_data_under_the_last_definition(rt: HostRuntime) {
    let wanted = [
        defined(0, 20),
        whole(0, 20, &[0x64]),
        defined(0, 20),
        whole(0, 20, &[0xC8, 0x00]),
    ];
    assert!(rt; are_items(rt.alloc(), &REDEFINED, &wanted));
}

#[test]
fn lends_the_times_of_compressed_timestamps(rt: HostRuntime) {
    let wanted = [
        defined(6, 21),
        whole(6, 21, &[0x00, 0xCA, 0x9A, 0x3B, 0x00, 0x00]),
        defined(0, 20),
        short(0, 20, 0, 1_000_000_000, &[0x64]),
        short(0, 20, 31, 1_000_000_031, &[0x65]),
        short(0, 20, 0, 1_000_000_032, &[0x66]),
    ];
    assert!(rt; are_items(rt.alloc(), &COMPRESSED, &wanted));
}

#[test]
fn an_empty_file_has_no_item(rt: HostRuntime) {
    assert!(rt; empty_file(rt.alloc()).items().next().is_none());
}

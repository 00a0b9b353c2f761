// The names of all messages and of all their fields, as they are shown.

use super::{joined, shown};
use crate::definitions::{define, definition_with, put_data};
use crate::known_files::empty_file;
use arrayvec::ArrayVec;
use fit_base::Arch;
use fit_grammar::{Definition, FieldDefinition, File};
use std::alloc::{AllocError, Global};
use std::test::Fail;

// The rows of the profile: for each message its number, its name and its fields. They are stated here again, from the FIT profile,
// since the definition of the text reads the program's own table, and no proof would see a wrong name in it.
static ROWS: [(u16, &'static str, &[(u8, &'static str)]); 7] = [
    (
        0,
        "file_id",
        &[
            (0, "type"),
            (1, "manufacturer"),
            (2, "product"),
            (3, "serial_number"),
            (4, "time_created"),
        ],
    ),
    (12, "sport", &[(0, "sport"), (1, "sub_sport")]),
    (
        18,
        "session",
        &[
            (0, "event"),
            (1, "event_type"),
            (2, "start_time"),
            (5, "sport"),
            (6, "sub_sport"),
            (7, "total_elapsed_time"),
            (8, "total_timer_time"),
            (9, "total_distance"),
            (14, "avg_speed"),
            (15, "max_speed"),
            (16, "avg_heart_rate"),
            (17, "max_heart_rate"),
            (20, "avg_power"),
            (21, "max_power"),
            (25, "first_lap_index"),
            (26, "num_laps"),
            (28, "trigger"),
        ],
    ),
    (
        19,
        "lap",
        &[
            (0, "event"),
            (1, "event_type"),
            (2, "start_time"),
            (7, "total_elapsed_time"),
            (8, "total_timer_time"),
            (9, "total_distance"),
            (13, "avg_speed"),
            (14, "max_speed"),
            (15, "avg_heart_rate"),
            (16, "max_heart_rate"),
            (19, "avg_power"),
            (20, "max_power"),
            (24, "lap_trigger"),
        ],
    ),
    (
        20,
        "record",
        &[
            (0, "position_lat"),
            (1, "position_long"),
            (2, "altitude"),
            (3, "heart_rate"),
            (4, "cadence"),
            (5, "distance"),
            (6, "speed"),
            (7, "power"),
            (13, "temperature"),
            (73, "enhanced_speed"),
            (78, "enhanced_altitude"),
        ],
    ),
    (21, "event", &[(0, "event"), (1, "event_type")]),
    (
        34,
        "activity",
        &[
            (0, "total_timer_time"),
            (1, "num_sessions"),
            (2, "type"),
            (3, "event"),
            (4, "event_type"),
        ],
    ),
];

// The name of the message with this number, if it has one.
fn message_name(number: u16) -> Option<&'static str> {
    for (known, name, _) in ROWS {
        if known == number {
            return Some(name);
        }
    }
    None
}

// The name of a field that every message has, or of one of these fields.
fn field_name(fields: &[(u8, &'static str)], number: u8) -> Option<&'static str> {
    for (known, name) in [(253, "timestamp"), (254, "message_index")] {
        if known == number {
            return Some(name);
        }
    }
    for (known, name) in fields {
        if *known == number {
            return Some(*name);
        }
    }
    None
}

// Adds a message with fields of no bytes, numbered from `first` to `last`.
fn put_fields(file: &mut File, global: u16, first: u8, last: u8) -> Result<(), Fail> {
    let mut fields = ArrayVec::new();
    for number in first..=last {
        fields.try_push(FieldDefinition {
            number,
            size: 0,
            base: 2,
        })?;
    }
    let definition = Definition {
        local: 0,
        arch: Arch::Little,
        global,
        fields,
        developer: ArrayVec::new(),
    };
    define(file, &definition)?;
    put_data(file, 0, None, &[])?;
    Ok(())
}

// The line of a message with fields of no bytes, numbered from `first` to `last`.
fn line_of(
    alloc: Global,
    message: &str,
    fields: &[(u8, &'static str)],
    first: u8,
    last: u8,
) -> Result<String, AllocError> {
    let mut line = format!(in alloc; "{} {message}", first / 128)?;
    for number in first..=last {
        let field = match field_name(fields, number) {
            Some(name) => format!(in alloc; " {name}=")?,
            None => format!(in alloc; " field_{number}=")?,
        };
        line.push_str(&field)?;
    }
    line.push_str("\n")?;
    Ok(line)
}

// Whether all 256 fields of a message are shown with these names and those that every message has, and no others. The fields are
// in two messages, one half in each.
fn are_named(
    alloc: Global,
    global: u16,
    message: &str,
    fields: &[(u8, &'static str)],
) -> Result<bool, Fail> {
    let mut file = empty_file(alloc);
    let mut text = joined(alloc, &["header 14 protocol 1.0 profile 100 data 782\n"])?;
    for (first, last) in [(0, 127), (128, 255)] {
        put_fields(&mut file, global, first, last)?;
        text.push_str(&line_of(alloc, message, fields, first, last)?)?;
    }
    text.push_str("messages 2\n")?;
    let out = shown(alloc, &file, false)?;
    Ok(out.as_slice() == text.as_bytes())
}

#[test]
fn names_messages_and_fields(rt: HostRuntime) -> Result<(), Fail> {
    for (number, name, fields) in ROWS {
        assert!(rt; are_named(rt.alloc(), number, name, fields)?, "{number}");
    }
    for (number, name) in [(1, "message_1"), (1000, "message_1000")] {
        assert!(rt; are_named(rt.alloc(), number, name, &[])?, "{number}");
    }
    Ok(())
}

// The line of a message without fields. Its number is that of its kind.
fn named(alloc: Global, number: u16) -> Result<String, AllocError> {
    match message_name(number) {
        Some(name) => format!(in alloc; "{number} {name}\n"),
        None => format!(in alloc; "{number} message_{number}\n"),
    }
}

// A message of each number, without fields.
#[test]
fn names_a_message_of_each_number(rt: HostRuntime) -> Result<(), Fail> {
    let mut file = empty_file(rt.alloc());
    let front = "header 14 protocol 1.0 profile 100 data 458752\n";
    let mut text = joined(rt.alloc(), &[front])?;
    for number in 0..=65535 {
        let definition = definition_with(0, Arch::Little, number, &[], &[])?;
        define(&mut file, &definition)?;
        put_data(&mut file, 0, None, &[])?;
        text.push_str(&named(rt.alloc(), number)?)?;
    }
    text.push_str("messages 65536\n")?;
    let out = shown(rt.alloc(), &file, false)?;
    assert!(rt; out.as_slice() == text.as_bytes());
    Ok(())
}

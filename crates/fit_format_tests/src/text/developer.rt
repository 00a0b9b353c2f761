// How developer fields are shown, each in the text of a whole file.

use super::{assert_shown, joined};
use crate::definitions::{Put, define, definition_with, file_of, put_data};
use crate::known_files::empty_file;
use fit_base::Arch;
use fit_grammar::File;
use std::alloc::{AllocError, Global};
use std::test::Fail;

// Definitions of 19, 9 and 10 bytes, and messages of 8, 8, 2 and 2.
static ITEMS: [Put<'static>; 7] = [
    Put::Definition(
        0,
        Arch::Big,
        20,
        &[(3, 1, 0x02)],
        &[(0, 2, 0), (7, 0, 250), (253, 4, 1)],
    ),
    Put::Data(0, None, &[0x64, 0xAB, 0x0C, 0x3B, 0x9A, 0xCA, 0x00]),
    Put::Data(0, Some(3), &[0x65, 0xFF, 0xFF, 0, 0, 0, 0]),
    Put::Definition(0, Arch::Big, 20, &[(3, 1, 0x02)], &[]),
    Put::Data(0, None, &[0x66]),
    Put::Definition(0, Arch::Big, 20, &[], &[(5, 1, 2)]),
    Put::Data(0, None, &[0x67]),
];

static LINES: [&'static str; 6] = [
    "header 14 protocol 1.0 profile 100 data 58\n",
    "0 record heart_rate=100 developer_0_0=0xAB0C developer_250_7= developer_1_253=0x3B9ACA00\n",
    "1 record timestamp=3 heart_rate=101 developer_0_0=0xFFFF developer_250_7= developer_1_253=0x00000000\n",
    "2 record heart_rate=102\n",
    "3 record developer_2_5=0x67\n",
    "messages 4\n",
];

// A developer field is never shown as a date, whatever its number is. Its bytes are shown as they are.
#[test]
fn shows_them_after_the_fields(rt: HostRuntime) -> Result<(), Fail> {
    let text = joined(rt.alloc(), &LINES)?;
    let file = file_of(rt.alloc(), &ITEMS)?;
    assert_shown(&rt, rt.alloc(), &file, true, &text)
}

// Adds the line of a message with so many developer fields of one byte each.
fn push_line(alloc: Global, text: &mut String, message: u8, count: u8) -> Result<(), AllocError> {
    text.push_str(&format!(in alloc; "{message} record")?)?;
    for number in 0..count {
        text.push_str(&format!(in alloc; " developer_9_{number}=0xA5")?)?;
    }
    text.push_str("\n")
}

static FIELDS: [(u8, u8, u8); 16] = [
    (0, 1, 9),
    (1, 1, 9),
    (2, 1, 9),
    (3, 1, 9),
    (4, 1, 9),
    (5, 1, 9),
    (6, 1, 9),
    (7, 1, 9),
    (8, 1, 9),
    (9, 1, 9),
    (10, 1, 9),
    (11, 1, 9),
    (12, 1, 9),
    (13, 1, 9),
    (14, 1, 9),
    (15, 1, 9),
];

const CONTENT: [u8; 16] = [0xA5; 16];

// Defines each local number n with n developer fields of one byte each.
fn define_each(file: &mut File) -> Result<(), Fail> {
    for local in 0..16u8 {
        let own = FIELDS.get(..usize::from(local)).unwrap_or(&[]);
        define(file, &definition_with(local, Arch::Big, 20, &[], own)?)?;
    }
    Ok(())
}

// Their messages take turns. Fifteen definitions have seven bytes and one has six; there are 120 developer fields of three bytes;
// and each turn has 16 + 120 bytes.
#[test]
fn shows_those_of_each_local_number(rt: HostRuntime) -> Result<(), Fail> {
    let mut file = empty_file(rt.alloc());
    define_each(&mut file)?;
    let front = "header 14 protocol 1.0 profile 100 data 743\n";
    let mut text = joined(rt.alloc(), &[front])?;
    for message in 0..32u8 {
        let local = message % 16;
        let own = CONTENT.get(..usize::from(local)).unwrap_or(&[]);
        put_data(&mut file, local, None, own)?;
        push_line(rt.alloc(), &mut text, message, local)?;
    }
    text.push_str("messages 32\n")?;
    assert_shown(&rt, rt.alloc(), &file, false, &text)
}

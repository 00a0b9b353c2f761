// The longest prefix of whole items. The lengths are from outside, counted by hand, item by item.

use crate::equality::equal;
use crate::grammar::decoding::{COMPRESSED, REDEFINED};
use crate::grammar::developer::ANEW;
use crate::known_files::FILE_ID;
use fit_grammar::longest_front;
use std::alloc::{AllocError, Global};

// The longest prefix of whole items in the first `size` bytes: the last of these places that is in them.
fn front_at(places: &[usize], size: usize) -> usize {
    let mut front = 0;
    for place in places {
        if *place <= size {
            front = *place;
        }
    }
    front
}

// Files, the size of their data, and the places in it where items end.
static ENDS: [(&'static [u8], usize, &'static [usize]); 4] = [
    // a definition of six bytes and two fields, and its message
    (&FILE_ID, 18, &[12, 18]),
    (&REDEFINED, 23, &[9, 11, 20, 23]),
    (&COMPRESSED, 37, &[15, 22, 31, 33, 35, 37]),
    (&ANEW, 43, &[13, 17, 26, 28, 41, 43]),
];

#[test]
fn a_front_ends_after_a_whole_item(rt: HostRuntime) {
    for (file, size, places) in ENDS {
        for size in 0..=size {
            let bytes = file.get(14..14 + size).unwrap_or(&[]);
            let wanted = (size, front_at(places, size));
            equal(&rt, (bytes.len(), longest_front(bytes)), wanted);
        }
    }
}

// The definition of local number 0 and a message.
static WHOLE: [u8; 11] = [0x40, 0, 0, 20, 0, 1, 3, 1, 2, 0x00, 0x64];

// Data of another local number, data of local number 0 that is cut short, definitions that are cut short in their header, their
// fields or their developer fields, and nothing.
static NO_ITEMS: [&'static [u8]; 6] = [
    &[0x05, 0x64, 0, 0, 0, 0, 0, 0, 0],
    &[0xA0],
    &[0x60, 0, 0, 20, 0, 0],
    &[0x61, 0, 0, 20, 0, 0, 1, 2, 3],
    &[0x41, 0, 0, 20, 0, 255, 3, 1],
    &[],
];

#[test]
fn a_front_ends_before_what_is_no_item(rt: HostRuntime) -> Result<(), AllocError> {
    for after in NO_ITEMS {
        let mut bytes = WHOLE.to_vec(rt.alloc())?;
        bytes.extend_from_slice(after)?;
        let front = longest_front(bytes.as_slice());
        // Without the definition the message is no item either.
        let without = longest_front(&bytes.as_slice()[9..]);
        equal(&rt, (after, front, without), (after, 11, 0));
    }
    Ok(())
}

// A definition without fields.
static BARE: [u8; 6] = [0x40, 0, 0, 0xE8, 3, 0];

// That definition and a million messages without content.
fn many_messages(alloc: Global) -> Result<Vec<u8>, AllocError> {
    let mut bytes = BARE.to_vec(alloc)?;
    for _ in 0..1_000_000u32 {
        bytes.push(0)?;
    }
    Ok(bytes)
}

fn push_many_definitions(bytes: &mut Vec<u8>) -> Result<(), AllocError> {
    for _ in 0..1_000_000u32 {
        bytes.extend_from_slice(&BARE)?;
    }
    Ok(())
}

// A million messages without content, then as many definitions.
#[test]
fn a_front_of_many_items(rt: HostRuntime) -> Result<(), AllocError> {
    let mut bytes = many_messages(rt.alloc())?;
    equal(&rt, longest_front(bytes.as_slice()), 1_000_006);
    push_many_definitions(&mut bytes)?;
    bytes.push(0x0F)?;
    equal(&rt, longest_front(bytes.as_slice()), 7_000_006);
    Ok(())
}

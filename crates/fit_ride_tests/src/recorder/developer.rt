// Bodies with developer fields, which no recorder writes: no message may have one, but a definition that nothing uses may.

use super::bodies::{body_of, definition_of, finds, passes};
use super::recovering::is_damaged;
use super::resuming::refusal_of;
use super::{START_RECORDS, holding};
use fit_recorder::RecFault;
use std::process::Abort;
use std::test::Fail;

// A record definition with a time, a heart rate and a developer field of one byte.
static DEFINITION: [u8; 16] = [0x60, 0, 0, 0x14, 0, 2, 0xFD, 4, 0x86, 3, 1, 2, 1, 0, 1, 0];

// The same without the developer field, and a record.
static RECORD: [u8; 18] = [
    0x40, 0, 0, 0x14, 0, 2, 0xFD, 4, 0x86, 3, 1, 2, 0x00, 0x01, 0xCA, 0x9A, 0x3B, 0x65,
];

static MESSAGES: [&[u8]; 3] = [
    &[
        0x60, 0, 0, 0x14, 0, 2, 0xFD, 4, 0x86, 3, 1, 2, 1, 0, 1, 0, 0x00, 0x01, 0xCA, 0x9A, 0x3B,
        0x65, 0xAB,
    ],
    &[
        0x60, 0, 0, 0x14, 0, 2, 0xFD, 4, 0x86, 3, 1, 2, 1, 0, 0, 0, 0x00, 0x01, 0xCA, 0x9A, 0x3B,
        0x65,
    ],
    &[
        0x60, 0, 0, 0x14, 0, 1, 3, 1, 2, 1, 0, 1, 0, 0x81, 0x65, 0xAB,
    ],
];

// With one byte, with no byte, and under a compressed timestamp one second after the start.
#[test]
fn a_message_has_none(rt: HostRuntime) -> Result<(), Fail> {
    for after in MESSAGES {
        let body = body_of(rt.alloc(), &START_RECORDS, after)?;
        let len = u32::try_from(body.len())?;
        assert!(rt; is_damaged(rt.alloc(), &body, len)?, "of {len}");
        assert_eq!(rt;
            refusal_of(rt.alloc(), holding(rt.alloc(), &body, len)?)?,
            Some(RecFault::Damaged),
            "of {len}"
        );
    }
    Ok(())
}

// A definition with a developer field. The next definition of its local number replaces it.
#[test]
fn a_definition_that_nothing_uses_is_passed(rt: HostRuntime) -> Result<(), Fail> {
    let body = body_of(rt.alloc(), &START_RECORDS, &DEFINITION)?;
    finds(&rt, rt.alloc(), &body, 72 + 16, &[], 0)?;
    let body = body_of(rt.alloc(), &body, &RECORD)?;
    finds(&rt, rt.alloc(), &body, 72 + 16 + 18, &[rate!(1, 101)], 1000)
}

// The same definition announces developer fields and has none, and a record.
static ANNOUNCED: [u8; 19] = [
    0x60, 0, 0, 0x14, 0, 2, 0xFD, 4, 0x86, 3, 1, 2, 0, 0x00, 0x01, 0xCA, 0x9A, 0x3B, 0x65,
];

#[test]
fn none_may_be_announced(rt: HostRuntime) -> Result<(), Fail> {
    let body = body_of(rt.alloc(), &START_RECORDS, &ANNOUNCED)?;
    finds(&rt, rt.alloc(), &body, 72 + 19, &[rate!(1, 101)], 1000)
}

// It is written in seven bytes and three for each field of both kinds, or one byte less without developer fields: 94, 93, 96, 97.
// Each case has the fields, the developer fields with their number, and whether it is passed.
static DEFINITIONS: [(u8, &[u8], bool); 4] = [
    (28, &[1, 0, 0, 0], true),
    (29, &[0], true),
    (30, &[0], true),
    (29, &[1, 0, 0, 0], false),
];

#[test]
fn a_definition_has_at_most_96_bytes(rt: HostRuntime) -> Result<(), Fail> {
    for (fields, developer, is_passed) in DEFINITIONS {
        let definition = definition_of(rt.alloc(), 0x63, fields, developer)?;
        passes(&rt, rt.alloc(), &definition, is_passed)?;
    }
    Ok(())
}

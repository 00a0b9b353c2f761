// How definitions and files with developer fields are written.

ghost use Rattle.std.specs.Prelude.{◌≡◌};

use super::{ANEW, FILE, RECORD};
use crate::equality::equal;
use crate::grammar::pieces::{read_in_two, written};
use crate::known_files::empty_file;
use arrayvec::ArrayVec;
use fit_base::Arch;
use fit_grammar::{
    Definition, DeveloperFieldDefinition, FieldDefinition, PutFault, decode_file, write_definition,
};
use std::test::Fail;

// A definition that announces developer fields and has none, with its message; and the same file as it is written again.
const ANNOUNCED: [u8; 28] = [
    0x0E, 0x10, 0x64, 0x00, 0x0C, 0x00, 0x00, 0x00, 0x2E, 0x46, 0x49, 0x54, 0x21, 0xBB, 0x60, 0x00,
    0x00, 0x14, 0x00, 0x01, 0x03, 0x01, 0x02, 0x00, 0x00, 0x64, 0x52, 0xE0,
];

static UNANNOUNCED: [u8; 27] = [
    0x0E, 0x10, 0x64, 0x00, 0x0B, 0x00, 0x00, 0x00, 0x2E, 0x46, 0x49, 0x54, 0x60, 0x5D, 0x40, 0x00,
    0x00, 0x14, 0x00, 0x01, 0x03, 0x01, 0x02, 0x00, 0x64, 0xB1, 0x38,
];

// A definition of a record with a field of one byte and these developer fields.
fn record(developer: ArrayVec<DeveloperFieldDefinition, 255>) -> Definition
    ensures local { result.local ≡ 0 }
    ensures developer { result.developer ≡ developer }
{
    let mut fields = ArrayVec::new();
    fields.push(FieldDefinition {
        number: 3,
        size: 1,
        base: 0x02,
    });
    Definition {
        local: 0,
        arch: Arch::Little,
        global: 20,
        fields,
        developer,
    }
}

// One developer field of two bytes, with number 0 and index 0.
fn one() -> ArrayVec<DeveloperFieldDefinition, 255> {
    let mut developer = ArrayVec::new();
    developer.push(DeveloperFieldDefinition {
        number: 0,
        size: 2,
        index: 0,
    });
    developer
}

// Nine bytes for the definition and its field, and four more if it has a developer field.
#[test]
fn a_definition_is_written(rt: HostRuntime) {
    let definition = record(one());
    assert!(rt; definition.fields.len() == 1 && definition.developer.len() == 1);
    let mut bytes = [0xEE; 16];
    equal(&rt, write_definition(&definition, &mut bytes), 13);
    equal(&rt, bytes.strip_prefix(&RECORD), Some([0xEE; 3].as_slice()));
    let definition = record(ArrayVec::new());
    assert!(rt; definition.fields.len() == 1 && definition.developer.is_empty());
    let mut bytes = [0xEE; 16];
    equal(&rt, write_definition(&definition, &mut bytes), 9);
    let wanted = [0x40, 0, 0, 20, 0, 1, 3, 1, 2];
    equal(&rt, bytes.strip_prefix(&wanted), Some([0xEE; 7].as_slice()));
}

#[test]
fn a_file_is_built(rt: HostRuntime) -> Result<(), Fail> {
    let mut file = empty_file(rt.alloc());
    file.define(&record(one()))?;
    // The bytes of the field alone, one byte too few, and one too many.
    for content in [
        [0x64].as_slice(),
        [0x64, 0xAB].as_slice(),
        [0x64, 0xAB, 0xCD, 0xEF].as_slice(),
    ] {
        equal(&rt, file.data(0, None, content), Err(PutFault::Length));
    }
    file.data(0, None, &[0x64, 0xAB, 0xCD])?;
    equal(&rt, file.data_size(), 17);
    equal(&rt, written(rt.alloc(), &file)?.as_slice(), FILE.as_slice());
    Ok(())
}

#[test]
fn without_one_nothing_is_announced(rt: HostRuntime) -> Result<(), Fail> {
    let mut file = empty_file(rt.alloc());
    file.define(&record(ArrayVec::new()))?;
    file.data(0, None, &[0x64])?;
    let bytes = written(rt.alloc(), &file)?;
    equal(&rt, bytes.as_slice(), UNANNOUNCED.as_slice());
    // Nor if the file that was read announced them.
    let read = decode_file(rt.alloc(), &ANNOUNCED)?;
    equal(&rt, read.data_size(), 11);
    let bytes = written(rt.alloc(), &read)?;
    equal(&rt, bytes.as_slice(), UNANNOUNCED.as_slice());
    Ok(())
}

#[test]
fn a_file_is_written_as_it_was_cut_anywhere(rt: HostRuntime) -> Result<(), Fail> {
    for (bytes, wanted) in [
        (FILE.as_slice(), FILE.as_slice()),
        (ANEW.as_slice(), ANEW.as_slice()),
        (ANNOUNCED.as_slice(), UNANNOUNCED.as_slice()),
    ] {
        for cut in 0..=bytes.len() {
            let (front, back) = bytes.split_at(cut);
            let file = read_in_two(rt.alloc(), front, back)?;
            let again = written(rt.alloc(), &file)?;
            assert_eq!(rt; again.as_slice(), wanted, "{cut}");
        }
    }
    Ok(())
}

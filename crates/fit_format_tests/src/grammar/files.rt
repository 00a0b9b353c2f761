// Files that are built in memory and written.

ghost use Rattle.std.specs.Prelude.{◌≡◌};

use crate::equality::equal;
use crate::known_files::{FILE_ID, empty_file};
use crate::slow::Slow;
use arrayvec::ArrayVec;
use fit_base::Arch;
use fit_grammar::{
    Definition, EncodeFault, FaultKind, FieldDefinition, File, Frame, PutFault, decode_file,
    encode_file,
};
use std::alloc::Global;
use std::process::Abort;
use std::test::Fail;

const CONTENT: [u8; 5] = [0x04, 0x00, 0xCA, 0x9A, 0x3B];

// A definition of file_id with its fields type and time_created.
fn file_id(local: u8) -> Definition
    ensures { result.local ≡ local }
{
    let mut fields = ArrayVec::new();
    fields.push(FieldDefinition {
        number: 0,
        size: 1,
        base: 0x00,
    });
    fields.push(FieldDefinition {
        number: 4,
        size: 4,
        base: 0x86,
    });
    Definition {
        local,
        arch: Arch::Little,
        global: 0,
        fields,
        developer: ArrayVec::new(),
    }
}

fn small_file(alloc: Global) -> Result<File, PutFault> {
    let mut file = empty_file(alloc);
    file.define(&file_id(0))?;
    file.data(0, None, &CONTENT)?;
    Ok(file)
}

// Whether the file is written as these bytes.
fn is_written(alloc: Global, file: &File, bytes: &[u8]) -> bool {
    let mut out = Slow::new(alloc, 128, 128);
    encode_file(file, &mut out).is_ok() && out.written() == bytes
}

// A file with a record of one field.
fn example(alloc: Global) -> Result<File, PutFault> {
    let mut fields = ArrayVec::new();
    fields.push(FieldDefinition {
        number: 3,
        size: 1,
        base: 0x02,
    });
    let frame = Frame {
        header_size: 14,
        protocol: 0x10,
        profile: 100,
    };
    let mut file = File::new(alloc, frame);
    file.define(&Definition {
        local: 0,
        arch: Arch::Little,
        global: 20,
        fields,
        developer: ArrayVec::new(),
    })?;
    file.data(0, None, &[100])?;
    Ok(file)
}

#[test]
fn the_example_of_the_crate(rt: HostRuntime) -> Result<(), Fail> {
    let mut bytes = Vec::new(rt.alloc());
    encode_file(&example(rt.alloc())?, &mut bytes)?;
    let read = decode_file(rt.alloc(), bytes.as_slice())?;
    let message = read.messages().next().expect(&rt, "one message");
    equal(&rt, message.global(), 20);
    Ok(())
}

// A local number, an offset and content that a file refuses, and why.
static REFUSED: [(u8, Option<u8>, &'static [u8], PutFault); 3] = [
    (5, None, &[0], PutFault::UndefinedLocal),
    (0, None, &[4], PutFault::Length),
    (0, Some(32), &CONTENT, PutFault::Length),
];

#[test]
fn writes_a_file(rt: HostRuntime) -> Result<(), PutFault> {
    let mut file = small_file(rt.alloc())?;
    assert!(rt; is_written(rt.alloc(), &file, &FILE_ID));
    for (local, offset, content, fault) in REFUSED {
        let answer = file.data(local, offset, content);
        equal(&rt, (local, offset, answer), (local, offset, Err(fault)));
        assert!(rt;
            is_written(rt.alloc(), &file, &FILE_ID),
            "{local} {offset:?}"
        );
    }
    Ok(())
}

#[test]
fn offsets_need_a_low_local_number(rt: HostRuntime) -> Result<(), Fail> {
    let mut file = small_file(rt.alloc())?;
    file.define(&file_id(4))?;
    let mut before = Slow::new(rt.alloc(), 128, 128);
    encode_file(&file, &mut before)?;
    equal(&rt, file.data(4, Some(0), &CONTENT), Err(PutFault::Length));
    assert!(rt; is_written(rt.alloc(), &file, before.written()));
    Ok(())
}

// file_id has no field 253, and the offset counts from 0
static TIMES: [Option<u32>; 2] = [None, Some(3)];

#[test]
fn lends_messages_with_their_times(rt: HostRuntime) -> Result<(), PutFault> {
    let mut file = small_file(rt.alloc())?;
    file.data(0, Some(3), &CONTENT)?;
    let mut count = 0usize;
    for message in file.messages() {
        equal(&rt, Some(message.time()), TIMES.get(count).copied());
        count = count.saturating_add(1);
    }
    equal(&rt, count, 2);
    Ok(())
}

#[test]
fn a_failing_writer_has_a_beginning(rt: HostRuntime) -> Result<(), PutFault> {
    let file = small_file(rt.alloc())?;
    for calls in 0..16 {
        let mut out = Slow::new(rt.alloc(), 5, calls);
        let answer = encode_file(&file, &mut out);
        assert!(rt; FILE_ID.starts_with(out.written()));
        if out.written().len() == 34 {
            equal(&rt, answer, Ok(()));
        } else {
            equal(&rt, answer, Err(EncodeFault::Write));
        }
    }
    let mut full = Slow::new(rt.alloc(), 0, 9);
    equal(&rt, encode_file(&file, &mut full), Err(EncodeFault::Write));
    Ok(())
}

// Run with each allocation failing in turn: the answer is Memory, and the file is as it was.
#[test]
fn keeps_the_file_without_memory(rt: HostRuntime) {
    let mut file = empty_file(rt.alloc());
    for _ in 0..20 {
        let before = file.data_size();
        let defined = file.define(&file_id(0));
        check_kept(&rt, &file, before, 12, defined);
        let before = file.data_size();
        match file.data(0, None, &CONTENT) {
            Err(PutFault::UndefinedLocal) => equal(&rt, before, 0),
            added => check_kept(&rt, &file, before, 6, added),
        }
    }
}

fn check_kept(rt: &impl Abort, file: &File, before: u32, size: u32, answer: Result<(), PutFault>) {
    match answer {
        Ok(()) => equal(rt, file.data_size().wrapping_sub(before), size),
        Err(fault) => {
            equal(rt, fault, PutFault::Memory);
            equal(rt, file.data_size(), before);
        }
    }
}

#[test]
fn numbers_of_faults(rt: HostRuntime) {
    equal(&rt, FaultKind::Truncated.code(), 1);
    equal(&rt, FaultKind::UndefinedLocal(3).code(), 6);
    equal(&rt, FaultKind::Memory.code(), 10);
    equal(&rt, PutFault::Memory.code(), 4);
    equal(&rt, EncodeFault::Write.code(), 1);
}

// The disk model, with values worked out by hand, and the real files.

mod begun;
mod cycles;
mod files;
mod long;
mod memory;
mod ranges;

use crate::equality::equal;
use fit_disk::{DeviceError, Disk, Memory, Which};
use std::alloc::Global;
use std::process::Abort;

// A call of the memory disk.
#[derive(Drop)]
enum Call {
    // At a place, or at the end of a shorter file.
    Write(Which, usize, &'static [u8]),
    // To a length, or to its own length if the file is shorter.
    Cut(Which, usize),
    Sync(Which),
    Size(Which),
    // From a place on, so many bytes at most, into the front of a buffer of six.
    Read(Which, u64, usize),
}

// A step of a case: a call and what it has to answer, a power cut, or a look at the disk.
#[derive(Drop)]
enum Step {
    Passes(Call),
    Gives(Call, u64),
    // The call is scheduled to fail.
    Fails(Call),
    // The power is cut, and so many of the choice bytes are taken.
    Cycle(&'static [u8], usize),
    Holds(Which, &'static [u8]),
    // What the reads so far have left in the buffer, which had six dots at first.
    Buffer([u8; 6]),
}

// Takes these steps on a fresh disk.
fn follow_afresh(rt: &impl Abort, alloc: Global, steps: &[Step]) -> Result<(), DeviceError> {
    follow(rt, &mut Memory::new(alloc), steps)
}

// The same for each case.
fn follow_each(rt: &impl Abort, alloc: Global, cases: &[&[Step]]) -> Result<(), DeviceError> {
    for steps in cases {
        follow_afresh(rt, alloc, steps)?;
    }
    Ok(())
}

// Takes these steps, one after another.
fn follow(rt: &impl Abort, disk: &mut Memory, steps: &[Step]) -> Result<(), DeviceError> {
    let mut buffer = *b"......";
    for step in steps {
        take(rt, disk, &mut buffer, step)?;
    }
    Ok(())
}

fn take(
    rt: &impl Abort,
    disk: &mut Memory,
    buffer: &mut [u8; 6],
    step: &Step,
) -> Result<(), DeviceError> {
    match step {
        Step::Passes(call) => {
            make(disk, buffer, call)?;
        }
        Step::Gives(call, number) => equal(rt, make(disk, buffer, call)?, *number),
        Step::Fails(call) => equal(rt, fail(disk, buffer, call), Err(DeviceError)),
        Step::Cycle(choices, taken) => cycle(rt, disk, choices, *taken),
        Step::Holds(which, content) => expect(rt, disk, *which, content),
        Step::Buffer(expected) => equal(rt, *buffer, *expected),
    }
    Ok(())
}

// Makes a call that is scheduled to fail.
fn fail(disk: &mut Memory, buffer: &mut [u8; 6], call: &Call) -> Result<u64, DeviceError> {
    disk.fail_at(1);
    make(disk, buffer, call)
}

// Makes a call. Returns the size, the number of bytes that were read, or 0.
fn make(disk: &mut Memory, buffer: &mut [u8; 6], call: &Call) -> Result<u64, DeviceError> {
    match call {
        Call::Write(which, at, bytes) => write(disk, *which, *at, bytes)?,
        Call::Cut(which, len) => cut(disk, *which, *len)?,
        Call::Sync(which) => sync(disk, *which)?,
        Call::Size(which) => return size(disk, *which),
        Call::Read(which, at, room) => {
            let count = read(disk, *which, *at, &mut buffer[..(*room).min(6)])?;
            return Ok(count as u64);
        }
    }
    Ok(0)
}

// Asserts that a file of the disk holds this content.
fn expect(rt: &impl Abort, disk: &Memory, which: Which, content: &[u8]) {
    assert!(rt; disk.content(which) == content, "{:?}", disk.content(which));
}

// Cuts the power of the disk, and asserts that it takes so many of the choice bytes.
fn cycle(rt: &impl Abort, disk: &mut Memory, choices: &[u8], taken: usize) {
    let took = disk.cycle(choices);
    assert!(rt; took == taken, "took {took}");
}

// The calls of the memory disk without its contracts: only their answers count here.
fn size(disk: &mut Memory, which: Which) -> Result<u64, DeviceError> {
    disk.size(which)
}

fn read(disk: &mut Memory, which: Which, at: u64, buffer: &mut [u8]) -> Result<usize, DeviceError> {
    disk.read(which, at, buffer)
}

fn sync(disk: &mut Memory, which: Which) -> Result<(), DeviceError> {
    disk.sync(which)
}

// Writes at a place, or at the end of a shorter file.
fn write(disk: &mut Memory, which: Which, at: usize, bytes: &[u8]) -> Result<(), DeviceError> {
    let at = at.min(disk.content(which).len());
    disk.write(which, at as u64, bytes)
}

// Cuts to a length, or leaves a shorter file as long as it is.
fn cut(disk: &mut Memory, which: Which, len: usize) -> Result<(), DeviceError> {
    let len = len.min(disk.content(which).len());
    disk.cut(which, len as u64)
}

// The disk over two buffers of the caller.

use crate::equality::equal;
use fit_disk::{Buffers, DeviceError, Disk, Which};
use std::process::Abort;

// The calls of the buffers without their contracts: only their answers count here.
fn size(disk: &mut Buffers, which: Which) -> Result<u64, DeviceError> {
    disk.size(which)
}

fn read(
    disk: &mut Buffers,
    which: Which,
    at: u64,
    buffer: &mut [u8],
) -> Result<usize, DeviceError> {
    disk.read(which, at, buffer)
}

fn sync(disk: &mut Buffers, which: Which) -> Result<(), DeviceError> {
    disk.sync(which)
}

// Writes at a place, or at the end of a shorter file.
fn write(disk: &mut Buffers, which: Which, at: usize, bytes: &[u8]) -> Result<(), DeviceError> {
    let at = at.min(disk.content(which).len());
    disk.write(which, at as u64, bytes)
}

// Cuts to a length, or leaves a shorter file as long as it is.
fn cut(disk: &mut Buffers, which: Which, len: usize) -> Result<(), DeviceError> {
    let len = len.min(disk.content(which).len());
    disk.cut(which, len as u64)
}

// Asserts what a read of the data file from a place on answers, and what is in the buffer then, which had four dots before.
fn expect_read(
    rt: &impl Abort,
    disk: &mut Buffers,
    at: u64,
    count: usize,
    expected: [u8; 4],
) -> Result<(), DeviceError> {
    let mut buffer = *b"....";
    let answer = read(disk, Which::Data, at, &mut buffer)?;
    equal(rt, answer, count);
    equal(rt, buffer, expected);
    Ok(())
}

// Asserts what both files hold.
fn expect(rt: &impl Abort, disk: &Buffers, in_data: &[u8], in_journal: &[u8]) {
    equal(rt, disk.content(Which::Data), in_data);
    equal(rt, disk.content(Which::Journal), in_journal);
}

fn expect_changes(rt: &impl Abort, disk: &mut Buffers) -> Result<(), DeviceError> {
    equal(rt, size(disk, Which::Data)?, 5);
    expect_read(rt, disk, 3, 2, *b"de..")?;
    write(disk, Which::Data, 4, b"XYZ")?;
    write(disk, Which::Journal, 0, b"j")?;
    sync(disk, Which::Data)?;
    expect(rt, disk, b"abcdXYZ", b"j");
    cut(disk, Which::Data, 1)?;
    expect(rt, disk, b"a", b"j");
    expect_read(rt, disk, 7, 0, *b"....")
}

#[test]
fn reads_give_what_was_found_and_written(rt: HostRuntime) -> Result<(), DeviceError> {
    let mut data_bytes = *b"abcdefgh";
    let mut journal_bytes = [0; 4];
    let mut disk = Buffers::new(&mut data_bytes, 5, &mut journal_bytes, 0);
    expect_changes(&rt, &mut disk)
}

fn expect_no_room(rt: &impl Abort, disk: &mut Buffers) -> Result<(), DeviceError> {
    let answers = [
        write(disk, Which::Data, 5, b"1234"),
        write(disk, Which::Journal, 0, b"j"),
    ];
    equal(rt, answers, [Err(DeviceError); 2]);
    expect(rt, disk, b"abcde", b"");
    write(disk, Which::Data, 5, b"123")?;
    expect(rt, disk, b"abcde123", b"");
    Ok(())
}

#[test]
fn a_write_without_room_fails_and_changes_nothing(rt: HostRuntime) -> Result<(), DeviceError> {
    let mut data_bytes = *b"abcdefgh";
    let mut journal_bytes = [0; 0];
    let mut disk = Buffers::new(&mut data_bytes, 5, &mut journal_bytes, 0);
    expect_no_room(&rt, &mut disk)
}

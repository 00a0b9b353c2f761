// A data file of 16 MiB: memory suffices for it, and a power cut after its writes completes.

use super::{cycle, size, sync, write};
use crate::equality::equal;
use fit_disk::{DeviceError, Memory, Which};
use std::process::Abort;

const PIECE: usize = 65_536;

const PIECES: usize = 256;

// Fills the data file with a byte, a piece at a time.
fn fill(disk: &mut Memory, byte: u8) -> Result<(), DeviceError> {
    let bytes = [byte; PIECE];
    for number in 0..PIECES {
        write(disk, Which::Data, number * PIECE, &bytes)?;
    }
    Ok(())
}

// The length of the data file, its first three bytes, and its last.
fn ends(disk: &Memory) -> (usize, Option<&[u8]>, Option<&u8>) {
    let content = disk.content(Which::Data);
    (content.len(), content.get(..3), content.last())
}

fn expect_ends(rt: &impl Abort, disk: &Memory, first: &[u8], last: u8) {
    equal(rt, ends(disk), (16_777_216, Some(first), Some(&last)));
}

#[test]
fn a_file_of_16_mib_is_filled_and_comes_back(rt: HostRuntime) -> Result<(), DeviceError> {
    let mut disk = Memory::new(rt.alloc());
    fill(&mut disk, 0x5A)?;
    equal(&rt, size(&mut disk, Which::Data)?, 16_777_216);
    sync(&mut disk, Which::Data)?;
    fill(&mut disk, 0x6B)?;
    equal(&rt, disk.spent(), false);
    expect_ends(&rt, &disk, &[0x6B; 3], 0x6B);
    // Each of its bytes varies.
    cycle(&rt, &mut disk, &[0, 0, 0, 0, 0xA5], 5);
    expect_ends(&rt, &disk, &[0xA5, 0, 0], 0);
    Ok(())
}

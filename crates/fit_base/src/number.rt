// The number that the bytes of a value encode.

ghost use Rattle.std.specs.Prelude.{◌≡◌, ◌*◌, ◌^◌, ◌<◌, ◌≤◌, length};
ghost use Rattle.fit_base.specs.Number.{number, twos_complement};
ghost use Rattle.fit_base.specs.Value.{IsValueSize};

use crate::order::Arch;
use byteorder::{BigEndian, ByteOrder, LittleEndian};

/// The number that these bytes encode. There are as many as a value of some base type has: 1, 2, 4 or 8.
pub fn number_of(arch: Arch, bytes: &[u8]) -> u64
    requires { IsValueSize (length bytes.now) }
    ensures number { result ≡ number arch bytes.now }
    ensures fits { result < 256 ^ length bytes.now }
{
    match arch {
        Arch::Little => low_first(bytes),
        Arch::Big => high_first(bytes),
    }
}

fn low_first(bytes: &[u8]) -> u64
    requires { IsValueSize (length bytes.now) }
    ensures number { result ≡ number Arch.Little bytes.now }
    ensures fits { result < 256 ^ length bytes.now }
{
    match bytes.len() {
        1 => u64::from(bytes[0]),
        2 => u64::from(LittleEndian::read_u16(bytes)),
        4 => u64::from(LittleEndian::read_u32(bytes)),
        _ => LittleEndian::read_u64(bytes),
    }
}

fn high_first(bytes: &[u8]) -> u64
    requires { IsValueSize (length bytes.now) }
    ensures number { result ≡ number Arch.Big bytes.now }
    ensures fits { result < 256 ^ length bytes.now }
{
    match bytes.len() {
        1 => u64::from(bytes[0]),
        2 => u64::from(BigEndian::read_u16(bytes)),
        4 => u64::from(BigEndian::read_u32(bytes)),
        _ => BigEndian::read_u64(bytes),
    }
}

// The number of this many bytes, read as two's complement.
pub(crate) fn with_sign(size: usize, n: u64) -> i64
    requires some { 1 ≤ size }
    requires few { size ≤ 8 }
    requires fits { n < 2 ^ (8 * size) }
    ensures { result ≡ twos_complement size n }
{
    let half = 1u64 << (8 * size - 1);
    if n < half {
        n as i64
    } else {
        -((half - 1 - (n - half)) as i64) - 1
    }
}

// Values written into bytes.

ghost use Rattle.std.specs.Prelude.{pos, neg_ℤ, ◌≡◌, ◌*◌, ◌^◌, ◌<ℤ◌, ◌<◌, ◌≤◌, ◌≤ℤ◌, IsTrue, length};
ghost use Rattle.fit_base.specs.Number.{number, as_unsigned};
ghost use Rattle.fit_base.specs.Base.{row_of, has_sign, least_of, greatest_of};
ghost use Rattle.fit_base.specs.Value.{field_of, count_of, unsigned_at, signed_at};

use crate::base::BaseType;
use crate::order::Arch;
use byteorder::{BigEndian, ByteOrder, LittleEndian};

/// Writes a value of this type over these bytes. There are as many as the type's size. A float is given by its bits.
pub fn put(base: BaseType, arch: Arch, value: i128, out: &mut [u8])
    requires size { length out.old ≡ (row_of base).size }
    requires low { least_of base ≤ℤ value }
    requires high { value ≤ℤ greatest_of base }

    ensures number { number arch out.new ≡ as_unsigned (row_of base).size value }
    // The bytes read back as one value, which is this one.
    ensures one { count_of (field_of base arch out.new) ≡ 1 }
    ensures unsigned { unsigned_at (field_of base arch out.new) 0
        ≡ as_unsigned (row_of base).size value }
    ensures signed { IsTrue (has_sign base) → signed_at (field_of base arch out.new) 0 ≡ value }
{
    put_number(arch, number_for(base.size(), value), out);
}

// The number of this many bytes that encodes the value.
fn number_for(size: usize, value: i128) -> u64
    requires some { 1 ≤ size }
    requires few { size ≤ 8 }
    requires low { neg_ℤ (pos (2 ^ (8 * size))) ≤ℤ value }
    requires high { value <ℤ pos (2 ^ (8 * size)) }
    ensures number { result ≡ as_unsigned size value }
    ensures fits { result < 2 ^ (8 * size) }
{
    if value < 0 {
        (value + (1i128 << (8 * size))) as u64
    } else {
        value as u64
    }
}

fn put_number(arch: Arch, n: u64, out: &mut [u8])
    requires some { 1 ≤ length out.old }
    requires few { length out.old ≤ 8 }
    requires fits { n < 2 ^ (8 * length out.old) }
    ensures { number arch out.new ≡ n }
{
    let size = out.len();
    match arch {
        Arch::Little => LittleEndian::write_uint(out, n, size),
        Arch::Big => BigEndian::write_uint(out, n, size),
    }
}

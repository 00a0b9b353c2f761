// Recovers what is readable of a file that has no journal.

ghost use Rattle.std.specs.Prelude.{◌≡◌, ◌<◌, ◌≤◌, ◌^◌, ◌⊎◌, [], length, take};
ghost use Rattle.fit_grammar.specs.Calls.FaultCode.{kind_code};
ghost use Rattle.fit_grammar.specs.declared.file.fault.FileFault.{FileFault};
ghost use Rattle.fit_files.specs.Printed.Salvaged.{IsNotSalvaged, saved_file};
ghost use Rattle.fit_c.specs.Salvaged.{IsSalvaged, NeedsRoomToSalvage};

use crate::room::Room;
use fit_files::{Salvage, salvage_bytes};

// The input has 4294967296 bytes or more.
pub const TOO_LARGE: u8 = 22;

/// How much of a file was kept, in bytes.
#[repr(C)]
#[derive(Clone, Copy)]
pub struct SalvageCounts {
    /// The number of bytes of records that were kept.
    pub kept: u64,
    /// The number of bytes after the header that were looked at.
    pub looked_at: u64,
    /// The number of bytes after those and the two of a checksum.
    pub not_looked_at: u64,
}

/// Writes a new file into `out`: the longest row of whole items after the header of `bytes`, as `salvage_bytes` of `fit_files`
/// finds it. Returns 0, and the length of the file in `out_len`; 1 to 4 if `bytes` begins with no header (the code of the
/// `FaultKind`); 20 if the file does not fit into `out`, with its length in `out_len`; 22 if `bytes` has 4294967296 bytes or more. An
/// `out` that is 16 bytes longer than `bytes` is always large enough.
#[unsafe(no_mangle)]
pub extern "C" fn fitrec_salvage(
    bytes: &[u8],
    all: bool,
    out: &mut [u8],
    out_len: &mut u64,
    counts: &mut SalvageCounts,
) -> u8
    ensures code { (result ≤ 10) ⊎ (result ≡ 20) ⊎ (result ≡ 22) }
    ensures ok { result ≡ 0 → IsSalvaged all bytes.now (take out_len.new out.new) counts.new }
    ensures within { result ≡ 0 → out_len.new ≤ length out.new }
    ensures refused { 1 ≤ result → result ≤ 10
        → (fault : FileFault) × IsNotSalvaged bytes.now fault × (result ≡ kind_code fault.kind) }
    ensures no_room { result ≡ 20
        → NeedsRoomToSalvage all bytes.now (length out.old) out_len.new counts.new }
    ensures too_large { result ≡ 22 → 2 ^ 32 ≤ length bytes.now }
    ensures unchanged { ((1 ≤ result) × (result ≤ 10)) ⊎ (result ≡ 22)
        → (out_len.new ≡ out_len.old) × (out.new ≡ out.old) × (counts.new ≡ counts.old) }
{
    if bytes.len() >= 1 << 32 {
        return TOO_LARGE;
    }
    match salvage_bytes(bytes, all) {
        Ok(salvage) => {
            *counts = SalvageCounts {
                kept: salvage.row.len() as u64,
                looked_at: salvage.looked_at as u64,
                not_looked_at: salvage.not_looked_at as u64,
            };
            write_out(&salvage, out, out_len)
        }
        Err(fault) => fault.kind.code(),
    }
}

// Writes the file into the buffer, if it has room, and returns the code of that.
fn write_out(salvage: &Salvage<'_>, out: &mut [u8], out_len: &mut u64) -> u8
    ensures code { (result ≡ 0) ⊎ (result ≡ 20) }
    ensures ok { result ≡ 0 → take out_len.new out.new ≡ saved_file salvage.now }
    ensures within { result ≡ 0 → out_len.new ≤ length out.new }
    ensures needed { result ≡ 20 → out_len.new ≡ length (saved_file salvage.now) }
    ensures no_room { result ≡ 20 → length out.old < out_len.new }
{
    let mut room = Room::new(out);
    write_in(salvage, &mut room);
    *out_len = room.len as u64;
    room.code()
}

// Writes the file into the same buffer.
fn write_in(salvage: &Salvage<'_>, room: &mut Room<'_>)
    requires { room.old.tape.bytes ≡ [] }
    ensures name { room.new.bytes.ghost_name ≡ room.old.bytes.ghost_name }
    ensures file { room.new.tape.bytes ≡ saved_file salvage.now }
{
    match salvage.write(room) {
        Ok(()) => {}
        Err(fault) => match fault {},
    }
}

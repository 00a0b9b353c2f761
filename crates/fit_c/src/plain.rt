// The plain form of a file in memory. It is written twice, first without room, for its size.

ghost use Rattle.std.specs.Prelude.{◌≡◌, ◌≤◌, ◌<◌, ◌⊎◌, [], length, take, true, false, OnOk, IfSome, IsSome, IsNone};
ghost use Rattle.fit_grammar.specs.Calls.PlainForm.{plain_of, plain_items, is_too_long};
ghost use Rattle.fit_grammar.specs.Calls.PlainWriting.{JudgesFields};
ghost use Rattle.fit_grammar.specs.Format.Encoding.{encoded, encoded_items};
ghost use Rattle.fit_grammar.specs.Format.Records.{data_size};
ghost use Rattle.fit_c.specs.Files.{IsNoFile, IsPlainOf, NeedsRoomForPlain, HasNoPlainForm};

use crate::reading::read_file;
use crate::room::Room;
use fit_grammar::{LentFile, WritePlainFault, write_plain, write_plain_records};
use std::convert::Infallible;

// The plain form would be too long.
const TOO_LONG: u8 = 21;

/// Writes the plain form of a FIT file into `out`, which states the same messages with every time written out. Returns 0, and the length
/// of that file in `out_len`; 1 to 9 if the bytes are no FIT file (the code of the `FaultKind`), with the place of the fault in
/// `fault_place`; 20 if the new file does not fit into `out`, with its length in `out_len`; 21 if its records would exceed 4294967295 bytes
/// or a definition would have 256 fields.
#[unsafe(no_mangle)]
pub extern "C" fn fitrec_plain(
    bytes: &[u8],
    out: &mut [u8],
    out_len: &mut u64,
    fault_place: &mut u64,
) -> u8
    ensures code { (result ≤ 9) ⊎ (result ≡ 20) ⊎ (result ≡ 21) }
    ensures ok { result ≡ 0 → IsPlainOf bytes.now (take out_len.new out.new) }
    ensures within { result ≡ 0 → out_len.new ≤ length out.new }
    ensures no_file { 1 ≤ result → result ≤ 9 → IsNoFile bytes.now result fault_place.new }
    ensures no_room { result ≡ 20 → NeedsRoomForPlain bytes.now (length out.old) out_len.new }
    ensures too_long { result ≡ 21 → HasNoPlainForm bytes.now }
    ensures unchanged { ((1 ≤ result) × (result ≤ 9)) ⊎ (result ≡ 21)
        → (out_len.new ≡ out_len.old) × (out.new ≡ out.old) }
    ensures place { (result ≡ 0) ⊎ (20 ≤ result) → fault_place.new ≡ fault_place.old }
{
    match read_file(bytes, fault_place) {
        Ok(file) => write_file(&file, out, out_len),
        Err(code) => code,
    }
}

// Writes the plain form into the buffer, if it has room, and returns the code of that.
pub fn write_file(file: &LentFile<'_>, out: &mut [u8], out_len: &mut u64) -> u8
    ensures code { (result ≡ 0) ⊎ (result ≡ 20) ⊎ (result ≡ 21) }
    ensures ok { result ≡ 0 → take out_len.new out.new ≡ encoded (plain_of file.now) }
    ensures within { result ≡ 0 → out_len.new ≤ length out.new }
    ensures needed { result ≡ 20 → out_len.new ≡ length (encoded (plain_of file.now)) }
    ensures no_room { result ≡ 20 → length out.old < out_len.new }
    ensures too_long { result ≡ 21 → is_too_long 0 (plain_items file.now.items) ≡ true }
    ensures unchanged { result ≡ 21 → (out_len.new ≡ out_len.old) × (out.new ≡ out.old) }
{
    match plain_size(file) {
        Some(size) => write_out(file, size, out, out_len),
        None => TOO_LONG,
    }
}

// Writes the plain form, whose records have `size` bytes.
fn write_out(file: &LentFile<'_>, size: u32, out: &mut [u8], out_len: &mut u64) -> u8
    requires size { size ≡ data_size (plain_items file.now.items) }
    requires fits { is_too_long 0 (plain_items file.now.items) ≡ false }
    ensures code { (result ≡ 0) ⊎ (result ≡ 20) }
    ensures ok { result ≡ 0 → take out_len.new out.new ≡ encoded (plain_of file.now) }
    ensures within { result ≡ 0 → out_len.new ≤ length out.new }
    ensures needed { result ≡ 20 → out_len.new ≡ length (encoded (plain_of file.now)) }
    ensures no_room { result ≡ 20 → length out.old < out_len.new }
{
    let mut room = Room::new(out);
    write_in(file, size, &mut room);
    *out_len = room.len as u64;
    room.code()
}

// Writes the plain form into the same buffer.
fn write_in(file: &LentFile<'_>, size: u32, room: &mut Room<'_>)
    requires empty { room.old.tape.bytes ≡ [] }
    requires size { size ≡ data_size (plain_items file.now.items) }
    requires fits { is_too_long 0 (plain_items file.now.items) ≡ false }
    ensures name { room.new.bytes.ghost_name ≡ room.old.bytes.ghost_name }
    ensures file { room.new.tape.bytes ≡ encoded (plain_of file.now) }
{
    match write_plain(file, size, room) {
        Ok(()) => {}
        Err(WritePlainFault::TooLong) => unreachable!(),
        Err(WritePlainFault::Write(fault)) => match fault {},
    }
}

// How many bytes the records of the plain form have, or `None` if it would be too long.
fn plain_size(file: &LentFile<'_>) -> Option<u32>
    ensures size { IfSome result (λ size. size ≡ data_size (plain_items file.now.items)) }
    ensures fits { IsSome result → is_too_long 0 (plain_items file.now.items) ≡ false }
    ensures too_long { IsNone result → is_too_long 0 (plain_items file.now.items) ≡ true }
{
    let mut nothing = [];
    let mut room = Room::new(&mut nothing);
    let done = write_records(file, &mut room);
    match done {
        Ok(()) if room.len <= u32::MAX as usize => Some(room.len as u32),
        Ok(()) => None,
        Err(WritePlainFault::TooLong) => None,
        Err(WritePlainFault::Write(fault)) => match fault {},
    }
}

// Writes the records of the plain form, which have no room.
fn write_records(
    file: &LentFile<'_>,
    room: &mut Room<'_>,
) -> Result<(), WritePlainFault<Infallible>>
    requires empty { room.old.tape.bytes ≡ [] }
    ensures records { OnOk result
        (room.new.tape.bytes ≡ encoded_items (plain_items file.now.items)) }
    ensures fields { JudgesFields (plain_items file.now.items) result }
{
    write_plain_records(file, room)
}

// The text of a file in memory, and its JSON.

ghost use Rattle.std.specs.Prelude.{◌≡◌, ◌≤◌, ◌⊎◌, [], true, false, length, take};
ghost use Rattle.fit_c.specs.Files.{IsNoFile, NeedsRoomToShow, Shows, shown_as};

use crate::reading::read_file;
use crate::room::Room;
use fit_grammar::LentFile;
use fit_text::{ShowFault, show, show_json};

/// Writes the text of a FIT file into `out`, as `show` of `fit_text` writes it. With `utc`, times are dates. Returns 0, and the length
/// of the text in `out_len`; 1 to 9 if the bytes are no FIT file (the code of the `FaultKind`), with the place of the fault in
/// `fault_place`; 20 if the text does not fit into `out`, with its length in `out_len`, or 2^64 - 1 if it is longer.
#[unsafe(no_mangle)]
pub extern "C" fn fitrec_show(
    bytes: &[u8],
    utc: bool,
    out: &mut [u8],
    out_len: &mut u64,
    fault_place: &mut u64,
) -> u8
    ensures code { (result ≤ 9) ⊎ (result ≡ 20) }
    ensures ok { result ≡ 0 → Shows false utc bytes.now (take out_len.new out.new) }
    ensures within { result ≡ 0 → out_len.new ≤ length out.new }
    ensures no_file { 1 ≤ result → result ≤ 9 → IsNoFile bytes.now result fault_place.new }
    ensures no_room { result ≡ 20
        → NeedsRoomToShow false utc bytes.now (length out.old) out_len.new }
    ensures unchanged { 1 ≤ result → result ≤ 9
        → (out_len.new ≡ out_len.old) × (out.new ≡ out.old) }
    ensures place { (result ≡ 0) ⊎ (20 ≤ result) → fault_place.new ≡ fault_place.old }
{
    show_as(bytes, false, utc, out, out_len, fault_place)
}

/// Writes a FIT file as JSON into `out`, as `show_json` of `fit_text` writes it. The rest is as for `fitrec_show`.
#[unsafe(no_mangle)]
pub extern "C" fn fitrec_json(
    bytes: &[u8],
    utc: bool,
    out: &mut [u8],
    out_len: &mut u64,
    fault_place: &mut u64,
) -> u8
    ensures code { (result ≤ 9) ⊎ (result ≡ 20) }
    ensures ok { result ≡ 0 → Shows true utc bytes.now (take out_len.new out.new) }
    ensures within { result ≡ 0 → out_len.new ≤ length out.new }
    ensures no_file { 1 ≤ result → result ≤ 9 → IsNoFile bytes.now result fault_place.new }
    ensures no_room { result ≡ 20
        → NeedsRoomToShow true utc bytes.now (length out.old) out_len.new }
    ensures unchanged { 1 ≤ result → result ≤ 9
        → (out_len.new ≡ out_len.old) × (out.new ≡ out.old) }
    ensures place { (result ≡ 0) ⊎ (20 ≤ result) → fault_place.new ≡ fault_place.old }
{
    show_as(bytes, true, utc, out, out_len, fault_place)
}

// Writes a file as its text, or as JSON.
fn show_as(
    bytes: &[u8],
    json: bool,
    utc: bool,
    out: &mut [u8],
    out_len: &mut u64,
    fault_place: &mut u64,
) -> u8
    ensures code { (result ≤ 9) ⊎ (result ≡ 20) }
    ensures ok { result ≡ 0 → Shows json utc bytes.now (take out_len.new out.new) }
    ensures within { result ≡ 0 → out_len.new ≤ length out.new }
    ensures no_file { 1 ≤ result → result ≤ 9 → IsNoFile bytes.now result fault_place.new }
    ensures no_room { result ≡ 20 → NeedsRoomToShow json utc bytes.now (length out.old) out_len.new }
    ensures unchanged { 1 ≤ result → result ≤ 9
        → (out_len.new ≡ out_len.old) × (out.new ≡ out.old) }
    ensures place { (result ≡ 0) ⊎ (20 ≤ result) → fault_place.new ≡ fault_place.old }
{
    let file = match read_file(bytes, fault_place) {
        Ok(file) => file,
        Err(code) => return code,
    };
    let mut room = Room::new(out);
    show_in(&file, json, utc, &mut room);
    *out_len = room.len as u64;
    room.code()
}

// Writes it into the same buffer.
fn show_in(file: &LentFile<'_>, json: bool, utc: bool, room: &mut Room<'_>)
    requires empty { room.old.tape.bytes ≡ [] }
    ensures name { room.new.bytes.ghost_name ≡ room.old.bytes.ghost_name }
    ensures text { room.new.tape.bytes ≡ shown_as json utc file.now }
{
    let written = if json {
        show_json(file, utc, room)
    } else {
        show(file, utc, room)
    };
    match written {
        Ok(()) => {}
        Err(ShowFault::Write(fault)) => match fault {},
    }
}

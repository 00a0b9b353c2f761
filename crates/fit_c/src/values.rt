// Which fields the messages have, and the values of fields of every kind.

ghost use Rattle.std.specs.Prelude.{◌≡◌, ◌≤◌, ◌<◌, ◌*◌, ◌⊎◌, length};
ghost use Rattle.fit_c.specs.Files.{IsNoFile, HasColumns, NeedsRows};
ghost use Rattle.fit_c.specs.Values.{HasFields, HasValues, NeedsRoomForValues};

use crate::columns::read_for_columns;
use crate::room::NO_ROOM;
use fit_columns::{ValueHead, fill_known, find_values};

/// Fills columns as `fitrec_columns` does, and says in `held` which fields the messages have, as `fill_known` of `fit_columns` does.
/// Returns what `fitrec_columns` returns. After 20 `held` is filled too.
#[unsafe(no_mangle)]
pub extern "C" fn fitrec_fields(
    bytes: &[u8],
    message: u16,
    fields: &[u8],
    room: usize,
    out: &mut [i64],
    held: &mut [u8],
    rows: &mut u64,
    fault_place: &mut u64,
) -> u8
    ensures code { (result ≤ 9) ⊎ (result ≡ 20) ⊎ (result ≡ 23) ⊎ (result ≡ 24) }
    ensures ok { result ≡ 0 → HasColumns bytes.now message fields.now room rows.new out.new }
    ensures held { (result ≡ 0) ⊎ (result ≡ 20) → HasFields bytes.now message held.new }
    ensures no_file { 1 ≤ result → result ≤ 9 → IsNoFile bytes.now result fault_place.new }
    ensures no_room { result ≡ 20 → NeedsRows bytes.now message room rows.new }
    ensures too_many { result ≡ 23 → 128 < length fields.now }
    ensures short { result ≡ 24 → length out.old < length fields.now * room }
    ensures unchanged { ((1 ≤ result) × (result ≤ 9)) ⊎ (23 ≤ result)
        → (rows.new ≡ rows.old) × (out.new ≡ out.old) × (held.new ≡ held.old) }
    ensures place { (result ≡ 0) ⊎ (20 ≤ result) → fault_place.new ≡ fault_place.old }
{
    let file = match read_for_columns(bytes, fields.len(), room, out.len(), fault_place) {
        Ok(file) => file,
        Err(code) => return code,
    };
    let count = fill_known(&file, message, fields, room, out, held);
    *rows = count as u64;
    if count <= room { 0 } else { NO_ROOM }
}

/// Finds the values of some fields in the messages of one global number, as `find_values` of `fit_columns` does. Each field has `room`
/// heads in `heads`, one field after another, and the bytes of the values are in `values`. Returns 0, the number of the messages in
/// `rows`, and the number of the bytes in `len`; 1 to 9 if the bytes are no FIT file (the code of the `FaultKind`), with the place of
/// the fault in `fault_place`; 20 if there are more messages than `room`, or more bytes than `values` has, with their numbers in
/// `rows` and `len`; 23 if more than 128 fields are asked for; 24 if `heads` has fewer than `room` heads for each field.
#[unsafe(no_mangle)]
pub extern "C" fn fitrec_values(
    bytes: &[u8],
    message: u16,
    fields: &[u32],
    room: usize,
    heads: &mut [ValueHead],
    values: &mut [u8],
    rows: &mut u64,
    len: &mut u64,
    fault_place: &mut u64,
) -> u8
    ensures code { (result ≤ 9) ⊎ (result ≡ 20) ⊎ (result ≡ 23) ⊎ (result ≡ 24) }
    ensures ok { result ≡ 0
        → HasValues bytes.now message fields.now room rows.new len.new heads.new values.new }
    ensures no_file { 1 ≤ result → result ≤ 9 → IsNoFile bytes.now result fault_place.new }
    ensures no_room { result ≡ 20 → NeedsRoomForValues bytes.now message fields.now room
        (length values.old) rows.new len.new }
    ensures too_many { result ≡ 23 → 128 < length fields.now }
    ensures short { result ≡ 24 → length heads.old < length fields.now * room }
    ensures unchanged { ((1 ≤ result) × (result ≤ 9)) ⊎ (23 ≤ result)
        → (rows.new ≡ rows.old) × (len.new ≡ len.old) × (heads.new ≡ heads.old)
        × (values.new ≡ values.old) }
    ensures place { (result ≡ 0) ⊎ (20 ≤ result) → fault_place.new ≡ fault_place.old }
{
    let file = match read_for_columns(bytes, fields.len(), room, heads.len(), fault_place) {
        Ok(file) => file,
        Err(code) => return code,
    };
    let counts = find_values(&file, message, fields, room, heads, values);
    *rows = counts.rows as u64;
    *len = counts.len as u64;
    if counts.rows <= room && counts.len <= values.len() {
        0
    } else {
        NO_ROOM
    }
}

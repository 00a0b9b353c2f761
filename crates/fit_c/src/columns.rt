// The values of some fields, as columns.

ghost use Rattle.std.specs.Prelude.{◌≡◌, ◌≤◌, ◌<◌, ◌*◌, ◌⊎◌, IfErr, IfOk, OnOk, length};
ghost use Rattle.fit_grammar.specs.Format.File.{FileOf};
ghost use Rattle.fit_c.specs.Files.{IsNoFile, HasColumns, NeedsRows};

use crate::reading::read_file;
use crate::room::NO_ROOM;
use fit_columns::{MOST_COLUMNS, fill_columns};
use fit_grammar::LentFile;

// More columns are asked for than one call has.
const TOO_MANY: u8 = 23;

// The buffer has fewer values than the columns.
const SHORT: u8 = 24;

/// Fills columns with the values of some fields in the messages of one global number, as `fill_columns` of `fit_columns` does. Each
/// column has `room` values in `out`, one column after another. Returns 0, and the number of the messages in `rows`; 1 to 9 if the
/// bytes are no FIT file (the code of the `FaultKind`), with the place of the fault in `fault_place`; 20 if there are more messages
/// than `room`, with their number in `rows`; 23 if more than 128 columns are asked for; 24 if `out` has fewer than `room` values for
/// each column.
#[unsafe(no_mangle)]
pub extern "C" fn fitrec_columns(
    bytes: &[u8],
    message: u16,
    fields: &[u8],
    room: usize,
    out: &mut [i64],
    rows: &mut u64,
    fault_place: &mut u64,
) -> u8
    ensures code { (result ≤ 9) ⊎ (result ≡ 20) ⊎ (result ≡ 23) ⊎ (result ≡ 24) }
    ensures ok { result ≡ 0 → HasColumns bytes.now message fields.now room rows.new out.new }
    ensures no_file { 1 ≤ result → result ≤ 9 → IsNoFile bytes.now result fault_place.new }
    ensures no_room { result ≡ 20 → NeedsRows bytes.now message room rows.new }
    ensures too_many { result ≡ 23 → 128 < length fields.now }
    ensures short { result ≡ 24 → length out.old < length fields.now * room }
    ensures unchanged { ((1 ≤ result) × (result ≤ 9)) ⊎ (23 ≤ result)
        → (rows.new ≡ rows.old) × (out.new ≡ out.old) }
    ensures place { (result ≡ 0) ⊎ (20 ≤ result) → fault_place.new ≡ fault_place.old }
{
    let file = match read_for_columns(bytes, fields.len(), room, out.len(), fault_place) {
        Ok(file) => file,
        Err(code) => return code,
    };
    let count = fill_columns(&file, message, fields, room, out);
    *rows = count as u64;
    if count <= room { 0 } else { NO_ROOM }
}

// Reads the file that the bytes are, as `read_file` does, if a buffer of this size has room for so many columns.
pub fn read_for_columns<'a>(
    bytes: &'a [u8],
    columns: usize,
    room: usize,
    size: usize,
    fault_place: &mut u64,
) -> Result<LentFile<'a>, u8>
    ensures file { IfOk result (FileOf bytes.now) }
    ensures fit { OnOk result ((columns ≤ 128) × (columns * room ≤ size)) }
    ensures place { OnOk result (fault_place.new ≡ fault_place.old) }
    ensures refused { IfErr result
        (λ code. ((1 ≤ code) × (code ≤ 9) × IsNoFile bytes.now code fault_place.new)
        ⊎ ((fault_place.new ≡ fault_place.old)
        × (((code ≡ 23) × (128 < columns)) ⊎ ((code ≡ 24) × (size < columns * room))))) }
{
    if columns > MOST_COLUMNS {
        return Err(TOO_MANY);
    }
    match columns.checked_mul(room) {
        Some(values) if values <= size => read_file(bytes, fault_place),
        _ => Err(SHORT),
    }
}

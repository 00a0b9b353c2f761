// Moves the times of a file in memory.

ghost use Rattle.std.specs.Prelude.{◌≡◌, ◌≤◌, ◌<◌, ◌⊎◌, length, take, true, None};
ghost use Rattle.fit_grammar.specs.Format.Encoding.{encoded};
ghost use Rattle.fit_grammar.specs.Format.File.{FileValue, FileOf};
ghost use Rattle.fit_grammar.specs.Calls.PlainForm.{plain_of, plain_items, is_too_long};
ghost use Rattle.fit_shifting.specs.Shifted.{IsShifted};
ghost use Rattle.fit_shifting.specs.Stuck.{stuck_at, IsStuck};
ghost use Rattle.fit_c.specs.Files.{IsNoFile, HasNoPlainForm};
ghost use Rattle.fit_c.specs.Shifted.{shift_of as shift_by, IsShiftedOf, NeedsRoomToShift, HasNoTime, HasTimeTooFar};

use crate::plain::write_file;
use crate::reading::read_file;
use fit_grammar::LentFile;
use fit_shifting::{Shift, ShiftBy, find_stuck, shift_plain};

// No message has a time.
pub const NO_TIME: u8 = 27;

// A time would be below 0, or 4294967295 or more.
const TIME_TOO_FAR: u8 = 28;

/// Writes a new file into `out`: the plain form of a FIT file with every time in it moved by so many seconds, later if they are positive,
/// as `shift_plain` of `fit_shifting` moves them. Returns 0, and the length of that file in `out_len`; 1 to 9 if the bytes are no FIT file
/// (the code of the `FaultKind`), with the place of the fault in `fault_place`; 20 if the new file does not fit into `out`, with its length
/// in `out_len`; 21 if its records would exceed 4294967295 bytes or a definition would have 256 fields; 28 if a time would be below 0, or
/// 4294967295 or more, with the place of its message in `fault_place`.
#[unsafe(no_mangle)]
pub extern "C" fn fitrec_shift(
    bytes: &[u8],
    seconds: i64,
    out: &mut [u8],
    out_len: &mut u64,
    fault_place: &mut u64,
) -> u8
    ensures code { (result ≤ 9) ⊎ (result ≡ 20) ⊎ (result ≡ 21) ⊎ (result ≡ 28) }
    ensures ok { result ≡ 0
        → IsShiftedOf (ShiftBy.Seconds (shift_by seconds)) bytes.now (take out_len.new out.new) }
    ensures within { result ≡ 0 → out_len.new ≤ length out.new }
    ensures no_file { 1 ≤ result → result ≤ 9 → IsNoFile bytes.now result fault_place.new }
    ensures no_room { result ≡ 20 → NeedsRoomToShift (ShiftBy.Seconds (shift_by seconds)) bytes.now
        (length out.old) out_len.new }
    ensures too_long { result ≡ 21 → HasNoPlainForm bytes.now }
    ensures too_far { result ≡ 28
        → HasTimeTooFar (ShiftBy.Seconds (shift_by seconds)) bytes.now fault_place.new }
    ensures unchanged { ((1 ≤ result) × (result ≤ 9)) ⊎ (21 ≤ result)
        → (out_len.new ≡ out_len.old) × (out.new ≡ out.old) }
    ensures place { (result ≡ 0) ⊎ (result ≡ 20) ⊎ (result ≡ 21)
        → fault_place.new ≡ fault_place.old }
{
    match read_file(bytes, fault_place) {
        Ok(file) => shift_read(shift_of(seconds), &file, bytes, out, out_len, fault_place),
        Err(code) => code,
    }
}

/// The same, moved so that the ride begins at this time: seconds since 1989-12-31 00:00 UTC. It begins at the time of the first record that
/// has one, or else of the first message that has one; 27 if no message has one.
#[unsafe(no_mangle)]
pub extern "C" fn fitrec_shift_start(
    bytes: &[u8],
    start: u32,
    out: &mut [u8],
    out_len: &mut u64,
    fault_place: &mut u64,
) -> u8
    ensures code { (result ≤ 9) ⊎ (result ≡ 20) ⊎ (result ≡ 21) ⊎ (result ≡ 27) ⊎ (result ≡ 28) }
    ensures ok { result ≡ 0
        → IsShiftedOf (ShiftBy.Start start) bytes.now (take out_len.new out.new) }
    ensures within { result ≡ 0 → out_len.new ≤ length out.new }
    ensures no_file { 1 ≤ result → result ≤ 9 → IsNoFile bytes.now result fault_place.new }
    ensures no_room { result ≡ 20
        → NeedsRoomToShift (ShiftBy.Start start) bytes.now (length out.old) out_len.new }
    ensures too_long { result ≡ 21 → HasNoPlainForm bytes.now }
    ensures no_time { result ≡ 27 → HasNoTime (ShiftBy.Start start) bytes.now }
    ensures too_far { result ≡ 28 → HasTimeTooFar (ShiftBy.Start start) bytes.now fault_place.new }
    ensures unchanged { ((1 ≤ result) × (result ≤ 9)) ⊎ (21 ≤ result)
        → (out_len.new ≡ out_len.old) × (out.new ≡ out.old) }
    ensures place { (result ≡ 0) ⊎ (result ≡ 20) ⊎ (result ≡ 21) ⊎ (result ≡ 27)
        → fault_place.new ≡ fault_place.old }
{
    let file = match read_file(bytes, fault_place) {
        Ok(file) => file,
        Err(code) => return code,
    };
    match ShiftBy::Start(start).shift_of(&file) {
        Some(shift) => shift_read(shift, &file, bytes, out, out_len, fault_place),
        None => NO_TIME,
    }
}

// The shift by so many seconds. None moves a time by 4294967295 or more.
fn shift_of(seconds: i64) -> Shift
    ensures { result ≡ shift_by seconds }
{
    let count = match u32::try_from(seconds.unsigned_abs()) {
        Ok(count) => count,
        Err(_) => u32::MAX,
    };
    if seconds < 0 {
        Shift::Earlier(count)
    } else {
        Shift::Later(count)
    }
}

// Writes the file of these bytes into the buffer, its times moved, if each can be and it has room. Returns the code of that.
fn shift_read(
    shift: Shift,
    file: &LentFile<'_>,
    bytes: &[u8],
    out: &mut [u8],
    out_len: &mut u64,
    fault_place: &mut u64,
) -> u8
    requires { FileOf bytes.now file.now }
    ensures code { (result ≡ 0) ⊎ (result ≡ 20) ⊎ (result ≡ 21) ⊎ (result ≡ 28) }
    ensures ok { result ≡ 0 → (shifted : FileValue) × IsShifted shift file.now shifted
        × (take out_len.new out.new ≡ encoded shifted) }
    ensures within { result ≡ 0 → out_len.new ≤ length out.new }
    ensures movable { result ≤ 21 → stuck_at shift file.now ≡ None }
    ensures needed { result ≡ 20 → out_len.new ≡ length (encoded (plain_of file.now)) }
    ensures no_room { result ≡ 20 → length out.old < out_len.new }
    ensures too_long { result ≡ 21 → is_too_long 0 (plain_items file.now.items) ≡ true }
    ensures too_far { result ≡ 28 → IsStuck bytes.now file.now shift fault_place.new }
    ensures unchanged { 21 ≤ result → (out_len.new ≡ out_len.old) × (out.new ≡ out.old) }
    ensures place { result ≤ 21 → fault_place.new ≡ fault_place.old }
{
    if let Some(place) = find_stuck(shift, file, bytes) {
        *fault_place = place as u64;
        return TIME_TOO_FAR;
    }
    let code = write_file(file, out, out_len);
    if code == 0 {
        shift_plain(shift, file, &mut out[..*out_len as usize]);
    }
    code
}

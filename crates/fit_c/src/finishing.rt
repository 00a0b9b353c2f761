// Adds the messages that an activity in memory lacks.

ghost use Rattle.std.specs.Prelude.{◌≡◌, ◌+◌, ◌≤◌, ◌<◌, ◌⊎◌, [], length, take};
ghost use Rattle.fit_grammar.specs.Format.Encoding.{encoded};
ghost use Rattle.fit_finishing.specs.Finished.{IsFinishing, finished_by, most_closing, most_opening};
ghost use Rattle.fit_c.specs.Files.{IsNoFile};
ghost use Rattle.fit_c.specs.Finished.{IsFinishedOf, NeedsRoomToFinish, CannotBeFinished, finish_code};

use crate::reading::read_file;
use crate::room::Room;
use fit_activity::ActivityFault;
use fit_finishing::{FinishFault, Finishing};
use fit_grammar::LentFile;

// The records could be too long with the closing messages.
const TOO_LONG: u8 = 21;

// No sample was taken.
const NO_SAMPLE: u8 = 26;

/// The entries of an activity.
#[repr(C)]
#[derive(Clone, Copy)]
pub struct FinishCounts {
    /// How many were heard and taken, without the start.
    pub heard: u64,
    /// How many a rule refused.
    pub left_out: u64,
}

/// Writes a new file into `out`: the FIT file `bytes` with the messages that the activity lacks, as `Finishing` of `fit_finishing` adds
/// them: the closing ones, and a file_id if its first message is none. Returns 0, and the length of the file in `out_len`; 1 to 9 if the
/// bytes are no FIT file (the code of the `FaultKind`), with the place of the fault in `fault_place`; 12 if its first message is a file_id
/// of no activity (10 more than the code of the `ActivityFault`); 20 if the new file does not fit into `out`, with its length in
/// `out_len`; 21 if its records could exceed 4294967295 bytes; 26 if no sample was taken. An `out` that is 300 bytes longer than `bytes`
/// is always large enough.
#[unsafe(no_mangle)]
pub extern "C" fn fitrec_finish(
    bytes: &[u8],
    out: &mut [u8],
    out_len: &mut u64,
    counts: &mut FinishCounts,
    fault_place: &mut u64,
) -> u8
    ensures code { (result ≤ 9) ⊎ (result ≡ 12) ⊎ (result ≡ 20) ⊎ (result ≡ 21) ⊎ (result ≡ 26) }
    ensures ok { result ≡ 0 → IsFinishedOf bytes.now (take out_len.new out.new) counts.new }
    ensures within { result ≡ 0 → out_len.new ≤ length out.new }
    ensures no_file { 1 ≤ result → result ≤ 9 → IsNoFile bytes.now result fault_place.new }
    ensures not_finished { (result ≡ 12) ⊎ (21 ≤ result)
        → CannotBeFinished bytes.now result }
    ensures no_room { result ≡ 20
        → NeedsRoomToFinish bytes.now (length out.old) out_len.new counts.new }
    ensures enough { result ≡ 20 → length out.old < length bytes.now + most_opening + most_closing }
    ensures unchanged { ((1 ≤ result) × (result ≤ 12)) ⊎ (21 ≤ result)
        → (out_len.new ≡ out_len.old) × (out.new ≡ out.old) × (counts.new ≡ counts.old) }
    ensures place { (result ≡ 0) ⊎ (12 ≤ result) → fault_place.new ≡ fault_place.old }
{
    let file = match read_file(bytes, fault_place) {
        Ok(file) => file,
        Err(code) => return code,
    };
    match Finishing::of(&file) {
        Ok(finishing) => {
            *counts = FinishCounts {
                heard: u64::from(finishing.taken),
                left_out: u64::from(finishing.left_out),
            };
            write_out(&finishing, &file, out, out_len)
        }
        Err(fault) => code_of(fault),
    }
}

// Writes the finished file into the buffer, if it has room, and returns the code of that.
fn write_out(finishing: &Finishing, file: &LentFile<'_>, out: &mut [u8], out_len: &mut u64) -> u8
    requires { IsFinishing file.now finishing.now }
    ensures code { (result ≡ 0) ⊎ (result ≡ 20) }
    ensures ok { result ≡ 0 → take out_len.new out.new ≡ encoded (finished_by file.now finishing.now) }
    ensures within { result ≡ 0 → out_len.new ≤ length out.new }
    ensures needed { result ≡ 20
        → out_len.new ≡ length (encoded (finished_by file.now finishing.now)) }
    ensures no_room { result ≡ 20 → length out.old < out_len.new }
{
    let mut room = Room::new(out);
    write_in(finishing, file, &mut room);
    *out_len = room.len as u64;
    room.code()
}

// Writes the finished file into the same buffer.
fn write_in(finishing: &Finishing, file: &LentFile<'_>, room: &mut Room<'_>)
    requires empty { room.old.tape.bytes ≡ [] }
    requires finishing { IsFinishing file.now finishing.now }
    ensures name { room.new.bytes.ghost_name ≡ room.old.bytes.ghost_name }
    ensures file { room.new.tape.bytes ≡ encoded (finished_by file.now finishing.now) }
{
    match finishing.write(file, room) {
        Ok(()) => {}
        Err(fault) => match fault {},
    }
}

// The code of a fault.
fn code_of(fault: FinishFault) -> u8
    ensures { result ≡ finish_code fault }
{
    match fault {
        FinishFault::NotActivity => 10 + ActivityFault::NotActivity.code(),
        FinishFault::NoSample => NO_SAMPLE,
        FinishFault::TooLong => TOO_LONG,
    }
}

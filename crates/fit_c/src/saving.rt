// Saves the ride of a recording as a file without compressed timestamps.

ghost use Rattle.std.specs.Prelude.{◌≡◌, ◌≤◌, ◌<◌, ◌+◌, ◌⊎◌, length, take};
ghost use Rattle.fit_recorder.specs.Files.Committed.{HasCounted};
ghost use Rattle.fit_c.specs.Repaired.{AreWithin, IsRefused, IsRepaired, contents_in};
ghost use Rattle.fit_c.specs.Saved.{IsSaved, IsSaveCode, IsNotWritten};

use crate::plain::write_file;
use crate::repairing::{RideSummary, fitrec_repair};
use fit_grammar::LentFile;

/// Repairs a recording as `fitrec_repair` does, and writes the plain form of its finished file into `out`. Returns 0, and the length of
/// that file in `out_len`; 7 to 10 and 16 as a repair does, with both files as they were; 20 if the file does not fit into `out`, with its
/// length in `out_len`; 21 if it would be too long. After 0, 20 and 21 the recording is repaired, and `summary` is filled.
#[unsafe(no_mangle)]
pub extern "C" fn fitrec_save(
    data_bytes: &mut [u8],
    data_len: &mut u64,
    journal_bytes: &mut [u8],
    journal_len: &mut u64,
    out: &mut [u8],
    out_len: &mut u64,
    summary: &mut RideSummary,
) -> u8
    ensures code { IsSaveCode result }
    ensures ok { result ≡ 0
        → IsSaved (contents_in data_bytes.old data_len.old journal_bytes.old journal_len.old)
        (take out_len.new out.new) summary.new × (out_len.new ≤ length out.new) }
    ensures within { (result ≡ 0) ⊎ (20 ≤ result)
        → AreWithin data_bytes.new data_len.new journal_bytes.new journal_len.new }
    ensures not_written { IsNotWritten result
        (contents_in data_bytes.old data_len.old journal_bytes.old journal_len.old)
        (length out.old) out_len.new
        × (result ≡ 21 → (out_len.new ≡ out_len.old) × (out.new ≡ out.old)) }
    ensures repaired { (result ≡ 0) ⊎ (20 ≤ result)
        → IsRepaired (contents_in data_bytes.old data_len.old journal_bytes.old journal_len.old)
        (contents_in data_bytes.new data_len.new journal_bytes.new journal_len.new) summary.new }
    // The body has the checksum that the journal states, if it states one.
    ensures checked { (result ≡ 0) ⊎ (20 ≤ result)
        → HasCounted (take journal_len.old journal_bytes.old) (take data_len.new data_bytes.new) }
    ensures why { IsRefused result data_bytes.old data_len.old journal_bytes.old journal_len.old }
    ensures same { 7 ≤ result → result ≤ 16
        → contents_in data_bytes.new data_len.new journal_bytes.new journal_len.new
        ≡ contents_in data_bytes.old data_len.old journal_bytes.old journal_len.old }
    ensures unchanged { 7 ≤ result → result ≤ 16
        → (data_len.new ≡ data_len.old) × (journal_len.new ≡ journal_len.old)
        × (summary.new ≡ summary.old)
        × (out_len.new ≡ out_len.old) × (out.new ≡ out.old) }
{
    let answer = fitrec_repair(data_bytes, data_len, journal_bytes, journal_len, summary);
    if answer != 0 {
        return answer;
    }
    let Ok(file) = LentFile::read(&data_bytes[..*data_len as usize]) else {
        unreachable!();
    };
    write_file(&file, out, out_len)
}

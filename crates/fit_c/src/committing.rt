// What a recording has after its last commit, and the commit before it.

ghost use Rattle.std.specs.Prelude.{◌≡◌, ◌⊎◌, ◌<◌, ℕ};
ghost use Rattle.fit_journal.specs.Earlier.{HasTwoCommits, before_last, last_bytes};
ghost use Rattle.fit_recorder.specs.Files.Changed.{HasChanged};
ghost use Rattle.fit_recorder.specs.Files.Uncommitted.{HasUncommitted};

use fit_recorder::{count_uncommitted, leave_changed};

// The journal stays as it is: what its last commit counts has not changed, or it has no earlier one.
const NOT_LEFT: u8 = 17;

/// How many bytes of whole messages follow the last commit of a recording: a save leaves them out, and a salvage keeps them. 0 if there
/// are none, if nothing was committed, and if the data file is a finished one.
#[unsafe(no_mangle)]
pub extern "C" fn fitrec_uncommitted(data_bytes: &[u8], journal_bytes: &[u8]) -> u64
    ensures some { 0 < result → HasUncommitted
        (record { in_data = data_bytes.now; in_journal = journal_bytes.now }) result }
    ensures none { result ≡ 0 → (count : ℕ) → HasUncommitted
        (record { in_data = data_bytes.now; in_journal = journal_bytes.now }) count → ⊥ }
{
    match count_uncommitted(data_bytes, journal_bytes) {
        Some(count) => count as u64,
        None => 0,
    }
}

/// Takes the last commit from the journal of a recording, if the bytes that it counts have changed and there is an earlier commit. Returns
/// 0, and in `left_out` how many bytes count no longer; or 17, with the journal as it was.
#[unsafe(no_mangle)]
pub extern "C" fn fitrec_leave_changed(
    data_bytes: &[u8],
    journal_bytes: &mut [u8],
    left_out: &mut u64,
) -> u8
    ensures code { (result ≡ 0) ⊎ (result ≡ 17) }
    ensures left { result ≡ 0
        → HasChanged (record { in_data = data_bytes.now; in_journal = journal_bytes.old })
        × HasTwoCommits journal_bytes.old × (journal_bytes.new ≡ before_last journal_bytes.old)
        × (left_out.new ≡ last_bytes journal_bytes.old) }
    ensures same { result ≡ 17
        → (journal_bytes.new ≡ journal_bytes.old) × (left_out.new ≡ left_out.old)
        × (HasChanged (record { in_data = data_bytes.now; in_journal = journal_bytes.old })
        → HasTwoCommits journal_bytes.old → ⊥) }
{
    match leave_changed(data_bytes, journal_bytes) {
        Some(count) => {
            *left_out = u64::from(count);
            0
        }
        None => NOT_LEFT,
    }
}

// What a call answers in C.

ghost use Rattle.std.specs.Prelude.{◌≡◌, ◌↔◌, ◌∷◌, [], IsTrue, length, take};
ghost use Rattle.fit_device.specs.Answer.{code_of as code_of_answer, code_of_fault, IsNumberOf};
ghost use Rattle.fit_disk.specs.State.{Contents};

use fit_recorder::RecFault;

// The handle is none of a recorder.
pub(crate) const NO_RECORDER: u8 = 11;

// No sport has this number.
pub(crate) const NO_SPORT: u8 = 12;

// A window of a file is asked for.
pub(crate) const NEEDS_WINDOW: u8 = 13;

// An erasing was cut off, and has to be begun anew.
const ERASING: u8 = 14;

pub(crate) fn code_of(answer: &Result<(), RecFault>) -> u8
    ensures { result ≡ code_of_answer answer.now }
{
    match answer {
        Ok(()) => 0,
        Err(fault) => code_of_fault(fault),
    }
}

pub(crate) fn code_of_fault(fault: &RecFault) -> u8
    ensures { result ≡ code_of_fault fault.now }
{
    match fault {
        RecFault::Refused(refusal) => 32 + refusal.code(),
        _ => fault.code(),
    }
}

// The number of a fault of two files: of a data file of so many bytes, and of a journal that begins with these, or has no others.
pub(crate) fn number_of(fault: &RecFault, data_size: u64, journal: &[u8]) -> u8
    ensures { (contents : Contents) → length contents.in_data ≡ data_size
        → take 3 contents.in_journal ≡ take 3 journal.now
        → IsNumberOf contents fault.now result }
{
    match fault {
        RecFault::NothingRecorded if data_size > 0 && is_forgotten(journal) => ERASING,
        _ => code_of_fault(fault),
    }
}

// Whether the journal has lost the first byte of its form, as in an erasing.
fn is_forgotten(journal: &[u8]) -> bool
    ensures { IsTrue result ↔ (take 3 journal.now ≡ 0 ∷ 0x52 ∷ 0x4A ∷ []) }
{
    matches!(journal, [0, b'R', b'J', ..])
}

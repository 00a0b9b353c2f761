// What passes at a dialogue in one call.

use fit_files::ReadFault;

/// What a call of a dialogue did.
#[derive(Clone, Copy, Debug, PartialEq, Eq)]
pub enum Minute {
    /// A read gave the bytes.
    Heard,
    /// A read failed.
    HearFailed(ReadFault),
    /// The bytes were written.
    Told,
    /// The bytes were written, and then the write failed.
    TellFailed,
}

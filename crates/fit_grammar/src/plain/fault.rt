// Why a file has no plain form.

ghost use Rattle.std.specs.Prelude.{◌≡◌, Some};
ghost use Rattle.fit_grammar.specs.declared.plain.fault.PlainFaultKind.TheVariants as kinds;

use std::alloc::AllocError;
use std::error::Error;
use std::fmt::{self, Formatter, Write};

/// Why the plain form of an item cannot be added to those before it.
#[derive(Clone, Copy, Debug, PartialEq, Eq)]
pub enum PlainFaultKind {
    /// The records would exceed 4,294,967,295 bytes, or the definition of a message would have 256 fields.
    TooLong,
    /// The allocator refused to grow a buffer.
    Memory,
}

// Its name.
impl fmt::Display for PlainFaultKind {
    ghost use Rattle.fit_grammar.specs.Calls.FaultName.{plain_name};

    ghost output = { λ kind. Some (plain_name kind) };

    fn fmt<W: Write>(&self, f: &mut Formatter<W>) -> fmt::Result {
        f.write_str(match self {
            PlainFaultKind::TooLong => "TooLong",
            PlainFaultKind::Memory => "Memory",
        })
    }
}

impl Error for PlainFaultKind {}

/// Why a file has no plain form, and the place of the first item that is refused: an offset in bytes from the front of the
/// file.
#[derive(Clone, Copy, Debug, PartialEq, Eq)]
pub struct PlainFault {
    pub kind: PlainFaultKind,
    pub place: usize,
}

impl PlainFault {
    ghost use Rattle.fit_grammar.specs.Calls.FaultCode.{plain_code};

    /// The number of the fault's kind, 1 or 2.
    pub fn code(&self) -> u8
        ensures { result ≡ plain_code self.now.kind }
    {
        match self.kind {
            PlainFaultKind::TooLong => 1,
            PlainFaultKind::Memory => 2,
        }
    }
}

impl From<AllocError> for PlainFaultKind {
    ghost from_gives = { λ _ e. e ≡ kinds.Memory };

    fn from(_e: AllocError) -> PlainFaultKind {
        PlainFaultKind::Memory
    }
}

// The faults of reading a file, of adding to one, and of writing one, with their names.

ghost use Rattle.std.specs.Prelude.{◌≡◌, Some};
ghost use Rattle.fit_grammar.specs.declared.file.fault.FaultKind.TheVariants as kinds;
ghost use Rattle.fit_grammar.specs.declared.file.fault.PutFault.TheVariants as put;

use std::alloc::AllocError;
use std::error::Error;
use std::fmt::{self, Formatter, Write};

/// The kind of fault that the bytes of a file show.
#[derive(Clone, Copy, Debug, PartialEq, Eq)]
pub enum FaultKind {
    /// The input ends before the closing checksum is whole.
    Truncated,
    /// Byte 0 is not 12 or 14.
    HeaderSize,
    /// Bytes 8 to 11 are not `.FIT`.
    Magic,
    /// The major protocol version is not 1 or 2.
    Protocol,
    /// The header's checksum is present and wrong.
    HeaderCrc,
    /// A data message whose local number has no definition in force.
    UndefinedLocal(u8),
    /// An item extends past the end of the data that the header gives.
    SplitMessage,
    /// The closing checksum is wrong.
    FileCrc,
    /// A byte follows the closing checksum.
    TrailingBytes,
    /// The allocator refused to grow a buffer.
    Memory,
}

impl FaultKind {
    ghost use Rattle.fit_grammar.specs.Calls.FaultCode.{kind_code};

    /// The number of the kind, 1 to 10.
    pub fn code(&self) -> u8
        ensures { result ≡ kind_code self.now }
    {
        match self {
            FaultKind::Truncated => 1,
            FaultKind::HeaderSize => 2,
            FaultKind::Magic => 3,
            FaultKind::Protocol => 4,
            FaultKind::HeaderCrc => 5,
            FaultKind::UndefinedLocal(_) => 6,
            FaultKind::SplitMessage => 7,
            FaultKind::FileCrc => 8,
            FaultKind::TrailingBytes => 9,
            FaultKind::Memory => 10,
        }
    }
}

// Its name.
impl fmt::Display for FaultKind {
    ghost use Rattle.fit_grammar.specs.Calls.FaultName.{kind_name};

    ghost output = { λ kind. Some (kind_name kind) };

    fn fmt<W: Write>(&self, f: &mut Formatter<W>) -> fmt::Result {
        match self {
            FaultKind::Truncated => f.write_str("Truncated"),
            FaultKind::HeaderSize => f.write_str("HeaderSize"),
            FaultKind::Magic => f.write_str("Magic"),
            FaultKind::Protocol => f.write_str("Protocol"),
            FaultKind::HeaderCrc => f.write_str("HeaderCrc"),
            FaultKind::UndefinedLocal(local) => write!(f, "UndefinedLocal({local})"),
            FaultKind::SplitMessage => f.write_str("SplitMessage"),
            FaultKind::FileCrc => f.write_str("FileCrc"),
            FaultKind::TrailingBytes => f.write_str("TrailingBytes"),
            FaultKind::Memory => f.write_str("Memory"),
        }
    }
}

impl Error for FaultKind {}

/// Why bytes are not read as a file: the first check that fails, in the order of the bytes, and its place, an offset in bytes
/// from the front of the file.
#[derive(Clone, Copy, Debug, PartialEq, Eq)]
pub struct FileFault {
    pub kind: FaultKind,
    pub place: usize,
}

impl FileFault {
    ghost use Rattle.fit_grammar.specs.Calls.FaultCode.{kind_code};

    /// The number of the fault's kind.
    pub fn code(&self) -> u8
        ensures { result ≡ kind_code self.now.kind }
    {
        self.kind.code()
    }
}

/// Why an item is not added to a file.
#[derive(Clone, Copy, Debug, PartialEq, Eq)]
pub enum PutFault {
    /// A data message whose local number has no definition in force.
    UndefinedLocal,
    /// The content is not as long as the definition requires, or the message cannot have that time offset. An offset is below
    /// 32, and its local number below 4.
    Length,
    /// The records would exceed 4,294,967,295 bytes.
    TooLong,
    /// The allocator refused to grow a buffer.
    Memory,
}

impl PutFault {
    ghost use Rattle.fit_grammar.specs.Calls.FaultCode.{put_code};

    /// The number of the fault, 1 to 4. If several hold, the first is returned.
    pub fn code(&self) -> u8
        ensures { result ≡ put_code self.now }
    {
        match self {
            PutFault::UndefinedLocal => 1,
            PutFault::Length => 2,
            PutFault::TooLong => 3,
            PutFault::Memory => 4,
        }
    }
}

/// Why a file is not written.
#[derive(Clone, Copy, Debug, PartialEq, Eq)]
pub enum EncodeFault {
    /// The writer failed.
    Write,
}

impl EncodeFault {
    ghost use Rattle.fit_grammar.specs.Calls.FaultCode.{encode_code};

    /// The number of the fault, 1.
    pub fn code(&self) -> u8
        ensures { result ≡ encode_code self.now }
    {
        match self {
            EncodeFault::Write => 1,
        }
    }
}

impl From<AllocError> for PutFault {
    ghost from_gives = { λ _ e. e ≡ put.Memory };

    fn from(_e: AllocError) -> PutFault {
        PutFault::Memory
    }
}

impl From<AllocError> for FaultKind {
    ghost from_gives = { λ _ e. e ≡ kinds.Memory };

    fn from(_e: AllocError) -> FaultKind {
        FaultKind::Memory
    }
}

// Reads a whole input into memory.

ghost use Rattle.std.specs.Io.{ReadsAtMost};
ghost use Rattle.std.specs.Io.KnownBytes.{ReadConsumes};
ghost use Rattle.std.specs.Prelude.{◌≡◌, ◌≢◌, ◌<◌, ◌≤◌, length, vec_len, true, None, Some, Err, IfOk, IfErr, IfSome, if◌then◌else◌};
ghost use Rattle.std.specs.IoError.{error_kind};
ghost use Rattle.fit_files.specs.Calls.Reading.{ReadsAll, Refuses, ReadsFront};

use std::alloc::Global;
use std::io::{self, ErrorKind, Read};

/// The greatest number of bytes of one read.
pub const CHUNK: usize = 65_536;

/// Why an input was not read.
#[derive(Clone, Copy, Debug, PartialEq, Eq)]
pub enum ReadFault {
    /// The reader failed.
    Failed,
    /// The input has more bytes than the caller allows.
    TooLarge,
    /// Memory was refused.
    NoMemory,
}

impl ReadFault {
    ghost use Rattle.fit_files.specs.Calls.FaultCode.{read_code};

    /// The number of the fault, 1 to 3.
    pub fn code(&self) -> u8
        ensures { result ≡ read_code self.now }
    {
        match self {
            ReadFault::Failed => 1,
            ReadFault::TooLarge => 2,
            ReadFault::NoMemory => 3,
        }
    }
}

/// Reads a piece of an input, and returns its length, 0 at the end of the input. A read that was interrupted is tried again.
pub fn read_piece<T: Read>(from: &mut T, piece: &mut [u8]) -> io::Result<usize>
    ensures bound { ReadsAtMost result piece.new }
    ensures bytes { ReadConsumes (T.remaining from.old) (T.remaining from.new) result piece.new }
    ensures retried { IfErr result (λ error. error_kind error ≢ ErrorKind.Interrupted) }
{
    for _ in 0..u64::MAX {
        match from.read(piece) {
            Ok(taken) => return Ok(taken),
            Err(error) if error.kind() == ErrorKind::Interrupted => {}
            Err(error) => return Err(error),
        }
    }
    Err(ErrorKind::Other.into())
}

/// What was read of an input: its bytes up to its end, or to the first place that could not be read.
#[derive(Drop)]
pub struct FrontRead {
    pub bytes: Vec<u8>,
    /// Whether these are all bytes of the input.
    pub is_whole: bool,
}

impl FrontRead {
    /// The place of the first byte that could not be read.
    pub fn unread_from(&self) -> Option<usize>
        ensures { result ≡ (if self.now.is_whole then None else Some (vec_len self.now.bytes)) }
    {
        if self.is_whole {
            None
        } else {
            Some(self.bytes.len())
        }
    }
}

/// Reads all bytes of an input. Reports `TooLarge` if there are more than `most`.
pub fn read_all<T: Read>(alloc: Global, from: &mut T, most: usize) -> Result<Vec<u8>, ReadFault>
    ensures all { IfOk result (λ bytes. IfSome (T.remaining from.old) (λ known. bytes.items
        ≡ known)) }
    ensures most { IfOk result (λ bytes. vec_len bytes ≤ most) }
    ensures too_large { result ≡ Err ReadFault.TooLarge
        → IfSome (T.remaining from.old) (λ known. most < length known) }
    // The bytes taken from the input.
    ensures taken { IfOk result
        (λ bytes. ReadsAll most (T.remaining from.old) (T.remaining from.new) bytes.items) }
    ensures refused { IfErr result (Refuses most (T.remaining from.old) (T.remaining from.new)) }
{
    match read_front(alloc, from, most) {
        Ok(read) => all_of(read),
        Err(fault) => Err(fault),
    }
}

// The bytes of an input, if they were all read.
fn all_of(read: FrontRead) -> Result<Vec<u8>, ReadFault>
    ensures all { IfOk result (λ bytes. (bytes ≡ read.bytes) × (read.is_whole ≡ true)) }
    ensures failed { IfErr result (λ fault. fault ≡ ReadFault.Failed) }
{
    let FrontRead { bytes, is_whole } = read;
    if is_whole {
        Ok(bytes)
    } else {
        Err(ReadFault::Failed)
    }
}

/// Reads the bytes of an input up to its end, or to the first read that fails. Reports `TooLarge` if there are more than `most`, and
/// never `Failed`.
pub fn read_front<T: Read>(alloc: Global, from: &mut T, most: usize) -> Result<FrontRead, ReadFault>
    // The bytes taken from the input.
    ensures front { IfOk result (ReadsFront most (T.remaining from.old) (T.remaining from.new)) }
    ensures refused { IfErr result (λ fault. (fault ≢ ReadFault.Failed)
        × Refuses most (T.remaining from.old) (T.remaining from.new) fault) }
{
    let mut bytes = Vec::new(alloc);
    let mut chunk = [0u8; CHUNK];
    loop {
        let Ok(taken) = read_piece(from, &mut chunk) else {
            return Ok(FrontRead {
                bytes,
                is_whole: false,
            });
        };
        if taken == 0 {
            return Ok(FrontRead {
                bytes,
                is_whole: true,
            });
        }
        if taken > most - bytes.len() {
            return Err(ReadFault::TooLarge);
        }
        let Ok(()) = bytes.extend_from_slice(&chunk[..taken]) else {
            return Err(ReadFault::NoMemory);
        };
    }
}

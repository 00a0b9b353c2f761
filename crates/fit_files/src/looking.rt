// What of a damaged file is looked at, to go on after its faults.

ghost use Rattle.std.specs.Prelude.{◌<◌, ◌^◌, length};
ghost use Rattle.fit_grammar.specs.Calls.BeginningHeader.{BeginsWithHeader};
ghost use Rattle.fit_files.specs.Printed.Mended.{LooksAt};

use crate::salvaging::{HEADER, looked_at};
use fit_grammar::{Frame, Header, LentFile, read_header_front};

// The header that is written if the bytes begin with none. Version 2 of the protocol has every base type and developer fields.
const BARE: Frame = Frame {
    header_size: HEADER,
    protocol: 0x20,
    profile: 100,
};

/// Which bytes of a damaged file are looked at.
#[derive(Clone, Copy)]
pub struct Looked {
    /// The header of the file that is written.
    pub frame: Frame,
    /// The place of the first byte that is looked at.
    pub front: usize,
    /// The number of bytes looked at.
    pub looked_at: usize,
    /// The number of bytes after those looked at and the two of a checksum.
    pub not_looked_at: usize,
    /// Whether all bytes are a file, with a right checksum.
    pub trusted: bool,
}

/// The bytes that `salvage_bytes` looks at; all of them, if they begin with no header.
pub fn look_at(bytes: &[u8], all: bool) -> Looked
    requires { length bytes.now < 2 ^ 32 }
    ensures { LooksAt all bytes.now result }
{
    match read_header_front(bytes) {
        Ok(header) => look_after(bytes, header, all),
        Err(_) => Looked {
            frame: BARE,
            front: 0,
            looked_at: bytes.len(),
            not_looked_at: 0,
            trusted: false,
        },
    }
}

// The same after this header.
fn look_after(bytes: &[u8], header: Header, all: bool) -> Looked
    requires small { length bytes.now < 2 ^ 32 }
    requires begins { BeginsWithHeader bytes.now header.frame header.data_size }
    ensures { LooksAt all bytes.now result }
{
    let front = header.frame.header_size as usize;
    let after = &bytes[front..];
    let seen = looked_at(all, header.data_size, after).len();
    Looked {
        frame: Frame {
            header_size: HEADER,
            protocol: header.frame.protocol,
            profile: header.frame.profile,
        },
        front,
        looked_at: seen,
        not_looked_at: after.len().saturating_sub(seen + 2),
        trusted: LentFile::read(bytes).is_ok(),
    }
}

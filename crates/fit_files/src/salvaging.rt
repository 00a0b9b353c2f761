// Finds the readable part of a file that has no journal.

ghost use Rattle.std.specs.Prelude.{◌≡◌, ◌<◌, ◌≤◌, ◌^◌, length, IfOk, IfErr};
ghost use Rattle.fit_files.specs.Printed.Salvaged.{looked_at as looked_at_of, IsSalvage, IsNotSalvaged};

use crate::salvage::Salvage;
use fit_grammar::{FileFault, Frame, longest_front, read_header_front};

// The size in bytes of the header that is written.
pub(crate) const HEADER: u8 = 14;

/// Finds the longest row of whole items after the header of these bytes. If `all` is set or the header gives the data size 0, it
/// looks at all bytes after the header; otherwise at as many as the header gives, or as exist. The checksums are not checked. The
/// fault is that of bytes that do not begin with a header.
pub fn salvage_bytes(bytes: &[u8], all: bool) -> Result<Salvage<'_>, FileFault>
    requires { length bytes.now < 2 ^ 32 }
    ensures found { IfOk result (IsSalvage all bytes.now) }
    ensures refused { IfErr result (IsNotSalvaged bytes.now) }
{
    let header = read_header_front(bytes)?;
    let after = &bytes[header.frame.header_size as usize..];
    let looked_at = looked_at(all, header.data_size, after);
    Ok(Salvage {
        frame: Frame {
            header_size: HEADER,
            protocol: header.frame.protocol,
            profile: header.frame.profile,
        },
        row: &looked_at[..longest_front(looked_at)],
        looked_at: looked_at.len(),
        not_looked_at: after.len().saturating_sub(looked_at.len() + 2),
    })
}

// The bytes after a header that are looked at, if the header gives this data size.
pub(crate) fn looked_at(all: bool, size: u32, after: &[u8]) -> &[u8]
    ensures { result.now ≡ looked_at_of all size after.now }
{
    if all || size == 0 {
        return after;
    }
    &after[..after.len().min(size as usize)]
}

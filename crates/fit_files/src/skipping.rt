// Keeps what is readable of a damaged file, and goes on after its faults.

ghost use Rattle.std.specs.Prelude.{◌<◌, ◌+◌, ◌^◌, List, length, IfOk};
ghost use Rattle.fit_grammar.specs.Format.Item.{Item};
ghost use Rattle.fit_grammar.specs.Format.Records.{Records};
ghost use Rattle.fit_files.specs.Printed.Mended.{IsMended};

use crate::looking::look_at;
use crate::mended::Mended;
use fit_mending::skip_faults;
use std::alloc::{AllocError, Global};

/// Keeps what is readable of a damaged file: after each fault it goes on at the next place from which items follow that fit. It looks
/// at the bytes that `salvage_bytes` looks at, and at all of them if they begin with no header. Of a file whose checksum is right all is
/// kept. `known` has the definitions that are known before the bytes, as messages, or nothing; the row begins with them.
pub fn skip_bytes(
    alloc: Global,
    known: &[u8],
    bytes: &[u8],
    all: bool,
) -> Result<Mended, AllocError>
    requires short { length known.now + length bytes.now < 2 ^ 32 }
    requires known { (items : List Item) × Records known.now items }
    ensures { IfOk result (IsMended all known.now bytes.now) }
{
    let looked = look_at(bytes, all);
    let seen = &bytes[..looked.front + looked.looked_at];
    let skipped = skip_faults(alloc, known, seen, looked.front, looked.trusted)?;
    Ok(Mended { looked, skipped })
}

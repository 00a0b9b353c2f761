// Choice bytes, written as a word.

ghost use Rattle.std.specs.Prelude.{◌≡◌, IfOk, option_map};
ghost use Rattle.fit_scripts.specs.Scripts.Hexadecimal.{hex_bytes};

use hex::FromHexError;
use std::alloc::{AllocError, Global};

/// The bytes that a word spells in hexadecimal digits of either case, two for each byte. `None` if it has another character, or an
/// odd number of digits. An empty word spells no bytes.
pub fn read_choices(alloc: Global, word: &str) -> Result<Option<Vec<u8>>, AllocError>
    ensures { IfOk result (λ choices. option_map (λ bytes. bytes.items) choices
        ≡ hex_bytes word.now) }
{
    match hex::decode(alloc, word) {
        Ok(bytes) => Ok(Some(bytes)),
        Err(fault) => match fault {
            FromHexError::OutOfMemory => Err(AllocError),
            _ => Ok(None),
        },
    }
}

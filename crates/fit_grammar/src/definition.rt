// Definition messages.

ghost use Rattle.std.specs.Prelude.{◌≡◌, ◌<◌, ◌≤◌};

mod frozen;
pub(crate) mod kept;
pub(crate) mod latest;
pub(crate) mod lent;
mod short;
mod table;

use arrayvec::ArrayVec;
use fit_base::Arch;
pub use frozen::FrozenShort;
pub use latest::Latest;
pub use lent::DefinitionMessage;
pub use short::{ShortDefinition, ShortTable};
pub use table::{Definitions, Table};

/// A field as a definition gives it: its number in the profile, its size in bytes, and its base type byte. It has three bytes
/// in a definition message.
#[derive(Clone, Copy, Debug, Default, PartialEq, Eq)]
pub struct FieldDefinition {
    pub number: u8,
    pub size: u8,
    pub base: u8,
}

impl FieldDefinition {
    ghost use Rattle.fit_grammar.specs.Calls.Possible.{FieldFits};

    // The same field. Its numbers fit into their bytes, as its type guarantees.
    pub(crate) fn in_bytes(self) -> FieldDefinition
        ensures same { result ≡ self }
        ensures fits { FieldFits result }
    {
        self
    }
}

/// A developer field as a definition gives it: its number, its size in bytes, and its developer data index. It has three bytes
/// in a definition message.
#[derive(Clone, Copy, Debug, Default, PartialEq, Eq)]
pub struct DeveloperFieldDefinition {
    pub number: u8,
    pub size: u8,
    pub index: u8,
}

impl DeveloperFieldDefinition {
    ghost use Rattle.fit_grammar.specs.Calls.Possible.{DeveloperFieldFits};

    // The same field. Its numbers fit into their bytes, as its type guarantees.
    pub(crate) fn in_bytes(self) -> DeveloperFieldDefinition
        ensures same { result ≡ self }
        ensures fits { DeveloperFieldFits result }
    {
        self
    }
}

/// A definition message: the layout of the data messages with its local number, until the next definition of that local number.
#[derive(Debug, Drop)]
pub struct Definition {
    /// The local message number, 0 to 15.
    pub local: u8,
    /// The byte order of the numbers in the definition and in its data messages.
    pub arch: Arch,
    /// The global message number, as the profile numbers messages.
    pub global: u16,
    pub fields: ArrayVec<FieldDefinition, 255>,
    /// The developer fields, which an application on the device defines. Their bytes are after those of the other fields.
    pub developer: ArrayVec<DeveloperFieldDefinition, 255>,
}

impl Definition {
    ghost use Rattle.fit_grammar.specs.Format.Item.{Defines, item_size};

    // The number of bytes that it is written as.
    pub(crate) fn size(&self) -> usize
        ensures size { result ≡ item_size (Defines self.now) }
        ensures bound { result ≤ 1537 }
    {
        let size = 6 + 3 * self.fields.len();
        if self.developer.is_empty() {
            size
        } else {
            size + 1 + 3 * self.developer.len()
        }
    }
}

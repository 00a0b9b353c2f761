// Data messages, as they are in a file.

ghost use Rattle.std.specs.Prelude.{◌≡◌, length};
ghost use Rattle.fit_grammar.specs.Format.Item.{content_size};

use crate::definition::DefinitionMessage;

/// A data message, borrowed from its window and from the table of definitions.
#[derive(Drop)]
pub struct DataMessage<'a> {
    /// The local message number, 0 to 15, or 0 to 3 with a compressed timestamp.
    pub local: u8,
    /// The time offset of a compressed timestamp, 0 to 31.
    pub offset: Option<u8>,
    /// The definition in force for the local number.
    pub definition: DefinitionMessage<'a>,
    /// The bytes of the fields and then of the developer fields, in the order and sizes of the definition.
    pub content: &'a [u8],
    ghost whole: { content_size definition ≡ length content.now },
}

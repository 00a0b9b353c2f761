// Definitions that are kept in the bytes they are written as.

ghost use Rattle.std.specs.Prelude.{◌≡◌, ◌<◌};
ghost use Rattle.fit_grammar.specs.Format.Item.{Defines};
ghost use Rattle.fit_grammar.specs.Format.Encoding.{encoded_item};
ghost use Rattle.fit_grammar.specs.Calls.Possible.{DefinitionFits};

use crate::definition::lent::SizedBytes;
use crate::definition::{Definition, DefinitionMessage};
use crate::item::writing::{LONGEST_DEFINITION, write_definition};
use std::marker::Model;

// A definition in the bytes that it is written as. Contracts see the definition.
#[derive(Drop)]
pub(crate) struct WrittenDefinition {
    bytes: [u8; LONGEST_DEFINITION],
    len: usize,
    // The size of a data message's content in bytes.
    content_size: usize,
}

impl Model for WrittenDefinition {
    ghost use Rattle.fit_grammar.specs.declared.definition.Definition.{Definition};
    ghost use Rattle.fit_grammar.specs.Private.KeptDefinition.{definition_written, IsWritten};

    ghost Value = { Definition };

    ghost view = { definition_written };

    ghost invariant = { IsWritten };
}

impl WrittenDefinition {
    pub(crate) fn new(d: &Definition) -> Self
        requires { d.now.local < 16 }
        ensures same { result ≡ d.now }
        // Each number fits into its bytes, as its type guarantees.
        ensures fits { DefinitionFits d.now }
    {
        let mut bytes = [0; LONGEST_DEFINITION];
        let len = d.size();
        write_definition(d, &mut bytes);
        let content_size = DefinitionMessage::new(&bytes[..len]).content_size();
        WrittenDefinition {
            bytes,
            len,
            content_size,
        }
    }

    // Its bytes.
    pub(crate) fn bytes(&self) -> &[u8]
        ensures { result.now ≡ encoded_item (Defines self.now) }
    {
        &self.bytes[..self.len]
    }

    // Lends it as a definition message.
    pub(crate) fn lend(&self) -> DefinitionMessage<'_>
        ensures { result ≡ self.now }
    {
        DefinitionMessage::of(SizedBytes {
            bytes: &self.bytes[..self.len],
            content_size: self.content_size,
        })
    }
}

// Short definitions, and the ones in force where all are short.

ghost use Rattle.std.specs.Prelude.{◌≡◌, ◌≢◌, ◌<◌, ◌≤◌, ℕ, length, take, IfSome, IsSome};
ghost use Rattle.fit_grammar.specs.Format.Item.{Defines, item_size};
ghost use Rattle.fit_grammar.specs.Calls.Table.{definition_in, longest_short};
ghost use Rattle.fit_grammar.specs.Private.DefinitionBytes.{definition_at, AreDefinition};

use crate::definition::lent::SizedBytes;
use crate::definition::{DefinitionMessage, Definitions};
use crate::item::definition_length;
use crate::item::first_byte::{Head, read_head};
use std::marker::Model;

// A definition that announces developer fields without having any takes one byte more than it is written as.
pub(crate) const ROOM: usize = 97;

/// A definition that is written as at most 96 bytes, kept in the bytes that spell it. Contracts see the definition.
#[derive(Drop)]
pub struct ShortDefinition {
    pub(crate) bytes: [u8; ROOM],
    pub(crate) len: u8,
    // The size of a data message's content in bytes.
    content_size: u32,
}

impl Model for ShortDefinition {
    ghost use Rattle.fit_grammar.specs.declared.definition.Definition.{Definition};
    ghost use Rattle.fit_grammar.specs.Private.ShortDefinition.{definition_spelled, IsSpelled};

    ghost Value = { Definition };

    ghost view = { definition_spelled };

    ghost invariant = { IsSpelled };
}

impl ShortDefinition {
    /// A copy of a definition.
    pub fn new(definition: &DefinitionMessage<'_>) -> Self
        requires { item_size (Defines definition.now) ≤ longest_short }
        ensures { result ≡ definition.now }
    {
        let SizedBytes {
            bytes,
            content_size,
        } = definition.bytes();
        ShortDefinition {
            bytes: at_front(bytes),
            len: bytes.len() as u8,
            content_size: content_size as u32,
        }
    }

    // The definition that these bytes spell. `None` if they spell none, or have more than 97.
    pub(crate) fn spelled_by(bytes: &[u8]) -> Option<ShortDefinition>
        ensures spelled { IfSome result (λ definition. definition ≡ definition_at bytes.now) }
        ensures possible { AreDefinition bytes.now → length bytes.now ≤ 97 → IsSome result }
    {
        if bytes.is_empty() || bytes.len() > ROOM {
            return None;
        }
        let Head::Definition(_, announced) = read_head(bytes[0]) else {
            return None;
        };
        if definition_length(bytes, announced) != bytes.len() {
            return None;
        }
        let content_size = DefinitionMessage::new(bytes).content_size();
        Some(ShortDefinition {
            bytes: at_front(bytes),
            len: bytes.len() as u8,
            content_size: content_size as u32,
        })
    }

    // Lends it as a definition message.
    fn lend(&self) -> DefinitionMessage<'_>
        ensures { result ≡ self.now }
    {
        DefinitionMessage::of(SizedBytes {
            bytes: &self.bytes[..self.len as usize],
            content_size: self.content_size as usize,
        })
    }
}

// An array with these bytes at its front.
fn at_front(bytes: &[u8]) -> [u8; ROOM]
    requires { length bytes.now ≤ 97 }
    ensures { take (length bytes.now) result ≡ bytes.now }
{
    let mut array = [0; ROOM];
    array[..bytes.len()].copy_from_slice(bytes);
    array
}

/// The short definition in force for each of the sixteen local numbers, or none. It is a tenth of the size of a `Table`.
#[derive(Drop)]
pub struct ShortTable {
    pub(crate) slots: [Option<ShortDefinition>; 16],
}

impl Model for ShortTable {
    ghost use Rattle.std.specs.Prelude.{◌≡◌, List, Option, length};
    ghost use Rattle.fit_grammar.specs.declared.definition.Definition.{Definition};

    ghost Value = { List (Option Definition) };

    ghost view = { λ t. t.slots };

    ghost invariant = { λ t. length t.slots ≡ 16 };
}

impl ShortTable {
    /// No definitions.
    pub fn new() -> ShortTable
        ensures { (l : ℕ) → definition_in result l ≡ None }
    {
        ShortTable {
            slots: [
                None, None, None, None, None, None, None, None, None, None, None, None, None, None,
                None, None,
            ],
        }
    }

    /// Makes this the definition of its local number, and replaces an earlier one.
    pub fn take(&mut self, definition: ShortDefinition)
        requires { definition.local < 16 }
        ensures taken { definition_in self.new definition.local ≡ Some definition }
        ensures others { (l : ℕ) → l ≢ definition.local
            → definition_in self.new l ≡ definition_in self.old l }
    {
        let local = definition.lend().local() as usize;
        self.slots[local] = Some(definition);
    }
}

impl Definitions for ShortTable {
    ghost definition_for = { definition_in };

    fn get(&self, local: u8) -> Option<DefinitionMessage<'_>> {
        match self.slots.get(local as usize) {
            Some(Some(short)) => Some(short.lend()),
            _ => None,
        }
    }
}

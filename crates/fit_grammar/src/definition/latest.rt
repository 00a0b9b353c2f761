// The latest definitions of a row of items, lent from the row.

ghost use Rattle.std.specs.Prelude.{◌≡◌, ◌≢◌, ◌<◌, ℕ};
ghost use Rattle.fit_grammar.specs.Calls.Table.{definition_in};

use crate::definition::DefinitionMessage;
use crate::definition::lent::SizedBytes;
use std::marker::Model;

/// The bytes of the latest definition of each of the sixteen local numbers, or none. Contracts see the definitions.
#[derive(Drop)]
pub struct Latest<'a> {
    slots: [Option<SizedBytes<'a>>; 16],
}

impl<'a> Model for Latest<'a> {
    ghost use Rattle.std.specs.Prelude.{List, Option};
    ghost use Rattle.fit_grammar.specs.declared.definition.Definition.{Definition};
    ghost use Rattle.fit_grammar.specs.Private.LatestDefinitions.{definitions_of, AreDefinitions};

    ghost Value = { List (Option Definition) };

    ghost view = { definitions_of };

    ghost invariant = { AreDefinitions };
}

impl<'a> Latest<'a> {
    /// No definitions.
    pub fn new() -> Self
        ensures { (l : ℕ) → definition_in result l ≡ None }
    {
        Latest { slots: [None; 16] }
    }

    /// Makes this the latest definition of its local number.
    pub fn take(&mut self, definition: &DefinitionMessage<'a>)
        requires { definition.now.local < 16 }
        ensures taken { definition_in self.new definition.now.local ≡ Some definition.now }
        ensures others { (l : ℕ) → l ≢ definition.now.local
            → definition_in self.new l ≡ definition_in self.old l }
    {
        self.slots[definition.local() as usize] = Some(definition.bytes());
    }

    /// The latest definition of a local number, if one exists.
    pub fn get(&self, local: u8) -> Option<DefinitionMessage<'a>>
        ensures { result ≡ definition_in self.now local }
    {
        match self.slots.get(local as usize) {
            Some(Some(sized)) => Some(DefinitionMessage::of(*sized)),
            _ => None,
        }
    }

    /// The same definitions, lent again.
    pub fn again(&self) -> Latest<'a>
        ensures { result ≡ self.now }
    {
        Latest { slots: self.slots }
    }
}

// The definitions in force, one for each local number.

ghost use Rattle.std.specs.Prelude.{◌≡◌, ◌≢◌, ◌<◌, ℕ};
ghost use Rattle.fit_grammar.specs.Calls.Table.{definition_in};

use crate::definition::kept::WrittenDefinition;
use crate::definition::{Definition, DefinitionMessage};
use std::marker::Model;

/// The definitions in force, looked up by local number.
pub trait Definitions {
    ghost use Rattle.std.specs.Prelude.{Option};
    ghost use Rattle.fit_grammar.specs.declared.definition.Definition.{Definition};

    /// The definition of a local number, if one exists.
    ghost definition_for: { Self → ℕ → Option Definition };

    /// The definition of a local number, if one exists.
    fn get(&self, local: u8) -> Option<DefinitionMessage<'_>>
        ensures { result ≡ definition_for self.now local };
}

/// The definition in force for each of the sixteen local numbers, or none.
#[derive(Drop)]
pub struct Table {
    slots: [Option<WrittenDefinition>; 16],
}

impl Model for Table {
    ghost use Rattle.std.specs.Prelude.{List, Option};
    ghost use Rattle.fit_grammar.specs.declared.definition.Definition.{Definition};

    ghost Value = { List (Option Definition) };

    ghost view = { λ t. t.slots };
}

impl Table {
    /// No definitions.
    pub fn new() -> Table
        ensures { (l : ℕ) → definition_in result l ≡ None }
    {
        Table {
            slots: [
                None, None, None, None, None, None, None, None, None, None, None, None, None, None,
                None, None,
            ],
        }
    }

    /// Makes this the definition of its local number, and replaces an earlier one.
    pub fn take(&mut self, d: &Definition)
        requires { d.now.local < 16 }
        ensures taken { definition_in self.new d.now.local ≡ Some d.now }
        ensures others { (l : ℕ) → l ≢ d.now.local
            → definition_in self.new l ≡ definition_in self.old l }
    {
        self.keep(WrittenDefinition::new(d));
    }

    // The same for a written definition.
    pub(crate) fn keep(&mut self, written: WrittenDefinition)
        requires { written.local < 16 }
        ensures taken { definition_in self.new written.local ≡ Some written }
        ensures others { (l : ℕ) → l ≢ written.local
            → definition_in self.new l ≡ definition_in self.old l }
    {
        let local = written.lend().local() as usize;
        self.slots[local] = Some(written);
    }
}

impl Definitions for Table {
    ghost definition_for = { definition_in };

    fn get(&self, local: u8) -> Option<DefinitionMessage<'_>> {
        match self.slots.get(local as usize) {
            Some(Some(written)) => Some(written.lend()),
            _ => None,
        }
    }
}

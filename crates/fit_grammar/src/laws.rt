//! Laws of the definitions in `specs/`. Each is the contract of a function that does nothing.

ghost use Rattle.std.specs.Prelude.{◌≡◌, ℕ, List, ◌++◌, Option};
ghost use Rattle.fit_grammar.specs.declared.definition.Definition.{Definition};
ghost use Rattle.fit_grammar.specs.Format.Encoding.{encoded_item, HasEncoding, encoded};
ghost use Rattle.fit_grammar.specs.Format.File.{FileValue, FileOf};
ghost use Rattle.fit_grammar.specs.Format.Item.{Item, Spells};
ghost use Rattle.fit_grammar.specs.Calls.Possible.{CanBeFile};
ghost use Rattle.fit_grammar.specs.Format.Records.{IsDefinedBy};

/// Under one lookup of definitions, no spelling of a defined item is a prefix of the spelling of another. So bytes are read as
/// items in at most one way.
pub fn no_spelling_begins_another()
    ensures { (f : ℕ → Option Definition) (i j : Item) (a x b y : List ℕ) → Spells i a → Spells j b
        → IsDefinedBy f i → IsDefinedBy f j → a ++ x ≡ b ++ y → (a ≡ b) × (i ≡ j) }
{}

/// The bytes that an item is written as are a spelling of it.
pub fn written_items_are_spelled()
    ensures { (i : Item) → HasEncoding i → Spells i (encoded_item i) }
{}

/// No bytes are a file of two values.
pub fn no_bytes_are_two_files()
    ensures { (bytes : List ℕ) (v w : FileValue) → FileOf bytes v → FileOf bytes w → v ≡ w }
{}

/// The encoding of a file's value is a file of that value. So a reader gets the same value back.
pub fn encoded_files_are_files()
    ensures { (v : FileValue) → CanBeFile v → FileOf (encoded v) v }
{}

// Short definitions as plain numbers, which C can keep.

ghost use Rattle.std.specs.Prelude.{◌≡◌, true};
ghost use Rattle.fit_grammar.specs.Calls.FrozenTable.{slot_in, table_in, IsPossible, ArePossible};

use crate::definition::short::{ROOM, ShortDefinition, ShortTable};

/// A short definition: the first `len` bytes spell it. If there are none, there is no definition.
#[repr(C)]
#[derive(Clone, Copy)]
pub struct FrozenShort {
    pub len: u8,
    pub bytes: [u8; ROOM],
}

impl ShortTable {
    /// Writes the table as plain numbers.
    pub fn freeze(&self, numbers: &mut [FrozenShort; 16])
        ensures table { table_in numbers.new ≡ self.now }
        ensures possible { ArePossible numbers.new }
    {
        for k in 0..16 {
            freeze_slot(&self.slots[k], &mut numbers[k]);
        }
    }

    /// Makes this the table with these numbers. Reports `false` if some of them spell no definition.
    pub fn thaw(&mut self, numbers: &[FrozenShort; 16]) -> bool
        ensures table { result ≡ true → self.new ≡ table_in numbers.now }
        ensures possible { ArePossible numbers.now → result ≡ true }
    {
        for k in 0..16 {
            if !thaw_slot(&numbers[k], &mut self.slots[k]) {
                return false;
            }
        }
        true
    }
}

fn freeze_slot(slot: &Option<ShortDefinition>, numbers: &mut FrozenShort)
    ensures slot { slot_in numbers.new ≡ slot.now }
    ensures possible { IsPossible numbers.new }
{
    match slot {
        None => numbers.len = 0,
        Some(definition) => freeze_definition(definition, numbers),
    }
}

fn freeze_definition(definition: &ShortDefinition, numbers: &mut FrozenShort)
    ensures slot { slot_in numbers.new ≡ Some definition.now }
    ensures possible { IsPossible numbers.new }
{
    numbers.len = definition.len;
    numbers.bytes = definition.bytes;
}

fn thaw_slot(numbers: &FrozenShort, slot: &mut Option<ShortDefinition>) -> bool
    ensures slot { result ≡ true → slot.new ≡ slot_in numbers.now }
    ensures possible { IsPossible numbers.now → result ≡ true }
{
    let len = usize::from(numbers.len);
    if len == 0 {
        *slot = None;
        return true;
    }
    if len > ROOM {
        return false;
    }
    match ShortDefinition::spelled_by(&numbers.bytes[..len]) {
        Some(definition) => {
            *slot = Some(definition);
            true
        }
        None => false,
    }
}

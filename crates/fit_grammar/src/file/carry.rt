// The item that the end of a piece cuts: its bytes are carried over to the next piece.

ghost use Rattle.std.specs.Prelude.{◌≡◌, ◌<◌, ◌≤◌, ◌+◌, ◌-◌, ◌^◌, ◌++◌, [], ℕ, List, length, take, slice_index_or, IfOk, OnOk, IfErr};
ghost use Rattle.fit_grammar.specs.Format.Records.{in_force, data_size};
ghost use Rattle.fit_grammar.specs.Calls.Pieces.{IsShownBy};
ghost use Rattle.fit_grammar.specs.Calls.Step.{ItemBegun, least_length_of};
ghost use Rattle.fit_grammar.specs.Private.Decoding.{IsItemFault};
ghost use Rattle.fit_grammar.specs.Private.Feeding.{StandsBefore, GoesOnFrom, CarriesOn, TakesBegun, fault_in};

use crate::file::state::Reading;
use crate::file::taking::{is_cut, take_item};
use crate::file::{FaultKind, File};
use crate::item::writing::LONGEST_DEFINITION;

// Adds bytes to the carried item until it is whole, and takes it. Returns how many of these bytes it used, or `None` if the
// item is still cut.
pub(crate) fn take_carried(reading: &mut Reading, bytes: &[u8]) -> Result<Option<usize>, FaultKind>
    requires stands { (b : List ℕ)
        × StandsBefore b reading.old (reading.old.carry.items ++ bytes.now) }
    requires more { reading.old.at < reading.old.end }
    requires closing { reading.old.closing.items ≡ [] }
    requires begun { ItemBegun (in_force reading.old.file.items) reading.old.carry.items }
    requires some { 1 ≤ length reading.old.carry.items }
    requires short { length reading.old.carry.items < 130051 }
    ensures same { GoesOnFrom reading.old reading.new }
    ensures ok { (b : List ℕ) → StandsBefore b reading.old (reading.old.carry.items ++ bytes.now)
        → IfOk result (CarriesOn b reading.new bytes.now) }
    ensures err { (b : List ℕ) → StandsBefore b reading.old (reading.old.carry.items ++ bytes.now)
        → IfErr result (λ kind. IsShownBy b (fault_in reading.new kind)) }
    ensures short { IfOk result (λ _. length reading.new.carry.items < 130051) }
    ensures later { reading.old.at ≤ reading.new.at }
{
    let had = reading.carry.len();
    let most = most_length(&reading.file, &reading.carry);
    let own = most.saturating_sub(had).min(bytes.len());
    match keep_begun(&mut reading.carry, &bytes[..own]) {
        Ok(()) => take_begun(reading, had),
        Err(kind) => Err(kind),
    }
}

// Takes the carried item if it is whole now, and returns how many bytes it has after the first `had`.
fn take_begun(reading: &mut Reading, had: usize) -> Result<Option<usize>, FaultKind>
    requires fits { data_size reading.old.file.items + (reading.old.end - reading.old.at) < 2 ^ 32 }
    requires more { reading.old.at < reading.old.end }
    requires noted { length reading.old.places ≤ reading.old.at }
    requires had { had ≤ length reading.old.carry.items }
    requires begun { ItemBegun (in_force reading.old.file.items)
        (take had reading.old.carry.items) }
    ensures same { GoesOnFrom reading.old reading.new }
    ensures taken { IfOk result (TakesBegun reading.old reading.new had) }
    ensures fault { IfErr result (λ kind.
        IsItemFault (in_force reading.old.file.items) reading.old.carry.items
        (reading.old.end - reading.old.at) kind
        × (kind ≡ FaultKind.Truncated → ⊥) × (reading.new.at ≡ reading.old.at)) }
    ensures short { IfOk result (λ _. length reading.new.carry.items < 130051) }
    ensures later { reading.old.at ≤ reading.new.at }
{
    let left = reading.end - reading.at;
    match take_item(
        &mut reading.file,
        &mut reading.places,
        &reading.carry,
        reading.at,
        left,
    ) {
        Ok(used) => {
            reading.carry.clear();
            reading.at += used;
            Ok(Some(used - had))
        }
        Err(kind) => { if is_cut(kind) { Ok(None) } else { Err(kind) } }
    }
}

// Keeps bytes of an item that is not whole.
pub(crate) fn keep_begun(carry: &mut Vec<u8>, bytes: &[u8]) -> Result<(), FaultKind>
    // The carried bytes are never more than the longest item has.
    requires { length carry.old.items + length bytes.now ≤ 130051 }
    ensures ok { OnOk result (carry.new.items ≡ carry.old.items ++ bytes.now) }
    ensures err { IfErr result (λ kind. (kind ≡ FaultKind.Memory) × (1 ≤ length bytes.now)) }
    // As their type guarantees.
    ensures bytes { (i : ℕ) → slice_index_or carry.new.items i 0 < 256 }
{
    carry.extend_from_slice(bytes)?;
    Ok(())
}

// An upper bound of the length of an item that begins with these bytes.
fn most_length(file: &File, carry: &[u8]) -> usize
    ensures least { IfOk (least_length_of (in_force file.now.items) carry.now)
        (λ least. least ≤ result) }
    ensures longest { 1537 ≤ result }
    ensures bound { result ≤ 130051 }
{
    match file.least_length(carry) {
        Ok(least) => least.max(LONGEST_DEFINITION),
        Err(_) => LONGEST_DEFINITION,
    }
}

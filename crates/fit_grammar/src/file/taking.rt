// Taking items into a file from the front of a window.

ghost use Rattle.std.specs.Prelude.{◌≡◌, ◌<◌, ◌≤◌, ◌+◌, ◌↔◌, ◌^◌, ◌++◌, [], ℕ, List, Option, length, drop, IfOk, OnErr, IfErr, IsTrue};
ghost use Rattle.fit_grammar.specs.declared.definition.Definition.{Definition as AnyDefinition};
ghost use Rattle.fit_grammar.specs.Format.Records.{in_force, data_size};
ghost use Rattle.fit_grammar.specs.Calls.Pieces.{IsShownBy};
ghost use Rattle.fit_grammar.specs.Calls.Step.{least_length_of};
ghost use Rattle.fit_grammar.specs.Private.Decoding.{IsItemFault, IsWholeLength, WindowShows};
ghost use Rattle.fit_grammar.specs.Private.Feeding.{StandsBefore, TakesItems, TakesNext, GoesOnFrom, fault_in};

use crate::definition::DefinitionMessage;
use crate::file::state::Reading;
use crate::file::{FaultKind, File, Places};
use crate::item::ItemFault;
use crate::item::first_byte::{Head, read_head};

// Takes whole items, up to the end of the data or to an unfinished item. Returns how many bytes they have.
pub(crate) fn take_items(reading: &mut Reading, bytes: &[u8]) -> Result<usize, FaultKind>
    requires stands { (b : List ℕ)
        × StandsBefore b reading.old (reading.old.closing.items ++ bytes.now) }
    requires within { reading.old.at < reading.old.end → reading.old.closing.items ≡ [] }
    ensures same { GoesOnFrom reading.old reading.new × (reading.new.carry ≡ reading.old.carry) }
    ensures ok { (b : List ℕ) → StandsBefore b reading.old (reading.old.closing.items ++ bytes.now)
        → IfOk result (λ used. (used ≤ length bytes.now)
        × TakesItems b reading.new (drop used bytes.now)) }
    ensures err { (b : List ℕ) → StandsBefore b reading.old (reading.old.closing.items ++ bytes.now)
        → IfErr result (λ kind. IsShownBy b (fault_in reading.new kind)) }
    // The rest of an unfinished item is shorter than the longest item.
    ensures short { IfOk result (λ used. reading.new.at < reading.new.end
        → length (drop used bytes.now) < 130051) }
    ensures later { reading.old.at ≤ reading.new.at }
{
    let mut used = 0;
    while reading.at < reading.end {
        let left = reading.end - reading.at;
        match take_item(
            &mut reading.file,
            &mut reading.places,
            &bytes[used..],
            reading.at,
            left,
        ) {
            Ok(own) => {
                reading.at += own;
                used += own;
            }
            Err(kind) => {
                return if is_cut(kind) { Ok(used) } else { Err(kind) };
            }
        }
    }
    Ok(used)
}

// Takes the item at the front of the window into the file. The window is at place `at`, and `left` bytes of the data remain.
pub(crate) fn take_item(
    file: &mut File,
    places: &mut Places,
    window: &[u8],
    at: usize,
    left: usize,
) -> Result<usize, FaultKind>
    requires fits { data_size file.old.items + left < 2 ^ 32 }
    requires noted { length places.old ≤ at }
    ensures taken { IfOk result
        (TakesNext file.old file.new places.old places.new window.now at left) }
    ensures fault { IfErr result (IsItemFault (in_force file.old.items) window.now left) }
    ensures err { OnErr result (file.new ≡ file.old) }
    // An item that is cut leaves both as they were.
    ensures cut { IfErr result (λ kind. kind ≡ FaultKind.Truncated → places.new ≡ places.old) }
    ensures short { IfErr result (λ kind. kind ≡ FaultKind.Truncated → length window.now < 130051) }
{
    let used = whole_length(file.least_length(window), window, left)?;
    match read_head(window[0]) {
        Head::Definition(..) => {
            let definition = DefinitionMessage::new(&window[..used]).read();
            places.note(at, definition.size(), used)?;
            file.push_definition(&definition)?;
        }
        Head::Data(local, offset) => file.push_data(local, offset, &window[1..used])?,
    }
    Ok(used)
}

// The number of bytes of the item at the front of the window, if all of them are there; `least` is its least length. What its
// first bytes show is reported before the rest is waited for.
pub(crate) fn whole_length(
    least: Result<usize, ItemFault>,
    window: &[u8],
    left: usize,
) -> Result<usize, FaultKind>
    requires { IfOk least (λ n. n ≤ 130051) }
    ensures whole { (f : ℕ → Option AnyDefinition) → least_length_of f window.now ≡ least
        → IfOk result (IsWholeLength f window.now left) }
    ensures shown { (f : ℕ → Option AnyDefinition) → least_length_of f window.now ≡ least
        → IfErr result (WindowShows f window.now left) }
    ensures short { IfErr result (λ kind. kind ≡ FaultKind.Truncated → length window.now < 130051) }
{
    let least = match least {
        Ok(least) => least,
        Err(ItemFault::UndefinedLocal(local)) => return Err(FaultKind::UndefinedLocal(local)),
    };
    if least > left {
        return Err(FaultKind::SplitMessage);
    }
    if least > window.len() {
        return Err(FaultKind::Truncated);
    }
    Ok(least)
}

// Whether the input ends too soon. More bytes may undo this fault.
pub(crate) fn is_cut(kind: FaultKind) -> bool
    ensures { IsTrue result ↔ (kind ≡ FaultKind.Truncated) }
{
    kind == FaultKind::Truncated
}

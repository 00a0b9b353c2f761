// Writes a file whole or not at all: under another name in the same folder, and then it moves the file to its place.

ghost use Rattle.std.specs.Prelude.{◌≡◌, ◌≢◌, ◌⊎◌, ◌<◌, ℕ, List, Option, true, IsTrue, IsErr, IfOk, IfErr, OnOk, OnErr, option_map, string_bytes};
ghost use Rattle.fit_places.specs.Folder.{Folder};
ghost use Rattle.fit_places.specs.FolderStory.{IsUnchanged, AtEachMoment};
ghost use Rattle.fit_places.specs.Replaced.{IsBetween, IsReplaced, IsNotReplaced, IsRefused, AreTaken, FailsOr, HasCause, name_beside, most_names};
ghost use Rattle.fit_places.specs.declared.place.PlaceFault.TheVariants.{Memory};
ghost use Rattle.fit_places.specs.Private.{IsReady, CreatesApart, CreatesBeside, IsBeside, IsFilled, IsMoved, IsBegun, HasMode, Goes, IsPrepared};

use crate::{Content, Kind, Place, PlaceFault};
use std::alloc::Global;

// The number of names that are tried. A name is taken if a run was cut off, or still runs.
const NAMES: u32 = 100;

/// Writes a content to a file of this name, which may exist, and refuses that if it is not a regular file, another program has it locked,
/// or something has the other name. It keeps its mode. After a fault the name stands for what it stood for before, and the new file is
/// removed if possible. There is one exception: if only a sync after the move failed, the new file is in place, and a power cut may undo
/// that.
pub fn replace<P: Place, C: Content>(
    alloc: Global,
    place: &mut P,
    out: &str,
    other: Option<&str>,
    content: &C,
) -> Result<(), PlaceFault>
    ensures any_moment { IsTrue P.honest → (number : ℕ) × (number < most_names)
        × AtEachMoment (IsBetween out.now (name_beside number) (C.bytes content.now)
        (P.story place.old).now) (P.story place.old) (P.story place.new) }
    ensures ok { IsTrue P.honest → OnOk result (IsReplaced out.now (C.bytes content.now)
        (P.story place.old).now (P.story place.new).now) }
    ensures err { IsTrue P.honest → OnErr result (IsNotReplaced out.now (C.bytes content.now)
        (P.story place.old) (P.story place.new)) }
    ensures refused { IsTrue P.honest
        → IsRefused out.now (option_map (λ other. other.now) other.entry) (P.story place.old).now
        → IsErr result × IsUnchanged (P.story place.old) (P.story place.new) }
    ensures cause { IsTrue P.honest → IfErr result (λ fault.
        HasCause out.now (option_map (λ other. other.now) other.entry) fault (P.story place.old)
        (P.story place.new)) }
{
    let made = prepare(alloc, place, out, other)?;
    write_and_move(place, out, made.beside.as_str(), made.is_there, content)
}

// The name of a file that was created beside another, and whether that is there.
#[derive(Drop)]
struct Prepared {
    beside: String,
    is_there: bool,
}

// Creates a file beside one that can be replaced, which stays locked, or that is not there.
fn prepare<P: Place>(
    alloc: Global,
    place: &mut P,
    out: &str,
    other: Option<&str>,
) -> Result<Prepared, PlaceFault>
    ensures ok { IsTrue P.honest → IfOk result (λ made.
        IsPrepared out.now (option_map (λ other. other.now) other.entry) made.is_there
        (string_bytes made.beside) (P.story place.old) (P.story place.new)) }
    ensures err { IsTrue P.honest
        → OnErr result (IsUnchanged (P.story place.old) (P.story place.new)) }
    ensures cause { IsTrue P.honest → IfErr result (λ fault.
        HasCause out.now (option_map (λ other. other.now) other.entry) fault (P.story place.old)
        (P.story place.new)) }
{
    refuse_other(place, other)?;
    let is_there = lock_old(place, out)?;
    place.open_folder()?;
    // If it replaces a file, other users may not open it before it gets that file's mode.
    let mode = if is_there { 0o600 } else { 0o666 };
    let beside = create_beside(alloc, place, out, mode)?;
    Ok(Prepared { beside, is_there })
}

// Refuses to go on if something has this name.
fn refuse_other<P: Place>(place: &mut P, other: Option<&str>) -> Result<(), PlaceFault>
    ensures ok { IsTrue P.honest → OnOk result (P.story place.new ≡ P.story place.old) }
    ensures alone { IsTrue P.honest → OnOk result ((name : List ℕ)
        → option_map (λ other. other.now) other.entry ≡ Some name
        → (P.story place.old).now.names name ≡ None) }
    ensures err { IsTrue P.honest
        → OnErr result (IsUnchanged (P.story place.old) (P.story place.new)) }
    ensures cause { IsTrue P.honest → (out : List ℕ) → OnErr result (FailsOr
        (IsRefused out (option_map (λ other. other.now) other.entry) (P.story place.old).now)
        (P.story place.old) (P.story place.new)) }
{
    let Some(other) = other else {
        return Ok(());
    };
    match place.look(other)? {
        Some(_) => Err(PlaceFault::Refused),
        None => Ok(()),
    }
}

// Locks the file of this name against a recorder and other runs. Returns false if nothing has the name. Refuses what is not a regular
// file, such as a folder, a link or a terminal.
fn lock_old<P: Place>(place: &mut P, out: &str) -> Result<bool, PlaceFault>
    ensures ok { IsTrue P.honest → OnOk result (P.story place.new ≡ P.story place.old) }
    ensures ready { IsTrue P.honest
        → IfOk result (λ is_there. IsReady out.now (P.story place.old).now is_there) }
    ensures err { IsTrue P.honest
        → OnErr result (IsUnchanged (P.story place.old) (P.story place.new)) }
    ensures cause { IsTrue P.honest → (other : Option (List ℕ)) → OnErr result (FailsOr
        (IsRefused out.now other (P.story place.old).now)
        (P.story place.old) (P.story place.new)) }
{
    match place.look(out)? {
        Some(Kind::File) => {
            place.lock(out)?;
            Ok(true)
        }
        Some(Kind::Other) => Err(PlaceFault::Refused),
        None => Ok(false),
    }
}

// Creates a file under a name that is free.
fn create_beside<P: Place>(
    alloc: Global,
    place: &mut P,
    out: &str,
    mode: u32,
) -> Result<String, PlaceFault>
    ensures ok { IsTrue P.honest → IfOk result (λ beside.
        CreatesBeside out.now (string_bytes beside) (P.story place.old) (P.story place.new)) }
    ensures err { IsTrue P.honest
        → OnErr result (IsUnchanged (P.story place.old) (P.story place.new)) }
    ensures cause { IsTrue P.honest → IfErr result (λ fault. FailsOr
        (AreTaken out.now (P.story place.old).now ⊎ (fault ≡ Memory))
        (P.story place.old) (P.story place.new)) }
{
    for number in 0..NAMES {
        let Ok(beside) = format!(in alloc; ".fitrec-new-{number}") else {
            return Err(PlaceFault::Memory);
        };
        let is_made = create_under(place, out, beside.as_str(), mode)?;
        if is_made {
            return Ok(beside);
        }
    }
    Err(PlaceFault::Refused)
}

// Creates a file under this name, if that is free, and is not the name of the other file.
fn create_under<P: Place>(
    place: &mut P,
    out: &str,
    beside: &str,
    mode: u32,
) -> Result<bool, PlaceFault>
    ensures ok { IsTrue P.honest → IfOk result (λ is_free.
        CreatesApart out.now beside.now is_free (P.story place.old) (P.story place.new)) }
    ensures err { IsTrue P.honest
        → OnErr result (IsUnchanged (P.story place.old) (P.story place.new)) }
    ensures failed { IsTrue P.honest
        → OnErr result ((P.story place.old).failed < (P.story place.new).failed) }
{
    if out == beside {
        return Ok(false);
    }
    place.create(beside, mode)
}

// Writes the file beside, moves it, and keeps that. If it cannot be moved, it is removed.
fn write_and_move<P: Place, C: Content>(
    place: &mut P,
    out: &str,
    beside: &str,
    is_there: bool,
    content: &C,
) -> Result<(), PlaceFault>
    ensures any_moment { IsTrue P.honest → (number : ℕ) (start : Folder)
        → IsBegun out.now beside.now is_there number start (P.story place.old).now
        → AtEachMoment (IsBetween out.now beside.now (C.bytes content.now) start)
        (P.story place.old) (P.story place.new) }
    ensures ok { IsTrue P.honest → (number : ℕ) (start : Folder)
        → IsBegun out.now beside.now is_there number start (P.story place.old).now
        → OnOk result (IsReplaced out.now (C.bytes content.now) start (P.story place.new).now) }
    ensures err { IsTrue P.honest → (number : ℕ) (start : Folder)
        → IsBegun out.now beside.now is_there number start (P.story place.old).now
        → OnErr result (IsNotReplaced out.now (C.bytes content.now)
        (record (P.story place.old) { now = start }) (P.story place.new)) }
    ensures failed { IsTrue P.honest → (number : ℕ) (start : Folder)
        → IsBegun out.now beside.now is_there number start (P.story place.old).now
        → OnErr result ((P.story place.old).failed < (P.story place.new).failed) }
{
    match fill_and_move(place, out, beside, is_there, content) {
        Ok(()) => keep(place),
        Err(fault) => {
            let _ = place.remove(beside);
            Err(fault)
        }
    }
}

// Keeps the file that was moved. On a FAT card it has no length under its new name before it is synced again. The name is durable after
// the folder is synced.
fn keep<P: Place>(place: &mut P) -> Result<(), PlaceFault>
    ensures goes { IsTrue P.honest → (out beside bytes : List ℕ) (number : ℕ) (start : Folder)
        → out ≢ beside → IsMoved out beside bytes number start (P.story place.old).now
        → Goes (IsMoved out beside bytes number start) result (P.story place.old)
        (P.story place.new) }
    ensures ok { IsTrue P.honest → (out beside bytes : List ℕ) (number : ℕ) (start : Folder)
        → out ≢ beside → IsMoved out beside bytes number start (P.story place.old).now
        → OnOk result (IsReplaced out bytes start (P.story place.new).now) }
{
    place.sync_file()?;
    place.sync_folder()
}

// Writes the file beside, and moves it to its place.
fn fill_and_move<P: Place, C: Content>(
    place: &mut P,
    out: &str,
    beside: &str,
    is_there: bool,
    content: &C,
) -> Result<(), PlaceFault>
    ensures goes { IsTrue P.honest → (number : ℕ) (start : Folder)
        → IsBegun out.now beside.now is_there number start (P.story place.old).now
        → Goes (IsBetween out.now beside.now (C.bytes content.now) start) result
        (P.story place.old) (P.story place.new) }
    ensures ok { IsTrue P.honest → (number : ℕ) (start : Folder)
        → IsBegun out.now beside.now is_there number start (P.story place.old).now
        → OnOk result (IsMoved out.now beside.now (C.bytes content.now) number start
        (P.story place.new).now) }
    ensures err { IsTrue P.honest → (number : ℕ) (start : Folder)
        → IsBegun out.now beside.now is_there number start (P.story place.old).now
        → OnErr result (IsBeside beside.now number start (P.story place.new).now) }
{
    fill(place, out, is_there, content)?;
    place.move_to(beside, out)
}

// Gives the file beside the mode of the old one, writes it, and syncs it.
fn fill<P: Place, C: Content>(
    place: &mut P,
    out: &str,
    is_there: bool,
    content: &C,
) -> Result<(), PlaceFault>
    ensures goes { IsTrue P.honest → (beside : List ℕ) (number : ℕ) (start : Folder)
        → IsBegun out.now beside is_there number start (P.story place.old).now
        → Goes (IsBeside beside number start) result (P.story place.old) (P.story place.new) }
    ensures filled { IsTrue P.honest → (beside : List ℕ) (number : ℕ) (start : Folder)
        → IsBegun out.now beside is_there number start (P.story place.old).now
        → OnOk result (IsFilled out.now (C.bytes content.now) number start
        (P.story place.new).now) }
{
    keep_mode(place, out, is_there)?;
    place.write(content)?;
    place.sync_file()
}

// Gives the file beside the mode of the old one, if there is one.
fn keep_mode<P: Place>(place: &mut P, out: &str, is_there: bool) -> Result<(), PlaceFault>
    ensures goes { IsTrue P.honest → (beside : List ℕ) (number : ℕ) (start : Folder)
        → IsBegun out.now beside is_there number start (P.story place.old).now
        → Goes (IsBegun out.now beside is_there number start) result (P.story place.old)
        (P.story place.new) }
    ensures mode { IsTrue P.honest → (beside : List ℕ) (number : ℕ) (start : Folder)
        → IsBegun out.now beside is_there number start (P.story place.old).now
        → OnOk result (HasMode out.now number start (P.story place.new).now) }
{
    if is_there {
        return place.copy_mode(out);
    }
    Ok(())
}

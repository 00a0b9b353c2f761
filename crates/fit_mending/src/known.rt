// The definitions that are known by another file of a device.

ghost use Rattle.std.specs.Prelude.{◌≡◌, ◌≢◌, ◌<◌, ◌≤◌, List, Some, length, IfOk, IfErr, OnOk};
ghost use Rattle.fit_grammar.specs.Format.File.{FileValue, FileOf};
ghost use Rattle.fit_grammar.specs.Format.Item.{Item as AnyItem};
ghost use Rattle.fit_grammar.specs.Format.Records.{in_force};
ghost use Rattle.fit_grammar.specs.Format.Refusal.{Refusal};
ghost use Rattle.fit_grammar.specs.Calls.Table.{definition_in};
ghost use Rattle.fit_mending.specs.Known.{AreKnownAfter, IsKnownBy};
ghost use Rattle.fit_mending.specs.Private.Adding.{AddsDefined};

use crate::row::latest_after;
use fit_grammar::{
    DefinitionMessage, FaultKind, FileFault, Item, Latest, LentFile, read_header_front,
    write_definition,
};
use std::alloc::{AllocError, Global};

/// Definitions that are known before the bytes of a damaged file, such as those of another file of its device.
#[derive(Drop)]
pub struct Known {
    /// The bytes of the definitions, one after another.
    pub row: Vec<u8>,
    /// How many there are, 16 at most.
    pub count: usize,
}

// The local numbers.
const LOCALS: [u8; 16] = [0, 1, 2, 3, 4, 5, 6, 7, 8, 9, 10, 11, 12, 13, 14, 15];

/// The definitions in force at the end of a file, for each local number that has one. The fault is that of bytes that are no file, or
/// memory was refused, at place 0.
pub fn known_by(alloc: Global, file: &[u8]) -> Result<Known, FileFault>
    ensures known { IfOk result (IsKnownBy file.now) }
    ensures short { IfOk result (λ known. length known.row.items ≤ 24592) }
    ensures refused { IfErr result (λ fault. fault.kind ≢ FaultKind.Memory
        → Refusal file.now fault.kind fault.place) }
{
    let latest = latest_in(file)?;
    match definitions_of(alloc, &latest) {
        Ok(known) => Ok(known),
        Err(_) => Err(FileFault {
            kind: FaultKind::Memory,
            place: 0,
        }),
    }
}

// The definitions in force at the end of a file.
fn latest_in(file: &[u8]) -> Result<Latest<'_>, FileFault>
    ensures latest { IfOk result (λ latest. (v : FileValue) × FileOf file.now v
        × (definition_in latest ≡ in_force v.items)) }
    ensures refused { IfErr result (λ fault. Refusal file.now fault.kind fault.place) }
{
    let _whole = LentFile::read(file)?;
    let header = read_header_front(file)?;
    let (_, after) = file.split_at(header.frame.header_size as usize);
    let (row, _) = after.split_at(header.data_size as usize);
    Ok(latest_after(row))
}

// These definitions, which are in force after some items.
fn definitions_of(alloc: Global, latest: &Latest<'_>) -> Result<Known, AllocError>
    requires { (items : List AnyItem) × (definition_in latest.now ≡ in_force items) }
    ensures known { (items : List AnyItem) → definition_in latest.now ≡ in_force items
        → IfOk result (AreKnownAfter items) }
    ensures short { IfOk result (λ known. length known.row.items ≤ 24592) }
{
    let mut known = Known {
        row: Vec::new(alloc),
        count: 0,
    };
    let mut rest: &[u8] = &LOCALS;
    while let [local, others @ ..] = rest {
        add_local(alloc, &mut known, latest, *local)?;
        rest = others;
    }
    Ok(known)
}

// Adds the definition of a local number, if there is one.
fn add_local(
    alloc: Global,
    known: &mut Known,
    latest: &Latest<'_>,
    local: u8,
) -> Result<(), AllocError>
    requires in_force { (items : List AnyItem) × (definition_in latest.now ≡ in_force items) }
    requires local { local < 16 }
    requires few { known.old.count < 16 }
    ensures added { OnOk result (AddsDefined (definition_in latest.now local) known.old known.new) }
{
    match latest.get(local) {
        Some(definition) => add_definition(alloc, known, definition),
        None => Ok(()),
    }
}

// Adds a definition.
fn add_definition(
    alloc: Global,
    known: &mut Known,
    definition: DefinitionMessage<'_>,
) -> Result<(), AllocError>
    requires local { definition.local < 16 }
    requires few { known.old.count < 16 }
    ensures added { OnOk result (AddsDefined (Some definition.entry) known.old known.new) }
{
    let whole = definition.read();
    let size = Item::Definition(definition).size();
    let mut own = vec![in alloc; 0; size]?;
    write_definition(&whole, own.as_mut_slice());
    known.row.extend_from_slice(own.as_slice())?;
    known.count += 1;
    Ok(())
}

// A file after its header, read piece by piece: whole items in place, and a cut item in the carry.

ghost use Rattle.std.specs.Prelude.{◌≡◌, ◌<◌, ◌≤◌, ◌^◌, ◌++◌, [], ℕ, List, length, IfOk, OnOk, IfErr};
ghost use Rattle.fit_grammar.specs.Format.Records.{in_force};
ghost use Rattle.fit_grammar.specs.Format.File.{FileOf};
ghost use Rattle.fit_grammar.specs.Format.Refusal.{IsFaultOf};
ghost use Rattle.fit_grammar.specs.Calls.Pieces.{IsShownBy};
ghost use Rattle.fit_grammar.specs.Calls.Places.{ArePlaces};
ghost use Rattle.fit_grammar.specs.Calls.Step.{ItemBegun};
ghost use Rattle.fit_grammar.specs.Private.Decoding.{BeginsWith};
ghost use Rattle.fit_grammar.specs.Private.Feeding.{StandsBefore, ReadsOn, TakesItems, fault_in};

use crate::file::carry::{keep_begun, take_carried};
use crate::file::closing::take_closing;
use crate::file::header::{Header, fault};
use crate::file::state::Reading;
use crate::file::taking::take_items;
use crate::file::{FaultKind, File, FileFault, Places};
use arrayvec::ArrayVec;
use fit_base::Crc;
use std::alloc::Global;

// The state right after this header.
pub(crate) fn begun(alloc: Global, header: &[u8], found: Header) -> Reading
    requires begins { BeginsWith header.now found }
    requires whole { length header.now ≡ found.frame.header_size }
    requires fits { found.data_size < 2 ^ 32 }
    ensures { ReadsOn header.now result }
{
    let at = header.len();
    let mut checksum = Crc::new();
    checksum.add(header);
    Reading {
        file: File::new(alloc, found.frame),
        places: Places::new(alloc),
        at,
        end: at + found.data_size as usize,
        checksum,
        carry: Vec::new(alloc),
        closing: ArrayVec::new(),
    }
}

// Reads more bytes.
pub(crate) fn read_on(reading: &mut Reading, bytes: &[u8]) -> Result<(), FileFault>
    requires { (fed : List ℕ) × ReadsOn fed reading.old }
    ensures ok { (fed : List ℕ) → ReadsOn fed reading.old
        → OnOk result (ReadsOn (fed ++ bytes.now) reading.new) }
    ensures err { (fed : List ℕ) → ReadsOn fed reading.old
        → IfErr result (IsShownBy (fed ++ bytes.now)) }
    ensures later { IfErr result (λ fault. fault.kind ≡ FaultKind.Memory
        → reading.old.at ≤ fault.place) }
{
    add_checksum(reading, bytes);
    match take_bytes(reading, bytes) {
        Ok(()) => Ok(()),
        Err(kind) => Err(fault_here(reading, kind)),
    }
}

// Adds the bytes that are header or records to the checksum.
fn add_checksum(reading: &mut Reading, bytes: &[u8])
    requires { (fed : List ℕ) × ReadsOn fed reading.old }
    ensures stands { (fed : List ℕ) → ReadsOn fed reading.old
        → StandsBefore (fed ++ bytes.now) reading.new
        (reading.new.carry.items ++ reading.new.closing.items ++ bytes.now) }
    ensures same { reading.new ≡ record reading.old { checksum = reading.new.checksum } }
{
    let left = reading.end.saturating_sub(reading.at + reading.carry.len());
    reading.checksum.add(&bytes[..left.min(bytes.len())]);
}

// Takes the bytes, which follow the carried ones.
fn take_bytes(reading: &mut Reading, bytes: &[u8]) -> Result<(), FaultKind>
    requires stands { (b : List ℕ)
        × StandsBefore b reading.old (reading.old.carry.items ++ reading.old.closing.items
        ++ bytes.now) }
    requires within { reading.old.at < reading.old.end
        → (reading.old.closing.items ≡ [])
        × ItemBegun (in_force reading.old.file.items) reading.old.carry.items }
    requires after { reading.old.end ≤ reading.old.at → reading.old.carry.items ≡ [] }
    requires short { length reading.old.carry.items < 130051 }
    ensures ok { (b : List ℕ)
        → StandsBefore b reading.old (reading.old.carry.items ++ reading.old.closing.items
        ++ bytes.now)
        → OnOk result (ReadsOn b reading.new) }
    ensures err { (b : List ℕ)
        → StandsBefore b reading.old (reading.old.carry.items ++ reading.old.closing.items
        ++ bytes.now)
        → IfErr result (λ kind. IsShownBy b (fault_in reading.new kind)) }
    ensures end { reading.new.end ≡ reading.old.end }
    ensures later { reading.old.at ≤ reading.new.at }
{
    if reading.carry.is_empty() {
        take_rest(reading, bytes)
    } else {
        take_on(reading, bytes)
    }
}

// Takes the carried item, and what follows it.
fn take_on(reading: &mut Reading, bytes: &[u8]) -> Result<(), FaultKind>
    requires stands { (b : List ℕ)
        × StandsBefore b reading.old (reading.old.carry.items ++ bytes.now) }
    requires more { reading.old.at < reading.old.end }
    requires closing { reading.old.closing.items ≡ [] }
    requires begun { ItemBegun (in_force reading.old.file.items) reading.old.carry.items }
    requires some { 1 ≤ length reading.old.carry.items }
    requires short { length reading.old.carry.items < 130051 }
    ensures ok { (b : List ℕ) → StandsBefore b reading.old (reading.old.carry.items ++ bytes.now)
        → OnOk result (ReadsOn b reading.new) }
    ensures err { (b : List ℕ) → StandsBefore b reading.old (reading.old.carry.items ++ bytes.now)
        → IfErr result (λ kind. IsShownBy b (fault_in reading.new kind)) }
    ensures end { reading.new.end ≡ reading.old.end }
    ensures later { reading.old.at ≤ reading.new.at }
{
    match take_carried(reading, bytes) {
        Ok(Some(used)) => take_rest(reading, &bytes[used..]),
        Ok(None) => Ok(()),
        Err(kind) => Err(kind),
    }
}

// Takes whole items in place, and keeps what follows them.
fn take_rest(reading: &mut Reading, bytes: &[u8]) -> Result<(), FaultKind>
    requires stands { (b : List ℕ)
        × StandsBefore b reading.old (reading.old.closing.items ++ bytes.now) }
    requires within { reading.old.at < reading.old.end → reading.old.closing.items ≡ [] }
    requires none { reading.old.carry.items ≡ [] }
    ensures ok { (b : List ℕ) → StandsBefore b reading.old (reading.old.closing.items ++ bytes.now)
        → OnOk result (ReadsOn b reading.new) }
    ensures err { (b : List ℕ) → StandsBefore b reading.old (reading.old.closing.items ++ bytes.now)
        → IfErr result (λ kind. IsShownBy b (fault_in reading.new kind)) }
    ensures end { reading.new.end ≡ reading.old.end }
    ensures later { reading.old.at ≤ reading.new.at }
{
    match take_items(reading, bytes) {
        Ok(used) => keep_rest(reading, &bytes[used..]),
        Err(kind) => Err(kind),
    }
}

// Keeps the bytes of an unfinished item, or of the closing checksum.
fn keep_rest(reading: &mut Reading, rest: &[u8]) -> Result<(), FaultKind>
    requires stands { (b : List ℕ) × TakesItems b reading.old rest.now }
    requires none { reading.old.carry.items ≡ [] }
    requires short { reading.old.at < reading.old.end → length rest.now < 130051 }
    ensures ok { (b : List ℕ) → TakesItems b reading.old rest.now
        → OnOk result (ReadsOn b reading.new) }
    ensures err { (b : List ℕ) → TakesItems b reading.old rest.now
        → IfErr result (λ kind. IsShownBy b (fault_in reading.new kind)) }
    ensures end { reading.new.end ≡ reading.old.end }
    ensures later { reading.old.at ≤ reading.new.at }
{
    if reading.at < reading.end {
        keep_begun(&mut reading.carry, rest)
    } else {
        take_closing(&mut reading.closing, reading.checksum.value(), rest)
    }
}

// The fault of this kind at this place.
fn fault_here(reading: &Reading, kind: FaultKind) -> FileFault
    requires { reading.now.end < 2 ^ 33 }
    ensures { result ≡ fault_in reading.now kind }
{
    match kind {
        FaultKind::TrailingBytes => fault(kind, reading.end + 2),
        _ => fault(kind, reading.at),
    }
}

// The file, if all of it was read, and where its items were.
pub(crate) fn finished(reading: Reading) -> Result<(File, Places), FileFault>
    requires { (fed : List ℕ) × ReadsOn fed reading }
    ensures file { (fed : List ℕ) → ReadsOn fed reading → IfOk result (λ read. FileOf fed read.0) }
    ensures places { (fed : List ℕ) → ReadsOn fed reading
        → IfOk result (λ read. ArePlaces fed read.1) }
    ensures refused { (fed : List ℕ) → ReadsOn fed reading → IfErr result (IsFaultOf fed) }
{
    if reading.closing.len() < 2 {
        let len = reading.at + reading.carry.len() + reading.closing.len();
        return Err(fault(FaultKind::Truncated, len));
    }
    Ok((reading.file, reading.places))
}

// Reading a file that comes in pieces.

ghost use Rattle.std.specs.Prelude.{◌≡◌, ◌<◌, ◌≤◌, ◌^◌, ◌++◌, [], ℕ, List, Err, length, take, IfOk, OnOk, IfErr};
ghost use Rattle.fit_grammar.specs.Format.File.{FileOf};
ghost use Rattle.fit_grammar.specs.Format.Refusal.{IsFaultOf};
ghost use Rattle.fit_grammar.specs.Calls.Pieces.{ShowsNothing, IsShownBy, NoItemEndsPast};
ghost use Rattle.fit_grammar.specs.Calls.Places.{ArePlaces};
ghost use Rattle.fit_grammar.specs.Private.Decoding.{BeginsWith};
ghost use Rattle.fit_grammar.specs.Calls.Fed.{WasFed, IsOpen, carried_length};
ghost use Rattle.fit_grammar.specs.Private.Feeding.{ReadsOn};

use crate::file::header::{Header, LONGEST_HEADER, fault, take_header};
use crate::file::reading::{begun, finished, read_on};
use crate::file::state::Reading;
use crate::file::{FaultKind, File, FileFault, Places};
use arrayvec::ArrayVec;
use std::alloc::Global;
use std::marker::Model;

/// Reads a file that comes in pieces. Wherever the pieces are cut, its answers are those of `decode_file` for all of them
/// joined. In contracts, `WasFed` names the bytes fed so far. A caller passes it on from call to call, and never looks into it.
#[derive(Drop)]
pub struct Decoder {
    alloc: Global,
    state: State,
}

#[derive(Drop)]
pub(crate) enum State {
    // The bytes of the header so far.
    Header(ArrayVec<u8, LONGEST_HEADER>),
    Records(Reading),
    // Refused for good.
    Refused(FileFault),
}

impl Model for Decoder {
    ghost use Rattle.std.specs.Prelude.{List, ℕ};
    ghost use Rattle.fit_grammar.specs.declared.file.decoder.State.{State};
    ghost use Rattle.fit_grammar.specs.Calls.Fed.{WasFed};

    ghost Value = { State };

    ghost view = { λ d. d.state };

    ghost invariant = { λ d. (fed : List ℕ) × WasFed fed d.state };
}

impl Decoder {
    /// A decoder to which nothing was fed. It takes no memory.
    pub fn new(alloc: Global) -> Decoder
        ensures { WasFed [] result }
    {
        Decoder {
            alloc,
            state: State::Header(ArrayVec::new()),
        }
    }

    /// Reads more bytes, which may be none. A fault is reported as soon as the bytes show it, and by every later call. Memory
    /// is taken only for bytes that were fed, whatever sizes they announce.
    pub fn feed(&mut self, bytes: &[u8]) -> Result<(), FileFault>
        // Whatever was fed before, these bytes are now fed after it.
        ensures fed { (fed : List ℕ) → WasFed fed self.old → WasFed (fed ++ bytes.now) self.new }
        // It succeeds only if no prefix shows a fault.
        ensures quiet { (fed : List ℕ) → WasFed fed self.old
            → OnOk result (ShowsNothing (fed ++ bytes.now)) }
        ensures open { OnOk result (IsOpen self.new) }
        // A refusal comes with the byte that shows it.
        ensures refused { (fed : List ℕ) → WasFed fed self.old
            → IfErr result (IsShownBy (fed ++ bytes.now)) }
        // Lack of memory comes only for an item that was not whole before.
        ensures asked { (fed : List ℕ) → WasFed fed self.old → IsOpen self.old
            → IfErr result (λ fault. fault.kind ≡ FaultKind.Memory
            → NoItemEndsPast fed fault.place) }
        // Fewer bytes are kept of an unfinished item than the longest item has.
        ensures short { carried_length self.new < 130051 }
        // A refusal is kept, and every later call returns it.
        ensures keeps { IfErr result (λ fault. self.new ≡ State.Refused fault) }
        ensures for_good { (fault : FileFault) → self.old ≡ State.Refused fault
            → result ≡ Err fault }
    {
        step(self.alloc, &mut self.state, bytes)
    }

    /// The file, if all of it was fed. Otherwise the fault that was reported, or `Truncated` if more bytes are needed.
    pub fn finish(self) -> Result<File, FileFault>
        ensures file { (fed : List ℕ) → WasFed fed self → IfOk result (FileOf fed) }
        ensures refused { (fed : List ℕ) → WasFed fed self → IfErr result (IsFaultOf fed) }
        // A refusal is returned again.
        ensures for_good { (fault : FileFault) → self ≡ State.Refused fault → result ≡ Err fault }
    {
        match self.finish_with_places() {
            Ok((file, _)) => Ok(file),
            Err(fault) => Err(fault),
        }
    }

    /// The same, with the places that the items had in the bytes that were fed.
    pub fn finish_with_places(self) -> Result<(File, Places), FileFault>
        ensures file { (fed : List ℕ) → WasFed fed self → IfOk result (λ read. FileOf fed read.0) }
        ensures places { (fed : List ℕ) → WasFed fed self
            → IfOk result (λ read. ArePlaces fed read.1) }
        ensures refused { (fed : List ℕ) → WasFed fed self → IfErr result (IsFaultOf fed) }
        ensures for_good { (fault : FileFault) → self ≡ State.Refused fault → result ≡ Err fault }
    {
        match self.state {
            State::Header(header) => Err(fault(FaultKind::Truncated, header.len())),
            State::Records(reading) => finished(reading),
            State::Refused(fault) => Err(fault),
        }
    }
}

// Reads more bytes, and keeps a refusal.
fn step(alloc: Global, state: &mut State, bytes: &[u8]) -> Result<(), FileFault>
    requires { (fed : List ℕ) × WasFed fed state.old }
    ensures fed { (fed : List ℕ) → WasFed fed state.old → WasFed (fed ++ bytes.now) state.new }
    ensures open { OnOk result (IsOpen state.new) }
    ensures refused { (fed : List ℕ) → WasFed fed state.old
        → IfErr result (IsShownBy (fed ++ bytes.now)) }
    ensures asked { (fed : List ℕ) → WasFed fed state.old → IsOpen state.old
        → IfErr result (λ fault. fault.kind ≡ FaultKind.Memory → NoItemEndsPast fed fault.place) }
    ensures keeps { IfErr result (λ fault. state.new ≡ State.Refused fault) }
    ensures for_good { (fault : FileFault) → state.old ≡ State.Refused fault → result ≡ Err fault }
{
    match take(alloc, state, bytes) {
        Ok(()) => Ok(()),
        Err(fault) => {
            *state = State::Refused(fault);
            Err(fault)
        }
    }
}

// Continues from the end of the bytes so far.
fn take(alloc: Global, state: &mut State, bytes: &[u8]) -> Result<(), FileFault>
    requires { (fed : List ℕ) × WasFed fed state.old }
    ensures fed { (fed : List ℕ) → WasFed fed state.old
        → OnOk result (WasFed (fed ++ bytes.now) state.new) }
    ensures open { OnOk result (IsOpen state.new) }
    ensures refused { (fed : List ℕ) → WasFed fed state.old
        → IfErr result (IsShownBy (fed ++ bytes.now)) }
    ensures asked { (fed : List ℕ) → WasFed fed state.old → IsOpen state.old
        → IfErr result (λ fault. fault.kind ≡ FaultKind.Memory → NoItemEndsPast fed fault.place) }
    ensures for_good { (fault : FileFault) → state.old ≡ State.Refused fault → result ≡ Err fault }
{
    match state {
        State::Header(header) => {
            let had = header.len();
            match take_header(header, bytes) {
                Ok(None) => Ok(()),
                Ok(Some(found)) => match begin(alloc, header, found, had, bytes) {
                    Ok(reading) => {
                        *state = State::Records(reading);
                        Ok(())
                    }
                    Err(fault) => Err(fault),
                },
                Err(fault) => Err(fault),
            }
        }
        State::Records(reading) => read_on(reading, bytes),
        State::Refused(fault) => Err(*fault),
    }
}

// Continues after the header. The header is the first bytes of `taken`; `had` of its bytes came before this piece.
fn begin(
    alloc: Global,
    taken: &[u8],
    found: Header,
    had: usize,
    bytes: &[u8],
) -> Result<Reading, FileFault>
    requires begins { BeginsWith taken.now found }
    requires fits { found.data_size < 2 ^ 32 }
    requires had { had ≤ found.frame.header_size }
    requires fed { (fed : List ℕ) × (length fed ≡ had) × (taken.now ≡ take 14 (fed ++ bytes.now)) }
    ensures ok { (fed : List ℕ) → length fed ≡ had → taken.now ≡ take 14 (fed ++ bytes.now)
        → IfOk result (ReadsOn (fed ++ bytes.now)) }
    ensures err { (fed : List ℕ) → length fed ≡ had → taken.now ≡ take 14 (fed ++ bytes.now)
        → IfErr result (IsShownBy (fed ++ bytes.now)) }
{
    let size = found.frame.header_size as usize;
    let mut reading = begun(alloc, &taken[..size], found);
    let (_, rest) = bytes.split_at(size - had);
    match read_on(&mut reading, rest) {
        Ok(()) => Ok(reading),
        Err(fault) => Err(fault),
    }
}

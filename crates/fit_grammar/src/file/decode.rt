// Reading a whole file at once.

ghost use Rattle.std.specs.Prelude.{◌≡◌, IfOk, IfErr};
ghost use Rattle.fit_grammar.specs.Format.File.{FileValue, FileOf};
ghost use Rattle.fit_grammar.specs.Format.Refusal.{IsFaultOf};

use crate::file::{Decoder, FaultKind, File, FileFault};
use std::alloc::Global;

/// Reads a whole file. Bytes are judged in their order: the fault is the one that the shortest faulty prefix shows. Memory is
/// taken only for bytes that are present, whatever sizes they announce.
pub fn decode_file(alloc: Global, bytes: &[u8]) -> Result<File, FileFault>
    // The file is what the bytes encode.
    ensures file { IfOk result (FileOf bytes.now) }
    // A file is always read, unless memory runs out.
    ensures taken { (v : FileValue) → FileOf bytes.now v
        → IfErr result (λ fault. fault.kind ≡ FaultKind.Memory) }
    // Bytes that are no file are refused with this fault.
    ensures refused { IfErr result (IsFaultOf bytes.now) }
{
    let mut decoder = Decoder::new(alloc);
    match decoder.feed(bytes) {
        Ok(()) => decoder.finish(),
        Err(fault) => Err(fault),
    }
}

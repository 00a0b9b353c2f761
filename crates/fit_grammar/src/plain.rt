// The plain form of a file: each compressed timestamp is written out.

ghost use Rattle.std.specs.Prelude.{◌≡◌, ℕ, List, None, OnOk, IfOk, IfErr};
ghost use Rattle.std.specs.List.{AllByRecursion};
ghost use Rattle.fit_grammar.specs.Format.Message.{messages_of};
ghost use Rattle.fit_grammar.specs.Format.File.{FileOf};
ghost use Rattle.fit_grammar.specs.Calls.Places.{ArePlaces};
ghost use Rattle.fit_grammar.specs.Calls.PlainForm.{plain_of, IsPlain, too_long_at, IsPlainFault, IsPlainFaultOf};

mod fault;
mod making;
pub(crate) mod writing;

use crate::file::{File, Places};
pub use fault::{PlainFault, PlainFaultKind};
use making::Plain;
use std::alloc::Global;
pub use writing::{WritePlainFault, put_definition, write_plain, write_plain_records};

/// Makes the plain form of a file, in which no message has a compressed timestamp. Each message that has one gets its time as
/// field 253 in front of its content. If the last definition of its local number has no such field and the message needs one,
/// or the other way round, a definition is written before the message. Every definition of the file is kept. The place of a
/// fault is where its item was in the bytes that the file was read from.
pub fn plain_file(alloc: Global, file: &File, places: &Places) -> Result<File, PlainFault>
    ensures plain { IfOk result (λ plain. plain ≡ plain_of file.now) }
    // It encodes the same messages, and none of its items has a compressed timestamp.
    ensures messages { IfOk result (λ plain. messages_of plain.items ≡ messages_of file.now.items) }
    ensures written_out { IfOk result (λ plain. AllByRecursion IsPlain plain.items) }
    // A file without compressed timestamps is its own plain form.
    ensures same { AllByRecursion IsPlain file.now.items → IfOk result (λ plain. plain ≡ file.now) }
    // Success means that no item is too long. A fault is `TooLong` only at the first item that is, and `Memory` only before it.
    ensures fits { OnOk result (too_long_at file.now ≡ None) }
    ensures fault { IfErr result (IsPlainFault file.now places.now) }
    // The place is that of the item's first byte in the bytes that were read.
    ensures stood { (bytes : List ℕ) → FileOf bytes file.now → ArePlaces bytes places.now
        → IfErr result (IsPlainFaultOf bytes file.now) }
{
    let frame = file.frame();
    let mut plain = Plain::new(alloc, frame);
    let mut written = frame.header_size as usize;
    for item in file.items() {
        if let Err(kind) = plain.take(&item) {
            let place = places.read_at(written);
            return Err(PlainFault { kind, place });
        }
        written += item.size();
    }
    Ok(plain.into_file())
}

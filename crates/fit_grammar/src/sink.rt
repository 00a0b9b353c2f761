// What takes bytes, and how it can fail.

ghost use Rattle.std.specs.Prelude.{ℕ, List, Option};
ghost use Rattle.fit_grammar.specs.Calls.Output.{WritesText};

use std::io::Write;

/// What takes bytes in order, such as a writer or a buffer.
pub trait Sink {
    /// Why bytes are not taken. A sink that takes all bytes has a fault without values here.
    type Fault: Drop;

    // The bytes that it holds, where they are known.
    ghost held: { Self → Option (List ℕ) };

    /// Takes the bytes; at an `Err`, a prefix of them.
    fn put(&mut self, bytes: &[u8]) -> Result<(), Self::Fault>
        ensures { WritesText (held self.old) (held self.new) result bytes.now };
}

/// The writer refused a part of the bytes, or took none of it.
#[derive(Clone, Copy, Debug, PartialEq, Eq)]
pub struct WriteFailed;

/// It hands over the bytes until the writer has taken them all. Any error of the writer is final, even one that requests another
/// try.
impl<W: Write> Sink for W {
    type Fault = WriteFailed;

    ghost held = { W.contents };

    fn put(&mut self, bytes: &[u8]) -> Result<(), WriteFailed> {
        let mut rest = bytes;
        while !rest.is_empty() {
            match self.write(rest) {
                Ok(0) | Err(_) => return Err(WriteFailed),
                Ok(taken) => rest = &rest[taken..],
            }
        }
        Ok(())
    }
}

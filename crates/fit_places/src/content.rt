// The content of a file to be written.

ghost use Rattle.std.specs.Prelude.{ℕ, List, OnOk};
ghost use Rattle.std.specs.Io.KnownBytes.{Appends};

use crate::PlaceFault;
use std::io::Write;

/// The content of a file. Its bytes are known before any of them is written.
pub trait Content {
    ghost bytes: { Self → List ℕ };

    /// Writes all bytes to a writer.
    fn write_to<W: Write>(&self, out: &mut W) -> Result<(), PlaceFault>
        ensures { OnOk result (Appends (W.contents out.old) (W.contents out.new) (bytes self.now)) };
}

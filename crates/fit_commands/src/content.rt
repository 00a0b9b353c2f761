// The content of a file to be written.

ghost use Rattle.std.specs.Prelude.{ℕ, List};
ghost use Rattle.fit_grammar.specs.Calls.Output.{WritesText};
ghost use Rattle.fit_grammar.specs.Format.Encoding.{encoded};
ghost use Rattle.fit_files.specs.Printed.Salvaged.{saved_file};
ghost use Rattle.fit_finishing.specs.Finished.{FitsFile, finished_by};
ghost use Rattle.std.proofs.Props.{props};

use fit_files::Salvage;
use fit_finishing::Finishing;
use fit_grammar::{EncodeFault, File, encode_file};
use std::io::Write;

/// The content of a file. Its bytes are known before any of them is written.
pub trait Content {
    ghost bytes: { Self → List ℕ };

    fn write_to<W: Write>(&self, out: &mut W) -> Result<(), EncodeFault>
        ensures { WritesText (W.contents out.old) (W.contents out.new) result (bytes self.now) };
}

impl Content for File {
    ghost bytes = { λ file. encoded file };

    fn write_to<W: Write>(&self, out: &mut W) -> Result<(), EncodeFault> {
        encode_file(self, out)
    }
}

impl Content for Salvage<'_> {
    ghost bytes = { λ salvage. saved_file salvage };

    fn write_to<W: Write>(&self, out: &mut W) -> Result<(), EncodeFault> {
        self.write(out).map_err(|_| EncodeFault::Write)
    }
}

/// A file with the messages that it lacks.
#[derive(Drop)]
pub struct FinishedFile {
    pub file: File,
    pub finishing: Finishing,
    ghost fits: { FitsFile file finishing } by { Prim.hlevel props },
}

impl Content for FinishedFile {
    ghost bytes = { λ finished. encoded (finished_by finished.file finished.finishing) };

    fn write_to<W: Write>(&self, out: &mut W) -> Result<(), EncodeFault> {
        let done = self.finishing.write_file(&self.file, out);
        done.map_err(|_| EncodeFault::Write)
    }
}

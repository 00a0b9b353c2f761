// Who states lines, and is answered.

ghost use Rattle.std.specs.Prelude.{◌≡◌, ◌++◌, ◌∷◌, [], List};
ghost use Rattle.std.specs.Io.{ReadsAtMost};
ghost use Rattle.std.specs.Io.KnownBytes.{ReadConsumes};

use fit_files::ReadFault;
use fit_grammar::WriteFailed;

/// An input and an output that belong together, as contracts see them: what passed at them so far, in order, and what they hold.
pub trait Dialogue {
    ghost use Rattle.fit_runs.specs.Exchanges.{Exchange, Sides, TellsText, read_of};

    /// All that was read and written so far. Each call adds what it did at the end.
    ghost story: { Self → List Exchange };

    /// What the reader has left and what the writer holds, where they are known.
    ghost sides: { Self → Sides };

    /// Reads a piece, and returns its length, 0 at the end of the input.
    fn hear(&mut self, piece: &mut [u8]) -> Result<usize, ReadFault>
        ensures bound { ReadsAtMost result piece.new }
        ensures bytes { ReadConsumes (sides self.old).left (sides self.new).left result piece.new }
        ensures heard { story self.new ≡ story self.old ++ read_of result piece.new ∷ [] }
        ensures name { (sides self.new).name ≡ (sides self.old).name }
        ensures held { (sides self.new).held ≡ (sides self.old).held };

    /// Writes a text, to the last byte. After an `Err` a part of it was written.
    fn tell(&mut self, text: &[u8]) -> Result<(), WriteFailed>
        ensures { TellsText (story self.old) (story self.new) (sides self.old) (sides self.new)
            result text.now };
}

// What takes pieces, and how it can fail.

ghost use Rattle.std.specs.Prelude.{◌≡◌, ◌++◌, ◌∷◌, [], List, OnOk, ℕ};
ghost use Rattle.fit_mending.specs.declared.pieces.Piece.{Piece};

use crate::pieces::Piece;
use std::alloc::AllocError;

/// What takes pieces in order, such as a vector or a buffer.
pub trait TakesPieces {
    /// Why a piece is not taken. What takes all pieces has a fault without values here.
    type Fault: Drop;

    // Where it puts them, which stays the same.
    ghost place: { Self → ℕ };

    // Whether these are the pieces that it took.
    ghost has_taken: { Self → List Piece → Type 0 };

    /// Takes one more piece.
    fn put(&mut self, piece: Piece) -> Result<(), Self::Fault>
        ensures place { place self.new ≡ place self.old }
        ensures taken { (pieces : List Piece) → has_taken self.old pieces
            → OnOk result (has_taken self.new (pieces ++ piece ∷ [])) };
}

impl TakesPieces for Vec<Piece> {
    type Fault = AllocError;

    ghost place = { λ _. 0 };

    ghost has_taken = { λ taken pieces. taken.items ≡ pieces };

    fn put(&mut self, piece: Piece) -> Result<(), AllocError> {
        self.push(piece)?;
        Ok(())
    }
}

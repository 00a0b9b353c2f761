// The row of the pieces that are kept, and the definitions in force after a row.

ghost use Rattle.std.specs.Prelude.{◌≡◌, ◌++◌, IfOk, List};
ghost use Rattle.fit_grammar.specs.Format.Item.{Item as AnyItem};
ghost use Rattle.fit_grammar.specs.Format.Records.{in_force, Records, RecordsAfter};
ghost use Rattle.fit_grammar.specs.Calls.Table.{definition_in};
ghost use Rattle.fit_mending.specs.Pieces.{kept_row};
ghost use Rattle.fit_mending.specs.Pieces.{AreWithin};

use crate::pieces::Piece;
use fit_grammar::{Latest, Step, step_after, take_over};
use std::alloc::{AllocError, Global};

// The bytes that are known before, and then those of the pieces that are kept, one after another.
pub(crate) fn row_of(
    alloc: Global,
    known: &[u8],
    bytes: &[u8],
    pieces: &[Piece],
) -> Result<Vec<u8>, AllocError>
    requires { AreWithin bytes.now pieces.now }
    ensures { IfOk result (λ row. row.items ≡ known.now ++ kept_row bytes.now pieces.now) }
{
    let mut row = Vec::new(alloc);
    row.extend_from_slice(known)?;
    let mut rest = pieces;
    while let [piece, others @ ..] = rest {
        if piece.kept {
            row.extend_from_slice(&bytes[piece.start..piece.end])?;
        }
        rest = others;
    }
    Ok(row)
}

// The definitions in force after a row of whole items.
pub(crate) fn latest_after(row: &[u8]) -> Latest<'_>
    ensures { (items : List AnyItem) → Records row.now items
        → definition_in result ≡ in_force items }
{
    let mut latest = Latest::new();
    pass_row(row, &mut latest);
    latest
}

// Passes over a row of whole items.
pub(crate) fn pass_row<'a>(row: &'a [u8], latest: &mut Latest<'a>)
    ensures { (before items : List AnyItem) → definition_in latest.old ≡ in_force before
        → RecordsAfter before row.now items
        → definition_in latest.new ≡ in_force (before ++ items) }
{
    let mut rest = row;
    while let Step::Item(item, used) = step_after(rest, latest) {
        take_over(latest, &item);
        let (_, others) = rest.split_at(used);
        rest = others;
    }
}

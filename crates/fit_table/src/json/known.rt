// The rows of fields that were looked up.

ghost use Rattle.std.specs.Prelude.{◌<◌};
ghost use Rattle.fit_table.specs.Json.{IsRowOf};

use fit_profile::{FieldRow, row_by};
use std::marker::Model;

// How many places there are. A field has one by its number and that of its message.
const PLACES: usize = 512;

// The row of a field, if the Profile has it, with its numbers.
#[derive(Clone, Copy)]
struct Found {
    message: u16,
    number: u8,
    row: Option<&'static FieldRow>,
}

/// The rows of fields, each looked up when its first message is written, and again only if another field took its place.
#[derive(Drop)]
pub struct Known {
    places: [Option<Found>; PLACES],
}

impl Model for Known {
    ghost use Rattle.fit_table.specs.Json.{AreKnown};

    ghost Value = { Unit {0} };

    ghost view = { λ known. tt };

    ghost invariant = { λ known. AreKnown known.places };
}

impl Known {
    /// Nothing was looked up yet.
    pub fn new() -> Self {
        Known {
            places: [None; PLACES],
        }
    }

    /// The row of the fields of this number in messages with this global number.
    pub fn row(&mut self, message: u16, number: u8) -> Option<&'static FieldRow>
        ensures { IsRowOf message number result }
    {
        let at = (usize::from(message) * 61 + usize::from(number)) % PLACES;
        match self.places[at] {
            Some(found) if found.message == message && found.number == number => found.row,
            _ => self.look_up(at, message, number),
        }
    }

    fn look_up(&mut self, at: usize, message: u16, number: u8) -> Option<&'static FieldRow>
        requires { at < PLACES }
        ensures { IsRowOf message number result }
    {
        let row = row_by(true, message, number);
        self.places[at] = Some(Found {
            message,
            number,
            row,
        });
        row
    }
}

// Short texts that are put many times.

ghost use Rattle.std.specs.Prelude.{◌≡◌, ◌+◌, ◌≤◌, [], ◌++◌, length, take, decimal};

use crate::writing::decimal::place_number;
use std::marker::Model;

/// The capacity of a label, in bytes.
pub const LABEL: usize = 32;

/// A text of at most 32 bytes.
#[derive(Drop)]
pub struct Label {
    // One byte more, so that as many can be copied from the second one on.
    pub(super) bytes: [u8; LABEL + 1],
    pub(super) len: usize,
}

impl Model for Label {
    ghost use Rattle.std.specs.Prelude.{◌≤◌, List, ℕ, take};

    ghost Value = { List ℕ };

    ghost view = { λ l. take l.len l.bytes };

    ghost invariant = { λ l. l.len ≤ 32 };
}

impl Label {
    /// No text yet.
    pub fn new() -> Self
        ensures { result ≡ [] }
    {
        Label {
            bytes: [0; LABEL + 1],
            len: 0,
        }
    }

    /// Adds a text, for which there is room.
    pub fn add(&mut self, text: &[u8])
        requires { length self.old + length text.now ≤ 32 }
        ensures { self.new ≡ self.old ++ text.now }
    {
        let end = self.len + text.len();
        self.bytes[self.len..end].copy_from_slice(text);
        self.len = end;
    }

    /// Adds a number in decimal, for which there is room.
    pub fn add_number(&mut self, number: u64)
        requires { length self.old ≤ 11 }
        ensures { self.new ≡ self.old ++ decimal number }
    {
        self.len = place_number(&mut self.bytes, self.len, number);
    }
}

impl Default for Label {
    fn default() -> Self {
        Label::new()
    }
}

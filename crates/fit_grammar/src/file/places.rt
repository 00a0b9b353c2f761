// Where the items of a file were in the bytes that it was read from.

ghost use Rattle.std.specs.Prelude.{◌≡◌, ◌<◌, ◌≤◌, ◌^◌, [], length, OnOk};
ghost use Rattle.fit_grammar.specs.Calls.Places.{place_read};
ghost use Rattle.fit_grammar.specs.Private.Feeding.{with_place};

use std::alloc::{AllocError, Global};
use std::marker::Model;

/// Where the items of a file were in the bytes that it was read from. A definition that announced developer fields and had none
/// was one byte longer there than it is written.
#[derive(Drop)]
pub struct Places {
    // Where those definitions are written.
    longer: Vec<usize>,
}

impl Model for Places {
    ghost use Rattle.std.specs.Prelude.{List, ℕ};

    ghost Value = { List ℕ };

    ghost view = { λ p. p.longer.items };
}

impl Places {
    /// The places of a file that was made and not read: each item is where it is written.
    pub fn new(alloc: Global) -> Places
        ensures { result ≡ [] }
    {
        Places {
            longer: Vec::new(alloc),
        }
    }

    // Notes the next item, which was at this place with so many bytes.
    pub(crate) fn note(&mut self, at: usize, written: usize, used: usize) -> Result<(), AllocError>
        requires { length self.old ≤ at }
        ensures { OnOk result (self.new ≡ with_place self.old at written used) }
    {
        if used != written {
            self.longer.push(at - self.longer.len())?;
        }
        Ok(())
    }

    /// Turns an offset in the file as it is written into the offset in the bytes that were read. Both are in bytes from the
    /// front of the file.
    pub fn read_at(&self, written: usize) -> usize
        requires { written < 2 ^ 33 }
        ensures { result ≡ place_read self.now written }
    {
        written + self.longer.iter().filter(|at| **at < written).count()
    }
}

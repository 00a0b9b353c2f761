// The bytes that a writer took, as a list that only contracts read.

ghost use Rattle.std.specs.Prelude.{◌≡◌, ◌++◌, ℕ, List, []};
ghost use Rattle.std.specs.Borrow.{ftrue};

use std::marker::{Model, PhantomData};

// It takes no memory: the list is ghost data.
#[derive(Drop)]
pub struct Tape {
    marker: PhantomData<u8>,
    pub ghost bytes: { List ℕ },
}

impl Model for Tape {
    ghost also_owns = { λ _. ftrue };
}

impl Tape {
    // No bytes.
    pub fn new() -> Tape
        ensures { result.bytes ≡ [] }
    {
        Tape {
            marker: PhantomData,
        }
    }

    // Adds these bytes.
    pub fn add(&mut self, _bytes: &[u8])
        ensures { self.new.bytes ≡ self.old.bytes ++ _bytes.now }
    {}
}

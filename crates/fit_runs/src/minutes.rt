// What passed at a dialogue, as its minutes have it.

ghost use Rattle.std.specs.Prelude.{◌≡◌, ◌++◌, ◌∷◌, [], List};
ghost use Rattle.std.specs.Borrow.{ftrue};
ghost use Rattle.fit_runs.specs.Exchanges.{Exchange, minuted};

use crate::Minute;
use std::marker::Model;

/// All that passed at a dialogue so far. It is ghost data, so it takes one byte of memory.
#[derive(Drop)]
pub struct Minutes {
    marker: u8,
    pub ghost story: { List Exchange },
}

impl Model for Minutes {
    ghost also_owns = { λ _. ftrue };
}

impl Minutes {
    /// Nothing has passed.
    pub fn new() -> Minutes
        ensures { result.story ≡ [] }
    {
        Minutes { marker: 0 }
    }

    /// Notes what passed with these bytes.
    pub fn note(&mut self, _minute: &Minute, _bytes: &[u8])
        ensures { self.new.story ≡ self.old.story ++ minuted _minute.now _bytes.now ∷ [] }
    {}
}

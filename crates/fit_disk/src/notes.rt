// The story of two files, kept as notes.

ghost use Rattle.std.specs.Prelude.{◌≡◌};
ghost use Rattle.std.specs.Borrow.{ftrue};
ghost use Rattle.fit_disk.specs.Story.{Story};
ghost use Rattle.fit_disk.specs.Events.{fresh};
ghost use Rattle.fit_disk.specs.Noted.{noted, marked};

use crate::Note;
use std::marker::Model;

/// The story of two files, and what it was at the last mark. Both are ghost data, so it takes one byte of memory, which C may
/// keep between two calls.
#[repr(C)]
#[derive(Drop)]
pub struct Notes {
    marker: u8,
    pub ghost story: { Story },
    pub ghost since: { Story },
}

impl Model for Notes {
    ghost also_owns = { λ _. ftrue };
}

impl Notes {
    /// Two empty files.
    pub fn new() -> Notes
        ensures { (result.story ≡ fresh) × (result.since ≡ fresh) }
    {
        Notes { marker: 0 }
    }

    /// Two files with any story.
    pub fn over() -> Notes
        ghost begun: { Story }
        ensures { (result.story ≡ begun) × (result.since ≡ begun) }
    {
        Notes { marker: 0 }
    }

    /// The same notes once more.
    pub fn same(&self) -> Notes
        ensures { (result.story ≡ self.now.story) × (result.since ≡ self.now.since) }
    {
        Notes { marker: 0 }
    }

    /// Notes what a call with these bytes did.
    pub fn note(&mut self, _note: &Note, _bytes: &[u8])
        ensures { (self.new.story ≡ noted _note.now _bytes.now self.old.story)
            × (self.new.since ≡ marked _note.now self.old.story self.old.since) }
    {}
}

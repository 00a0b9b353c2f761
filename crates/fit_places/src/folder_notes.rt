// The story of a folder in memory, kept as notes.

ghost use Rattle.std.specs.Prelude.{◌≡◌, ℕ, List, [], ◌∷◌};
ghost use Rattle.std.specs.Borrow.{ftrue};
ghost use Rattle.fit_places.specs.declared.folder_note.FolderNote.{FolderNote};

use crate::folder_note::FolderNote;
use std::marker::Model;

// What was noted of a folder, the newest first, each note with its bytes. It is ghost data, so it takes no memory, and failed calls are
// counted without end.
#[derive(Drop)]
pub(crate) struct FolderNotes {
    marker: u8,
    pub ghost notes: { List (FolderNote × List ℕ) },
}

impl Model for FolderNotes {
    ghost also_owns = { λ _. ftrue };
}

impl FolderNotes {
    // Nothing was noted.
    pub(crate) fn new() -> FolderNotes
        ensures { result.notes ≡ [] }
    {
        FolderNotes { marker: 0 }
    }

    // Notes what was done, with these bytes.
    pub(crate) fn note(&mut self, _note: &FolderNote, _bytes: &[u8])
        ensures { self.new.notes ≡ (_note.now, _bytes.now) ∷ self.old.notes }
    {}
}

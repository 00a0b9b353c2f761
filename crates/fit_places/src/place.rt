// The trait over which the replacing of a file is proved.

ghost use Rattle.std.specs.Prelude.{◌≡◌, Bool, IsTrue, IfOk};

use crate::Content;
use std::io::{self, ErrorKind};

/// What a name stands for: a regular file, or another thing, such as a folder, a link or a terminal.
#[derive(Clone, Copy, Debug, PartialEq, Eq)]
pub enum Kind {
    File,
    Other,
}

/// Why a file is not replaced.
#[derive(Clone, Copy, Debug, Drop, PartialEq, Eq)]
pub enum PlaceFault {
    /// A call of the place failed.
    Failed,
    /// Memory was refused.
    Memory,
    /// It is no regular file, it is one of two files of which the other is there, or each name beside it is taken.
    Refused,
}

impl From<io::Error> for PlaceFault {
    fn from(error: io::Error) -> PlaceFault {
        match error.kind() {
            ErrorKind::OutOfMemory => PlaceFault::Memory,
            _ => PlaceFault::Failed,
        }
    }
}

/// A folder with names, as contracts see it: what each name stands for, what a power cut may leave of it now and might have left since an
/// earlier call, and how many calls failed. Nobody else changes its names and files. A name is one without its folder.
pub trait Place {
    ghost use Rattle.fit_places.specs.FolderStory.{FolderStory, folder_then};
    ghost use Rattle.fit_places.specs.Folder.{kind_at};
    ghost use Rattle.fit_places.specs.Changes.{mode_copied, file_synced, moved, folder_synced, with_name};
    ghost use Rattle.fit_places.specs.Calls.{Does, CanLock, Creates, Writes};

    /// Each call does what its clauses say. Of a place that is not honest nothing is known.
    ghost honest: { Bool };

    /// The folder now, and as it was before.
    ghost story: { Self → FolderStory };

    /// What a name stands for, or `None` for nothing. A link is not followed.
    fn look(&mut self, name: &str) -> Result<Option<Kind>, PlaceFault>
        ensures found { IsTrue honest
            → IfOk result (λ found. found ≡ kind_at name.now (story self.old).now) }
        ensures does { IsTrue honest
            → Does result (story self.old) (story self.old) (story self.new) };

    /// Opens the regular file of this name to be written, and locks it until the place is dropped. It fails if another has it locked.
    fn lock(&mut self, name: &str) -> Result<(), PlaceFault>
        ensures can { IsTrue honest → IfOk result (λ _. CanLock name.now (story self.old).now) }
        ensures does { IsTrue honest
            → Does result (story self.old) (story self.old) (story self.new) };

    /// Opens the folder, so that it can be synced.
    fn open_folder(&mut self) -> Result<(), PlaceFault>
        ensures { IsTrue honest
            → Does result (story self.old) (story self.old) (story self.new) };

    /// Creates an empty file of this name with a mode, less the bits that the process masks, and keeps it open. Returns false, and creates
    /// nothing, if the name stands for something.
    fn create(&mut self, name: &str, mode: u32) -> Result<bool, PlaceFault>
        ensures { IsTrue honest → Creates name.now result (story self.old) (story self.new) };

    /// Gives the file that was created the mode of the one that was locked, which has this name.
    fn copy_mode(&mut self, name: &str) -> Result<(), PlaceFault>
        ensures { IsTrue honest → Does result
            (folder_then (mode_copied name.now (story self.old).now) (story self.old))
            (story self.old) (story self.new) };

    /// Writes a content to the end of the file that was created. After a failed call that file may have any bytes.
    fn write<C: Content>(&mut self, content: &C) -> Result<(), PlaceFault>
        ensures { IsTrue honest
            → Writes (C.bytes content.now) result (story self.old) (story self.new) };

    /// Waits until the file that was created is kept, as it is.
    fn sync_file(&mut self) -> Result<(), PlaceFault>
        ensures { IsTrue honest → Does result
            (folder_then (file_synced (story self.old).now) (story self.old))
            (story self.old) (story self.new) };

    /// Lets a name stand for what another one stands for, and that one for nothing.
    fn move_to(&mut self, from: &str, to: &str) -> Result<(), PlaceFault>
        ensures { IsTrue honest → Does result
            (folder_then (moved from.now to.now (story self.old).now) (story self.old))
            (story self.old) (story self.new) };

    /// Waits until all names of the folder are kept, as they are.
    fn sync_folder(&mut self) -> Result<(), PlaceFault>
        ensures { IsTrue honest → Does result
            (folder_then (folder_synced (story self.old).now) (story self.old))
            (story self.old) (story self.new) };

    /// Lets a name stand for nothing.
    fn remove(&mut self, name: &str) -> Result<(), PlaceFault>
        ensures { IsTrue honest → Does result
            (folder_then (with_name name.now None (story self.old).now) (story self.old))
            (story self.old) (story self.new) };
}

// What is noted of a folder in memory.

use crate::Kind;

// What was done to a folder. It goes along with bytes: a name, or the content of a file.
#[derive(Clone, Copy)]
pub(crate) enum FolderNote {
    // The folder has nothing in it. A move keeps what was synced of a file, or does not.
    Begun {
        keeps_moved: bool,
    },
    // Nothing was done. The next note is of this name too.
    Named,
    // A thing with this content was there from the start, under the name of the note before.
    Put {
        number: usize,
        kind: Kind,
        mode: u32,
        is_locked: bool,
    },
    // A call failed.
    Failed,
    // An empty file was created under this name.
    Created {
        number: usize,
        mode: u32,
    },
    // The created file was given the mode of what has this name.
    ModeCopied,
    // The created file has this content now.
    Written,
    // The created file was synced.
    FileSynced,
    // What has the name of the note before has this name now.
    Moved,
    // The folder was synced.
    FolderSynced,
    // This name stands for nothing now.
    Removed,
}

// Files by name: the trait over which the commands are proved, and the files of the system.

ghost use Rattle.std.specs.Prelude.{◌≡◌, None, option_map};
ghost use Rattle.fit_places.specs.NamedFiles.{other_name};

use crate::{Content, PlaceFault, RealPlace, replace};
use fit_disk::{
    CAPITAL_DATA_NAME, CAPITAL_JOURNAL_NAME, DATA_NAME, JOURNAL_NAME, OpenFault, open_to_read,
};
use std::alloc::{Alloc, Global};
use std::fs::{self, File};
use std::io::{self, Read, Stdin};

/// Files by name, the folders of recordings, and standard input, as contracts see them: what each holds, or `None` if that is not known.
pub trait NamedFiles {
    ghost use Rattle.std.specs.Prelude.{ℕ, List, Option, IfOk, IfSome};
    ghost use Rattle.fit_places.specs.NamedFiles.{AnswersReplace};

    /// A file that is open to be read.
    type File: Read + Drop;

    /// Standard input.
    type Input: Read + Drop;

    /// What the file of a name holds.
    ghost held: { Self → List ℕ → Option (List ℕ) };

    /// What the data file in the folder of this name holds.
    ghost held_data: { Self → List ℕ → Option (List ℕ) };

    /// The same of its journal.
    ghost held_journal: { Self → List ℕ → Option (List ℕ) };

    /// What standard input gives.
    ghost given: { Self → Option (List ℕ) };

    /// Opens the file of this name to be read.
    fn open(&self, name: &str) -> io::Result<Self::File>
        ensures { IfOk result (λ file. Self.File.remaining file ≡ held self.now name.now) };

    /// Its size, or 0 if that is not known before it is read.
    fn size(&self, file: &Self::File) -> u64;

    /// Whether the name is known to stand for something else, such as a pipe, which might be waited for without end.
    fn is_special(&self, name: &str) -> bool;

    /// Opens the data file and the journal of a folder to be read, those of them that are there.
    fn open_recorded(
        &self,
        folder: &str,
    ) -> Result<(Option<Self::File>, Option<Self::File>), OpenFault>
        ensures in_data { IfOk result (λ files. IfSome files.0
            (λ file. Self.File.remaining file ≡ held_data self.now folder.now)) }
        ensures in_journal { IfOk result (λ files. IfSome files.1
            (λ file. Self.File.remaining file ≡ held_journal self.now folder.now)) };

    /// Gives standard input.
    fn standard_input(&self) -> Self::Input
        ensures { Self.Input.remaining result ≡ given self.now };

    /// Writes a content to the file of this name, which may exist, as `replace` does. One of the two files of a recording is refused while
    /// the other is beside it.
    fn replace<C: Content>(&mut self, name: &str, content: &C) -> Result<(), PlaceFault>
        ensures { AnswersReplace name.now (C.bytes content.now) (held self.old) (held self.new)
            result };
}

/// The files of the system. Of none is known what it holds: that each call of the system does what its clause says is a premise.
#[derive(Clone, Copy)]
pub struct SystemFiles<'a>(pub &'a HostRuntime);

impl Alloc for SystemFiles<'_> {
    type A = Global;

    fn alloc(&self) -> Global {
        self.0.alloc()
    }
}

impl NamedFiles for SystemFiles<'_> {
    type File = File;

    type Input = Stdin;

    ghost held = { λ _ _. None };

    ghost held_data = { λ _ _. None };

    ghost held_journal = { λ _ _. None };

    ghost given = { λ _. None };

    fn open(&self, name: &str) -> io::Result<File> {
        File::open(self.0, name)
    }

    fn size(&self, file: &File) -> u64 {
        file.metadata().map_or(0, |metadata| metadata.len())
    }

    fn is_special(&self, name: &str) -> bool {
        fs::metadata(self.0, name).is_ok_and(|found| !found.is_file())
    }

    fn open_recorded(&self, folder: &str) -> Result<(Option<File>, Option<File>), OpenFault> {
        open_to_read(self.0, folder)
    }

    fn standard_input(&self) -> Stdin {
        self.0.stdin()
    }

    fn replace<C: Content>(&mut self, name: &str, content: &C) -> Result<(), PlaceFault> {
        let Some(mut place) = RealPlace::of(self.0, name) else {
            return Err(PlaceFault::Failed);
        };
        let own = place.name();
        replace(self.0.alloc(), &mut place, own, other_of(own), content)
    }
}

/// The name of the other file of a recording, if this is the name of one.
pub(crate) fn other_of(own: &str) -> Option<&'static str>
    ensures { option_map (λ other. other.now) result ≡ other_name own.now }
{
    if own == DATA_NAME {
        return Some(JOURNAL_NAME);
    }
    if own == JOURNAL_NAME {
        return Some(DATA_NAME);
    }
    if own == CAPITAL_DATA_NAME {
        return Some(CAPITAL_JOURNAL_NAME);
    }
    if own == CAPITAL_JOURNAL_NAME {
        return Some(CAPITAL_DATA_NAME);
    }
    None
}

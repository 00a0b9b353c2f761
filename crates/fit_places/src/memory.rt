// The place in memory: an honest place whose failures and power cuts are planned.

ghost use Rattle.std.specs.Prelude.{◌≡◌, ℕ, true, false, not, [], None, Some, codes, option_map, OnOk, OnErr, IfOk, IfSome, IsErr};
ghost use Rattle.fit_places.specs.MemoryFolder.{StandsFor};
ghost use Rattle.fit_places.specs.Noted.{story_by, beginning, put_there};
ghost use Rattle.fit_places.specs.FolderStory.{call_failed, folder_then};
ghost use Rattle.fit_places.specs.CallPlan.{must_fail, called, no_plan};
ghost use Rattle.fit_places.specs.Folder.{kind_at};
ghost use Rattle.fit_places.specs.Changes.{mode_copied, file_synced, moved, folder_synced, with_name};
ghost use Rattle.fit_places.specs.Calls.{Does, CanLock, Creates, Writes};

use crate::call_plan::CallPlan;
use crate::folder_note::FolderNote;
use crate::folder_notes::FolderNotes;
use crate::memory_folder::MemoryFolder;
use crate::named::other_of;
use crate::{Content, Kind, NamedFiles, Place, PlaceFault, replace};
use fit_disk::{DATA_NAME, JOURNAL_NAME, OpenFault};
use std::alloc::{Alloc, Global};
use std::collections::VecDeque;
use std::io::{self, Empty, ErrorKind};

/// A thing in a folder, and whether it was synced since it was last changed. If not, a power cut leaves anything in its place.
#[derive(Clone, Copy)]
pub struct Left<'a> {
    pub kind: Kind,
    pub bytes: &'a [u8],
    pub mode: u32,
    pub is_synced: bool,
}

/// An honest place in memory. A call fails only if it is planned to, memory was refused in it, or what it is to work on is not there.
#[derive(Drop)]
pub struct MemoryPlace {
    folder: MemoryFolder,
    notes: FolderNotes,
    plan: CallPlan,
    is_open: bool,
    ghost stands: { StandsFor folder (story_by notes.notes).now },
}

impl MemoryPlace {
    ghost use Rattle.fit_places.specs.Memory.{place_story, place_plan, folder_is_open, thing_left, left_back};
    ghost use Rattle.fit_places.specs.NamedFiles.{place_held};

    /// A folder with nothing in it. A move keeps what was synced of a file, or does not, as on a FAT card.
    pub fn new(alloc: Global, keeps_moved: bool) -> MemoryPlace
        ensures story { place_story result ≡ beginning keeps_moved }
        ensures plan { place_plan result ≡ no_plan }
    {
        let mut notes = FolderNotes::new();
        notes.note(&FolderNote::Begun { keeps_moved }, &[]);
        MemoryPlace {
            folder: MemoryFolder::new(alloc, keeps_moved),
            notes,
            plan: CallPlan {
                fail: None,
                cut: None,
            },
            is_open: false,
        }
    }

    /// Lets only one call fail, after so many others from now on.
    pub fn fail_after(&mut self, calls: u32)
        ensures story { place_story self.new ≡ place_story self.old }
        ensures plan { place_plan self.new ≡ record (place_plan self.old) { fail = Some calls } }
    {
        self.plan.fail = Some(calls);
    }

    /// Lets the power go off after so many calls from now on. All later calls fail.
    pub fn cut_after(&mut self, calls: u32)
        ensures story { place_story self.new ≡ place_story self.old }
        ensures plan { place_plan self.new ≡ record (place_plan self.old) { cut = Some calls } }
    {
        self.plan.cut = Some(calls);
    }

    /// Lets a name stand for a thing that is kept, as another program may have left it.
    pub fn put(
        &mut self,
        name: &str,
        kind: Kind,
        bytes: &[u8],
        mode: u32,
        is_locked: bool,
    ) -> Result<(), PlaceFault>
        ensures ok { OnOk result ((number : ℕ) × (place_story self.new ≡ folder_then
            (put_there name.now number (record { kind = kind; bytes = bytes.now; mode = mode })
            is_locked (place_story self.old).now) (place_story self.old))) }
        ensures err { OnErr result (place_story self.new ≡ place_story self.old) }
        ensures plan { place_plan self.new ≡ place_plan self.old }
    {
        match self.folder.put(name, kind, bytes, mode, is_locked) {
            Ok(number) => {
                self.notes.note(&FolderNote::Named, name.as_bytes());
                self.notes.note(
                    &FolderNote::Put {
                        number,
                        kind,
                        mode,
                        is_locked,
                    },
                    bytes,
                );
                Ok(())
            }
            Err(_) => Err(PlaceFault::Memory),
        }
    }

    /// What a power cut may leave under a name: what it stands for, or so many of its changes ago stood for since the folder was last
    /// synced. `None` from the first number on at which there was no such change.
    pub fn left(&self, name: &str, back: usize) -> Option<Option<Left<'_>>>
        ensures { option_map (λ at. option_map thing_left at) result
            ≡ left_back name.now back (place_story self.now).now }
    {
        match self.folder.number_back(name, back) {
            Some(Some(number)) => {
                let thing = self.folder.thing(number);
                Some(Some(Left {
                    kind: thing.kind,
                    bytes: &thing.bytes,
                    mode: thing.mode,
                    is_synced: thing.is_synced,
                }))
            }
            Some(None) => Some(None),
            None => None,
        }
    }

    // A copy of the file of this name, if it is one.
    fn file_of(&self, name: &str) -> io::Result<Option<VecDeque<u8>>>
        ensures { IfOk result (λ file. IfSome file (λ bytes.
            Some bytes.items ≡ place_held self.now name.now)) }
    {
        match self.left(name, 0) {
            Some(Some(thing)) if thing.kind == Kind::File => {
                let bytes = Vec::from_slice(self.alloc(), thing.bytes)?;
                Ok(Some(VecDeque::from_vec(bytes)))
            }
            _ => Ok(None),
        }
    }

    // Whether the next call is begun. Else it is noted that it failed.
    fn begins(&mut self) -> bool
        ensures ok { result ≡ true → place_story self.new ≡ place_story self.old }
        ensures err { result ≡ false → place_story self.new ≡ call_failed (place_story self.old) }
        ensures folder { self.new.folder ≡ self.old.folder }
        ensures planned { result ≡ not (must_fail self.old.plan) }
        ensures plan { self.new.plan ≡ called self.old.plan }
        ensures open { self.new.is_open ≡ self.old.is_open }
    {
        if self.plan.call() {
            self.notes.note(&FolderNote::Failed, &[]);
            return false;
        }
        true
    }

    // Notes that a call failed.
    fn fails(&mut self, fault: PlaceFault) -> PlaceFault
        ensures fault { result ≡ fault }
        ensures story { place_story self.new ≡ call_failed (place_story self.old) }
        ensures plan { self.new.plan ≡ self.old.plan }
    {
        self.notes.note(&FolderNote::Failed, &[]);
        fault
    }
}

impl Place for MemoryPlace {
    ghost use Rattle.fit_places.specs.Memory.{place_story, place_plan, folder_is_open, Fails};

    ghost honest = { true };

    ghost story = { place_story };

    fn look(&mut self, name: &str) -> Result<Option<Kind>, PlaceFault>
        ensures found { IfOk result (λ found. found ≡ kind_at name.now (place_story self.old).now) }
        ensures does { Does result (place_story self.old) (place_story self.old)
            (place_story self.new) }
        ensures fails { Fails ⊥ result self.old self.new }
    {
        if !self.begins() {
            return Err(PlaceFault::Failed);
        }
        Ok(self.folder.kind_of(name))
    }

    fn lock(&mut self, name: &str) -> Result<(), PlaceFault>
        ensures can { IfOk result (λ _. CanLock name.now (place_story self.old).now) }
        ensures does { Does result (place_story self.old) (place_story self.old)
            (place_story self.new) }
        ensures fails { Fails (CanLock name.now (place_story self.old).now → ⊥) result self.old
            self.new }
    {
        if !self.begins() {
            return Err(PlaceFault::Failed);
        }
        if !self.folder.can_lock(name) {
            return Err(self.fails(PlaceFault::Failed));
        }
        Ok(())
    }

    fn open_folder(&mut self) -> Result<(), PlaceFault>
        ensures does { Does result (place_story self.old) (place_story self.old)
            (place_story self.new) }
        ensures fails { Fails ⊥ result self.old self.new }
        ensures open { OnOk result (folder_is_open self.new ≡ true) }
    {
        if !self.begins() {
            return Err(PlaceFault::Failed);
        }
        self.is_open = true;
        Ok(())
    }

    fn create(&mut self, name: &str, mode: u32) -> Result<bool, PlaceFault>
        ensures creates { Creates name.now result (place_story self.old) (place_story self.new) }
        ensures fails { Fails ⊥ result self.old self.new }
    {
        if !self.begins() {
            return Err(PlaceFault::Failed);
        }
        if self.folder.number_of(name).is_some() {
            return Ok(false);
        }
        match self.folder.create(name, mode) {
            Ok(number) => {
                self.notes
                    .note(&FolderNote::Created { number, mode }, name.as_bytes());
                Ok(true)
            }
            Err(_) => {
                self.notes.note(&FolderNote::Failed, &[]);
                Err(PlaceFault::Memory)
            }
        }
    }

    fn copy_mode(&mut self, name: &str) -> Result<(), PlaceFault>
        ensures does { Does result
            (folder_then (mode_copied name.now (place_story self.old).now) (place_story self.old))
            (place_story self.old) (place_story self.new) }
        ensures fails { Fails ⊥ result self.old self.new }
    {
        if !self.begins() {
            return Err(PlaceFault::Failed);
        }
        self.folder.copy_mode(name);
        self.notes.note(&FolderNote::ModeCopied, name.as_bytes());
        Ok(())
    }

    fn write<C: Content>(&mut self, content: &C) -> Result<(), PlaceFault>
        ensures writes { Writes (C.bytes content.now) result (place_story self.old)
            (place_story self.new) }
        ensures planned { must_fail (place_plan self.old) ≡ true → IsErr result }
        ensures plan { place_plan self.new ≡ called (place_plan self.old) }
    {
        let begins = !self.plan.call();
        let written = self.folder.write(content);
        self.notes.note(&FolderNote::Written, self.folder.content());
        match written {
            Ok(()) if begins => Ok(()),
            Ok(()) => {
                self.notes.note(&FolderNote::Failed, &[]);
                Err(PlaceFault::Failed)
            }
            Err(fault) => {
                self.notes.note(&FolderNote::Failed, &[]);
                Err(fault)
            }
        }
    }

    fn sync_file(&mut self) -> Result<(), PlaceFault>
        ensures does { Does result
            (folder_then (file_synced (place_story self.old).now) (place_story self.old))
            (place_story self.old) (place_story self.new) }
        ensures fails { Fails ⊥ result self.old self.new }
    {
        if !self.begins() {
            return Err(PlaceFault::Failed);
        }
        self.folder.sync_created();
        self.notes.note(&FolderNote::FileSynced, &[]);
        Ok(())
    }

    fn move_to(&mut self, from: &str, to: &str) -> Result<(), PlaceFault>
        ensures does { Does result
            (folder_then (moved from.now to.now (place_story self.old).now) (place_story self.old))
            (place_story self.old) (place_story self.new) }
        ensures fails { Fails ((place_story self.old).now.names from.now ≡ None) result self.old
            self.new }
    {
        if !self.begins() {
            return Err(PlaceFault::Failed);
        }
        if self.folder.number_of(from).is_none() {
            return Err(self.fails(PlaceFault::Failed));
        }
        match self.folder.move_to(from, to) {
            Ok(()) => {
                self.notes.note(&FolderNote::Named, from.as_bytes());
                self.notes.note(&FolderNote::Moved, to.as_bytes());
                Ok(())
            }
            Err(_) => {
                self.notes.note(&FolderNote::Failed, &[]);
                Err(PlaceFault::Memory)
            }
        }
    }

    fn sync_folder(&mut self) -> Result<(), PlaceFault>
        ensures does { Does result
            (folder_then (folder_synced (place_story self.old).now) (place_story self.old))
            (place_story self.old) (place_story self.new) }
        ensures fails { Fails (folder_is_open self.old ≡ false) result self.old self.new }
    {
        if !self.begins() {
            return Err(PlaceFault::Failed);
        }
        if !self.is_open {
            return Err(self.fails(PlaceFault::Failed));
        }
        self.folder.sync_names();
        self.notes.note(&FolderNote::FolderSynced, &[]);
        Ok(())
    }

    fn remove(&mut self, name: &str) -> Result<(), PlaceFault>
        ensures does { Does result
            (folder_then (with_name name.now None (place_story self.old).now)
            (place_story self.old))
            (place_story self.old) (place_story self.new) }
        ensures fails { Fails ⊥ result self.old self.new }
    {
        if !self.begins() {
            return Err(PlaceFault::Failed);
        }
        match self.folder.remove(name) {
            Ok(()) => {
                self.notes.note(&FolderNote::Removed, name.as_bytes());
                Ok(())
            }
            Err(_) => {
                self.notes.note(&FolderNote::Failed, &[]);
                Err(PlaceFault::Memory)
            }
        }
    }
}

impl Alloc for MemoryPlace {
    type A = Global;

    fn alloc(&self) -> Global {
        self.folder.alloc()
    }
}

// Each folder that is named is this one, and standard input is at its end.
impl NamedFiles for MemoryPlace {
    ghost use Rattle.fit_places.specs.NamedFiles.{place_held};

    type File = VecDeque<u8>;

    type Input = Empty;

    ghost held = { place_held };

    ghost held_data = { λ place _. place_held place (codes "activity.fit") };

    ghost held_journal = { λ place _. place_held place (codes "activity.frj") };

    ghost given = { λ _. Some [] };

    fn open(&self, name: &str) -> io::Result<VecDeque<u8>> {
        match self.file_of(name)? {
            Some(file) => Ok(file),
            None => Err(ErrorKind::NotFound.into()),
        }
    }

    fn size(&self, file: &VecDeque<u8>) -> u64 {
        file.len() as u64
    }

    fn is_special(&self, name: &str) -> bool {
        self.folder.kind_of(name) == Some(Kind::Other)
    }

    fn open_recorded(
        &self,
        _folder: &str,
    ) -> Result<(Option<VecDeque<u8>>, Option<VecDeque<u8>>), OpenFault> {
        let data = self.file_of(DATA_NAME)?;
        let journal = self.file_of(JOURNAL_NAME)?;
        Ok((data, journal))
    }

    fn standard_input(&self) -> Empty {
        io::empty()
    }

    fn replace<C: Content>(&mut self, name: &str, content: &C) -> Result<(), PlaceFault> {
        let alloc = self.alloc();
        replace(alloc, self, name, other_of(name), content)
    }
}

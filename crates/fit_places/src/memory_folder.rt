// The names and the things of a folder in memory.

ghost use Rattle.std.specs.Prelude.{◌≡◌, ◌≤◌, ◌<◌, ◌+◌, ◌&&◌, ℕ, ◌++◌, ◌∷◌, Option, None, Some, true, false, vec_len, vec_capacity, string_bytes, option_map, slice_get, OnOk, OnErr, IfOk, IfSome};
ghost use Rattle.fit_places.specs.NameChanges.{number_by, earlier_by, IsBelow, NamesBelow, EarlierBelow};
ghost use Rattle.fit_places.specs.Folder.{Folder, Numbered, kind_at, may_stand};
ghost use Rattle.fit_places.specs.Changes.{with_name, with_thing, with_change, with_bytes, with_mode, after_creation, mode_copied, file_synced, moved, folder_synced};
ghost use Rattle.fit_places.specs.StoredThing.{numbered};
ghost use Rattle.fit_places.specs.Calls.{IsNewNumber, CanLock};

use crate::stored_thing::StoredThing;
use crate::{Content, Kind, PlaceFault};
use std::alloc::{AllocError, Global};

// What a name stands for since a change, and what it stood for before.
#[derive(Drop)]
pub(crate) struct NameChange {
    name: String,
    number: Option<usize>,
    before: Option<usize>,
}

// The changes of names, the newest first, and how many there were since the folder was last synced; and what has each number.
#[derive(Drop)]
pub(crate) struct MemoryFolder {
    alloc: Global,
    changes: Vec<NameChange>,
    recent: usize,
    things: Vec<StoredThing>,
    created: Option<usize>,
    keeps_moved: bool,
    ghost within: { recent ≤ vec_len changes },
    ghost names_below: { NamesBelow (vec_len things) changes.items },
    ghost earlier_below: { EarlierBelow (vec_len things) changes.items },
    ghost made: { IsBelow (vec_len things) created },
}

impl MemoryFolder {
    ghost use Rattle.fit_places.specs.MemoryFolder.{Stands, StandsFor, bytes_in};
    ghost use Rattle.fit_places.specs.Noted.{empty_folder, put_there};

    pub(crate) fn new(alloc: Global, keeps_moved: bool) -> MemoryFolder
        ensures { StandsFor result (record empty_folder { keeps_moved = keeps_moved }) }
    {
        MemoryFolder {
            alloc,
            changes: Vec::new(alloc),
            recent: 0,
            things: Vec::new(alloc),
            created: None,
            keeps_moved,
        }
    }

    pub(crate) fn alloc(&self) -> Global {
        self.alloc
    }

    // The number that a name stands for.
    pub(crate) fn number_of(&self, name: &str) -> Option<usize>
        ensures value { result ≡ number_by self.now.changes.items name.now }
        ensures below { IsBelow (vec_len self.now.things) result }
    {
        number_in(&self.changes, name)
    }

    // What a name stands for.
    pub(crate) fn kind_of(&self, name: &str) -> Option<Kind>
        ensures { (folder : Folder) → StandsFor self.now folder → result ≡ kind_at name.now folder }
    {
        match self.number_of(name) {
            Some(number) => Some(self.things[number].kind),
            None => None,
        }
    }

    // Whether a name stands for a file that can be locked.
    pub(crate) fn can_lock(&self, name: &str) -> bool
        ensures yes { (folder : Folder) → StandsFor self.now folder → result ≡ true
            → CanLock name.now folder }
        ensures no { (folder : Folder) → StandsFor self.now folder → result ≡ false
            → CanLock name.now folder → ⊥ }
    {
        match self.number_of(name) {
            Some(number) => self.things[number].can_lock(),
            None => false,
        }
    }

    // The content of the file that was created last.
    pub(crate) fn content(&self) -> &[u8]
        ensures { result.now ≡ bytes_in self.now }
    {
        match self.created {
            Some(number) => &self.things[number].bytes,
            None => &[],
        }
    }

    // Lets a name stand for a number, or for nothing. There is room for it.
    fn change_name(&mut self, name: String, number: Option<usize>)
        requires room { vec_len self.old.changes < vec_capacity self.old.changes }
        requires below { IsBelow (vec_len self.old.things) number }
        ensures stands { (folder : Folder) → StandsFor self.old folder
            → StandsFor self.new (with_name (string_bytes name) number folder) }
        ensures same { (self.new.things ≡ self.old.things)
            × (self.new.keeps_moved ≡ self.old.keeps_moved) }
        ensures room { vec_len self.new.changes ≡ vec_len self.old.changes + 1 }
        ensures capacity { vec_capacity self.old.changes ≤ vec_capacity self.new.changes }
    {
        let before = self.number_of(name.as_str());
        put_first(
            &mut self.changes,
            NameChange {
                name,
                number,
                before,
            },
        );
        self.recent += 1;
    }

    // Takes the memory for so many changes of names.
    fn make_room(&mut self, count: usize) -> Result<(), AllocError>
        ensures same { (folder : Folder) → StandsFor self.old folder → StandsFor self.new folder }
        ensures things { (self.new.things ≡ self.old.things)
            × (self.new.changes.items ≡ self.old.changes.items) }
        ensures ok { OnOk result
            (vec_len self.new.changes + count ≤ vec_capacity self.new.changes) }
    {
        self.changes.reserve(count)
    }

    // Adds a thing, and returns its number.
    fn add(&mut self, thing: StoredThing) -> Result<usize, AllocError>
        ensures number { IfOk result (λ number. number ≡ vec_len self.old.things) }
        ensures ok { OnOk result ((vec_len self.new.things ≡ vec_len self.old.things + 1)
            × ((folder : Folder) (stood : Numbered) → numbered thing ≡ stood
            → StandsFor self.old folder → StandsFor self.new (with_thing (vec_len self.old.things) stood folder))) }
        ensures err { OnErr result ((folder : Folder) → StandsFor self.old folder
            → StandsFor self.new folder) }
        ensures changes { self.new.changes ≡ self.old.changes }
    {
        let number = self.things.len();
        self.things.push(thing)?;
        Ok(number)
    }

    // Lets a name stand for a thing, and returns its number.
    fn add_under(&mut self, name: &str, thing: StoredThing) -> Result<usize, AllocError>
        ensures is_new { IfOk result (λ number. (folder : Folder) → StandsFor self.old folder
            → IsNewNumber number folder) }
        ensures below { IfOk result (λ number. number < vec_len self.new.things) }
        ensures ok { IfOk result (λ number. (folder : Folder) (stood : Numbered)
            → numbered thing ≡ stood → StandsFor self.old folder → StandsFor self.new
            (with_thing number stood (with_name name.now (Some number) folder))) }
        ensures err { OnErr result ((folder : Folder) → StandsFor self.old folder
            → StandsFor self.new folder) }
    {
        let name = String::from_str(self.alloc, name)?;
        self.make_room(1)?;
        let number = self.add(thing)?;
        self.change_name(name, Some(number));
        Ok(number)
    }

    // Creates an empty file, and returns its number.
    pub(crate) fn create(&mut self, name: &str, mode: u32) -> Result<usize, AllocError>
        ensures is_new { IfOk result (λ number. (folder : Folder) → StandsFor self.old folder
            → IsNewNumber number folder) }
        ensures ok { IfOk result (λ number. (folder : Folder) → StandsFor self.old folder
            → StandsFor self.new (after_creation name.now number mode folder)) }
        ensures err { OnErr result ((folder : Folder) → StandsFor self.old folder
            → StandsFor self.new folder) }
    {
        let number = self.add_under(name, StoredThing::empty(self.alloc, mode))?;
        self.created = Some(number);
        Ok(number)
    }

    // Lets a name stand for a thing that is kept.
    pub(crate) fn put(
        &mut self,
        name: &str,
        kind: Kind,
        bytes: &[u8],
        mode: u32,
        is_locked: bool,
    ) -> Result<usize, AllocError>
        ensures ok { IfOk result (λ number. (folder : Folder) → StandsFor self.old folder
            → StandsFor self.new (put_there name.now number
            (record { kind = kind; bytes = bytes.now; mode = mode }) is_locked folder)) }
        ensures err { OnErr result ((folder : Folder) → StandsFor self.old folder
            → StandsFor self.new folder) }
    {
        let thing = StoredThing::kept(self.alloc, kind, bytes, mode, is_locked)?;
        let number = self.add_under(name, thing)?;
        self.sync_names();
        Ok(number)
    }

    // The number that a name stands for, or stood for so many of its changes ago, since the folder was last synced.
    pub(crate) fn number_back(&self, name: &str, back: usize) -> Option<Option<usize>>
        ensures value { (folder : Folder) → StandsFor self.now folder
            → result ≡ slice_get (may_stand name.now folder) back }
        ensures below { IfSome result (λ number. IsBelow (vec_len self.now.things) number) }
    {
        if back == 0 {
            return Some(self.number_of(name));
        }
        earlier_in(&self.changes[..self.recent], name, back - 1)
    }

    // What has a number.
    pub(crate) fn thing(&self, number: usize) -> &StoredThing
        requires { number < vec_len self.now.things }
        ensures { (folder : Folder) → StandsFor self.now folder
            → numbered result.now ≡ folder.things number }
    {
        &self.things[number]
    }

    // Lets a name stand for nothing.
    pub(crate) fn remove(&mut self, name: &str) -> Result<(), AllocError>
        ensures ok { OnOk result ((folder : Folder) → StandsFor self.old folder
            → StandsFor self.new (with_name name.now None folder)) }
        ensures err { OnErr result ((folder : Folder) → StandsFor self.old folder
            → StandsFor self.new folder) }
    {
        let name = String::from_str(self.alloc, name)?;
        self.make_room(1)?;
        self.change_name(name, None);
        Ok(())
    }

    // Lets a name stand for what another one stands for, and that one for nothing.
    pub(crate) fn move_to(&mut self, from: &str, to: &str) -> Result<(), AllocError>
        ensures ok { OnOk result ((folder : Folder) → StandsFor self.old folder
            → StandsFor self.new (moved from.now to.now folder)) }
        ensures err { OnErr result ((folder : Folder) → StandsFor self.old folder
            → StandsFor self.new folder) }
    {
        let number = self.number_of(from);
        let from = String::from_str(self.alloc, from)?;
        let to = String::from_str(self.alloc, to)?;
        self.make_room(2)?;
        self.change_name(from, None);
        self.change_name(to, number);
        self.mark_moved(number);
        Ok(())
    }

    // What was synced of a thing that was moved may be lost.
    fn mark_moved(&mut self, number: Option<usize>)
        requires { IsBelow (vec_len self.old.things) number }
        ensures { (folder : Folder) → StandsFor self.old folder
            → StandsFor self.new (with_change number
            (λ file. record file { is_synced = file.is_synced && folder.keeps_moved }) folder) }
    {
        if let Some(number) = number {
            self.things[number].moved(self.keeps_moved);
        }
    }

    // Keeps all names as they are.
    pub(crate) fn sync_names(&mut self)
        ensures { (folder : Folder) → StandsFor self.old folder
            → StandsFor self.new (folder_synced folder) }
    {
        self.recent = 0;
    }

    // Keeps the file that was created last.
    pub(crate) fn sync_created(&mut self)
        ensures { (folder : Folder) → StandsFor self.old folder
            → StandsFor self.new (file_synced folder) }
    {
        if let Some(number) = self.created {
            self.things[number].sync();
        }
    }

    // Gives the file that was created last the mode of what has this name.
    pub(crate) fn copy_mode(&mut self, name: &str)
        ensures { (folder : Folder) → StandsFor self.old folder
            → StandsFor self.new (mode_copied name.now folder) }
    {
        if let Some(number) = self.number_of(name) {
            let mode = self.things[number].mode;
            self.set_mode(mode);
        }
    }

    fn set_mode(&mut self, mode: u32)
        ensures { (folder : Folder) → StandsFor self.old folder
            → StandsFor self.new (with_change folder.created (with_mode mode) folder) }
    {
        if let Some(number) = self.created {
            self.things[number].set_mode(mode);
        }
    }

    // Writes a content to the end of the file that was created last.
    pub(crate) fn write<C: Content>(&mut self, content: &C) -> Result<(), PlaceFault>
        ensures stands { (folder : Folder) → StandsFor self.old folder
            → StandsFor self.new
            (with_change folder.created (with_bytes (bytes_in self.new)) folder) }
        ensures ok { OnOk result
            (bytes_in self.new ≡ bytes_in self.old ++ C.bytes content.now) }
    {
        match self.created {
            Some(number) => self.things[number].write(content),
            None => Err(PlaceFault::Failed),
        }
    }
}

// The number that a name stands for after these changes.
fn number_in(changes: &[NameChange], name: &str) -> Option<usize>
    ensures { result ≡ number_by changes.now name.now }
{
    for change in changes {
        if name == change.name.as_str() {
            return change.number;
        }
    }
    None
}

// What a name stood for before the change of it that so many other changes of it follow.
fn earlier_in(changes: &[NameChange], name: &str, back: usize) -> Option<Option<usize>>
    ensures { result ≡ slice_get (earlier_by changes.now name.now) back }
{
    let mut left = back;
    for change in changes {
        if name == change.name.as_str() {
            if left == 0 {
                return Some(change.before);
            }
            left -= 1;
        }
    }
    None
}

// Puts a change before the others. There is room for it.
fn put_first(changes: &mut Vec<NameChange>, change: NameChange)
    requires { vec_len changes.old < vec_capacity changes.old }
    ensures items { changes.new.items ≡ change ∷ changes.old.items }
    ensures len { vec_len changes.new ≡ vec_len changes.old + 1 }
    ensures capacity { vec_capacity changes.old ≤ vec_capacity changes.new }
{
    let _ = changes.insert(0, change);
}

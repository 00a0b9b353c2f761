// What a name of the folder in memory stands for.

ghost use Rattle.std.specs.Prelude.{◌≡◌, ◌++◌, ◌∷◌, [], ℕ, ◌&&◌, true, false, OnOk, IfOk};

use crate::{Content, Kind, PlaceFault};
use std::alloc::{AllocError, Global};

// A thing, whether it was synced since it was last changed, and whether another program has it locked.
#[derive(Drop)]
pub(crate) struct StoredThing {
    pub(crate) kind: Kind,
    pub(crate) bytes: Vec<u8>,
    pub(crate) mode: u32,
    pub(crate) is_synced: bool,
    pub(crate) is_locked: bool,
}

impl StoredThing {
    ghost use Rattle.fit_places.specs.StoredThing.{numbered};
    ghost use Rattle.fit_places.specs.declared.place.Kind.TheVariants.{File};
    ghost use Rattle.fit_places.specs.Changes.{empty_file, with_mode, with_bytes};

    // An empty file.
    pub(crate) fn empty(alloc: Global, mode: u32) -> StoredThing
        ensures { numbered result ≡ empty_file mode }
    {
        StoredThing {
            kind: Kind::File,
            bytes: Vec::new(alloc),
            mode,
            is_synced: false,
            is_locked: false,
        }
    }

    // A thing that is kept.
    pub(crate) fn kept(
        alloc: Global,
        kind: Kind,
        bytes: &[u8],
        mode: u32,
        is_locked: bool,
    ) -> Result<StoredThing, AllocError>
        ensures { IfOk result (λ thing. numbered thing
            ≡ record {
              thing = record { kind = kind; bytes = bytes.now; mode = mode };
              is_synced = true;
              is_locked = is_locked;
            }) }
    {
        Ok(StoredThing {
            kind,
            bytes: Vec::from_slice(alloc, bytes)?,
            mode,
            is_synced: true,
            is_locked,
        })
    }

    // Whether it is a file that nobody has locked.
    pub(crate) fn can_lock(&self) -> bool
        ensures yes { result ≡ true → (self.now.kind ≡ File) × (self.now.is_locked ≡ false) }
        ensures no { result ≡ false → (self.now.kind ≡ File) × (self.now.is_locked ≡ false) → ⊥ }
    {
        self.kind == Kind::File && !self.is_locked
    }

    pub(crate) fn set_mode(&mut self, mode: u32)
        ensures { numbered self.new ≡ with_mode mode (numbered self.old) }
    {
        self.mode = mode;
        self.is_synced = false;
    }

    pub(crate) fn sync(&mut self)
        ensures { numbered self.new ≡ record (numbered self.old) { is_synced = true } }
    {
        self.is_synced = true;
    }

    // It was moved, which keeps what was synced of it, or does not.
    pub(crate) fn moved(&mut self, keeps: bool)
        ensures { numbered self.new
            ≡ record (numbered self.old) { is_synced = self.old.is_synced && keeps } }
    {
        self.is_synced = self.is_synced && keeps;
    }

    // Writes a content to its end. After a fault it has any bytes.
    pub(crate) fn write<C: Content>(&mut self, content: &C) -> Result<(), PlaceFault>
        ensures thing { numbered self.new ≡ with_bytes self.new.bytes.items (numbered self.old) }
        ensures ok { OnOk result
            (self.new.bytes.items ≡ self.old.bytes.items ++ C.bytes content.now) }
    {
        self.is_synced = false;
        content.write_to(&mut self.bytes)
    }
}

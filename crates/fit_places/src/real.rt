// The place over the system: the folder of one file. Each call of the system is made here.

ghost use Rattle.std.specs.Prelude.{false};

use crate::{Content, Kind, Place, PlaceFault};
use fit_disk::lock;
use std::fs::{self, File, OpenOptions};
use std::io::{self, ErrorKind};
use std::os::unix::fs::OpenOptionsExt;
use std::path::{Path, PathBuf};

/// The folder of a file, in the file system. It promises nothing: that each call of the system does what its clause says is a premise.
#[derive(Drop)]
pub struct RealPlace<'a> {
    rt: &'a HostRuntime,
    path: &'a str,
    name: &'a str,
    locked: Option<File>,
    created: Option<Created>,
    folder: Option<File>,
}

// A file that was created, and its path. The path is kept: once memory is refused, the file can still be moved and removed.
#[derive(Drop)]
struct Created {
    path: PathBuf,
    file: File,
}

impl<'a> RealPlace<'a> {
    /// The folder of the file at a path, or `None` if the path does not end in the name of a file.
    pub fn of(rt: &'a HostRuntime, path: &'a str) -> Option<RealPlace<'a>> {
        let name = Path::new(path).file_name()?;
        if !path.ends_with(name) {
            return None;
        }
        Some(RealPlace {
            rt,
            path,
            name,
            locked: None,
            created: None,
            folder: None,
        })
    }

    /// The name of the file.
    pub fn name(&self) -> &'a str {
        self.name
    }

    // The path of a name in the folder.
    fn path_of(&self, name: &str) -> io::Result<PathBuf> {
        Ok(Path::new(self.path).with_file_name(self.rt.alloc(), name)?)
    }

    // The path of the file, or of the one that was created, by its name. It takes no memory.
    fn kept_path(&self, name: &str) -> Result<&str, PlaceFault> {
        if name == self.name {
            return Ok(self.path);
        }
        match &self.created {
            Some(created) if created.path.file_name() == Some(name) => Ok(created.path.as_str()),
            _ => Err(PlaceFault::Failed),
        }
    }

    // The file that was created.
    fn created_file(&self) -> Result<&File, PlaceFault> {
        match &self.created {
            Some(created) => Ok(&created.file),
            None => Err(PlaceFault::Failed),
        }
    }

    // What a name stands for.
    fn kind_of(&self, name: &str) -> io::Result<Option<Kind>> {
        match fs::symlink_metadata(self.rt, self.path_of(name)?.as_str()) {
            Ok(found) if found.is_file() => Ok(Some(Kind::File)),
            Ok(_) => Ok(Some(Kind::Other)),
            Err(error) if error.kind() == ErrorKind::NotFound => Ok(None),
            Err(error) => Err(error),
        }
    }

    // Creates a file, or returns `None` if its name is taken.
    fn new_file(&self, name: &str, mode: u32) -> io::Result<Option<Created>> {
        let path = self.path_of(name)?;
        let made = OpenOptions::new()
            .write(true)
            .create_new(true)
            .mode(mode)
            .open(self.rt, path.as_str());
        match made {
            Ok(file) => Ok(Some(Created { path, file })),
            Err(error) if error.kind() == ErrorKind::AlreadyExists => Ok(None),
            Err(error) => Err(error),
        }
    }
}

impl Place for RealPlace<'_> {
    ghost use Rattle.fit_places.specs.Real.{unknown};

    ghost honest = { false };

    ghost story = { λ _. unknown };

    fn look(&mut self, name: &str) -> Result<Option<Kind>, PlaceFault> {
        Ok(self.kind_of(name)?)
    }

    fn lock(&mut self, name: &str) -> Result<(), PlaceFault> {
        let file = OpenOptions::new()
            .write(true)
            .open(self.rt, self.path_of(name)?.as_str())?;
        self.locked = Some(lock(file)?);
        Ok(())
    }

    fn open_folder(&mut self) -> Result<(), PlaceFault> {
        self.folder = Some(File::open(self.rt, folder_of(self.path))?);
        Ok(())
    }

    fn create(&mut self, name: &str, mode: u32) -> Result<bool, PlaceFault> {
        self.created = self.new_file(name, mode)?;
        Ok(self.created.is_some())
    }

    fn copy_mode(&mut self, _name: &str) -> Result<(), PlaceFault> {
        let mode = open_one(&self.locked)?.metadata()?.permissions();
        self.created_file()?.set_permissions(mode)?;
        Ok(())
    }

    fn write<C: Content>(&mut self, content: &C) -> Result<(), PlaceFault> {
        match &mut self.created {
            Some(created) => content.write_to(&mut created.file),
            None => Err(PlaceFault::Failed),
        }
    }

    fn sync_file(&mut self) -> Result<(), PlaceFault> {
        self.created_file()?.sync_all()?;
        Ok(())
    }

    fn move_to(&mut self, from: &str, to: &str) -> Result<(), PlaceFault> {
        fs::rename(self.rt, self.kept_path(from)?, self.kept_path(to)?)?;
        Ok(())
    }

    fn sync_folder(&mut self) -> Result<(), PlaceFault> {
        open_one(&self.folder)?.sync_all()?;
        Ok(())
    }

    fn remove(&mut self, name: &str) -> Result<(), PlaceFault> {
        fs::remove_file(self.rt, self.kept_path(name)?)?;
        Ok(())
    }
}

// A file that an earlier call has opened.
fn open_one(file: &Option<File>) -> Result<&File, PlaceFault> {
    match file {
        Some(file) => Ok(file),
        None => Err(PlaceFault::Failed),
    }
}

// The name of the folder that holds a file of this path.
fn folder_of(path: &str) -> &str {
    match Path::new(path).parent() {
        Some(folder) => {
            let text = folder.as_str();
            if text.is_empty() { "." } else { text }
        }
        None => ".",
    }
}

// The two real files of a recording.

ghost use Rattle.std.specs.Prelude.{[], ◌+◌, ◌<◌, ◌≡◌, ◌≤◌, false, true, length, IfOk, IsTrue, OnOk, OnErr};
ghost use Rattle.fit_disk.specs.Calls.{ReadsAt, Wrote, Shortened, Synced};
ghost use Rattle.fit_disk.specs.Counts.{unplanned, no_calls, no_room, with_failure, CountsCall, CountsRead};
ghost use Rattle.fit_disk.specs.Story.{seen_of};

use crate::call_counts::CallCounts;
use crate::reported::Reported;
use crate::{DeviceError, Disk, Which, Witness};
use std::alloc::AllocError;
use std::fs::{self, File, OpenOptions};
use std::io::{self, ErrorKind};
use std::os::fd::AsRawFd;
use std::path::Path;

/// The name of the data file in the folder of a recording.
pub const DATA_NAME: &str = "activity.fit";

/// The name of the journal in the same folder.
pub const JOURNAL_NAME: &str = "activity.frj";

/// Why the files of a folder cannot be opened.
#[derive(Clone, Copy, Debug, PartialEq, Eq)]
pub enum OpenFault {
    /// The folder is missing, one of its files cannot be made, opened, locked or synced, or another program holds a lock on them.
    Open,
    /// Memory was refused.
    Memory,
}

impl OpenFault {
    ghost use Rattle.fit_disk.specs.Code.{open_code};

    /// The number of the fault, 1 or 2.
    pub fn code(&self) -> u8
        ensures { result ≡ open_code self.now }
    {
        match self {
            OpenFault::Open => 1,
            OpenFault::Memory => 2,
        }
    }
}

impl From<io::Error> for OpenFault {
    ghost use Rattle.fit_disk.specs.Code.{open_fault_of};

    ghost from_gives = { λ error fault. fault ≡ open_fault_of error };

    fn from(error: io::Error) -> OpenFault {
        match error.kind() {
            ErrorKind::OutOfMemory => OpenFault::Memory,
            _ => OpenFault::Open,
        }
    }
}

impl From<AllocError> for OpenFault {
    ghost use Rattle.fit_disk.specs.declared.files.OpenFault.TheVariants.{Memory};

    ghost from_gives = { λ _ fault. fault ≡ Memory };

    fn from(_: AllocError) -> OpenFault {
        OpenFault::Memory
    }
}

/// The files `activity.fit` and `activity.frj` of a folder, and a witness to which each answer of the system is reported. The clauses about
/// their bytes cover the answers that an honest witness does not refuse. The user has to provide a disk that keeps to them.
///
/// A failed sync is remembered: every later call fails. The system reports the failure once. The next sync would succeed although it wrote
/// nothing, so the files can be used again only after they are opened anew.
#[derive(Drop)]
pub struct Files<W> {
    files: Reported<W>,
    counts: CallCounts,
    // A sync failed.
    is_lost: bool,
}

impl<W: Witness> Files<W> {
    ghost use Rattle.fit_disk.specs.Files.{files_counts, is_lost, witness_of};

    /// Opens both files of an existing folder, makes those that are missing, and syncs the folder and both files. While
    /// they are open, a second `open` of the folder gives `Open`, in any program that locks them. Reads give the
    /// system's cached copies. These may differ from the disk if a sync failed in an earlier process.
    pub fn open(rt: &HostRuntime, folder: &str, witness: W) -> Result<Files<W>, OpenFault>
        ensures counts { IfOk result (λ files. files_counts files ≡ no_calls) }
        ensures lost { IfOk result (λ files. is_lost files ≡ false) }
        ensures witness { IfOk result (λ files. witness_of files ≡ witness) }
    {
        let path = Path::new(folder);
        let data = open_locked(rt, path.join(rt.alloc(), DATA_NAME)?.as_str())?;
        let journal = open_locked(rt, path.join(rt.alloc(), JOURNAL_NAME)?.as_str())?;
        // The name of a new file is durable only after the folder is synced.
        File::open(rt, path_of(folder))?.sync_all()?;
        data.sync_all()?;
        journal.sync_all()?;
        Ok(Files {
            files: Reported {
                data,
                journal,
                witness,
            },
            counts: CallCounts::new(),
            is_lost: false,
        })
    }

    /// Closes the files, and returns the witness.
    pub fn into_witness(self) -> W
        ensures { result ≡ witness_of self }
    {
        self.files.witness
    }

    // Counts the last call as failed if its answer is an error, and returns the answer.
    fn counted<T>(&mut self, answer: Result<T, DeviceError>) -> Result<T, DeviceError>
        requires { self.old.counts.failed < self.old.counts.calls }
        ensures same { result ≡ answer }
        ensures ok { OnOk result (files_counts self.new ≡ files_counts self.old) }
        ensures err { OnErr result (files_counts self.new ≡ with_failure (files_counts self.old)) }
        ensures lost { is_lost self.new ≡ is_lost self.old }
        ensures witness { witness_of self.new ≡ witness_of self.old }
    {
        if answer.is_err() {
            self.counts.fail();
        }
        answer
    }

    // Lets the last call fail if a sync failed before it.
    fn unless_lost(&mut self) -> Result<(), DeviceError>
        requires { self.old.counts.failed < self.old.counts.calls }
        ensures ok { OnOk result ((is_lost self.old ≡ false)
            × (files_counts self.new ≡ files_counts self.old)) }
        ensures err { OnErr result ((is_lost self.old ≡ true)
            × (files_counts self.new ≡ with_failure (files_counts self.old))) }
        ensures lost { is_lost self.new ≡ is_lost self.old }
        ensures witness { witness_of self.new ≡ witness_of self.old }
    {
        if self.is_lost {
            return self.counted(Err(DeviceError));
        }
        Ok(())
    }
}

impl<W: Witness> Disk for Files<W> {
    ghost use Rattle.fit_disk.specs.Files.{files_counts, is_lost, witness_of, FailsIfLost, FailsSync};

    ghost honest = { W.honest };

    ghost story = { λ files. W.story (witness_of files) };

    ghost log = { λ files.
        record {
          counts =
              files_counts files;
          schedule = unplanned no_calls;
          memory = [];
          room = no_room;
        } };

    ghost sound = { λ files. W.sound (witness_of files) };

    fn size(&mut self, which: Which) -> Result<u64, DeviceError>
        ensures size { IsTrue W.honest → IfOk result
            (λ size. size ≡ length (seen_of which (W.story (witness_of self.old)))) }
        ensures same { IsTrue W.honest
            → W.story (witness_of self.new) ≡ W.story (witness_of self.old) }
        ensures counted { CountsCall result (files_counts self.old) (files_counts self.new) }
        ensures reads { (files_counts self.new).data_reads ≡ (files_counts self.old).data_reads }
        ensures lost { FailsIfLost result self.old self.new }
    {
        self.counts.call()?;
        self.unless_lost()?;
        let answer = self.files.size(which);
        self.counted(answer)
    }

    fn read(&mut self, which: Which, at: u64, buffer: &mut [u8]) -> Result<usize, DeviceError>
        ensures within { IfOk result (λ count. count ≤ length buffer.old) }
        ensures bytes { IsTrue W.honest → IfOk result
            (ReadsAt (seen_of which (W.story (witness_of self.old))) at
            (length buffer.old) buffer.new) }
        ensures same { IsTrue W.honest
            → W.story (witness_of self.new) ≡ W.story (witness_of self.old) }
        ensures counted { CountsCall result (files_counts self.old) (files_counts self.new) }
        ensures reads { CountsRead which (files_counts self.old) (files_counts self.new) }
        ensures lost { FailsIfLost result self.old self.new }
    {
        self.counts.read(which)?;
        self.unless_lost()?;
        let answer = self.files.read(which, at, buffer);
        self.counted(answer)
    }

    fn write(&mut self, which: Which, at: u64, bytes: &[u8]) -> Result<(), DeviceError>
        requires { IsTrue W.honest → at ≤ length (seen_of which (W.story (witness_of self.old))) }
        ensures wrote { IsTrue W.honest → Wrote which at bytes.now result
            (W.story (witness_of self.old)) (W.story (witness_of self.new)) }
        ensures counted { CountsCall result (files_counts self.old) (files_counts self.new) }
        ensures reads { (files_counts self.new).data_reads ≡ (files_counts self.old).data_reads }
        ensures lost { FailsIfLost result self.old self.new }
    {
        self.counts.call()?;
        self.unless_lost()?;
        let answer = self.files.write(which, at, bytes);
        self.counted(answer)
    }

    fn cut(&mut self, which: Which, len: u64) -> Result<(), DeviceError>
        requires { IsTrue W.honest → len ≤ length (seen_of which (W.story (witness_of self.old))) }
        ensures shortened { IsTrue W.honest → Shortened which len result
            (W.story (witness_of self.old)) (W.story (witness_of self.new)) }
        ensures counted { CountsCall result (files_counts self.old) (files_counts self.new) }
        ensures reads { (files_counts self.new).data_reads ≡ (files_counts self.old).data_reads }
        ensures lost { FailsIfLost result self.old self.new }
    {
        self.counts.call()?;
        self.unless_lost()?;
        let answer = self.files.cut(which, len);
        self.counted(answer)
    }

    fn sync(&mut self, which: Which) -> Result<(), DeviceError>
        ensures synced { IsTrue W.honest → Synced which result
            (W.story (witness_of self.old)) (W.story (witness_of self.new)) }
        ensures counted { CountsCall result (files_counts self.old) (files_counts self.new) }
        ensures reads { (files_counts self.new).data_reads ≡ (files_counts self.old).data_reads }
        ensures lost { FailsSync result self.old self.new }
    {
        self.counts.call()?;
        self.unless_lost()?;
        let answer = self.files.sync(which);
        if answer.is_err() {
            self.is_lost = true;
        }
        self.counted(answer)
    }
}

/// Whether one of the files is missing in an existing folder. If so, nothing is recorded there. A missing folder is an error.
pub fn is_one_missing(rt: &HostRuntime, folder: &str) -> Result<bool, OpenFault> {
    fs::metadata(rt, path_of(folder))?;
    let path = Path::new(folder);
    Ok(
        is_missing(rt, path.join(rt.alloc(), DATA_NAME)?.as_str())?
            || is_missing(rt, path.join(rt.alloc(), JOURNAL_NAME)?.as_str())?,
    )
}

// Opens or makes a regular file, and locks it.
fn open_locked(rt: &HostRuntime, path: &str) -> io::Result<File> {
    lock(open_or_make(rt, path)?)
}

/// Locks a regular file until it is closed. It returns an error if the file is not regular or is locked
/// already. Only programs that lock the file too are kept away.
pub fn lock(mut file: File) -> io::Result<File> {
    // If a standard stream was closed, the file may have its number. What is meant for the stream must not land in the file.
    if file.as_raw_fd() <= 2 {
        file = file.try_clone()?;
    }
    if !file.metadata()?.is_file() {
        return Err(ErrorKind::Unsupported.into());
    }
    file.try_lock()?;
    Ok(file)
}

// Opens the file at a path, or makes one if nothing is there. A link that points nowhere is an error.
fn open_or_make(rt: &HostRuntime, path: &str) -> io::Result<File> {
    if is_missing(rt, path)? {
        return OpenOptions::new()
            .read(true)
            .write(true)
            .create_new(true)
            .open(rt, path);
    }
    // Opening a pipe or a terminal might block for ever.
    if !fs::metadata(rt, path)?.is_file() {
        return Err(ErrorKind::Unsupported.into());
    }
    OpenOptions::new().read(true).write(true).open(rt, path)
}

// Whether nothing is there, not even a link.
pub(crate) fn is_missing(rt: &HostRuntime, path: &str) -> io::Result<bool> {
    match fs::symlink_metadata(rt, path) {
        Ok(_) => Ok(false),
        Err(error) if error.kind() == ErrorKind::NotFound => Ok(true),
        Err(error) => Err(error),
    }
}

// An empty folder name is the current folder.
pub(crate) fn path_of(folder: &str) -> &str {
    if folder.is_empty() { "." } else { folder }
}

// The two files of a recording, opened only to be read.

use crate::files::{DATA_NAME, JOURNAL_NAME, OpenFault, is_missing, path_of};
use std::fs::{self, File};
use std::io::{self, ErrorKind};
use std::path::Path;

/// The name of the data file on a card that shows its names in capitals.
pub const CAPITAL_DATA_NAME: &str = "ACTIVITY.FIT";

/// The name of the journal on the same card.
pub const CAPITAL_JOURNAL_NAME: &str = "ACTIVITY.FRJ";

/// Opens the data file and the journal of an existing folder to be read. `None` stands for one that is missing. If both are missing under
/// their names, they are looked for in capitals. While they are open, `Files::open` of the folder gives `Open`. While a recorder has them
/// open, this call gives `Open`. Neither the files nor the folder are changed.
pub fn open_to_read(
    rt: &HostRuntime,
    folder: &str,
) -> Result<(Option<File>, Option<File>), OpenFault> {
    fs::metadata(rt, path_of(folder))?;
    let data = open_shared(rt, folder, DATA_NAME)?;
    let journal = open_shared(rt, folder, JOURNAL_NAME)?;
    if data.is_some() || journal.is_some() {
        return Ok((data, journal));
    }
    Ok((
        open_shared(rt, folder, CAPITAL_DATA_NAME)?,
        open_shared(rt, folder, CAPITAL_JOURNAL_NAME)?,
    ))
}

// Opens the file of this name in a folder, if it is there.
fn open_shared(rt: &HostRuntime, folder: &str, name: &str) -> Result<Option<File>, OpenFault> {
    let path = Path::new(folder).join(rt.alloc(), name)?;
    if is_missing(rt, path.as_str())? {
        return Ok(None);
    }
    Ok(Some(lock_shared(rt, path.as_str())?))
}

// Opens a regular file, and locks it against programs that write it.
fn lock_shared(rt: &HostRuntime, path: &str) -> io::Result<File> {
    // Opening a pipe or a terminal might block for ever.
    if !fs::metadata(rt, path)?.is_file() {
        return Err(ErrorKind::Unsupported.into());
    }
    let file = File::open(rt, path)?;
    if !file.metadata()?.is_file() {
        return Err(ErrorKind::Unsupported.into());
    }
    file.try_lock_shared()?;
    Ok(file)
}

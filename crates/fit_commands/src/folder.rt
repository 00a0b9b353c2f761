// Opens and reads the files in the folder of a recording.

ghost use Rattle.std.specs.Prelude.{◌≡◌, IfErr, IfOk};
ghost use Rattle.fit_disk.specs.Files.{witness_of};
ghost use Rattle.fit_disk.specs.declared.files.OpenFault.{OpenFault as WhyNotOpen};
ghost use Rattle.fit_commands.specs.Faults.{fault_of_open, IsOpenReported, IsReadReported, IsLackReported};
ghost use Rattle.fit_commands.specs.Reading.{IsRead, IsReadFront};

use crate::fault::Fault;
use crate::input::{read_input, read_input_front};
use fit_disk::{DATA_NAME, Files, JOURNAL_NAME, OpenFault, Witness, is_one_missing};
use fit_files::FrontRead;
use fit_places::NamedFiles;
use fit_recorder::RecFault;
use fit_recordings::Lack;
use std::alloc::Global;
use std::io::Read;

/// Opens the files of this folder under a witness, and creates those that are missing.
pub fn open_folder<'a, W: Witness>(
    rt: &HostRuntime,
    name: &'a str,
    witness: W,
) -> Result<Files<W>, Fault<'a>>
    ensures witness { IfOk result (λ files. witness_of files ≡ witness) }
    ensures fault { IfErr result (λ fault. (why : WhyNotOpen)
        × (fault ≡ fault_of_open name.entry why)) }
{
    Files::open(rt, name, witness).map_err(|fault| fault_of_open(name, fault))
}

/// Opens the files of this folder under a witness. If one of them is missing, the fault is `NothingRecorded`.
pub fn open_recorded<'a, W: Witness>(
    rt: &HostRuntime,
    name: &'a str,
    witness: W,
) -> Result<Files<W>, Fault<'a>>
    ensures witness { IfOk result (λ files. witness_of files ≡ witness) }
    ensures fault { IfErr result (IsOpenReported name.entry) }
{
    if is_one_missing(rt, name).map_err(|fault| fault_of_open(name, fault))? {
        return Err(Fault::Recorder(RecFault::NothingRecorded));
    }
    open_folder(rt, name, witness)
}

/// Reads the journal of this folder, and what can be read of its data file. Nothing is written. If one of them is missing, the fault says
/// which, and if both are, it is `NothingRecorded`.
pub fn read_recorded<'a, F: NamedFiles + AllocGlobal>(
    files: &F,
    name: &'a str,
) -> Result<(FrontRead, Vec<u8>), Fault<'a>>
    ensures data { IfOk result (λ read. IsReadFront (F.held_data files.now name.now) read.0) }
    ensures journal { IfOk result (λ read.
        IsRead (F.held_journal files.now name.now) read.1.items) }
    ensures fault { IfErr result (IsLackReported name.entry) }
{
    let (data_file, journal_file) = match files.open_recorded(name) {
        Ok(found) => found,
        Err(fault) => return Err(fault_of_open(name, fault)),
    };
    match (data_file, journal_file) {
        (Some(data_file), Some(journal_file)) => read_files(files.alloc(), data_file, journal_file),
        (Some(_), None) => Err(Fault::NothingSaved(Lack::NoJournal)),
        (None, Some(_)) => Err(Fault::NothingSaved(Lack::NoData)),
        (None, None) => Err(Fault::Recorder(RecFault::NothingRecorded)),
    }
}

fn read_files<T: Read + Drop>(
    alloc: Global,
    mut data_file: T,
    mut journal_file: T,
) -> Result<(FrontRead, Vec<u8>), Fault<'static>>
    ensures data { IfOk result (λ read. IsReadFront (T.remaining data_file) read.0) }
    ensures journal { IfOk result (λ read. IsRead (T.remaining journal_file) read.1.items) }
    ensures fault { IfErr result IsReadReported }
{
    let read = read_input_front(alloc, DATA_NAME, &mut data_file)?;
    let journal_bytes = read_input(alloc, JOURNAL_NAME, &mut journal_file)?;
    Ok((read, journal_bytes))
}

/// The program's fault for a folder of this name that was not opened.
pub(crate) fn fault_of_open<'a>(name: &'a str, fault: OpenFault) -> Fault<'a>
    ensures { result ≡ fault_of_open name.entry fault }
{
    match fault {
        OpenFault::Open => Fault::Open(name),
        OpenFault::Memory => Fault::NoMemory,
    }
}

// Files by their names.

use crate::ride::{OLD, OTHER, OUT, Ride, Stands, expect, folder, other_is_kept, ride_left};
use fit_places::{Kind, MemoryPlace, NamedFiles, PlaceFault};
use std::collections::VecDeque;
use std::io::Read;
use std::process::Abort;

// The names of the two files of a recording.
const DATA: &str = "activity.fit";

const JOURNAL: &str = "activity.frj";

const DATA_BYTES: &[u8] = b"a body";

const JOURNAL_BYTES: &[u8] = b"slots";

// Asserts that all bytes of a file are these.
fn expect_bytes<T: Read>(rt: &impl Abort, file: &mut T, wanted: &[u8]) -> Result<(), PlaceFault> {
    let mut bytes = [0u8; 64];
    let count = file.read(&mut bytes)?;
    expect(rt, &bytes[..count] == wanted, 0);
    expect(rt, file.read(&mut bytes)? == 0, 0);
    Ok(())
}

#[test]
fn a_name_opens_its_file(rt: HostRuntime) -> Result<(), PlaceFault> {
    let place = folder(rt.alloc(), true, true)?;
    let mut file = place.open(OUT)?;
    expect(&rt, place.size(&file) == 12, 0);
    expect_bytes(&rt, &mut file, OLD)?;
    expect(&rt, place.open("ride").is_err(), 0);
    expect(&rt, place.standard_input().read(&mut [0u8; 8])? == 0, 0);
    Ok(())
}

#[test]
fn what_is_no_file_is_special(rt: HostRuntime) -> Result<(), PlaceFault> {
    let mut place = folder(rt.alloc(), true, true)?;
    place.put("pipe", Kind::Other, b"", 0o600, false)?;
    expect(&rt, place.is_special("pipe"), 0);
    expect(&rt, !place.is_special(OUT) && !place.is_special("ride"), 0);
    Ok(())
}

// The data file and the journal of a recording, those of them that are there.
fn opened(place: &MemoryPlace) -> Result<(Option<VecDeque<u8>>, Option<VecDeque<u8>>), PlaceFault> {
    match place.open_recorded("") {
        Ok(files) => Ok(files),
        Err(_) => Err(PlaceFault::Failed),
    }
}

#[test]
fn a_recording_has_two_files(rt: HostRuntime) -> Result<(), PlaceFault> {
    let mut place = folder(rt.alloc(), true, true)?;
    place.put(JOURNAL, Kind::File, JOURNAL_BYTES, 0o600, false)?;
    let (data, journal) = opened(&place)?;
    expect(&rt, data.is_none(), 0);
    let Some(mut journal) = journal else {
        return Err(PlaceFault::Failed);
    };
    expect_bytes(&rt, &mut journal, JOURNAL_BYTES)?;
    place.put(DATA, Kind::File, DATA_BYTES, 0o600, false)?;
    let (data, journal) = opened(&place)?;
    expect(&rt, journal.is_some(), 0);
    let Some(mut data) = data else {
        return Err(PlaceFault::Failed);
    };
    expect_bytes(&rt, &mut data, DATA_BYTES)
}

#[test]
fn a_name_replaces_its_file(rt: HostRuntime) -> Result<(), PlaceFault> {
    let mut place = folder(rt.alloc(), true, true)?;
    place.replace(OUT, &Ride)?;
    expect(&rt, ride_left(&place, true, 0) == Some(Stands::New), 0);
    expect(&rt, other_is_kept(&place), 0);
    Ok(())
}

#[test]
fn a_file_of_a_recording_is_not_replaced(rt: HostRuntime) -> Result<(), PlaceFault> {
    let mut place = folder(rt.alloc(), false, true)?;
    place.put(JOURNAL, Kind::File, JOURNAL_BYTES, 0o600, false)?;
    expect(&rt, place.replace(DATA, &Ride).is_err(), 0);
    expect(&rt, place.open(DATA).is_err() && other_is_kept(&place), 0);
    place.replace(OTHER, &Ride)?;
    Ok(())
}

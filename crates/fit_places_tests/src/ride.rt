// A folder with a ride that is replaced, and what may stand in it afterwards.

use fit_places::{Content, Kind, Left, MemoryPlace, PlaceFault, replace};
use std::alloc::Global;
use std::io::Write;
use std::process::Abort;

pub(crate) const OUT: &str = "ride.fit";

pub(crate) const OTHER: &str = "notes.txt";

pub(crate) const BESIDE: &str = ".fitrec-new-0";

// The mode of the file that is there, of no other file.
pub(crate) const MODE: u32 = 0o640;

pub(crate) const OLD: &[u8] = b"the old ride";

const NEW: &[u8] = b"a new ride, longer";

const OTHERS: &[u8] = b"rain from noon on";

// What is written.
#[derive(Drop)]
pub(crate) struct Ride;

impl Content for Ride {
    ghost use Rattle.fit_places_tests.specs.Ride.{new_ride};

    ghost bytes = { λ _. new_ride };

    fn write_to<W: Write>(&self, out: &mut W) -> Result<(), PlaceFault> {
        out.write_all(NEW)?;
        Ok(())
    }
}

// What a name stands for.
#[derive(Clone, Copy, Debug, PartialEq, Eq)]
pub(crate) enum Stands {
    Nothing,
    Old,
    New,
    // Not synced, so a power cut may leave anything.
    Unsynced,
    Wrong,
}

// A folder with another file, and with the old ride or without it.
pub(crate) fn folder(
    alloc: Global,
    has_old: bool,
    keeps_moved: bool,
) -> Result<MemoryPlace, PlaceFault> {
    let mut place = MemoryPlace::new(alloc, keeps_moved);
    place.put(OTHER, Kind::File, OTHERS, 0o600, false)?;
    if has_old {
        place.put(OUT, Kind::File, OLD, MODE, false)?;
    }
    Ok(place)
}

// Replaces the ride.
pub(crate) fn replace_ride(alloc: Global, place: &mut MemoryPlace) -> Result<(), PlaceFault> {
    replace(alloc, place, OUT, None, &Ride)
}

// What the ride's name stands for, or stood for so many of its changes ago. The new ride has the mode of the old one.
pub(crate) fn ride_left(place: &MemoryPlace, has_old: bool, back: usize) -> Option<Stands> {
    match place.left(OUT, back) {
        None => None,
        Some(None) => Some(Stands::Nothing),
        Some(Some(left)) => Some(stands_of(&left, has_old)),
    }
}

fn stands_of(left: &Left, has_old: bool) -> Stands {
    let mode = if has_old { MODE } else { 0o666 };
    if left.kind != Kind::File || left.mode != mode {
        return Stands::Wrong;
    }
    if !left.is_synced {
        return Stands::Unsynced;
    }
    if left.bytes == OLD {
        return Stands::Old;
    }
    if left.bytes == NEW {
        return Stands::New;
    }
    Stands::Wrong
}

// Whether the other file is as it was, whatever comes.
pub(crate) fn other_is_kept(place: &MemoryPlace) -> bool {
    let is_same = match place.left(OTHER, 0) {
        Some(Some(left)) => left.bytes == OTHERS && left.mode == 0o600 && left.is_synced,
        _ => false,
    };
    is_same && place.left(OTHER, 1).is_none()
}

// Whether nothing has a name now.
pub(crate) fn is_free(place: &MemoryPlace, name: &str) -> bool {
    match place.left(name, 0) {
        Some(None) => true,
        _ => false,
    }
}

pub(crate) fn expect(rt: &impl Abort, holds: bool, calls: u32) {
    assert!(rt; holds, "after {calls} calls");
}

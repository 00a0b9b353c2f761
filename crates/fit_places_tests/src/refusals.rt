// What is refused, and changes nothing.

use crate::ride::{BESIDE, MODE, OTHER, OUT, expect, folder, is_free, other_is_kept, replace_ride};
use fit_places::{Kind, MemoryPlace, Place, PlaceFault};
use std::alloc::Global;
use std::process::Abort;

// Asserts that the ride is not replaced, for this reason, and nothing else has changed.
fn expect_refused(rt: &impl Abort, alloc: Global, place: &mut MemoryPlace, fault: PlaceFault) {
    let done = replace_ride(alloc, place);
    expect(rt, done == Err(fault), 0);
    expect(rt, other_is_kept(place) && is_free(place, BESIDE), 0);
}

#[test]
fn a_folder_is_refused(rt: HostRuntime) -> Result<(), PlaceFault> {
    let mut place = folder(rt.alloc(), false, true)?;
    place.put(OUT, Kind::Other, b"", MODE, false)?;
    expect_refused(&rt, rt.alloc(), &mut place, PlaceFault::Refused);
    Ok(())
}

#[test]
fn a_locked_file_is_refused(rt: HostRuntime) -> Result<(), PlaceFault> {
    let mut place = folder(rt.alloc(), false, true)?;
    place.put(OUT, Kind::File, b"a ride that is recorded", MODE, true)?;
    expect_refused(&rt, rt.alloc(), &mut place, PlaceFault::Failed);
    Ok(())
}

#[test]
fn a_hundred_names_are_tried(rt: HostRuntime) -> Result<(), PlaceFault> {
    let mut place = folder(rt.alloc(), true, true)?;
    for number in 0..99u32 {
        let Ok(name) = format!(in rt.alloc(); ".fitrec-new-{number}") else {
            return Err(PlaceFault::Memory);
        };
        place.put(name.as_str(), Kind::Other, b"", 0, false)?;
    }
    expect(&rt, place.look(OTHER) == Ok(Some(Kind::File)), 0);
    expect(&rt, replace_ride(rt.alloc(), &mut place).is_ok(), 99);
    place.put(".fitrec-new-99", Kind::Other, b"", 0, false)?;
    expect(
        &rt,
        replace_ride(rt.alloc(), &mut place) == Err(PlaceFault::Refused),
        100,
    );
    Ok(())
}

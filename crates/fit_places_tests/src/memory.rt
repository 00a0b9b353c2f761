// Memory is refused while a file is replaced.

use crate::ride::{
    BESIDE, Stands, expect, folder, is_free, other_is_kept, replace_ride, ride_left,
};
use fit_places::PlaceFault;

// Run with each allocation refused in turn: the old ride is there, or the new one after `Ok`, and nothing beside it.
#[test]
fn refused_memory_replaces_nothing(rt: HostRuntime) -> Result<(), PlaceFault> {
    let mut place = folder(rt.alloc(), true, true)?;
    let (done, now) = match replace_ride(rt.alloc(), &mut place) {
        Ok(()) => (true, Stands::New),
        Err(fault) => (fault == PlaceFault::Memory, Stands::Old),
    };
    expect(&rt, done && ride_left(&place, true, 0) == Some(now), 0);
    expect(&rt, other_is_kept(&place) && is_free(&place, BESIDE), 0);
    Ok(())
}

// One call of the place fails, and then each later one.

use crate::ride::{
    BESIDE, Stands, expect, folder, is_free, other_is_kept, replace_ride, ride_left,
};
use fit_places::PlaceFault;
use std::alloc::Global;
use std::process::Abort;

// What a run leaves in which the call after so many others fails. There are `all` calls, and the last of the first `moved` is the move.
fn expect_fault(
    rt: &impl Abort,
    alloc: Global,
    has_old: bool,
    moved: u32,
    all: u32,
    calls: u32,
) -> Result<(), PlaceFault> {
    let mut place = folder(alloc, has_old, true)?;
    place.fail_after(calls);
    let done = replace_ride(alloc, &mut place);
    let old = if has_old {
        Stands::Old
    } else {
        Stands::Nothing
    };
    let now = ride_left(&place, has_old, 0);
    expect(
        rt,
        done == if calls < all {
            Err(PlaceFault::Failed)
        } else {
            Ok(())
        },
        calls,
    );
    expect(
        rt,
        now == Some(if calls < moved { old } else { Stands::New }),
        calls,
    );
    expect(rt, other_is_kept(&place) && is_free(&place, BESIDE), calls);
    Ok(())
}

#[test]
fn one_call_fails(rt: HostRuntime) -> Result<(), PlaceFault> {
    // With an old file: look, lock, open, create, copy the mode, write, sync, move, sync the file again, sync the folder.
    for calls in 0..12 {
        expect_fault(&rt, rt.alloc(), true, 8, 10, calls)?;
    }
    // Without one: no lock, and no mode.
    for calls in 0..10 {
        expect_fault(&rt, rt.alloc(), false, 6, 8, calls)?;
    }
    Ok(())
}

// The power goes off at each call of the place.

use crate::ride::{Stands, expect, folder, other_is_kept, replace_ride, ride_left};
use fit_places::PlaceFault;
use std::alloc::Global;
use std::process::Abort;

// What a power cut after so many calls may leave of the ride: its old bytes or the new ones, with its mode. After all calls, the new ones. The
// last of `moved` calls is the move.
fn expect_cut(
    rt: &impl Abort,
    alloc: Global,
    has_old: bool,
    moved: u32,
    all: u32,
    calls: u32,
) -> Result<(), PlaceFault> {
    let mut place = folder(alloc, has_old, true)?;
    place.cut_after(calls);
    let done = replace_ride(alloc, &mut place);
    expect(rt, done.is_ok() == (calls >= all), calls);
    let old = if has_old {
        Stands::Old
    } else {
        Stands::Nothing
    };
    let is_new = calls >= moved;
    expect(
        rt,
        ride_left(&place, has_old, 0) == Some(if is_new { Stands::New } else { old }),
        calls,
    );
    let before = if is_new && calls < all {
        Some(old)
    } else {
        None
    };
    expect(rt, ride_left(&place, has_old, 1) == before, calls);
    expect(
        rt,
        ride_left(&place, has_old, 2).is_none() && other_is_kept(&place),
        calls,
    );
    Ok(())
}

#[test]
fn power_goes_off_at_each_call(rt: HostRuntime) -> Result<(), PlaceFault> {
    for calls in 0..12 {
        expect_cut(&rt, rt.alloc(), true, 8, 10, calls)?;
    }
    for calls in 0..10 {
        expect_cut(&rt, rt.alloc(), false, 6, 8, calls)?;
    }
    Ok(())
}

// On a FAT card the moved file is not kept before it is synced again, which is the call after the move.
#[test]
fn a_card_may_lose_what_was_moved(rt: HostRuntime) -> Result<(), PlaceFault> {
    for calls in 0..12 {
        let mut place = folder(rt.alloc(), true, false)?;
        place.cut_after(calls);
        let done = replace_ride(rt.alloc(), &mut place);
        expect(&rt, done.is_ok() == (calls >= 10), calls);
        let now = match calls {
            0..8 => Stands::Old,
            8 => Stands::Unsynced,
            _ => Stands::New,
        };
        expect(&rt, ride_left(&place, true, 0) == Some(now), calls);
        expect(&rt, other_is_kept(&place), calls);
    }
    Ok(())
}

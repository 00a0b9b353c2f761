// Rides with a power cut or a failure at each call of the device, and recoveries with one at each of their calls. A recovery
// finds what was committed, or what a commit had begun to commit.

ghost use Rattle.std.specs.Prelude.{◌≤◌, true};
ghost use Rattle.fit_disk.specs.Memory.{memory_story};
ghost use Rattle.fit_recorder.specs.Calls.Recorder.{GoesOn};

use super::stopping::FULL;
use super::{EMPTY, RUN, TIME, copy_of, heart_rate, one, reported_in, sums_up};
use crate::equality::equal;
use fit_activity::{Entry, Sample, Summary};
use fit_disk::{Memory, Which};
use fit_recorder::{RecFault, Recorder, recover};
use std::alloc::Global;
use std::process::Abort;
use std::test::Fail;

// How many choices of noise each power cut of the ride with commits is tried with, beside the four without noise.
const NOISES: u32 = 40;

// How many calls of the device that ride makes: eleven for the start, six for the first commit, eight for each of the four that
// close a gate, and eleven for the stop. Its entries wait in the page.
const CALLS: u32 = 11 + (6 + 4 * 8) + 11;

// The same of the long ride, which writes a full page before each of its two commits.
const LONG_CALLS: u32 = 11 + (1 + 6) + (1 + 8) + 11;

// More calls than a recovery of a ride makes.
const RECOVERY_CALLS: u32 = 100;

// An entry, and whether a commit follows.
type Step = (Entry, bool);

// Entries of each kind.
static WITH_COMMITS: [Step; 10] = [
    (Entry::Sample(FULL), true),
    (rate!(1, 101), false),
    (Entry::Lap(TIME + 2), true),
    (Entry::Pause(TIME + 4), false),
    (Entry::Resume(TIME + 6), true),
    (
        Entry::Sample(Sample {
            time: TIME + 6,
            distance: Some(4000),
            ..EMPTY
        }),
        false,
    ),
    (
        Entry::Sample(Sample {
            time: TIME + 7,
            ..EMPTY
        }),
        true,
    ),
    (Entry::Lap(TIME + 7), true),
    (rate!(8, 102), false),
    (Entry::Stop(TIME + 9), false),
];

// Two hundred samples and a stop, each 32 seconds after the one before.
fn long_ride(alloc: Global) -> Result<Vec<Step>, Fail> {
    let mut ride = Vec::new(alloc);
    for number in 1..=200 {
        ride.push((heart_rate(TIME + 32 * number, 100), number % 100 == 0))?;
    }
    ride.push((Entry::Stop(TIME + 32 * 201), false))?;
    Ok(ride)
}

// How many entries are committed, None if no start is; and how many the last call that failed had begun to commit.
#[derive(Clone, Copy)]
struct Way {
    committed: Option<usize>,
    begun: Option<usize>,
}

// Hands in the entry of this number, and commits it if a commit follows. Returns whether no call failed.
fn take_step(
    recorder: &mut Recorder<Memory>,
    entry: &Entry,
    has_commit: bool,
    number: usize,
    way: &mut Way,
) -> bool
    requires { GoesOn true memory_story recorder.old }
    ensures { GoesOn true memory_story recorder.new }
{
    let is_stop = matches!(entry, Entry::Stop(_));
    if is_stop {
        way.begun = Some(number);
    }
    if one(recorder, entry).is_err() {
        return false;
    }
    if is_stop {
        way.committed = Some(number);
    }
    if !has_commit {
        return true;
    }
    way.begun = Some(number);
    if recorder.commit().is_err() {
        return false;
    }
    way.committed = Some(number);
    true
}

// Records the ride until a call fails.
fn go_on(recorder: &mut Recorder<Memory>, ride: &[Step]) -> Way
    requires { GoesOn true memory_story recorder.old }
{
    let mut way = Way {
        committed: Some(0),
        begun: Some(0),
    };
    let mut number: usize = 0;
    for (entry, has_commit) in ride {
        number = number.saturating_add(1);
        if !take_step(recorder, entry, *has_commit, number, &mut way) {
            return way;
        }
    }
    way
}

// What happens to a call of the device.
#[derive(Clone, Copy, Debug)]
pub(super) enum Trouble {
    Cut,
    Failure,
}

impl Trouble {
    // Schedules it for the k-th call from now.
    pub(super) fn befall(self, disk: &mut Memory, k: u32)
        requires { 1 ≤ k }
    {
        match self {
            Trouble::Cut => disk.cut_at(k),
            Trouble::Failure => disk.fail_at(k),
        }
    }
}

// The disk after the ride with trouble at its k-th call, and how far the ride came.
fn ride_with(alloc: Global, ride: &[Step], trouble: Trouble, k: u32) -> (Memory, Way)
    requires { 1 ≤ k }
{
    let mut disk = Memory::new(alloc);
    trouble.befall(&mut disk, k);
    match Recorder::start(disk, RUN) {
        Err((disk, _)) => (
            disk,
            Way {
                committed: None,
                begun: Some(0),
            },
        ),
        Ok(mut recorder) => {
            let way = go_on(&mut recorder, ride);
            (recorder.into_disk(), way)
        }
    }
}

// What a recovery made of a disk: the disk before and after it, and its answer.
#[derive(Drop)]
struct Recovery {
    before: Memory,
    after: Memory,
    answer: Result<Summary, RecFault>,
}

impl Recovery {
    fn of(alloc: Global, mut disk: Memory) -> Result<Recovery, RecFault> {
        let before = copied(alloc, &disk)?;
        let answer = recover(&mut disk);
        Ok(Recovery {
            before,
            after: disk,
            answer,
        })
    }
}

fn copied(alloc: Global, disk: &Memory) -> Result<Memory, RecFault> {
    copy_of(
        alloc,
        disk.content(Which::Data),
        disk.content(Which::Journal),
    )
}

// How many entries of the ride the file of a recovery encodes. None if nothing was recorded.
fn entries_in(
    rt: &impl Abort,
    alloc: Global,
    ride: &[Step],
    recovery: &Recovery,
) -> Result<Option<usize>, Fail> {
    if recovery.answer == Err(RecFault::NothingRecorded) {
        return Ok(None);
    }
    sums_up(rt, alloc, &recovery.after, recovery.answer?)?;
    let mut entries = Vec::new(alloc);
    for (entry, _) in ride {
        entries.push(*entry)?;
    }
    let reported = reported_in(alloc, &recovery.after, &entries)?;
    assert!(rt; reported.is_some());
    Ok(reported)
}

// The answers of a recovery with trouble at its k-th call, and of another after a power cut with these choices.
fn recover_twice(
    disk: &mut Memory,
    trouble: Trouble,
    k: u32,
    choices: &[u8],
) -> [Result<Summary, RecFault>; 2]
    requires { 1 ≤ k }
{
    trouble.befall(disk, k);
    let first = recover(disk);
    disk.cycle(choices);
    [first, recover(disk)]
}

// Cuts the power at each call of a recovery, or lets that call fail. Asserts that another recovery after it gives the same answer and
// the same file. Returns how many recoveries there were.
fn recover_again(
    rt: &impl Abort,
    alloc: Global,
    recovery: &Recovery,
    trouble: Trouble,
    k: u32,
    choices: &[u8],
) -> Result<u32, Fail> {
    let whole = recovery.after.content(Which::Data);
    for again in 1..=RECOVERY_CALLS {
        let mut copy = copied(alloc, &recovery.before)?;
        let [first, second] = recover_twice(&mut copy, trouble, again, choices);
        assert_eq!(rt;
            (second, copy.content(Which::Data)),
            (recovery.answer, whole),
            "call {k}, and call {again} of the recovery"
        );
        if first != Err(RecFault::Device) {
            return Ok(again);
        }
    }
    assert!(rt; false, "a recovery of more calls");
    Ok(0)
}

// Cuts the power at the k-th call of the ride, or lets that call fail, and then does the same at each call of the recovery, with
// these choices for what the power cuts leave. Returns how many recoveries there were.
fn recover_from(
    rt: &impl Abort,
    alloc: Global,
    ride: &[Step],
    trouble: Trouble,
    k: u32,
    choices: &[u8],
) -> Result<u32, Fail>
    requires { 1 ≤ k }
{
    let (mut disk, way) = ride_with(alloc, ride, trouble, k);
    disk.cycle(choices);
    let recovery = Recovery::of(alloc, disk)?;
    let reported = entries_in(rt, alloc, ride, &recovery)?;
    assert!(rt;
        reported == way.committed || reported == way.begun,
        "call {k}"
    );
    recover_again(rt, alloc, &recovery, trouble, k, choices)
}

// The next number of a pseudorandom sequence.
fn next_noise(noise: u32) -> u32 {
    let first = noise ^ (noise << 13);
    let second = first ^ (first >> 17);
    second ^ (second << 5)
}

// Fills the choices of a power cut. The first kinds are no choices, all open gates, all FF and all 00; each later one is noise with
// many open gates in it. Returns how many choices there are.
fn choose(kind: u32, noise: &mut u32, choices: &mut [u8; 1024]) -> usize
    ensures { result ≤ 1024 }
{
    if kind == 0 {
        return 0;
    }
    for place in 0..1024 {
        *noise = next_noise(*noise);
        let [first, second, _, _] = noise.to_le_bytes();
        choices[place] = match kind {
            1 => 0xA5,
            2 => 0xFF,
            3 => 0x00,
            _ => if second % 4 == 0 { 0xA5 } else { first },
        };
    }
    1024
}

// Tries trouble at each of so many calls of a ride, with each kind of choices. Returns how many recoveries there were.
fn try_each_call(
    rt: &impl Abort,
    alloc: Global,
    ride: &[Step],
    calls: u32,
    trouble: Trouble,
    kinds: u32,
) -> Result<u32, Fail> {
    let mut choices = [0; 1024];
    let mut noise = 0x2545_F491;
    let mut recoveries: u32 = 0;
    for k in 1..=calls {
        for kind in 0..kinds {
            let count = choose(kind, &mut noise, &mut choices);
            let made = recover_from(rt, alloc, ride, trouble, k, &choices[..count])?;
            recoveries = recoveries.saturating_add(made);
        }
    }
    Ok(recoveries)
}

// How many entries are committed, and how many were begun, if the power goes at the k-th call of the ride.
fn way_until(alloc: Global, ride: &[Step], k: u32) -> (Option<usize>, Option<usize>)
    requires { 1 ≤ k }
{
    let (_, way) = ride_with(alloc, ride, Trouble::Cut, k);
    (way.committed, way.begun)
}

#[test]
fn the_rides_make_so_many_calls(rt: HostRuntime) -> Result<(), Fail> {
    let cut = way_until(rt.alloc(), &WITH_COMMITS, CALLS);
    equal(&rt, cut, (Some(8), Some(10)));
    let whole = way_until(rt.alloc(), &WITH_COMMITS, CALLS + 1);
    equal(&rt, whole, (Some(10), Some(10)));
    let ride = long_ride(rt.alloc())?;
    let cut = way_until(rt.alloc(), &ride, LONG_CALLS);
    equal(&rt, cut, (Some(200), Some(201)));
    let whole = way_until(rt.alloc(), &ride, LONG_CALLS + 1);
    equal(&rt, whole, (Some(201), Some(201)));
    Ok(())
}

#[test]
fn power_cuts_leave_what_was_committed(rt: HostRuntime) -> Result<(), Fail> {
    let kinds = 4 + NOISES;
    let recoveries = try_each_call(&rt, rt.alloc(), &WITH_COMMITS, CALLS, Trouble::Cut, kinds)?;
    assert!(rt; recoveries > 0);
    Ok(())
}

#[test]
fn failures_leave_what_was_committed(rt: HostRuntime) -> Result<(), Fail> {
    let kinds = 4 + NOISES;
    let recoveries = try_each_call(
        &rt,
        rt.alloc(),
        &WITH_COMMITS,
        CALLS,
        Trouble::Failure,
        kinds,
    )?;
    assert!(rt; recoveries > 0);
    Ok(())
}

#[test]
fn full_pages_leave_what_was_committed(rt: HostRuntime) -> Result<(), Fail> {
    let ride = long_ride(rt.alloc())?;
    for trouble in [Trouble::Cut, Trouble::Failure] {
        let recoveries = try_each_call(&rt, rt.alloc(), &ride, LONG_CALLS, trouble, 8)?;
        assert!(rt; recoveries > 0);
    }
    Ok(())
}

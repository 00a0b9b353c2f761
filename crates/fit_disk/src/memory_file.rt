// One file of the memory disk.

ghost use Rattle.std.specs.Prelude.{◌≡◌, ℕ, ◌+◌, ◌^◌, ◌<◌, ◌≤◌, max, min, [], length, take, slice_index, vec_len, vec_capacity, if◌then◌else◌, OnOk};
ghost use Rattle.fit_disk.specs.Content.{over};
ghost use Rattle.fit_disk.specs.Stored.{Stored, at_rest, write_begun, cut_begun};
ghost use Rattle.fit_disk.specs.Cycle.{is_outside, is_kept, free_below, length_chosen, byte_by, left_by, taken_by};

use crate::ranges::add_range;
use std::alloc::{AllocError, Global};

// What reads give, and since the last sync the least and the greatest length and the written ranges, each a place and a number of bytes.
#[derive(Drop)]
pub(crate) struct MemoryFile {
    seen: Vec<u8>,
    least: usize,
    pub(crate) greatest: usize,
    written: Vec<(usize, usize)>,
    ghost order: { least ≤ greatest },
    // A power cut needs no memory.
    ghost room: { greatest ≤ vec_capacity seen },
}

impl MemoryFile {
    ghost use Rattle.fit_disk.specs.MemoryFile.{IsHalf, FileHasRoom};

    pub(crate) fn new(alloc: Global) -> MemoryFile
        ensures { IsHalf result (at_rest []) }
    {
        MemoryFile {
            seen: Vec::new(alloc),
            least: 0,
            greatest: 0,
            written: Vec::new(alloc),
        }
    }

    pub(crate) fn content(&self) -> &[u8]
        ensures { (file : Stored) → IsHalf self.now file → result.now ≡ file.seen }
    {
        &self.seen
    }

    // Takes the memory that a write up to this end and a later power cut need.
    pub(crate) fn make_room(&mut self, end: usize) -> Result<(), AllocError>
        ensures same { (file : Stored) → IsHalf self.old file → IsHalf self.new file }
        ensures ok { OnOk result (FileHasRoom self.new end) }
    {
        self.written.reserve(1)?;
        if end > self.seen.len() {
            self.seen.reserve(end - self.seen.len())?;
        }
        Ok(())
    }

    // Begins a write, and does either all of it or nothing.
    pub(crate) fn begin_write(&mut self, at: usize, bytes: &[u8], is_done: bool)
        requires within { at ≤ vec_len self.old.seen }
        requires room { FileHasRoom self.old (at + length bytes.now) }
        ensures begun { (file : Stored) → IsHalf self.old file → IsHalf self.new
            (write_begun at (length bytes.now) (if is_done then over at bytes.now file.seen
            else file.seen) file) }
        ensures greatest { self.new.greatest ≡ max self.old.greatest (at + length bytes.now) }
    {
        add_range(&mut self.written, at, bytes.len());
        self.greatest = self.greatest.max(at + bytes.len());
        if is_done {
            put(&mut self.seen, at, bytes);
        }
    }

    // Begins a cut, and does either all of it or nothing.
    pub(crate) fn begin_cut(&mut self, len: usize, is_done: bool)
        requires { len ≤ vec_len self.old.seen }
        ensures { (file : Stored) → IsHalf self.old file → IsHalf self.new
            (cut_begun len (if is_done then take len file.seen else file.seen) file) }
    {
        self.least = self.least.min(len);
        if is_done {
            self.seen.truncate(len);
        }
    }

    // Keeps all that reads give.
    pub(crate) fn sync(&mut self)
        ensures { (file : Stored) → IsHalf self.old file → IsHalf self.new (at_rest file.seen) }
    {
        self.rest();
    }

    // Leaves what a power cut does for these choice bytes, and returns how many of them it took.
    pub(crate) fn cycle(&mut self, choices: &[u8]) -> usize
        ensures left { (file : Stored) → IsHalf self.old file
            → IsHalf self.new (at_rest (left_by file choices.now)) }
        ensures taken { (file : Stored) → IsHalf self.old file
            → result ≡ min (taken_by file choices.now) (length choices.now) }
        ensures within { result ≤ length choices.now }
        ensures greatest { self.new.greatest ≤ self.old.greatest }
    {
        let len = chosen_length(self.least, self.greatest, choices);
        set_length(&mut self.seen, len);
        let taken = vary(&mut self.seen, self.least, &self.written, choices);
        self.rest();
        taken.min(choices.len())
    }

    // From now on a power cut leaves exactly what reads give.
    fn rest(&mut self)
        ensures seen { self.new.seen ≡ self.old.seen }
        ensures least { self.new.least ≡ vec_len self.old.seen }
        ensures greatest { self.new.greatest ≡ vec_len self.old.seen }
        ensures written { self.new.written.items ≡ [] }
    {
        self.written.clear();
        self.least = self.seen.len();
        self.greatest = self.seen.len();
    }
}

// Writes over what is there and past the end. There is room for it.
fn put(seen: &mut Vec<u8>, at: usize, bytes: &[u8])
    requires within { at ≤ vec_len seen.old }
    requires room { at + length bytes.now ≤ vec_capacity seen.old }
    ensures items { seen.new.items ≡ over at bytes.now seen.old.items }
    ensures room { vec_capacity seen.old ≤ vec_capacity seen.new }
{
    let end = at + bytes.len();
    if end <= seen.len() {
        seen[at..end].copy_from_slice(bytes);
    } else {
        seen.truncate(at);
        let _ = seen.extend_from_slice(bytes);
    }
}

// Sets the length of the content. There is room for it.
fn set_length(seen: &mut Vec<u8>, len: usize)
    requires { len ≤ vec_capacity seen.old }
    ensures long { vec_len seen.new ≡ len }
    ensures same { (place : ℕ) → place < len → place < vec_len seen.old
        → slice_index seen.new.items place ≡ slice_index seen.old.items place }
    ensures room { vec_capacity seen.old ≤ vec_capacity seen.new }
{
    let _ = seen.resize(len, 0);
}

// The choice byte at a place. Missing ones are 0.
fn choice(choices: &[u8], place: usize) -> u8
    ensures { result ≡ slice_index choices.now place }
{
    choices.get(place).copied().unwrap_or(0)
}

// The length that the first four choice bytes choose.
fn chosen_length(least: usize, greatest: usize, choices: &[u8]) -> usize
    requires order { least ≤ greatest }
    requires fits { greatest < 2 ^ 63 }
    ensures length { result ≡ length_chosen least greatest choices.now }
    ensures least { least ≤ result }
    ensures greatest { result ≤ greatest }
{
    let number = u32::from_le_bytes([
        choice(choices, 0),
        choice(choices, 1),
        choice(choices, 2),
        choice(choices, 3),
    ]);
    least + number as usize % (greatest - least + 1)
}

// Whether a place is in none of the ranges.
fn is_outside_of(place: usize, ranges: &[(usize, usize)]) -> bool
    ensures { result ≡ is_outside place ranges.now }
{
    for (at, count) in ranges {
        if place >= *at && place - *at < *count {
            return false;
        }
    }
    true
}

// Whether the byte at a place is kept.
fn is_kept_at(least: usize, written: &[(usize, usize)], place: usize) -> bool
    ensures { result ≡ is_kept least written.now place }
{
    place < least && is_outside_of(place, written)
}

// Sets each place that is not kept to the next choice byte, and returns how many were taken, including the four for the length.
fn vary(seen: &mut Vec<u8>, least: usize, written: &[(usize, usize)], choices: &[u8]) -> usize
    ensures long { vec_len seen.new ≡ vec_len seen.old }
    ensures room { vec_capacity seen.new ≡ vec_capacity seen.old }
    ensures each { (place : ℕ) → place < vec_len seen.old
        → slice_index seen.new.items place
        ≡ byte_by least written.now seen.old.items choices.now place }
    ensures taken { result ≡ 4 + free_below least written.now (vec_len seen.old) }
{
    let mut taken = 4;
    for place in 0..seen.len() {
        if !is_kept_at(least, written, place) {
            seen[place] = choice(choices, taken);
            taken += 1;
        }
    }
    taken
}

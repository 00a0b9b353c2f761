// Rows that do not belong where they are, such as older content of a card.

ghost use Rattle.std.specs.Prelude.{◌≡◌, ◌≤◌, ◌<◌, ◌+◌, ◌*◌, ℕ, IfSome, drop, length};
ghost use Rattle.fit_grammar.specs.Calls.Table.{definition_in};
ghost use Rattle.fit_mending.specs.Private.Counting.{KeepsLooks, TakesLooks};
ghost use Rattle.fit_mending.specs.Private.Looking.{AsksSome, FollowsRow, IsEndOf};
ghost use Rattle.fit_mending.specs.Steady.{HasSound, IsTrusted};

use crate::fitting::after_fault;
use crate::looks::Looks;
use crate::progress::Progress;
use crate::trial::{Need, follows, is_trusted};
use fit_grammar::{Latest, Step, take_over};

// What has to follow a row for it to be stray.
const AFTER_STRAY: Need = Need {
    worth: 24,
    at_end: 24,
    at_fault: u32::MAX,
    idle: 16,
    gap: 0,
};

// A row of so many bytes is not stray, unless times leap where it begins, by at least half of the time that it takes.
const LONG: usize = 4_608;

// In how many bytes after a row something has to follow.
const SOON: usize = 512;

// How many rows are stray together at most, since one may be broken off where a definition is missing.
const MOST_ROWS: usize = 16;

// What follows a row soon.
enum Sequel<'a> {
    // Items that fit after it.
    OfRow(&'a [u8]),
    // Items that fit what was before it, and not what it ends with.
    OfBefore(&'a [u8]),
    Unrelated,
}

/// How many bytes are left out at the front, where items that fit begin: those up to the end of a row that is stray, or none. Before the
/// first time no row is, and none that is trusted is left out.
pub(crate) fn count_stray<'a>(
    bytes: &'a [u8],
    latest: &Latest<'a>,
    progress: &Progress,
    looks: &mut Looks,
) -> usize
    ensures within { result ≤ length bytes.now }
    ensures none { (place : ℕ) → place < result → IsTrusted (definition_in latest.now) progress.now (drop place bytes.now) → ⊥ }
    ensures some { HasSound (definition_in latest.now) progress.now bytes.now
        → HasSound (definition_in latest.now) progress.now (drop result bytes.now) }
    ensures looks { KeepsLooks looks.old looks.new (256 * result) }
{
    if !progress.is_timed() {
        return 0;
    }
    match after_stray(bytes, latest, progress, looks) {
        Some(rest) if looks.are_left() => first_trusted(
            bytes,
            bytes.len().saturating_sub(rest.len()),
            latest,
            progress,
            looks,
        ),
        _ => 0,
    }
}

// The first place before this one at which a trusted row begins, or else this one.
fn first_trusted<'a>(
    bytes: &'a [u8],
    end: usize,
    latest: &Latest<'a>,
    progress: &Progress,
    looks: &mut Looks,
) -> usize
    requires { end ≤ length bytes.now }
    ensures within { result ≤ end }
    ensures none { (place : ℕ) → place < result → IsTrusted (definition_in latest.now) progress.now (drop place bytes.now) → ⊥ }
    ensures some { result < end → HasSound (definition_in latest.now) progress.now (drop result bytes.now) }
    ensures looks { TakesLooks looks.old looks.new (256 * (result + 1)) }
{
    for place in 0..end {
        if is_trusted(&bytes[place..], latest, progress, looks) {
            return place;
        }
    }
    end
}

/// The bytes after the row at the front, if it is stray: soon after it items follow that fit what was before it, and not what it ends
/// with.
pub(crate) fn after_stray<'a>(
    bytes: &'a [u8],
    latest: &Latest<'a>,
    progress: &Progress,
    looks: &mut Looks,
) -> Option<&'a [u8]>
    ensures end { IfSome result (λ rest. IsEndOf bytes.now rest.now) }
    ensures some { IfSome result (λ rest. HasSound (definition_in latest.now) progress.now rest.now) }
    ensures looks { KeepsLooks looks.old looks.new 0 }
{
    let mut own = latest.again();
    let mut later = *progress;
    let mut rest = bytes;
    for _ in 0..MOST_ROWS {
        let others = after_row(rest, progress, &mut own, &mut later, looks)?;
        match look_after(others, latest, progress, &own, &later, looks) {
            Sequel::OfRow(next) => rest = next,
            Sequel::OfBefore(next) => return Some(next),
            Sequel::Unrelated => return None,
        }
    }
    None
}

// The bytes after the row of items that fit, if it is not long, where this was before it. The definitions are then those after it, and the
// progress is that before its last time, which may have changed.
fn after_row<'a>(
    bytes: &'a [u8],
    before: &Progress,
    latest: &mut Latest<'a>,
    progress: &mut Progress,
    looks: &mut Looks,
) -> Option<&'a [u8]>
    ensures end { IfSome result (λ rest. IsEndOf bytes.now rest.now) }
    ensures looks { KeepsLooks looks.old looks.new 0 }
{
    let mut now = *progress;
    let mut rest = bytes;
    let mut leap = 0;
    for _ in 0..bytes.len() {
        if !looks.are_left() {
            return None;
        }
        let Step::Item(item, used) = looks.look(rest, latest) else {
            return Some(rest);
        };
        let (own, others) = rest.split_at(used);
        let mut later = now;
        if later.judge(&item, own).is_none() {
            return Some(rest);
        }
        if later.seconds_after(&now) > 0 {
            *progress = now;
        }
        now = later;
        take_over(latest, &item);
        rest = others;
        let seconds = now.seconds_after(before);
        if leap == 0 {
            leap = seconds;
        }
        if bytes.len().saturating_sub(rest.len()) >= LONG && seconds / 3 >= leap {
            return None;
        }
    }
    None
}

// What follows a row soon, if `latest` and `progress` are what was before it, and `own` and `later` what it ends with. What fits after the row
// comes first: an item beside it may have changed.
fn look_after<'a>(
    bytes: &'a [u8],
    latest: &Latest<'a>,
    progress: &Progress,
    own: &Latest<'a>,
    later: &Progress,
    looks: &mut Looks,
) -> Sequel<'a>
    ensures is { FollowsRow (definition_in latest.now) progress.now bytes.now result }
    ensures looks { KeepsLooks looks.old looks.new 0 }
{
    if let Some(rest) = after_soon(bytes, own, later, after_fault(later), looks) {
        return Sequel::OfRow(rest);
    }
    match after_soon(bytes, latest, progress, &AFTER_STRAY, looks) {
        Some(rest) => Sequel::OfBefore(rest),
        None => Sequel::Unrelated,
    }
}

// The bytes from the first place soon after the front from which items follow that are worth so much.
fn after_soon<'a>(
    bytes: &'a [u8],
    latest: &Latest<'a>,
    progress: &Progress,
    need: &Need,
    looks: &mut Looks,
) -> Option<&'a [u8]>
    ensures end { IfSome result (λ rest. IsEndOf bytes.now rest.now) }
    ensures some { AsksSome need.now → IfSome result (λ rest. HasSound (definition_in latest.now) progress.now rest.now) }
    ensures looks { KeepsLooks looks.old looks.new 0 }
{
    for count in 0..bytes.len().min(SOON) {
        if !looks.are_left() {
            return None;
        }
        let rest = &bytes[count..];
        if follows(rest, latest, progress, need, looks) {
            return Some(rest);
        }
    }
    None
}

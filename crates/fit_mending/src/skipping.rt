// Goes on after faults.

ghost use Rattle.std.specs.Prelude.{◌≡◌, ◌≤◌, ◌<◌, ◌+◌, ◌-◌, ◌*◌, ◌∷◌, ◌++◌, ◌↔◌, ℕ, List, [], true, false, length, drop, min, max, IfOk, IfSome, IsNone, IsTrue, OnOk};
ghost use Rattle.fit_grammar.specs.Format.Item.{Item as AnyItem};
ghost use Rattle.fit_grammar.specs.Format.Records.{in_force, Records};
ghost use Rattle.fit_grammar.specs.Calls.Step.{IsStep, item_of};
ghost use Rattle.fit_grammar.specs.Calls.Table.{definition_in, in_force_after};
ghost use Rattle.fit_mending.specs.declared.pieces.Piece.{Piece as AnyPiece};
ghost use Rattle.fit_mending.specs.Pieces.{AreCutFrom, CutsAfter, CutsFaults, IsSkipped, KeepsSteady, kept_row, most_looks};
ghost use Rattle.fit_mending.specs.Others.{FindsOthers};
ghost use Rattle.fit_mending.specs.Form.{comes_from_unwritten as comes_from_unwritten_of};
ghost use Rattle.fit_mending.specs.Judged.{anew as anew_of};
ghost use Rattle.fit_mending.specs.Private.Counting.{IsFirst, KeepsLooks, PassesLooks, beyond};
ghost use Rattle.fit_mending.specs.Private.Cut.{AddsPiece, CutsOn, HasAdded, HasNoTrusted, LeavesFrom, PassesRow, ReadsAdded};
ghost use Rattle.fit_mending.specs.Private.Looking.{PassesOne, ReadsItem};
ghost use Rattle.fit_mending.specs.Private.Passed.{HasPassed};
ghost use Rattle.fit_mending.specs.Reading.{IsFollowed, IsWholeBy, MayBegin, ReadsFrom};
ghost use Rattle.fit_mending.specs.Steady.{HasSound, HasSteady, IsSteady, IsTrusted, Sized, row_size};

use crate::fitting::{fits_after_fault, fits_in_row};
use crate::form::{comes_from_unwritten, is_unwritten, runs_into_unwritten};
use crate::looks::Looks;
use crate::pieces::{Piece, Skipped};
use crate::progress::Progress;
use crate::rides::{other_rides, own_ride};
use crate::row::{latest_after, pass_row, row_of};
use crate::stray::count_stray;
use crate::taking::TakesPieces;
use crate::trial::{Need, follows, is_trusted};
use fit_grammar::{Item, Latest, Step, longest_front, step_after, take_over};
use std::alloc::{AllocError, Global};

// What has to follow if times, distances or positions begin anew, as after a clock was set: more than old content has.
const ANEW: Need = Need {
    worth: 768,
    at_end: 768,
    at_fault: u32::MAX,
    idle: 64,
    gap: 0,
};

// In how many bytes items that fit what was before have priority over those that begin anew: more than a cluster of a card.
const SOON: usize = 65_536;

/// Cuts the bytes from `front` on into pieces, one after another. Some are kept: together they are a row of whole items. After a fault
/// the next piece is kept from the first place on from which items follow that fit. A fault is where no whole item is, or one that no
/// device writes, a file_id after a record, or a time, a distance or a position that falls or leaps. The data message before a fault is
/// left out too, since a hole may cut it, unless nobody wrote the bytes after it, or they end. Where times fall after more than a few
/// records, another ride follows, which is left out. If the bytes are `trusted`, since their checksum is right, and are a row of whole
/// items, all are kept. A row at the front in which nothing is doubtful is kept up to its last 32 items, at least, and after a fault it
/// goes on no later than at the first trusted row: 256 items in which nothing is doubtful, of which the first is a strong sign. At how
/// many items it looks ahead is bounded by the number of bytes.
/// `known` has definitions that are known before the bytes, or none. From the first fault on they are in force for the local numbers that
/// have no definition of the bytes' own, and the new row begins with them.
pub fn skip_faults(
    alloc: Global,
    known: &[u8],
    bytes: &[u8],
    front: usize,
    trusted: bool,
) -> Result<Skipped, AllocError>
    requires within { front ≤ length bytes.now }
    requires known { (items : List AnyItem) × Records known.now items }
    ensures skipped { IfOk result (IsSkipped known.now bytes.now front trusted) }
    ensures short { IfOk result
        (λ skipped. length skipped.row.items ≤ length known.now + length bytes.now) }
    ensures others { IfOk result (FindsOthers known.now bytes.now) }
    ensures looks { IfOk result (λ skipped. skipped.looks ≤ most_looks (length bytes.now)) }
{
    let latest = latest_after(known);
    let mut pieces = Vec::new(alloc);
    let mut looks = Looks::new();
    cut_after(bytes, front, trusted, &latest, &mut looks, &mut pieces)?;
    let row = row_of(alloc, known, bytes, pieces.as_slice())?;
    let others = other_rides(
        alloc,
        bytes,
        &latest,
        pieces.as_slice(),
        own_ride(row.as_slice()),
    )?;
    Ok(Skipped {
        row,
        known: known.len(),
        pieces,
        others,
        looks: looks.taken,
    })
}

/// Cuts the bytes from `front` on as `skip_faults` does if nothing is known before them, into what takes the pieces. It takes no memory,
/// and fails only if a piece is not taken. Returns at how many items it looked ahead.
pub fn cut_faults<T: TakesPieces>(
    bytes: &[u8],
    front: usize,
    trusted: bool,
    pieces: &mut T,
) -> Result<u64, T::Fault>
    requires within { front ≤ length bytes.now }
    requires none { T.has_taken pieces.old [] }
    ensures place { T.place pieces.new ≡ T.place pieces.old }
    ensures cut { OnOk result ((taken : List AnyPiece) × T.has_taken pieces.new taken
        × CutsFaults bytes.now front trusted taken) }
    ensures looks { IfOk result (λ looks. looks ≤ most_looks (length bytes.now)) }
{
    let mut looks = Looks::new();
    cut_after(bytes, front, trusted, &Latest::new(), &mut looks, pieces)?;
    Ok(looks.taken)
}

// The same after definitions that are known.
fn cut_after<'a, T: TakesPieces>(
    bytes: &'a [u8],
    front: usize,
    trusted: bool,
    known: &Latest<'a>,
    looks: &mut Looks,
    pieces: &mut T,
) -> Result<(), T::Fault>
    requires within { front ≤ length bytes.now }
    requires first { IsFirst looks.old }
    requires none { T.has_taken pieces.old [] }
    ensures place { T.place pieces.new ≡ T.place pieces.old }
    ensures cut { OnOk result ((taken : List AnyPiece) × T.has_taken pieces.new taken
        × ((before : List AnyItem) → definition_in known.now ≡ in_force before
        → CutsAfter before bytes.now front trusted taken)) }
    ensures looks { looks.new.taken ≤ most_looks (length bytes.now) }
{
    if trusted && is_row(&bytes[front..]) {
        keep_all(bytes, front, pieces)
    } else {
        cut(bytes, front, known, looks, pieces)
    }
}

// Whether the bytes are a row of whole items.
fn is_row(bytes: &[u8]) -> bool
    ensures { IsTrue result ↔ ((items : List AnyItem) × Records bytes.now items) }
{
    longest_front(bytes) == bytes.len()
}

// One piece, if the bytes from `front` on are a row of whole items.
fn keep_all<T: TakesPieces>(bytes: &[u8], front: usize, pieces: &mut T) -> Result<(), T::Fault>
    requires within { front ≤ length bytes.now }
    requires none { T.has_taken pieces.old [] }
    requires row { (items : List AnyItem) × Records (drop front bytes.now) items }
    ensures place { T.place pieces.new ≡ T.place pieces.old }
    ensures cut { OnOk result ((taken : List AnyPiece) × T.has_taken pieces.new taken
        × ((before : List AnyItem) → AreCutFrom before bytes.now front taken)
        × (kept_row bytes.now taken ≡ drop front bytes.now)
        × KeepsSteady bytes.now front taken) }
{
    put_piece(pieces, front, bytes.len(), true)
}

// The pieces from fault to fault. Up to the first one the definitions are those of the bytes alone.
fn cut<'a, T: TakesPieces>(
    bytes: &'a [u8],
    front: usize,
    known: &Latest<'a>,
    looks: &mut Looks,
    pieces: &mut T,
) -> Result<(), T::Fault>
    requires within { front ≤ length bytes.now }
    requires first { IsFirst looks.old }
    requires none { T.has_taken pieces.old [] }
    ensures place { T.place pieces.new ≡ T.place pieces.old }
    ensures cut { OnOk result ((taken : List AnyPiece) × T.has_taken pieces.new taken
        × ((before : List AnyItem) → definition_in known.now ≡ in_force before
        → AreCutFrom before bytes.now front taken)
        × ((before : List AnyItem) → definition_in known.now ≡ in_force before
        → ReadsFrom before bytes.now front taken)
        × KeepsSteady bytes.now front taken) }
    ensures looks { looks.new.taken ≤ most_looks (length bytes.now) }
{
    let mut own = Latest::new();
    let mut progress = Progress::new();
    let end = front + pass_items(&bytes[front..], &mut own, &mut progress, looks);
    put_piece(pieces, front, end, true)?;
    let mut latest = known.again();
    pass_row(&bytes[front..end], &mut latest);
    if lends(known, &own) {
        progress.is_guessed = true;
    }
    // With the definitions that are known, the item at the fault may be none.
    let at = end + count_faulty(&bytes[end..], 0, &latest, &mut progress, looks);
    put_piece(pieces, end, at, false)?;
    cut_on(bytes, at, latest, progress, looks, pieces)
}

// Whether a local number has a definition that is known, and none of the bytes' own.
fn lends(known: &Latest<'_>, own: &Latest<'_>) -> bool {
    for local in 0..16 {
        if known.get(local).is_some() && own.get(local).is_none() {
            return true;
        }
    }
    false
}

// The pieces from a place on, after those before it.
fn cut_on<'a, T: TakesPieces>(
    bytes: &'a [u8],
    from: usize,
    latest: Latest<'a>,
    progress: Progress,
    looks: &mut Looks,
    pieces: &mut T,
) -> Result<(), T::Fault>
    requires within { from ≤ length bytes.now }
    requires allowed { looks.old.allowed ≤ 2000000 + 64 * from }
    requires beyond { beyond looks.old ≤ 275 + 275 * from }
    ensures place { T.place pieces.new ≡ T.place pieces.old }
    ensures cut { (taken : List AnyPiece) → T.has_taken pieces.old taken
        → OnOk result ((more : List AnyPiece) × T.has_taken pieces.new more
        × CutsOn bytes.now from (definition_in latest.entry) taken more
        × HasAdded taken more
        × ReadsAdded bytes.now (definition_in latest.entry) progress taken more) }
    ensures more { looks.old.taken ≤ looks.new.taken }
    ensures looks { looks.new.taken ≤ most_looks (length bytes.now) }
{
    let mut latest = latest;
    let mut progress = progress;
    let mut at = from;
    while at < bytes.len() {
        let end = at + pass_from(bytes, at, &mut latest, &mut progress, looks);
        put_piece(pieces, at, end, true)?;
        at = end + count_faulty(&bytes[end..], 1, &latest, &mut progress, looks);
        put_piece(pieces, end, at, false)?;
    }
    Ok(())
}

// Puts the piece from one place to another, if it has a byte.
fn put_piece<T: TakesPieces>(
    pieces: &mut T,
    start: usize,
    end: usize,
    kept: bool,
) -> Result<(), T::Fault>
    requires { start ≤ end }
    ensures place { T.place pieces.new ≡ T.place pieces.old }
    ensures cut { (bytes : List ℕ) (taken : List AnyPiece) → end ≤ length bytes
        → T.has_taken pieces.old taken
        → OnOk result ((more : List AnyPiece) × T.has_taken pieces.new more
        × AddsPiece bytes start end kept taken more) }
{
    if start == end {
        return Ok(());
    }
    pieces.put(Piece { start, end, kept })
}

// Passes over the items at the front that fit. Returns the number of their bytes.
fn pass_items<'a>(
    bytes: &'a [u8],
    latest: &mut Latest<'a>,
    progress: &mut Progress,
    looks: &mut Looks,
) -> usize
    ensures within { result ≤ length bytes.now }
    ensures passed { (before : List AnyItem) → definition_in latest.old ≡ in_force before
        → HasPassed before bytes.now result (definition_in latest.new) }
    // Of a row in which nothing is doubtful all but the last 32 items.
    ensures steady { (row last : List Sized) → 32 ≤ length last
        → IsSteady (definition_in latest.old) progress.old 0 bytes.now (row ++ last)
        → row_size row ≤ result }
    ensures read { PassesRow (definition_in latest.old) progress.old bytes.now result (definition_in latest.new) progress.new }
    // No trusted row goes on from there.
    ensures ends { IsTrusted (definition_in latest.new) progress.new (drop result bytes.now) → ⊥ }
    ensures looks { PassesLooks looks.old looks.new result (19 * (result + 1)) }
{
    let mut front = 0;
    while let Some((item, used)) = fitting_item(&bytes[front..], latest, progress, looks) {
        take_over(latest, &item);
        looks.pass(used);
        front += used;
    }
    front
}

// The same from a place on, where no item is passed if its first byte comes out of a stretch that nobody wrote.
fn pass_from<'a>(
    bytes: &'a [u8],
    at: usize,
    latest: &mut Latest<'a>,
    progress: &mut Progress,
    looks: &mut Looks,
) -> usize
    requires { at ≤ length bytes.now }
    ensures within { result ≤ length (drop at bytes.now) }
    ensures passed { (before : List AnyItem) → definition_in latest.old ≡ in_force before
        → HasPassed before (drop at bytes.now) result (definition_in latest.new) }
    ensures from { 1 ≤ result → comes_from_unwritten_of bytes.now at ≡ false }
    ensures steady { (row last : List Sized) → 1 ≤ result → 32 ≤ length last
        → IsSteady (definition_in latest.old) progress.old 0 (drop at bytes.now) (row ++ last)
        → row_size row ≤ result }
    ensures read { PassesRow (definition_in latest.old) progress.old (drop at bytes.now) result (definition_in latest.new) progress.new }
    ensures ends { IsTrusted (definition_in latest.new) progress.new (drop result (drop at bytes.now))
        → comes_from_unwritten_of bytes.now (at + result) ≡ true }
    ensures looks { PassesLooks looks.old looks.new result (19 * (result + 1)) }
{
    if comes_from_unwritten(bytes, at) {
        return 0;
    }
    pass_items(&bytes[at..], latest, progress, looks)
}

// The item at the front, with the number of its bytes, if it and what follows it fit. From there on the progress has it. Here it is read to be
// passed, so this is no look ahead.
fn fitting_item<'a>(
    bytes: &'a [u8],
    latest: &Latest<'a>,
    progress: &mut Progress,
    looks: &mut Looks,
) -> Option<(Item<'a>, usize)>
    ensures found { IfSome result
        (λ found. IsStep (definition_in latest.now) bytes.now (Step.Item found.0 found.1)) }
    ensures steady { (quiet : ℕ) (one : Sized) (row : List Sized) → quiet < 32 → 32 ≤ length row
        → IsSteady (definition_in latest.now) progress.old quiet bytes.now (one ∷ row)
        → PassesOne (definition_in latest.now) progress.new bytes.now one row result }
    ensures read { IfSome result
        (λ found. ReadsItem (definition_in latest.now) progress.old bytes.now found.0 found.1 progress.new) }
    ensures none { IsNone result → progress.new ≡ progress.old }
    ensures looks { KeepsLooks looks.old looks.new 19 }
{
    let Step::Item(item, used) = step_after(bytes, latest) else {
        return None;
    };
    if runs_into_unwritten(bytes, used) {
        return None;
    }
    let mut later = *progress;
    if !goes_on(bytes, latest, &mut later, looks) {
        return None;
    }
    match later.judge(&item, &bytes[..used]) {
        Some(_) => {
            if !is_whole(&item, &bytes[used..], latest, &later, looks) {
                return None;
            }
            *progress = later;
            Some((item, used))
        }
        None => None,
    }
}

// Whether no hole cuts an item that these bytes follow. A definition is judged by its form alone.
fn is_whole<'a>(
    item: &Item<'a>,
    rest: &'a [u8],
    latest: &Latest<'a>,
    progress: &Progress,
    looks: &mut Looks,
) -> bool
    ensures steady { HasSteady 1 (in_force_after (item_of item.now) (definition_in latest.now)) progress.now rest.now
        → result ≡ true }
    ensures whole { result ≡ true → IsWholeBy (item_of item.now) (definition_in latest.now) progress.now rest.now }
    ensures looks { KeepsLooks looks.old looks.new 1 }
{
    match item {
        Item::Definition(_) => true,
        Item::Data(_) => is_followed(rest, latest, progress, looks),
    }
}

// Whether no fault follows a data message that a hole in it would leave. The next item is none if the bytes end in it, or a stretch that
// nobody wrote begins in it or before it; and before the first time nothing is one.
fn is_followed<'a>(
    rest: &'a [u8],
    latest: &Latest<'a>,
    progress: &Progress,
    looks: &mut Looks,
) -> bool
    ensures steady { HasSteady 1 (definition_in latest.now) progress.now rest.now → result ≡ true }
    ensures followed { result ≡ true → IsFollowed (definition_in latest.now) progress.now rest.now }
    ensures looks { KeepsLooks looks.old looks.new 1 }
{
    if !progress.is_timed() || is_unwritten(rest) {
        return true;
    }
    match looks.look(rest, latest) {
        Step::Item(item, used) => {
            if runs_into_unwritten(rest, used) {
                return true;
            }
            let mut later = *progress;
            match later.judge(&item, &rest[..used]) {
                Some(_) => true,
                None => begins_anew(rest, latest, progress, looks),
            }
        }
        Step::NeedMore => true,
        Step::Refused(_) => false,
    }
}

// Whether the item at the front and what follows it fit, or begin anew: then the progress does.
fn goes_on<'a>(
    bytes: &'a [u8],
    latest: &Latest<'a>,
    progress: &mut Progress,
    looks: &mut Looks,
) -> bool
    ensures steady { HasSteady 33 (definition_in latest.now) progress.old bytes.now
        → (result ≡ true) × (progress.new ≡ progress.old) }
    ensures begun { MayBegin progress.old progress.new }
    ensures looks { KeepsLooks looks.old looks.new 18 }
{
    if !progress.is_timed() {
        return true;
    }
    if fits_in_row(bytes, latest, progress, looks) {
        return true;
    }
    if !begins_anew(bytes, latest, progress, looks) {
        return false;
    }
    *progress = progress.anew();
    true
}

// Whether times, distances or positions begin anew: so many items follow that fit if those before are forgotten, and soon none that
// fit after them, unless those before have few records, as where the first positions are those of another place.
fn begins_anew<'a>(
    bytes: &'a [u8],
    latest: &Latest<'a>,
    progress: &Progress,
    looks: &mut Looks,
) -> bool
    ensures some { result ≡ true → HasSound (definition_in latest.now) (anew_of progress.now) bytes.now }
    ensures looks { KeepsLooks looks.old looks.new 0 }
{
    if !looks.are_left() || !follows(bytes, latest, &progress.anew(), &ANEW, looks) {
        return false;
    }
    progress.has_few() || !fits_soon(bytes, latest, progress, looks)
}

// Whether items that fit follow from a place soon after the front, or no looks are left to say so.
fn fits_soon<'a>(
    bytes: &'a [u8],
    latest: &Latest<'a>,
    progress: &Progress,
    looks: &mut Looks,
) -> bool
    ensures { KeepsLooks looks.old looks.new 0 }
{
    for place in 1..SOON.min(bytes.len()) {
        if !looks.are_left() || fits_after_fault(&bytes[place..], latest, progress, looks) {
            return true;
        }
    }
    false
}

// How many bytes are left out at the front, where there is a fault: up to the next place from which items follow that fit, or all. If
// there is soon none, it is up to one at which times, distances or positions begin anew, if there is one.
fn count_faulty<'a>(
    bytes: &'a [u8],
    from: usize,
    latest: &Latest<'a>,
    progress: &mut Progress,
    looks: &mut Looks,
) -> usize
    ensures some { 1 ≤ from → 1 ≤ length bytes.now → 1 ≤ result }
    ensures within { result ≤ length bytes.now }
    ensures left { LeavesFrom (definition_in latest.now) progress.old bytes.now from result progress.new }
    ensures looks { from ≤ 1 → PassesLooks looks.old looks.new result (256 * (result + 1 - from)) }
{
    if let Some(count) = next_fitting(bytes, from, SOON, latest, progress, looks) {
        return count;
    }
    if let Some(count) = next_anew(bytes, latest, progress, looks) {
        *progress = progress.anew();
        return count;
    }
    match next_fitting(bytes, SOON, bytes.len(), latest, progress, looks) {
        Some(count) => count,
        None => bytes.len(),
    }
}

// The first place between two from which items follow that fit, or the one after the row there if that is stray.
fn next_fitting<'a>(
    bytes: &'a [u8],
    from: usize,
    end: usize,
    latest: &Latest<'a>,
    progress: &Progress,
    looks: &mut Looks,
) -> Option<usize>
    ensures some { IfSome result (λ count. from ≤ count) }
    ensures within { IfSome result (λ count. count ≤ length bytes.now) }
    ensures on { IfSome result (λ count. HasSound (definition_in latest.now) progress.now (drop count bytes.now)) }
    // No trusted row begins before it, or none at all.
    ensures before { IfSome result (λ count. HasNoTrusted (definition_in latest.now) progress.now bytes.now from count) }
    ensures none { IsNone result → HasNoTrusted (definition_in latest.now) progress.now bytes.now from (min end (length bytes.now)) }
    // It looks at 256 items at most from each place, besides those that it may.
    ensures found { IfSome result (λ count. PassesLooks looks.old looks.new count (256 * (count + 1 - from))) }
    ensures passed { IsNone result → KeepsLooks looks.old looks.new (256 * (min end (length bytes.now) - from)) }
{
    for count in from..end.min(bytes.len()) {
        if fits_at(&bytes[count..], latest, progress, looks, count - from) {
            looks.pass(count);
            return Some(count + count_stray(&bytes[count..], latest, progress, looks));
        }
    }
    None
}

// Whether items that fit follow after a fault, so many bytes after it. Where no looks are left, only a trusted row counts.
fn fits_at<'a>(
    bytes: &'a [u8],
    latest: &Latest<'a>,
    progress: &Progress,
    looks: &mut Looks,
    after: usize,
) -> bool
    ensures all { IsTrusted (definition_in latest.now) progress.now bytes.now → result ≡ true }
    ensures some { result ≡ true → HasSound (definition_in latest.now) progress.now bytes.now }
    ensures same { looks.new.allowed ≡ looks.old.allowed }
    ensures more { looks.old.taken ≤ looks.new.taken }
    ensures looks { beyond looks.new ≤ max (beyond looks.old + 256) (64 * after) }
{
    if looks.are_left_after(after) {
        fits_after_fault(bytes, latest, progress, looks)
    } else {
        is_trusted(bytes, latest, progress, looks)
    }
}

// The first place soon after the front from which so many items follow that fit if those before are forgotten.
fn next_anew<'a>(
    bytes: &'a [u8],
    latest: &Latest<'a>,
    progress: &Progress,
    looks: &mut Looks,
) -> Option<usize>
    ensures some { IfSome result (λ count. 1 ≤ count) }
    ensures within { IfSome result (λ count. count < min SOON (length bytes.now)) }
    ensures on { IfSome result (λ count. HasSound (definition_in latest.now) (anew_of progress.now) (drop count bytes.now)) }
    ensures found { IfSome result (λ count. beyond looks.new ≡ 0) }
    ensures looks { KeepsLooks looks.old looks.new 0 }
{
    for count in 1..SOON.min(bytes.len()) {
        if !looks.are_left() {
            return None;
        }
        if follows(&bytes[count..], latest, &progress.anew(), &ANEW, looks) {
            return Some(count);
        }
    }
    None
}

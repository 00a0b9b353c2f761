// Looks ahead: whether whole items follow that fit.

ghost use Rattle.std.specs.Prelude.{◌≡◌, ◌*◌, ◌<◌, ◌↔◌, ℕ, IfSome, IsTrue, true, false};
ghost use Rattle.fit_grammar.specs.Calls.Table.{definition_in};
ghost use Rattle.fit_mending.specs.Private.Counting.{TakesLooks};
ghost use Rattle.fit_mending.specs.Private.Looking.{AsksSome, IsEnough, ahead_with, is_sign as is_sign_of, quiet_if, worth_with as worth_by};
ghost use Rattle.fit_mending.specs.Steady.{HasSound, HasSteady, IsTrusted};

use crate::clock::Sign;
use crate::form::{is_definition, runs_into_unwritten};
use crate::looks::Looks;
use crate::progress::Progress;
use fit_grammar::{Latest, Step, take_over};

// How many items are looked at.
const MOST_ITEMS: usize = 1000;

// In how many places it looks for the next message at most.
const GAP: usize = 64;

// How many definitions follow one another at most: a device writes no more than one for each local number.
const MOST_DEFINITIONS: u32 = 32;

// How many items without a doubt are a row to trust, of which the first is a strong sign, and one of so many in succession.
const TRUSTED: usize = 256;

const QUIET: u32 = 32;

/// How much the items that follow have to be worth.
#[derive(Clone, Copy)]
pub struct Need {
    /// Their worth, after which nothing more is looked at.
    pub worth: u32,
    /// Their worth where the bytes end.
    pub at_end: u32,
    /// Their worth where a fault comes.
    pub at_fault: u32,
    /// How many data messages in a row may be worth nothing.
    pub idle: u32,
    /// How many bytes messages may have whose definition is not known, between those that are a sign.
    pub gap: usize,
}

/// What the items were that were looked at so far.
#[derive(Clone, Copy)]
pub struct Ahead {
    /// What they are worth.
    pub worth: u32,
    /// How many data messages in a row were worth nothing.
    pub idle: u32,
    /// How many definitions there were in a row.
    pub definitions: u32,
    /// How many bytes may be passed over here.
    pub gap: usize,
}

// Before any item. No gap comes before the first sign or definition.
const NONE_AHEAD: Ahead = Ahead {
    worth: 0,
    idle: 0,
    definitions: 0,
    gap: 0,
};

impl Ahead {
    // With one more item, which says this and is a definition or not.
    fn with(&self, sign: Sign, is_definition: bool, need: &Need) -> Ahead
        requires idle { self.now.idle < 4294967295 }
        requires definitions { self.now.definitions < 4294967295 }
        ensures { result ≡ ahead_with self.now sign is_definition need.now }
    {
        let worth = worth_with(self.worth, sign);
        if is_sign(sign) {
            Ahead {
                worth,
                idle: 0,
                definitions: 0,
                gap: need.gap,
            }
        } else if is_definition {
            Ahead {
                worth,
                idle: 0,
                definitions: self.definitions + 1,
                gap: need.gap,
            }
        } else {
            Ahead {
                worth,
                idle: self.idle + 1,
                definitions: 0,
                gap: self.gap,
            }
        }
    }
}

/// Whether the items that follow, under these definitions and after this progress, are worth so much, before a fault or before the
/// bytes end. It looks at a bounded number of items.
pub(crate) fn follows<'a>(
    bytes: &'a [u8],
    latest: &Latest<'a>,
    progress: &Progress,
    need: &Need,
    looks: &mut Looks,
) -> bool
    ensures all { (signs : ℕ) → IsEnough signs need.now
        → HasSteady (32 * signs) (definition_in latest.now) progress.now bytes.now → result ≡ true }
    ensures some { AsksSome need.now → result ≡ true → HasSound (definition_in latest.now) progress.now bytes.now }
    ensures looks { TakesLooks looks.old looks.new 64000 }
{
    if !looks.may_begin(bytes) {
        return false;
    }
    let mut own = latest.again();
    let mut later = *progress;
    let mut ahead = NONE_AHEAD;
    let mut rest = bytes;
    for count in 0..MOST_ITEMS {
        match looks.look(rest, &own) {
            Step::Item(item, used) => {
                let (own_bytes, others) = rest.split_at(used);
                let Some(sign) = later.judge(&item, own_bytes) else {
                    return ahead.worth >= need.at_fault;
                };
                ahead = ahead.with(sign, is_definition(rest), need);
                if ahead.worth >= need.worth {
                    return true;
                }
                if ahead.idle > need.idle || ahead.definitions > MOST_DEFINITIONS {
                    return false;
                }
                take_over(&mut own, &item);
                rest = others;
            }
            Step::NeedMore => return ahead.worth >= need.at_end,
            Step::Refused(_) => match after_gap(rest, ahead.gap, &own, &later, looks) {
                Some(next) => {
                    rest = next;
                    continue;
                }
                None => return ahead.worth >= need.at_fault,
            },
        }
    }
    false
}

/// Whether a trusted row begins here.
pub(crate) fn is_trusted<'a>(
    bytes: &'a [u8],
    latest: &Latest<'a>,
    progress: &Progress,
    looks: &mut Looks,
) -> bool
    ensures is { IsTrue result ↔ IsTrusted (definition_in latest.now) progress.now bytes.now }
    ensures looks { TakesLooks looks.old looks.new 256 }
{
    let mut own = latest.again();
    let mut later = *progress;
    let mut quiet = QUIET - 1;
    let mut rest = bytes;
    for count in 0..TRUSTED {
        if !looks.may_begin(rest) {
            return false;
        }
        let Step::Item(item, used) = looks.look(rest, &own) else {
            return false;
        };
        if runs_into_unwritten(rest, used) {
            return false;
        }
        let (own_bytes, others) = rest.split_at(used);
        let Some(sign) = later.judge(&item, own_bytes) else {
            return false;
        };
        let Some(more) = quiet_with(quiet, sign) else {
            return false;
        };
        quiet = more;
        take_over(&mut own, &item);
        rest = others;
    }
    true
}

// How many items there were since the last strong sign with one more, if it is certain and they are not too many.
fn quiet_with(quiet: u32, sign: Sign) -> Option<u32>
    requires { quiet < 32 }
    ensures { result ≡ quiet_if quiet sign }
{
    let more = match sign {
        Sign::Strong => 0,
        Sign::Doubtful => return None,
        Sign::Nothing | Sign::Weak => quiet + 1,
    };
    if more < QUIET { Some(more) } else { None }
}

// What items are worth with one more.
fn worth_with(worth: u32, sign: Sign) -> u32
    ensures { result ≡ worth_by worth sign }
{
    match sign {
        Sign::Doubtful => worth.saturating_sub(4),
        Sign::Nothing => worth,
        Sign::Weak => worth.saturating_add(1),
        Sign::Strong => worth.saturating_add(3),
    }
}

// Whether an item is a sign.
fn is_sign(sign: Sign) -> bool
    ensures { result ≡ is_sign_of sign }
{
    match sign {
        Sign::Weak | Sign::Strong => true,
        Sign::Doubtful | Sign::Nothing => false,
    }
}

fn is_strong(sign: Sign) -> bool {
    match sign {
        Sign::Strong => true,
        _ => false,
    }
}

// The bytes from the next message on that is a sign on its own, after so many bytes at most.
fn after_gap<'a>(
    bytes: &'a [u8],
    gap: usize,
    latest: &Latest<'a>,
    progress: &Progress,
    looks: &mut Looks,
) -> Option<&'a [u8]>
    ensures some { IfSome result (λ rest. 1 < gap) }
    ensures looks { TakesLooks looks.old looks.new 63 }
{
    for count in 1..gap.min(GAP).min(bytes.len()) {
        let rest = &bytes[count..];
        if has_sign(rest, latest, progress, looks) {
            return Some(rest);
        }
    }
    None
}

// Whether the item at the front states a time soon after the last one.
fn has_sign<'a>(
    bytes: &'a [u8],
    latest: &Latest<'a>,
    progress: &Progress,
    looks: &mut Looks,
) -> bool
    ensures { TakesLooks looks.old looks.new 1 }
{
    let Step::Item(item, used) = looks.look(bytes, latest) else {
        return false;
    };
    let mut later = *progress;
    match later.judge(&item, &bytes[..used]) {
        Some(sign) => is_strong(sign),
        None => false,
    }
}

// Whether the item at a place fits what was before it and what follows it.

ghost use Rattle.std.specs.Prelude.{◌≡◌, ℕ, Option, Some, true};
ghost use Rattle.fit_grammar.specs.Calls.Table.{definition_in};
ghost use Rattle.fit_mending.specs.declared.clock.Sign.{Sign as AnySign};
ghost use Rattle.fit_mending.specs.declared.clock.Sign.TheVariants.{Doubtful};
ghost use Rattle.fit_mending.specs.Private.Counting.{KeepsLooks, TakesLooks};
ghost use Rattle.fit_mending.specs.Private.Looking.{AsksSome, IsEnough};
ghost use Rattle.fit_mending.specs.Steady.{HasSound, HasSteady};

use crate::clock::Sign;
use crate::form::is_definition;
use crate::looks::Looks;
use crate::progress::Progress;
use crate::stray::after_stray;
use crate::trial::{Need, follows};
use fit_grammar::{Latest, Step};

// What has to follow an item that is no sign: no long row of others.
const IN_ROW: Need = Need {
    worth: 3,
    at_end: 0,
    at_fault: 0,
    idle: 64,
    gap: 0,
};

// What has to follow with an item that leaps.
const AT_LEAP: Need = Need {
    worth: 12,
    at_end: 0,
    at_fault: u32::MAX,
    idle: 64,
    gap: 0,
};

// What has to follow after a fault.
const AFTER_FAULT: Need = Need {
    worth: 12,
    at_end: 3,
    at_fault: u32::MAX,
    idle: 32,
    gap: 64,
};

// The same where definitions may be wrong: more, and each item next to the one before it.
const AFTER_GUESS: Need = Need {
    worth: 24,
    at_end: 12,
    at_fault: u32::MAX,
    idle: 32,
    gap: 0,
};

/// Whether the item at the front fits in a row of items. Where no looks are left it does unless it is doubtful.
pub(crate) fn fits_in_row<'a>(
    bytes: &'a [u8],
    latest: &Latest<'a>,
    progress: &Progress,
    looks: &mut Looks,
) -> bool
    ensures all { HasSteady 33 (definition_in latest.now) progress.now bytes.now → result ≡ true }
    ensures looks { KeepsLooks looks.old looks.new 18 }
{
    let Some(sign) = sign_at_front(bytes, latest, progress, looks) else {
        return false;
    };
    match sign {
        Sign::Weak | Sign::Strong => true,
        Sign::Nothing => {
            !looks.are_left()
                || is_definition(bytes)
                || follows(bytes, latest, progress, &IN_ROW, looks)
        }
        Sign::Doubtful => {
            looks.are_left()
                && follows(bytes, latest, progress, &AT_LEAP, looks)
                && after_stray(bytes, latest, progress, looks).is_none()
        }
    }
}

/// Whether items that fit follow from here on after a fault.
pub(crate) fn fits_after_fault<'a>(
    bytes: &'a [u8],
    latest: &Latest<'a>,
    progress: &Progress,
    looks: &mut Looks,
) -> bool
    ensures all { HasSteady 256 (definition_in latest.now) progress.now bytes.now → result ≡ true }
    ensures some { result ≡ true → HasSound (definition_in latest.now) progress.now bytes.now }
    ensures looks { TakesLooks looks.old looks.new 64017 }
{
    follows(bytes, latest, progress, after_fault(progress), looks)
}

/// What has to follow after a fault.
pub(crate) fn after_fault(progress: &Progress) -> &'static Need
    ensures all { IsEnough 8 result.now }
    ensures some { AsksSome result.now }
{
    if progress.is_guessed {
        &AFTER_GUESS
    } else {
        &AFTER_FAULT
    }
}

// What the item at the front says, if it is no fault.
fn sign_at_front<'a>(
    bytes: &'a [u8],
    latest: &Latest<'a>,
    progress: &Progress,
    looks: &mut Looks,
) -> Option<Sign>
    ensures all { HasSteady 1 (definition_in latest.now) progress.now bytes.now
        → (sign : AnySign) × (result ≡ Some sign) × (sign ≡ Doubtful → ⊥) }
    ensures looks { TakesLooks looks.old looks.new 1 }
{
    let Step::Item(item, used) = looks.look(bytes, latest) else {
        return None;
    };
    let mut later = *progress;
    later.judge(&item, &bytes[..used])
}

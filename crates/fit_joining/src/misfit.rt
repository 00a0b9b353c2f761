// The first part that does not go with those before it.

ghost use Rattle.std.specs.Prelude.{◌≡◌, ◌<◌, length, IfSome};
ghost use Rattle.fit_joining.specs.Compared.{first_misfit, is_before, is_other, later, misfit_by, sport_of, stated_by};

use crate::part::Part;
use crate::span::span_of;
use fit_finishing::first_sport;

/// A part that does not go with those before it.
#[derive(Clone, Copy, Debug, PartialEq, Eq)]
pub struct Misfit<'a> {
    /// The name of the part.
    pub name: &'a str,
    /// How many parts are before it.
    pub number: usize,
    pub kind: MisfitKind,
}

/// Why a part does not go with those before it.
#[derive(Clone, Copy, Debug, PartialEq, Eq)]
pub enum MisfitKind {
    /// It has another sport.
    OtherSport,
    /// It begins before one of them ends.
    Overlap,
}

/// The first part that has another sport than those before it, or begins before one of them ends. A part without a sport or a time is
/// compared by what it has.
pub fn first_misfit<'n>(parts: &[Part<'n, '_>]) -> Option<Misfit<'n>>
    ensures misfit { result ≡ first_misfit parts.now }
    // It is one of them.
    ensures number { IfSome result (λ misfit. misfit.number < length parts.now) }
{
    let mut stated = Stated {
        sport: None,
        last: None,
    };
    let mut number = 0;
    let mut rest = parts;
    while let [part, more @ ..] = rest {
        let sport = sport_of(part);
        let span = span_of(true, &part.file);
        if let Some(kind) = stated.misfit(sport, span.first) {
            return Some(Misfit {
                name: part.name,
                number,
                kind,
            });
        }
        stated = stated.and(sport, span.last);
        number += 1;
        rest = more;
    }
    None
}

// The number of the first sport that a part states.
fn sport_of(part: &Part) -> Option<u8>
    ensures { result ≡ sport_of part.now }
{
    Some(first_sport(&part.file)?.sport)
}

// What some parts state: the first sport, and the latest of the times at which they end.
#[derive(Clone, Copy)]
pub(crate) struct Stated {
    pub(crate) sport: Option<u8>,
    pub(crate) last: Option<u32>,
}

impl Stated {
    // With one more part.
    fn and(self, sport: Option<u8>, last: Option<u32>) -> Stated
        ensures { result ≡ stated_by self sport last }
    {
        Stated {
            sport: self.sport.or(sport),
            last: later(self.last, last),
        }
    }

    // Why the next part does not go with these.
    fn misfit(self, sport: Option<u8>, first: Option<u32>) -> Option<MisfitKind>
        ensures { result ≡ misfit_by self sport first }
    {
        if is_other(self.sport, sport) {
            Some(MisfitKind::OtherSport)
        } else if is_before(first, self.last) {
            Some(MisfitKind::Overlap)
        } else {
            None
        }
    }
}

// The later of two times, or the one that is there.
fn later(one: Option<u32>, other: Option<u32>) -> Option<u32>
    ensures { result ≡ later one other }
{
    match (one, other) {
        (Some(one), Some(other)) => Some(one.max(other)),
        (one, None) => one,
        (None, other) => other,
    }
}

// Whether a time is before another, if both are there.
fn is_before(one: Option<u32>, other: Option<u32>) -> bool
    ensures { result ≡ is_before one other }
{
    match (one, other) {
        (Some(one), Some(other)) => one < other,
        _ => false,
    }
}

// Whether a sport is not the other one, if both are there.
fn is_other(one: Option<u8>, other: Option<u8>) -> bool
    ensures { result ≡ is_other one other }
{
    match (one, other) {
        (Some(one), Some(other)) => one != other,
        _ => false,
    }
}

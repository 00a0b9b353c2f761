// The sport of the parts, which a sport message adds where only sessions and laps state it.

ghost use Rattle.std.specs.Prelude.{◌≡◌, ◌∷◌, Some, map};
ghost use Rattle.fit_grammar.specs.Format.Encoding.{encoded_items};
ghost use Rattle.fit_grammar.specs.Format.Message.{messages_of};
ghost use Rattle.fit_grammar.specs.Calls.CheckedOutput.{WritesChecked};
ghost use Rattle.fit_joining.specs.Joined.{sport_due, tells_sport};
ghost use Rattle.fit_joining.specs.JoinedItems.{sport_items};

use crate::part::Part;
use fit_base::Crc;
use fit_finishing::{SportStated, first_sport, stated_sport};
use fit_grammar::{LentFile, Sink, put_checked};

// The first sport that a part states, if no sport message states one.
pub(crate) fn sport_due(first: &Part<'_, '_>, others: &[Part<'_, '_>]) -> Option<SportStated>
    ensures { result ≡ sport_due (messages_of first.now.file.items
        ∷ map (λ part. messages_of part.file.items) others.now) }
{
    if tells_sport(&first.file) {
        return None;
    }
    let mut sport = first_sport(&first.file);
    let mut rest = others;
    while let [part, more @ ..] = rest {
        if tells_sport(&part.file) {
            return None;
        }
        sport = sport.or(first_sport(&part.file));
        rest = more;
    }
    sport
}

// Whether a sport message states the sport.
fn tells_sport(file: &LentFile<'_>) -> bool
    ensures { result ≡ tells_sport (messages_of file.now.items) }
{
    for message in file.messages() {
        if message.global() == 12 && stated_sport(&message).is_some() {
            return true;
        }
    }
    false
}

// Writes a sport message, if a sport is given.
pub(crate) fn put_sport<S: Sink>(
    sport: Option<SportStated>,
    out: &mut S,
    checksum: &mut Crc,
) -> Result<(), S::Fault>
    ensures { WritesChecked (S.held out.old)
        (S.held out.new) checksum.old checksum.new result
        (encoded_items (sport_items sport)) }
{
    match sport {
        Some(sport) => put_checked(out, checksum, &sport_bytes(sport)),
        None => put_checked(out, checksum, &[]),
    }
}

// The bytes of a sport message, and before it of a definition of its fields: sport and sub_sport.
fn sport_bytes(stated: SportStated) -> [u8; 15]
    ensures { result ≡ encoded_items (sport_items (Some stated)) }
{
    let SportStated { sport, sub_sport } = stated;
    [0x40, 0, 0, 12, 0, 2, 0, 1, 0, 1, 1, 0, 0, sport, sub_sport]
}

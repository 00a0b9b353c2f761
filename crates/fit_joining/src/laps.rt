// Whether the rider made a lap.

ghost use Rattle.std.specs.Prelude.{◌≡◌, ◌∷◌, map};
ghost use Rattle.fit_grammar.specs.Format.Message.{messages_of};
ghost use Rattle.fit_joining.specs.Joined.{has_made_lap, laps_stay};

use crate::part::Part;
use fit_grammar::LentFile;

// Whether laps stay: the rider made one in any part.
pub(crate) fn laps_stay(first: &Part<'_, '_>, others: &[Part<'_, '_>]) -> bool
    ensures { result ≡ laps_stay (messages_of first.now.file.items
        ∷ map (λ part. messages_of part.file.items) others.now) }
{
    if has_made_lap(&first.file) {
        return true;
    }
    let mut rest = others;
    while let [part, more @ ..] = rest {
        if has_made_lap(&part.file) {
            return true;
        }
        rest = more;
    }
    false
}

// Whether a part goes on after a lap.
fn has_made_lap(file: &LentFile<'_>) -> bool
    ensures { result ≡ has_made_lap (messages_of file.now.items) }
{
    let mut has_lap = false;
    for message in file.messages() {
        let global = message.global();
        if has_lap && (global == 19 || global == 20) {
            return true;
        }
        has_lap = has_lap || global == 19;
    }
    false
}

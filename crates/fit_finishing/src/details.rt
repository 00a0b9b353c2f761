// What closing messages that are added have in place of those of a recorder, or besides.

ghost use Rattle.std.specs.Prelude.{◌≡◌};
ghost use Rattle.fit_activity.specs.Messages.ProfileField.{ProfileMessageFits, as_content};
ghost use Rattle.fit_finishing.specs.Details.{sessions_message, sport_message};
ghost use Rattle.fit_finishing.specs.Effort.{effort_message};

use crate::effort::EffortSummary;
use crate::sport::SportStated;

// The sport of the file and the effort, which the session states, and the number of sessions, which the activity message states.
#[derive(Clone, Copy)]
pub(crate) struct Details {
    pub(crate) sport: SportStated,
    pub(crate) effort: EffortSummary,
    pub(crate) sessions: u16,
}

impl Details {
    // The same. Its values fit into their fields, as its type guarantees.
    pub(crate) fn in_fields(self) -> Details
        ensures same { result ≡ self }
        ensures sport { ProfileMessageFits (sport_message result.sport) }
        ensures sessions { ProfileMessageFits (sessions_message result.sessions) }
    {
        self
    }

    // The bytes of sport and sub_sport.
    pub(crate) fn sport_bytes(self) -> [u8; 2]
        ensures { result ≡ as_content (sport_message self.sport) }
    {
        [self.sport.sport, self.sport.sub_sport]
    }

    // The bytes of num_sessions, little-endian.
    pub(crate) fn sessions_bytes(self) -> [u8; 2]
        ensures { result ≡ as_content (sessions_message self.sessions) }
    {
        self.sessions.to_le_bytes()
    }
}

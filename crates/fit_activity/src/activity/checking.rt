// Whether a file is an activity, in one pass over its messages.

ghost use Rattle.std.specs.Prelude.{◌≡◌};
ghost use Rattle.fit_grammar.specs.Format.Message.{messages_of};
ghost use Rattle.fit_activity.specs.Files.Activity.{activity_in};

use crate::activity::seen::Seen;
use crate::activity::{ActivityFault, Summary};
use fit_grammar::LentFile;

/// The summary of an activity file, or the first of the five faults that it has. It makes one pass over the messages, and takes no memory.
pub fn check_activity(file: &LentFile<'_>) -> Result<Summary, ActivityFault>
    ensures { result ≡ activity_in (messages_of file.now.items) }
{
    // Every file has fewer than 2^32 messages.
    let _frame = file.frame();
    let mut seen = Seen::new();
    for message in file.messages() {
        seen.take(&message);
    }
    seen.verdict()
}

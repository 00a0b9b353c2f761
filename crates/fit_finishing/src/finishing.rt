// An activity is finished with the messages that it lacks.

ghost use Rattle.std.specs.Prelude.{◌≡◌, IfOk, IfErr, true, false, List};
ghost use Rattle.fit_grammar.specs.Format.Encoding.{encoded};
ghost use Rattle.fit_grammar.specs.Format.Message.{messages_of};
ghost use Rattle.fit_grammar.specs.Calls.Output.{WritesText};
ghost use Rattle.fit_activity.specs.Files.Activity.{begins_with_file_id, is_activity_file};
ghost use Rattle.fit_activity.specs.Rides.Recording.{Recorded, start_time};
ghost use Rattle.fit_activity.specs.Rides.RunningTotals.{AreTotals};
ghost use Rattle.fit_finishing.specs.Finished.{FitsFile, IsFinishable, IsFinishing, IsNotFinished, finished_by};

use crate::adding::write_lacking;
use crate::closing::{Lacks, lacks_in, laps_of, sessions_of};
use crate::details::Details;
use crate::hearing::{Hearing, hear};
use crate::sport::sport_in;
use fit_activity::{
    ActivityFault, Speech, Sport, Totals, check_activity, speak_closing_with, speak_file_id,
};
use fit_grammar::{File, LentFile, Sink, encode_extended, encode_file_extended};

// The most bytes of a file_id, and of closing messages.
const MOST_OPENING: u32 = 35;

const MOST_CLOSING: u32 = 265;

/// What finishes an activity: its file_id and its closing messages, what these state beside what a recorder does, which of the messages its
/// file lacks, and how many entries were heard.
#[derive(Drop)]
pub struct Finishing {
    opening: Speech,
    closing: Speech,
    details: Details,
    lacks: Lacks,
    /// How many entries were heard and taken, without the start.
    pub taken: u32,
    /// How many a rule refused.
    pub left_out: u32,
}

/// Why an activity is not finished.
#[derive(Clone, Copy, Debug, PartialEq, Eq)]
pub enum FinishFault {
    /// The first message is a file_id of another file type.
    NotActivity,
    /// No sample was taken.
    NoSample,
    /// The records could exceed 4,294,967,295 bytes with the messages that are added.
    TooLong,
}

impl Finishing {
    /// What a file lacks: the messages that a recorder would write around the entries that are heard from it. It takes no memory.
    pub fn of(file: &LentFile<'_>) -> Result<Finishing, FinishFault>
        ensures finishing { IfOk result (IsFinishing file.now) }
        ensures refused { IfErr result (IsNotFinished file.now) }
    {
        if !is_finishable(file) {
            return Err(FinishFault::NotActivity);
        }
        let Hearing::Riding(ride) = hear(file, Sport::Generic) else {
            return Err(FinishFault::NoSample);
        };
        if !ride.sampled {
            return Err(FinishFault::NoSample);
        }
        if file.data_size() > u32::MAX - MOST_OPENING - MOST_CLOSING {
            return Err(FinishFault::TooLong);
        }
        // Each item of a file can be written.
        let _frame = file.frame();
        let lacks = lacks_in(file, &ride.totals);
        let details = Details {
            sport: sport_in(file),
            effort: ride.effort.summary(),
            sessions: sessions_of(file, lacks),
        }
        .in_fields();
        let (mut opening, mut closing) = (Speech::new(), Speech::new());
        speak_file_id(first_time(&ride.totals), 0, &mut opening);
        speak_closing_with(&ride.totals, laps_of(file, lacks), &mut closing);
        Ok(Finishing {
            opening,
            closing,
            details,
            lacks,
            taken: ride.taken,
            left_out: ride.left_out,
        })
    }

    /// Whether a file_id is added.
    pub fn adds_file_id(&self) -> bool
        ensures { result ≡ self.now.lacks.file_id }
    {
        self.lacks.file_id
    }

    /// Writes the finished file, given the file that it is made of; at an `Err`, a prefix of it. It takes no memory.
    pub fn write<S: Sink>(&self, file: &LentFile<'_>, out: &mut S) -> Result<(), S::Fault>
        requires { FitsFile file.now self.now }
        ensures { WritesText (S.held out.old) (S.held out.new) result
            (encoded (finished_by file.now self.now)) }
    {
        let mut before = [0; MOST_OPENING as usize];
        let mut after = [0; MOST_CLOSING as usize];
        let first = write_lacking(&self.opening, self.details, self.lacks, &mut before);
        let last = write_lacking(&self.closing, self.details, self.lacks, &mut after);
        encode_extended(&before[..first], file, &after[..last], out)
    }

    /// The same of a file in memory.
    pub fn write_file<S: Sink>(&self, file: &File, out: &mut S) -> Result<(), S::Fault>
        requires { FitsFile file.now self.now }
        ensures { WritesText (S.held out.old) (S.held out.new) result
            (encoded (finished_by file.now self.now)) }
    {
        let mut before = [0; MOST_OPENING as usize];
        let mut after = [0; MOST_CLOSING as usize];
        let first = write_lacking(&self.opening, self.details, self.lacks, &mut before);
        let last = write_lacking(&self.closing, self.details, self.lacks, &mut after);
        encode_file_extended(&before[..first], file, &after[..last], out)
    }
}

// Whether a file begins with the file_id of an activity, or with none.
fn is_finishable(file: &LentFile<'_>) -> bool
    ensures finishable { result ≡ true → IsFinishable (messages_of file.now.items) }
    ensures other { result ≡ false
        → (begins_with_file_id (messages_of file.now.items) ≡ true)
        × (is_activity_file (messages_of file.now.items) ≡ false) }
{
    match check_activity(file) {
        Err(ActivityFault::NotActivity) => false,
        _ => true,
    }
}

// The time at which a ride with these totals starts.
fn first_time(totals: &Totals) -> u32
    ensures { (list : List Recorded) → AreTotals totals.now list → result ≡ start_time list }
{
    totals.session().stretch.start
}

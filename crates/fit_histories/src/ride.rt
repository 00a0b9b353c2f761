// A recording over its disk, with a recorder that runs or without one.

ghost use Rattle.std.specs.Prelude.{Bool, ◌≡◌, ◌≢◌, ◌↔◌, ◌++◌, ◌∷◌, [], false, IsTrue};
ghost use Rattle.fit_histories.specs.declared.command.Command.TheVariants as commands;

use crate::reply::Reply;
use fit_activity::{Entry, Start};
use fit_disk::Disk;
use fit_recorder::{Recorder, erase, recover, resume};

/// The recording of a disk. Over an honest disk each call is a step of a history, whatever it replies (`step`). Over any disk it
/// replies `Device` only if the device failed (`called`). From then on a recorder replies only `Failed` until it ends.
#[derive(Drop)]
pub enum Ride<D: Disk> {
    /// No recorder runs.
    Idle(D),
    /// A recorder runs over the disk.
    Riding(Recorder<D>),
}

impl<D: Disk> Ride<D> {
    ghost use Rattle.std.specs.Prelude.{List};
    ghost use Rattle.fit_activity.specs.declared.recording.entry.Entry.TheVariants.{Stop};
    ghost use Rattle.fit_activity.specs.Rides.Recording.{Recorded, Started, Added, is_stop};
    ghost use Rattle.fit_activity.specs.Rides.Stretch.{end_time};
    ghost use Rattle.fit_disk.specs.State.{LeavesOnly, seen_in};
    ghost use Rattle.fit_disk.specs.Story.{seen_of};
    ghost use Rattle.fit_disk.specs.declared.disk.Which.TheVariants.{Data};
    ghost use Rattle.fit_recorder.specs.declared.fault.RecFault.TheVariants.{NotEmpty, JournalFull};
    ghost use Rattle.fit_journal.specs.Turn.{committed_slots, fresh_slots};
    ghost use Rattle.fit_recorder.specs.Calls.Answers.{HandAnswers, CommitAnswers, StopAnswers};
    ghost use Rattle.fit_recorder.specs.Calls.Resume.{HasNoRoom};
    ghost use Rattle.fit_histories.specs.declared.reply.Reply.TheVariants.{Done, Refused};
    ghost use Rattle.fit_histories.specs.Histories.Table.{History, ended};
    ghost use Rattle.fit_histories.specs.Rides.Replies.{Replies, outlives_stop, RepliesStart, RepliesRecovery, RepliesReopening, RepliesErasing, is_ok};
    ghost use Rattle.fit_histories.specs.Rides.Ride.{CanGoOn, Handed, Called, Answered, disk_in, is_riding, encoded_checksum, encoded_len, slots_of};
    ghost use Rattle.fit_histories.specs.Rides.NeverFull.{NeverFull, StaysNeverFull};
    ghost use Rattle.fit_histories.specs.Rides.Goes.{TakesStep};
    ghost use Rattle.fit_histories.specs.Rides.Begun.{RideBeginsForm};
    ghost use Rattle.fit_histories.specs.Rides.Moments.{LeavesAtMoments};
    ghost use Rattle.fit_histories.specs.Rides.Standing.{StandsIn, TakesStepFrom, LeavesAllowed};
    ghost use Rattle.fit_recorder.specs.Files.NeverFull.{NeverFills};

    /// Ends the recorder that runs, if one does, and begins a recording, with a checked journal or another. If the reply is not
    /// `Done`, no recorder runs.
    pub fn start(self, start: Start, checked: bool) -> (Ride<D>, Reply)
        ensures goes_on { CanGoOn D.honest D.story result.0 }
        ensures replies { RepliesStart start result.1 }
        ensures handed { result.1 ≡ Done → Handed result.0 (Started start ∷ []) }
        ensures made { result.1 ≡ Done → slots_of result.0
            ≡ committed_slots (fresh_slots checked)
            (encoded_len result.0) (encoded_checksum result.0) }
        ensures not_empty { IsTrue D.honest → result.1 ≡ Refused NotEmpty
            → seen_of Data (D.story (disk_in self)) ≢ [] }
        ensures riding { is_riding result.0 ≡ is_ok result.1 }
        ensures goes { IsTrue D.honest
            → TakesStep D.honest D.story (commands.Start start) result.1 self result.0 }
        // A crash at any moment leaves what could be left before or, if nothing was recorded, the start alone.
        ensures any_moment { LeavesAtMoments D.honest D.story (commands.Start start) self result.0 }
        ensures form { RideBeginsForm D.honest D.story checked (commands.Start start) result.1 self
            result.0 }
        ensures never_full { StaysNeverFull D.honest D.story self result.1 result.0 }
        ensures called { Called D.log (commands.Start start) result.1 self result.0 }
    {
        match Recorder::start_with(self.into_disk(), start, checked) {
            Ok(recorder) => (Ride::Riding(recorder), Reply::Done),
            Err((disk, fault)) => (Ride::Idle(disk), Reply::Refused(fault)),
        }
    }

    /// Hands in an entry. It may not be a stop: `stop` ends the recording.
    pub fn hand(&mut self, entry: &Entry) -> Reply
        requires goes_on { CanGoOn D.honest D.story self.old }
        requires no_stop { is_stop (Added entry.now) ≡ false }
        ensures replies { (list : List Recorded) → Handed self.old list
            → Replies (HandAnswers list (encoded_len self.old) entry.now) result }
        ensures handed { (list : List Recorded) → Handed self.old list → result ≡ Done
            → Handed self.new (list ++ Added entry.now ∷ []) }
        ensures answered { Answered D.honest D.story result self.old self.new }
        ensures riding { is_riding self.new ≡ is_riding self.old }
        ensures goes { IsTrue D.honest
            → TakesStep D.honest D.story (commands.Entry entry.now) result self.old self.new }
        // A crash at any moment leaves what was committed.
        ensures any_moment { LeavesAtMoments D.honest D.story (commands.Entry entry.now) self.old
            self.new }
        ensures form { (checked : Bool) → RideBeginsForm D.honest D.story checked
            (commands.Entry entry.now) result self.old self.new }
        ensures never_full { StaysNeverFull D.honest D.story self.old result self.new }
        ensures called { Called D.log (commands.Entry entry.now) result self.old self.new }
    {
        match self {
            Ride::Idle(_) => Reply::NoRecorder,
            Ride::Riding(recorder) => recorder.hand(entry).into(),
        }
    }

    /// Commits what was handed in.
    pub fn commit(&mut self) -> Reply
        requires { CanGoOn D.honest D.story self.old }
        ensures replies { (list : List Recorded) → Handed self.old list
            → Replies (CommitAnswers list (slots_of self.old)) result }
        ensures handed { (list : List Recorded) → Handed self.old list → result ≡ Done
            → Handed self.new list }
        ensures made { result ≡ Done
            → slots_of self.new
            ≡ committed_slots (slots_of self.old) (encoded_len self.old)
            (encoded_checksum self.old) }
        ensures answered { Answered D.honest D.story result self.old self.new }
        ensures riding { is_riding self.new ≡ is_riding self.old }
        ensures goes { IsTrue D.honest
            → TakesStep D.honest D.story commands.Commit result self.old self.new }
        // A crash at any moment leaves what was committed before, or all entries.
        ensures any_moment { LeavesAtMoments D.honest D.story commands.Commit self.old self.new }
        ensures form { (checked : Bool) → RideBeginsForm D.honest D.story checked commands.Commit
            result self.old self.new }
        ensures never_full { StaysNeverFull D.honest D.story self.old result self.new }
        ensures called { Called D.log commands.Commit result self.old self.new }
    {
        match self {
            Ride::Idle(_) => Reply::NoRecorder,
            Ride::Riding(recorder) => recorder.commit().into(),
        }
    }

    /// Ends the recording with a stop at this time, in seconds since 1989-12-31T00:00:00Z. After `Stopped` no recorder runs. After any
    /// other reply the one that ran still runs.
    pub fn stop(self, time: u32) -> (Ride<D>, Reply)
        requires { CanGoOn D.honest D.story self }
        ensures replies { (list : List Recorded) → Handed self list
            → Replies (StopAnswers list time) result.1 }
        ensures not_done { result.1 ≢ Done }
        ensures answered { Answered D.honest D.story result.1 self result.0 }
        ensures riding { is_riding result.0 ≡ outlives_stop (is_riding self) result.1 }
        ensures goes { IsTrue D.honest
            → TakesStep D.honest D.story (commands.Entry (Stop time)) result.1 self result.0 }
        // A crash at any moment leaves what was committed before, or all entries with the stop.
        ensures any_moment { LeavesAtMoments D.honest D.story (commands.Entry (Stop time)) self
            result.0 }
        ensures form { (checked : Bool) → RideBeginsForm D.honest D.story checked
            (commands.Entry (Stop time)) result.1 self result.0 }
        ensures never_full { StaysNeverFull D.honest D.story self result.1 result.0 }
        ensures called { Called D.log (commands.Entry (Stop time)) result.1 self result.0 }
    {
        match self {
            Ride::Idle(disk) => (Ride::Idle(disk), Reply::NoRecorder),
            Ride::Riding(mut recorder) => match recorder.stop(time) {
                Ok(()) => (Ride::Idle(recorder.into_disk()), Reply::Stopped),
                Err(fault) => (Ride::Riding(recorder), Reply::Refused(fault)),
            },
        }
    }

    /// Ends the recorder that runs, if one does.
    pub fn restart(self) -> (Ride<D>, Reply)
        ensures ok { result.1 ≡ Done }
        ensures ended { is_riding result.0 ≡ false }
        ensures disk { disk_in result.0 ≡ disk_in self }
        ensures step { IsTrue D.honest → (before : History) → StandsIn D.honest D.story self before
            → TakesStepFrom D.honest D.story before commands.Restart result.1 result.0 }
        ensures any_moment { LeavesAtMoments D.honest D.story commands.Restart self result.0 }
        ensures form { (checked : Bool) → RideBeginsForm D.honest D.story checked commands.Restart
            result.1 self result.0 }
        ensures never_full { StaysNeverFull D.honest D.story self result.1 result.0 }
    {
        (Ride::Idle(self.into_disk()), Reply::Done)
    }

    /// Ends the recorder that runs, if one does, and recovers the recording.
    pub fn recover(self) -> (Ride<D>, Reply)
        ensures replies { RepliesRecovery result.1 }
        ensures ended { is_riding result.0 ≡ false }
        ensures goes { IsTrue D.honest
            → TakesStep D.honest D.story commands.Recover result.1 self result.0 }
        // A crash at any moment leaves what could be left before, or files that stand for the same list.
        ensures any_moment { LeavesAtMoments D.honest D.story commands.Recover self result.0 }
        ensures form { (checked : Bool) → RideBeginsForm D.honest D.story checked commands.Recover
            result.1 self result.0 }
        ensures never_full { StaysNeverFull D.honest D.story self result.1 result.0 }
        ensures called { Called D.log commands.Recover result.1 self result.0 }
    {
        let mut disk = self.into_disk();
        let reply = recover(&mut disk).into();
        (Ride::Idle(disk), reply)
    }

    /// Ends the recorder that runs, if one does, and continues the recorded ride. If the reply is not `Done`, no recorder runs.
    pub fn reopen(self) -> (Ride<D>, Reply)
        ensures goes_on { CanGoOn D.honest D.story result.0 }
        ensures replies { RepliesReopening result.1 }
        ensures handed { result.1 ≡ Done → (list : List Recorded) × Handed result.0 list }
        ensures full { IsTrue D.honest → result.1 ≡ Refused JournalFull
            → HasNoRoom (seen_in (D.story (disk_in self)).now) }
        ensures riding { is_riding result.0 ≡ is_ok result.1 }
        ensures goes { IsTrue D.honest
            → TakesStep D.honest D.story commands.Reopen result.1 self result.0 }
        ensures any_moment { LeavesAtMoments D.honest D.story commands.Reopen self result.0 }
        ensures form { (checked : Bool) → RideBeginsForm D.honest D.story checked commands.Reopen
            result.1 self result.0 }
        ensures never_full { StaysNeverFull D.honest D.story self result.1 result.0 }
        ensures called { Called D.log commands.Reopen result.1 self result.0 }
    {
        match resume(self.into_disk()) {
            Ok(resumed) => (Ride::Riding(resumed), Reply::Done),
            Err((kept, fault)) => (Ride::Idle(kept), Reply::Refused(fault)),
        }
    }

    /// Ends the recorder that runs, if one does, and erases the recording.
    pub fn erase(self) -> (Ride<D>, Reply)
        ensures replies { RepliesErasing result.1 }
        ensures ended { is_riding result.0 ≡ false }
        ensures goes { IsTrue D.honest
            → TakesStep D.honest D.story commands.Erase result.1 self result.0 }
        // A crash at any moment leaves what could be left before, or nothing recorded.
        ensures any_moment { LeavesAtMoments D.honest D.story commands.Erase self result.0 }
        ensures never_full { StaysNeverFull D.honest D.story self result.1 result.0 }
        ensures called { Called D.log commands.Erase result.1 self result.0 }
    {
        let mut disk = self.into_disk();
        let reply = erase(&mut disk).into();
        (Ride::Idle(disk), reply)
    }

    /// The time of the last entry of the recorder that runs, or of its start; if none runs, 0.
    pub fn last_time(&self) -> u32
        ensures { (list : List Recorded) → Handed self.now list → result ≡ end_time list }
    {
        match self {
            Ride::Idle(_) => 0,
            Ride::Riding(recorder) => recorder.end_time(),
        }
    }

    /// Ends the recorder that runs, if one does, and returns the disk. Entries that were not committed may be lost.
    pub fn into_disk(self) -> D
        ensures disk { result ≡ disk_in self }
        ensures rests { IsTrue D.honest → (before : History) → StandsIn D.honest D.story self before
            → LeavesAllowed (ended before) (D.story result) }
        ensures never_fills { IsTrue D.honest → (before : History)
            → StandsIn D.honest D.story self before
            → NeverFull D.story self → LeavesOnly NeverFills (D.story result).now }
    {
        match self {
            Ride::Idle(disk) => disk,
            Ride::Riding(recorder) => recorder.into_disk(),
        }
    }
}

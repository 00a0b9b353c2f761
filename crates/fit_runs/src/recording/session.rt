// A recording that does what lines state, one after another.

ghost use Rattle.std.specs.Prelude.{◌≡◌, ◌<◌, ◌≤◌, ◌+◌, ◌*◌, ◌^◌, ◌++◌, ◌∷◌, [], List, ℕ, Some, None, IfOk, IfErr, IfSome, IsSome, OnOk, length, false, ◌-◌, Option};
ghost use Rattle.fit_disk.specs.Story.{Story};
ghost use Rattle.fit_histories.specs.declared.event.Event.{Event as AnEvent};
ghost use Rattle.fit_histories.specs.declared.reply.Reply.{Reply as AReply};
ghost use Rattle.fit_files.specs.Printed.Shown.{IsOutputFault};
ghost use Rattle.fit_histories.specs.Rides.Ride.{CanGoOn, is_riding};
ghost use Rattle.fit_runs.specs.Rides.Turns.{Turn, Asked, Faulty, RepliesToAll, refused_count, refused_in, TakesLine, CommitsIfDue, CommitsUnlessBroken, IsLineFault, Prints, SoFar, commit_at, is_due_after, rides_after, times_after, LeavesByTurns};
ghost use Rattle.fit_runs.specs.Exchanges.{OnlyTells, told};
ghost use Rattle.fit_histories.specs.Commands.{is_simulated};
ghost use Rattle.fit_scripts.specs.Scripts.Replayed.{IsReplayed};
ghost use Rattle.fit_scripts.specs.Scripts.Script.{meaning_of};

use crate::Dialogue;
use crate::recording::clock::Clock;
use crate::recording::line_fault::{FaultyLine, LineFault};
use crate::recording::told_line::tell_line;
use crate::reply_line::ReplyLine;
use fit_disk::Disk;
use fit_files::ReportFault;
use fit_histories::{Command, Event, Reply, Ride};
use fit_scripts::command_at;
use std::alloc::Global;

/// A ride, how many lines it took, and how many answers were not ok.
#[derive(Drop)]
pub struct Session<D: Disk> {
    pub ride: Ride<D>,
    /// The number of the last line.
    pub line: usize,
    /// The number of answers that were not ok.
    pub refused: usize,
    pub clock: Clock,
}

impl<D: Disk> Session<D> {
    /// A session over an idle disk, before any line.
    pub fn new(disk: D, every: Option<u32>) -> Self
        ensures goes_on { CanGoOn D.honest D.story result.ride }
        ensures none { result.line ≡ 0 }
        ensures refused { result.refused ≡ 0 }
        ensures so_far { SoFar D.honest D.story every (D.story disk) [] result }
    {
        Session {
            ride: Ride::Idle(disk),
            line: 0,
            refused: 0,
            clock: Clock::new(every),
        }
    }

    /// Does what the next line states, and prints the answer. A line that is `None` is too long.
    pub fn take_line<P: Dialogue>(
        self,
        alloc: Global,
        line: Option<&[u8]>,
        dialogue: &mut P,
    ) -> (Session<D>, Result<(), ReportFault>)
        requires goes_on { CanGoOn D.honest D.story self.ride }
        requires room { self.line < 2 ^ 60 }
        requires few { self.refused ≤ 2 * self.line }
        ensures goes_on { CanGoOn D.honest D.story result.0.ride }
        ensures tells { OnlyTells (P.story dialogue.old) (P.story dialogue.new)
            (P.sides dialogue.old) (P.sides dialogue.new) }
        ensures fault { IfErr result.1 IsOutputFault }
        ensures number { result.0.line ≡ self.line + 1 }
        ensures few { result.0.refused ≤ 2 * (self.line + 1) }
        ensures outcome { (bytes : List ℕ) (every : Option ℕ) (old : Story) (turns : List Turn)
            → IfSome line.entry (λ line. line.now ≡ bytes)
            → (line.entry ≡ None → 4096 < length bytes)
            → SoFar D.honest D.story every old turns self
            → (own : List Turn)
            × TakesLine result.1 every (times_after [] turns) (self.line + 1) bytes own
            × SoFar D.honest D.story every old (turns ++ own) result.0
            × Prints (told (P.story dialogue.old)) (told (P.story dialogue.new)) result.1 own }
    {
        let number = self.line + 1;
        let session = self.at(number);
        match command_in(alloc, line) {
            Ok(None) => (session, Ok(())),
            Ok(Some(command)) => session.run(
                &Event {
                    line: number,
                    command,
                },
                dialogue,
            ),
            Err(fault) => session.refuse(fault, dialogue),
        }
    }

    // The same at the line with this number.
    fn at(self, number: usize) -> Self
        ensures { result ≡ record self { line = number } }
    {
        let Session {
            ride,
            refused,
            clock,
            ..
        } = self;
        Session {
            ride,
            line: number,
            refused,
            clock,
        }
    }

    // Answers a line that cannot be done with its fault.
    fn refuse<P: Dialogue>(
        self,
        fault: LineFault,
        dialogue: &mut P,
    ) -> (Session<D>, Result<(), ReportFault>)
        requires room { self.refused < 2 ^ 62 }
        ensures ride { result.0.ride ≡ self.ride }
        ensures clock { result.0.clock ≡ self.clock }
        ensures tells { OnlyTells (P.story dialogue.old) (P.story dialogue.new)
            (P.sides dialogue.old) (P.sides dialogue.new) }
        ensures fault { IfErr result.1 IsOutputFault }
        ensures number { result.0.line ≡ self.line }
        ensures few { result.0.refused ≡ self.refused + 1 }
        ensures printed { Prints (told (P.story dialogue.old)) (told (P.story dialogue.new))
            result.1 (Faulty self.line fault ∷ []) }
    {
        let line = FaultyLine {
            line: self.line,
            fault,
        };
        let printed = tell_line(&line, dialogue);
        (self.with_refusal(), printed)
    }

    // With one answer more that is not ok.
    fn with_refusal(self) -> Self
        requires { self.refused < 2 ^ 62 }
        ensures { result ≡ record self { refused = self.refused + 1 } }
    {
        let Session {
            ride,
            line,
            refused,
            clock,
        } = self;
        Session {
            ride,
            line,
            refused: refused + 1,
            clock,
        }
    }

    // Runs an event, and a commit after it if one is due.
    fn run<P: Dialogue>(
        self,
        event: &Event,
        dialogue: &mut P,
    ) -> (Session<D>, Result<(), ReportFault>)
        requires goes_on { CanGoOn D.honest D.story self.ride }
        requires replayed { IsReplayed event.now }
        requires room { self.refused < 2 ^ 62 - 2 }
        ensures goes_on { CanGoOn D.honest D.story result.0.ride }
        ensures tells { OnlyTells (P.story dialogue.old) (P.story dialogue.new)
            (P.sides dialogue.old) (P.sides dialogue.new) }
        ensures fault { IfErr result.1 IsOutputFault }
        ensures number { result.0.line ≡ self.line }
        ensures few { result.0.refused ≤ self.refused + 2 }
        ensures ran { (every : Option ℕ) (old : Story) (turns : List Turn)
            → SoFar D.honest D.story every old turns self
            → (reply : AReply) × (last : ℕ) × (more : List Turn)
            × CommitsUnlessBroken result.1
            (is_due_after every (times_after [] turns) (Asked event.now reply last))
            event.now.line more
            × SoFar D.honest D.story every old (turns ++ Asked event.now reply last ∷ more) result.0
            × Prints (told (P.story dialogue.old)) (told (P.story dialogue.new)) result.1
            (Asked event.now reply last ∷ more) }
    {
        let (session, printed) = self.ask(event, dialogue);
        match printed {
            Ok(()) if session.clock.is_due() => {
                let commit = commit_at(event.line);
                session.ask(&commit, dialogue)
            }
            Ok(()) => (session, Ok(())),
            Err(fault) => (session, Err(fault)),
        }
    }

    // Runs an event, and prints the reply.
    fn ask<P: Dialogue>(
        self,
        event: &Event,
        dialogue: &mut P,
    ) -> (Session<D>, Result<(), ReportFault>)
        requires goes_on { CanGoOn D.honest D.story self.ride }
        requires replayed { IsReplayed event.now }
        requires room { self.refused < 2 ^ 62 }
        ensures goes_on { CanGoOn D.honest D.story result.0.ride }
        ensures tells { OnlyTells (P.story dialogue.old) (P.story dialogue.new)
            (P.sides dialogue.old) (P.sides dialogue.new) }
        ensures fault { IfErr result.1 IsOutputFault }
        ensures number { result.0.line ≡ self.line }
        ensures few { result.0.refused ≤ self.refused + 1 }
        ensures asked { (every : Option ℕ) (old : Story) (turns : List Turn)
            → SoFar D.honest D.story every old turns self
            → (reply : AReply) × (last : ℕ)
            × SoFar D.honest D.story every old (turns ++ Asked event.now reply last ∷ []) result.0
            × (result.0.clock.is_due
            ≡ is_due_after every (times_after [] turns) (Asked event.now reply last))
            × Prints (told (P.story dialogue.old)) (told (P.story dialogue.new)) result.1
            (Asked event.now reply last ∷ []) }
    {
        let Session {
            ride,
            line,
            refused,
            clock,
        } = self;
        let (ride, reply) = ride.ask(&event.command, true);
        let clock = clock.note(&event.command, reply.is_ok(), ride.last_time());
        let refused = refused + refusals(reply);
        let printed = tell_line(&ReplyLine { event, reply }, dialogue);
        (
            Session {
                ride,
                line,
                refused,
                clock,
            },
            printed,
        )
    }

    /// Commits after the last line, if a recorder runs, and prints the reply. Returns the disk and the number of answers that were not ok.
    pub fn finish<P: Dialogue>(self, dialogue: &mut P) -> (D, Result<usize, ReportFault>)
        requires goes_on { CanGoOn D.honest D.story self.ride }
        requires room { self.line < 2 ^ 60 + 2 }
        requires few { self.refused ≤ 2 * self.line }
        ensures tells { OnlyTells (P.story dialogue.old) (P.story dialogue.new)
            (P.sides dialogue.old) (P.sides dialogue.new) }
        ensures fault { IfErr result.1 IsOutputFault }
        ensures ended { (every : Option ℕ) (old : Story) (turns : List Turn)
            → SoFar D.honest D.story every old turns self
            → (end : List Turn) × RepliesToAll D.honest old (D.story result.0) (turns ++ end)
            × CommitsIfDue (rides_after false turns) (self.line + 1) end
            × IfOk result.1 (λ refused. refused ≡ refused_in (turns ++ end))
            × Prints (told (P.story dialogue.old)) (told (P.story dialogue.new)) result.1 end }
    {
        if !is_riding(&self.ride) {
            let refused = self.refused;
            return (self.into_disk(), Ok(refused));
        }
        let commit = commit_at(self.line + 1);
        let (session, printed) = self.ask(&commit, dialogue);
        let refused = session.refused;
        match printed {
            Ok(()) => (session.into_disk(), Ok(refused)),
            Err(fault) => (session.into_disk(), Err(fault)),
        }
    }

    /// The disk.
    pub fn into_disk(self) -> D
        ensures { (every : Option ℕ) (old : Story) (turns : List Turn)
            → SoFar D.honest D.story every old turns self
            → LeavesByTurns D.honest old (D.story result) turns }
    {
        self.ride.into_disk()
    }
}

// Whether a recorder runs.
fn is_riding<D: Disk>(ride: &Ride<D>) -> bool
    ensures { result ≡ is_riding ride.now }
{
    matches!(ride, Ride::Riding(_))
}

// A commit that no line states.
fn commit_at(line: usize) -> Event
    ensures { result ≡ commit_at line }
{
    Event {
        line,
        command: Command::Commit,
    }
}

// How many refusals a reply is.
fn refusals(reply: Reply) -> usize
    ensures count { (event : AnEvent) (last : ℕ) → result ≡ refused_count (Asked event reply last) }
    ensures few { result ≤ 1 }
{
    if reply.is_ok() { 0 } else { 1 }
}

// The command of a line, if it states one. A line that is `None` is too long.
fn command_in(alloc: Global, line: Option<&[u8]>) -> Result<Option<Command>, LineFault>
    ensures meaning { IfOk result (λ found. IfSome line.entry (λ line. meaning_of line.now
        ≡ Some found)) }
    ensures short { IfOk result (λ found. IsSome line.entry) }
    ensures replayed { IfOk result (λ found. IfSome found (λ command. is_simulated command
        ≡ false)) }
    ensures fault { IfErr result (λ fault. (bytes : List ℕ)
        → IfSome line.entry (λ line. line.now ≡ bytes)
        → (line.entry ≡ None → 4096 < length bytes) → IsLineFault bytes fault) }
{
    let Some(line) = line else {
        return Err(LineFault::TooLong);
    };
    match command_at(alloc, line) {
        Ok(Some(command)) if command.is_simulated() => Err(LineFault::OnlySimulate),
        Ok(found) => Ok(found),
        Err(kind) => Err(LineFault::Script(kind)),
    }
}

// A session that is fed bytes.

ghost use Rattle.std.specs.Prelude.{◌≡◌, ◌<◌, ◌+◌, ◌^◌, ◌++◌, ◌∷◌, [], List, ℕ, Option, Err, IfErr, OnOk, OnErr, length};
ghost use Rattle.fit_files.specs.declared.fault.ReportFault.TheVariants.{Input};
ghost use Rattle.fit_disk.specs.Story.{Story};
ghost use Rattle.fit_files.specs.Printed.Shown.{IsOutputFault};
ghost use Rattle.fit_runs.specs.Rides.Turns.{Turn, BrokenOff, Finishes};
ghost use Rattle.fit_runs.specs.Exchanges.{OnlyTells, told};
ghost use Rattle.fit_runs.specs.Rides.Listening.{HasHeard, BreaksOffAt, CanHear};

use crate::Dialogue;
use crate::recording::held::Held;
use crate::recording::session::Session;
use fit_disk::Disk;
use fit_files::{ReadFault, ReportFault};
use std::alloc::Global;

/// A session, and the bytes of a line that has not ended.
#[derive(Drop)]
pub struct Listener<D: Disk> {
    pub session: Session<D>,
    pub held: Held,
}

impl<D: Disk> Listener<D> {
    /// A listener over an idle disk, before any byte.
    pub fn new(disk: D, every: Option<u32>) -> Self
        ensures able { CanHear D.honest D.story 0 result }
        ensures heard { (held : Option (List ℕ))
            → HasHeard D.honest D.story every (D.story disk) [] [] held result held }
    {
        Listener {
            session: Session::new(disk, every),
            held: Held::new(),
        }
    }

    /// Does the lines that end in these bytes, each as soon as it ends.
    pub fn take<P: Dialogue>(
        self,
        alloc: Global,
        piece: &[u8],
        dialogue: &mut P,
    ) -> (Listener<D>, Result<(), ReportFault>)
        requires able { (count : ℕ) × CanHear D.honest D.story count self
            × (count + length piece.now < 2 ^ 60) }
        ensures able { (count : ℕ) → CanHear D.honest D.story count self
            → CanHear D.honest D.story (count + length piece.now) result.0 }
        ensures tells { OnlyTells (P.story dialogue.old) (P.story dialogue.new)
            (P.sides dialogue.old) (P.sides dialogue.new) }
        ensures fault { IfErr result.1 IsOutputFault }
        ensures heard { (every : Option ℕ) (old : Story) (bytes : List ℕ) (turns : List Turn)
            (before : Option (List ℕ))
            → HasHeard D.honest D.story every old bytes turns before self
            (told (P.story dialogue.old))
            → (own : List Turn)
            × OnOk result.1 (HasHeard D.honest D.story every old (bytes ++ piece.now)
            (turns ++ own) before result.0 (told (P.story dialogue.new)))
            × OnErr result.1 (BreaksOffAt D.honest D.story every old (bytes ++ piece.now)
            (turns ++ own) before result.0 (told (P.story dialogue.new))) }
    {
        let mut listener = self;
        for byte in piece {
            let (next, outcome) = listener.take_byte(alloc, *byte, dialogue);
            listener = next;
            match outcome {
                Ok(()) => {}
                Err(fault) => return (listener, Err(fault)),
            }
        }
        (listener, Ok(()))
    }

    // Takes a byte. A newline ends a line, which is done.
    fn take_byte<P: Dialogue>(
        self,
        alloc: Global,
        byte: u8,
        dialogue: &mut P,
    ) -> (Listener<D>, Result<(), ReportFault>)
        requires able { (count : ℕ) × CanHear D.honest D.story count self × (count < 2 ^ 60) }
        ensures able { (count : ℕ) → CanHear D.honest D.story count self
            → CanHear D.honest D.story (count + 1) result.0 }
        ensures tells { OnlyTells (P.story dialogue.old) (P.story dialogue.new)
            (P.sides dialogue.old) (P.sides dialogue.new) }
        ensures fault { IfErr result.1 IsOutputFault }
        ensures heard { (every : Option ℕ) (old : Story) (bytes : List ℕ) (turns : List Turn)
            (before : Option (List ℕ))
            → HasHeard D.honest D.story every old bytes turns before self
            (told (P.story dialogue.old))
            → (own : List Turn)
            × OnOk result.1 (HasHeard D.honest D.story every old (bytes ++ byte ∷ [])
            (turns ++ own) before result.0 (told (P.story dialogue.new)))
            × OnErr result.1 (BreaksOffAt D.honest D.story every old (bytes ++ byte ∷ [])
            (turns ++ own) before result.0 (told (P.story dialogue.new))) }
    {
        let Listener { session, mut held } = self;
        if byte != b'\n' {
            held.add(byte);
            return (Listener { session, held }, Ok(()));
        }
        let (session, outcome) = session.take_line(alloc, held.line(true), dialogue);
        (
            Listener {
                session,
                held: Held::new(),
            },
            outcome,
        )
    }

    /// Does the last line, if it has no newline, and commits if a recorder runs. Returns the disk and the number of answers that were not
    /// ok.
    pub fn finish<P: Dialogue>(
        self,
        alloc: Global,
        dialogue: &mut P,
    ) -> (D, Result<usize, ReportFault>)
        requires able { (count : ℕ) × CanHear D.honest D.story count self × (count < 2 ^ 60) }
        ensures tells { OnlyTells (P.story dialogue.old) (P.story dialogue.new)
            (P.sides dialogue.old) (P.sides dialogue.new) }
        ensures fault { IfErr result.1 IsOutputFault }
        ensures outcome { (every : Option ℕ) (old : Story) (bytes : List ℕ) (turns : List Turn)
            (before : Option (List ℕ))
            → HasHeard D.honest D.story every old bytes turns before self
            (told (P.story dialogue.old))
            → (end : List Turn) × Finishes D.honest old (D.story result.0) every bytes
            (turns ++ end) before (told (P.story dialogue.new)) result.1 }
    {
        let Listener { session, held } = self;
        if held.is_empty() {
            return session.finish(dialogue);
        }
        let (session, outcome) = session.take_line(alloc, held.line(false), dialogue);
        match outcome {
            Ok(()) => session.finish(dialogue),
            Err(fault) => (session.into_disk(), Err(fault)),
        }
    }

    /// Commits if a recorder runs, without the line that has not ended. Returns the disk and this fault of the input.
    pub fn break_off<P: Dialogue>(
        self,
        why: ReadFault,
        dialogue: &mut P,
    ) -> (D, Result<usize, ReportFault>)
        requires able { (count : ℕ) × CanHear D.honest D.story count self × (count < 2 ^ 60) }
        ensures tells { OnlyTells (P.story dialogue.old) (P.story dialogue.new)
            (P.sides dialogue.old) (P.sides dialogue.new) }
        ensures outcome { (every : Option ℕ) (old : Story) (bytes : List ℕ) (turns : List Turn)
            (before : Option (List ℕ))
            → HasHeard D.honest D.story every old bytes turns before self
            (told (P.story dialogue.old))
            → (end : List Turn) × Finishes D.honest old (D.story result.0) every bytes
            (turns ++ end) before (told (P.story dialogue.new)) result.1 }
        ensures broken { OnOk result.1 ⊥ }
        ensures fault { (other : ReadFault) → result.1 ≡ Err (Input other) → other ≡ why }
    {
        let (disk, ended) = self.session.finish(dialogue);
        match ended {
            Ok(_) => (disk, Err(ReportFault::Input(why))),
            Err(fault) => (disk, Err(fault)),
        }
    }

    /// The disk.
    pub fn into_disk(self) -> D
        ensures { (every : Option ℕ) (old : Story) (bytes : List ℕ) (turns : List Turn)
            (before after : Option (List ℕ))
            → BreaksOffAt D.honest D.story every old bytes turns before self after
            → BrokenOff D.honest old (D.story result) every bytes turns before after }
    {
        self.session.into_disk()
    }
}

// A story of the two real files, with which the system's answers must agree.

ghost use Rattle.std.specs.Prelude.{◌≡◌, ◌≤◌, Bool, false, IsTrue, IsErr, OnOk, length};
ghost use Rattle.std.proofs.lemmas.Bool.{false≢true};

use crate::{DeviceError, Which};

/// Gets a report of each answer that the system gives about the two files, and may refuse it. A refused
/// answer is a failed call of the disk. A reported failure is not turned into a success.
pub trait Witness: Drop {
    ghost use Rattle.fit_disk.specs.Story.{Story, seen_of};
    ghost use Rattle.fit_disk.specs.Calls.{Wrote, Shortened, Synced, IsSound};
    ghost use Rattle.fit_disk.specs.Witness.{IsPart};

    /// The answers that are not refused agree with the story.
    ghost honest: { Bool };

    /// The state of both files now, and the earlier ones.
    ghost story: { Self → Story };

    /// The system answered that a file has this length in bytes.
    fn sized(&self, which: Which, size: u64) -> Result<(), DeviceError>
        ensures { IsTrue honest → OnOk result (size ≡ length (seen_of which (story self.now))) };

    /// One read from a place on, with so much room, gave these bytes.
    fn gave(&self, which: Which, at: u64, room: usize, bytes: &[u8]) -> Result<(), DeviceError>
        ensures { IsTrue honest
            → OnOk result (IsPart (seen_of which (story self.now)) at room bytes.now) };

    /// The system's answer to a write of these bytes at a place.
    fn wrote(
        &mut self,
        which: Which,
        at: u64,
        bytes: &[u8],
        answer: Result<(), DeviceError>,
    ) -> Result<(), DeviceError>
        requires { IsTrue honest → at ≤ length (seen_of which (story self.old)) }
        ensures wrote { IsTrue honest
            → Wrote which at bytes.now result (story self.old) (story self.new) }
        ensures failed { IsErr answer → IsErr result };

    /// The system's answer to a cut to a length in bytes.
    fn shortened(
        &mut self,
        which: Which,
        len: u64,
        answer: Result<(), DeviceError>,
    ) -> Result<(), DeviceError>
        requires { IsTrue honest → len ≤ length (seen_of which (story self.old)) }
        ensures shortened { IsTrue honest
            → Shortened which len result (story self.old) (story self.new) }
        ensures failed { IsErr answer → IsErr result };

    /// The system's answer to a sync.
    fn synced(&mut self, which: Which, answer: Result<(), DeviceError>) -> Result<(), DeviceError>
        ensures synced { IsTrue honest → Synced which result (story self.old) (story self.new) }
        ensures failed { IsErr answer → IsErr result };

    /// What reads give may itself be left.
    ghost sound: { (witness : Self) → IsTrue honest → IsSound (story witness).now };
}

/// Refuses no answer, and costs nothing. It promises nothing.
#[derive(Drop)]
pub struct Trusting;

impl Witness for Trusting {
    ghost use Rattle.fit_disk.specs.Events.{fresh};

    ghost honest = { false };

    ghost story = { λ _. fresh };

    ghost sound = { λ _ honest. absurd (false≢true honest) };

    fn sized(&self, _which: Which, _size: u64) -> Result<(), DeviceError> {
        Ok(())
    }

    fn gave(
        &self,
        _which: Which,
        _at: u64,
        _room: usize,
        _bytes: &[u8],
    ) -> Result<(), DeviceError> {
        Ok(())
    }

    fn wrote(
        &mut self,
        _which: Which,
        _at: u64,
        _bytes: &[u8],
        answer: Result<(), DeviceError>,
    ) -> Result<(), DeviceError> {
        answer
    }

    fn shortened(
        &mut self,
        _which: Which,
        _len: u64,
        answer: Result<(), DeviceError>,
    ) -> Result<(), DeviceError> {
        answer
    }

    fn synced(
        &mut self,
        _which: Which,
        answer: Result<(), DeviceError>,
    ) -> Result<(), DeviceError> {
        answer
    }
}

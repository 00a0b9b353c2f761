// Calls of a disk, in the order in which a host carries them out.

ghost use Rattle.std.specs.Prelude.{◌≡◌, ◌+◌, ◌-◌, ◌<◌, ◌≤◌, [], length, IsErr, OnOk, OnErr, All};
ghost use Rattle.fit_disk.specs.Story.{Story, seen_of};
ghost use Rattle.fit_plan.specs.Within.{IsCallWithin};
ghost use Rattle.fit_plan.specs.Carried.{carried, number_of, write_kind, sync_kind};

use arrayvec::ArrayVec;
use fit_disk::{DeviceError, Which};

/// The most calls of a plan. No call of a recorder makes more.
pub const MOST_CALLS: usize = 12;

/// The most bytes that the writes of a plan have together.
pub const MOST_BYTES: usize = 896;

/// One call of a disk.
#[repr(C)]
#[derive(Clone, Copy, Default)]
pub struct Call {
    /// The place of a write in its file, or the length to which a cut shortens it.
    pub at: u64,
    /// Where the bytes of a write begin among those of the plan, and how many they are.
    pub start: u16,
    pub count: u16,
    /// 1 for a write, 2 for a cut, 3 for a sync.
    pub kind: u8,
    /// 0 for the data file, 1 for the journal.
    pub file: u8,
}

/// The calls and the bytes of their writes.
#[derive(Drop)]
pub struct Calls {
    pub calls: ArrayVec<Call, MOST_CALLS>,
    pub bytes: ArrayVec<u8, MOST_BYTES>,
    ghost within: { All (IsCallWithin (length bytes.items)) calls.items },
}

impl Calls {
    ghost use Rattle.fit_plan.specs.Planned.{planned, AreInside};

    /// No calls.
    pub fn new() -> Calls
        ensures planned { (since : Story) → planned result since ≡ since }
        ensures inside { (since : Story) → AreInside result since }
        ensures empty { (result.calls.items ≡ []) × (result.bytes.items ≡ []) }
    {
        Calls {
            calls: ArrayVec::new(),
            bytes: ArrayVec::new(),
        }
    }

    // Adds a call, if there is room for it and its bytes.
    pub(crate) fn add(
        &mut self,
        kind: u8,
        which: Which,
        at: u64,
        bytes: &[u8],
    ) -> Result<(), DeviceError>
        requires known { (write_kind ≤ kind) × (kind ≤ sync_kind) }
        ensures ok { OnOk result ((since : Story) → planned self.new since
            ≡ carried kind which at bytes.now (planned self.old since)) }
        ensures inside { OnOk result ((since : Story) → AreInside self.old since
            → at ≤ length (seen_of which (planned self.old since))
            → AreInside self.new since) }
        ensures err { OnErr result (self.new ≡ self.old) }
        ensures added { OnOk result ((length self.new.calls.items ≡ length self.old.calls.items + 1)
            × (length self.new.bytes.items ≡ length self.old.bytes.items + length bytes.now)) }
        ensures fits { length self.old.calls.items < MOST_CALLS
            → length bytes.now ≤ MOST_BYTES - length self.old.bytes.items → IsErr result → ⊥ }
    {
        if self.calls.is_full() {
            return Err(DeviceError);
        }
        let file = number(which);
        let start = self.bytes.len();
        let Ok(()) = self.bytes.try_extend_from_slice(bytes) else {
            return Err(DeviceError);
        };
        self.calls.push(Call {
            at,
            start: start as u16,
            count: bytes.len() as u16,
            kind,
            file,
        });
        Ok(())
    }
}

// The number of a file for a host.
fn number(which: Which) -> u8
    ensures { result ≡ number_of which }
{
    match which {
        Which::Data => 0,
        Which::Journal => 1,
    }
}

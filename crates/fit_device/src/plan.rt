// A plan in the memory of C.

ghost use Rattle.std.specs.Prelude.{◌≡◌, ◌≤◌};
ghost use Rattle.fit_disk.specs.Story.{Story};
ghost use Rattle.fit_plan.specs.Plan.{plan_story, plan_since};

use fit_plan::{Call, MOST_BYTES, MOST_CALLS, Plan};

/// The calls that the host is to carry out: the first `count` of `calls`, in order. The bytes of their writes are among the
/// first `used` of `bytes`.
#[repr(C)]
pub struct DevicePlan {
    pub count: u32,
    pub used: u32,
    pub calls: [Call; MOST_CALLS],
    pub bytes: [u8; MOST_BYTES],
}

impl DevicePlan {
    ghost use Rattle.fit_device.specs.Planned.{Leads};

    // No calls.
    pub(crate) fn clear(&mut self)
        ensures none { self.new.count ≡ 0 }
        ensures leads { (story : Story) → Leads self.new story story }
    {
        self.count = 0;
        self.used = 0;
    }

    // The calls of a plan.
    pub(crate) fn fill(&mut self, plan: &Plan)
        ensures { Leads self.new (plan_since plan.now) (plan_story plan.now) }
    {
        let (calls, bytes) = (plan.calls.calls.as_slice(), plan.calls.bytes.as_slice());
        self.calls[..calls.len()].copy_from_slice(calls);
        self.bytes[..bytes.len()].copy_from_slice(bytes);
        self.count = calls.len() as u32;
        self.used = bytes.len() as u32;
    }
}

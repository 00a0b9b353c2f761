// At how many items it looks ahead.

ghost use Rattle.std.specs.Prelude.{◌≡◌, ◌≤◌, ◌<◌, ◌+◌, ◌*◌, IsTrue, false, min};
ghost use Rattle.fit_grammar.specs.Calls.Step.{IsStep};
ghost use Rattle.fit_grammar.specs.Calls.Table.{definition_in};
ghost use Rattle.fit_mending.specs.Form.{begins_item};

use crate::form::may_begin;
use fit_grammar::{Latest, Step, step_after};

// At how many items it may look ahead at first, and how many more for each byte that is passed. A search through the bytes in which an item
// has to follow soon takes some 100,000. The records of a ride that begins anew, 256 or more, pay for one.
const FIRST: u64 = 2_000_000;

const EACH: u64 = 64;

/// At how many items it has looked ahead in a run, and at how many it may so far. Where none are left, it asks only what it has to: whether
/// an item is a fault, and where a trusted row begins.
#[derive(Drop)]
pub struct Looks {
    pub taken: u64,
    pub allowed: u64,
}

impl Looks {
    // Before any byte.
    pub(crate) fn new() -> Looks
        ensures taken { result.taken ≡ 0 }
        ensures allowed { result.allowed ≡ 2000000 }
    {
        Looks {
            taken: 0,
            allowed: FIRST,
        }
    }

    // Whether some are left.
    pub(crate) fn are_left(&self) -> bool
        ensures { IsTrue result → self.now.taken < self.now.allowed }
    {
        self.taken < self.allowed
    }

    // The same after so many more bytes.
    pub(crate) fn are_left_after(&self, bytes: usize) -> bool
        ensures { IsTrue result → self.now.taken < self.now.allowed + 64 * bytes }
    {
        self.taken < self.allowed_after(bytes)
    }

    // At how many items it may look when so many more bytes were passed.
    fn allowed_after(&self, bytes: usize) -> u64
        ensures least { self.now.allowed ≤ result }
        ensures most { result ≤ self.now.allowed + 64 * bytes }
    {
        self.allowed
            .saturating_add(EACH.saturating_mul(bytes as u64))
    }

    // Looks at the item at the front. Nothing else looks ahead.
    pub(crate) fn look<'a>(&mut self, bytes: &'a [u8], latest: &Latest<'a>) -> Step<'a>
        ensures step { IsStep (definition_in latest.now) bytes.now result }
        ensures taken { self.new.taken ≡ min (self.old.taken + 1) 18446744073709551615 }
        ensures more { self.old.taken ≤ self.new.taken }
        ensures allowed { self.new.allowed ≡ self.old.allowed }
    {
        self.taken = self.taken.saturating_add(1);
        step_after(bytes, latest)
    }

    // Whether an item may begin at the front, before it is looked at. If none may, that counts as a look: so a search through many such
    // places ends too.
    pub(crate) fn may_begin(&mut self, bytes: &[u8]) -> bool
        ensures is { result ≡ begins_item bytes.now }
        ensures begun { IsTrue result → self.new.taken ≡ self.old.taken }
        ensures taken { result ≡ false → self.new.taken ≡ min (self.old.taken + 1) 18446744073709551615 }
        ensures more { self.old.taken ≤ self.new.taken }
        ensures allowed { self.new.allowed ≡ self.old.allowed }
    {
        if may_begin(bytes) {
            return true;
        }
        self.taken = self.taken.saturating_add(1);
        false
    }

    // So many bytes were passed.
    pub(crate) fn pass(&mut self, bytes: usize)
        ensures taken { self.new.taken ≡ self.old.taken }
        ensures more { self.old.allowed ≤ self.new.allowed }
        ensures most { self.new.allowed ≤ self.old.allowed + 64 * bytes }
    {
        self.allowed = self.allowed_after(bytes);
    }
}

// Which calls of the place in memory are to fail.

ghost use Rattle.std.specs.Prelude.{◌≡◌};

// How many calls are made before the one that fails, and before the power goes off.
#[derive(Clone, Copy)]
pub(crate) struct CallPlan {
    pub(crate) fail: Option<u32>,
    pub(crate) cut: Option<u32>,
}

impl CallPlan {
    ghost use Rattle.fit_places.specs.CallPlan.{must_fail, called};

    // Counts a call. Returns whether it is to fail.
    pub(crate) fn call(&mut self) -> bool
        ensures due { result ≡ must_fail self.old }
        ensures plan { self.new ≡ called self.old }
    {
        let fails = self.fail == Some(0) || self.cut == Some(0);
        self.fail = match self.fail {
            Some(0) | None => None,
            Some(count) => Some(count - 1),
        };
        if let Some(count) = self.cut {
            self.cut = Some(count.saturating_sub(1));
        }
        fails
    }
}

// By how much times move.

ghost use Rattle.std.specs.Prelude.{◌≡◌, ◌<◌, Some};
ghost use Rattle.fit_shifting.specs.Moved.{time_moved, can_move_time, moved_time, shift_between};

/// By how many seconds times move, and which way.
#[derive(Clone, Copy, Debug, PartialEq, Eq)]
pub enum Shift {
    Later(u32),
    Earlier(u32),
}

impl Shift {
    /// The shift by which one time becomes another.
    pub fn between(from: u32, to: u32) -> Shift
        ensures shift { result ≡ shift_between from to }
        ensures moves { from < 0xFFFFFFFF → to < 0xFFFFFFFF → time_moved result from ≡ Some to }
    {
        if from < to {
            Shift::Later(to - from)
        } else {
            Shift::Earlier(from - to)
        }
    }

    /// A time so much later or earlier; none if it would be below 0, or 4,294,967,295 or more. That is the invalid value, which stays.
    pub fn time(self, time: u32) -> Option<u32>
        ensures { result ≡ time_moved self time }
    {
        if time == 0xFFFF_FFFF {
            return Some(time);
        }
        match self {
            Shift::Later(seconds) => match time.checked_add(seconds) {
                Some(0xFFFF_FFFF) => None,
                moved => moved,
            },
            Shift::Earlier(seconds) => time.checked_sub(seconds),
        }
    }

    // Whether a time can be moved.
    pub(crate) fn can_move(self, time: u32) -> bool
        ensures { result ≡ can_move_time self time }
    {
        self.time(time).is_some()
    }

    // A time moved; one that cannot be moved stays.
    pub(crate) fn moved(self, time: u32) -> u32
        ensures { result ≡ moved_time self time }
    {
        self.time(time).unwrap_or(time)
    }
}

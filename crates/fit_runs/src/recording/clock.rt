// When a recording commits by itself.

ghost use Rattle.std.specs.Prelude.{◌≡◌, ◌-◌, ◌∷◌, [], true, false, List, ℕ, Option};
ghost use Rattle.fit_histories.specs.declared.command.Command.TheVariants.{Entry as AnEntry};
ghost use Rattle.fit_runs.specs.Rides.Dues.{Shows, times_on, oldest, is_due, is_passed};

use fit_activity::Entry;
use fit_histories::Command;

/// The times of a ride that say when it commits by itself. All times are in seconds since 1989-12-31T00:00:00Z.
#[derive(Clone, Copy, Drop)]
pub struct Clock {
    // How many seconds of the ride may pass between two commits.
    every: Option<u32>,
    // The time up to which a commit was asked for.
    committed: Option<u32>,
    // The time of the last entry.
    latest: Option<u32>,
    is_due: bool,
}

impl Clock {
    /// A clock before any command.
    pub fn new(every: Option<u32>) -> Self
        ensures shows { Shows every [] result }
        ensures none { result.is_due ≡ false }
    {
        Clock {
            every,
            committed: None,
            latest: None,
            is_due: false,
        }
    }

    /// Whether the last command was an entry so many seconds after the last commit.
    pub fn is_due(&self) -> bool
        ensures { result ≡ self.now.is_due }
    {
        self.is_due
    }

    // A clock after a commit at this time.
    fn at(every: Option<u32>, time: u32) -> Self
        ensures shows { Shows every (time ∷ []) result }
        ensures none { result.is_due ≡ false }
    {
        Clock {
            every,
            committed: Some(time),
            latest: Some(time),
            is_due: false,
        }
    }

    /// Notes a command, whether it was done, and the last time of the ride after it. A refused commit counts, so that the next one is
    /// asked for as much later.
    pub fn note(&self, command: &Command, is_done: bool, last: u32) -> Clock
        ensures shows { (every : Option ℕ) (times : List ℕ) → Shows every times self.now
            → Shows every (times_on times command.now is_done last) result }
        ensures due { (every : Option ℕ) (times : List ℕ) → Shows every times self.now
            → result.is_due ≡ is_due every times command.now is_done }
    {
        match command {
            Command::Commit => Clock {
                committed: self.latest,
                is_due: false,
                ..*self
            },
            Command::Start(start) if is_done => Clock::at(self.every, start.time),
            Command::Reopen if is_done => Clock::at(self.every, last),
            Command::Entry(entry) if is_done => self.with_entry(entry),
            Command::Entry(_) => Clock {
                is_due: false,
                ..*self
            },
            _ => Clock::new(self.every),
        }
    }

    // After an entry that was taken.
    fn with_entry(&self, entry: &Entry) -> Clock
        ensures shows { (every : Option ℕ) (times : List ℕ) → Shows every times self.now
            → (last : ℕ) → Shows every (times_on times (AnEntry entry.now) true last) result }
        ensures due { (every : Option ℕ) (times : List ℕ) → Shows every times self.now
            → result.is_due ≡ is_due every times (AnEntry entry.now) true }
    {
        match entry {
            Entry::Stop(_) => Clock::new(self.every),
            _ => self.with_time(entry.time()),
        }
    }

    // After an entry with this time. Without a commit before it, it counts as one.
    fn with_time(&self, time: u32) -> Clock
        ensures shows { (every : Option ℕ) (times : List ℕ) → Shows every times self.now
            → Shows every (time ∷ times) result }
        ensures due { (every : Option ℕ) (times : List ℕ) → Shows every times self.now
            → result.is_due ≡ is_passed every (time - oldest time times) }
    {
        let committed = self.committed.unwrap_or(time);
        Clock {
            every: self.every,
            committed: Some(committed),
            latest: Some(time),
            is_due: match self.every {
                Some(seconds) => time.saturating_sub(committed) >= seconds,
                None => false,
            },
        }
    }
}

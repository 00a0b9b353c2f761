// Runs one command of any kind.

ghost use Rattle.std.specs.Prelude.{◌≡◌, IsTrue, false};

use crate::Command;
use crate::reply::Reply;
use crate::ride::Ride;
use fit_activity::Entry;
use fit_disk::Disk;

impl<D: Disk> Ride<D> {
    ghost use Rattle.fit_histories.specs.Commands.{is_simulated};
    ghost use Rattle.fit_histories.specs.Rides.Replies.{MayReply, rides_on};
    ghost use Rattle.fit_histories.specs.Rides.Ride.{CanGoOn, Called, Rides, is_riding};
    ghost use Rattle.fit_histories.specs.Rides.NeverFull.{StaysNeverFull};
    ghost use Rattle.fit_histories.specs.Rides.Goes.{TakesStep};
    ghost use Rattle.fit_histories.specs.Rides.Begun.{RideBeginsForm};
    ghost use Rattle.fit_histories.specs.Rides.Moments.{LeavesAtMoments};

    /// Runs a command, and returns the ride after it and the reply. The command may not be `Fail`, `Cut` or `Power`.
    pub fn ask(mut self, command: &Command, checked: bool) -> (Ride<D>, Reply)
        requires goes_on { CanGoOn D.honest D.story self }
        requires replayed { is_simulated command.now ≡ false }
        ensures goes_on { CanGoOn D.honest D.story result.0 }
        ensures reply { MayReply (is_riding self) command.now result.1 }
        ensures riding { is_riding result.0 ≡ rides_on (is_riding self) command.now result.1 }
        ensures rides { Rides checked command.now result.1 self result.0 }
        ensures goes { IsTrue D.honest
            → TakesStep D.honest D.story command.now result.1 self result.0 }
        ensures any_moment { LeavesAtMoments D.honest D.story command.now self result.0 }
        ensures form { RideBeginsForm D.honest D.story checked command.now result.1 self result.0 }
        ensures never_full { StaysNeverFull D.honest D.story self result.1 result.0 }
        ensures called { Called D.log command.now result.1 self result.0 }
    {
        match command {
            Command::Start(start) => self.start(*start, checked),
            Command::Entry(Entry::Stop(time)) => self.stop(*time),
            Command::Entry(entry) => {
                let reply = self.hand(entry);
                (self, reply)
            }
            Command::Commit => {
                let reply = self.commit();
                (self, reply)
            }
            Command::Restart => self.restart(),
            Command::Recover => self.recover(),
            Command::Reopen => self.reopen(),
            Command::Erase => self.erase(),
            Command::Fail(_) | Command::Cut(_) | Command::Power => unreachable!(),
        }
    }
}

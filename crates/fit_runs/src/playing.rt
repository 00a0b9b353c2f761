// Runs the events of a script over a disk.

ghost use Rattle.std.specs.Prelude.{◌≡◌, ◌≤◌, [], All, length, IfOk, IfErr};
ghost use Rattle.fit_runs.specs.Printed.ReplyLines.{AreReported};
ghost use Rattle.fit_scripts.specs.Scripts.Replayed.{IsReplayed};
ghost use Rattle.fit_files.specs.Printed.Shown.{IsOutputFault};
ghost use Rattle.fit_runs.specs.Rides.Played.{LeavesAfter, BreaksOff};

use crate::reply_line::ReplyLine;
use fit_disk::Disk;
use fit_files::{ReportFault, print};
use fit_histories::{Event, Ride};
use fit_text::Pen;
use std::io::Write;

/// Runs the events over a disk, and prints the reply to each before it runs the next. Returns the disk and the number of replies
/// that were not ok. If the output fails, the event whose line it refused was run, and none after it. A start begins a journal with
/// checksums if `checked` is true, else without.
pub fn play<D: Disk, O: Write>(
    disk: D,
    events: &[Event],
    checked: bool,
    out: &mut O,
) -> (D, Result<usize, ReportFault>)
    requires { All IsReplayed events.now }
    ensures most { IfOk result.1 (λ refused. refused ≤ length events.now) }
    ensures outcome { IfOk result.1 (λ refused.
        AreReported events.now
        (LeavesAfter checked D.honest (D.story disk) (D.story result.0) events.now) refused
        (O.contents out.old) (O.contents out.new)) }
    ensures broken_off { IfErr result.1 (λ _.
        BreaksOff checked D.honest (D.story disk) (D.story result.0) events.now (O.contents out.old)
        (O.contents out.new)) }
    ensures fault { IfErr result.1 IsOutputFault }
{
    let mut pen = Pen::new(out);
    let played = play_by(disk, events, checked, &mut pen);
    let _ = pen.into_writer();
    played
}

// The same by a pen for which nothing waits.
fn play_by<D: Disk, O: Write>(
    disk: D,
    events: &[Event],
    checked: bool,
    pen: &mut Pen<'_, O>,
) -> (D, Result<usize, ReportFault>)
    requires replayed { All IsReplayed events.now }
    requires waits { pen.old.waiting ≡ [] }
    ensures most { IfOk result.1 (λ refused. refused ≤ length events.now) }
    ensures same { pen.new.name ≡ pen.old.name }
    ensures outcome { IfOk result.1 (λ refused.
        AreReported events.now
        (LeavesAfter checked D.honest (D.story disk) (D.story result.0) events.now) refused
        pen.old.held pen.new.held) }
    ensures broken_off { IfErr result.1 (λ _.
        BreaksOff checked D.honest (D.story disk) (D.story result.0) events.now pen.old.held pen.new.held) }
    ensures fault { IfErr result.1 IsOutputFault }
{
    let mut ride = Ride::Idle(disk);
    let mut refused = 0;
    for event in events {
        let (next, reply) = ride.ask(&event.command, checked);
        ride = next;
        if let Err(fault) = print(&ReplyLine { event, reply }, pen) {
            return (ride.into_disk(), Err(fault));
        }
        if !reply.is_ok() {
            refused += 1;
        }
    }
    (ride.into_disk(), Ok(refused))
}

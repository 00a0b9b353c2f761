// Records a ride from lines that come one by one.

ghost use Rattle.std.specs.Prelude.{◌≡◌};
ghost use Rattle.fit_runs.specs.Rides.InTurn.{RecordsInTurn};
ghost use Rattle.fit_runs.specs.Rides.Turns.{RecordsBytes};

mod clock;
mod held;
mod line_fault;
mod listener;
mod session;
mod told_line;

use crate::Dialogue;
use fit_disk::Disk;
use fit_files::{CHUNK, ReadFault, ReportFault};
pub use line_fault::LineFault;
use listener::Listener;
use std::alloc::Global;

// The greatest number of reads. Each is of at most 65,536 bytes.
const MOST_READS: u64 = 1_099_511_627_776;

/// Hears lines of a script, does what each states over a disk, and tells the answer, before it hears more. A line that cannot be done is
/// answered with its fault. After the last line what was handed in is committed if a recorder runs. With `every`, it commits by itself
/// after an entry that comes so many seconds after the last commit, so that a power cut takes at most the last so many seconds
/// (`laws::at_most_the_last_seconds_are_lost`). A start begins a journal with checksums. Returns the disk and the number of answers that
/// were not ok. If the output fails, the command whose answer it refused was done, and none after it. If a read fails, the fault is that
/// of the read. After 2^40 reads the input is `TooLarge`.
pub fn record<D: Disk, P: Dialogue>(
    alloc: Global,
    disk: D,
    every: Option<u32>,
    dialogue: &mut P,
) -> (D, Result<usize, ReportFault>)
    ensures outcome { RecordsBytes D.honest (D.story disk) (D.story result.0) every
        (P.sides dialogue.old).left (P.sides dialogue.new).left (P.sides dialogue.old).held
        (P.sides dialogue.new).held result.1 }
    ensures in_turn { RecordsInTurn D.honest (D.story disk) (D.story result.0) every
        (P.story dialogue.old) (P.story dialogue.new) result.1 }
    ensures name { (P.sides dialogue.new).name ≡ (P.sides dialogue.old).name }
{
    let mut listener = Listener::new(disk, every);
    let mut chunk = [0u8; CHUNK];
    for _ in 0..MOST_READS {
        match dialogue.hear(&mut chunk) {
            Ok(0) => return listener.finish(alloc, dialogue),
            Ok(taken) => {
                let (next, outcome) = listener.take(alloc, &chunk[..taken], dialogue);
                listener = next;
                match outcome {
                    Ok(()) => {}
                    Err(fault) => return (listener.into_disk(), Err(fault)),
                }
            }
            Err(why) => return listener.break_off(why, dialogue),
        }
    }
    listener.break_off(ReadFault::TooLarge, dialogue)
}

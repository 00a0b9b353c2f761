// The line of the summary of an activity.

use fit_activity::Summary;
use std::fmt::{self, Formatter, Write};

/// A summary, printed as one line: `ok`, the numbers of records, laps and sessions, and of the first session the start (seconds since
/// 1989-12-31T00:00:00Z), the elapsed and timer time (ms) and the distance (cm). `-` stands for a value that the session does not have.
#[derive(Drop)]
pub struct SummaryLine(pub Summary);

// A number, or `-` for none.
#[derive(Drop)]
struct OrDash(Option<u32>);

impl fmt::Display for OrDash {
    ghost use Rattle.std.specs.Prelude.{Some};
    ghost use Rattle.fit_files.specs.Printed.Summary.{or_dash};

    ghost output = { λ number. Some (or_dash number.0) };

    fn fmt<W: Write>(&self, f: &mut Formatter<W>) -> fmt::Result {
        match self.0 {
            Some(number) => write!(f, "{number}"),
            None => f.write_str("-"),
        }
    }
}

impl fmt::Display for SummaryLine {
    ghost use Rattle.std.specs.Prelude.{Some};
    ghost use Rattle.fit_files.specs.Printed.Summary.{summary_text};

    ghost output = { λ line. Some (summary_text line.0) };

    fn fmt<W: Write>(&self, f: &mut Formatter<W>) -> fmt::Result {
        let Summary {
            records,
            laps,
            sessions,
            ..
        } = self.0;
        write!(f, "ok records={records} laps={laps} sessions={sessions}")?;
        write!(f, " start={}", OrDash(self.0.start))?;
        write!(f, " elapsed_ms={}", OrDash(self.0.elapsed_ms))?;
        write!(f, " timer_ms={}", OrDash(self.0.timer_ms))?;
        write!(f, " distance_cm={}", OrDash(self.0.distance_cm))
    }
}

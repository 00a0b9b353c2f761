// Prints lines.

ghost use Rattle.std.specs.Prelude.{◌≡◌, ◌++◌, [], codes, IfErr, IfSome, OnOk};
ghost use Rattle.fit_grammar.specs.Calls.Output.{WritesText};
ghost use Rattle.fit_text.specs.Pen.{Puts};
ghost use Rattle.fit_files.specs.Printed.Shown.{IsOutputFault};
ghost use Rattle.fit_files.specs.Printed.Summary.{summary_text};

use crate::fault::ReportFault;
use crate::summary::SummaryLine;
use arrayvec::ArrayString;
use fit_activity::Summary;
use fit_text::Pen;
use std::fmt::{Display, Write};
use std::io;

// Room for a line with its end. Every line here is shorter.
const ROOM: usize = 512;

/// Puts a line and its end into the pen.
pub fn put_line<L: Display, O: io::Write>(line: &L, pen: &mut Pen<'_, O>) -> Result<(), ReportFault>
    ensures fault { IfErr result IsOutputFault }
    ensures same { pen.new.name ≡ pen.old.name }
    ensures line { IfSome (L.output line.now) (λ text. Puts pen.old pen.new result (text
        ++ codes "\n")) }
{
    let mut text = ArrayString::<ROOM>::new();
    let Ok(()) = writeln!(text, "{line}") else {
        return Err(ReportFault::Output);
    };
    match pen.put(text.as_str().as_bytes()) {
        Ok(()) => Ok(()),
        Err(_) => Err(ReportFault::Output),
    }
}

/// Hands all that was put to the writer, and flushes the writer.
pub fn flush<O: io::Write>(pen: &mut Pen<'_, O>) -> Result<(), ReportFault>
    ensures fault { IfErr result IsOutputFault }
    ensures none { OnOk result (pen.new.waiting ≡ []) }
    ensures all { Puts pen.old pen.new result [] }
{
    match pen.flush() {
        Ok(()) => Ok(()),
        Err(_) => Err(ReportFault::Output),
    }
}

/// Puts a line, hands all that was put to the writer, and flushes the writer.
pub fn print<L: Display, O: io::Write>(line: &L, pen: &mut Pen<'_, O>) -> Result<(), ReportFault>
    ensures fault { IfErr result IsOutputFault }
    ensures same { pen.new.name ≡ pen.old.name }
    ensures none { OnOk result (pen.new.waiting ≡ []) }
    ensures line { IfSome (L.output line.now) (λ text. Puts pen.old pen.new result (text
        ++ codes "\n")) }
{
    put_line(line, pen)?;
    flush(pen)
}

/// Prints one line, to the last byte. If the output fails, a prefix of it is written.
// Not inlined: its pen would take stack in every caller.
#[inline(never)]
pub fn print_line<L: Display, O: io::Write>(line: &L, out: &mut O) -> Result<(), ReportFault>
    ensures fault { IfErr result IsOutputFault }
    ensures line { IfSome (L.output line.now)
        (λ text. WritesText (O.contents out.old) (O.contents out.new) result (text ++ codes "\n")) }
{
    let mut pen = Pen::new(out);
    let done = print(line, &mut pen);
    let _ = pen.into_writer();
    done
}

/// Prints the line of a summary. If the output fails, a prefix of it is written.
pub fn print_summary<O: io::Write>(summary: Summary, out: &mut O) -> Result<(), ReportFault>
    ensures fault { IfErr result IsOutputFault }
    ensures line { WritesText (O.contents out.old) (O.contents out.new) result
        (summary_text summary ++ codes "\n") }
{
    print_line(&SummaryLine(summary), out)
}

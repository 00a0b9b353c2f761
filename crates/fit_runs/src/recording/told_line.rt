// Tells lines.

ghost use Rattle.std.specs.Prelude.{◌++◌, codes, IfErr, IfSome};
ghost use Rattle.fit_grammar.specs.Calls.Output.{WritesText};
ghost use Rattle.fit_files.specs.Printed.Shown.{IsOutputFault};
ghost use Rattle.fit_runs.specs.Exchanges.{OnlyTells, told};

use crate::Dialogue;
use arrayvec::ArrayString;
use fit_files::ReportFault;
use std::fmt::{Display, Write};

// Room for an answer with its end. Every answer is shorter.
const ROOM: usize = 512;

/// Tells a line and its end.
pub fn tell_line<L: Display, P: Dialogue>(line: &L, dialogue: &mut P) -> Result<(), ReportFault>
    ensures fault { IfErr result IsOutputFault }
    ensures tells { OnlyTells (P.story dialogue.old) (P.story dialogue.new)
        (P.sides dialogue.old) (P.sides dialogue.new) }
    ensures line { IfSome (L.output line.now)
        (λ text. WritesText (told (P.story dialogue.old)) (told (P.story dialogue.new)) result
        (text ++ codes "\n")) }
{
    let mut text = ArrayString::<ROOM>::new();
    let Ok(()) = writeln!(text, "{line}") else {
        return Err(ReportFault::Output);
    };
    match dialogue.tell(text.as_str().as_bytes()) {
        Ok(()) => Ok(()),
        Err(_) => Err(ReportFault::Output),
    }
}

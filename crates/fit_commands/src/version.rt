// The subcommand `version`.

ghost use Rattle.std.specs.Prelude.{IfErr};
ghost use Rattle.fit_grammar.specs.Calls.Output.{WritesText};
ghost use Rattle.fit_commands.specs.declared.version.TheConstants.{VERSION};
ghost use Rattle.fit_commands.specs.Faults.{IsOutputReported};

use crate::fault::Fault;
use fit_grammar::Sink;
use std::io::Write;

/// The version, the kit that proved it, and the checksum of the logic of its proofs.
const VERSION: &str = "fitrec 3.3.0\nrattle-kit-13f\nlogic dac8208d650f15bf\n";

/// Prints them.
pub fn print_version<'a, O: Write>(out: &mut O) -> Result<(), Fault<'a>>
    ensures text { WritesText (O.contents out.old) (O.contents out.new) result VERSION.now }
    ensures reported { IfErr result IsOutputReported }
{
    let Ok(()) = out.put(VERSION.as_bytes()) else {
        return Err(Fault::Write("-"));
    };
    match out.flush() {
        Ok(()) => Ok(()),
        Err(_) => Err(Fault::Write("-")),
    }
}

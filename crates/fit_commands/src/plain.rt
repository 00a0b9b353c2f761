// The subcommand `plain`: a file with the same messages, and each compressed timestamp written out.

ghost use Rattle.fit_commands.specs.Reported.{FormsNamed, transition_of};
ghost use Rattle.fit_commands.specs.Written.{IsCounted, WritesRun};

use crate::beside::write_counted;
use crate::fault::Fault;
use crate::input::{MOST_BYTES, open_file, reported};
use fit_files::{count_messages, plain_input};
use fit_grammar::File;
use fit_places::NamedFiles;
use std::io::Write;

/// Writes the plain form of the file `name` to the file `to`, which may exist, and prints the number of its messages. Both may be one
/// file.
pub fn make_plain<'a, F: NamedFiles + AllocGlobal, O: Write>(
    files: &mut F,
    name: &'a str,
    to: &'a str,
    out: &mut O,
) -> Result<(), Fault<'a>>
    ensures { WritesRun (FormsNamed (F.held files.old name.now) name.entry) IsCounted to.entry
        (transition_of F.held files.old files.new O.contents out.old out.new) result }
{
    let plain = plain_of(files, name)?;
    write_counted(files, to, &plain, count_messages(&plain), out)
}

// The plain form of the file of this name.
pub(crate) fn plain_of<'a, F: NamedFiles + AllocGlobal>(
    files: &F,
    name: &'a str,
) -> Result<File, Fault<'a>>
    ensures { FormsNamed (F.held files.now name.now) name.entry result }
{
    let mut file = open_file(files, name)?;
    reported(name, plain_input(files.alloc(), &mut file, MOST_BYTES))
}

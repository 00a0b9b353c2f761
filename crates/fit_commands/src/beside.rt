// Writes a file whole or not at all, and names the fault if it is not written.

ghost use Rattle.fit_commands.specs.Reported.{transition_of};
ghost use Rattle.fit_commands.specs.Written.{WritesFile, WritesOut, count_line};

use crate::content::Content;
use crate::fault::Fault;
use crate::input::reported;
use fit_files::print_messages;
use fit_places::{NamedFiles, PlaceFault};
use std::io::Write;

/// Writes a content to the file of this name, which may exist, as `NamedFiles::replace` does.
pub fn write_whole<'a, F: NamedFiles, C: Content>(
    files: &mut F,
    name: &'a str,
    content: &C,
) -> Result<(), Fault<'a>>
    ensures { WritesFile (C.bytes content.now) name.entry (F.held files.old) (F.held files.new) result }
{
    match files.replace(name, &Placed { content }) {
        Ok(()) => Ok(()),
        Err(PlaceFault::Memory) => Err(Fault::NoMemory),
        Err(_) => Err(Fault::Write(name)),
    }
}

/// The same, and prints so many messages.
pub fn write_counted<'a, F: NamedFiles, C: Content, O: Write>(
    files: &mut F,
    name: &'a str,
    content: &C,
    count: usize,
    out: &mut O,
) -> Result<(), Fault<'a>>
    ensures { WritesOut (C.bytes content.now) (count_line count) name.entry
        (transition_of F.held files.old files.new O.contents out.old out.new) result }
{
    write_whole(files, name, content)?;
    reported(name, print_messages(count, out))
}

// A content, as a place takes it.
#[derive(Drop)]
struct Placed<'a, C> {
    content: &'a C,
}

impl<C: Content> fit_places::Content for Placed<'_, C> {
    ghost bytes = { λ placed. C.bytes placed.content.now };

    fn write_to<W: Write>(&self, out: &mut W) -> Result<(), PlaceFault> {
        self.content.write_to(out).map_err(|_| PlaceFault::Failed)
    }
}

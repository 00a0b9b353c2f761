// Makes a file in which each compressed timestamp is written out.

ghost use Rattle.std.specs.Prelude.{◌≡◌, ◌++◌, ℕ, List, codes, length, IfErr};
ghost use Rattle.fit_grammar.specs.Calls.Output.{WritesText};
ghost use Rattle.fit_grammar.specs.Calls.Places.{ArePlaces};
ghost use Rattle.fit_grammar.specs.Format.Encoding.{encoded};
ghost use Rattle.fit_grammar.specs.Format.File.{FileOf};
ghost use Rattle.fit_grammar.specs.Format.Message.{messages_of};
ghost use Rattle.fit_files.specs.Calls.Reading.{ReportsInput};
ghost use Rattle.fit_files.specs.Printed.PlainFile.{PlainsTo, messages_text};
ghost use Rattle.fit_files.specs.Printed.Shown.{IsOutputFault};

use crate::decoding::decode_with_places;
use crate::fault::ReportFault;
use crate::printing::print_line;
use fit_grammar::{File, Places, plain_file};
use std::alloc::Global;
use std::fmt::{self, Formatter};
use std::io::{Read, Write};

/// Reads a file of at most `most` bytes from an input, and makes its plain form: the same frame (header size and versions) and
/// messages, and no compressed timestamp.
pub fn plain_input<T: Read>(alloc: Global, from: &mut T, most: usize) -> Result<File, ReportFault>
    ensures { ReportsInput most (T.remaining from.old) (T.remaining from.new) PlainsTo result }
{
    let (file, places) = decode_with_places(alloc, from, most)?;
    plain_of(alloc, &file, &places)
}

// The plain form of a file. `places` has the places of its items in the bytes that it was read from.
pub(crate) fn plain_of(alloc: Global, file: &File, places: &Places) -> Result<File, ReportFault>
    ensures { (bytes : List ℕ) → FileOf bytes file.now → ArePlaces bytes places.now
        → PlainsTo bytes result }
{
    match plain_file(alloc, file, places) {
        Ok(plain) => Ok(plain),
        Err(fault) => Err(ReportFault::Plain(fault)),
    }
}

/// The number of data messages in a file.
pub fn count_messages(file: &File) -> usize
    ensures count { result ≡ length (messages_of file.now.items) }
    // The file can be written.
    ensures file { FileOf (encoded file.now) file.now }
{
    // Every file has fewer than 2^32 messages.
    let _frame = file.frame();
    let mut count = 0;
    for _message in file.messages() {
        count += 1;
    }
    count
}

// The line that counts the messages of a file.
#[derive(Clone, Copy)]
struct MessagesLine(usize);

impl fmt::Display for MessagesLine {
    ghost use Rattle.std.specs.Prelude.{Some};
    ghost use Rattle.fit_files.specs.Printed.PlainFile.{messages_text};

    ghost output = { λ line. Some (messages_text line.0) };

    fn fmt<W: fmt::Write>(&self, f: &mut Formatter<W>) -> fmt::Result {
        write!(f, "messages {}", self.0)
    }
}

/// Prints the number of messages. If the output fails, a prefix of that line is written.
pub fn print_messages<O: Write>(count: usize, out: &mut O) -> Result<(), ReportFault>
    ensures fault { IfErr result IsOutputFault }
    ensures line { WritesText (O.contents out.old) (O.contents out.new) result
        (messages_text count ++ codes "\n") }
{
    print_line(&MessagesLine(count), out)
}

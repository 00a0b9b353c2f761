// The first line: what the header of a file states.

ghost use Rattle.std.specs.Prelude.{◌++◌, decimal};
ghost use Rattle.fit_text.specs.Form.{count_as, header_as};
ghost use Rattle.fit_text.specs.Notation.{words_of};
ghost use Rattle.fit_text.specs.Pen.{Puts};

use crate::notation::Notation;
use crate::writing::Pen;
use fit_grammar::{Frame, Sink};

/// The first line, for this many bytes of records.
pub fn put_header<S: Sink>(
    pen: &mut Pen<'_, S>,
    notation: &Notation,
    frame: Frame,
    size: u32,
) -> Result<(), S::Fault>
    ensures { Puts pen.old pen.new result (header_as (words_of notation.now) frame size) }
{
    put_labelled(pen, notation.header, u64::from(frame.header_size))?;
    put_labelled(pen, notation.protocol, u64::from(frame.protocol / 16))?;
    put_labelled(pen, b".", u64::from(frame.protocol % 16))?;
    put_labelled(pen, notation.profile, u64::from(frame.profile))?;
    put_labelled(pen, notation.records, u64::from(size))?;
    pen.put(notation.header_end)
}

/// The last line, which counts the messages.
pub fn put_count<S: Sink>(
    pen: &mut Pen<'_, S>,
    notation: &Notation,
    messages: u64,
) -> Result<(), S::Fault>
    ensures { Puts pen.old pen.new result (count_as (words_of notation.now) messages) }
{
    put_labelled(pen, notation.count, messages)?;
    pen.put(notation.count_end)
}

/// A word and a number.
pub fn put_labelled<S: Sink>(
    pen: &mut Pen<'_, S>,
    label: &[u8],
    number: u64,
) -> Result<(), S::Fault>
    ensures { Puts pen.old pen.new result (label.now ++ decimal number) }
{
    pen.put(label)?;
    pen.put_number(number)
}

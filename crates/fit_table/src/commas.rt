// The commas of cells that are empty.

ghost use Rattle.std.specs.Prelude.{◌≤◌};
ghost use Rattle.fit_text.specs.Pen.{Puts};
ghost use Rattle.fit_table.specs.Commas.{commas};

use fit_grammar::WriteFailed;
use fit_text::Pen;
use std::io::Write;

/// Puts so many commas, one after another.
#[inline]
pub fn put_commas<W: Write>(pen: &mut Pen<'_, W>, count: usize) -> Result<(), WriteFailed>
    requires { count ≤ 256 }
    ensures { Puts pen.old pen.new result (commas count) }
{
    // Most cells have a value, so most commas stand alone.
    if count == 1 {
        return pen.put(b",");
    }
    // As many as are put at once. The program has them; an array would be made anew in each call.
    let all: &'static [u8] = b",,,,,,,,,,,,,,,,,,,,,,,,,,,,,,,,,,,,,,,,,,,,,,,,,,,,,,,,,,,,,,,,\
        ,,,,,,,,,,,,,,,,,,,,,,,,,,,,,,,,,,,,,,,,,,,,,,,,,,,,,,,,,,,,,,,,\
        ,,,,,,,,,,,,,,,,,,,,,,,,,,,,,,,,,,,,,,,,,,,,,,,,,,,,,,,,,,,,,,,,\
        ,,,,,,,,,,,,,,,,,,,,,,,,,,,,,,,,,,,,,,,,,,,,,,,,,,,,,,,,,,,,,,,,";
    pen.put(&all[..count])
}

// A word of the command line as a message shows it.

ghost use Rattle.std.specs.Prelude.{◌≡◌, ◌<◌, true, Some};
ghost use Rattle.std.specs.Fmt.{digit_glyph, WritesOnOk};
ghost use Rattle.fit_words.specs.Shown.{is_shown, byte_text, character_text, shown_text};

use std::fmt::{self, Display, Formatter, Write};

/// A word, such as the name of a file, as a message shows it: what does not print comes as its bytes, such as `\x1B`, so the word
/// can neither move the cursor nor begin a line. A zero byte is left out: it stands in no word, but in what `text_of_word` gives.
#[derive(Clone, Copy, Drop)]
pub struct ShownWord<'a>(pub &'a str);

impl Display for ShownWord<'_> {
    ghost output = { λ word. Some (shown_text word.0.now) };

    #[tactic(auto, unfolding(crate::specs::Shown::shown_text))]
    fn fmt<W: Write>(&self, f: &mut Formatter<W>) -> fmt::Result {
        for character in self.0.chars() {
            write_character(f, character)?;
        }
        Ok(())
    }
}

#[tactic(auto, unfolding(crate::specs::Shown::character_text))]
fn write_character<W: Write>(f: &mut Formatter<W>, character: char) -> fmt::Result
    ensures { WritesOnOk W.write_str_gives f.old result (character_text character) f.new }
{
    if character == '\0' {
        return Ok(());
    }
    if is_shown(character) {
        return f.write_char(character);
    }
    let mut room = [0; 4];
    for byte in character.encode_utf8(&mut room).bytes() {
        write_byte(f, byte)?;
    }
    Ok(())
}

fn write_byte<W: Write>(f: &mut Formatter<W>, byte: u8) -> fmt::Result
    ensures { WritesOnOk W.write_str_gives f.old result (byte_text byte) f.new }
{
    f.write_str("\\x")?;
    f.write_char(digit(byte / 16))?;
    f.write_char(digit(byte % 16))
}

/// A hexadecimal digit.
pub(crate) fn digit(value: u8) -> char
    requires { value < 16 }
    ensures { result ≡ digit_glyph true value }
{
    char::from(if value < 10 {
        b'0' + value
    } else {
        b'A' - 10 + value
    })
}

// Whether a character is neither a control character, nor one that ends a line, is invisible or turns the direction of the text.
fn is_shown(character: char) -> bool
    ensures { result ≡ is_shown character }
{
    !(character.is_control()
        || matches!(character, '\u{61C}' | '\u{200B}' | '\u{200E}'..='\u{200F}' | '\u{2028}'..='\u{202E}' | '\u{2060}'..='\u{206F}' | '\u{FEFF}'))
}

// Words that are not UTF-8, as text: the command line is read as text, and a file is opened by text.

ghost use Rattle.std.specs.Prelude.{IfOk, string_bytes};
ghost use Rattle.fit_words.specs.Text.{EndsWithZero, IsTextOf};

use crate::shown::digit;
use std::alloc::{AllocError, Global};

/// The text of a word, such as the name of a file: its bytes, if they are UTF-8. Else each byte that is not comes by its number, such as
/// `\xFF`, and a zero byte follows, which `ShownWord` leaves out. No path has a zero byte, so no file is opened by that text.
pub fn text_of_word(alloc: Global, word: &[u8]) -> Result<String, AllocError>
    ensures { IfOk result (λ text. IsTextOf word.now (string_bytes text)) }
{
    match str::from_utf8(word) {
        Ok(text) if !word.contains(&0) => String::from_str(alloc, text),
        _ => marked_text(alloc, word),
    }
}

fn marked_text(alloc: Global, word: &[u8]) -> Result<String, AllocError>
    ensures { IfOk result (λ text. EndsWithZero (string_bytes text)) }
{
    let mut text = String::new(alloc);
    for part in word.utf8_chunks() {
        push_characters(&mut text, part.valid())?;
        for byte in part.invalid() {
            push_byte(&mut text, *byte)?;
        }
    }
    text.push('\0')?;
    Ok(text)
}

// Adds characters as they are, but for zero bytes.
fn push_characters(text: &mut String, characters: &str) -> Result<(), AllocError> {
    for character in characters.chars() {
        if character == '\0' {
            push_byte(text, 0)?;
        } else {
            text.push(character)?;
        }
    }
    Ok(())
}

// Adds a byte by its number.
fn push_byte(text: &mut String, byte: u8) -> Result<(), AllocError> {
    text.push_str("\\x")?;
    text.push(digit(byte / 16))?;
    text.push(digit(byte % 16))
}

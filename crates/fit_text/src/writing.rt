// Text on its way to what takes it.

ghost use Rattle.std.specs.Prelude.{◌≡◌, ◌+◌, ◌≤◌, [], ◌++◌, length, take, decimal, IfOk};
ghost use Rattle.std.specs.Fmt.{signed_decimal};
ghost use Rattle.fit_text.specs.declared.writing.TheConstants.{SIZE, ROOM};
ghost use Rattle.fit_text.specs.Pen.{Written, Puts, Adds, AddsBytes};
ghost use Rattle.fit_text.specs.Plan.{member_name};

mod decimal;
mod label;
mod member;

use decimal::place_number;
use fit_grammar::{Sink, WriteFailed};
pub use label::{LABEL, Label};
use member::place_member;
use std::fmt;
use std::io::Write;
use std::marker::Model;

// The size of the buffer, in bytes.
const SIZE: usize = 32_768;

// The room for a name and a number, in bytes.
const ROOM: usize = 64;

/// Writes text through a buffer of 32768 bytes. It hands the text on when there is no room for more. After an `Err` a prefix of the
/// text was taken.
#[derive(Drop)]
pub struct Pen<'a, S: Sink> {
    bytes: [u8; SIZE],
    // How many bytes wait to be handed over.
    len: usize,
    out: &'a mut S,
}

impl<'a, S: Sink> Model for Pen<'a, S> {
    ghost Value = { Written };

    ghost view = { λ p. record {
      name = p.out.ghost_name;
      held = S.held p.out.now;
      waiting = take p.len p.bytes;
    } };

    ghost invariant = { λ p. p.len ≤ SIZE };
}

impl<'a, S: Sink> Pen<'a, S> {
    /// A pen that has put nothing yet.
    pub fn new(out: &'a mut S) -> Self
        ensures { result
            ≡ record { name = out.entry.ghost_name; held = S.held out.old; waiting = [] } }
    {
        Pen {
            bytes: [0; SIZE],
            len: 0,
            out,
        }
    }

    /// What takes the text. Text that waits is dropped.
    pub fn into_writer(self) -> &'a mut S
        ensures name { result.ghost_name ≡ self.entry.name }
        ensures held { S.held result.now ≡ self.entry.held }
    {
        let Pen { out, .. } = self;
        out
    }

    /// Hands over all text that waits. After an `Err` none waits.
    pub fn hand_over(&mut self) -> Result<(), S::Fault>
        ensures puts { Puts self.old self.new result [] }
        ensures none { IfOk result (λ _. self.new.waiting ≡ []) }
    {
        let text = &self.bytes[..self.len];
        self.len = 0;
        self.out.put(text)
    }

    /// Makes room for 64 bytes. It hands over all text that waits if there is none.
    #[inline]
    pub fn room(&mut self) -> Result<(), S::Fault>
        ensures puts { Puts self.old self.new result [] }
        ensures room { IfOk result (λ _. length self.new.waiting + ROOM ≤ SIZE) }
    {
        if self.len > SIZE - ROOM {
            return self.hand_over();
        }
        Ok(())
    }

    /// Adds a text, for which there is room.
    #[inline]
    pub fn add(&mut self, text: &[u8])
        requires { length self.old.waiting + length text.now ≤ SIZE }
        ensures { Adds self.old self.new text.now }
    {
        let end = self.len + text.len();
        self.bytes[self.len..end].copy_from_slice(text);
        self.len = end;
    }

    /// Adds a label. There is room for the longest one, 32 bytes.
    #[inline]
    pub fn add_label(&mut self, label: &Label)
        requires { length self.old.waiting + 32 ≤ SIZE }
        ensures label { Adds self.old self.new label.now }
        ensures short { length label.now ≤ 32 }
    {
        // A copy of a known length is one or two moves. The bytes after the label are overwritten later.
        let whole = label.bytes;
        let at = self.len;
        self.bytes[at..at + LABEL].copy_from_slice(&whole[..LABEL]);
        self.len = at + label.len;
    }

    /// Adds the name in a label between quotation marks, after a comma if it is not the first, and a colon. There is room for 34 bytes.
    #[inline]
    pub fn add_member(&mut self, label: &Label, is_first: bool)
        requires { length self.old.waiting + 34 ≤ SIZE }
        ensures member { Adds self.old self.new (member_name is_first label.now) }
        ensures short { length self.new.waiting ≤ length self.old.waiting + 34 }
    {
        self.len = place_member(&mut self.bytes, self.len, label, is_first);
    }

    /// Adds a number in decimal. There is room for 21 bytes.
    #[inline]
    pub fn add_number(&mut self, number: u64)
        requires { length self.old.waiting + 21 ≤ SIZE }
        ensures { Adds self.old self.new (decimal number) }
    {
        self.len = place_number(&mut self.bytes, self.len, number);
    }

    /// Puts a text of any length.
    #[inline]
    pub fn put(&mut self, text: &[u8]) -> Result<(), S::Fault>
        ensures { Puts self.old self.new result text.now }
    {
        if text.len() > SIZE - self.len {
            return self.put_beyond(text);
        }
        self.add(text);
        Ok(())
    }

    // Puts a text for which there is no room. If it is longer than the buffer, it is handed over directly.
    #[inline(never)]
    fn put_beyond(&mut self, text: &[u8]) -> Result<(), S::Fault>
        ensures { Puts self.old self.new result text.now }
    {
        self.hand_over()?;
        if text.len() > SIZE {
            return self.out.put(text);
        }
        self.add(text);
        Ok(())
    }

    /// Puts a number in decimal.
    #[inline]
    pub fn put_number(&mut self, number: u64) -> Result<(), S::Fault>
        ensures { Puts self.old self.new result (decimal number) }
    {
        self.room()?;
        self.add_number(number);
        Ok(())
    }

    /// Puts a number in decimal, after `-` if it is negative.
    #[inline]
    pub fn put_signed(&mut self, number: i64) -> Result<(), S::Fault>
        ensures { Puts self.old self.new result (signed_decimal number) }
    {
        self.room()?;
        if number < 0 {
            self.add(b"-");
        }
        self.add_number(number.unsigned_abs());
        Ok(())
    }
}

impl<'a, W: Write> Pen<'a, W> {
    /// Hands over all text that waits, and flushes the writer.
    pub fn flush(&mut self) -> Result<(), WriteFailed>
        ensures puts { Puts self.old self.new result [] }
        ensures none { IfOk result (λ _. self.new.waiting ≡ []) }
    {
        self.hand_over()?;
        self.out.flush().map_err(|_| WriteFailed)
    }
}

impl<S: Sink> fmt::Write for Pen<'_, S> {
    ghost write_str_gives = { AddsBytes };

    fn write_str(&mut self, text: &str) -> fmt::Result {
        self.put(text.as_bytes()).map_err(|_| fmt::Error)
    }
}

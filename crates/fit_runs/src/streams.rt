// A reader and a writer as a dialogue.

ghost use Rattle.std.specs.Prelude.{◌≡◌, ◌≤◌, [], length, take, IfErr, OnOk};
ghost use Rattle.std.specs.Io.KnownBytes.{Appends};

use crate::{Dialogue, Minute, Minutes};
use fit_files::{ReadFault, read_piece};
use fit_grammar::WriteFailed;
use std::io::{Read, Write};

/// A reader and a writer. That its calls come in the order of its minutes is a premise: each call is noted once it is done.
#[derive(Drop)]
pub struct Streams<'a, T, O> {
    pub from: T,
    pub out: &'a mut O,
    pub minutes: Minutes,
}

impl<'a, T: Read + Drop, O: Write> Streams<'a, T, O> {
    /// A dialogue at which nothing has passed.
    pub fn new(from: T, out: &'a mut O) -> Self
        ensures from { result.from ≡ from }
        ensures name { result.out.ghost_name ≡ out.entry.ghost_name }
        ensures out { result.out.now ≡ out.old }
        ensures none { result.minutes.story ≡ [] }
    {
        Streams {
            from,
            out,
            minutes: Minutes::new(),
        }
    }

    /// The writer.
    pub fn into_writer(self) -> &'a mut O
        ensures name { result.ghost_name ≡ self.entry.out.ghost_name }
        ensures held { result.now ≡ self.entry.out.now }
    {
        let Streams { out, .. } = self;
        out
    }
}

impl<T: Read, O: Write> Dialogue for Streams<'_, T, O> {
    ghost story = { λ streams. streams.minutes.story };

    ghost sides = { λ streams. record {
      name = streams.out.ghost_name;
      left = T.remaining streams.from;
      held = O.contents streams.out.now;
    } };

    fn hear(&mut self, piece: &mut [u8]) -> Result<usize, ReadFault> {
        match read_piece(&mut self.from, piece) {
            Ok(count) => {
                self.minutes.note(&Minute::Heard, &piece[..count]);
                Ok(count)
            }
            Err(_) => {
                let why = ReadFault::Failed;
                self.minutes.note(&Minute::HearFailed(why), &[]);
                Err(why)
            }
        }
    }

    fn tell(&mut self, text: &[u8]) -> Result<(), WriteFailed> {
        match write_front(self.out, text) {
            Ok(()) => {
                self.minutes.note(&Minute::Told, text);
                Ok(())
            }
            Err(count) => {
                self.minutes.note(&Minute::TellFailed, &text[..count]);
                Err(WriteFailed)
            }
        }
    }
}

// Writes a text and flushes the writer. After an `Err` so many bytes of the text were written.
fn write_front<O: Write>(out: &mut O, text: &[u8]) -> Result<(), usize>
    ensures all { OnOk result (Appends (O.contents out.old) (O.contents out.new) text.now) }
    ensures within { IfErr result (λ count. count ≤ length text.now) }
    ensures front { IfErr result (λ count.
        Appends (O.contents out.old) (O.contents out.new) (take count text.now)) }
{
    let mut count = 0;
    while count < text.len() {
        match out.write(&text[count..]) {
            Ok(0) | Err(_) => return Err(count),
            Ok(taken) => count += taken,
        }
    }
    match out.flush() {
        Ok(()) => Ok(()),
        Err(_) => Err(count),
    }
}

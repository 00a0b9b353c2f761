// A dialogue in memory.

use crate::{Dialogue, Streams};
use fit_files::ReadFault;
use fit_grammar::WriteFailed;
use std::alloc::Global;
use std::io::{Read, Write};

/// A dialogue whose answers are kept in memory. It notes how many bytes were told before each read.
#[derive(Drop)]
pub struct Rehearsal<'a, T> {
    streams: Streams<'a, T, Vec<u8>>,
    told: usize,
    pub told_before_reads: Vec<usize>,
}

impl<'a, T: Read + Drop> Rehearsal<'a, T> {
    /// A dialogue at which nothing has passed.
    pub fn new(alloc: Global, from: T, out: &'a mut Vec<u8>) -> Self {
        Rehearsal {
            streams: Streams::new(from, out),
            told: 0,
            told_before_reads: Vec::new(alloc),
        }
    }
}

impl<T: Read> Dialogue for Rehearsal<'_, T> {
    ghost use Rattle.fit_runs.specs.Exchanges.{Sides};

    ghost story = { λ rehearsal. rehearsal.streams.minutes.story };

    ghost sides = { λ rehearsal. record {
      name = rehearsal.streams.out.ghost_name;
      left = T.remaining rehearsal.streams.from;
      held = ⟦<Vec<u8> as Write>⟧.contents rehearsal.streams.out.now;
    } };

    fn hear(&mut self, piece: &mut [u8]) -> Result<usize, ReadFault> {
        let _ = self.told_before_reads.push(self.told);
        self.streams.hear(piece)
    }

    fn tell(&mut self, text: &[u8]) -> Result<(), WriteFailed> {
        self.told = self.told.saturating_add(text.len());
        self.streams.tell(text)
    }
}

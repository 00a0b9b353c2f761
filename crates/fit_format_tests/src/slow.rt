// A writer that is slow and may fail.

use std::alloc::Global;
use std::io::{self, Write};

// A writer that takes at most so many bytes a call, and refuses each call after so many calls.
#[derive(Drop)]
pub(crate) struct Slow {
    held: Vec<u8>,
    step: usize,
    calls: usize,
}

impl Slow {
    pub(crate) fn new(alloc: Global, step: usize, calls: usize) -> Slow {
        let held = Vec::new(alloc);
        Slow { held, step, calls }
    }

    pub(crate) fn written(&self) -> &[u8] {
        &self.held
    }
}

impl Write for Slow {
    fn write(&mut self, buf: &[u8]) -> io::Result<usize> {
        if self.calls == 0 {
            return Err(io::Error::from(io::ErrorKind::BrokenPipe));
        }
        self.calls -= 1;
        let taken = buf.len().min(self.step);
        self.held.write(&buf[..taken])
    }

    fn flush(&mut self) -> io::Result<()> {
        Ok(())
    }
}

// An output that fails.

use std::alloc::Global;
use std::io::{self, Write};

// A writer that takes at most so many bytes a call, and refuses one call, or all calls from it on.
#[derive(Drop)]
pub struct Failing {
    pub held: Vec<u8>,
    pub step: usize,
    // How many calls come before the refused one.
    pub calls: usize,
    pub recovers: bool,
    // How many flushes come before the one that is refused.
    pub flushes: usize,
}

impl Failing {
    pub fn new(alloc: Global, step: usize, calls: usize) -> Failing {
        Failing {
            held: Vec::new(alloc),
            step,
            calls,
            recovers: false,
            flushes: usize::MAX,
        }
    }
}

impl Write for Failing {
    fn write(&mut self, buf: &[u8]) -> io::Result<usize> {
        if self.calls == 0 {
            if self.recovers {
                self.calls = usize::MAX;
            }
            return Err(io::Error::from(io::ErrorKind::BrokenPipe));
        }
        self.calls -= 1;
        let taken = buf.len().min(self.step);
        self.held.write(&buf[..taken])
    }

    fn flush(&mut self) -> io::Result<()> {
        let is_refused = self.flushes == 0;
        self.flushes = self.flushes.wrapping_sub(1);
        match is_refused {
            false => Ok(()),
            true => Err(io::Error::from(io::ErrorKind::BrokenPipe)),
        }
    }
}

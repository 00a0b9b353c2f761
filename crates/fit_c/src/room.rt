// What takes bytes into a caller's buffer. It takes all bytes, and keeps them if they have room.

ghost use Rattle.std.specs.Prelude.{◌≡◌, ◌+◌, ◌<◌, ◌≤◌, ◌⊎◌, ◌++◌, [], true, false, length, take};
ghost use Rattle.std.specs.Io.Iter.{u64_saturate};

use crate::tape::Tape;
use fit_grammar::Sink;
use std::convert::Infallible;

// What was to be written does not fit into the buffer.
pub const NO_ROOM: u8 = 20;

#[derive(Drop)]
pub struct Room<'a> {
    pub bytes: &'a mut [u8],
    // How many bytes were taken, or 2^64 - 1 if they are more.
    pub len: usize,
    // Whether the buffer has them all.
    pub has_all: bool,
    pub tape: Tape,
    pub ghost counted: { len ≡ u64_saturate (length tape.bytes) },
    pub ghost kept: { has_all ≡ true → take (length tape.bytes) bytes.now ≡ tape.bytes },
    pub ghost fit: { has_all ≡ true → length tape.bytes ≤ length bytes.now },
    pub ghost short: { has_all ≡ false → length bytes.now < length tape.bytes },
}

impl<'a> Room<'a> {
    // No bytes were taken.
    pub fn new(bytes: &'a mut [u8]) -> Room<'a>
        ensures buffer { result.bytes ≡ bytes.entry }
        ensures none { result.tape.bytes ≡ [] }
    {
        Room {
            bytes,
            len: 0,
            has_all: true,
            tape: Tape::new(),
        }
    }

    // The code of a call that wrote these bytes.
    pub fn code(&self) -> u8
        ensures code { (result ≡ 0) ⊎ (result ≡ 20) }
        ensures ok { result ≡ 0 → take self.now.len self.now.bytes.now ≡ self.now.tape.bytes }
        ensures within { result ≡ 0 → self.now.len ≤ length self.now.bytes.now }
        ensures no_room { result ≡ 20 → length self.now.bytes.now < length self.now.tape.bytes }
    {
        if self.has_all { 0 } else { NO_ROOM }
    }
}

impl Sink for Room<'_> {
    ghost use Rattle.fit_c.specs.Room.{held_by};

    type Fault = Infallible;

    ghost held = { held_by };

    fn put(&mut self, bytes: &[u8]) -> Result<(), Infallible> {
        self.has_all = self.has_all && bytes.len() <= self.bytes.len() - self.len;
        if self.has_all {
            copy_to(self.bytes, self.len, bytes);
        }
        self.len = self.len.saturating_add(bytes.len());
        self.tape.add(bytes);
        Ok(())
    }
}

// Writes after what is already there.
pub fn copy_to(room: &mut [u8], at: usize, bytes: &[u8])
    requires { at + length bytes.now ≤ length room.old }
    ensures content { take (at + length bytes.now) room.new ≡ take at room.old ++ bytes.now }
    ensures long { length room.new ≡ length room.old }
{
    room[at..at + bytes.len()].copy_from_slice(bytes);
}

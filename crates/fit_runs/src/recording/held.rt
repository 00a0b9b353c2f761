// The bytes of a line that has not ended.

ghost use Rattle.std.specs.Prelude.{◌≡◌, ◌≢◌, ◌++◌, ◌∷◌, ◌<◌, List, ℕ, [], length, true, false, IfSome};
ghost use Rattle.fit_runs.specs.Rides.Heard.{IsHeld, line_of, without_return};

use arrayvec::ArrayVec;

/// The greatest number of bytes of a line.
pub const MOST_LINE: usize = 4_096;

// A carriage return may follow.
const ROOM: usize = 4_097;

/// The bytes of a line that has not ended. Of a longer line only the first are kept.
#[derive(Drop)]
pub struct Held {
    pub bytes: ArrayVec<u8, ROOM>,
    /// Whether there were more bytes than are kept.
    pub is_long: bool,
}

impl Held {
    /// No byte yet.
    pub fn new() -> Self
        ensures { IsHeld [] result }
    {
        Held {
            bytes: ArrayVec::new(),
            is_long: false,
        }
    }

    /// Adds a byte.
    pub fn add(&mut self, byte: u8)
        ensures { (line : List ℕ) → IsHeld line self.old → IsHeld (line ++ byte ∷ []) self.new }
    {
        if self.bytes.is_full() {
            self.is_long = true;
        } else {
            self.bytes.push(byte);
        }
    }

    /// Whether there is no byte.
    pub fn is_empty(&self) -> bool
        ensures none { (line : List ℕ) → IsHeld line self.now → result ≡ true → line ≡ [] }
        ensures some { (line : List ℕ) → IsHeld line self.now → result ≡ false → line ≢ [] }
    {
        self.bytes.is_empty() && !self.is_long
    }

    /// The line, without the carriage return at its end if it has ended. `None` if it is too long.
    pub fn line(&self, is_ended: bool) -> Option<&[u8]>
        ensures line { (line : List ℕ) → IsHeld line self.now
            → IfSome result (λ found. found.now ≡ line_of is_ended line) }
        ensures long { (line : List ℕ) → IsHeld line self.now → result ≡ None
            → 4096 < length (line_of is_ended line) }
    {
        if self.is_long {
            return None;
        }
        let line = without_return(self.bytes.as_slice(), is_ended);
        if line.len() > MOST_LINE {
            return None;
        }
        Some(line)
    }
}

// Bytes without the carriage return at their end, if they have ended.
fn without_return(bytes: &[u8], is_ended: bool) -> &[u8]
    ensures { result.now ≡ line_of is_ended bytes.now }
{
    if is_ended && bytes.last() == Some(&b'\r') {
        &bytes[..bytes.len() - 1]
    } else {
        bytes
    }
}

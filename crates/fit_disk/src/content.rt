// What a read gives of a known content.

ghost use Rattle.std.specs.Prelude.{◌≡◌, ◌≤◌, false, length, IsTrue};
ghost use Rattle.fit_disk.specs.Calls.{ReadsAt};
ghost use Rattle.fit_disk.specs.Witness.{IsPart};

/// Copies the content from a place on into the front of the buffer, as far as both go, and returns the number
/// of bytes. From the end of the content on it is 0.
pub fn copy_from(content: &[u8], at: u64, buffer: &mut [u8]) -> usize
    ensures within { result ≤ length buffer.old }
    ensures bytes { ReadsAt content.now at (length buffer.old) buffer.new result }
{
    if at >= content.len() as u64 {
        return 0;
    }
    let rest = &content[at as usize..];
    let count = rest.len().min(buffer.len());
    buffer[..count].copy_from_slice(&rest[..count]);
    count
}

/// Whether one read of the content from a place on, into so much room, may give these bytes.
pub(crate) fn is_part(content: &[u8], at: u64, room: usize, bytes: &[u8]) -> bool
    ensures yes { IsTrue result → IsPart content.now at room bytes.now }
    ensures no { result ≡ false → IsPart content.now at room bytes.now → ⊥ }
{
    if at >= content.len() as u64 {
        return bytes.is_empty();
    }
    if bytes.is_empty() {
        return room == 0;
    }
    content[at as usize..].starts_with(bytes)
}

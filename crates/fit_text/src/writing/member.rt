// Names as they begin the members of a JSON object.

ghost use Rattle.std.specs.Prelude.{◌<◌, ◌≤◌, ◌+◌, ◌∷◌, [], ◌++◌, codes, length};
ghost use Rattle.fit_text.specs.Pen.{Places};
ghost use Rattle.fit_text.specs.Plan.{inner, member_name, separator};

use crate::writing::label::{LABEL, Label};

/// Places the name in a label between quotation marks, after a comma if it is not the first, and a colon. Returns the place after them.
/// It may change some of the bytes after that.
#[inline]
pub fn place_member(bytes: &mut [u8], at: usize, label: &Label, is_first: bool) -> usize
    requires { at + 34 ≤ length bytes.old }
    ensures place { Places bytes.old bytes.new at
        (member_name is_first label.now) result }
    ensures short { result ≤ at + 34 }
{
    let at = place_opening(bytes, at, is_first);
    let at = place_inner(bytes, at, label);
    let at = place_byte(bytes, at, b'"');
    place_byte(bytes, at, b':')
}

// What is in front of a name: a comma if it is not the first, and a quotation mark.
#[inline]
fn place_opening(bytes: &mut [u8], at: usize, is_first: bool) -> usize
    requires { at + 2 ≤ length bytes.old }
    ensures place { Places bytes.old bytes.new at (separator (codes ",") is_first ++ codes "\"") result }
    ensures short { result ≤ at + 2 }
{
    if is_first {
        return place_byte(bytes, at, b'"');
    }
    let at = place_byte(bytes, at, b',');
    place_byte(bytes, at, b'"')
}

// A label without its first and its last byte.
#[inline]
fn place_inner(bytes: &mut [u8], at: usize, label: &Label) -> usize
    requires { at + 32 ≤ length bytes.old }
    ensures place { Places bytes.old bytes.new at (inner label.now) result }
    ensures short { result ≤ at + 30 }
{
    // As in `add_label` of `Pen`.
    let whole = label.bytes;
    bytes[at..at + LABEL].copy_from_slice(&whole[1..]);
    at + label.len.saturating_sub(2)
}

#[inline]
fn place_byte(bytes: &mut [u8], at: usize, byte: u8) -> usize
    requires { at < length bytes.old }
    ensures { Places bytes.old bytes.new at (byte ∷ []) result }
{
    bytes[at] = byte;
    at + 1
}

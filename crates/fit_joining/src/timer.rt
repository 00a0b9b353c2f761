// The events that stop the timer after a part and start it with the next.

ghost use Rattle.std.specs.Prelude.{◌≡◌, Some};
ghost use Rattle.fit_grammar.specs.Format.Encoding.{encoded_items};
ghost use Rattle.fit_grammar.specs.Calls.CheckedOutput.{WritesChecked};
ghost use Rattle.fit_joining.specs.JoinedItems.{event_items};

use fit_base::Crc;
use fit_grammar::{Sink, put_checked};

// Writes an event of the timer at this time, if there is one.
pub(crate) fn put_event_at<S: Sink>(
    time: Option<u32>,
    event_type: u8,
    out: &mut S,
    checksum: &mut Crc,
) -> Result<(), S::Fault>
    ensures { WritesChecked (S.held out.old)
        (S.held out.new) checksum.old checksum.new result
        (encoded_items (event_items time event_type)) }
{
    match time {
        Some(time) => put_checked(out, checksum, &event_bytes(time, event_type)),
        None => put_checked(out, checksum, &[]),
    }
}

// The bytes of an event of the timer, and before it of a definition of its fields: timestamp, event and event_type.
fn event_bytes(time: u32, event_type: u8) -> [u8; 22]
    ensures { result ≡ encoded_items (event_items (Some time) event_type) }
{
    let [a, b, c, d] = time.to_le_bytes();
    [
        0x40, 0, 0, 21, 0, 3, 253, 4, 0x86, 0, 1, 0, 1, 1, 0, 0, a, b, c, d, 0, event_type,
    ]
}

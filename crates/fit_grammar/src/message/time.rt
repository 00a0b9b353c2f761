// The time of a message.

ghost use Rattle.std.specs.Prelude.{◌≡◌};
ghost use Rattle.fit_grammar.specs.Format.Message.{next_time as next_time_of, compressed_time as compressed_time_of, stated_by, time_stated};
ghost use Rattle.fit_grammar.specs.Calls.LentField.{field_view};

use crate::message::{Field, Fields};
use fit_base::BaseType;

// The least time that is not below the one before and equals the offset modulo 32, wrapped at 2^32.
fn next_time(before: u32, offset: u8) -> u32
    ensures { result ≡ next_time_of before offset }
{
    before.wrapping_add((u32::from(offset) + 32 - before % 32) % 32)
}

// The time of a compressed timestamp, if one is given.
pub(crate) fn compressed_time(before: u32, offset: Option<u8>) -> Option<u32>
    ensures { result ≡ compressed_time_of before offset }
{
    match offset {
        Some(offset) => Some(next_time(before, offset)),
        None => None,
    }
}

impl<'m> Fields<'m> {
    /// The time that the fields state: the value of the first field 253 of base type 0x86 and size 4 that is not invalid.
    pub fn stated_time(self) -> Option<u32>
        ensures { result ≡ time_stated self.entry }
    {
        for field in self {
            let time = time_by(&field);
            if time.is_some() {
                return time;
            }
        }
        None
    }
}

// The time that a field states, if it is field 253 of base type 0x86.
fn time_by(field: &Field) -> Option<u32>
    ensures { result ≡ stated_by (field_view field.now) }
{
    if field.number == 253 {
        field.value_as(BaseType::Uint32)
    } else {
        None
    }
}

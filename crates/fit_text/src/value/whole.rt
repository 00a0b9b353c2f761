// Whole numbers of fields, for which there is room.

ghost use Rattle.std.specs.Prelude.{◌≡◌, ◌<◌, ◌≤◌, ◌+◌, ◌*◌, ◌^◌, length};
ghost use Rattle.fit_text.specs.declared.writing.TheConstants.{SIZE};
ghost use Rattle.fit_text.specs.Pen.{Adds};
ghost use Rattle.fit_text.specs.Plan.{signed_of, unsigned_of};

use crate::writing::Pen;
use fit_grammar::Sink;

/// A number, or what stands for the invalid one.
#[inline(always)]
pub fn add_unsigned<S: Sink>(pen: &mut Pen<'_, S>, none: &[u8], invalid: u64, number: u64)
    requires room { length pen.old.waiting + 21 ≤ SIZE }
    requires short { length none.now ≤ 4 }
    ensures { Adds pen.old pen.new (unsigned_of none.now invalid number) }
{
    if number == invalid {
        pen.add(none);
    } else {
        pen.add_number(number);
    }
}

/// The same for a number with a sign. The invalid one is the greatest.
#[inline(always)]
pub fn add_signed<S: Sink>(pen: &mut Pen<'_, S>, none: &[u8], invalid: u64, number: u64)
    requires room { length pen.old.waiting + 22 ≤ SIZE }
    requires short { length none.now ≤ 4 }
    requires fits { number < 2 * invalid + 2 }
    requires limit { 2 * invalid + 2 ≤ 2 ^ 64 }
    ensures { Adds pen.old pen.new (signed_of none.now invalid number) }
{
    if number == invalid {
        pen.add(none);
    } else if number <= invalid {
        pen.add_number(number);
    } else {
        pen.add(b"-");
        pen.add_number(invalid - (number - invalid - 1) + 1);
    }
}

// Times that are shown as dates.

ghost use Rattle.std.specs.Prelude.{◌≡◌, ◌<◌, ◌^◌};
ghost use Rattle.fit_text.specs.Date.{dates_of, date_text};
ghost use Rattle.fit_text.specs.Notation.{words_of};
ghost use Rattle.fit_text.specs.Pen.{Puts};
ghost use Rattle.fit_text.specs.Plan.{date_of};
ghost use Rattle.fit_text.specs.Values.{marked};

use crate::notation::Notation;
use crate::writing::Pen;
use fit_grammar::Sink;
use fit_profile::times_of;
use jiff::Timestamp;
use jiff::fmt::temporal::DateTimePrinter;

// The first calendar time. A time below it counts from when the device was switched on.
const FIRST_DATE: u32 = 0x1000_0000;

// From 1970-01-01T00:00:00Z to 1989-12-31T00:00:00Z, in seconds.
const FIT_EPOCH: i64 = 631_065_600;

/// The numbers of the fields that are shown as dates in messages with this global number: those that hold times if `utc` is set, else none.
pub fn dates_of(utc: bool, global: u16) -> &'static [u8]
    ensures { result.now ≡ dates_of utc global }
{
    if !utc {
        return &[];
    }
    times_of(global)
}

/// A time as a date if it is a calendar time, else as a number.
pub fn put_date_or_number<S: Sink>(
    pen: &mut Pen<'_, S>,
    notation: &Notation,
    time: u32,
) -> Result<(), S::Fault>
    ensures { Puts pen.old pen.new result (date_of (words_of notation.now) time) }
{
    if time == u32::MAX {
        return pen.put(notation.invalid);
    }
    if time >= FIRST_DATE {
        put_marked_date(pen, notation, time)
    } else {
        pen.put_number(u64::from(time))
    }
}

/// A date between the marks of a notation.
pub fn put_marked_date<S: Sink>(
    pen: &mut Pen<'_, S>,
    notation: &Notation,
    time: u32,
) -> Result<(), S::Fault>
    ensures { Puts pen.old pen.new result (marked (words_of notation.now) (date_text time)) }
{
    pen.put(notation.mark)?;
    put_date(pen, time)?;
    pen.put(notation.mark)
}

/// A time as a date in UTC, such as `2021-09-08T01:46:40Z`.
pub fn put_date<S: Sink>(pen: &mut Pen<'_, S>, time: u32) -> Result<(), S::Fault>
    ensures { Puts pen.old pen.new result (date_text time) }
{
    match Timestamp::from_second(i64::from(time) + FIT_EPOCH) {
        Ok(instant) => {
            let text = DateTimePrinter::new().timestamp_text(instant.to_plain());
            pen.put(text.as_str().as_bytes())
        }
        Err(_) => unreachable!(),
    }
}

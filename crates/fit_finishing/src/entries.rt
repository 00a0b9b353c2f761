// The entry that a message gives, whoever wrote it.

ghost use Rattle.std.specs.Prelude.{◌≡◌, ◌≤◌, ◌<◌, ◌^◌, IfSome, map};
ghost use Rattle.fit_base.specs.Base.{row_of};
ghost use Rattle.fit_grammar.specs.Format.OneValue.{value_of as value_stated};
ghost use Rattle.fit_activity.specs.Rides.Fields.{sample_rows};
ghost use Rattle.fit_activity.specs.Rides.Table.{ValuesFit};
ghost use Rattle.fit_finishing.specs.Entries.{time_in as time_stated, sample_in as sample_stated, timer_entry, event_entry, entry_in as entry_stated};

use fit_activity::{Entry, FIELDS, SAMPLE_FIELDS, Sample, SampleField};
use fit_base::BaseType;
use fit_grammar::Message;

// The entry of a record, a lap or an event of the timer. A stop pauses, because a ride may go on after it.
pub(crate) fn entry_in(message: &Message) -> Option<Entry>
    ensures { result ≡ entry_stated message.now.message }
{
    match message.global() {
        19 => Some(Entry::Lap(time_in(message))),
        20 => Some(Entry::Sample(sample_in(message))),
        21 => event_in(message),
        _ => None,
    }
}

// The timestamp; the invalid time if there is none.
fn time_in(message: &Message) -> u32
    ensures { result ≡ time_stated message.now.message }
{
    message.value_of(253, BaseType::Uint32).unwrap_or(u32::MAX)
}

// The sample of a record.
fn sample_in(message: &Message) -> Sample
    ensures { result ≡ sample_stated message.now.message }
{
    Sample::of_raw(time_in(message), values_in(message))
}

// The values of a sample's fields, in the order of the table.
fn values_in(message: &Message) -> [Option<u32>; FIELDS]
    ensures values { result
        ≡ map (λ row. value_stated row.1 row.0 message.now.message) sample_rows }
    ensures fit { ValuesFit sample_rows result }
{
    [
        value_at(message, &SAMPLE_FIELDS[0]),
        value_at(message, &SAMPLE_FIELDS[1]),
        value_at(message, &SAMPLE_FIELDS[2]),
        value_at(message, &SAMPLE_FIELDS[3]),
        value_at(message, &SAMPLE_FIELDS[4]),
        value_at(message, &SAMPLE_FIELDS[5]),
        value_at(message, &SAMPLE_FIELDS[6]),
        value_at(message, &SAMPLE_FIELDS[7]),
        value_at(message, &SAMPLE_FIELDS[8]),
        value_at(message, &SAMPLE_FIELDS[9]),
        value_at(message, &SAMPLE_FIELDS[10]),
    ]
}

// The value of a row's field.
fn value_at(message: &Message, row: &SampleField) -> Option<u32>
    requires { (row_of row.now.1).size ≤ 4 }
    ensures value { result ≡ value_stated row.now.1 row.now.0 message.now.message }
    ensures fits { IfSome result (λ n. n < 256 ^ (row_of row.now.1).size) }
{
    message.value_of(row.0, row.1)
}

// The entry of an event, if it is one of the timer.
fn event_in(message: &Message) -> Option<Entry>
    ensures { result ≡ event_entry message.now.message }
{
    if message.value_of(0, BaseType::Enum)? != 0 {
        return None;
    }
    timer_entry_of(time_in(message), message.value_of(1, BaseType::Enum)?)
}

// The entry of an event of the timer at this time, of this type.
fn timer_entry_of(time: u32, event_type: u32) -> Option<Entry>
    ensures { result ≡ timer_entry time event_type }
{
    match event_type {
        0 => Some(Entry::Resume(time)),
        1 | 4 | 8 | 9 => Some(Entry::Pause(time)),
        _ => None,
    }
}

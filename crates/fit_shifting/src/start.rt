// When the ride of a file begins.

ghost use Rattle.std.specs.Prelude.{◌≡◌};
ghost use Rattle.fit_grammar.specs.Format.Message.{messages_of};
ghost use Rattle.fit_shifting.specs.Start.{first_of_record as record_time, first_time as time_of_any, start_of};

use fit_grammar::LentFile;

/// The time of the first record that has one, or else of the first message that has one: seconds since 1989-12-31 00:00 UTC, or, below
/// 0x10000000, since the device was turned on.
pub fn start_of(file: &LentFile<'_>) -> Option<u32>
    ensures { result ≡ start_of (messages_of file.now.items) }
{
    match first_of_record(file) {
        Some(time) => Some(time),
        None => first_time(file),
    }
}

// The first time that a record states.
fn first_of_record(file: &LentFile<'_>) -> Option<u32>
    ensures { result ≡ record_time (messages_of file.now.items) }
{
    for message in file.messages() {
        if message.global() == 20 {
            let time = message.fields().stated_time();
            if time.is_some() {
                return time;
            }
        }
    }
    None
}

// The first time that a message states.
fn first_time(file: &LentFile<'_>) -> Option<u32>
    ensures { result ≡ time_of_any (messages_of file.now.items) }
{
    for message in file.messages() {
        let time = message.fields().stated_time();
        if time.is_some() {
            return time;
        }
    }
    None
}

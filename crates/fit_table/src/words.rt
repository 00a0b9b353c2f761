// The numbers of messages and fields that words name.

ghost use Rattle.std.specs.Prelude.{◌≡◌, ◌≤◌, ◌++◌, ℕ, IsTrue, ◌↔◌, None, IfSome, decimal, option_map, if◌then◌else◌};
ghost use Rattle.fit_profile.specs.Known.{known_named};
ghost use Rattle.fit_profile.specs.Table.{message_named};
ghost use Rattle.fit_table.specs.Table.{name_of, title_of};

use fit_profile::{known_name, message_name, row_by};
use itoa::Buffer;

/// The global number of the messages that this word names, such as `lap`, or `message_23` for those that have no name.
pub fn message_of_word(profile: bool, word: &str) -> Option<u16>
    ensures named { IfSome result (λ number. title_of profile number ≡ word.now) }
    ensures none { result ≡ None
        → (number : ℕ) → number ≤ 65535 → title_of profile number ≡ word.now → ⊥ }
{
    let mut number = 0;
    while !is_message(profile, number, word) {
        if number == u16::MAX {
            return None;
        }
        number += 1;
    }
    Some(number)
}

/// The number of the field that this word names in messages with this global number, such as `heart_rate`, or `field_39` for one that
/// has no name.
pub fn field_of_word(profile: bool, message: u16, word: &str) -> Option<u8>
    ensures named { IfSome result (λ number. name_of profile message number ≡ word.now) }
    ensures none { result ≡ None
        → (number : ℕ) → number ≤ 255 → name_of profile message number ≡ word.now → ⊥ }
{
    let mut number = 0;
    while !is_field(profile, message, number, word) {
        if number == u8::MAX {
            return None;
        }
        number += 1;
    }
    Some(number)
}

#[tactic(auto, unfolding(crate::specs::Table::title_of))]
fn is_message(profile: bool, number: u16, word: &str) -> bool
    ensures { IsTrue result ↔ (title_of profile number ≡ word.now) }
{
    match name_of_message(profile, number) {
        Some(name) => name == word,
        None => match word.strip_prefix("message_") {
            Some(digits) => is_number(u64::from(number), digits),
            None => false,
        },
    }
}

fn name_of_message(profile: bool, number: u16) -> Option<&'static str>
    ensures { option_map (λ name. name.now) result
        ≡ (if profile then message_named number else known_named number) }
{
    if profile {
        message_name(number)
    } else {
        known_name(number)
    }
}

fn is_field(profile: bool, message: u16, number: u8, word: &str) -> bool
    ensures { IsTrue result ↔ (name_of profile message number ≡ word.now) }
{
    match row_by(profile, message, number) {
        Some(row) => row.1 == word,
        None => match word.strip_prefix("field_") {
            Some(digits) => is_number(u64::from(number), digits),
            None => false,
        },
    }
}

fn is_number(number: u64, digits: &str) -> bool
    ensures { IsTrue result ↔ (decimal number ≡ digits.now) }
{
    let mut buffer = Buffer::new();
    buffer.format(number) == digits
}

// The sport of a file.

ghost use Rattle.std.specs.Prelude.{◌≡◌};
ghost use Rattle.fit_base.specs.declared.base.BaseType.TheVariants.{Enum};
ghost use Rattle.fit_grammar.specs.Format.Message.{messages_of};
ghost use Rattle.fit_grammar.specs.Format.OneValue.{value_of};
ghost use Rattle.fit_finishing.specs.Sports.{first_sport, generic, sport_at, sport_heard, sport_value};

use fit_base::BaseType;
use fit_grammar::{LentFile, Message};

/// A sport and its sub_sport, by their numbers in the profile; 0 is generic.
#[derive(Clone, Copy)]
pub struct SportStated {
    pub sport: u8,
    pub sub_sport: u8,
}

// What states none.
const GENERIC: SportStated = SportStated {
    sport: 0,
    sub_sport: 0,
};

/// The sport of the first sport message, session or lap that states one.
pub fn first_sport(file: &LentFile<'_>) -> Option<SportStated>
    ensures { result ≡ first_sport (messages_of file.now.items) }
{
    for message in file.messages() {
        if let Some(sport) = stated_sport(&message) {
            return Some(sport);
        }
    }
    None
}

// The first sport that a file states, else generic.
pub(crate) fn sport_in(file: &LentFile<'_>) -> SportStated
    ensures { result ≡ sport_heard (messages_of file.now.items) }
{
    first_sport(file).unwrap_or(GENERIC)
}

/// The sport that a sport message, a session or a lap states.
pub fn stated_sport(message: &Message) -> Option<SportStated>
    ensures { result ≡ sport_value message.now.message }
{
    match message.global() {
        12 => sport_in_fields(message, 0, 1),
        18 => sport_in_fields(message, 5, 6),
        19 => sport_in_fields(message, 25, 39),
        _ => None,
    }
}

// The sport in a field of this number, with the sub_sport in another.
fn sport_in_fields(message: &Message, sport: u8, sub_sport: u8) -> Option<SportStated>
    ensures { result ≡ sport_at sport sub_sport message.now.message }
{
    Some(SportStated {
        sport: enum_in(message, sport)?,
        sub_sport: enum_in(message, sub_sport).unwrap_or(0),
    })
}

// The value of an enum.
fn enum_in(message: &Message, number: u8) -> Option<u8>
    ensures { result ≡ value_of Enum number message.now.message }
{
    Some(message.value_of(number, BaseType::Enum)? as u8)
}

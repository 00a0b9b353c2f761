// How many of the first bytes are a row of whole items.

ghost use Rattle.std.specs.Prelude.{◌≡◌};
ghost use Rattle.fit_grammar.specs.Calls.LongestFront.{IsLongestFront};
ghost use Rattle.fit_grammar.specs.Calls.Step.{DefinesBelow, IsStep, item_of};
ghost use Rattle.fit_grammar.specs.Calls.Table.{in_force_after, definition_in};

use crate::definition::latest::Latest;
use crate::item::first_byte::first_local;
use crate::item::{Item, Step, step_under};

/// The length in bytes of the longest prefix that is a row of whole items, each data message with its definition in force. It
/// passes over each item once, and takes no memory.
pub fn longest_front(bytes: &[u8]) -> usize
    ensures { IsLongestFront bytes.now result }
{
    let mut latest = Latest::new();
    let mut front = 0;
    while let Step::Item(item, used) = step_after(&bytes[front..], &latest) {
        take_over(&mut latest, &item);
        front += used;
    }
    front
}

/// The step of a window after items with these latest definitions.
pub fn step_after<'a>(window: &'a [u8], latest: &Latest<'a>) -> Step<'a>
    ensures { IsStep (definition_in latest.now) window.now result }
{
    match window {
        [first, ..] => step_under(window, latest.get(first_local(*first))),
        [] => Step::NeedMore,
    }
}

/// If the item is a definition, makes it the latest of its local number.
pub fn take_over<'a>(latest: &mut Latest<'a>, item: &Item<'a>)
    requires { DefinesBelow 16 (Step.Item item.now 0) }
    ensures { definition_in latest.new
        ≡ in_force_after (item_of item.now) (definition_in latest.old) }
{
    match item {
        Item::Definition(definition) => latest.take(definition),
        Item::Data(_) => {}
    }
}

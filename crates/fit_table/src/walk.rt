// The one walk over the messages of a number: for the lines of a table and for the points of a track.

ghost use Rattle.std.specs.Prelude.{◌≡◌, ◌<◌, ◌≤◌, ℕ, List, length, map, slice_index_or};
ghost use Rattle.fit_grammar.specs.Format.Message.{Message, message_under, messages_of};
ghost use Rattle.fit_columns.specs.declared.plans.TheConstants.{MOST_COLUMNS};
ghost use Rattle.fit_columns.specs.Places.{IsPlanOf};
ghost use Rattle.fit_table.specs.declared.named.TheConstants.{MOST_NAMES};
ghost use Rattle.fit_table.specs.Described.{Description};
ghost use Rattle.fit_table.specs.Lookup.{AreAscending};
ghost use Rattle.fit_table.specs.NamedPlans.{AreCellsFor};
ghost use Rattle.fit_table.specs.Table.{lines_by};
ghost use Rattle.fit_table.specs.Tokens.{Token, PutsTokens};

use crate::lookup::Lookup;
use crate::named::{MOST_NAMES, NamedPlan, NamedPlans};
use fit_columns::{MOST_COLUMNS, Plan, Plans, codes_of};
use fit_grammar::{DataMessage, FileItem, LentFile, WriteFailed};
use fit_text::Pen;
use std::io::Write;

/// What is written of each message with a number.
pub trait Line {
    // The fields that are read, and the text of the message in a place, by the descriptions of developer fields and the names of columns.
    ghost fields: { Self → List ℕ };

    ghost tokens: { Self → List Description → List (List ℕ) → ℕ → Message → List Token };

    /// Puts the text of a message. The plan says where its fields are, and the other one where those of developer fields are.
    fn put<W: Write>(
        &self,
        pen: &mut Pen<'_, W>,
        plan: &Plan,
        named: &NamedPlan,
        time: Option<u32>,
        found: &DataMessage<'_>,
    ) -> Result<(), WriteFailed>
        requires numbers { (k : ℕ) → slice_index_or (fields self.now) k 0 < 256 }
        requires plan { IsPlanOf (fields self.now) found.now.definition plan.now }
        requires cells { (known : List Description) × (names : List (List ℕ)) × (place : ℕ)
            × AreCellsFor known names place found.now.definition named.now }
        ensures { (known : List Description) (names : List (List ℕ)) (place : ℕ)
            → AreCellsFor known names place found.now.definition named.now
            → PutsTokens pen.old pen.new result (tokens self.now known names place
            (message_under found.now.definition time found.now.content.now)) };
}

/// Puts the text of each message with this global number, in order, with cells for these names of developer fields.
pub fn put_lines<L: Line, W: Write>(
    pen: &mut Pen<'_, W>,
    line: &L,
    message: u16,
    fields: &[u8],
    known: &Lookup<'_, '_>,
    names: &[&[u8]],
    file: &LentFile<'_>,
) -> Result<(), WriteFailed>
    requires few { length fields.now ≤ MOST_COLUMNS }
    requires few_names { length names.now ≤ MOST_NAMES }
    requires fields { fields.now ≡ L.fields line.now }
    requires ascending { AreAscending known.now }
    ensures { PutsTokens pen.old pen.new result
        (lines_by (L.tokens line.now known.now (map (λ name. name.now) names.now)) message 0
        (messages_of file.now.items)) }
{
    let _ = file.data_size(); // Its contract bounds how many messages there are.
    let codes = codes_of(fields);
    let codes = codes.as_slice();
    let mut plans = Plans::new();
    let mut named = NamedPlans::new();
    let mut next = 0;
    for item in file.items() {
        match item {
            FileItem::Definition(definition) => {
                plans.forget(definition.local());
                named.forget(definition.local());
                continue;
            }
            FileItem::Data(found, time) => {
                let place = next;
                next += 1;
                if found.definition.global() != message {
                    named.pass(known.known(), place);
                    continue;
                }
                plans.settle(found.local, &found.definition, codes, &mut []);
                named.settle(found.local, &found.definition, known, place, names);
                let plan = plans.get(found.local);
                let cells = named.get(found.local);
                line.put(pen, plan, cells, time, &found)?;
                named.pass(known.known(), place);
            }
        }
    }
    Ok(())
}

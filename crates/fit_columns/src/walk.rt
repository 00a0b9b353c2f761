// The one walk over the messages of a number, which other code takes one after another.

ghost use Rattle.std.specs.Prelude.{◌≡◌, ◌^◌, ◌<◌, ◌≤◌, ◌++◌, ◌∷◌, [], ℕ, List, length, slice_index_or};
ghost use Rattle.fit_grammar.specs.Format.Message.{messages_of};
ghost use Rattle.fit_grammar.specs.Calls.LentItem.{items_lent};
ghost use Rattle.fit_columns.specs.declared.plans.TheConstants.{MOST_COLUMNS};
ghost use Rattle.fit_columns.specs.Fields.{SaysHeld, timed_in};
ghost use Rattle.fit_columns.specs.Places.{IsPlanOf};
ghost use Rattle.fit_columns.specs.Rows.{Row, row_of, rows_of};

use crate::plans::{Plan, Plans};
use fit_grammar::{DataMessage, FileItem, LentFile};

/// What takes messages in order, such as columns.
pub trait TakesRows {
    // What stays the same: how many rows it has room for, and the names of the buffers that it fills.
    ghost keeps: { Self → List ℕ };

    // Whether these are the messages that it took, with the fields of these codes.
    ghost has_taken: { Self → List ℕ → List Row → Type 0 };

    /// Takes the message in this place among those of the file. The plan says where its fields are.
    fn take(&mut self, plan: &Plan, place: u32, time: Option<u32>, message: &DataMessage<'_>)
        requires { (codes : List ℕ) × (rows : List Row)
            × IsPlanOf codes message.now.definition plan.now × has_taken self.old codes rows
            × (length rows < 2 ^ 32) × (length codes ≤ MOST_COLUMNS) }
        ensures keeps { keeps self.new ≡ keeps self.old }
        ensures taken { (codes : List ℕ) (rows : List Row)
            → IsPlanOf codes message.now.definition plan.now → has_taken self.old codes rows
            → has_taken self.new codes (rows ++ row_of place time message.now ∷ []) };
}

/// Hands over the messages with this global number, in order. Says at each code in `held` what the messages hold there, and returns
/// whether one has the time of a compressed timestamp.
#[inline(always)] // What takes them does so in place.
pub fn walk<T: TakesRows>(
    file: &LentFile<'_>,
    message: u16,
    codes: &[u32],
    held: &mut [u8],
    rows: &mut T,
) -> bool
    requires few { length codes.now ≤ MOST_COLUMNS }
    requires small { length (messages_of file.now.items) < 2 ^ 32 }
    requires none { (code : ℕ) → code < length held.old → slice_index_or held.old code 0 ≡ 0 }
    requires begins { T.has_taken rows.old codes.now [] }
    ensures keeps { T.keeps rows.new ≡ T.keeps rows.old }
    ensures taken { T.has_taken rows.new codes.now (rows_of message (items_lent file.now.items)) }
    ensures timed { result ≡ timed_in message (items_lent file.now.items) }
    ensures held { SaysHeld message (items_lent file.now.items) held.new }
{
    let mut plans = Plans::new();
    let mut next: u32 = 0;
    let mut timed = false;
    for item in file.items() {
        match item {
            FileItem::Definition(definition) => {
                plans.forget(definition.local());
                continue;
            }
            FileItem::Data(found, time) => {
                let place = next;
                next += 1;
                if found.definition.global() != message {
                    continue;
                }
                timed |= time.is_some();
                plans.settle(found.local, &found.definition, codes, held);
                rows.take(plans.get(found.local), place, time, &found);
            }
        }
    }
    timed
}

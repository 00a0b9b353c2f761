// The fields that the messages of a file have, as the columns of a table.

ghost use Rattle.std.specs.Prelude.{◌≡◌, ◌<◌, ◌^◌, ◌++◌, ◌∷◌, ◌||◌, if◌then◌else◌, [], ℕ, List, false, length, nat_lt, slice_index_or};
ghost use Rattle.fit_grammar.specs.Calls.LentItem.{items_lent};
ghost use Rattle.fit_files.specs.Exports.Held.{AreHeld, is_held, numbers_held, others_below};

use arrayvec::ArrayVec;
use fit_columns::{MOST_COLUMNS, find_held};
use fit_grammar::LentFile;

// The number of the field that has the time of a message.
const TIMESTAMP: u8 = 253;

/// The fields that the messages of one global number have in a file: the time, if it is there, and then the others by their numbers.
#[derive(Drop)]
pub struct Held {
    pub(crate) fields: ArrayVec<u8, MOST_COLUMNS>,
    /// How many more there are than a table has columns.
    pub left_out: usize,
}

impl Held {
    /// Those of no file.
    pub fn new() -> Held
        ensures { AreHeld [] result }
    {
        Held {
            fields: ArrayVec::new(),
            left_out: 0,
        }
    }

    // Those of the messages of this global number. If there are none, it is the time alone.
    pub(crate) fn find(&mut self, file: &LentFile<'_>, message: u16)
        ensures { AreHeld (numbers_held message file.now.items) self.new }
    {
        let held = numbers_in(file, message);
        self.fields.clear();
        self.left_out = 0;
        self.add_if(held[usize::from(TIMESTAMP)], TIMESTAMP);
        self.add_others(&held);
        if self.fields.is_empty() {
            self.add(TIMESTAMP);
        }
    }

    // Adds the numbers but that of the time.
    fn add_others(&mut self, held: &[bool; 256])
        ensures { (numbers : List ℕ) → length numbers < 2 → AreHeld numbers self.old
            → AreHeld (numbers ++ others_below (λ number. slice_index_or held.now number false) 256) self.new }
    {
        for number in 0..256 {
            self.add_if(
                held[number] & (number != usize::from(TIMESTAMP)),
                number as u8,
            );
        }
    }

    fn add_if(&mut self, is_held: bool, number: u8)
        ensures { (numbers : List ℕ) → length numbers < 2 ^ 32 → AreHeld numbers self.old
            → AreHeld (numbers ++ (if is_held then number ∷ [] else [])) self.new }
    {
        if is_held {
            self.add(number);
        }
    }

    fn add(&mut self, number: u8)
        ensures { (numbers : List ℕ) → length numbers < 2 ^ 32 → AreHeld numbers self.old
            → AreHeld (numbers ++ number ∷ []) self.new }
    {
        if self.fields.is_full() {
            self.left_out = self.left_out.saturating_add(1);
        } else {
            self.fields.push(number);
        }
    }
}

// Which numbers the fields have that are not of size 0.
fn numbers_in(file: &LentFile<'_>, message: u16) -> [bool; 256]
    ensures { (number : ℕ) → number < 256 → slice_index_or result number false
        ≡ is_held message (items_lent file.now.items) number }
{
    let mut known = [0; 256];
    let timed = find_held(file, message, &mut known);
    let mut held = [false; 256];
    for number in 0..256 {
        held[number] = is_there(known[number], (number == usize::from(TIMESTAMP)) & timed);
    }
    held
}

// 0 and 1 are no field, and one that is always of size 0.
fn is_there(held: u8, timed: bool) -> bool
    ensures { result ≡ (nat_lt 1 held || timed) }
{
    held > 1 || timed
}

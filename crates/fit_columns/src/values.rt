// The values of some fields, as the bytes that the messages of one number have.

ghost use Rattle.std.specs.Prelude.{◌≡◌, ◌+◌, ◌*◌, ◌^◌, ◌<◌, ◌≤◌, ◌++◌, ◌∷◌, [], length, map, take};
ghost use Rattle.fit_grammar.specs.Format.Message.{messages_of};
ghost use Rattle.fit_grammar.specs.Calls.LentItem.{items_lent};
ghost use Rattle.fit_columns.specs.Columns.{messages_numbered};
ghost use Rattle.fit_columns.specs.declared.plans.TheConstants.{MOST_COLUMNS};
ghost use Rattle.fit_columns.specs.Places.{ArePlacesIn, put_cells};
ghost use Rattle.fit_columns.specs.Rows.{rows_of};
ghost use Rattle.fit_columns.specs.Values.{AreHeads, order_of, place_head, places_bytes, values_of};

use crate::place::Place;
use crate::plans::Plan;
use crate::walk::{TakesRows, walk};
use fit_base::Arch;
use fit_grammar::{DataMessage, LentFile};

/// What a message has of a field.
#[repr(C)]
#[derive(Clone, Copy, Debug, Default, PartialEq, Eq)]
pub struct ValueHead {
    /// The place of the message among those of the file, from 0 on.
    pub message: u32,
    /// Where the value begins in the content of the message.
    pub at: u32,
    /// How many bytes the value has; 0 if the message has no such field.
    pub size: u16,
    /// The base type byte; 255, which is that of no type, of a developer field.
    pub base: u8,
    /// 0 if numbers begin with their low byte, and 1 if they begin with their high byte.
    pub order: u8,
}

impl ValueHead {
    fn new(place: &Place, arch: Arch, message: u32) -> Self
        ensures { result ≡ place_head arch message place.now }
    {
        ValueHead {
            message,
            at: place.at,
            size: u16::from(place.size),
            base: place.base,
            order: order_of(arch),
        }
    }
}

fn order_of(arch: Arch) -> u8
    ensures { result ≡ order_of arch }
{
    match arch {
        Arch::Little => 0,
        Arch::Big => 1,
    }
}

/// How many messages there are, and how many bytes the values have that are asked for.
#[derive(Clone, Copy, Debug, PartialEq, Eq)]
pub struct ValueCounts {
    pub rows: usize,
    pub len: usize,
}

/// Finds the values of some fields in the messages with this global number, in order: of each message the first field of each code,
/// which is the field's number, or, for a developer field, its number and 256 times one more than its index. Fills a column of heads
/// for each code, one after another in `heads`, each with room for `room` heads, and writes the bytes of the values, as they are,
/// into `values`: those of the first message in the order of the codes, then those of the next. Returns how many messages there are,
/// and how many bytes their values have, also if there is no room for them.
pub fn find_values(
    file: &LentFile<'_>,
    message: u16,
    codes: &[u32],
    room: usize,
    heads: &mut [ValueHead],
    values: &mut [u8],
) -> ValueCounts
    requires few { length codes.now ≤ MOST_COLUMNS }
    requires fits { length codes.now * room ≤ length heads.old }
    ensures rows { result.rows ≡ length (messages_numbered message (messages_of file.now.items)) }
    ensures heads { result.rows ≤ room
        → AreHeads codes.now room (rows_of message (items_lent file.now.items)) heads.new }
    ensures len { result.len
        ≡ length (values_of codes.now (rows_of message (items_lent file.now.items))) }
    ensures values { result.len ≤ length values.old → take result.len values.new
        ≡ values_of codes.now (rows_of message (items_lent file.now.items)) }
{
    let _ = file.data_size(); // Its contract bounds the number of messages.
    let mut rows = ValueRows {
        heads,
        values,
        room,
        row: 0,
        len: 0,
    };
    walk(file, message, codes, &mut [], &mut rows);
    ValueCounts {
        rows: rows.row,
        len: rows.len,
    }
}

// Columns of `room` heads, one after another in a buffer, and the bytes of the values in another; how many messages they took, and how
// many bytes.
#[derive(Drop)]
pub struct ValueRows<'a> {
    pub heads: &'a mut [ValueHead],
    pub values: &'a mut [u8],
    pub room: usize,
    pub row: usize,
    pub len: usize,
}

impl TakesRows for ValueRows<'_> {
    ghost use Rattle.fit_columns.specs.Taken.{HoldsValues};

    ghost keeps = { λ rows. rows.room ∷ rows.heads.ghost_name ∷ rows.values.ghost_name ∷ [] };

    ghost has_taken = { HoldsValues };

    #[inline(always)]
    fn take(&mut self, plan: &Plan, place: u32, time: Option<u32>, message: &DataMessage<'_>) {
        let _ = time; // Only bytes of the content are values.
        let places = plan.places.as_slice();
        if self.row < self.room {
            put_heads(self.heads, self.room, self.row, places, plan.arch, place);
        }
        self.len = put_bytes(self.values, self.len, places, message.content);
        self.row += 1;
    }
}

// Writes a row: a head into each column.
fn put_heads(
    heads: &mut [ValueHead],
    room: usize,
    row: usize,
    places: &[Place],
    arch: Arch,
    message: u32,
)
    requires row { row < room }
    requires fits { length places.now * room ≤ length heads.old }
    ensures { heads.new
        ≡ put_cells room row 0 (map (place_head arch message) places.now) heads.old }
{
    let mut i = 0;
    let mut left = places;
    while let [place, others @ ..] = left {
        heads[i * room + row] = ValueHead::new(place, arch, message);
        i += 1;
        left = others;
    }
}

// Writes the bytes of these places, one after another.
fn put_bytes(values: &mut [u8], len: usize, places: &[Place], content: &[u8]) -> usize
    requires small { len + 255 * length places.now < 2 ^ 64 }
    requires inside { ArePlacesIn (length content.now) places.now }
    ensures len { result ≡ len + length (places_bytes places.now content.now) }
    ensures most { result ≤ len + 255 * length places.now }
    ensures values { result ≤ length values.old → take result values.new
        ≡ take len values.old ++ places_bytes places.now content.now }
{
    let mut end = len;
    let mut left = places;
    while let [place, others @ ..] = left {
        let at = place.at as usize;
        end = put_value(values, end, &content[at..at + usize::from(place.size)]);
        left = others;
    }
    end
}

// Writes bytes from this place on, if there is room for them. Returns the place after them.
fn put_value(values: &mut [u8], at: usize, bytes: &[u8]) -> usize
    requires { at + length bytes.now < 2 ^ 64 }
    ensures len { result ≡ at + length bytes.now }
    ensures values { result ≤ length values.old → take result values.new
        ≡ take at values.old ++ bytes.now }
{
    let end = at + bytes.len();
    if end <= values.len() {
        values[at..end].copy_from_slice(bytes);
    }
    end
}

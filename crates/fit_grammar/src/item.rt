// Reading one item from the front of a window of bytes.

ghost use Rattle.std.specs.Prelude.{◌≡◌, ◌<◌, ◌≤◌, ◌+◌, ◌*◌, ◌++◌, ℕ, true, List, Option, IfOk, length, slice_index};
ghost use Rattle.fit_grammar.specs.declared.definition.Definition.{Definition as AnyDefinition};
ghost use Rattle.fit_grammar.specs.Format.Item.{Item as AnyItem, Spells, head_of, DefinitionHead, DataHead};
ghost use Rattle.fit_grammar.specs.Format.Records.{IsDefinedBy};
ghost use Rattle.fit_grammar.specs.Calls.Step.{IsLeastLength, IsStep, IsStepItem, ItemAtFront, ItemBegun, ShowsUndefined, least_length_of, after_fields, definition_length_of};
ghost use Rattle.fit_grammar.specs.Private.FirstByte.{local_of};

mod data_message;
pub(crate) mod first_byte;
mod front;
mod row;
pub(crate) mod writing;

use crate::definition::{DefinitionMessage, Definitions};
pub use data_message::DataMessage;
use first_byte::{Head, first_local, read_head};
pub use front::{longest_front, step_after, take_over};
pub use row::{FileItem, Items};
pub use writing::{write_data, write_definition, write_native_definition};

/// An item of a file's records. It is small: the definition is borrowed, not copied.
#[derive(Drop)]
pub enum Item<'a> {
    Definition(DefinitionMessage<'a>),
    Data(DataMessage<'a>),
}

impl<'a> Item<'a> {
    ghost use Rattle.fit_grammar.specs.Format.Item.{item_size};
    ghost use Rattle.fit_grammar.specs.Calls.Step.{item_of};

    /// The number of bytes that the item is written as. A definition that announces developer fields and has none was one byte
    /// longer when it was read.
    pub fn size(&self) -> usize
        ensures { result ≡ item_size (item_of self.now) }
    {
        match self {
            Item::Definition(definition) => definition.size(),
            Item::Data(data) => 1 + data.content.len(),
        }
    }
}

/// Why no item can be read, whatever bytes follow.
#[derive(Clone, Copy, Debug, PartialEq, Eq)]
pub enum ItemFault {
    /// A data message whose local number has no definition in force.
    UndefinedLocal(u8),
}

impl ItemFault {
    ghost use Rattle.fit_grammar.specs.Calls.FaultCode.{item_code};

    /// The number of the fault, 1.
    pub fn code(&self) -> u8
        ensures { result ≡ item_code self.now }
    {
        match self {
            ItemFault::UndefinedLocal(_) => 1,
        }
    }
}

/// What the front of a window shows.
#[derive(Drop)]
pub enum Step<'a> {
    /// An item, and the number of bytes it has in the window.
    Item(Item<'a>, usize),
    /// The window is a proper prefix of an item.
    NeedMore,
    Refused(ItemFault),
}

/// The least number of bytes that the item at the front of the window has, as far as the window shows. If the window has that
/// many, it is the item's exact length.
pub fn least_length<T: Definitions>(window: &[u8], table: &T) -> Result<usize, ItemFault>
    ensures answer { result ≡ least_length_of (T.definition_for table.now) window.now }
    // No item is longer than this.
    ensures bound { IfOk result (λ n. n ≤ 130051) }
    // What the number means for each item that the window may begin.
    ensures holds { (i : AnyItem) (rest : List ℕ) → Spells i (window.now ++ rest)
        → IsDefinedBy (T.definition_for table.now) i
        → IfOk result (λ n. IsLeastLength n (length window.now) (length (window.now ++ rest))) }
{
    length_at(window, table)
}

// The same, by the first byte.
fn length_at<T: Definitions>(window: &[u8], table: &T) -> Result<usize, ItemFault>
    ensures answer { result ≡ least_length_of (T.definition_for table.now) window.now }
    ensures bound { IfOk result (λ n. n ≤ 130051) }
{
    match window {
        [first, ..] => least_under(window, table.get(first_local(*first))),
        [] => Ok(1),
    }
}

// The least length at the front of a window that is not empty, if this is the definition of the local number in its first byte.
pub(crate) fn least_under(
    window: &[u8],
    definition: Option<DefinitionMessage<'_>>,
) -> Result<usize, ItemFault>
    requires { 1 ≤ length window.now }
    ensures answer { (f : ℕ → Option AnyDefinition)
        → f (local_of (head_of (slice_index window.now 0))) ≡ definition.entry
        → result ≡ least_length_of f window.now }
    ensures bound { IfOk result (λ n. n ≤ 130051) }
{
    match read_head(window[0]) {
        Head::Definition(_, announced) => Ok(definition_length(window, announced)),
        Head::Data(local, _) => match definition {
            None => Err(ItemFault::UndefinedLocal(local)),
            Some(definition) => Ok(1 + definition.content_size()),
        },
    }
}

// The least number of bytes of a definition: six, then those of its fields, then those of its developer fields.
pub(crate) fn definition_length(window: &[u8], announced: bool) -> usize
    ensures length { result ≡ definition_length_of announced window.now }
    ensures bound { result ≤ 1537 }
{
    if window.len() < 6 {
        return 6;
    }
    let end = 6 + 3 * window[5] as usize;
    if announced {
        1 + end + 3 * developer_count(window, end)
    } else {
        end
    }
}

// The number of developer fields at this place, or 0 if the window ends before it.
fn developer_count(window: &[u8], at: usize) -> usize
    requires { at < 1000 }
    ensures count { 1 + at + 3 * result ≡ after_fields true at window.now }
    ensures bound { result ≤ 255 }
{
    match window.get(at) {
        Some(count) => *count as usize,
        None => 0,
    }
}

/// Reads the item at the front of the window under these definitions. It takes no memory.
pub fn next_item<'a, T: Definitions>(window: &'a [u8], table: &'a T) -> Step<'a>
    // What each answer states about the window.
    ensures step { IsStep (T.definition_for table.now) window.now result }
    // When each answer comes.
    ensures item { (i : AnyItem) (used : ℕ)
        → ItemAtFront (T.definition_for table.now) window.now i used
        → IsStepItem result i used }
    ensures more { ItemBegun (T.definition_for table.now) window.now → result ≡ Step.NeedMore }
    ensures undefined { (l : ℕ) → ShowsUndefined (T.definition_for table.now) window.now l
        → result ≡ Step.Refused (ItemFault.UndefinedLocal l) }
{
    step_at(window, table)
}

// The same, by the first byte. Since no two answers are right for a window, an answer also comes whenever it is right.
fn step_at<'a, T: Definitions>(window: &'a [u8], table: &'a T) -> Step<'a>
    ensures { IsStep (T.definition_for table.now) window.now result }
{
    match window {
        [first, ..] => step_under(window, table.get(first_local(*first))),
        [] => Step::NeedMore,
    }
}

// The step of a window that is not empty, if this is the definition of the local number in its first byte.
pub(crate) fn step_under<'a>(
    window: &'a [u8],
    definition: Option<DefinitionMessage<'a>>,
) -> Step<'a>
    requires { 1 ≤ length window.now }
    ensures { (f : ℕ → Option AnyDefinition)
        → f (local_of (head_of (slice_index window.now 0))) ≡ definition.entry
        → IsStep f window.now result }
{
    match read_head(window[0]) {
        Head::Definition(_, announced) => next_definition(window, announced),
        Head::Data(local, offset) => match definition {
            None => Step::Refused(ItemFault::UndefinedLocal(local)),
            Some(definition) => next_data(window, local, offset, definition),
        },
    }
}

// The definition at the front of the window, if all of it is there.
fn next_definition<'a>(window: &'a [u8], announced: bool) -> Step<'a>
    requires begun { 1 ≤ length window.now }
    requires head { (l : ℕ) × (head_of (slice_index window.now 0) ≡ DefinitionHead l announced) }
    ensures { (f : ℕ → Option AnyDefinition) → IsStep f window.now result }
{
    let used = definition_length(window, announced);
    if window.len() < used {
        return Step::NeedMore;
    }
    let message = DefinitionMessage::new(&window[..used]);
    Step::Item(Item::Definition(message), used)
}

// The data message at the front of the window under this definition, if all of it is there.
fn next_data<'a>(
    window: &'a [u8],
    local: u8,
    offset: Option<u8>,
    definition: DefinitionMessage<'a>,
) -> Step<'a>
    requires begun { 1 ≤ length window.now }
    requires head { head_of (slice_index window.now 0) ≡ DataHead local offset }
    ensures { (f : ℕ → Option AnyDefinition) → f local ≡ Some definition.entry
        → IsStep f window.now result }
{
    let used = 1 + definition.content_size();
    if window.len() < used {
        return Step::NeedMore;
    }
    let message = DataMessage {
        local,
        offset,
        definition,
        content: &window[1..used],
    };
    Step::Item(Item::Data(message), used)
}

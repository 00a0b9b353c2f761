// The parts of an activity, joined.

ghost use Rattle.std.specs.Prelude.{◌≡◌, ◌≤◌, ◌∷◌, length, map, None, OnOk, IfOk};
ghost use Rattle.std.specs.List.{AllByRecursion};
ghost use Rattle.fit_grammar.specs.Format.Encoding.{encoded, encoded_item, encoded_items};
ghost use Rattle.fit_grammar.specs.Format.File.{FileOf};
ghost use Rattle.fit_grammar.specs.Format.Item.{Data, fields_size};
ghost use Rattle.fit_grammar.specs.Format.Message.{messages_of};
ghost use Rattle.fit_grammar.specs.Format.Records.{data_size};
ghost use Rattle.fit_grammar.specs.Calls.CheckedOutput.{WritesChecked};
ghost use Rattle.fit_grammar.specs.Calls.LentItem.{items_lent, lent_item};
ghost use Rattle.fit_grammar.specs.Calls.Output.{WritesText};
ghost use Rattle.fit_grammar.specs.Calls.PlainForm.{IsPlain};
ghost use Rattle.fit_grammar.specs.Calls.Possible.{CanBeFile};
ghost use Rattle.fit_joining.specs.Makers.{index_in};
ghost use Rattle.fit_joining.specs.Part.{tally_past};
ghost use Rattle.fit_joining.specs.Joined.{is_followed as is_followed_by, joined_messages, next_tally};
ghost use Rattle.fit_joining.specs.Content.{content_changed};
ghost use Rattle.fit_joining.specs.JoinedItems.{counted, definition_given, developer_given, item_joined, joined_file, joined_items, one_items, part_items, parts_items};
ghost use Rattle.fit_joining.specs.Private.Row.{IsWhole, data_lent};

use crate::content::put_content;
use crate::laps::laps_stay;
use crate::makers::{Given, Makers, index_in};
use crate::part::Part;
use crate::span::span_of;
use crate::sport::{put_sport, sport_due};
use crate::tally::Tally;
use crate::timer::put_event_at;
use fit_base::Crc;
use fit_grammar::{
    DataMessage, Definition, DeveloperFieldDefinition, FileItem, Item, LentFile, Sink, message_of,
    put_checked, put_definition, put_header,
};

/// Writes the records of the file that `write_joined` writes; at an `Err`, a prefix of them. It takes no memory.
pub fn write_joined_records<S: Sink>(
    first: &Part<'_, '_>,
    others: &[Part<'_, '_>],
    out: &mut S,
) -> Result<(), S::Fault>
    requires first { AllByRecursion IsPlain first.now.file.items }
    requires others { AllByRecursion (λ part. AllByRecursion IsPlain part.file.items) others.now }
    ensures { WritesText (S.held out.old) (S.held out.new) result
        (encoded_items (joined_file first.now others.now).items) }
{
    let mut checksum = Crc::new();
    put_joined(first, others, out, &mut checksum)
}

/// Writes one file of the parts of an activity, which have no compressed timestamps, in their order; at an `Err`, a prefix of it. Its
/// records have `size` bytes. It takes no memory.
pub fn write_joined<S: Sink>(
    first: &Part<'_, '_>,
    others: &[Part<'_, '_>],
    size: u32,
    out: &mut S,
) -> Result<(), S::Fault>
    requires first { AllByRecursion IsPlain first.now.file.items }
    requires others { AllByRecursion (λ part. AllByRecursion IsPlain part.file.items) others.now }
    requires size { size ≡ data_size (joined_file first.now others.now).items }
    ensures text { WritesText (S.held out.old) (S.held out.new) result
        (encoded (joined_file first.now others.now)) }
    // It is a file.
    ensures file { OnOk result
        (FileOf (encoded (joined_file first.now others.now)) (joined_file first.now others.now)) }
    // Its messages are those of the parts, in turn.
    ensures messages { OnOk result (messages_of (joined_file first.now others.now).items
        ≡ joined_messages (messages_of first.now.file.items
        ∷ map (λ part. messages_of part.file.items) others.now)) }
    ensures written_out { OnOk result
        (AllByRecursion IsPlain (joined_file first.now others.now).items) }
{
    let mut checksum = Crc::new();
    put_header(out, &mut checksum, first.file.frame(), size)?;
    put_joined(first, others, out, &mut checksum)?;
    out.put(&checksum.value().to_le_bytes())?;
    Ok(())
}

// Writes the records of the joined file.
fn put_joined<S: Sink>(
    first: &Part<'_, '_>,
    others: &[Part<'_, '_>],
    out: &mut S,
    checksum: &mut Crc,
) -> Result<(), S::Fault>
    requires first { AllByRecursion IsPlain first.now.file.items }
    requires others { AllByRecursion (λ part. AllByRecursion IsPlain part.file.items) others.now }
    ensures text { WritesChecked (S.held out.old)
        (S.held out.new) checksum.old checksum.new result
        (encoded_items (joined_items (first.now ∷ others.now))) }
    // Holds of every part.
    ensures possible { OnOk result
        (AllByRecursion (λ part. CanBeFile part.file) (first.now ∷ others.now)) }
{
    put_parts(first, others, out, checksum)?;
    put_sport(sport_due(first, others), out, checksum)
}

// Writes the records of these parts.
fn put_parts<S: Sink>(
    first: &Part<'_, '_>,
    others: &[Part<'_, '_>],
    out: &mut S,
    checksum: &mut Crc,
) -> Result<(), S::Fault>
    requires first { AllByRecursion IsPlain first.now.file.items }
    requires others { AllByRecursion (λ part. AllByRecursion IsPlain part.file.items) others.now }
    ensures text { WritesChecked (S.held out.old)
        (S.held out.new) checksum.old checksum.new result
        (encoded_items (parts_items (first.now ∷ others.now))) }
    // Holds of every part.
    ensures possible { OnOk result
        (AllByRecursion (λ part. CanBeFile part.file) (first.now ∷ others.now)) }
{
    let mut makers = Makers::new();
    let tally = Tally::first(laps_stay(first, others));
    let given = makers.take_part(&first.file);
    let begun = tally.before(&first.file);
    let mut now = put_one(
        &given,
        begun,
        &first.file,
        is_followed(others),
        out,
        checksum,
    )?;
    let mut rest = others;
    while let [part, more @ ..] = rest {
        let given = makers.take_part(&part.file);
        let begun = now.before(&part.file);
        now = put_one(&given, begun, &part.file, is_followed(more), out, checksum)?;
        rest = more;
    }
    Ok(())
}

// Whether another part follows.
fn is_followed(others: &[Part<'_, '_>]) -> bool
    ensures { result ≡ is_followed_by (map (λ part. messages_of part.file.items) others.now) }
{
    match others {
        [] => false,
        _ => true,
    }
}

// Writes a part with the timer standing around it, and returns the tally of the next one.
fn put_one<S: Sink>(
    given: &Given,
    tally: Tally,
    part: &LentFile<'_>,
    is_followed: bool,
    out: &mut S,
    checksum: &mut Crc,
) -> Result<Tally, S::Fault>
    requires { AllByRecursion IsPlain part.now.items }
    ensures text { WritesChecked (S.held out.old)
        (S.held out.new) checksum.old checksum.new result
        (encoded_items (one_items given.now tally is_followed part.now.items)) }
    ensures tally { IfOk result (λ next. next
        ≡ next_tally (tally_past tally (messages_of part.now.items))) }
    ensures possible { CanBeFile part.now }
{
    let _frame = part.frame();
    let span = span_of(tally.keeps_laps, part);
    put_event_at(span.start_due(tally.follows), 0, out, checksum)?;
    let past = put_part(given, tally, part, out, checksum)?;
    put_event_at(span.stop_due(is_followed), 4, out, checksum)?;
    Ok(past.next())
}

// Writes what stays of a part, and returns what is counted after it.
fn put_part<S: Sink>(
    given: &Given,
    first: Tally,
    part: &LentFile<'_>,
    out: &mut S,
    checksum: &mut Crc,
) -> Result<Tally, S::Fault>
    requires { AllByRecursion IsPlain part.now.items }
    ensures text { WritesChecked (S.held out.old)
        (S.held out.new) checksum.old checksum.new result
        (encoded_items (part_items given.now first (items_lent part.now.items))) }
    ensures tally { IfOk result
        (λ tally. tally ≡ tally_past first (messages_of part.now.items)) }
{
    // Each item of a file has its definition.
    let _frame = part.frame();
    let mut tally = first;
    for item in part.items() {
        tally = put_item(given, tally, item, out, checksum)?;
    }
    Ok(tally)
}

// Writes what stays of an item, and returns what is counted after it.
fn put_item<S: Sink>(
    given: &Given,
    tally: Tally,
    item: FileItem<'_>,
    out: &mut S,
    checksum: &mut Crc,
) -> Result<Tally, S::Fault>
    requires { IsWhole (lent_item item) }
    ensures text { WritesChecked (S.held out.old)
        (S.held out.new) checksum.old checksum.new result
        (encoded_items (item_joined given.now tally (lent_item item.entry))) }
    ensures tally { IfOk result (λ after. after ≡ counted tally (lent_item item.entry)) }
{
    match item {
        FileItem::Definition(definition) => {
            put_definition(out, checksum, &with_given(given, definition.read()))?;
            Ok(tally)
        }
        FileItem::Data(message, _) => put_data(given, tally, message, out, checksum),
    }
}

// A definition, with the indices that its developer fields have in the joined file.
fn with_given(given: &Given, definition: Definition) -> Definition
    ensures { result ≡ definition_given given.now definition }
{
    let mut changed = definition;
    give_indices(given, changed.developer.as_mut_slice());
    changed
}

// Gives developer fields their indices in the joined file.
fn give_indices(given: &Given, fields: &mut [DeveloperFieldDefinition])
    ensures { fields.new ≡ map (developer_given given.now) fields.old }
{
    for field in fields.iter_mut() {
        field.index = index_in(given, field.index);
    }
}

// Writes a data message if it stays, and returns what is counted after it. It has no compressed timestamp.
fn put_data<S: Sink>(
    given: &Given,
    tally: Tally,
    message: DataMessage<'_>,
    out: &mut S,
    checksum: &mut Crc,
) -> Result<Tally, S::Fault>
    requires { IsWhole (data_lent message) }
    ensures text { WritesChecked (S.held out.old)
        (S.held out.new) checksum.old checksum.new result
        (encoded_items (item_joined given.now tally (data_lent message.entry))) }
    ensures tally { IfOk result (λ after. after ≡ counted tally (data_lent message.entry)) }
{
    let local = message.local;
    let content = message.content;
    let definition = message.definition.read();
    match message_of(&Item::Data(message), 0) {
        Some(stated) if tally.keeps(&stated) => {
            put_message(given, tally, local, &definition, content, out, checksum)?;
            Ok(tally.after(&stated))
        }
        _ => Ok(tally),
    }
}

// Writes a data message of this local number, its content changed.
fn put_message<S: Sink>(
    given: &Given,
    tally: Tally,
    local: u8,
    definition: &Definition,
    content: &[u8],
    out: &mut S,
    checksum: &mut Crc,
) -> Result<(), S::Fault>
    requires { fields_size definition.now ≤ length content.now }
    ensures { WritesChecked (S.held out.old)
        (S.held out.new) checksum.old checksum.new result
        (encoded_item (Data local None
        (content_changed given.now tally definition.now.global definition.now.arch
        definition.now.fields.items content.now))) }
{
    put_checked(out, checksum, &[local])?;
    put_content(given, tally, definition, content, out, checksum)
}

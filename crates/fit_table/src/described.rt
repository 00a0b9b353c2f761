// What a file says of its developer fields.

ghost use Rattle.std.specs.Prelude.{◌≡◌, ◌≤◌, ℕ, Option, length};
ghost use Rattle.fit_grammar.specs.Format.Message.{fields_of, message_under, messages_of};
ghost use Rattle.fit_grammar.specs.Format.Item.{content_size};
ghost use Rattle.fit_columns.specs.Columns.{cell_in, found_in};
ghost use Rattle.fit_columns.specs.Fields.{fields_here};
ghost use Rattle.fit_columns.specs.Places.{IsPlace};
ghost use Rattle.fit_table.specs.Lookup.{AreAscending};
ghost use Rattle.fit_table.specs.Described.{base_in, description, descriptions_of, known_after, offset_in, scale_in, text_in, unit_stated};

use crate::unit::Unit;
use arrayvec::ArrayVec;
use fit_base::{BaseType, FieldValue};
use fit_columns::{Place, cell, fields_here};
use fit_grammar::{DataMessage, Definition, FileItem, LentFile};
use std::marker::Model;

/// The most descriptions of a file that are known.
pub const MOST_DESCRIPTIONS: usize = 256;

// The global number of messages that describe developer fields.
const FIELD_DESCRIPTION: u16 = 206;

/// What a message field_description says of a developer field.
#[derive(Drop, Default)]
pub struct Described<'a> {
    /// The place of the message among those of its file.
    pub place: u64,
    /// Which developer field it describes, if these are numbers of a byte.
    pub index: Option<i64>,
    pub number: Option<i64>,
    /// The base type byte.
    pub base: u8,
    /// The unit of its numbers.
    pub unit: Unit,
    /// The name, UTF-8 or not; empty if there is none.
    pub name: &'a [u8],
    /// The units in words, such as `watts`.
    pub units: &'a [u8],
}

impl<'a> Model for Described<'a> {
    ghost use Rattle.fit_table.specs.Lookup.{AreAscending};
    ghost use Rattle.fit_table.specs.Described.{Description};

    ghost Value = { Description };

    ghost view = { λ d. record {
      place = d.place;
      index = d.index;
      number = d.number;
      base = d.base;
      unit = d.unit;
      name = d.name.now;
      units = d.units.now;
    } };
}

/// The descriptions of a file, in order, and no more than 256.
pub fn descriptions_of<'a>(file: &LentFile<'a>) -> ArrayVec<Described<'a>, MOST_DESCRIPTIONS>
    ensures descriptions { result.items ≡ descriptions_of (messages_of file.now.items) }
    ensures ascending { AreAscending result.items }
{
    let _ = file.data_size(); // Its contract bounds how many messages there are.
    let mut known = ArrayVec::new();
    let mut place = 0;
    for item in file.items() {
        if let FileItem::Data(message, time) = item {
            let _ = time; // It is of field 253, which describes nothing.
            note(&mut known, place, &message);
            place += 1;
        }
    }
    known
}

// Adds what the message in this place describes.
fn note<'a>(
    known: &mut ArrayVec<Described<'a>, MOST_DESCRIPTIONS>,
    place: u64,
    message: &DataMessage<'a>,
)
    ensures { (time : Option ℕ) → known.new.items
        ≡ known_after known.old.items place
        (message_under message.now.definition time message.now.content.now) }
{
    if message.definition.global() == FIELD_DESCRIPTION && !known.is_full() {
        known.push(description(place, message));
    }
}

#[inline(never)]
fn description<'a>(place: u64, message: &DataMessage<'a>) -> Described<'a>
    ensures { (time : Option ℕ) → result
        ≡ description place (message_under message.now.definition time message.now.content.now) }
{
    let _ = message.definition.content_size(); // Its contract bounds the sizes.
    let definition = message.definition.read();
    Described {
        place,
        index: number_in(&definition, message.content, 0),
        number: number_in(&definition, message.content, 1),
        base: base_in(number_in(&definition, message.content, 2)),
        unit: unit_stated(
            number_in(&definition, message.content, 6),
            number_in(&definition, message.content, 7),
        ),
        name: text_in(&definition, message.content, 3),
        units: text_in(&definition, message.content, 8),
    }
}

// The place of the first field of this number.
fn place_in(definition: &Definition, number: u8) -> Place
    requires { content_size definition.now ≤ 130050 }
    ensures { IsPlace (fields_here definition.now) number result }
{
    Place::new(fields_here(definition).as_slice(), u32::from(number))
}

// The number in the first field of this number.
fn number_in(definition: &Definition, content: &[u8], number: u8) -> Option<i64>
    requires sizes { content_size definition.now ≤ 130050 }
    requires whole { content_size definition.now ≤ length content.now }
    ensures { result ≡ cell_in number
        (fields_of definition.now.arch definition.now.fields.items content.now) }
{
    let place = place_in(definition, number);
    cell(&place, definition.arch, None, content)
}

fn base_in(number: Option<i64>) -> u8
    ensures { result ≡ base_in number }
{
    match number {
        Some(n) if n >= 0 && n <= 255 => n as u8,
        _ => 255,
    }
}

// The text of the first field of this number, if it is a string.
fn text_in<'a>(definition: &Definition, content: &'a [u8], number: u8) -> &'a [u8]
    requires sizes { content_size definition.now ≤ 130050 }
    requires whole { content_size definition.now ≤ length content.now }
    ensures { result.now ≡ text_in (found_in number
        (fields_of definition.now.arch definition.now.fields.items content.now)) }
{
    let place = place_in(definition, number);
    match BaseType::of(place.base) {
        Some(BaseType::String) => {
            let at = place.at as usize;
            let bytes = &content[at..at + usize::from(place.size)];
            FieldValue::new(place.base, definition.arch, bytes).text_bytes()
        }
        _ => &[],
    }
}

// The unit of values whose description states this scale and this offset.
fn unit_stated(scale: Option<i64>, offset: Option<i64>) -> Unit
    ensures { result ≡ unit_stated scale offset }
{
    match (scale_in(scale), offset_in(offset)) {
        (1, 0) => Unit::Whole,
        (scale, offset) => Unit::Stated(scale, offset),
    }
}

fn scale_in(scale: Option<i64>) -> u8
    ensures { result ≡ scale_in scale }
{
    match scale {
        Some(n) if n >= 1 && n <= 255 => n as u8,
        _ => 1,
    }
}

fn offset_in(offset: Option<i64>) -> i8
    ensures { result ≡ offset_in offset }
{
    match offset {
        Some(n) if n >= -128 && n <= 127 => n as i8,
        _ => 0,
    }
}

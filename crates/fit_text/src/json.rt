// A file as JSON, an object on each line.

ghost use Rattle.std.specs.Prelude.{◌≡◌, ◌++◌, ℕ, List, Option, codes, option_map};
ghost use Rattle.fit_base.specs.declared.order.Arch.{Arch as AnyArch};
ghost use Rattle.fit_grammar.specs.Calls.Output.{WritesText};
ghost use Rattle.fit_text.specs.Json.{developer_json, developer_key, head_json, json_of, name_json, string_json};
ghost use Rattle.fit_text.specs.Pen.{Puts};

use crate::form::column::put_column;
use crate::form::file::{Form, ShowFault, write_file};
use crate::form::header::put_labelled;
use crate::form::plan::{Column, Plan};
use crate::notation::{AsJson, Notation, Words, json_notation};
use crate::value::bytes::put_bytes;
use crate::value::string::put_string;
use crate::writing::Pen;
use fit_base::{Arch, FieldValue};
use fit_grammar::{DeveloperFieldDefinition, LentFile, Sink};
use fit_profile::known_name;

/// Writes a file as JSON, an object on each line, in one pass and without allocation, through a buffer of its own. If `utc` is set,
/// times are dates in UTC. The writer is not flushed. If it fails, it has taken a prefix of the text.
// Not inlined, so its buffers reuse the stack on which those of the reading were.
#[inline(never)]
#[tactic(auto, unfolding(crate::specs::Json::json_of))]
pub fn show_json<S: Sink>(
    file: &LentFile<'_>,
    utc: bool,
    out: &mut S,
) -> Result<(), ShowFault<S::Fault>>
    ensures { WritesText (S.held out.old) (S.held out.new) result (json_of utc file.now) }
{
    write_file(&mut AsJson, file, utc, out)
}

impl Form for AsJson {
    ghost use Rattle.fit_text.specs.Json.{known_form};

    ghost form = { λ _. known_form };

    #[inline(always)]
    fn notation(&self) -> Notation {
        AsJson::words()
    }

    #[inline(always)]
    fn put_head<S: Sink>(
        &self,
        pen: &mut Pen<'_, S>,
        plan: &Plan,
        number: u64,
    ) -> Result<(), S::Fault> {
        put_json_head(pen, number, plan.global, known_name(plan.global))
    }

    #[inline(always)]
    fn put_field<S: Sink>(
        &mut self,
        pen: &mut Pen<'_, S>,
        plan: &Plan,
        column: &Column,
        arch: Arch,
        bytes: &[u8],
        is_first: bool,
    ) -> Result<(), S::Fault> {
        pen.room()?;
        pen.add_member(&column.label, is_first);
        put_column::<AsJson, S>(pen, arch, column, bytes)
    }

    fn put_developer_field<S: Sink>(
        &self,
        pen: &mut Pen<'_, S>,
        arch: Arch,
        number: u64,
        field: &DeveloperFieldDefinition,
        bytes: &[u8],
    ) -> Result<(), S::Fault> {
        put_developer_bytes(pen, field, bytes)
    }
}

/// What the line of the message in the place `number` has before its fields.
#[inline(always)]
pub fn put_json_head<S: Sink>(
    pen: &mut Pen<'_, S>,
    number: u64,
    global: u16,
    title: Option<&'static str>,
) -> Result<(), S::Fault>
    ensures { (name : ℕ → Option (List ℕ)) → option_map (λ title. title.now) title.entry ≡ name global
        → Puts pen.old pen.new result (head_json name number global) }
{
    pen.room()?;
    pen.add(b"{\"number\":");
    pen.add_number(number);
    pen.add(b",\"message\":");
    pen.add_number(u64::from(global));
    put_title(pen, title)
}

// The name of a message, and the beginning of its fields.
#[inline(always)]
fn put_title<S: Sink>(pen: &mut Pen<'_, S>, title: Option<&'static str>) -> Result<(), S::Fault>
    ensures { Puts pen.old pen.new result
        (codes ",\"name\":" ++ (name_json (option_map (λ title. title.now) title.entry)
        ++ codes ",\"fields\":{")) }
{
    match title {
        Some(title) => {
            pen.put(b",\"name\":\"")?;
            pen.put(title.as_bytes())?;
            pen.put(b"\",\"fields\":{")
        }
        None => pen.put(b",\"name\":null,\"fields\":{"),
    }
}

/// How the object of a developer field begins: with the index of its developer data, and its number.
pub fn put_developer_key<S: Sink>(
    pen: &mut Pen<'_, S>,
    field: &DeveloperFieldDefinition,
) -> Result<(), S::Fault>
    ensures { Puts pen.old pen.new result (developer_key field.now.index field.now.number) }
{
    put_labelled(pen, b"{\"index\":", u64::from(field.index))?;
    put_labelled(pen, b",\"number\":", u64::from(field.number))
}

/// A developer field by its bytes.
pub fn put_developer_bytes<S: Sink>(
    pen: &mut Pen<'_, S>,
    field: &DeveloperFieldDefinition,
    bytes: &[u8],
) -> Result<(), S::Fault>
    ensures { (arch : AnyArch) → Puts pen.old pen.new result
        (developer_json (record {
          index =
              field.now.index;
          number = field.now.number;
          arch = arch;
          bytes = bytes.now;
        })) }
{
    put_developer_key(pen, field)?;
    pen.put(b",\"bytes\":")?;
    put_bytes(pen, &json_notation(), bytes)?;
    pen.put(b"}")
}

/// A string of JSON, up to the first zero byte. One that is no UTF-8 is read as Latin-1.
pub fn put_json_string<S: Sink>(
    pen: &mut Pen<'_, S>,
    field: &FieldValue<'_>,
) -> Result<(), S::Fault>
    ensures { Puts pen.old pen.new result (string_json field.now.bytes) }
{
    put_string(pen, &json_notation(), field)
}

// A whole file.

ghost use Rattle.fit_grammar.specs.Calls.Output.{WritesText};
ghost use Rattle.fit_table.specs.Json.{profile_json_of};

use crate::described::descriptions_of;
use crate::json::developer::put_developer;
use crate::json::known::Known;
use crate::json::member::put_field;
use crate::lookup::Lookup;
use fit_base::{Arch, FieldValue};
use fit_grammar::{DeveloperFieldDefinition, LentFile, Sink};
use fit_profile::message_name;
use fit_text::{
    Column, Form, Notation, Pen, Plan, ShowFault, json_notation, put_json_head, write_file,
};

/// Writes a file as `show_json` of `fit_text` does, with the names and the units of the Profile.
#[inline(never)]
#[tactic(auto, unfolding(crate::specs::Json::profile_json_of))]
pub fn show_profile_json<S: Sink>(
    file: &LentFile<'_>,
    utc: bool,
    out: &mut S,
) -> Result<(), ShowFault<S::Fault>>
    ensures { WritesText (S.held out.old) (S.held out.new) result (profile_json_of utc file.now) }
{
    let known = descriptions_of(file);
    let mut form = AsProfile {
        known: Known::new(),
        descriptions: Lookup::new(known.as_slice()),
    };
    write_file(&mut form, file, utc, out)
}

/// JSON by the Profile.
#[derive(Drop)]
struct AsProfile<'k, 'a> {
    known: Known,
    descriptions: Lookup<'k, 'a>,
}

impl<'k, 'a> Form for AsProfile<'k, 'a> {
    ghost use Rattle.fit_table.specs.Json.{profile_form};

    ghost form = { λ form. profile_form form.descriptions };

    #[inline(always)]
    fn notation(&self) -> Notation {
        json_notation()
    }

    fn put_head<S: Sink>(
        &self,
        pen: &mut Pen<'_, S>,
        plan: &Plan,
        number: u64,
    ) -> Result<(), S::Fault> {
        put_json_head(pen, number, plan.global, message_name(plan.global))
    }

    fn put_field<S: Sink>(
        &mut self,
        pen: &mut Pen<'_, S>,
        plan: &Plan,
        column: &Column,
        arch: Arch,
        bytes: &[u8],
        is_first: bool,
    ) -> Result<(), S::Fault> {
        let row = self.known.row(plan.global, column.number);
        let value = FieldValue::new(column.base, arch, bytes);
        put_field(
            pen,
            plan.utc,
            plan.global,
            column.number,
            row,
            &value,
            is_first,
        )
    }

    fn put_developer_field<S: Sink>(
        &self,
        pen: &mut Pen<'_, S>,
        arch: Arch,
        number: u64,
        field: &DeveloperFieldDefinition,
        bytes: &[u8],
    ) -> Result<(), S::Fault> {
        put_developer(pen, &self.descriptions, number, arch, field, bytes)
    }
}

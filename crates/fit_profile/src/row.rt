// The rows of fields.

ghost use Rattle.std.specs.Prelude.{◌≡◌, ◌≤◌, length, option_map, IfSome};
ghost use Rattle.fit_profile.specs.Facts.{facts_of, field_rows, row_in};
ghost use Rattle.fit_profile.specs.Known.{known_at};
ghost use Rattle.fit_profile.specs.Row.{row_by, row_or_common};

use crate::known::{KNOWN_COMMON, known_fields_of};
use crate::scale::Scale;
use crate::table::fields_of;

/// A field: its number, its name, its unit as the end of a column's name has it, and the scale of its values.
pub type FieldRow = (u8, &'static str, &'static str, Scale);

/// The row of the field with this number in the messages with this global number: by the whole Profile, or by what is known without it.
pub fn row_by(profile: bool, message: u16, number: u8) -> Option<&'static FieldRow>
    ensures { option_map (λ row. facts_of row.now) result ≡ row_by profile message number }
{
    if profile {
        row_or_common(fields_of(message), number)
    } else {
        known_row(message, number)
    }
}

/// The row of the field by what is known without the Profile.
pub fn known_row(message: u16, number: u8) -> Option<&'static FieldRow>
    ensures row { option_map (λ row. facts_of row.now) result
        ≡ row_or_common (known_at message) number }
    // No name is too long for a label of the shown text.
    ensures short { IfSome result (λ row. length row.now.1.now ≤ 30) }
{
    row_or_common(known_fields_of(message), number)
}

#[tactic(auto, unfolding(crate::specs::Known::common_known))]
fn row_or_common(rows: &'static [FieldRow], number: u8) -> Option<&'static FieldRow>
    ensures { option_map (λ row. facts_of row.now) result
        ≡ row_or_common (field_rows rows.now) number }
{
    match row_in(rows, number) {
        Some(row) => Some(row),
        None => row_in(KNOWN_COMMON, number),
    }
}

fn row_in(mut rows: &'static [FieldRow], number: u8) -> Option<&'static FieldRow>
    ensures { option_map (λ row. facts_of row.now) result
        ≡ row_in (field_rows rows.entry.now) number }
{
    while let [row, others @ ..] = rows {
        if row.0 == number {
            return Some(row);
        }
        rows = others;
    }
    None
}

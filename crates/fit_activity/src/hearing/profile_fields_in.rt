// The fields of a message, if each has one value.

ghost use Rattle.std.specs.Prelude.{◌≡◌, ◌≤◌, List, [], Some, IfSome, IsSomeAnd, length, map};
ghost use Rattle.std.specs.List.{AllByRecursion};
ghost use Rattle.fit_grammar.specs.Calls.LentField.{field_view};
ghost use Rattle.fit_activity.specs.declared.speaking.profile_field.ProfileField.{ProfileField as AnyProfileField};
ghost use Rattle.fit_activity.specs.Messages.ProfileField.{message_field, ProfileFieldFits, IsShortField};

use crate::speaking::profile_field::ProfileField;
use arrayvec::ArrayVec;
use fit_grammar::{Field, Fields, Message};

// The fields, if there are at most 15 and no developer fields, and each has one value of at most four bytes. No entry's message has more.
pub(crate) fn profile_fields_in(message: &Message) -> Option<ArrayVec<ProfileField, 15>>
    ensures some { IfSome result
        (λ profile_fields. map message_field profile_fields.items ≡ message.now.message.fields) }
    ensures alone { IfSome result (λ profile_fields. message.now.message.developer ≡ []) }
    ensures fit { IfSome result
        (λ profile_fields. AllByRecursion ProfileFieldFits profile_fields.items) }
    ensures only { (profile_fields : List AnyProfileField)
        → AllByRecursion IsShortField profile_fields
        → length profile_fields ≤ 15 → map message_field profile_fields ≡ message.now.message.fields
        → message.now.message.developer ≡ []
        → IsSomeAnd result (λ found. found.items ≡ profile_fields) }
{
    if message.developer_fields().next().is_some() {
        return None;
    }
    all_of(message.fields())
}

// The fields, if there are at most 15 and each has one value of at most four bytes.
fn all_of(fields: Fields) -> Option<ArrayVec<ProfileField, 15>>
    ensures some { IfSome result (λ profile_fields. map message_field profile_fields.items
        ≡ fields.entry) }
    ensures fit { IfSome result
        (λ profile_fields. AllByRecursion ProfileFieldFits profile_fields.items) }
    ensures only { (profile_fields : List AnyProfileField)
        → AllByRecursion IsShortField profile_fields
        → length profile_fields ≤ 15 → map message_field profile_fields ≡ fields.entry
        → IsSomeAnd result (λ found. found.items ≡ profile_fields) }
{
    let mut profile_fields = ArrayVec::new();
    for field in fields {
        if profile_fields.is_full() {
            return None;
        }
        profile_fields.push(profile_field_of(&field)?);
    }
    Some(profile_fields)
}

// The field with its value, if it has exactly one, of at most four bytes.
fn profile_field_of(field: &Field) -> Option<ProfileField>
    ensures some { IfSome result (λ profile_fields. message_field profile_fields
        ≡ field_view field.now) }
    ensures fits { IfSome result ProfileFieldFits }
    ensures only { (profile_fields : AnyProfileField) → IsShortField profile_fields
        → message_field profile_fields ≡ field_view field.now → result ≡ Some profile_fields }
{
    let base = field.value.base_type()?;
    if base.size() > 4 {
        return None;
    }
    Some(ProfileField {
        number: field.number,
        base,
        value: field.number_as(base)?,
    })
}

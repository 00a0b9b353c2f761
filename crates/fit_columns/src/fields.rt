// The fields of a definition, native ones and those of developers, and what they hold.

ghost use Rattle.std.specs.Prelude.{◌≡◌, ◌+◌, ◌<◌, ◌≤◌, ◌++◌, ◌∷◌, [], ℕ, max, length, map, slice_index_or};
ghost use Rattle.fit_columns.specs.Columns.{is_whole};
ghost use Rattle.fit_columns.specs.Fields.{fields_here, native_here, developer_here, held_by, holding, is_one_by};

use crate::place::is_whole;
use arrayvec::ArrayVec;
use fit_base::BaseType;
use fit_grammar::{Definition, DeveloperFieldDefinition, FieldDefinition};

// The most fields of a definition.
const MOST_FIELDS: usize = 510;

/// A field as a definition gives it. Its code is its number; that of a developer field is its number and 256 times one more than
/// its index.
#[derive(Clone, Copy, Debug, Default)]
pub struct FieldHere {
    pub code: u32,
    pub size: u8,
    /// The base type byte; 255, which is that of no type, of a developer field.
    pub base: u8,
}

impl FieldHere {
    fn native(field: &FieldDefinition) -> Self
        ensures { result ≡ native_here field.now }
    {
        FieldHere {
            code: u32::from(field.number),
            size: field.size,
            base: field.base,
        }
    }

    fn developer(field: &DeveloperFieldDefinition) -> Self
        ensures { result ≡ developer_here field.now }
    {
        FieldHere {
            code: 256 * (u32::from(field.index) + 1) + u32::from(field.number),
            size: field.size,
            base: 255,
        }
    }

    // 1 is nothing, 2 one whole number of at most four bytes, 3 any other value.
    fn holding(&self) -> u8
        ensures { result ≡ holding self.now }
    {
        if self.size == 0 {
            1
        } else if is_one(BaseType::of(self.base), self.size) {
            2
        } else {
            3
        }
    }
}

fn is_one(base: Option<BaseType>, size: u8) -> bool
    ensures { result ≡ is_one_by base size }
{
    match base {
        Some(base) => is_whole(base) && base.size() == usize::from(size),
        None => false,
    }
}

/// The fields of a definition's messages, in their order.
pub fn fields_here(definition: &Definition) -> ArrayVec<FieldHere, MOST_FIELDS>
    ensures { result.items ≡ fields_here definition.now }
{
    let mut fields = ArrayVec::new();
    add_native(&mut fields, definition.fields.as_slice());
    add_developer(&mut fields, definition.developer.as_slice());
    fields
}

fn add_native(fields: &mut ArrayVec<FieldHere, MOST_FIELDS>, native: &[FieldDefinition])
    requires { length fields.old.items + length native.now ≤ MOST_FIELDS }
    ensures { fields.new.items ≡ fields.old.items ++ map native_here native.now }
{
    let mut left = native;
    while let [field, others @ ..] = left {
        fields.push(FieldHere::native(field));
        left = others;
    }
}

fn add_developer(
    fields: &mut ArrayVec<FieldHere, MOST_FIELDS>,
    developer: &[DeveloperFieldDefinition],
)
    requires { length fields.old.items + length developer.now ≤ MOST_FIELDS }
    ensures { fields.new.items ≡ fields.old.items ++ map developer_here developer.now }
{
    let mut left = developer;
    while let [field, others @ ..] = left {
        fields.push(FieldHere::developer(field));
        left = others;
    }
}

/// Notes at each code what the fields hold. Codes past the last are left out.
pub fn note_fields(found: &mut [u8], fields: &[FieldHere])
    ensures { (code : ℕ) → code < length found.old → slice_index_or found.new code 0
        ≡ max (slice_index_or found.old code 0) (held_by code fields.now) }
{
    let mut left = fields;
    while let [field, others @ ..] = left {
        note_field(found, field);
        left = others;
    }
}

fn note_field(found: &mut [u8], field: &FieldHere)
    ensures { (code : ℕ) → code < length found.old → slice_index_or found.new code 0
        ≡ max (slice_index_or found.old code 0) (held_by code (field.now ∷ [])) }
{
    let at = field.code as usize;
    if at < found.len() {
        found[at] = found[at].max(field.holding());
    }
}

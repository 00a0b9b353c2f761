// What a message developer_data_id states: an index, and who makes its developer data.

ghost use Rattle.std.specs.Prelude.{◌≡◌, ◌≤◌, ◌==◌, ℕ, Option, length, option_map};
ghost use Rattle.fit_base.specs.declared.base.BaseType.TheVariants.{Uint8};
ghost use Rattle.fit_base.specs.declared.order.Arch.{Arch};
ghost use Rattle.fit_base.specs.Value.{values_of};
ghost use Rattle.fit_grammar.specs.Format.Item.{fields_size};
ghost use Rattle.fit_grammar.specs.Format.Message.{fields_of, message_under};
ghost use Rattle.fit_grammar.specs.Format.OneValue.{value_of};
ghost use Rattle.fit_joining.specs.Makers.{bytes_by, id_in, is_open_by, is_single};
ghost use Rattle.fit_joining.specs.Private.Lent.{maker_lent};

use fit_base::BaseType;
use fit_grammar::{DataMessage, Definition, FieldDefinition, Item, message_of};

// Who makes developer data, lent from a message.
#[derive(Clone, Copy)]
pub(crate) struct LentMaker<'a> {
    pub(crate) application: &'a [u8],
    pub(crate) developer: &'a [u8],
}

impl<'a> LentMaker<'a> {
    // The maker that a message developer_data_id names.
    pub(crate) fn of(definition: &Definition, content: &'a [u8]) -> LentMaker<'a>
        requires { fields_size definition.now ≤ length content.now }
        ensures application { result.application.now ≡ id_in 1
            (fields_of definition.now.arch definition.now.fields.items content.now) }
        ensures developer { result.developer.now ≡ id_in 0
            (fields_of definition.now.arch definition.now.fields.items content.now) }
    {
        LentMaker {
            application: id_in(definition, content, 1),
            developer: id_in(definition, content, 0),
        }
    }

    // Whether an index that has this maker, or none, is open to this one.
    pub(crate) fn opens(&self, other: Option<LentMaker<'_>>) -> bool
        ensures { result ≡ is_open_by (maker_lent self.now) (option_map maker_lent other.entry) }
    {
        match other {
            Some(other) => {
                other.application == self.application && other.developer == self.developer
            }
            None => true,
        }
    }
}

// The index that a message developer_data_id declares.
pub(crate) fn index_stated(message: DataMessage<'_>) -> Option<u8>
    ensures { (time : Option ℕ) → result ≡ value_of Uint8 3
        (message_under message.entry.definition time message.entry.content.now) }
{
    match message_of(&Item::Data(message), 0) {
        Some(stated) => match stated.value_of(3, BaseType::Uint8) {
            Some(index) => Some(index as u8),
            None => None,
        },
        None => None,
    }
}

// The bytes of the first field of this number.
fn id_in<'a>(definition: &Definition, content: &'a [u8], number: u8) -> &'a [u8]
    requires { fields_size definition.now ≤ length content.now }
    ensures { result.now ≡ id_in number
        (fields_of definition.now.arch definition.now.fields.items content.now) }
{
    let mut fields: &[FieldDefinition] = &definition.fields;
    let mut rest = content;
    while let [field, others @ ..] = fields {
        let (bytes, after) = rest.split_at(field.size as usize);
        if field.number == number {
            return single_bytes(field.base, bytes);
        }
        fields = others;
        rest = after;
    }
    &[]
}

// The bytes of a field, if the values of its type have one byte.
fn single_bytes<'a>(base: u8, bytes: &'a [u8]) -> &'a [u8]
    ensures { (arch : Arch) → result.now ≡ bytes_by (is_single base)
        (values_of (record { base = base; arch = arch; bytes = bytes.now })) }
{
    if is_single(base) { bytes } else { &[] }
}

// Whether the values of a type have one byte.
fn is_single(base: u8) -> bool
    ensures { result ≡ is_single base }
{
    match BaseType::of(base) {
        Some(base) => base.size() == 1,
        None => false,
    }
}

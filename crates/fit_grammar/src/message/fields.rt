// The fields of a message.

use fit_base::{Arch, BaseType, FieldValue, number_of};
use std::marker::Model;

/// A field of a message: its number in the profile, and its values under its base type.
#[derive(Drop)]
pub struct Field<'m> {
    pub number: u8,
    pub value: FieldValue<'m>,
}

impl<'m> Field<'m> {
    ghost use Rattle.std.specs.Prelude.{◌≡◌, ◌≤◌, ◌<◌, ◌^◌, IfSome};
    ghost use Rattle.fit_base.specs.Base.{row_of};
    ghost use Rattle.fit_grammar.specs.Calls.LentField.{field_view};
    ghost use Rattle.fit_grammar.specs.Format.OneValue.{number_in, value_in};

    /// The value, if the field has this type, whose values have at most four bytes, and is one valid value.
    #[inline]
    pub fn value_as(&self, base: BaseType) -> Option<u32>
        requires { (row_of base).size ≤ 4 }
        ensures value { result ≡ value_in base (field_view self.now) }
        ensures fits { IfSome result (λ value. value < 256 ^ (row_of base).size) }
    {
        match self.number_as(base) {
            Some(number) if u64::from(number) != base.invalid() => Some(number),
            _ => None,
        }
    }

    /// The number of the value, valid or not, if the field has this type, whose values have at most four bytes, and is one value.
    #[inline]
    pub fn number_as(&self, base: BaseType) -> Option<u32>
        requires { (row_of base).size ≤ 4 }
        ensures number { result ≡ number_in base (field_view self.now) }
        ensures fits { IfSome result (λ number. number < 256 ^ (row_of base).size) }
    {
        if self.value.base() != base.code() {
            return None;
        }
        let bytes = self.value.raw();
        if bytes.len() != base.size() {
            return None;
        }
        Some(number_of(self.value.arch(), bytes) as u32)
    }
}

/// The fields of a message in order. The time of a compressed timestamp comes first.
#[derive(Drop)]
pub struct Fields<'m> {
    time: Option<&'m [u8]>,
    arch: Arch,
    // Three bytes for each field.
    fields: &'m [u8],
    content: &'m [u8],
}

impl<'m> Model for Fields<'m> {
    ghost use Rattle.std.specs.Prelude.{◌≡◌, ◌≤◌, List, ◌++◌, length, sum_by, option_map, IfSome};
    ghost use Rattle.fit_base.specs.Number.{low_first};
    ghost use Rattle.fit_grammar.specs.Format.Message.{MessageField, time_fields, fields_of};
    ghost use Rattle.fit_grammar.specs.Private.DefinitionBytes.{fields_in};

    ghost Value = { List MessageField };

    ghost view = { λ s. time_fields (option_map (λ bytes. low_first bytes.now) s.time)
        ++ fields_of s.arch (fields_in s.fields.now) s.content.now };

    ghost invariant = { λ s.
        (sum_by (λ field. field.size) (fields_in s.fields.now) ≤ length s.content.now)
        × IfSome s.time (λ bytes. length bytes.now ≡ 4) };
}

impl<'m> Fields<'m> {
    ghost use Rattle.std.specs.Prelude.{◌≡◌, ◌≢◌, ◌≤◌, ◌<◌, ◌^◌, ◌++◌, ◌∷◌, ℕ, List, length, sum_by, option_map, IfSome, IfNone};
    ghost use Rattle.fit_base.specs.Base.{row_of};
    ghost use Rattle.fit_base.specs.Number.{low_first};
    ghost use Rattle.fit_grammar.specs.Format.Message.{MessageField, time_fields, fields_of};
    ghost use Rattle.fit_grammar.specs.Calls.LentField.{field_with};
    ghost use Rattle.fit_grammar.specs.Private.DefinitionBytes.{fields_in};

    // The fields of this content, which begins with their bytes. A time of four bytes comes before them, if one is given.
    pub(crate) fn new(
        time: Option<&'m [u8]>,
        arch: Arch,
        fields: &'m [u8],
        content: &'m [u8],
    ) -> Self
        requires within { sum_by (λ field. field.size) (fields_in fields.now) ≤ length content.now }
        requires four { IfSome time (λ bytes. length bytes.now ≡ 4) }
        ensures { result ≡ time_fields (option_map (λ bytes. low_first bytes.now) time.entry)
            ++ fields_of arch (fields_in fields.now) content.now }
    {
        Fields {
            time,
            arch,
            fields,
            content,
        }
    }

    /// Takes the first field, if it has this number and this type, whose values have at most four bytes, and one value. `None` leaves all
    /// fields.
    #[inline]
    pub fn take_value(&mut self, number: u8, base: BaseType) -> Option<u32>
        requires { (row_of base).size ≤ 4 }
        ensures taken { IfSome result
            (λ value. self.old ≡ field_with number base value ∷ self.new) }
        ensures fits { IfSome result (λ value. value < 256 ^ (row_of base).size) }
        ensures left { IfNone result (self.new ≡ self.old) }
        ensures none { IfNone result ((value : ℕ) (others : List MessageField)
            → self.old ≢ field_with number base value ∷ others) }
    {
        if let Some(bytes) = self.time {
            if number != 253 || base != BaseType::Uint32 {
                return None;
            }
            self.time = None;
            return Some(number_of(Arch::Little, bytes) as u32);
        }
        let [first, size, code, others @ ..] = self.fields else {
            return None;
        };
        if *first != number || *code != base.code() || usize::from(*size) != base.size() {
            return None;
        }
        let (bytes, rest) = self.content.split_at(base.size());
        self.fields = others;
        self.content = rest;
        Some(number_of(self.arch, bytes) as u32)
    }
}

impl<'m> Iterator for Fields<'m> {
    ghost use Rattle.std.specs.Iterator.{item_count, YieldsFirstBy};
    ghost use Rattle.fit_grammar.specs.Calls.LentField.{field_view};

    type Item = Field<'m>;

    ghost next_gives = { YieldsFirstBy field_view (λ s. s) };

    ghost remaining = { item_count (λ s. s) };

    fn next(&mut self) -> Option<Field<'m>> {
        if let Some(bytes) = self.time.take() {
            return Some(Field {
                number: 253,
                value: FieldValue::new(0x86, Arch::Little, bytes),
            });
        }
        let [number, size, base, others @ ..] = self.fields else {
            return None;
        };
        let (bytes, rest) = self.content.split_at(*size as usize);
        self.fields = others;
        self.content = rest;
        Some(Field {
            number: *number,
            value: FieldValue::new(*base, self.arch, bytes),
        })
    }
}

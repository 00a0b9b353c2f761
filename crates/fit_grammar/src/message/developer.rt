// The developer fields of a message.

use fit_base::Arch;
use std::marker::Model;

/// A developer field of a message: its developer data index, its number, and its bytes, with their order. Other messages of the file
/// describe what the bytes mean; this crate does not read them.
#[derive(Drop)]
pub struct DeveloperField<'m> {
    pub index: u8,
    pub number: u8,
    pub arch: Arch,
    pub bytes: &'m [u8],
}

/// The developer fields of a message in order.
#[derive(Drop)]
pub struct DeveloperFields<'m> {
    arch: Arch,
    // Three bytes for each field.
    fields: &'m [u8],
    content: &'m [u8],
}

impl<'m> Model for DeveloperFields<'m> {
    ghost use Rattle.std.specs.Prelude.{◌≤◌, List, length, sum_by};
    ghost use Rattle.fit_grammar.specs.Format.Message.{MessageDeveloperField, developer_of};
    ghost use Rattle.fit_grammar.specs.Private.DefinitionBytes.{developer_in};

    ghost Value = { List MessageDeveloperField };

    ghost view = { λ s. developer_of s.arch (developer_in s.fields.now) s.content.now };

    ghost invariant = { λ s.
        sum_by (λ field. field.size) (developer_in s.fields.now) ≤ length s.content.now };
}

impl<'m> DeveloperFields<'m> {
    ghost use Rattle.std.specs.Prelude.{◌≡◌, ◌≤◌, length, sum_by};
    ghost use Rattle.fit_grammar.specs.Format.Message.{developer_of};
    ghost use Rattle.fit_grammar.specs.Private.DefinitionBytes.{developer_in};

    // The developer fields of this content, which begins with their bytes.
    pub(crate) fn new(arch: Arch, fields: &'m [u8], content: &'m [u8]) -> Self
        requires { sum_by (λ field. field.size) (developer_in fields.now) ≤ length content.now }
        ensures { result ≡ developer_of arch (developer_in fields.now) content.now }
    {
        DeveloperFields {
            arch,
            fields,
            content,
        }
    }
}

impl<'m> Iterator for DeveloperFields<'m> {
    ghost use Rattle.std.specs.Iterator.{item_count, YieldsFirstBy};
    ghost use Rattle.fit_grammar.specs.Calls.LentField.{developer_view};

    type Item = DeveloperField<'m>;

    ghost next_gives = { YieldsFirstBy developer_view (λ s. s) };

    ghost remaining = { item_count (λ s. s) };

    fn next(&mut self) -> Option<DeveloperField<'m>> {
        let [number, size, index, others @ ..] = self.fields else {
            return None;
        };
        let (bytes, rest) = self.content.split_at(*size as usize);
        self.fields = others;
        self.content = rest;
        Some(DeveloperField {
            index: *index,
            number: *number,
            arch: self.arch,
            bytes,
        })
    }
}

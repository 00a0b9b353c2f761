// Definition messages, as they are in a file.

ghost use Rattle.std.specs.Prelude.{◌≡◌, ◌≤◌, ◌*◌, length, sum_by};
ghost use Rattle.fit_base.specs.Number.{number};
ghost use Rattle.fit_grammar.specs.Format.Item.{Defines, arch_of, content_size, item_size, fields_size as fields_size_of};
ghost use Rattle.fit_grammar.specs.Private.DefinitionBytes.{fields_in, developer_in, definition_at, AreDefinition};
ghost use Rattle.fit_grammar.specs.Private.SizedDefinition.{AreSized};

use crate::definition::{Definition, DeveloperFieldDefinition, FieldDefinition};
use arrayvec::ArrayVec;
use fit_base::{Arch, number_of};
use std::marker::Model;

// The bytes of a definition, and the size in bytes of a data message's content under it.
#[derive(Clone, Copy)]
pub(crate) struct SizedBytes<'a> {
    pub(crate) bytes: &'a [u8],
    pub(crate) content_size: usize,
}

/// A definition message, borrowed in the bytes that spell it. Contracts see the definition.
#[derive(Drop)]
pub struct DefinitionMessage<'a> {
    // The size is added up once, when the definition is read.
    sized: SizedBytes<'a>,
}

impl<'a> Model for DefinitionMessage<'a> {
    ghost use Rattle.fit_grammar.specs.declared.definition.Definition.{Definition};
    ghost use Rattle.fit_grammar.specs.Private.DefinitionBytes.{definition_at};
    ghost use Rattle.fit_grammar.specs.Private.SizedDefinition.{AreSized};

    ghost Value = { Definition };

    ghost view = { λ m. definition_at m.sized.bytes.now };

    ghost invariant = { λ m. AreSized m.sized };
}

impl<'a> DefinitionMessage<'a> {
    // The definition of these bytes. It adds up the sizes of the fields and developer fields.
    pub(crate) fn new(bytes: &'a [u8]) -> Self
        requires { AreDefinition bytes.now }
        ensures { result ≡ definition_at bytes.now }
    {
        let content_size = sum_of_sizes(fields_after(bytes)) + sum_of_sizes(developer_after(bytes));
        DefinitionMessage::of(SizedBytes {
            bytes,
            content_size,
        })
    }

    // The same, if the sizes are already added up.
    pub(crate) fn of(sized: SizedBytes<'a>) -> Self
        requires { AreSized sized }
        ensures { result ≡ definition_at sized.entry.bytes.now }
    {
        DefinitionMessage { sized }
    }

    // The same definition, borrowed again.
    pub(crate) fn lent(&self) -> DefinitionMessage<'a>
        ensures { result ≡ self.now }
    {
        DefinitionMessage { sized: self.sized }
    }

    // Its bytes.
    pub(crate) fn bytes(&self) -> SizedBytes<'a>
        ensures bytes { definition_at result.bytes.now ≡ self.now }
        ensures sized { AreSized result }
    {
        self.sized
    }

    /// The local message number, 0 to 15.
    pub fn local(&self) -> u8
        ensures { result ≡ self.now.local }
    {
        self.sized.bytes[0] % 16
    }

    /// The byte order of the numbers in the definition and in its data messages.
    pub fn arch(&self) -> Arch
        ensures { result ≡ self.now.arch }
    {
        read_arch(self.sized.bytes[2])
    }

    /// The global message number, as the profile numbers messages.
    pub fn global(&self) -> u16
        ensures { result ≡ self.now.global }
    {
        number_of(self.arch(), &self.sized.bytes[3..5]) as u16
    }

    // The bytes of the fields, three for each.
    pub(crate) fn fields(&self) -> &'a [u8]
        ensures fields { fields_in result.now ≡ self.now.fields.items }
        ensures bound { length result.now ≤ 765 }
    {
        fields_after(self.sized.bytes)
    }

    // The bytes of the developer fields, three for each.
    pub(crate) fn developer(&self) -> &'a [u8]
        ensures fields { developer_in result.now ≡ self.now.developer.items }
        ensures bound { length result.now ≤ 765 }
    {
        developer_after(self.sized.bytes)
    }

    // The size of the fields' content in bytes.
    pub(crate) fn fields_size(&self) -> usize
        ensures { result ≡ fields_size_of self.now }
    {
        sum_of_sizes(self.fields())
    }

    /// The size in bytes of a data message's content under this definition, without the message's first byte.
    pub fn content_size(&self) -> usize
        ensures size { result ≡ content_size self.now }
        ensures bound { result ≤ 130050 }
    {
        self.sized.content_size
    }

    // The number of bytes that the definition is written as.
    pub(crate) fn size(&self) -> usize
        ensures { result ≡ item_size (Defines self.now) }
    {
        let bytes = self.sized.bytes;
        let end = 6 + fields_size(bytes[5]);
        // Without developer fields their number is left out.
        if bytes.len() == end + 1 {
            end
        } else {
            bytes.len()
        }
    }

    /// Reads the whole definition.
    pub fn read(&self) -> Definition
        ensures { result ≡ self.now }
    {
        Definition {
            local: self.local(),
            arch: self.arch(),
            global: self.global(),
            fields: read_fields(self.fields()),
            developer: read_developer(self.developer()),
        }
    }
}

// The bytes of the fields, after the first six of a definition.
fn fields_after(bytes: &[u8]) -> &[u8]
    requires { AreDefinition bytes.now }
    ensures fields { fields_in result.now ≡ (definition_at bytes.now).fields.items }
    ensures bound { length result.now ≤ 765 }
{
    let size = fields_size(bytes[5]);
    &bytes[6..6 + size]
}

// The bytes of the developer fields, after their number. There are none if the definition announces none.
fn developer_after(bytes: &[u8]) -> &[u8]
    requires { AreDefinition bytes.now }
    ensures fields { developer_in result.now ≡ (definition_at bytes.now).developer.items }
    ensures bound { length result.now ≤ 765 }
{
    let end = 6 + fields_size(bytes[5]);
    if end < bytes.len() {
        &bytes[end + 1..]
    } else {
        &[]
    }
}

// The sum of the sizes of the fields that these bytes spell. Developer fields have their sizes at the same places.
fn sum_of_sizes(bytes: &[u8]) -> usize
    requires { length bytes.now ≤ 765 }
    ensures sum { result ≡ sum_by (λ field. field.size) (fields_in bytes.now) }
    ensures developer { result ≡ sum_by (λ field. field.size) (developer_in bytes.now) }
    ensures bound { result ≤ 65025 }
{
    let mut size = 0;
    let mut rest = bytes;
    while let [_, own, _, others @ ..] = rest {
        size += *own as usize;
        rest = others;
    }
    size
}

// The number of bytes that so many fields have.
fn fields_size(count: u8) -> usize
    ensures size { result ≡ 3 * count }
    ensures bound { result ≤ 765 }
{
    3 * count as usize
}

// The architecture that its byte encodes.
fn read_arch(byte: u8) -> Arch
    ensures { result ≡ arch_of byte }
{
    if byte % 2 == 0 {
        Arch::Little
    } else {
        Arch::Big
    }
}

// The fields that these bytes spell, three bytes for each.
fn read_fields(bytes: &[u8]) -> ArrayVec<FieldDefinition, 255>
    requires { length bytes.now ≤ 765 }
    ensures { result.items ≡ fields_in bytes.now }
{
    let mut fields = ArrayVec::new();
    let mut rest = bytes;
    while let [number, size, base, others @ ..] = rest {
        fields.push(FieldDefinition {
            number: *number,
            size: *size,
            base: *base,
        });
        rest = others;
    }
    fields
}

// The developer fields that these bytes spell, three bytes for each.
fn read_developer(bytes: &[u8]) -> ArrayVec<DeveloperFieldDefinition, 255>
    requires { length bytes.now ≤ 765 }
    ensures { result.items ≡ developer_in bytes.now }
{
    let mut fields = ArrayVec::new();
    let mut rest = bytes;
    while let [number, size, index, others @ ..] = rest {
        fields.push(DeveloperFieldDefinition {
            number: *number,
            size: *size,
            index: *index,
        });
        rest = others;
    }
    fields
}

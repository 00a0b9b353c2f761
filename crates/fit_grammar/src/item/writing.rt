// Writing items in the one form that has every reserved bit and byte 0.

ghost use Rattle.std.specs.Prelude.{◌≡◌, ◌+◌, ◌*◌, ◌<◌, ◌≤◌, ◌++◌, ◌∷◌, [], length, drop, flat_map};
ghost use Rattle.std.specs.List.{AllByRecursion};
ghost use Rattle.fit_grammar.specs.Format.Item.{Defines, Data, field_bytes, developer_bytes, developer_part, part_size, has_any, item_size, native_definition};
ghost use Rattle.fit_grammar.specs.Format.Encoding.{arch_byte, definition_byte, two_bytes, data_byte as data_byte_of, encoded_item, HasEncoding};
ghost use Rattle.fit_grammar.specs.Calls.Possible.{FieldFits, DeveloperFieldFits, DefinitionFits};

use crate::definition::{Definition, DeveloperFieldDefinition, FieldDefinition};
use fit_base::Arch;

// The number of bytes of the longest definition, which has 255 fields and 255 developer fields.
pub(crate) const LONGEST_DEFINITION: usize = 1537;

/// Writes a definition at the front of `out`, and leaves the bytes after it. Returns the number of bytes written.
pub fn write_definition(definition: &Definition, out: &mut [u8]) -> usize
    requires local { definition.now.local < 16 }
    requires room { item_size (Defines definition.now) ≤ length out.old }
    ensures count { result ≡ item_size (Defines definition.now) }
    ensures written { out.new ≡ encoded_item (Defines definition.now) ++ drop result out.old }
    // Each number fits into its bytes, as its type guarantees.
    ensures fits { DefinitionFits definition.now }
{
    let Definition { arch, global, .. } = *definition;
    let (front, after) = out.split_at_mut(6 + 3 * definition.fields.len());
    let used = write_front(
        first_byte(definition),
        arch,
        global,
        &definition.fields,
        front,
    );
    used + write_developer_part(&definition.developer, after)
}

/// Writes a definition of these fields at the front of `out`, without developer fields, and leaves the bytes after it. Returns
/// the number of bytes written.
pub fn write_native_definition(
    local: u8,
    arch: Arch,
    global: u16,
    fields: &[FieldDefinition],
    out: &mut [u8],
) -> usize
    requires local { local < 16 }
    requires count { length fields.now < 256 }
    requires room { 6 + 3 * length fields.now ≤ length out.old }
    ensures count { result ≡ 6 + 3 * length fields.now }
    ensures written { out.new
        ≡ encoded_item (Defines (native_definition local arch global fields.now))
        ++ drop result out.old }
    ensures fits { DefinitionFits (native_definition local arch global fields.now) }
{
    write_front(0x40 + local, arch, global, fields, out)
}

// Writes the first six bytes of a definition, of which `first` is the very first, and its fields. Returns the number of bytes
// written.
fn write_front(
    first: u8,
    arch: Arch,
    global: u16,
    fields: &[FieldDefinition],
    out: &mut [u8],
) -> usize
    requires count { length fields.now < 256 }
    requires room { 6 + 3 * length fields.now ≤ length out.old }
    ensures count { result ≡ 6 + 3 * length fields.now }
    ensures written { out.new
        ≡ first ∷ 0 ∷ arch_byte arch ∷ (two_bytes arch global ++ length fields.now
        ∷ (flat_map field_bytes fields.now ++ drop result out.old)) }
    // As their types guarantee.
    ensures global { global < 65536 }
    ensures fields { AllByRecursion FieldFits fields.now }
{
    let [low, high] = number_bytes(arch, global);
    out[..6].copy_from_slice(&[first, 0, arch_number(arch), low, high, fields.len() as u8]);
    write_fields(fields, &mut out[6..]);
    6 + 3 * fields.len()
}

// The first byte of a definition. It announces developer fields if there are any.
fn first_byte(definition: &Definition) -> u8
    requires { definition.now.local < 16 }
    ensures { result
        ≡ definition_byte definition.now.local (has_any definition.now.developer.items) }
{
    if definition.developer.is_empty() {
        0x40 + definition.local
    } else {
        0x60 + definition.local
    }
}

// Writes the number of the developer fields and three bytes for each, if there are any. Returns the number of bytes written.
fn write_developer_part(fields: &[DeveloperFieldDefinition], out: &mut [u8]) -> usize
    requires count { length fields.now < 256 }
    requires room { part_size (has_any fields.now) (length fields.now) ≤ length out.old }
    ensures count { result ≡ part_size (has_any fields.now) (length fields.now) }
    ensures written { out.new
        ≡ developer_part (has_any fields.now) fields.now ++ drop result out.old }
    ensures fit { AllByRecursion DeveloperFieldFits fields.now }
{
    if fields.is_empty() {
        return 0;
    }
    out[0] = fields.len() as u8;
    write_developer_fields(fields, &mut out[1..]);
    1 + 3 * fields.len()
}

/// Writes a data message at the front of `out`, with a compressed timestamp if an offset is given, and leaves the bytes after
/// it. Returns the number of bytes written.
pub fn write_data(local: u8, offset: Option<u8>, content: &[u8], out: &mut [u8]) -> usize
    requires encoding { HasEncoding (Data local offset []) }
    requires room { 1 + length content.now ≤ length out.old }
    ensures count { result ≡ 1 + length content.now }
    ensures written { out.new
        ≡ encoded_item (Data local offset content.now) ++ drop result out.old }
    // As its type guarantees.
    ensures bytes { AllByRecursion (λ byte. byte < 256) content.now }
{
    let used = 1 + content.len();
    out[0] = data_byte(local, offset);
    out[1..used].copy_from_slice(content);
    used
}

// The architecture byte.
fn arch_number(arch: Arch) -> u8
    ensures { result ≡ arch_byte arch }
{
    match arch {
        Arch::Little => 0,
        Arch::Big => 1,
    }
}

// The first byte of a data message.
pub(crate) fn data_byte(local: u8, offset: Option<u8>) -> u8
    requires { HasEncoding (Data local offset []) }
    ensures { result ≡ data_byte_of local offset }
{
    match offset {
        None => local,
        Some(offset) => 128 + 32 * local + offset,
    }
}

// The two bytes of a number.
fn number_bytes(arch: Arch, number: u16) -> [u8; 2]
    ensures bytes { result ≡ two_bytes arch number }
    // As its type guarantees.
    ensures fits { number < 65536 }
{
    match arch {
        Arch::Little => number.to_le_bytes(),
        Arch::Big => number.to_be_bytes(),
    }
}

// Writes the fields, three bytes for each.
fn write_fields(fields: &[FieldDefinition], out: &mut [u8])
    requires { 3 * length fields.now ≤ length out.old }
    ensures written { out.new
        ≡ flat_map field_bytes fields.now ++ drop (3 * length fields.now) out.old }
    // As their types guarantee.
    ensures fit { AllByRecursion FieldFits fields.now }
{
    for (i, field) in fields.iter().enumerate() {
        let FieldDefinition { number, size, base } = field.in_bytes();
        out[3 * i..3 * i + 3].copy_from_slice(&[number, size, base]);
    }
}

// Writes the developer fields, three bytes for each.
fn write_developer_fields(fields: &[DeveloperFieldDefinition], out: &mut [u8])
    requires { 3 * length fields.now ≤ length out.old }
    ensures written { out.new
        ≡ flat_map developer_bytes fields.now ++ drop (3 * length fields.now) out.old }
    // As their types guarantee.
    ensures fit { AllByRecursion DeveloperFieldFits fields.now }
{
    for (i, field) in fields.iter().enumerate() {
        let DeveloperFieldDefinition {
            number,
            size,
            index,
        } = field.in_bytes();
        out[3 * i..3 * i + 3].copy_from_slice(&[number, size, index]);
    }
}

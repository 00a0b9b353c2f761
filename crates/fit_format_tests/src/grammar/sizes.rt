// Long content, long files, and many messages.

ghost use Rattle.std.specs.Prelude.{◌≡◌};

use crate::definitions::put_data;
use crate::equality::equal;
use crate::grammar::pieces::written;
use crate::known_files::empty_file;
use crate::slow::Slow;
use arrayvec::ArrayVec;
use fit_base::Arch;
use fit_grammar::{
    Definition, DeveloperFieldDefinition, FieldDefinition, File, Message, PutFault, Sink,
    WriteFailed, decode_file, encode_file,
};
use std::alloc::{AllocError, Global};
use std::process::Abort;
use std::test::Fail;

// Adds a field of this size, or a developer field if there are 255 fields. Returns false if there are 255 of both.
fn add_field(
    fields: &mut ArrayVec<FieldDefinition, 255>,
    developer: &mut ArrayVec<DeveloperFieldDefinition, 255>,
    size: u8,
) -> bool {
    if fields.is_full() {
        let field = DeveloperFieldDefinition {
            number: 7,
            size,
            index: 1,
        };
        developer.try_push(field).is_ok()
    } else {
        let field = FieldDefinition {
            number: 99,
            size,
            base: 0x0D,
        };
        fields.try_push(field).is_ok()
    }
}

// A definition of a record whose content has this size, in fields of 255 bytes and one for the rest. After 255 fields come
// developer fields.
pub(crate) fn definition_of(rt: &impl Abort, size: usize) -> Definition
    ensures { result.local ≡ 3 }
{
    let mut fields = ArrayVec::new();
    let mut developer = ArrayVec::new();
    let mut left = size;
    for _ in 0..size.div_ceil(255) {
        let own = left.min(255);
        assert!(rt; add_field(&mut fields, &mut developer, own as u8));
        left -= own;
    }
    Definition {
        local: 3,
        arch: Arch::Big,
        global: 20,
        fields,
        developer,
    }
}

// Bytes in which no two in a row repeat the two before them.
pub(crate) fn content_of(alloc: Global, size: usize) -> Result<Vec<u8>, AllocError> {
    let mut content = Vec::new(alloc);
    for at in 0..size {
        content.push((at % 251) as u8 ^ (at / 251 % 241) as u8)?;
    }
    Ok(content)
}

// The content of all messages of the file, joined.
fn shown(alloc: Global, file: &File) -> Result<Vec<u8>, AllocError> {
    let mut content = Vec::new(alloc);
    for message in file.messages() {
        push_fields(&mut content, &message)?;
        push_developer_fields(&mut content, &message)?;
    }
    Ok(content)
}

fn push_fields(content: &mut Vec<u8>, message: &Message) -> Result<(), AllocError> {
    for field in message.fields() {
        content.extend_from_slice(field.value.raw())?;
    }
    Ok(())
}

fn push_developer_fields(content: &mut Vec<u8>, message: &Message) -> Result<(), AllocError> {
    for field in message.developer_fields() {
        content.extend_from_slice(field.bytes)?;
    }
    Ok(())
}

// A file with a message of this content.
fn file_with(rt: &impl Abort, alloc: Global, content: &[u8]) -> Result<File, PutFault> {
    let mut file = empty_file(alloc);
    file.define(&definition_of(rt, content.len()))?;
    file.data(3, Some(31), content)?;
    Ok(file)
}

// The content of a message of this size comes back. Its definition has so many bytes.
fn check_content(rt: &impl Abort, alloc: Global, size: usize, spelled: usize) -> Result<(), Fail> {
    let content = content_of(alloc, size)?;
    let file = file_with(rt, alloc, content.as_slice())?;
    let data = spelled.saturating_add(1).saturating_add(size);
    equal(rt, file.data_size() as usize, data);
    let bytes = written(alloc, &file)?;
    equal(rt, bytes.len(), data.saturating_add(16));
    check_item(rt, bytes.as_slice(), spelled, content.as_slice());
    check_read(rt, alloc, bytes.as_slice(), content.as_slice())
}

// The message after a header of 14 bytes and a definition of so many bytes is an offset of 31 and this content.
fn check_item(rt: &impl Abort, bytes: &[u8], spelled: usize, content: &[u8]) {
    let size = content.len();
    let at = spelled.saturating_add(14);
    let end = at.saturating_add(1).saturating_add(size);
    let item = bytes.get(at..end).expect(rt, "an item");
    assert!(rt; item.strip_prefix(&[0xFF]) == Some(content), "{size}");
}

// The fields of the one message of a file, after its time, have this content.
fn check_read(rt: &impl Abort, alloc: Global, bytes: &[u8], content: &[u8]) -> Result<(), Fail> {
    let read = decode_file(alloc, bytes)?;
    let fields = shown(alloc, &read)?;
    let time = [31, 0, 0, 0].as_slice();
    let size = content.len();
    assert!(rt;
        fields.as_slice().strip_prefix(time) == Some(content),
        "{size}"
    );
    Ok(())
}

// The size of content, and that of its definition: six bytes, three for each field, and one more if there are developer fields.
static SIZES: [(usize, usize); 6] = [
    (255, 9),
    (256, 12),
    (5_000, 66),
    (65_025, 771),
    (65_026, 775),
    (130_050, 1_537),
];

#[test]
fn long_content(rt: HostRuntime) -> Result<(), Fail> {
    for (size, spelled) in SIZES {
        check_content(&rt, rt.alloc(), size, spelled)?;
    }
    Ok(())
}

// A file of more than a million messages of one byte.
fn many(rt: &impl Abort, alloc: Global) -> Result<File, PutFault> {
    let mut file = empty_file(alloc);
    file.define(&definition_of(rt, 1))?;
    for at in 0..1_000_001u32 {
        put_data(&mut file, 3, None, &[(at % 251) as u8])?;
    }
    Ok(file)
}

// The bytes of those messages, read again.
fn check_many(rt: &impl Abort, alloc: Global, bytes: &[u8]) -> Result<(), Fail> {
    let read = decode_file(alloc, bytes)?;
    let content = shown(alloc, &read)?;
    equal(rt, content.len(), 1_000_001);
    for (at, byte) in content.iter().enumerate() {
        equal(rt, *byte, (at % 251) as u8);
    }
    Ok(())
}

// They are written to a writer that takes three bytes a call.
#[test]
fn many_messages(rt: HostRuntime) -> Result<(), Fail> {
    let file = many(&rt, rt.alloc())?;
    equal(&rt, file.data_size(), 2_000_011);
    let mut out = Slow::new(rt.alloc(), 3, usize::MAX);
    encode_file(&file, &mut out)?;
    equal(&rt, out.written().len(), 14 + 2_000_011 + 2);
    check_many(&rt, rt.alloc(), out.written())
}

// Asserts that a writer that takes so many bytes a call receives the whole text.
fn check_put(rt: &impl Abort, alloc: Global, text: &[u8], step: usize) -> Result<(), WriteFailed> {
    let mut out = Slow::new(alloc, step, usize::MAX);
    out.put(text)?;
    assert!(rt; out.written() == text, "{step}");
    Ok(())
}

#[test]
fn puts_all_to_a_slow_writer(rt: HostRuntime) -> Result<(), Fail> {
    let text = content_of(rt.alloc(), 100_000)?;
    for step in [1, 2, 7, 99_999, 100_000] {
        check_put(&rt, rt.alloc(), text.as_slice(), step)?;
    }
    Ok(())
}

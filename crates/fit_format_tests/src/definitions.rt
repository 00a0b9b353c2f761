// Definitions and files from tables. A field is a triple: its number, its size, and its base type or index.

use crate::known_files::empty_file;
use arrayvec::ArrayVec;
use fit_base::Arch;
use fit_grammar::{Definition, DeveloperFieldDefinition, FieldDefinition, File, PutFault};
use std::alloc::Global;
use std::test::Fail;

// An item to put into a file: a definition (its local number, byte order, global number, fields and developer fields), or a message
// (its local number, the offset of a compressed timestamp, and its content).
#[derive(Drop)]
pub(crate) enum Put<'a> {
    Definition(u8, Arch, u16, &'a [(u8, u8, u8)], &'a [(u8, u8, u8)]),
    Data(u8, Option<u8>, &'a [u8]),
}

fn own_fields(triples: &[(u8, u8, u8)]) -> Result<ArrayVec<FieldDefinition, 255>, Fail> {
    let mut fields = ArrayVec::new();
    for (number, size, base) in triples {
        fields.try_push(FieldDefinition {
            number: *number,
            size: *size,
            base: *base,
        })?;
    }
    Ok(fields)
}

fn developer_fields(
    triples: &[(u8, u8, u8)],
) -> Result<ArrayVec<DeveloperFieldDefinition, 255>, Fail> {
    let mut fields = ArrayVec::new();
    for (number, size, index) in triples {
        fields.try_push(DeveloperFieldDefinition {
            number: *number,
            size: *size,
            index: *index,
        })?;
    }
    Ok(fields)
}

// A definition of these fields and developer fields.
pub(crate) fn definition_with(
    local: u8,
    arch: Arch,
    global: u16,
    fields: &[(u8, u8, u8)],
    developer: &[(u8, u8, u8)],
) -> Result<Definition, Fail> {
    Ok(Definition {
        local,
        arch,
        global,
        fields: own_fields(fields)?,
        developer: developer_fields(developer)?,
    })
}

// Defines a local number below 16. This and the next are the calls of a file without their contracts.
pub(crate) fn define(file: &mut File, definition: &Definition) -> Result<(), PutFault> {
    if definition.local < 16 {
        file.define(definition)
    } else {
        Err(PutFault::UndefinedLocal)
    }
}

pub(crate) fn put_data(
    file: &mut File,
    local: u8,
    offset: Option<u8>,
    content: &[u8],
) -> Result<(), PutFault> {
    file.data(local, offset, content)
}

// A file of these items.
pub(crate) fn file_of(alloc: Global, items: &[Put<'_>]) -> Result<File, Fail> {
    let mut file = empty_file(alloc);
    for item in items {
        match item {
            Put::Definition(local, arch, global, fields, developer) => {
                let definition = definition_with(*local, *arch, *global, *fields, *developer)?;
                define(&mut file, &definition)?;
            }
            Put::Data(local, offset, content) => put_data(&mut file, *local, *offset, *content)?,
        }
    }
    Ok(file)
}
